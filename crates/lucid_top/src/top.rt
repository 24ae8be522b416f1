//! The command.
ghost use Rattle.std.specs.Prelude.{◌≡◌, Some, map};
ghost use Rattle.std.specs.String.{string_bytes};
ghost use Rattle.lucid_words.specs.Asked.{plain_words, words_asked};
ghost use Rattle.lucid_ports.specs.Told.{told};
ghost use Rattle.lucid_session.specs.Runs.{policy_view};
ghost use Rattle.lucid_top.specs.Call.{call};
ghost use Rattle.lucid_top.specs.Tasks.{task_of};
ghost use Rattle.lucid_top.specs.Coming.{Does, MayBegin};
ghost use Rattle.lucid_top.specs.Clauses.{MeetsClauses, MeetsOutcome};
ghost use Rattle.lucid_top.specs.Headline.{HasHeadline};
ghost use Rattle.lucid_top.specs.Parts.{call_of};

use crate::certificates::{check_task, why_task};
use crate::laws::one_verdict;
use crate::running::policy_of;
use crate::runs::{columns_task, run_task};
use crate::task::Asked;
use crate::terms::{Choices, Terms};
use crate::writing::{cycles_task, flat_task, print_task};
use lucid_ports::{Places, Sink};
use lucid_report::{Done, Status, Stop, tell};
use lucid_retire::Retire;
use lucid_schedule::{Newest, Pick};
use lucid_words::{Words, read_words};
use std::alloc::Global;

// Does what the words ask for, which were read; a run goes by these choices.
fn do_words<R: Retire, S: Pick, P: Places, K: Sink>(
    alloc: Global,
    words: &Words,
    choices: Choices<R, S>,
    places: &mut P,
    out: &mut K,
) -> Result<Done, Stop>
    requires { MayBegin words.now (task_of (plain_words words.now)) (P.world places.old) }
    ensures { Does (call_of P.world K.written K.faults K.late (policy_view R.keeps R.empties R.most choices.policy) (Some (plain_words words.now)) places.old places.new out.old out.new) result }
{
    match Asked::of(words) {
        Asked::Run(form) => {
            let terms = Terms {
                alloc,
                words,
                columns: None,
                choices,
            };
            run_task(terms, form, places, out)
        }
        Asked::Columns(names) => {
            let terms = Terms {
                alloc,
                words,
                columns: Some(names),
                choices,
            };
            columns_task(terms, places, out)
        }
        Asked::Print => print_task(alloc, words, places, out),
        Asked::Cycles => cycles_task(alloc, words, places, out),
        Asked::Why(time) => why_task(alloc, words, time, places, out),
        Asked::Check(file) => check_task(alloc, words, file, places, out),
        Asked::Flat => flat_task(alloc, words, places, out),
    }
}

// Does what the words ask for, by the policy that they name. The task that was made last steps next.
fn do_task<P: Places, K: Sink>(
    alloc: Global,
    words: &[String],
    places: &mut P,
    out: &mut K,
) -> Result<Done, Stop>
    requires { (P.world places.old).reached ≡ 0 }
    ensures { Does (call (words_asked (map string_bytes words.now)) (P.world places.old) (P.world places.new) (told K.written K.faults K.late out.old) (told K.written K.faults K.late out.new)) result }
{
    let words = read_words(alloc, words)?;
    let policy = policy_of(alloc, &words)?;
    let choices = Choices {
        policy,
        pick: Newest,
    };
    do_words(alloc, &words, choices, places, out)
}

// Does what the words ask for, by choices that are given.
fn do_task_under<R: Retire, S: Pick, P: Places, K: Sink>(
    alloc: Global,
    words: &[String],
    choices: Choices<R, S>,
    places: &mut P,
    out: &mut K,
) -> Result<Done, Stop>
    requires { (P.world places.old).reached ≡ 0 }
    ensures { Does (call_of P.world K.written K.faults K.late (policy_view R.keeps R.empties R.most choices.policy) (words_asked (map string_bytes words.now)) places.old places.new out.old out.new) result }
{
    let words = read_words(alloc, words)?;
    do_words(alloc, &words, choices, places, out)
}

/// Does what the words ask for and writes to `out`. Nothing is reported: how the call ended is given. The words are those after the
/// command's own name.
pub fn outcome_of<P: Places, K: Sink>(
    alloc: Global,
    words: &[String],
    places: &mut P,
    out: &mut K,
) -> Result<Done, Stop>
    requires { (P.world places.old).reached ≡ 0 }
    ensures { MeetsOutcome
        (call (words_asked (map string_bytes words.now)) (P.world places.old) (P.world places.new) (told K.written K.faults K.late out.old) (told K.written K.faults K.late out.new))
        result }
{
    // For the proof: a source has one verdict, so a refusal comes wherever it is the first.
    one_verdict();
    do_task(alloc, words, places, out)
}

// The same by choices that are given.
fn outcome_under<R: Retire, S: Pick, P: Places, K: Sink>(
    alloc: Global,
    words: &[String],
    choices: Choices<R, S>,
    places: &mut P,
    out: &mut K,
) -> Result<Done, Stop>
    requires { (P.world places.old).reached ≡ 0 }
    ensures { MeetsOutcome
        (call_of P.world K.written K.faults K.late (policy_view R.keeps R.empties R.most choices.policy) (words_asked (map string_bytes words.now)) places.old places.new out.old out.new)
        result }
{
    // For the proof: a source has one verdict, so a refusal comes wherever it is the first.
    one_verdict();
    do_task_under(alloc, words, choices, places, out)
}

/// The command: does what the words ask for, writes to `out`, and reports on `report` how it ended. The words are those after the
/// command's own name.
pub fn lucid<P: Places, K: Sink, E: Sink>(
    alloc: Global,
    words: &[String],
    places: &mut P,
    out: &mut K,
    report: &mut E,
) -> Status
    requires { (P.world places.old).reached ≡ 0 }
    ensures { MeetsClauses
        (call (words_asked (map string_bytes words.now)) (P.world places.old) (P.world places.new) (told K.written K.faults K.late out.old) (told K.written K.faults K.late out.new))
        (told E.written E.faults E.late report.old) (told E.written E.faults E.late report.new) result }
{
    let outcome = outcome_of(alloc, words, places, out);
    tell(report, &outcome)
}

/// The same call, whose run goes by this policy and this pick in place of the policy of the words. So the clauses and the headline are those of
/// every policy and every pick.
pub fn lucid_under<R: Retire, S: Pick, P: Places, K: Sink, E: Sink>(
    alloc: Global,
    words: &[String],
    policy: R,
    pick: S,
    places: &mut P,
    out: &mut K,
    report: &mut E,
) -> Status
    requires { (P.world places.old).reached ≡ 0 }
    ensures clauses { MeetsClauses
        (call_of P.world K.written K.faults K.late (policy_view R.keeps R.empties R.most policy) (words_asked (map string_bytes words.now)) places.old places.new out.old out.new)
        (told E.written E.faults E.late report.old) (told E.written E.faults E.late report.new) result }
    ensures headline { HasHeadline
        (call_of P.world K.written K.faults K.late (policy_view R.keeps R.empties R.most policy) (words_asked (map string_bytes words.now)) places.old places.new out.old out.new)
        result }
{
    let outcome = outcome_under(alloc, words, Choices { policy, pick }, places, out);
    tell(report, &outcome)
}
