//! The nodes of the program that terminals are.

ghost use Rattle.std.specs.Prelude.{◌≡◌, [], Some, IfOk, IfErr, OnOk};
ghost use Rattle.lucid_parse.specs.Machine.{nodes};
ghost use Rattle.lucid_parse.specs.Views.{items_of, terminals_of};
ghost use Rattle.lucid_parse.specs.Refused.{AreRefused};

use crate::machine::Machine;
use crate::refusal::ParseRefusal;
use crate::state::{BorrowedItem, Focus};
use crate::terminal::TerminalAt;
use lucid_lists::Stack;
use lucid_value::{Name, Value};
use std::alloc::Global;

// Writes the nodes of the program, each behind its parts; `end` is the source's length. It doesn't own the machine.
fn write_nodes<'a>(
    machine: &mut Machine<&'a Name, &'a Value>,
    terminals: &'a [TerminalAt],
    end: u32,
) -> Result<(), ParseRefusal>
    requires frames { machine.old.frames ≡ [] }
    requires out { machine.old.out.items ≡ [] }
    ensures ok { OnOk result (nodes (terminals_of terminals.now) ≡ Some (items_of machine.new.out.items)) }
    ensures refused { IfErr result (λ refusal. AreRefused refusal (terminals_of terminals.now) end) }
{
    let mut focus = Focus::Await { allowed: 0 };
    for terminal in terminals {
        match machine.step_to(focus, terminal.borrowed(), terminal.at)? {
            Some(next) => focus = next,
            None => return Err(ParseRefusal::Syntax { at: terminal.at }),
        }
    }
    if machine.finish_to(focus)? {
        return Ok(());
    }
    Err(ParseRefusal::Syntax { at: end })
}

/// The nodes of the program, each behind its parts; `end` is the source's length.
pub fn read_nodes(
    alloc: Global,
    terminals: &[TerminalAt],
    end: u32,
) -> Result<Vec<BorrowedItem<'_>>, ParseRefusal>
    ensures ok { IfOk result (λ items. nodes (terminals_of terminals.now) ≡ Some (items_of items.items)) }
    ensures refused { IfErr result (λ refusal. AreRefused refusal (terminals_of terminals.now) end) }
{
    let frames = Stack::new(alloc);
    let out = Vec::new(alloc);
    let mut machine = Machine { frames, out };
    write_nodes(&mut machine, terminals, end)?;
    Ok(machine.out)
}
