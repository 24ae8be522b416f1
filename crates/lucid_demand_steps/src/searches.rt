//! What a search wants, by which it begins at the best noted position and is noted.
ghost use Rattle.std.specs.Prelude.{◌≡◌, ℕ, ◌≤◌, None, IfSome, IfNone, is_some};
ghost use Rattle.lucid_search.specs.Noted.{number_at, IsBest, NotesOrMisses};
ghost use Rattle.lucid_demand_steps.specs.Searches.{search_for, noted_of, greatest_key};

use lucid_equations::Node;
use lucid_search::Positions;
use lucid_tasks::{Cursor, Task};

/// What a search wants, by which its positions are noted.
#[derive(Clone, Copy)]
pub enum Search {
    /// `whenever` and `asa` want so many true values to be passed: noted are counts, each with a time.
    Find {
        /// The true values to be passed.
        wanted: u64,
    },
    /// `upon` wants the count of true values below a time: noted are times, each with a count.
    Count {
        /// The time.
        time: u64,
    },
}

impl Search {
    /// The best noted position of the search of a task, if there is one: where it may begin.
    pub fn best(self, positions: &Positions, task: Task) -> Option<Cursor>
        ensures best { IfSome result (λ cursor. IsBest positions.now task.node task.tag (greatest_key self) (noted_of self cursor)) }
        ensures none { IfNone result ((key : ℕ) → key ≤ greatest_key self → number_at positions.now task.node task.tag key ≡ None) }
    {
        match self {
            Search::Find { wanted } => {
                let (count, time) = positions.best(task.node, task.tag, wanted)?;
                Some(Cursor { time, count })
            }
            Search::Count { time } => {
                let (time, count) = positions.best(task.node, task.tag, time)?;
                Some(Cursor { time, count })
            }
        }
    }

    /// Notes where the search of a task stands.
    pub fn note(self, positions: &mut Positions, task: Task, cursor: Cursor)
        ensures { let pair = noted_of self cursor in NotesOrMisses positions.old positions.new task.node task.tag pair.0 pair.1 }
    {
        match self {
            Search::Find { .. } => positions.note(task.node, task.tag, cursor.count, cursor.time),
            Search::Count { .. } => positions.note(task.node, task.tag, cursor.time, cursor.count),
        }
    }
}

/// The search of a node at a time, if it is one.
pub fn search_of(node: Node, time: u64) -> Option<Search>
    ensures { result ≡ search_for node time }
{
    match node {
        Node::Whenever { .. } => Some(Search::Find { wanted: time }),
        Node::Asa { .. } => Some(Search::Find { wanted: 0 }),
        Node::Upon { .. } => Some(Search::Count { time }),
        _ => None,
    }
}

/// Whether a node is a search.
#[inline(always)]
pub fn is_search(node: Node) -> bool
    ensures { result ≡ is_some (search_for node 0) }
{
    match node {
        Node::Whenever { .. } | Node::Asa { .. } | Node::Upon { .. } => true,
        _ => false,
    }
}
