//! The approximation of a program at a point.
ghost use Rattle.std.specs.Prelude.{◌≡◌, ◌<◌, ◌^◌, IfOk};
ghost use Rattle.std.specs.Option.{option_map};
ghost use Rattle.lucid_value.specs.View.{plain};
ghost use Rattle.lucid_tree.specs.WellMade.{IsWellMade};
ghost use Rattle.lucid_tree.specs.Env.{empty};
ghost use Rattle.lucid_tree.specs.Meaning.{val};
ghost use Rattle.lucid_test_programs.specs.Streams.{elements_of};

use crate::env::Env;
use crate::eval::{Evaluator, Point};
use crate::streams::Stream;
use lucid_tree::Tree;
use lucid_value::Value;
use std::alloc::{AllocError, Global};

/// The value of a program at a time and a space by the approximation `limit`, over inputs in memory; `None` where that
/// approximation is undefined. It recurses on the machine's stack, as deep as the limit times the tree's depth.
pub fn approximation(
    alloc: Global,
    streams: &[Stream],
    tree: &Tree,
    time: u64,
    space: u64,
    limit: u32,
) -> Result<Option<Value>, AllocError>
    requires well_made { IsWellMade tree.now }
    requires time { time < 2 ^ 63 }
    requires space { space < 2 ^ 63 }
    ensures { IfOk result (λ found. option_map plain found ≡ val (elements_of streams.now) limit tree.now empty time space) }
{
    let evaluator = Evaluator { alloc, streams };
    let at = Point {
        env: &Env::Empty,
        time,
        space,
        limit,
    };
    evaluator.value(tree, &at)
}
