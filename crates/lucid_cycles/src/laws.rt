//! The law of the depths that are enough.
ghost use Rattle.lucid_cycles.specs.Laws.{EnoughIsEnough};

use lucid_scope::laws::names_go_where_they_belong;

/// Where the numbers and the potentials are enough by the edges of a judged program's references, the approximation at
/// `factor * t + add` is defined at every time t, whatever the inputs are.
pub(crate) fn enough_is_enough()
    ensures { EnoughIsEnough }
{
    names_go_where_they_belong();
}
