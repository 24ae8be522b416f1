// What a real place reads from.
use crate::standard_input::StandardInput;

#[derive(Drop)]
pub(crate) enum Source<F, I> {
    File(F),
    Input(StandardInput<I>),
}
