/// What a line is about: its first field.
#[derive(Clone, Copy)]
pub(crate) enum Verb {
    Start,
    Resume,
    Recover,
    Abort,
    Deliver,
    Stop,
    Fail,
    Lose,
    Twice,
}
