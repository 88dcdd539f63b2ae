//! How a request went.

/// Whether a request was answered, or something was refused and said so. It is no Result: the next request goes on, and what an
/// error is for ends the program.
#[derive(Clone, Copy, PartialEq, Eq, Debug)]
pub(crate) enum Outcome {
    Answered,
    Refused,
}
