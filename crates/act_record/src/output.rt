//! What there is to be written of a script whose run is recorded.

use act_replay::Source;

/// What was written.
#[derive(Clone, Copy, Debug, PartialEq, Eq)]
pub enum Written {
    /// A script of events, which was read again before it was written.
    Play(Source),
    /// The same with more bytes than a script may have, so that it can't be read again.
    LongPlay(Source),
}

/// The text of a play.
#[derive(Debug, Drop)]
pub(crate) struct PlayText {
    pub(crate) text: String,
    pub(crate) written: Written,
}

/// What there is to be written of a script.
#[derive(Debug, Drop)]
pub(crate) enum Output {
    Play(PlayText),
    Refusal(String),
}
