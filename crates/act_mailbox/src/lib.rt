//! Lines between callers and actors, shared by threads. Each line keeps the order of each that puts
//! into it, and what it did stands in passes. Each item has a stamp, a number that only proofs speak of.
//! Beside them is what the threads of callers and of actors share: a pass with its place, pauses, and
//! notes of what a thread does.
#![tactic(auto)]

mod bell;
mod control;
mod line;
mod mail;
mod replies;
mod thread;

pub use control::{Asked, Control, ControlCaller, ControlExec};
pub use line::{Putter, Stamped, Taker};
pub use mail::{Letter, Mail, MailCaller, MailExec};
pub use replies::{Replies, ReplyCaller, ReplyExec};
pub use thread::{Endpoint, IdleBackoff, Mark, NoNotes, Notes, Page, SHORT_PAUSES};
