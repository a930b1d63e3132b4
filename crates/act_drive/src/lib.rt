//! The thread of a caller: it does the steps of a plan, or runs code of its own, and sends and
//! collects meanwhile.
#![tactic(auto)]

mod any;
mod caller;
mod code;
mod coded;
mod did;
mod doing;
mod driver;
mod laws;
mod lent;
mod refusals;
mod room;
mod session;
mod starve;
mod steps;
mod told;

pub use act_rules::Plan;
pub use caller::{Driven, drive, drive_noting};
pub use code::{Code, GaveUp};
pub use coded::drive_code;
pub use did::{Did, add_step, no_step};
pub use doing::{Doing, submission};
pub use driver::{CallerLines, CallerPasses};
pub use laws::letters_stand_at_their_endpoints;
pub use refusals::{KillRefusal, WaitRefusal};
pub use session::{MAX_KILLS, Session};
