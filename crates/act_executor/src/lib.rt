//! Callers and actors that run, each in a thread of its own.
#![tactic(auto)]

mod by_code;
mod fitting;
mod joined;
mod keeping;
mod laws;
mod open;
mod run;
mod work;

pub use act_drive::{
    CallerLines, CallerPasses, Code, Driven, GaveUp, KillRefusal, MAX_KILLS, Session, WaitRefusal,
    drive, drive_code,
};
pub use act_mailbox::{Mark, NoNotes, Notes, Page};
pub use act_plans::{Plan, plans_fit};
pub use act_serve::{Ended, ExecLines, ExecPasses, Finished, Gate, NoGate, serve};
pub use by_code::run_callers;
pub use fitting::codes_fit;
pub use joined::Joined;
pub use keeping::run_callers_keeping;
pub use laws::{joined_callers_are_consistent, joined_runs_are_consistent, traced_runs_are_played};
pub use open::{Lines, Opened, open_lines};
pub use run::{Pages, RunFault, run_plans, run_plans_noting};
