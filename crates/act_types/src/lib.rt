//! The values, faults and messages of the actor service.
#![tactic(auto)]

mod call;
mod ids;
mod limits;
mod lists;
mod memory;
mod name;
mod text;

pub use call::{
    Answer, Arg, Fault, KillNote, Method, Notice, Packet, ReleaseNote, Reply, Settled, Value,
};
pub use ids::{ActorId, CallerId, FutureId};
pub use limits::{
    ACTOR_NUMBERS, CALLER_NUMBERS, MAX_ACTORS, MAX_ARGS, MAX_CALLERS, MAX_CALLS, MAX_COPIES,
    MAX_ITEMS, MAX_KEYS, MAX_LINE_BYTES, MAX_NAME_BYTES, MAX_SCRIPT_BYTES, MAX_TEXT_BYTES,
};
pub use lists::{ListOf, SmallList};
pub use memory::{CopyOf, NoMemory};
pub use name::{Name, is_name};
pub use text::{Text, is_good_text};
