//! The door: a client names this crate alone, and has all that its code and its clauses need.
//!
//! - Names, values and calls: `ActorId`, `Value`, `Arg`, `Method`, `ListOf` and others.
//! - Short forms: `args_of`, `callers_of`, `list_of`, `casts_of_one`; `Shown` and `answer_text` for an answer.
//! - Kinds: `Counter`, `Table`, `Account`, `ListKind`, and `Actor` for one of your own.
//! - Actors to be: `Cast`, with `cast_fits`, which is the test of them.
//! - A world, which is played event by event: `World`, `Event`, and `Did` for what each event did.
//! - The same in threads: `run_plans` for plans of `Step`, `run_callers` for callers that are `Code`.
//! - Such a run with a list of events that ends so: `run_recorded`.
//! - A question to every end of plans, and so to every run in threads: `always`, `explore`, `Opening`, `Check`.
//! - Runs that follow one another, for as long as a `Service` has codes to give: `run_epochs`.
//! - The history that a run in threads leaves, judged by its order alone: `told_of`, `judge`, `write_history`.
//! - One caller and one actor without either: `Owner`, `Live`, `Packet`, `Notice`.
//! - Laws of every run, which you call where you need what they say: `kept_answers_stay` and others.
//!
//! Clauses take their words from `specs/`, whose `Lib.antt` tells which module has which.
#![tactic(auto)]

// Names, values, calls and messages.
pub use act_types::{
    ActorId, Answer, Arg, CallerId, CopyOf, Fault, FutureId, KillNote, ListOf, Method, Name,
    NoMemory, Notice, Packet, ReleaseNote, Reply, Settled, SmallList, Text, Value, is_good_text,
    is_name,
};

// Short forms of what each client writes.
pub use act_short::{Shown, answer_text, args_of, callers_of, casts_of_one, list_of};

// Limits.
pub use act_drive::MAX_KILLS;
pub use act_plans::MAX_STEPS;
pub use act_types::{
    MAX_ACTORS, MAX_ARGS, MAX_CALLERS, MAX_CALLS, MAX_COPIES, MAX_ITEMS, MAX_KEYS, MAX_LINE_BYTES,
    MAX_NAME_BYTES, MAX_SCRIPT_BYTES, MAX_TEXT_BYTES,
};

// Kinds.
pub use act_kinds::{
    Account, Actor, Boxed, Counter, ListKind, Meaning, Table, append_line, runs_by_its_steps,
};
pub use act_own::{kept_in_each_run, kept_in_each_world};

// One caller, and one actor.
pub use act_actor::{Cast, Dead, Live, Past, Retired, RunLog, actors_of, cast_fits, limits_of};
pub use act_owner::{
    Call, Collected, Owner, never_above_the_limit, one_packet_for_good, told_by_notices,
};
pub use act_rules::{Arrival, HandleRefusal, RunItem, SendRefusal, SubmitRefusal};

// Worlds.
pub use act_rules::{
    Did, Event, Outcome, WorldRefusal, each_world_is_consistent, kept_answers_stay,
    nothing_follows_a_terminate, nothing_runs_after_the_end, pending_stays_within_the_limit,
    planned_is_what_a_world_takes, retired_ran_all,
};
pub use act_world::{Stage, World, is_memory};

// Threads.
pub use act_drive::{Code, GaveUp, KillRefusal, Session, WaitRefusal};
pub use act_executor::{Joined, RunFault, codes_fit, run_callers, run_callers_keeping, run_plans};
pub use act_plans::plans_fit;
pub use act_replay::{RecordFault, Recorded, Source, play_of, run_recorded};
pub use act_rules::{Plan, Step};
pub use act_serve::{Ended, Finished, Gate, NoGate};

// Every end of plans.
pub use act_explore::{
    Check, End, Ends, ExploreFault, Found, Opening, Plays, Searched, Visit, Visited, always,
    explore, visit_ends,
};

// Runs in threads that follow one another.
pub use act_epochs::{epochs_are_consistent, epochs_go_on, kept_over_epochs};
pub use act_service::{EpochFault, Service, run_epochs};

// Histories of runs in threads, judged by their order and written.
pub use act_orders::{Refused, Told, is_whole, judge};
pub use act_told::{joined_runs_are_in_turn, joined_runs_end_right, names_of, told_of};
pub use act_written::{WriteFault, history_text, write_history};

// Scripts.
pub use act_rules::{KindName, Mode, Role, Wrong};
pub use act_scripts::{Items, Script, ScriptFault, read_script};
