//! How much the service takes. Code, contracts and definitions all cite these.

/// The callers are numbered from 1 to this.
pub const MAX_CALLERS: u8 = 16;

/// The actors are numbered from 1 to this.
pub const MAX_ACTORS: u8 = 8;

/// An array by the callers' numbers has this many places: one more than callers, whose numbers begin at 1.
pub const CALLER_NUMBERS: usize = MAX_CALLERS as usize + 1;

/// An array by the actors' numbers has this many places: one more than actors, whose numbers begin at 1.
pub const ACTOR_NUMBERS: usize = MAX_ACTORS as usize + 1;

/// A caller submits at most this many calls.
pub const MAX_CALLS: u32 = 65_536;

/// A caller holds at most this many copies of a handle.
pub const MAX_COPIES: u32 = 65_535;

/// A call has at most this many arguments.
pub const MAX_ARGS: usize = 4;

/// A table holds at most this many keys.
pub const MAX_KEYS: usize = 1_024;

/// A list holds at most this many items.
pub const MAX_ITEMS: usize = 4_096;

/// A text that is a key, or that is kept, has at most this many bytes.
pub const MAX_TEXT_BYTES: usize = 64;

/// A name of a method or a fault of a kind of one's own has at most this many bytes.
pub const MAX_NAME_BYTES: usize = 18;

/// A line of a script has at most this many bytes.
pub const MAX_LINE_BYTES: usize = 512;

/// A script has at most this many bytes.
pub const MAX_SCRIPT_BYTES: usize = 1_048_576;
