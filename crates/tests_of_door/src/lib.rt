//! Tests by public calls of the door alone: its short forms, and a call that is played with them.
#![tactic(auto)]

#[cfg(test)]
mod one_call;
#[cfg(test)]
mod short;
