//! Facts on lists, options, booleans and numbers that proofs of several crates need. They know nothing of actors.
#![tactic(auto)]
