//! Tests of ends: of plans, each asked and each told, and of callers by code.
#![tactic(auto)]

#[cfg(test)]
mod codes;
#[cfg(test)]
mod opened;
#[cfg(test)]
mod plans;
