//! Tests of the kinds of example_kinds and of the callers of example_callers, played and in threads, beside
//! known kinds.
#![tactic(auto)]

#[cfg(test)]
mod bank;
#[cfg(test)]
mod buyers;
#[cfg(test)]
mod callers_scene;
#[cfg(test)]
mod clerks;
#[cfg(test)]
mod first;
#[cfg(test)]
mod gauge;
#[cfg(test)]
mod histories;
#[cfg(test)]
mod impatient;
#[cfg(test)]
mod limiter;
#[cfg(test)]
mod memory;
#[cfg(test)]
mod names;
#[cfg(test)]
mod queue;
#[cfg(test)]
mod retries;
#[cfg(test)]
mod scene;
#[cfg(test)]
mod transfers;
#[cfg(test)]
mod workers;
