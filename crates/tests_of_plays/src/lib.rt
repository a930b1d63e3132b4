//! Tests of a world of callers and actors, event by event, of the small callers, of runs in threads that are written
//! down
//! as plays, and of histories.
#![tactic(auto)]

#[cfg(test)]
mod checked;
#[cfg(test)]
mod played;
#[cfg(test)]
mod rows;
#[cfg(test)]
mod scene;
#[cfg(test)]
mod scripts;
#[cfg(test)]
mod spoiled;
#[cfg(test)]
mod uses;
#[cfg(test)]
mod world;
#[cfg(test)]
mod written;
