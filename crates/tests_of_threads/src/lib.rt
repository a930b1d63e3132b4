//! Tests of the lines between threads, of the thread of an actor and that of a caller, each beside a plain one at the
//! other end of its lines, and of whole runs in threads.
#![tactic(auto)]

#[cfg(test)]
mod drive;
#[cfg(test)]
mod epochs;
#[cfg(test)]
mod executor;
#[cfg(test)]
mod lines;
#[cfg(test)]
mod mailbox;
#[cfg(test)]
mod opened_lines;
#[cfg(test)]
mod places;
#[cfg(test)]
mod rows;
#[cfg(test)]
mod serve;
#[cfg(test)]
mod tasks;
#[cfg(test)]
mod told;
