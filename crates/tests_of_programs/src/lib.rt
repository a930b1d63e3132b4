//! Tests of whole scripts, played, run in threads and recorded, from bytes to bytes.
#![tactic(auto)]

#[cfg(test)]
mod console;
#[cfg(test)]
mod meeting;
#[cfg(test)]
mod records;
