//! Tests of the parts of a caller and of an actor: kinds, the queue of an actor's calls, an actor that runs them;
//! handles,
//! calls and answers, the lists that they carry, and plans.
#![tactic(auto)]

#[cfg(test)]
mod actor;
#[cfg(test)]
mod handles;
#[cfg(test)]
mod inbox;
#[cfg(test)]
mod kinds;
#[cfg(test)]
mod lists;
#[cfg(test)]
mod owner;
#[cfg(test)]
mod plans;
#[cfg(test)]
mod replies;
#[cfg(test)]
mod resolver;
#[cfg(test)]
mod rows;
