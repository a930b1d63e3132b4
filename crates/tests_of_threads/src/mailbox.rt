//! Full and empty lines, and threads that share one.

mod executor;
mod full_control;
mod full_mail;
mod full_replies;
mod threads;
