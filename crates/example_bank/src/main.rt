//! A bank that serves for days: requests come in by lines, and are answered by lines, until the input ends.
#![tactic(auto)]

mod answers;
mod bank;
mod feed;
mod groups;
mod request;
mod round;
mod service;
mod stop;
mod teller;

use anyhow::Result;
use bank::serve;
use std::io;

fn main(rt: HostRuntime) -> Result<()> {
    let mut reader = rt.reader();
    let mut writer = io::writer(&rt);
    serve(&rt, rt.alloc(), &mut reader, &mut writer)?;
    Ok(())
}
