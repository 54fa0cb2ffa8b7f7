// Replays the stored runs of the bench, and says of each whether it prints what is stored.
#![tactic(auto)]

use script::respond::respond;
use std::{fs, io};

const STORIES: [&str; 7] = [
    "race",
    "switched_off",
    "lost_reply",
    "full_account",
    "old_copy",
    "catch_up",
    "refusals",
];

fn replay(rt: &HostRuntime, name: &str) -> io::Result<()> {
    let script = fs::read(rt, format!(in rt.alloc(); "{name}.in")?)?;
    let stored = fs::read_to_string(rt, format!(in rt.alloc(); "{name}.out")?)?;
    let text = respond(rt.alloc(), script.as_slice())?;
    let lines = text.as_str().lines().count();
    if text.as_str() == stored.as_str() {
        println!(rt; "{name}: {lines} lines, as stored")
    } else {
        println!(rt; "{name}: {lines} lines, and NOT as stored")
    }
}

fn main(rt: HostRuntime) -> io::Result<()> {
    for name in STORIES {
        replay(&rt, name)?;
    }
    Ok(())
}
