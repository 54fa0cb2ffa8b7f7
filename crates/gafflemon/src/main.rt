// Plays a script from standard input on three new accounts, and prints the answer to each line.
#![tactic(auto)]

use script::respond::respond;
use std::io;
use std::io::Read;

// One byte more than a script may have, so that a longer one is told from a full one.
const MOST: u64 = 65537;

fn read_script(rt: &HostRuntime) -> io::Result<Vec<u8>> {
    let mut script = Vec::new(rt.alloc());
    rt.stdin().take(MOST).read_to_end(&mut script)?;
    Ok(script)
}

fn main(rt: HostRuntime) -> io::Result<()> {
    let script = read_script(&rt)?;
    let text = respond(rt.alloc(), script.as_slice())?;
    rt.print(text.as_str())
}
