// Reads the log of one account from standard input, and prints what it holds.
#![tactic(auto)]

use report::report::report;
use std::io;
use std::io::{Read, Write};

// One byte more than an area may have, so that a longer log is told from a full one.
const MOST: u64 = 65537;

// As `gafflemon` reads a script: two lines, for which the two programs would need one more crate in common.
fn read_log(rt: &HostRuntime) -> io::Result<Vec<u8>> {
    let mut log = Vec::new(rt.alloc());
    rt.stdin().take(MOST).read_to_end(&mut log)?;
    Ok(log)
}

fn main(rt: HostRuntime) -> io::Result<()> {
    let log = read_log(&rt)?;
    let text = report(rt.alloc(), log.as_slice())?;
    rt.print(text.as_str())
}
