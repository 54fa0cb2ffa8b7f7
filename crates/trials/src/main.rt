// Random runs of groups against a separate, simple model of what they should do.
#![tactic(auto)]

mod case;
mod compare;
mod dice;
mod difference;
mod history;
mod layouts;
mod model;
mod picks;
mod play;
mod proposal;
mod rounds;
mod run_error;
mod runs;
mod sets;
mod stories;
mod totals;
mod trial;

use crate::case::{Case, Story};
use crate::runs::run;
use crate::totals::Totals;
use crate::trial::Found;
use anyhow::anyhow;
use std::env;
use std::env::Args;

// trials [RUNS [SEED [FIRST]]]: so many runs from a seed, from run FIRST on.
#[derive(Clone, Copy)]
struct Wanted {
    runs: u64,
    seed: u64,
    first: u64,
}

impl Wanted {
    fn case(self, story: Story, i: u64) -> Case {
        Case {
            story,
            seed: self.seed,
            number: self.first.wrapping_add(i),
        }
    }
}

fn read_wanted(rt: &HostRuntime) -> anyhow::Result<Wanted> {
    let mut words = env::args(rt)?;
    let _program = words.next();
    Ok(Wanted {
        runs: next_or(&mut words, 4000)?,
        seed: next_or(&mut words, 2026)?,
        first: next_or(&mut words, 0)?,
    })
}

fn next_or(words: &mut Args, default: u64) -> anyhow::Result<u64> {
    match words.next() {
        Some(word) => Ok(word.as_str().parse::<u64>()?),
        None => Ok(default),
    }
}

// Makes one run, and tells where it differs.
fn make(rt: &HostRuntime, totals: &mut Totals, case: Case) -> anyhow::Result<()> {
    if let Some(Found { difference, call }) = run(rt.alloc(), totals, case)? {
        println!(rt; "difference in {difference:?} at call {call} of {case}")?;
    }
    Ok(())
}

fn make_all(rt: &HostRuntime, totals: &mut Totals, wanted: Wanted) -> anyhow::Result<()> {
    make(rt, totals, wanted.case(Story::Versions, 0))?;
    make(rt, totals, wanted.case(Story::Attempts, 0))?;
    for i in 0..wanted.runs {
        make(rt, totals, wanted.case(Story::Random, i))?;
        if i % 10000 == 9999 {
            let done = i.saturating_add(1);
            eprintln!(rt; "{done} of {} runs", wanted.runs)?;
        }
    }
    Ok(())
}

fn main(rt: HostRuntime) -> anyhow::Result<()> {
    let wanted = read_wanted(&rt)?;
    let (runs, seed) = (wanted.runs, wanted.seed);
    println!(rt;
        "{runs} random runs from seed {seed}, one to the last version and one to the last attempt"
    )?;
    let mut totals = Totals::new(rt.alloc());
    make_all(&rt, &mut totals, wanted)?;
    println!(rt; "{totals}")?;
    if totals.counts.differences > 0 {
        return Err(anyhow!("the group and the model differ"));
    }
    Ok(())
}
