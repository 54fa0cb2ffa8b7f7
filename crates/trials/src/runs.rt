use crate::case::{Case, Story};
use crate::layouts::{Layout, Stop, WithFile, WithLog};
use crate::model::rule::Rule;
use crate::run_error::RunError;
use crate::totals::Totals;
use crate::trial::{Found, Trial};
use account::end::End;
use quorum::majority::Majority;
use quorum::quorum::Quorum;
use quorum::weighted::Weighted;
use record::refusal::Refusal;
use std::alloc::{AllocError, Global};

// Makes one run, up to its first difference if it has one.
pub fn run(heap: Global, totals: &mut Totals, case: Case) -> Result<Option<Found>, AllocError> {
    let mut trial = Trial::new(heap, totals, case);
    let outcome = run_story(&mut trial, case.story);
    trial.end(outcome)
}

fn run_story(trial: &mut Trial<'_>, story: Story) -> Result<(), RunError> {
    match story {
        Story::Random => run_random(trial),
        Story::Versions => run_with_count(trial, 1, WithLog(Stop)),
        Story::Attempts => run_with_count(trial, 3, WithLog(WithFile(WithLog(Stop)))),
    }
}

// One of ten layouts.
fn run_random(trial: &mut Trial<'_>) -> Result<(), RunError> {
    let l = WithLog(Stop);
    let f = WithFile(Stop);
    match trial.dice.below(10) {
        0 => run_on(trial, l),
        1 => run_on(trial, f),
        2 => run_on(trial, WithFile(l)),
        3 => run_on(trial, WithLog(WithFile(l))),
        4 => run_on(trial, WithFile(WithFile(l))),
        5 => run_on(trial, WithLog(WithFile(WithFile(l)))),
        6 => run_on(trial, WithLog(WithLog(WithFile(WithLog(f))))),
        7 => run_on(trial, WithFile(WithFile(WithFile(WithLog(l))))),
        8 => run_on(trial, WithLog(WithFile(WithLog(WithLog(WithFile(f)))))),
        _ => run_on(
            trial,
            WithLog(WithFile(WithLog(WithFile(WithLog(WithFile(l)))))),
        ),
    }
}

// Under some rule, which now and then is for another number of accounts, or for none that there can be.
fn run_on<L: Layout>(trial: &mut Trial<'_>, layout: L) -> Result<(), RunError> {
    let size = if trial.dice.once_in(30) {
        trial.dice.below(10) as usize
    } else {
        layout.size()
    };
    trial.model.rule = trial.pick_rule();
    match trial.model.rule {
        Rule::Count => run_with_count(trial, size, layout),
        Rule::Weight(weights) => run_with_weights(trial, &weights[..size.min(7)], layout),
    }
}

fn run_with_count<L: Layout>(
    trial: &mut Trial<'_>,
    size: usize,
    layout: L,
) -> Result<(), RunError> {
    let expected = (1..=7)
        .contains(&size)
        .then_some(())
        .ok_or(Refusal::BadAccountCount);
    found_under(trial, Majority::new(size), expected, layout)
}

fn run_with_weights<L: Layout>(
    trial: &mut Trial<'_>,
    weights: &[u8],
    layout: L,
) -> Result<(), RunError> {
    let expected = if weights.is_empty() {
        Err(Refusal::BadAccountCount)
    } else if weights.iter().all(|weight| *weight == 0) {
        Err(Refusal::NoWeight)
    } else {
        Ok(())
    };
    found_under(trial, Weighted::new(weights), expected, layout)
}

// Founds a group under a rule, if there is one to be had.
fn found_under<Q: Quorum + Copy, L: Layout>(
    trial: &mut Trial<'_>,
    rule: Result<Q, Refusal>,
    expected: Result<(), Refusal>,
    layout: L,
) -> Result<(), RunError> {
    trial.expect(rule.map(|_| ()), expected)?;
    match rule {
        Ok(quorum) => layout.found(trial, quorum, End),
        Err(_) => Ok(()),
    }
}
