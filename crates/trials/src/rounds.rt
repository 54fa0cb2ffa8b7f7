use crate::compare::compare;
use crate::difference::{Difference, same};
use crate::play::Play;
use crate::run_error::RunError;
use crate::totals::bump;
use account::accounts::Accounts;
use group::calls::Calls;
use group::round::Orders;
use protocol::call::Call;
use quorum::quorum::Quorum;
use std::alloc::{AllocError, Global};
use std::array;

// Orders of the same accounts, one for each pass of a round.
type Plan = [Vec<u32>; 5];

impl<A: Accounts, Q: Quorum> Play<'_, '_, A, Q> {
    // Makes a round where it has to end, and now and then where it need not.
    pub fn maybe_round(&mut self) -> Result<(), RunError> {
        let device = self.trial.pick_device();
        let set = self.trial.pick_set(device)?;
        let ready = self.trial.is_ready(device, set.as_slice());
        if !ready && !self.trial.dice.once_in(3) {
            return Ok(());
        }
        let answered = self.make_round(device, set.as_slice())?;
        let counts = self.trial.counts();
        if !ready {
            bump(&mut counts.other_rounds);
            return Ok(());
        }
        bump(&mut counts.rounds);
        same(answered, true, Difference::RoundUnanswered)?;
        bump(&mut counts.rounds_answered);
        Ok(())
    }

    // Makes a round as one call of the group, or call by call; whether some call of it decided.
    fn make_round(&mut self, device: u32, set: &[u32]) -> Result<bool, RunError> {
        let plan = self.plan_for(set)?;
        let calls = calls_of(self.trial.heap, device, &plan)?;
        let before = self.trial.counts().decided;
        if self.trial.dice.once_in(2) {
            self.round_at_once(device, &plan, calls.as_slice())?;
        } else {
            self.make_all(calls.as_slice())?;
        }
        Ok(self.trial.counts().decided > before)
    }

    fn plan_for(&mut self, set: &[u32]) -> Result<Plan, AllocError> {
        array::try_from_fn(|_| self.trial.shuffled(set))
    }

    fn round_at_once(&mut self, device: u32, plan: &Plan, calls: &[Call]) -> Result<(), RunError> {
        let [first, second, third, fourth, fifth] = plan;
        let orders = Orders {
            first: first.as_slice(),
            second: second.as_slice(),
            third: third.as_slice(),
            fourth: fourth.as_slice(),
            fifth: fifth.as_slice(),
        };
        let answers = self.group.round(self.trial.heap, device, &orders)?;
        same(answers.len(), calls.len(), Difference::AnswerCount)?;
        for (call, answer) in calls.iter().zip(answers.iter()) {
            self.trial.take(*call, *answer)?;
        }
        compare(&self.group, &self.trial.model)?;
        Ok(())
    }
}

// The calls of a round: read each, again, send to each, read each, send to each, read each.
fn calls_of(heap: Global, device: u32, plan: &Plan) -> Result<Vec<Call>, AllocError> {
    let read = |&account: &u32| Call::Read { device, account };
    let send = |&account: &u32| Call::Send { device, account };
    let [first, second, third, fourth, fifth] = plan;
    let mut calls: Vec<Call> = first.iter().map(&read).collect(heap)?;
    calls.push(Call::Again { device })?;
    calls.extend(second.iter().map(&send))?;
    calls.extend(third.iter().map(&read))?;
    calls.extend(fourth.iter().map(&send))?;
    calls.extend(fifth.iter().map(&read))?;
    Ok(calls)
}
