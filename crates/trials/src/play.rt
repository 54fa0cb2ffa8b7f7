use crate::case::Story;
use crate::compare::compare;
use crate::run_error::RunError;
use crate::trial::Trial;
use account::accounts::Accounts;
use group::calls::Calls;
use group::group::Group;
use protocol::call::Call;
use protocol::version::Version;
use quorum::quorum::Quorum;
use std::alloc::AllocError;

// A run on a group: whatever the group does, the trial follows and compares.
#[derive(Drop)]
pub struct Play<'a, 't, A, Q> {
    pub group: Group<A, Q>,
    pub trial: &'a mut Trial<'t>,
}

impl<A: Accounts, Q: Quorum> Play<'_, '_, A, Q> {
    // A whole run on a new group.
    pub fn run(&mut self) -> Result<(), RunError> {
        compare(&self.group, &self.trial.model)?;
        match self.trial.story {
            Story::Random => self.play_random()?,
            Story::Versions => self.play_versions()?,
            Story::Attempts => self.play_attempts()?,
        }
        let heap = self.trial.heap;
        let held = self.held()?;
        self.trial.history.check(heap, held.as_slice())
    }

    // Makes one call, and compares its answer and all that it leaves.
    pub fn make(&mut self, call: Call) -> Result<(), RunError> {
        let answer = self.group.call(call);
        self.trial.take(call, answer)?;
        compare(&self.group, &self.trial.model)?;
        Ok(())
    }

    pub fn make_all(&mut self, calls: &[Call]) -> Result<(), RunError> {
        for call in calls {
            self.make(*call)?;
        }
        Ok(())
    }

    fn play_random(&mut self) -> Result<(), RunError> {
        let length = self.trial.dice.below(200).saturating_add(40);
        for _ in 0..length {
            match self.trial.dice.below(24) {
                0 | 1 => self.maybe_round()?,
                2..=9 => self.stride()?,
                _ => {
                    let call = self.trial.pick_call();
                    self.make(call)?;
                }
            }
        }
        Ok(())
    }

    // A device sends to a few accounts, a quorum if it reaches one, and mostly reads what they say.
    fn stride(&mut self) -> Result<(), RunError> {
        let heap = self.trial.heap;
        let device = self.trial.pick_device();
        let set = self.trial.pick_set(device)?;
        let sends = set.iter().map(|&account| Call::Send { device, account });
        let mut calls: Vec<Call> = sends.collect(heap)?;
        if !self.trial.dice.once_in(4) {
            calls.extend(set.iter().map(|&account| Call::Read { device, account }))?;
        }
        self.make_all(calls.as_slice())
    }

    // What each device holds.
    fn held(&self) -> Result<Vec<Version>, AllocError> {
        let table = self.group.devices();
        (0..16)
            .filter_map(|d| table.device(d))
            .map(|device| Version {
                number: device.known,
                value: device.value,
            })
            .collect(self.trial.heap)
    }
}
