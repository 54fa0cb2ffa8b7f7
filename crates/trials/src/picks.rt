use crate::model::rule::Rule;
use crate::trial::Trial;
use protocol::call::Call;
use record::value::Value;
use std::array;

// What a run does next, by the dice.
impl Trial<'_> {
    // Mostly one of the run's own devices, now and then any other or none at all.
    pub fn pick_device(&mut self) -> u32 {
        match self.dice.below(60) {
            0 => u32::MAX,
            1 => self.dice.below(4).saturating_add(16),
            2 | 3 => self.dice.below(16),
            _ => {
                let one = self.dice.below(self.cast);
                one.saturating_mul(5) % 16
            }
        }
    }

    fn pick_account(&mut self) -> u32 {
        let count = self.account_count();
        match self.dice.below(50) {
            0 => u32::MAX,
            1 => self.dice.below(3).saturating_add(count),
            _ => self.dice.below(count),
        }
    }

    // Mostly an account that the device has not sent to.
    fn pick_unsent(&mut self, device: u32) -> u32 {
        let mut account = self.pick_account();
        for _ in 0..2 {
            if self.has_sent(device, account) {
                account = self.pick_account();
            }
        }
        account
    }

    fn has_sent(&self, device: u32, account: u32) -> bool {
        self.model
            .peer(device)
            .is_ok_and(|peer| peer.contact(account as usize).sent)
    }

    fn is_idle(&self, device: u32) -> bool {
        self.model.peer(device).is_ok_and(|peer| !peer.is_open())
    }

    // Few values, so that devices propose equal ones, and some that fill their width.
    fn pick_value(&mut self) -> Value {
        if self.dice.once_in(4) {
            let root = self.dice.next();
            let setup = u32::MAX;
            return Value { root, setup };
        }
        let root = u64::from(self.dice.below(3));
        let setup = self.dice.below(2);
        Value { root, setup }
    }

    // A number, since a call may name any: mostly that of a link.
    fn pick_state(&mut self) -> u32 {
        match self.dice.below(20) {
            0..=11 => 0,
            12..=14 => 1,
            15..=18 => 2,
            _ => self.dice.below(9).saturating_add(3),
        }
    }

    // Mostly the version that the device holds.
    fn pick_base(&mut self, device: u32) -> u32 {
        let holds = u32::from(self.model.holds(Call::Known { device }).number);
        match self.dice.below(12) {
            0 => holds.saturating_add(1),
            1 => self.dice.below(4),
            _ => holds,
        }
    }

    fn pick_propose(&mut self, device: u32) -> Call {
        let base = self.pick_base(device);
        let value = self.pick_value();
        Call::Propose {
            device,
            base,
            value,
        }
    }

    pub fn pick_call(&mut self) -> Call {
        let device = self.pick_device();
        if self.model.peer(device).is_err() && self.dice.once_in(2) {
            return Call::Join { device };
        }
        match self.dice.below(100) {
            0 => Call::Join { device },
            1..=5 => self.pick_link(device),
            6..=15 => self.pick_propose(device),
            16..=51 => self.pick_send(device),
            52..=90 => {
                let account = self.pick_account();
                Call::Read { device, account }
            }
            91..=95 => Call::Again { device },
            96 | 97 => Call::Restart { device },
            _ => Call::Known { device },
        }
    }

    fn pick_link(&mut self, device: u32) -> Call {
        let account = self.pick_account();
        let state = self.pick_state();
        Call::SetLink {
            device,
            account,
            state,
        }
    }

    // Now and then without an open proposal.
    fn pick_send(&mut self, device: u32) -> Call {
        if self.is_idle(device) && !self.dice.once_in(8) {
            return self.pick_propose(device);
        }
        let account = self.pick_unsent(device);
        Call::Send { device, account }
    }

    // A rule by count, or by small or large weights.
    pub fn pick_rule(&mut self) -> Rule {
        let most = match self.dice.below(4) {
            0 | 1 => return Rule::Count,
            2 => 4,
            _ => 256,
        };
        Rule::Weight(array::from_fn(|_| (self.dice.below(most) & 255) as u8))
    }
}
