ghost use Rattle.std.specs.Prelude.{◌≡◌, ◌<◌, OnSome};
ghost use Rattle.protocol.specs.Deciding.{choice, decision, undecided, concluded};
ghost use Rattle.protocol.specs.Device.{carrying};
ghost use Rattle.group.specs.Models.{caught_up_to};

use crate::account_number::AccountNumber;
use crate::device::Device;
use crate::device_number::DeviceNumber;
use crate::tally::{accepted_by_quorum, any_above, highest_accepted};
use protocol::notes::Notes;
use protocol::outcome::Outcome;
use protocol::phase::Phase;
use protocol::slot::Slot;
use quorum::quorum::Quorum;
use record::value::Value;

impl Device {
    // Keeps what was noted of account k up to its end.
    pub(crate) fn catch_up(&mut self, k: AccountNumber, end: usize, notes: Notes)
        ensures { self.new ≡ caught_up_to self.old k.number end notes }
    {
        let slot = &mut self.slots[k.number];
        slot.place = end;
        slot.view = notes.view;
        slot.own = notes.own;
        self.seen = notes.seen;
    }

    // The value of its next version, if what it has read decides it.
    fn decision<Q: Quorum>(&self, quorum: &Q) -> Option<Value>
        ensures value { result ≡ decision (Q.Quorum.rule quorum.now) self.now }
        ensures bound { OnSome result (self.now.known < 1023) }
    {
        if self.known == 1023 {
            return None;
        }
        if quorum.is_quorum(self.slots.map(|slot| slot.own)) {
            return Some(self.carried);
        }
        accepted_by_quorum(quorum, &self.slots)
    }

    fn choose(&self) -> Value
        ensures { result ≡ choice self.now }
    {
        let best = highest_accepted(&self.slots);
        if best.accepted == 0 {
            self.proposed
        } else {
            best.value
        }
    }

    // Asks for a value to be accepted, and has sent that nowhere.
    fn carry(&mut self, value: Value)
        requires { self.old.phase ≡ Phase.Preparing }
        ensures { self.new ≡ carrying self.old value }
    {
        self.carried = value;
        self.phase = Phase::Accepting;
        let slots = self.slots.map(|slot| Slot {
            sent: false,
            ..slot
        });
        self.slots = slots;
    }

    // While nothing is decided, as device d.
    fn go_on<Q: Quorum>(&mut self, quorum: &Q, d: DeviceNumber) -> Outcome
        ensures { (result, self.new) ≡ undecided (Q.Quorum.rule quorum.now) d.number self.old }
    {
        let ballot = self.ballot(d);
        match self.phase {
            Phase::Idle => Outcome::Waiting,
            Phase::Preparing => {
                if any_above(&self.slots, ballot) {
                    return Outcome::Preempted;
                }
                if !quorum.is_quorum(self.slots.map(|slot| slot.view.promised == ballot)) {
                    return Outcome::Waiting;
                }
                self.carry(self.choose());
                Outcome::Prepared
            }
            Phase::Accepting => {
                if any_above(&self.slots, ballot) {
                    return Outcome::Preempted;
                }
                Outcome::Waiting
            }
        }
    }

    // What it concludes, as device d, from all that it has read.
    pub(crate) fn conclude<Q: Quorum>(&mut self, quorum: &Q, d: DeviceNumber) -> Outcome
        ensures { (result, self.new) ≡ concluded (Q.Quorum.rule quorum.now) d.number self.old }
    {
        match self.decision(quorum) {
            Some(value) => {
                self.hold(self.known + 1, value);
                Outcome::Decided
            }
            None => self.go_on(quorum, d),
        }
    }
}
