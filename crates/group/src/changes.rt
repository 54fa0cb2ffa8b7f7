ghost use Rattle.std.specs.Prelude.{◌≡◌, ◌<◌, ◌≤◌, true};
ghost use Rattle.protocol.specs.Device.{new_device, restarted, with_link, next_attempt, opened, holding, own_ballot, request, is_open};
ghost use Rattle.record.specs.Entry.{entry_of};
ghost use Rattle.group.specs.Models.{next_in};

use crate::account_number::AccountNumber;
use crate::device::Device;
use crate::device_number::DeviceNumber;
use protocol::link::Link;
use protocol::phase::Phase;
use protocol::slot::Slot;
use record::kind::Kind;
use record::record::Record;
use record::refusal::Refusal;
use record::value::Value;

impl Device {
    // Everything is 0, unmarked and idle.
    pub(crate) fn new(joined: bool) -> Device
        ensures { result ≡ new_device joined }
    {
        Device {
            joined,
            attempt: 0,
            known: 0,
            value: Value::NONE,
            phase: Phase::Idle,
            proposed: Value::NONE,
            carried: Value::NONE,
            seen: 0,
            links: [Link::Up; 7],
            slots: [Slot::FRESH; 7],
        }
    }

    pub(crate) fn is_open(&self) -> bool
        ensures { result ≡ is_open self.now.phase }
    {
        self.phase != Phase::Idle
    }

    // The attempt that a proposal would use next, if one is left.
    pub(crate) fn next_attempt(&self) -> Result<u16, Refusal>
        ensures { result ≡ next_in self.now }
    {
        let highest = self.attempt.max(self.seen);
        highest.checked_add(1).ok_or(Refusal::NoAttemptLeft)
    }

    // Prepares a value under the next attempt, and nothing is marked.
    pub(crate) fn begin(&mut self, attempt: u16, value: Value)
        requires next { attempt ≡ next_attempt self.old }
        requires version { self.old.known < 1023 }
        ensures { self.new ≡ opened self.old value }
    {
        self.attempt = attempt;
        self.phase = Phase::Preparing;
        self.proposed = value;
        let slots = self.slots.map(|slot| Slot {
            sent: false,
            own: false,
            ..slot
        });
        self.slots = slots;
    }

    // Holds a version and begins anew, with its attempt and its links as they were.
    pub(crate) fn hold(&mut self, known: u16, value: Value)
        requires { known ≤ 1023 }
        ensures { self.new ≡ holding self.old known value }
    {
        self.known = known;
        self.value = value;
        self.phase = Phase::Idle;
        self.proposed = Value::NONE;
        self.carried = Value::NONE;
        self.seen = 0;
        self.slots = [Slot::FRESH; 7];
    }

    // Begins anew, with its attempt, what it holds and its links as they were.
    pub(crate) fn restart(&mut self)
        ensures { self.new ≡ restarted self.old }
    {
        self.hold(self.known, self.value);
    }

    pub(crate) fn set_link(&mut self, k: AccountNumber, link: Link)
        ensures { self.new ≡ with_link self.old k.number link }
    {
        self.links[k.number] = link;
    }

    // The ballot of its requests, as device d.
    pub(crate) fn ballot(&self, d: DeviceNumber) -> u32
        ensures { result ≡ own_ballot d.number self.now }
    {
        u32::from(self.attempt) * 16 + u32::from(d.number)
    }

    // What it asks of an account, as device d.
    pub(crate) fn request(&self, d: DeviceNumber) -> Record
        requires { is_open self.now.phase ≡ true }
        ensures { entry_of result ≡ request d.number self.now }
    {
        let (kind, value) = match self.phase {
            Phase::Accepting => (Kind::Accept, self.carried),
            Phase::Preparing | Phase::Idle => (Kind::Prepare, Value::NONE),
        };
        Record {
            kind,
            attempt: self.attempt,
            device: d.number,
            version: self.known + 1,
            value,
        }
    }
}
