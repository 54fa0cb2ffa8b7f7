use protocol::link::Link;
use protocol::phase::Phase;
use protocol::slot::Slot;
use record::value::Value;
use std::marker::Model;

// What one device holds: contracts see it as the protocol's device.
// The rules of devices name these fields one by one, also where no proposal is open or the device has not joined.
// Links stand apart from slots: a restart and a decision clear every slot and keep every link.
#[derive(Clone, Copy)]
pub struct Device {
    pub joined: bool,
    pub attempt: u16,
    pub known: u16,
    pub value: Value,
    pub phase: Phase,
    pub proposed: Value,
    pub carried: Value,
    pub seen: u16,
    pub links: [Link; 7],
    pub slots: [Slot; 7],
}

// A device with an open proposal has made an attempt, and has a version left to decide.
impl Model for Device {
    ghost use Rattle.std.specs.Prelude.{◌≡◌, ◌<◌, ◌≤◌, true, length};
    ghost use Rattle.protocol.specs.Device as protocol;

    ghost Value = { protocol.Device };

    ghost view = { λ v. record {
      joined = v.joined;
      attempt = v.attempt;
      known = v.known;
      value = v.value;
      phase = v.phase;
      proposed = v.proposed;
      carried = v.carried;
      seen = v.seen;
      links = v.links;
      slots = v.slots;
    } };

    ghost invariant = { λ v. (v.known ≤ 1023) × (protocol.is_open v.phase ≡ true → (1 ≤ v.attempt) × (v.known < 1023)) × (length v.links ≡ 7) × (length v.slots ≡ 7) };

    ghost inverse = { λ v. record {
      joined = v.joined;
      attempt = v.attempt;
      known = v.known;
      value = v.value;
      phase = v.phase;
      proposed = v.proposed;
      carried = v.carried;
      seen = v.seen;
      links = v.links;
      slots = v.slots;
    } };
}
