use crate::model::Model;
use crate::model::peer::Peer;
use crate::model::told::Told;
use protocol::outcome::Outcome;
use protocol::phase::Phase;
use record::value::Value;

// The highest attempt that was read of.
pub fn seen(told: &[Told; 7]) -> u16 {
    told.iter().map(|one| one.attempt).max().unwrap_or(0)
}

// What a device knows from the logs, and concludes from it.
impl Model {
    // What the logs say about a device's next version, each read from its start up to the device's place.
    // Filled in place: this runs for each device after each call, and `array::from_fn` was slower.
    pub fn told(&self, peer: &Peer) -> [Told; 7] {
        let own = (peer.phase == Phase::Accepting).then_some(peer.ballot());
        let read = self.logs.iter().zip(peer.contacts.iter());
        let mut all = [Told::NONE; 7];
        for (told, (log, contact)) in all.iter_mut().zip(read) {
            *told = log.told(peer.next_version(), contact.place, own);
        }
        all
    }

    pub fn is_quorum(&self, marks: &[bool; 7]) -> bool {
        self.rule.is_quorum(self.logs.len(), marks)
    }

    pub(super) fn concluded(&self, peer: Peer) -> (Peer, Outcome) {
        let told = self.told(&peer);
        let own = Some(peer.ballot());
        if let Some(value) = self.decided(&peer, &told) {
            return (peer.deciding(value), Outcome::Decided);
        }
        if peer.is_open() && told.iter().any(|one| one.promised > own) {
            return (peer, Outcome::Preempted);
        }
        if peer.phase == Phase::Preparing && self.is_quorum(&told.map(|one| one.promised == own)) {
            return (peer.accepting(&told), Outcome::Prepared);
        }
        (peer, Outcome::Waiting)
    }

    // The value of the next version, if a quorum has accepted one ballot.
    fn decided(&self, peer: &Peer, told: &[Told; 7]) -> Option<Value> {
        if self.is_quorum(&told.map(|one| one.own)) {
            return Some(peer.carried);
        }
        told.iter()
            .filter_map(|one| one.accepted)
            .find(|accepted| self.is_quorum(&told.map(|one| one.has_accepted(accepted.ballot))))
            .map(|accepted| accepted.value)
    }
}
