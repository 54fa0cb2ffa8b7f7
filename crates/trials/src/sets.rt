use crate::model::peer::Peer;
use crate::trial::Trial;
use protocol::link::Link;
use std::alloc::AllocError;
use std::array;

// Sets of accounts, by their numbers.
impl Trial<'_> {
    pub fn account_count(&self) -> u32 {
        u32::try_from(self.model.logs.len()).unwrap_or(u32::MAX)
    }

    // The same accounts in another order. Each changes places with one anywhere, so this goes by places.
    pub fn shuffled(&mut self, accounts: &[u32]) -> Result<Vec<u32>, AllocError> {
        let mut all = accounts.to_vec(self.heap)?;
        for i in 0..all.len() {
            let j = self.dice.below(7) as usize;
            if i < all.len() && j < all.len() {
                all.swap(i, j);
            }
        }
        Ok(all)
    }

    // Accounts that a device reaches and that have room for two records: a quorum where they are one, and perhaps more.
    pub fn pick_set(&mut self, device: u32) -> Result<Vec<u32>, AllocError> {
        let usable: Vec<u32> = (0..self.account_count())
            .filter(|account| self.is_usable(device, *account))
            .collect(self.heap)?;
        let all = self.shuffled(usable.as_slice())?;
        let mut set = Vec::new(self.heap);
        for account in all.iter() {
            set.push(*account)?;
            if self.is_quorum(set.as_slice()) && !self.dice.once_in(5) {
                return Ok(set);
            }
        }
        Ok(set)
    }

    fn is_usable(&self, device: u32, account: u32) -> bool {
        let k = account as usize;
        let up = |peer: Peer| peer.contact(k).link == Link::Up;
        self.model.peer(device).is_ok_and(up) && self.model.room(k) >= 2
    }

    fn is_quorum(&self, set: &[u32]) -> bool {
        let marks = array::from_fn(|k| set.iter().any(|account| *account as usize == k));
        self.model.is_quorum(&marks)
    }

    // Whether a round over these accounts has to answer the device's proposal.
    pub fn is_ready(&self, device: u32, set: &[u32]) -> bool {
        self.model.peer(device).is_ok_and(|peer| peer.is_open())
            && !self.last_attempt_used
            && self.is_quorum(set)
            && set.iter().all(|account| self.is_usable(device, *account))
    }
}
