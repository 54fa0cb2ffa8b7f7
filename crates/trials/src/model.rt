pub mod ballot;
mod calls;
mod contact;
pub mod knowledge;
pub mod line;
pub mod log;
pub mod peer;
pub mod rule;
pub mod told;

use crate::model::line::NOTHING;
use crate::model::log::Log;
use crate::model::peer::Peer;
use crate::model::rule::Rule;
use protocol::call::Call;
use protocol::version::Version;
use record::refusal::Refusal;
use std::alloc::{AllocError, Global};

// The whole of a group, kept as simply as can be.
#[derive(Drop)]
pub struct Model {
    pub logs: Vec<Log>,
    pub rule: Rule,
    // those that have joined
    pub peers: [Option<Peer>; 16],
}

pub fn device_of(call: Call) -> u32 {
    match call {
        Call::Join { device }
        | Call::SetLink { device, .. }
        | Call::Propose { device, .. }
        | Call::Send { device, .. }
        | Call::Read { device, .. }
        | Call::Again { device }
        | Call::Restart { device }
        | Call::Known { device } => device,
    }
}

impl Model {
    // Sixteen devices that have not joined, and no accounts.
    pub fn new(heap: Global, rule: Rule) -> Model {
        Model {
            logs: Vec::new(heap),
            rule,
            peers: [None; 16],
        }
    }

    // One more account, before those at hand.
    pub fn add(&mut self, heap: Global, maximum: usize) -> Result<(), AllocError> {
        self.logs.insert(0, Log::new(heap, maximum))?;
        Ok(())
    }

    pub fn is_empty(&self) -> bool {
        self.logs.iter().all(|log| log.lines.is_empty())
    }

    // The device that makes a call, if it may.
    pub fn peer(&self, device: u32) -> Result<Peer, Refusal> {
        self.peers
            .get(device as usize)
            .copied()
            .ok_or(Refusal::NoSuchDevice)?
            .ok_or(Refusal::NotJoined)
    }

    fn put(&mut self, peer: Peer) {
        if let Some(place) = self.peers.get_mut(peer.device as usize) {
            *place = Some(peer);
        }
    }

    // What the device of a call holds.
    pub fn holds(&self, call: Call) -> Version {
        let nothing = Version {
            number: 0,
            value: NOTHING,
        };
        self.peer(device_of(call))
            .map_or(nothing, |peer| peer.holds)
    }

    fn length(&self, k: usize) -> usize {
        self.logs.get(k).map_or(0, |log| log.lines.len())
    }

    // How many more records an account takes.
    pub fn room(&self, k: usize) -> usize {
        self.logs.get(k).map_or(0, |log| log.room())
    }

    // How many ACCEPTs stand in the logs that were accepted after one with a higher ballot.
    pub fn late_accepts(&self) -> u64 {
        self.logs.iter().fold(0u64, |sum, log| {
            sum.saturating_add(log.late_accepts() as u64)
        })
    }

    // Whether a device carries another value than it proposed.
    pub fn has_adopted(&self, device: u32) -> bool {
        self.peer(device).is_ok_and(|peer| peer.has_adopted())
    }
}
