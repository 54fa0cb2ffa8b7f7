use crate::model::Model;
use crate::model::contact::{Contact, link_numbered};
use crate::model::knowledge::seen;
use crate::model::line::{Line, NOTHING};
use crate::model::peer::Peer;
use protocol::answer::Answer;
use protocol::call::Call;
use protocol::link::Link;
use protocol::phase::Phase;
use record::kind::Kind;
use record::refusal::Refusal;
use record::value::Value;
use std::alloc::AllocError;

// The calls, one by one.
impl Model {
    // What one call is answered, and what it leaves.
    pub fn call(&mut self, call: Call) -> Result<Answer, AllocError> {
        let reply = match call {
            Call::Join { device } => self.join(device),
            Call::SetLink {
                device,
                account,
                state,
            } => self.set_link(device, account, state),
            Call::Propose {
                device,
                base,
                value,
            } => self.propose(device, base, value),
            Call::Send { device, account } => self.send(device, account)?,
            Call::Read { device, account } => self.read(device, account),
            Call::Again { device } => self.again(device),
            Call::Restart { device } => self.restart(device),
            Call::Known { device } => self.known(device),
        };
        Ok(reply.unwrap_or_else(Answer::Refused))
    }

    // What a device keeps about an account, if there is one.
    fn contact(&self, peer: &Peer, account: u32) -> Result<Contact, Refusal> {
        let k = account as usize;
        if k < self.logs.len() {
            Ok(peer.contact(k))
        } else {
            Err(Refusal::NoSuchAccount)
        }
    }

    fn join(&mut self, device: u32) -> Result<Answer, Refusal> {
        let place = self
            .peers
            .get_mut(device as usize)
            .ok_or(Refusal::NoSuchDevice)?;
        if place.is_some() {
            return Err(Refusal::AlreadyJoined);
        }
        *place = Some(Peer::new(device));
        Ok(Answer::Done)
    }

    fn set_link(&mut self, device: u32, account: u32, state: u32) -> Result<Answer, Refusal> {
        let peer = self.peer(device)?;
        let contact = self.contact(&peer, account)?;
        let link = link_numbered(state)?;
        self.put(peer.with(account, Contact { link, ..contact }));
        Ok(Answer::Done)
    }

    fn propose(&mut self, device: u32, base: u32, value: Value) -> Result<Answer, Refusal> {
        let peer = self.peer(device)?;
        if peer.is_open() {
            return Err(Refusal::ProposalOpen);
        }
        if base != u32::from(peer.holds.number) {
            return Err(Refusal::OtherBase);
        }
        if peer.holds.number == 1023 {
            return Err(Refusal::LastVersion);
        }
        self.attempt(peer, value)
    }

    fn again(&mut self, device: u32) -> Result<Answer, Refusal> {
        let peer = self.peer(device)?;
        if !peer.is_open() {
            return Err(Refusal::NoProposal);
        }
        self.attempt(peer, peer.proposed)
    }

    fn attempt(&mut self, peer: Peer, value: Value) -> Result<Answer, Refusal> {
        let last = peer.attempt.max(seen(&self.told(&peer)));
        let attempt = last.checked_add(1).ok_or(Refusal::NoAttemptLeft)?;
        self.put(peer.trying(attempt, value));
        Ok(Answer::Attempt(attempt))
    }

    // The one call that needs memory: without it there is no reply, not even a refusal.
    fn send(&mut self, device: u32, account: u32) -> Result<Result<Answer, Refusal>, AllocError> {
        match self.request(device, account) {
            Ok(line) => self.deliver(device, account, line),
            Err(refusal) => Ok(Err(refusal)),
        }
    }

    // The record that a device would send to an account, if anything leaves it.
    fn request(&self, device: u32, account: u32) -> Result<Line, Refusal> {
        let peer = self.peer(device)?;
        let contact = self.contact(&peer, account)?;
        let (kind, value) = match peer.phase {
            Phase::Idle => return Err(Refusal::NoProposal),
            Phase::Preparing => (Kind::Prepare, NOTHING),
            Phase::Accepting => (Kind::Accept, peer.carried),
        };
        if contact.sent {
            return Err(Refusal::AlreadySent);
        }
        if contact.link == Link::Down {
            return Err(Refusal::LinkDown);
        }
        Ok(Line {
            kind,
            ballot: peer.ballot(),
            version: peer.next_version(),
            value,
        })
    }

    fn deliver(
        &mut self,
        device: u32,
        account: u32,
        line: Line,
    ) -> Result<Result<Answer, Refusal>, AllocError> {
        let said = match self.logs.get_mut(account as usize) {
            Some(log) => log.append(line)?,
            None => Err(Refusal::NoSuchAccount),
        };
        Ok(self.reply(device, account, said))
    }

    // What a device hears of what an account said to its request.
    fn reply(
        &mut self,
        device: u32,
        account: u32,
        said: Result<usize, Refusal>,
    ) -> Result<Answer, Refusal> {
        let peer = self.peer(device)?;
        let contact = self.contact(&peer, account)?;
        if contact.link == Link::RepliesLost {
            return Err(Refusal::RepliesLost);
        }
        let length = said?;
        let sent = true;
        self.put(peer.with(account, Contact { sent, ..contact }));
        Ok(Answer::Length(length))
    }

    fn read(&mut self, device: u32, account: u32) -> Result<Answer, Refusal> {
        let peer = self.peer(device)?;
        let contact = self.contact(&peer, account)?;
        match contact.link {
            Link::Up => {}
            Link::Down => return Err(Refusal::LinkDown),
            Link::RepliesLost => return Err(Refusal::RepliesLost),
        }
        let place = self.length(account as usize);
        let reader = peer.with(account, Contact { place, ..contact });
        let (after, outcome) = self.concluded(reader);
        self.put(after);
        Ok(Answer::Taken(place.saturating_sub(contact.place), outcome))
    }

    fn restart(&mut self, device: u32) -> Result<Answer, Refusal> {
        let peer = self.peer(device)?;
        self.put(peer.holding(peer.holds));
        Ok(Answer::Done)
    }

    fn known(&self, device: u32) -> Result<Answer, Refusal> {
        Ok(Answer::Holds(self.peer(device)?.holds))
    }
}
