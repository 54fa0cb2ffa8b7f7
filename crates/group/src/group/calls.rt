ghost use Rattle.group.specs.Models.{model_of};

use super::Group;
use crate::account_number::AccountNumber;
use crate::calls::Calls;
use crate::device::Device;
use crate::device_number::DeviceNumber;
use crate::reading::log_length;
use account::accounts::Accounts;
use protocol::link::Link;
use protocol::outcome::Outcome;
use protocol::version::Version;
use quorum::quorum::Quorum;
use record::refusal::Refusal;
use record::value::Value;

impl<A: Accounts, Q: Quorum> Calls for Group<A, Q> {
    ghost model = { model_of A.Accounts.books A.Accounts.lent Q.Quorum.rule };

    ghost lawful = { λ g. Q.Quorum.lawful g.quorum };

    fn join(&mut self, device: u32) -> Result<(), Refusal> {
        let d = DeviceNumber::try_from(device)?;
        if self.table.get(d).joined {
            return Err(Refusal::AlreadyJoined);
        }
        self.table.put(d, Device::new(true));
        Ok(())
    }

    fn link(&mut self, device: u32, account: u32, state: u32) -> Result<(), Refusal> {
        let d = self.table.joined(device)?;
        let k = AccountNumber::counted(&self.quorum, account)?;
        self.table.set_link(d, k, Link::try_from(state)?);
        Ok(())
    }

    fn propose(&mut self, device: u32, base: u32, value: Value) -> Result<u16, Refusal> {
        let d = self.table.joined(device)?;
        let row = self.table.get(d);
        if row.is_open() {
            return Err(Refusal::ProposalOpen);
        }
        if base != u32::from(row.known) {
            return Err(Refusal::OtherBase);
        }
        if row.known == 1023 {
            return Err(Refusal::LastVersion);
        }
        self.table.attempt_next(d, value)
    }

    fn again(&mut self, device: u32) -> Result<u16, Refusal> {
        let d = self.table.joined(device)?;
        let row = self.table.get(d);
        if !row.is_open() {
            return Err(Refusal::NoProposal);
        }
        self.table.attempt_next(d, row.proposed)
    }

    // A copy of the device's record goes back only where the account's reply has come.
    fn send(&mut self, device: u32, account: u32) -> Result<usize, Refusal> {
        let d = self.table.joined(device)?;
        let k = AccountNumber::counted(&self.quorum, account)?;
        let mut row = self.table.get(d);
        if !row.is_open() {
            return Err(Refusal::NoProposal);
        }
        if row.slots[k.number].sent {
            return Err(Refusal::AlreadySent);
        }
        let link = row.links[k.number];
        if link == Link::Down {
            return Err(Refusal::LinkDown);
        }
        let answer = self.accounts.append(k.number, &row.request(d));
        if link == Link::RepliesLost {
            return Err(Refusal::RepliesLost);
        }
        let length = answer?;
        row.slots[k.number].sent = true;
        self.table.put(d, row);
        Ok(length)
    }

    fn read(&mut self, device: u32, account: u32) -> Result<(usize, Outcome), Refusal> {
        let d = self.table.joined(device)?;
        let k = AccountNumber::counted(&self.quorum, account)?;
        let mut row = self.table.get(d);
        match row.links[k.number] {
            Link::Up => {}
            Link::Down => return Err(Refusal::LinkDown),
            Link::RepliesLost => return Err(Refusal::RepliesLost),
        }
        let end = log_length(&self.accounts, k.number);
        let count = end.saturating_sub(row.place(k));
        row.catch_up(k, end, row.note_all(d, &self.accounts, k, end));
        let outcome = row.conclude(&self.quorum, d);
        self.table.put(d, row);
        Ok((count, outcome))
    }

    fn restart(&mut self, device: u32) -> Result<(), Refusal> {
        let d = self.table.joined(device)?;
        self.table.restart(d);
        Ok(())
    }

    fn known(&self, device: u32) -> Result<Version, Refusal> {
        let d = self.table.joined(device)?;
        let row = self.table.get(d);
        Ok(Version {
            number: row.known,
            value: row.value,
        })
    }
}
