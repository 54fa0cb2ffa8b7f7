use crate::difference::{Difference, same};
use crate::model::Model;
use crate::model::ballot::Ballot;
use crate::model::knowledge::seen;
use crate::model::line::{Line, NOTHING};
use crate::model::log::Log;
use crate::model::peer::Peer;
use crate::model::told::{Accepted, Told};
use account::accounts::Accounts;
use group::device::Device;
use group::group::Group;
use group::table::DeviceTable;
use protocol::slot::Slot;
use protocol::version::Version;
use quorum::quorum::Quorum;
use record::refusal::Refusal;

// The first difference between a group and the model, over all that both hold.
pub fn compare<A: Accounts, Q: Quorum>(
    group: &Group<A, Q>,
    model: &Model,
) -> Result<(), Difference> {
    compare_accounts(group.accounts(), model)?;
    compare_devices(&group.devices(), model)
}

fn compare_accounts<A: Accounts>(accounts: &A, model: &Model) -> Result<(), Difference> {
    let count = model.logs.len();
    same(accounts.count(), count, Difference::AccountCount)?;
    let past = accounts.length(count);
    same(past, Err(Refusal::NoSuchAccount), Difference::AccountCount)?;
    for (k, log) in model.logs.iter().enumerate() {
        compare_log(accounts, k, log)?;
    }
    Ok(())
}

fn compare_log<A: Accounts>(accounts: &A, k: usize, log: &Log) -> Result<(), Difference> {
    let length = log.lines.len();
    same(accounts.length(k), Ok(length), Difference::Length)?;
    for (place, line) in log.lines.iter().enumerate() {
        let record = accounts.read(k, place).map(Line::from);
        same(record, Ok(*line), Difference::Record)?;
    }
    let past = accounts.read(k, length).map(Line::from);
    same(past, Err(Refusal::PastEnd), Difference::PastEnd)
}

fn compare_devices(table: &DeviceTable, model: &Model) -> Result<(), Difference> {
    for (number, joined) in (0u32..).zip(model.peers.iter()) {
        let device = table.device(number).ok_or(Difference::NoDevice)?;
        same(device.joined, joined.is_some(), Difference::Joined)?;
        let new = Peer::new(number);
        let peer = joined.as_ref().unwrap_or(&new);
        let told = joined
            .as_ref()
            .map_or([Told::NONE; 7], |peer| model.told(peer));
        compare_device(&device, peer, seen(&told))?;
        compare_slots(&device, peer, &told)?;
    }
    same(table.device(16).is_some(), false, Difference::NoDevice)
}

fn compare_device(device: &Device, peer: &Peer, seen: u16) -> Result<(), Difference> {
    let holds = Version {
        number: device.known,
        value: device.value,
    };
    same(device.attempt, peer.attempt, Difference::Attempt)?;
    same(holds, peer.holds, Difference::Known)?;
    same(device.phase, peer.phase, Difference::Phase)?;
    same(device.proposed, peer.proposed, Difference::Proposed)?;
    same(device.carried, peer.carried, Difference::Carried)?;
    same(device.seen, seen, Difference::Seen)?;
    for (link, contact) in device.links.iter().zip(peer.contacts.iter()) {
        same(*link, contact.link, Difference::Links)?;
    }
    Ok(())
}

fn compare_slots(device: &Device, peer: &Peer, told: &[Told; 7]) -> Result<(), Difference> {
    let expected = peer.contacts.iter().zip(told.iter());
    for (slot, (contact, told)) in device.slots.iter().zip(expected) {
        same(slot.place, contact.place, Difference::Place)?;
        same(slot.sent, contact.sent, Difference::Sent)?;
        compare_slot(slot, told)?;
    }
    Ok(())
}

// A device has the number 0 for no ballot, and a value that is nothing.
fn compare_slot(slot: &Slot, told: &Told) -> Result<(), Difference> {
    let promised = told.promised.map_or(0, Ballot::number);
    let accepted = told
        .accepted
        .map_or((0, NOTHING), |Accepted { ballot, value }| {
            (ballot.number(), value)
        });
    let view = slot.view;
    same(view.promised, promised, Difference::Promised)?;
    same((view.accepted, view.value), accepted, Difference::Accepted)?;
    same(slot.own, told.own, Difference::Own)
}
