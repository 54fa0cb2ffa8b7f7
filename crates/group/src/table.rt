ghost use Rattle.std.specs.Prelude.{◌≡◌, ◌<◌, false, [], replicate, slice_set, IfSome};
ghost use Rattle.record.specs.Checks.{unless};
ghost use Rattle.protocol.specs.Device.{new_device, with_link, restarted};
ghost use Rattle.protocol.specs.Refusals.{device_checks};
ghost use Rattle.group.specs.Models.{sought, device_in, attempted_in, state_of};
ghost use Rattle.group.specs.Numbers.{device_number_in};
ghost use Rattle.group.specs.Sound.{IsSound, AreSound};

use crate::account_number::AccountNumber;
use crate::device::Device;
use crate::device_number::DeviceNumber;
use protocol::link::Link;
use record::refusal::Refusal;
use record::value::Value;
use std::marker::Model;

// Sixteen devices, told by their numbers: contracts see the list of them, and each is sound.
// A method that changes a record lends it inside: no reference to one leaves the table.
// That there are sixteen, by value, is a rule of devices.
#[derive(Clone, Copy)]
pub struct DeviceTable {
    pub(crate) rows: [Device; 16],
}

impl Model for DeviceTable {
    ghost use Rattle.std.specs.Prelude.{List};
    ghost use Rattle.protocol.specs.Device.{Device};

    ghost Value = { List Device };

    ghost use Rattle.group.specs.Sound.{AreSound};

    ghost view = { λ table. table.rows };

    ghost invariant = { λ table. AreSound table.rows };

    ghost inverse = { λ devices. record { rows = devices } };
}

impl DeviceTable {
    // Nobody has joined.
    pub(crate) fn new() -> DeviceTable
        ensures { result ≡ replicate 16 (new_device false) }
    {
        DeviceTable {
            rows: [Device::new(false); 16],
        }
    }

    // One device's record, to read, if there is such a device.
    pub fn device(&self, device: u32) -> Option<Device>
        ensures found { result ≡ sought self.now device }
        ensures sound { IfSome result IsSound }
    {
        self.rows.get(device as usize).copied()
    }

    // A copy of it, to read. What is true of each device, its reader knows of it.
    pub fn snapshot(&self) -> DeviceTable
        ensures same { result ≡ self.now }
        ensures sound { AreSound result }
    {
        let _rows = &self.rows;
        *self
    }

    // A copy of one device's record.
    pub(crate) fn get(&self, d: DeviceNumber) -> Device
        ensures { result ≡ device_in self.now d.number }
    {
        let rows: &[Device] = &self.rows;
        rows[usize::from(d.number)]
    }

    // The number of a device that has joined.
    pub(crate) fn joined(&self, device: u32) -> Result<DeviceNumber, Refusal>
        ensures { device_number_in result ≡ unless (device_checks (state_of [] self.now) device) device }
    {
        let d = DeviceNumber::try_from(device)?;
        let device = &self.rows[usize::from(d.number)];
        if !device.joined {
            return Err(Refusal::NotJoined);
        }
        Ok(d)
    }

    // Writes one device's record back.
    pub(crate) fn put(&mut self, d: DeviceNumber, device: Device)
        ensures { self.new ≡ slice_set self.old d.number device }
    {
        self.rows[usize::from(d.number)] = device;
    }

    pub(crate) fn set_link(&mut self, d: DeviceNumber, k: AccountNumber, link: Link)
        ensures { self.new ≡ slice_set self.old d.number (with_link (device_in self.old d.number) k.number link) }
    {
        let device = &mut self.rows[usize::from(d.number)];
        device.set_link(k, link);
    }

    pub(crate) fn restart(&mut self, d: DeviceNumber)
        ensures { self.new ≡ slice_set self.old d.number (restarted (device_in self.old d.number)) }
    {
        let device = &mut self.rows[usize::from(d.number)];
        device.restart();
    }

    // The next attempt of one device for a value.
    pub(crate) fn attempt_next(&mut self, d: DeviceNumber, value: Value) -> Result<u16, Refusal>
        requires { (device_in self.old d.number).known < 1023 }
        ensures { (result, self.new) ≡ attempted_in self.old d.number value }
    {
        let device = &mut self.rows[usize::from(d.number)];
        let attempt = device.next_attempt()?;
        device.begin(attempt, value);
        Ok(attempt)
    }
}
