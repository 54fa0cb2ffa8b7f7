ghost use Rattle.std.specs.Prelude.{◌<◌};

// The number of a device: there are sixteen.
#[derive(Clone, Copy)]
pub struct DeviceNumber {
    pub(crate) number: u8,
    ghost below: { number < 16 },
}
