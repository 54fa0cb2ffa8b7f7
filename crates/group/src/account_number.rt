ghost use Rattle.std.specs.Prelude.{◌<◌};

// The number of an account: a device keeps something about seven.
#[derive(Clone, Copy)]
pub struct AccountNumber {
    pub(crate) number: usize,
    ghost below: { number < 7 },
}
