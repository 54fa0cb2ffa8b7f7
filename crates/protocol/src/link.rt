ghost use Rattle.std.specs.Prelude.{◌≡◌};
ghost use Rattle.protocol.specs.Codes.{link_from};

use record::refusal::Refusal;

// How a device reaches an account: both ways, not at all, or so that requests arrive and replies are lost.
#[derive(Clone, Copy, Debug, PartialEq, Eq)]
pub enum Link {
    Up,
    Down,
    RepliesLost,
}

impl TryFrom<u32> for Link {
    type Error = Refusal;

    ghost try_from_gives = { λ number r. r ≡ link_from number };

    fn try_from(number: u32) -> Result<Link, Refusal> {
        match number {
            0 => Ok(Link::Up),
            1 => Ok(Link::Down),
            2 => Ok(Link::RepliesLost),
            _ => Err(Refusal::NoSuchLinkState),
        }
    }
}
