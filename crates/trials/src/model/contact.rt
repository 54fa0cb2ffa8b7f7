use protocol::link::Link;
use record::refusal::Refusal;

// What a device keeps about one account: how it reaches it, how far it has read, and whether it has sent its request.
#[derive(Clone, Copy)]
pub struct Contact {
    pub link: Link,
    pub place: usize,
    pub sent: bool,
}

impl Contact {
    pub const NEW: Contact = Contact {
        link: Link::Up,
        place: 0,
        sent: false,
    };

    pub fn unsent(self) -> Contact {
        Contact {
            sent: false,
            ..self
        }
    }

    // Only the link is left.
    pub fn unread(self) -> Contact {
        Contact {
            link: self.link,
            ..Contact::NEW
        }
    }
}

// The link that a number stands for, by the model's own match, since it is to check the library's.
pub fn link_numbered(state: u32) -> Result<Link, Refusal> {
    match state {
        0 => Ok(Link::Up),
        1 => Ok(Link::Down),
        2 => Ok(Link::RepliesLost),
        _ => Err(Refusal::NoSuchLinkState),
    }
}
