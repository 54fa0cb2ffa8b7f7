use record::value::Value;

// One call of one device, with numbers as a caller passes them: any of them may be refused.
#[derive(Clone, Copy, Debug, PartialEq, Eq)]
pub enum Call {
    Join {
        device: u32,
    },
    SetLink {
        device: u32,
        account: u32,
        state: u32,
    },
    Propose {
        device: u32,
        base: u32,
        value: Value,
    },
    Send {
        device: u32,
        account: u32,
    },
    Read {
        device: u32,
        account: u32,
    },
    Again {
        device: u32,
    },
    Restart {
        device: u32,
    },
    Known {
        device: u32,
    },
}
