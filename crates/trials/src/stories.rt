use crate::play::Play;
use crate::run_error::RunError;
use account::accounts::Accounts;
use protocol::call::Call;
use quorum::quorum::Quorum;
use record::value::Value;

// Runs to the end of what can be counted.
impl<A: Accounts, Q: Quorum> Play<'_, '_, A, Q> {
    // A device proposes every version that there is, and one more; another catches up with it.
    pub fn play_versions(&mut self) -> Result<(), RunError> {
        self.make_all(&[Call::Join { device: 3 }, Call::Join { device: 12 }])?;
        for base in 0..1024u32 {
            self.propose_alone(base)?;
        }
        self.repeat(
            1024,
            Call::Read {
                device: 12,
                account: 0,
            },
        )
    }

    fn propose_alone(&mut self, base: u32) -> Result<(), RunError> {
        let (device, account) = (3, 0);
        let value = Value {
            root: u64::from(base),
            setup: 7,
        };
        let send = Call::Send { device, account };
        let read = Call::Read { device, account };
        self.make_all(&[
            Call::Propose {
                device,
                base,
                value,
            },
            send,
            read,
            send,
            read,
        ])
    }

    fn repeat(&mut self, count: u32, call: Call) -> Result<(), RunError> {
        for _ in 0..count {
            self.make(call)?;
        }
        Ok(())
    }

    // A device uses every attempt that there is. Whoever has read of the last one has none left.
    pub fn play_attempts(&mut self) -> Result<(), RunError> {
        let base = 0;
        let value = Value { root: 1, setup: 1 };
        let propose = |device| Call::Propose {
            device,
            base,
            value,
        };
        self.make_all(&[
            Call::Join { device: 0 },
            Call::Join { device: 15 },
            propose(15),
        ])?;
        self.repeat(65535, Call::Again { device: 15 })?;
        for account in 0..self.trial.account_count() {
            self.make_all(&[
                Call::Send {
                    device: 15,
                    account,
                },
                Call::Read { device: 0, account },
                propose(0),
                Call::Read {
                    device: 15,
                    account,
                },
            ])?;
        }
        Ok(())
    }
}
