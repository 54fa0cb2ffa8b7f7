// Numbers as callers pass them, checked.
ghost use Rattle.std.specs.Prelude.{◌≡◌};
ghost use Rattle.group.specs.Numbers.{device_number_in, device_from, account_number_in, account_from};

use crate::account_number::AccountNumber;
use crate::device_number::DeviceNumber;
use quorum::quorum::Quorum;
use record::refusal::Refusal;

impl TryFrom<u32> for DeviceNumber {
    type Error = Refusal;

    ghost try_from_gives = { λ n r. device_number_in r ≡ device_from n };

    fn try_from(number: u32) -> Result<DeviceNumber, Refusal> {
        if number > 15 {
            return Err(Refusal::NoSuchDevice);
        }
        Ok(DeviceNumber {
            number: number as u8,
        })
    }
}

impl AccountNumber {
    // One of the accounts that a rule counts.
    pub(crate) fn counted<Q: Quorum>(quorum: &Q, account: u32) -> Result<AccountNumber, Refusal>
        ensures { account_number_in result ≡ account_from (Q.Quorum.rule quorum.now).size account }
    {
        let number = account as usize;
        if number >= quorum.size() {
            return Err(Refusal::NoSuchAccount);
        }
        Ok(AccountNumber { number })
    }
}
