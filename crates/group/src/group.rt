use crate::table::DeviceTable;

mod calls;

// Accounts, the rule that counts them, and sixteen devices.
#[derive(Drop)]
pub struct Group<A, Q> {
    pub(crate) accounts: A,
    pub(crate) quorum: Q,
    pub(crate) table: DeviceTable,
}
