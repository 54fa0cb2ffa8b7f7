ghost use Rattle.std.specs.Prelude.{◌≡◌, IfOk, OnOk};
ghost use Rattle.protocol.specs.Rounds.{round};
ghost use Rattle.group.specs.Rounds.{orders_of, AddsEach};

use protocol::call::Call;
use std::alloc::{AllocError, Global};

// An order of the same accounts for each pass of a round, by the names that the law of a round has for them.
#[derive(Clone, Copy)]
pub struct Orders<'a> {
    pub first: &'a [u32],
    pub second: &'a [u32],
    pub third: &'a [u32],
    pub fourth: &'a [u32],
    pub fifth: &'a [u32],
}

// Adds a call for each account.
fn push_each<F: Fn(u32) -> Call>(
    calls: &mut Vec<Call>,
    accounts: &[u32],
    call: F,
) -> Result<(), AllocError>
    requires { F.IsAlwaysCallable call }
    ensures { OnOk result (AddsEach (F.post call) accounts.now calls.old.items calls.new.items) }
{
    for account in accounts {
        calls.push(call(*account))?;
    }
    Ok(())
}

// The calls of a device's round: read each, again, send to each, read each, send to each, read each.
pub fn round_calls(heap: Global, device: u32, orders: &Orders<'_>) -> Result<Vec<Call>, AllocError>
    ensures { IfOk result (λ v. v.items ≡ round device (orders_of orders.now)) }
{
    let read = |account| Call::Read { device, account };
    let send = |account| Call::Send { device, account };
    let mut calls = Vec::new(heap);
    push_each(&mut calls, orders.first, read)?;
    calls.push(Call::Again { device })?;
    push_each(&mut calls, orders.second, send)?;
    push_each(&mut calls, orders.third, read)?;
    push_each(&mut calls, orders.fourth, send)?;
    push_each(&mut calls, orders.fifth, read)?;
    Ok(calls)
}
