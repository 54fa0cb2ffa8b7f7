ghost use Rattle.std.specs.Prelude.{◌≡◌, MatchResult};
ghost use Rattle.protocol.specs.Chain.{OneOrderFrom};
ghost use Rattle.protocol.specs.Rounds.{round, Orderly, RoundEndsFrom};
ghost use Rattle.quorum.specs.Rules.{Set, Lawful};
ghost use Rattle.group.specs.Acts.{joins, links, proposes, sends, reads, agains, restarts, knows, steps, Ran};
ghost use Rattle.group.specs.Models.{Model};
ghost use Rattle.group.specs.Rounds.{orders_of};

use crate::round::{Orders, round_calls};
use protocol::answer::Answer;
use protocol::call::Call;
use protocol::outcome::Outcome;
use protocol::version::Version;
use record::refusal::Refusal;
use record::value::Value;
use std::alloc::{AllocError, Global};

fn answer<T, F: FnOnce(T) -> Answer>(reply: Result<T, Refusal>, granted: F) -> Answer
    requires { F.IsAlwaysCallable granted }
    ensures { MatchResult reply (λ x. F.post granted x result) (λ refusal. result ≡ Answer.Refused refusal) }
{
    reply.map_or_else(Answer::Refused, granted)
}

// Devices that share accounts. Each call, refused or not, is answered and leaves what the protocol says, and nothing else.
pub trait Calls {
    ghost model: { Self → Model };

    // Enters a device.
    fn join(&mut self, device: u32) -> Result<(), Refusal>
        ensures { (result, model self.new) ≡ joins (model self.old) device };

    // Sets one link of one device: 0 up, 1 down, 2 replies lost. A number, since a caller may name any.
    fn link(&mut self, device: u32, account: u32, state: u32) -> Result<(), Refusal>
        ensures { (result, model self.new) ≡ links (model self.old) device account state };

    // Opens a proposal for the version after base, and answers the attempt.
    fn propose(&mut self, device: u32, base: u32, value: Value) -> Result<u16, Refusal>
        ensures { (result, model self.new) ≡ proposes (model self.old) device base value };

    // Tries an open proposal again under a new attempt, which it answers.
    fn again(&mut self, device: u32) -> Result<u16, Refusal>
        ensures { (result, model self.new) ≡ agains (model self.old) device };

    // Appends the request of a device's open proposal to an account, and answers the account's new length.
    fn send(&mut self, device: u32, account: u32) -> Result<usize, Refusal>
        ensures { (result, model self.new) ≡ sends (model self.old) device account };

    // Takes all records of an account from the device's place on. Answers how many, and what the device concludes.
    fn read(&mut self, device: u32, account: u32) -> Result<(usize, Outcome), Refusal>
        ensures { (result, model self.new) ≡ reads (model self.old) device account };

    // Keeps its attempt, what it holds and its links; everything else is as after joining.
    fn restart(&mut self, device: u32) -> Result<(), Refusal>
        ensures { (result, model self.new) ≡ restarts (model self.old) device };

    // The version that a device holds.
    fn known(&self, device: u32) -> Result<Version, Refusal>
        ensures { (result, model self.now) ≡ knows (model self.now) device };

    ghost lawful: { (g : Self) → Lawful (model g).rule };

    // Makes one call.
    final fn call(&mut self, call: Call) -> Answer
        ensures { (result, model self.new) ≡ steps (model self.old) call }
    {
        match call {
            Call::Join { device } => answer(self.join(device), |()| Answer::Done),
            Call::SetLink {
                device,
                account,
                state,
            } => answer(self.link(device, account, state), |()| Answer::Done),
            Call::Propose {
                device,
                base,
                value,
            } => answer(self.propose(device, base, value), Answer::Attempt),
            Call::Send { device, account } => answer(self.send(device, account), Answer::Length),
            Call::Read { device, account } => answer(
                self.read(device, account),
                |(count, outcome)| Answer::Taken(count, outcome),
            ),
            Call::Again { device } => answer(self.again(device), Answer::Attempt),
            Call::Restart { device } => answer(self.restart(device), |()| Answer::Done),
            Call::Known { device } => answer(self.known(device), Answer::Holds),
        }
    }

    // Makes a list of calls in turn. Without memory for the answers it makes none. The heap is a handle, and no part of the calls.
    // Whatever calls to a new group led here, their proposals and these have one order.
    final fn run(&mut self, heap: Global, calls: &[Call]) -> Result<Vec<Answer>, AllocError>
        ensures run { Ran (model self.old) (model self.new) calls.now result }
        ensures order { OneOrderFrom (model self.old).rule (model self.old).state calls.now }
    {
        let mut answers = Vec::with_capacity(heap, calls.len())?;
        for call in calls {
            let answer = self.call(*call);
            answers.push_reserved(answer);
        }
        Ok(answers)
    }

    // Makes the calls of a device's round. Without memory it makes none.
    // Whatever calls to a new group led here: where the orders are of one quorum whose accounts the device reaches and that have room
    // for two records each, and the last attempt was not used, the round answers the device's open proposal.
    final fn round(
        &mut self,
        heap: Global,
        device: u32,
        orders: &Orders<'_>,
    ) -> Result<Vec<Answer>, AllocError>
        ensures run { Ran (model self.old) (model self.new) (round device (orders_of orders.now)) result }
        ensures ends { (S : Set) → Orderly (model self.old).rule S (orders_of orders.now)
            → RoundEndsFrom (model self.old).rule (model self.old).state device S (orders_of orders.now) }
    {
        let calls = round_calls(heap, device, orders)?;
        self.run(heap, calls.as_slice())
    }
}
