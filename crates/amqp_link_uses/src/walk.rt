//! The smallest whole run of a pair: a delivery is sent, cut off halfway, resumed, handed out and settled. What is
//! handed out is what was sent.
ghost use Rattle.std.specs.Prelude.{◌≡◌, ℕ, List, true, IfOk, OnOk};
ghost use Rattle.amqp_link.specs.Invariants.{IsWorld};
ghost use Rattle.amqp_link.specs.Steps.{has_flag};
ghost use Rattle.amqp_link.specs.Worlds.{IsRegistered, bytes_in, held_at};
ghost use Rattle.amqp_link_uses.specs.Walks.{KeepsRegistered};

use amqp_link::laws::held_is_what_was_sent;
use amqp_link::pair::{OrAborted, Pair, PairError};
use amqp_link::{DeliveryTag, Payload, Whole};
use std::alloc::Global;

/// Sends a payload over a new pair, whose link is cut after its first transfer, and returns what the receiver hands
/// out: that payload.
pub fn deliver_through_a_cut(alloc: Global, payload: &Payload) -> Result<Payload, PairError>
    ensures { IfOk result (λ delivered. delivered ≡ payload.now) }
{
    let mut pair = Pair::new(alloc, 0)?;
    let delivered = walk(&mut pair, payload);
    drop(pair);
    delivered
}

fn walk(pair: &mut Pair, payload: &Payload) -> Result<Payload, PairError>
    requires { IsWorld pair.old }
    ensures { IfOk result (λ delivered. delivered ≡ payload.now) }
{
    attach(pair)?;
    pair.grant(1)?;
    let tag = send(pair, payload)?;
    let delivered = deliver_resumed(pair, &tag);
    drop(tag);
    delivered
}

// Delivers what is registered with a tag, after a cut.
fn deliver_resumed(pair: &mut Pair, tag: &DeliveryTag) -> Result<Payload, PairError>
    requires { IsWorld pair.old }
    ensures { (sent : List ℕ) → IsRegistered pair.old tag.now sent → IfOk result (λ payload. payload ≡ sent) }
{
    cut_and_resume(pair)?;
    hand_out_and_settle(pair, tag)
}

// Sends the payload, and returns the delivery's tag.
fn send(pair: &mut Pair, payload: &Payload) -> Result<DeliveryTag, PairError>
    ensures registered { IfOk result (λ tag. IsRegistered pair.new tag payload.now) }
    ensures kept { IsWorld pair.new }
{
    held_is_what_was_sent::<Whole>();
    Ok(pair.send(payload)?.tag)
}

// The first transfer of a delivery arrives, and the link is cut. Both endpoints attach again, and the rest of the
// delivery is sent and arrives.
fn cut_and_resume(pair: &mut Pair) -> Result<(), PairError>
    requires { IsWorld pair.old }
    ensures keeps { OnOk result (KeepsRegistered pair.old pair.new) }
    ensures kept { IsWorld pair.new }
{
    arrive(pair)?;
    cut(pair)?;
    attach(pair)?;
    for _ in 0..resume(pair)? {
        arrive(pair)?;
    }
    Ok(())
}

// Attaches both endpoints with frames of at most 64 bytes.
fn attach(pair: &mut Pair) -> Result<(), PairError>
    requires { IsWorld pair.old }
    ensures keeps { OnOk result (KeepsRegistered pair.old pair.new) }
    ensures kept { IsWorld pair.new }
{
    held_is_what_was_sent::<Whole>();
    pair.attach(64)?;
    Ok(())
}

// The next transfer arrives.
fn arrive(pair: &mut Pair) -> Result<(), PairError>
    requires { IsWorld pair.old }
    ensures keeps { OnOk result (KeepsRegistered pair.old pair.new) }
    ensures kept { IsWorld pair.new }
{
    held_is_what_was_sent::<Whole>();
    drop(pair.arrive(0)?);
    Ok(())
}

// Cuts the link: the transfers that have not arrived are lost.
fn cut(pair: &mut Pair) -> Result<(), PairError>
    requires { IsWorld pair.old }
    ensures keeps { OnOk result (KeepsRegistered pair.old pair.new) }
    ensures kept { IsWorld pair.new }
{
    held_is_what_was_sent::<Whole>();
    pair.cut()
}

// Sends the rest of the next delivery, and returns the number of its transfers: one that aborts it, if it was withdrawn.
fn resume(pair: &mut Pair) -> Result<usize, PairError>
    requires { IsWorld pair.old }
    ensures keeps { OnOk result (KeepsRegistered pair.old pair.new) }
    ensures kept { IsWorld pair.new }
{
    held_is_what_was_sent::<Whole>();
    let next = pair.resume_next()?;
    let count = match &next {
        OrAborted::Answer(resumed) => resumed.frames,
        OrAborted::Aborted(_) => 1,
    };
    drop(next);
    Ok(count)
}

// Hands a complete delivery out: the bytes that the receiver holds of it.
fn hand_out(pair: &mut Pair, tag: &DeliveryTag) -> Result<Payload, PairError>
    ensures held { IfOk result (λ payload. payload ≡ bytes_in (held_at pair.old tag.now)) }
    ensures whole { OnOk result (has_flag (λ p. p.whole) pair.old tag.now ≡ true) }
{
    Ok(pair.hand_out::<Whole>(tag)?.into_message().body.0)
}

/// Hands a complete delivery out and settles it at both endpoints: the payload that is registered with its tag. If the
/// settlement is refused the payload is dropped, and the delivery counts as handed out: this walk ends there.
pub fn hand_out_and_settle(pair: &mut Pair, tag: &DeliveryTag) -> Result<Payload, PairError>
    requires { IsWorld pair.old }
    ensures { (sent : List ℕ) → IsRegistered pair.old tag.now sent → IfOk result (λ payload. payload ≡ sent) }
{
    held_is_what_was_sent::<Whole>();
    let payload = hand_out(pair, tag)?;
    match pair.settle(tag) {
        Ok(()) => Ok(payload),
        Err(refused) => {
            drop(payload);
            Err(refused)
        }
    }
}
