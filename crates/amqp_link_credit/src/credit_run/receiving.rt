//! Transfers arrive at the receiver of a credit run (2.6.12, 2.7.5).
ghost use Rattle.std.specs.Prelude.{◌≡◌, ℕ, None, Some, Ok, IfOk, OnOk, OnErr};
ghost use Rattle.amqp_link_payloads.specs.Position.{position};
ghost use Rattle.amqp_link_payloads.specs.declared.message.Message.{Message as TheMessage};
ghost use Rattle.amqp_link_payloads.specs.declared.message.whole.Whole.{Whole as TheWhole};
ghost use Rattle.amqp_link_core.specs.Held.{held_bytes};
ghost use Rattle.amqp_link_receiver.specs.Completing.{completion_refusal, entered};
ghost use Rattle.amqp_link_worlds.specs.Receiving.{CanReceive};
ghost use Rattle.amqp_link_worlds.specs.Steps.{held_after, zero_output};
ghost use Rattle.amqp_link_worlds.specs.Wires.{does_begin};
ghost use Rattle.amqp_link_credit.specs.CreditCalls.{complete_delivery};

use amqp_link_core::incomplete_transfer::IncompleteTransfer;
use amqp_link_pair::receiving::{begin, go_on};
use amqp_link_payloads::message::whole::Whole;
use amqp_link_receiver::receiver_link::ReceiverLink;
use amqp_link_types::delivery::Delivery;
use amqp_link_types::frame::LinkFrame;
use amqp_link_types::types::{DeliveryNumber, ReceiverTransferError, Target};
use std::alloc::{AllocError, Global};

// The error of a complete delivery, which is refused only if it is out of memory.
fn out_of_memory(error: ReceiverTransferError) -> AllocError
    requires { error ≡ ReceiverTransferError.OutOfMemory }
{
    drop(error);
    AllocError
}

// Sets what is held.
pub(crate) fn set(place: &mut Option<IncompleteTransfer>, held: Option<IncompleteTransfer>)
    ensures { place.new ≡ held }
{
    drop(std::mem::replace(place, held));
}

// A transfer is added to what is held, by whether it begins a delivery.
pub(crate) fn hold(
    held: &mut Option<IncompleteTransfer>,
    begins_delivery: bool,
    alloc: Global,
    frame: &LinkFrame,
    id: DeliveryNumber,
) -> Result<(), AllocError>
    requires can { CanReceive held.old id frame.now }
    requires turn { does_begin frame.now ≡ begins_delivery }
    ensures held { OnOk result (held.new ≡ Some (held_after held.old id frame.now)) }
    ensures left { OnErr result (held.new ≡ held.old) }
{
    match held {
        Some(held) => go_on(held, begins_delivery, frame, id),
        None => {
            *held = Some(begin(alloc, frame, id)?);
            Ok(())
        }
    }
}

// What would be held with one more transfer. What is held stays as it is, since the receiver may be out of memory
// for the delivery.
pub(crate) fn with_last(
    held: &Option<IncompleteTransfer>,
    begins_delivery: bool,
    alloc: Global,
    frame: &LinkFrame,
    id: DeliveryNumber,
) -> Result<IncompleteTransfer, AllocError>
    requires can { CanReceive held.now id frame.now }
    requires turn { does_begin frame.now ≡ begins_delivery }
    ensures { IfOk result (λ whole. whole ≡ held_after held.now id frame.now) }
{
    match held {
        Some(held) => {
            let mut whole = held.clone()?;
            match go_on(&mut whole, begins_delivery, frame, id) {
                Ok(()) => Ok(whole),
                Err(refused) => {
                    drop(whole);
                    Err(refused)
                }
            }
        }
        None => begin(alloc, frame, id),
    }
}

// The receiver hands out a delivery of which all is held.
pub(crate) fn hand_out(
    receiver: &mut ReceiverLink<Target>,
    whole: IncompleteTransfer,
) -> Result<Delivery<Whole>, AllocError>
    requires handle { receiver.old.output_handle ≡ Some zero_output }
    requires taken { (number offset : ℕ) (message : TheMessage TheWhole)
        → completion_refusal receiver.old whole.performative number offset (Ok message) ≡ None }
    ensures given { IfOk result (λ delivery. delivery ≡ complete_delivery whole) }
    ensures after { OnOk result (receiver.new ≡ entered whole.performative
        (position (held_bytes whole)).0 (position (held_bytes whole)).1 receiver.old) }
    ensures left { OnErr result (receiver.new ≡ receiver.old) }
{
    let (number, offset) = whole.position();
    let answer = receiver.on_complete_transfer(
        whole.performative(),
        whole.pieces(),
        number,
        offset,
    );
    drop(whole);
    match answer {
        Ok(delivery) => Ok(delivery),
        Err(error) => Err(out_of_memory(error)),
    }
}
