//! The calls, with the peer's frames.
use amqp_link::inbox::Call;
use amqp_link::types::{
    Attach, DeliveryState, DeliveryTag, OutputHandle, Payload, Role, Text, Transfer, UnsettledMap,
};
use program_support::{Refused, attach_of};
use std::alloc::{AllocError, Global};

fn tag(alloc: Global) -> Result<DeliveryTag, AllocError> {
    DeliveryTag::copied(alloc, &[1])
}

// The sender's attach: it states the delivery, or has forgotten it.
fn theirs(alloc: Global, is_stated: bool) -> Result<Attach, Refused> {
    let mut unsettled = UnsettledMap::new(alloc);
    if is_stated {
        drop(unsettled.put(tag(alloc)?, None)?);
    }
    let name = Text::from(String::from_str(alloc, "l")?);
    Ok(attach_of(name, Role::Sender, Some(0), unsettled))
}

// Both attaches, at a handle that the session has given.
fn attach(alloc: Global, calls: &mut Vec<Call>, is_stated: bool) -> Result<(), Refused> {
    calls.push(Call::SetOutputHandle(OutputHandle(0)))?;
    calls.push(Call::SendAttach(false))?;
    calls.push(Call::OnIncomingAttach(theirs(alloc, is_stated)?))?;
    Ok(())
}

// A transfer of the delivery, with this id: its first one, or the first one of its rest.
fn transfer(
    alloc: Global,
    id: u32,
    resume: bool,
    more: bool,
    bytes: &[u8],
) -> Result<Call, AllocError> {
    let payload = Payload::copy_from_slice(alloc, bytes)?;
    let transfer = Transfer {
        delivery_id: Some(id),
        delivery_tag: Some(tag(alloc)?),
        resume,
        more,
        ..Transfer::default()
    };
    Ok(Call::OnIncomingTransfer(transfer, payload))
}

/// The calls in order: the delivery begins, is cut off, goes on, is cut off again, and is completed and taken. Its outcome is
/// kept while the link is not attached, and goes out with the third attach, whose sender has settled it by that.
pub fn calls(alloc: Global) -> Result<Vec<Call>, Refused> {
    let mut calls = Vec::new(alloc);
    attach(alloc, &mut calls, false)?;
    calls.push(Call::SendFlow {
        credit: Some(1),
        drain: None,
        echo: false,
        include_properties: false,
    })?;
    calls.push(transfer(alloc, 0, false, true, &[1, 2])?)?;
    calls.push(Call::OnSessionLost)?;
    attach(alloc, &mut calls, true)?;
    calls.push(transfer(alloc, 0, true, true, &[3])?)?;
    calls.push(Call::OnSessionLost)?;
    attach(alloc, &mut calls, true)?;
    calls.push(transfer(alloc, 0, true, false, &[4])?)?;
    calls.push(Call::Take(tag(alloc)?))?;
    calls.push(Call::OnSessionLost)?;
    calls.push(Call::KeepOutcome(tag(alloc)?, DeliveryState::Accepted))?;
    attach(alloc, &mut calls, false)?;
    Ok(calls)
}
