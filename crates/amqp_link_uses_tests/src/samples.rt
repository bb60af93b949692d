//! Links, and what they are made with: each call with a contract stands in a function of its own, since what follows
//! a call is proved with all that its contract says.
use amqp_link::types::{Attach, LinkFlow, OutputHandle, Role, SenderSettleMode, Target, Transfer};
use amqp_link::{DeliveryTag, LinkExt, LinkParts, Payload, ReceiverLink, SenderLink};
use amqp_link_tests_support::calls::{send_attach, take_attach};
use amqp_link_tests_support::links;
use std::process::Abort;

/// The link "l", with frames of at most 64 bytes.
pub fn parts(rt: &(impl Abort + AllocGlobal), mode: SenderSettleMode) -> LinkParts<Target> {
    links::parts(rt.alloc(), mode, 64).expect(rt, "memory")
}

/// The attach of a peer of this role.
pub fn attach_of(rt: &(impl Abort + AllocGlobal), role: Role, mode: SenderSettleMode) -> Attach {
    links::attach_of(rt.alloc(), role, mode).expect(rt, "memory")
}

/// A payload of these bytes.
pub fn payload(rt: &(impl Abort + AllocGlobal), bytes: &[u8]) -> Payload {
    Payload::copy_from_slice(rt.alloc(), bytes).expect(rt, "memory")
}

/// The tag of a count that is less than 256.
pub fn tag_of(rt: &(impl Abort + AllocGlobal), count: u8) -> DeliveryTag {
    links::count_tag(rt.alloc(), count).expect(rt, "memory")
}

/// A transfer of the delivery with id 7 and the tag of the count 5; more is to come, or not.
pub fn transfer(rt: &(impl Abort + AllocGlobal), more: bool) -> Transfer {
    Transfer {
        delivery_id: Some(7),
        delivery_tag: Some(tag_of(rt, 5)),
        more,
        ..Transfer::default()
    }
}

/// One that resumes it, with id 9.
pub fn resuming(rt: &(impl Abort + AllocGlobal), more: bool) -> Transfer {
    Transfer {
        delivery_id: Some(9),
        resume: true,
        ..transfer(rt, more)
    }
}

/// A flow with this credit.
pub fn flow_of(credit: u32) -> LinkFlow {
    LinkFlow {
        link_credit: Some(credit),
        ..LinkFlow::default()
    }
}

/// A sender at output handle 0 that has sent its attach.
pub fn attaching_sender(rt: &(impl Abort + AllocGlobal)) -> SenderLink<Target> {
    let link = SenderLink::new(rt.alloc(), parts(rt, SenderSettleMode::Unsettled));
    let mut link = link.with_output_handle(OutputHandle(0));
    drop(send_attach(&mut link, false));
    link
}

fn take_credit(link: &mut SenderLink<Target>, credit: u32) {
    drop(link.on_incoming_flow(flow_of(credit)));
}

/// An attached sender at output handle 0, with this credit.
pub fn attached_sender(rt: &(impl Abort + AllocGlobal), credit: u32) -> SenderLink<Target> {
    let mut link = attaching_sender(rt);
    let theirs = attach_of(rt, Role::Receiver, SenderSettleMode::Unsettled);
    drop(take_attach(&mut link, theirs));
    take_credit(&mut link, credit);
    link
}

fn grant(link: &mut ReceiverLink<Target>, credit: u32) {
    drop(link.send_flow(Some(credit), None, false, false));
}

/// An attached receiver with one credit.
pub fn attached_receiver(rt: &(impl Abort + AllocGlobal)) -> ReceiverLink<Target> {
    let link = ReceiverLink::new(rt.alloc(), parts(rt, SenderSettleMode::Unsettled));
    let mut link = link.with_output_handle(OutputHandle(3));
    drop(send_attach(&mut link, false));
    let theirs = attach_of(rt, Role::Sender, SenderSettleMode::Unsettled);
    drop(take_attach(&mut link, theirs));
    grant(&mut link, 1);
    link
}
