//! Samples for tests: a test that is out of memory stops.
use amqp_link_endpoint::endpoint::LinkExt;
use amqp_link_endpoint::link_parts::LinkParts;
use amqp_link_receiver::ReceiverLink;
use amqp_link_state::state::LinkFlowStateInner;
use amqp_link_tests_support::links;
use amqp_link_types::types::{
    Attach, DeliveryTag, Fields, OutputHandle, Payload, Role, SenderSettleMode, Symbol, Target,
    Value,
};
use std::process::Abort;

// The parts of the link "l", with a frame limit of 512 bytes.
pub(crate) fn parts(rt: &(impl Abort + AllocGlobal)) -> LinkParts<Target> {
    links::parts(rt.alloc(), SenderSettleMode::Mixed, 512).expect(rt, "memory")
}

// The link of these parts at output handle 7, that is not attached.
pub(crate) fn link_of(
    rt: &(impl Abort + AllocGlobal),
    parts: LinkParts<Target>,
) -> ReceiverLink<Target> {
    ReceiverLink::new(rt.alloc(), parts).with_output_handle(OutputHandle(7))
}

// The link "l" at output handle 7 with this flow state, that is not attached.
pub(crate) fn link_with(
    rt: &(impl Abort + AllocGlobal),
    flow_state: LinkFlowStateInner,
) -> ReceiverLink<Target> {
    let mut parts = parts(rt);
    parts.flow_state = flow_state;
    link_of(rt, parts)
}

// The sender's attach in this mode.
pub(crate) fn attach_of(rt: &(impl Abort + AllocGlobal), mode: SenderSettleMode) -> Attach {
    links::attach_of(rt.alloc(), Role::Sender, mode).expect(rt, "memory")
}

pub(crate) fn payload_of(rt: &(impl Abort + AllocGlobal), bytes: &[u8]) -> Payload {
    Payload::copy_from_slice(rt.alloc(), bytes).expect(rt, "memory")
}

// The tag of one byte.
pub(crate) fn tag_of(rt: &(impl Abort + AllocGlobal), byte: u8) -> DeliveryTag {
    DeliveryTag::copied(rt.alloc(), &[byte]).expect(rt, "memory")
}

// The byte of a tag that has one.
pub(crate) fn byte_of(tag: &DeliveryTag) -> Option<u8> {
    match tag.as_bytes() {
        [byte] => Some(*byte),
        _ => None,
    }
}

pub(crate) fn symbol(rt: &(impl Abort + AllocGlobal), name: &str) -> Symbol {
    Symbol::from(String::from_str(rt.alloc(), name).expect(rt, "memory"))
}

// Fields of these names, each with the number 7.
pub(crate) fn fields(rt: &(impl Abort + AllocGlobal), names: &[&str]) -> Fields {
    let mut fields = Fields::new(rt.alloc());
    for name in names {
        drop(fields.insert(symbol(rt, name), Value::Uint(7)));
    }
    fields
}
