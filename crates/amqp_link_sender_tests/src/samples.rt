//! Samples for tests: a test that is out of memory stops.
use amqp_link_endpoint::endpoint::LinkExt;
use amqp_link_endpoint::link_parts::LinkParts;
use amqp_link_sender::SenderLink;
use amqp_link_tests_support::{links, table};
use amqp_link_types::delivery::UnsettledMessage;
use amqp_link_types::types::{
    Attach, DeliveryTag, OutputHandle, Payload, Role, SenderSettleMode, Target, Text,
};
use std::process::Abort;

pub(crate) fn text(rt: &(impl Abort + AllocGlobal), words: &str) -> Text {
    links::text(rt.alloc(), words).expect(rt, "memory")
}

// The parts of the link "l" in mode mixed, with this frame limit.
pub(crate) fn parts(rt: &(impl Abort + AllocGlobal), max_frame_size: u32) -> LinkParts<Target> {
    links::parts(rt.alloc(), SenderSettleMode::Mixed, max_frame_size).expect(rt, "memory")
}

// The link of these parts with output handle 0, that is not attached.
pub(crate) fn link_of(
    rt: &(impl Abort + AllocGlobal),
    parts: LinkParts<Target>,
) -> SenderLink<Target> {
    SenderLink::new(rt.alloc(), parts).with_output_handle(OutputHandle(0))
}

// The receiver's attach of the link "l", marked as incomplete or not. It states no delivery.
pub(crate) fn coming(rt: &(impl Abort + AllocGlobal), incomplete: bool) -> Attach {
    table::coming(rt.alloc(), Role::Receiver, incomplete).expect(rt, "memory")
}

pub(crate) fn payload_of(rt: &(impl Abort + AllocGlobal), bytes: &[u8]) -> Payload {
    Payload::copy_from_slice(rt.alloc(), bytes).expect(rt, "memory")
}

// The entry of a delivery of these bytes, of which no state is known.
pub(crate) fn entry_of(
    rt: &(impl Abort + AllocGlobal),
    bytes: &[u8],
    message_format: u32,
) -> UnsettledMessage {
    UnsettledMessage::new(payload_of(rt, bytes), None, message_format)
}

// The tag of the delivery that is sent at this count.
pub(crate) fn tag_of(rt: &(impl Abort + AllocGlobal), count: u32) -> DeliveryTag {
    let bytes = count.to_be_bytes();
    DeliveryTag::copied(rt.alloc(), &bytes).expect(rt, "memory")
}

// The count of the delivery with this tag, if the tag has four bytes.
pub(crate) fn count_in(tag: &DeliveryTag) -> Option<u32> {
    match tag.as_bytes() {
        [first, second, third, last] => {
            Some(u32::from_be_bytes([*first, *second, *third, *last]))
        }
        _ => None,
    }
}
