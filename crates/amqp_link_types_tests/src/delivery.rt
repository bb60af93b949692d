//! What no clause states of complete deliveries: their text, and that each call succeeds while there is
//! memory.
use crate::assertions::{assert_equal_at, assert_holds_at};
use amqp_link_types::delivery::{Delivery, DeliveryInfo};
use amqp_link_types::types::{DeliveryTag, Message, OutputHandle, ReceiverSettleMode};
use bytes::Bytes;
use std::process::Abort;

fn info(rt: &(impl Abort + AllocGlobal)) -> DeliveryInfo {
    let bytes = vec![in rt.alloc(); 0x01, 0xFF].expect(rt, "memory");
    DeliveryInfo::new(
        3,
        DeliveryTag::from(bytes),
        Some(ReceiverSettleMode::Second),
    )
}

// A message of two bytes, a text and one byte after it.
fn message(rt: &(impl Abort + AllocGlobal)) -> Message<String> {
    Message {
        preamble: Bytes::from_static(&[1, 2]),
        body: String::from_str(rt.alloc(), "hi").expect(rt, "memory"),
        footer: Bytes::from_static(&[3]),
    }
}

fn delivery(rt: &(impl Abort + AllocGlobal)) -> Delivery<String> {
    Delivery::new(OutputHandle(7), info(rt), Some(9), message(rt))
}

// Whether the delivery is shown as this text.
fn is_shown(rt: &(impl Abort + AllocGlobal), delivery: Delivery<String>, words: &str) -> bool {
    let text = format!(in rt.alloc(); "{delivery}").expect(rt, "memory");
    let is_shown = text.as_str() == words;
    drop((delivery, text));
    is_shown
}

#[test]
fn delivery_is_shown_as_text(rt: HostRuntime) {
    let text = "Delivery { delivery_id: 3, delivery_tag: 0x01ff, message.body: hi }";
    assert_holds_at(&rt, is_shown(&rt, delivery(&rt), text), &"a text");
}

// The id, whether the tag is 01 ff, and the mode.
fn seen(info: DeliveryInfo) -> (u32, bool, Option<ReceiverSettleMode>) {
    let is_tag = info.delivery_tag().as_bytes() == [0x01, 0xFF].as_slice();
    let seen = (info.delivery_id(), is_tag, info.rcv_settle_mode());
    drop(info);
    seen
}

fn info_of(rt: &impl Abort, delivery: Delivery<String>) -> DeliveryInfo {
    let info = DeliveryInfo::of(&delivery).expect(rt, "memory");
    drop(delivery);
    info
}

fn copy_of(rt: &impl Abort, info: &DeliveryInfo) -> DeliveryInfo {
    info.clone().expect(rt, "memory")
}

#[test]
fn info_of_a_delivery_is_copied(rt: HostRuntime) {
    let info = info_of(&rt, delivery(&rt));
    let copy = copy_of(&rt, &info);
    let wanted = (3, true, Some(ReceiverSettleMode::Second));
    assert_equal_at(&rt, &seen(info), &wanted, &"of a delivery");
    assert_equal_at(&rt, &seen(copy), &wanted, &"of an info");
}
