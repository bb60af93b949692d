//! What no clause states of the types: their defaults, the lengths of a first transfer, and that each call of
//! a map of unsettled deliveries succeeds while there is memory.
use crate::assertions::{assert_equal, assert_equal_at, assert_holds_at};
use crate::samples::{tag, unsettled};
use amqp_link_types::delivery::UnsettledMessage;
use amqp_link_types::types::{
    DeliveryState, DeliveryTag, Handle, LinkFlow, ReceiverSettleMode, SenderSettleMode, Source,
    Target, TerminusDurability, TerminusExpiryPolicy, Transfer, UnsettledMap,
};
use amqp_link_values::length::EncodedLen;
use bytes::Bytes;
use std::process::Abort;

fn is_default<T: Default + PartialEq + Drop>(value: T) -> bool {
    let default = T::default();
    let is_default = default == value;
    drop((default, value));
    is_default
}

fn empty_flow() -> LinkFlow {
    LinkFlow {
        handle: Handle(0),
        delivery_count: None,
        link_credit: None,
        available: None,
        drain: false,
        echo: false,
        properties: None,
    }
}

fn plain_source() -> Source {
    Source {
        address: None,
        durable: TerminusDurability::None,
        expiry_policy: TerminusExpiryPolicy::SessionEnd,
        timeout: 0,
        dynamic: false,
        dynamic_node_properties: None,
        distribution_mode: None,
        filter: None,
        default_outcome: None,
        outcomes: None,
        capabilities: None,
    }
}

fn plain_target() -> Target {
    Target {
        address: None,
        durable: TerminusDurability::None,
        expiry_policy: TerminusExpiryPolicy::SessionEnd,
        timeout: 0,
        dynamic: false,
        dynamic_node_properties: None,
        capabilities: None,
    }
}

#[test]
fn defaults_are_those_of_the_standard(rt: HostRuntime) {
    let modes = (SenderSettleMode::default(), ReceiverSettleMode::default());
    let mixed_first = (SenderSettleMode::Mixed, ReceiverSettleMode::First);
    assert_equal(&rt, &modes, &mixed_first);
    assert_holds_at(&rt, is_default(empty_flow()), &"a flow");
    assert_holds_at(&rt, is_default(plain_source()), &"a source");
    assert_holds_at(&rt, is_default(plain_target()), &"a target");
}

// The length of the first transfer of a delivery, with the longest number and a tag of 4 bytes.
fn first_length(rt: &(impl Abort + AllocGlobal), resume: bool) -> Option<u64> {
    let bytes = vec![in rt.alloc(); 0u8; 4].expect(rt, "memory");
    let transfer = Transfer {
        delivery_id: Some(4294967295),
        delivery_tag: Some(DeliveryTag::from(bytes)),
        message_format: Some(0),
        settled: Some(false),
        more: true,
        resume,
        ..Transfer::default()
    };
    let length = transfer.encoded_len();
    drop(transfer);
    length
}

#[test]
fn a_first_transfer_has_21_bytes(rt: HostRuntime) {
    assert_equal_at(
        &rt,
        &first_length(&rt, false),
        &Some(21),
        &"6; 1, 5, 6, 1, 1, 1",
    );
    assert_equal_at(
        &rt,
        &first_length(&rt, true),
        &Some(24),
        &"two nulls, a flag",
    );
}

fn put(
    rt: &(impl Abort + AllocGlobal),
    map: &mut UnsettledMap<u8>,
    byte: u8,
    value: u8,
) -> Option<u8> {
    map.put(tag(rt, byte), value).expect(rt, "memory")
}

// The byte of the tag at a place, and what is kept there.
fn pair(map: &UnsettledMap<u8>, index: usize) -> Option<(u8, u8)> {
    let (tag, value) = map.pair_at(index)?;
    Some((*tag.as_bytes().first()?, *value))
}

#[test]
fn puts_keep_the_order(rt: HostRuntime) {
    let mut map = UnsettledMap::new(rt.alloc());
    let older = [
        put(&rt, &mut map, 1, 10),
        put(&rt, &mut map, 2, 20),
        put(&rt, &mut map, 1, 15),
    ];
    let pairs = [pair(&map, 0), pair(&map, 1), pair(&map, 2)];
    drop(map);
    assert_equal(&rt, &older, &[None, None, Some(10)]);
    assert_equal(&rt, &pairs, &[Some((1, 15)), Some((2, 20)), None]);
}

// Keeps a delivery of which this state is known.
fn keep(
    rt: &(impl Abort + AllocGlobal),
    map: &mut UnsettledMap<UnsettledMessage>,
    byte: u8,
    state: Option<DeliveryState>,
) {
    let message = UnsettledMessage::new(Bytes::new(), state, 0);
    drop(map.put(tag(rt, byte), message).expect(rt, "memory"));
}

// The states of two deliveries, of which the second is known to be accepted.
fn states_of_two(rt: &(impl Abort + AllocGlobal)) -> UnsettledMap<Option<DeliveryState>> {
    let mut map = UnsettledMap::new(rt.alloc());
    keep(rt, &mut map, 1, None);
    keep(rt, &mut map, 2, Some(DeliveryState::Accepted));
    let states = map.states().expect(rt, "memory");
    drop(map);
    states
}

#[test]
fn states_stand_under_their_tags(rt: HostRuntime) {
    let (states, wanted) = (states_of_two(&rt), unsettled(&rt));
    let is_wanted = states == wanted;
    drop((states, wanted));
    assert_holds_at(&rt, is_wanted, &"none of the first, accepted of the second");
}
