//! Worked values of complete deliveries.
ghost use Rattle.std.specs.Prelude.{[], Ok, Err};

use crate::arriving::{Kept, kept};
use crate::assertions::{assert_equal, assert_equal_at};
use crate::samples::{byte_of, link_with, payload_of, tag_of};
use crate::table::lead_to;
use amqp_link_endpoint::endpoint::LinkExt;
use amqp_link_payloads::Message;
use amqp_link_receiver::ReceiverLink;
use amqp_link_state::state::{LinkFlowStateInner, LinkState};
use amqp_link_tests_support::calls::set_output_handle;
use amqp_link_tests_support::table::STATES;
use amqp_link_types::delivery::Delivery;
use amqp_link_types::types::{
    DataBody, DecodeError, FromBody, MessageDecodeError, Payload, ReceiverTransferError, Target,
    Transfer, Whole,
};
use std::alloc::Global;
use std::process::Abort;

// The link "l" at output handle 7 in this state, at the last count and with this credit.
fn link_in(
    rt: &(impl Abort + AllocGlobal),
    state: LinkState,
    link_credit: u32,
) -> ReceiverLink<Target> {
    let mut link = link_with(
        rt,
        LinkFlowStateInner {
            delivery_count: u32::MAX,
            link_credit,
            ..LinkFlowStateInner::default()
        },
    );
    lead_to(rt, &mut link, state);
    link
}

// An unsettled transfer with this id, tag 01 and format 5.
fn transfer_of(rt: &(impl Abort + AllocGlobal), delivery_id: Option<u32>) -> Transfer {
    Transfer {
        delivery_id,
        delivery_tag: Some(tag_of(rt, 1)),
        message_format: Some(5),
        ..Transfer::default()
    }
}

// What is left of a link: its count, its credit, how many deliveries it keeps, and the entry of that with tag 01.
type Left = (u32, u32, usize, Kept);

fn left_of(rt: &(impl Abort + AllocGlobal), link: &ReceiverLink<Target>) -> Left {
    let entry = kept(rt, link, 1);
    let state = link.flow_state();
    (
        state.delivery_count(),
        state.link_credit(),
        link.unsettled().len(),
        entry,
    )
}

// A transfer ends a delivery whose payload ends at this place.
fn completed<B: FromBody>(
    link: &mut ReceiverLink<Target>,
    transfer: &Transfer,
    pieces: &[Payload],
    section_offset: u64,
) -> Result<Delivery<B>, ReceiverTransferError> {
    link.on_complete_transfer(transfer, pieces, 0, section_offset)
}

// Handle, id, tag, and format of a delivery.
type Given = (u32, u32, Option<u8>, Option<u32>);

// What is given, if anything is.
fn given_by(answer: &Result<Delivery<Whole>, ReceiverTransferError>) -> Option<Given> {
    match answer {
        Ok(delivery) => Some((
            delivery.handle().0,
            delivery.delivery_id(),
            byte_of(delivery.delivery_tag()),
            delivery.message_format(),
        )),
        Err(_) => None,
    }
}

fn has_bytes(answer: &Result<Delivery<Whole>, ReceiverTransferError>, wanted: &[u8]) -> bool {
    match answer {
        Ok(delivery) => delivery.body().0.as_slice() == wanted,
        Err(_) => false,
    }
}

// A delivery of two pieces is complete: what is given, and whether with their bytes.
fn given_on(
    rt: &(impl Abort + AllocGlobal),
    link: &mut ReceiverLink<Target>,
) -> (Option<Given>, bool) {
    let transfer = transfer_of(rt, Some(3));
    let pieces = [payload_of(rt, b"h"), payload_of(rt, b"i")];
    let answer = completed(link, &transfer, &pieces, 2);
    let given = (given_by(&answer), has_bytes(&answer, b"hi"));
    drop((answer, transfer));
    drop(pieces);
    given
}

#[test]
fn unsettled_delivery_is_given_and_kept(rt: HostRuntime) {
    let mut link = link_in(&rt, LinkState::Attached, 1);
    let given = given_on(&rt, &mut link);
    let left = left_of(&rt, &link);
    drop(link);
    assert_equal(&rt, &given, &(Some((7, 3, Some(1), Some(5))), true));
    assert_equal(&rt, &left, &(0, 0, 1, Some(Some((0, 2)))));
}

// What a call returns: a delivery, or why there is none.
#[derive(Clone, Copy, Debug, PartialEq, Eq)]
enum Shown {
    Given,
    IllegalState,
    TransferLimitExceeded,
    DeliveryIdIsNone,
    // The id and the tag of a delivery that was not read, and why.
    Unread(u32, Option<u8>, DecodeError),
    OutOfMemory,
    Other,
}

fn unread_of(refused: &MessageDecodeError) -> Shown {
    Shown::Unread(
        refused.info.delivery_id(),
        byte_of(refused.info.delivery_tag()),
        refused.source,
    )
}

fn shown_by<B: FromBody>(answer: &Result<Delivery<B>, ReceiverTransferError>) -> Shown {
    match answer {
        Ok(_) => Shown::Given,
        Err(ReceiverTransferError::IllegalState) => Shown::IllegalState,
        Err(ReceiverTransferError::TransferLimitExceeded) => Shown::TransferLimitExceeded,
        Err(ReceiverTransferError::DeliveryIdIsNone) => Shown::DeliveryIdIsNone,
        Err(ReceiverTransferError::MessageDecode(refused)) => unread_of(refused),
        Err(ReceiverTransferError::OutOfMemory) => Shown::OutOfMemory,
        Err(_) => Shown::Other,
    }
}

// A transfer with this id ends a delivery of the byte 41: what is returned, and what is left.
fn shown_on<B: FromBody>(
    rt: &(impl Abort + AllocGlobal),
    link: &mut ReceiverLink<Target>,
    delivery_id: Option<u32>,
) -> (Shown, Left) {
    let transfer = transfer_of(rt, delivery_id);
    let piece = [payload_of(rt, &[0x41])];
    let answer = completed::<B>(link, &transfer, &piece, 1);
    let shown = shown_by(&answer);
    drop((answer, transfer));
    drop(piece);
    (shown, left_of(rt, link))
}

// Delivery 3 is complete on a link in this state, with this credit.
fn shown_in<B: FromBody>(
    rt: &(impl Abort + AllocGlobal),
    state: LinkState,
    link_credit: u32,
) -> (Shown, Left) {
    let mut link = link_in(rt, state, link_credit);
    let shown = shown_on::<B>(rt, &mut link, Some(3));
    drop(link);
    shown
}

// The byte is no section of data.
#[test]
fn refused_body_costs_the_credit_and_is_kept(rt: HostRuntime) {
    let shown = shown_in::<DataBody>(&rt, LinkState::Attached, 1);
    let unread = Shown::Unread(3, Some(1), DecodeError::NotOneDataSection);
    assert_equal(&rt, &shown, &(unread, (0, 0, 1, Some(Some((0, 1))))));
}

// A transfer without id ends a delivery, twice, where there is one credit.
#[test]
fn wrong_transfers_cost_the_credit(rt: HostRuntime) {
    let mut link = link_in(&rt, LinkState::Attached, 1);
    let first = shown_on::<Whole>(&rt, &mut link, None);
    let again = shown_on::<Whole>(&rt, &mut link, None);
    drop(link);
    let spent = (0, 0, 0, None);
    assert_equal(&rt, &first, &(Shown::DeliveryIdIsNone, spent));
    assert_equal(&rt, &again, &(Shown::TransferLimitExceeded, spent));
}

// A delivery cannot be given without the handle by which it is disposed of; it is kept, and costs the credit.
#[test]
fn without_output_handle_the_delivery_is_kept(rt: HostRuntime) {
    let mut link = link_in(&rt, LinkState::Attached, 2);
    set_output_handle(&mut link, None);
    let (shown, left) = shown_on::<Whole>(&rt, &mut link, Some(3));
    drop(link);
    let kept = (0, 1, 1, Some(Some((0, 1))));
    assert_equal(&rt, &(shown, left), &(Shown::IllegalState, kept));
}

// Once both attaches were exchanged, a delivery takes one of two credits.
#[test]
fn link_that_is_not_attached_takes_nothing(rt: HostRuntime) {
    for state in STATES.iter() {
        let (shown, left) = shown_in::<Whole>(&rt, *state, 2);
        let wanted = match state {
            LinkState::Attached | LinkState::IncompleteAttachExchanged => (Shown::Given, 0, 1),
            _ => (Shown::IllegalState, u32::MAX, 2),
        };
        assert_equal_at(&rt, &(shown, left.0, left.1), &wanted, state);
    }
}

// A body that refuses all bytes.
#[derive(Debug, Drop)]
struct Refusing(u8);

impl FromBody for Refusing {
    ghost use Rattle.amqp_link_payloads.specs.declared.error.DecodeError.TheVariants.{Refused};

    ghost decoded = { λ bytes. Err Refused };

    ghost memory_aside = { λ bytes e. Prim.cc };

    fn decode_from_pieces(
        _alloc: Global,
        _pieces: &[Payload],
    ) -> Result<Message<Refusing>, DecodeError> {
        Err(DecodeError::Refused)
    }
}

// A body that is always out of memory.
#[derive(Debug, Drop)]
struct Starved(u8);

impl FromBody for Starved {
    ghost decoded = { λ bytes.
        Ok (record { preamble = []; body = record { 0 = 0 }; footer = [] }) };

    ghost memory_aside = { λ bytes e. Prim.cc };

    fn decode_from_pieces(
        _alloc: Global,
        _pieces: &[Payload],
    ) -> Result<Message<Starved>, DecodeError> {
        Err(DecodeError::OutOfMemory)
    }
}

// One that refuses costs the credit, and one that is out of memory changes nothing.
#[test]
fn body_of_a_user_refuses_or_is_out_of_memory(rt: HostRuntime) {
    let refused = shown_in::<Refusing>(&rt, LinkState::Attached, 1);
    let unread = Shown::Unread(3, Some(1), DecodeError::Refused);
    assert_equal(&rt, &refused, &(unread, (0, 0, 1, Some(Some((0, 1))))));
    let starved = shown_in::<Starved>(&rt, LinkState::Attached, 1);
    assert_equal(&rt, &starved, &(Shown::OutOfMemory, (u32::MAX, 1, 0, None)));
}
