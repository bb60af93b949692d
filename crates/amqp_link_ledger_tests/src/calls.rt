//! Calls of a ledger as functions without a contract, for tests that make several; those of any link endpoint stand
//! in `amqp_link_tests_support`.
use crate::ledgers::{Sent, sent_of};
use amqp_link_endpoint::endpoint::LinkExt;
use amqp_link_ledger::ledger::OutcomeLedger;
use amqp_link_sender::{DispositionAnswer, Sending, Waiting};
use amqp_link_tests_support::links::went;
use amqp_link_types::delivery::{Outcomes, UnsettledMessage};
use amqp_link_types::frame::LinkFrame;
use amqp_link_types::types::{
    DeliveryNumber, DeliveryState, DeliveryTag, Detach, DispositionError, LinkFlow, LinkRelayError,
    LinkStateError, MessageFormat, Payload, Target, Transfer,
};
use std::alloc::AllocError;

type Ledger = OutcomeLedger<Target>;

// How many deliveries are pending.
pub(crate) fn pending_in(ledger: &Ledger) -> usize {
    ledger.unsettled().len()
}

pub(crate) fn credit_of(ledger: &Ledger) -> u32 {
    ledger.flow_state().link_credit()
}

pub(crate) fn set_max_frame_size(ledger: &mut Ledger, max_frame_size: u32) {
    ledger.set_max_frame_size(max_frame_size);
}

pub(crate) fn take_flow(
    ledger: &mut Ledger,
    flow: LinkFlow,
) -> Result<Option<LinkFlow>, LinkRelayError> {
    ledger.on_incoming_flow(flow)
}

// Sends a payload of this format with this flag; nothing waits.
pub(crate) fn send_payload(
    ledger: &mut Ledger,
    payload: &Payload,
    message_format: MessageFormat,
    settled: Option<bool>,
) -> Result<Sending, LinkStateError> {
    ledger.send_payload(
        Waiting::Nothing,
        payload,
        message_format,
        settled,
        None,
        false,
    )
}

// Sends a payload under this tag; nothing waits.
pub(crate) fn send_tagged(ledger: &mut Ledger, tag: &[u8], payload: &Payload) -> Sent {
    let sending = ledger.send_payload_with_tag(
        Waiting::Nothing,
        tag,
        payload,
        0,
        None,
        None,
        false,
    );
    let sent = sent_of(&sending);
    drop(sending);
    sent
}

// Whether an entry is registered under this tag.
pub(crate) fn put_back(ledger: &mut Ledger, tag: DeliveryTag, entry: UnsettledMessage) -> bool {
    went(ledger.put_back(tag, entry))
}

pub(crate) fn withdraw(ledger: &mut Ledger, tag: &DeliveryTag) -> Option<UnsettledMessage> {
    ledger.withdraw(tag)
}

// The sender's disposition of one delivery.
pub(crate) fn dispose(
    ledger: &mut Ledger,
    id: DeliveryNumber,
    tag: &DeliveryTag,
    settled: bool,
    state: DeliveryState,
) -> Result<(Vec<LinkFrame>, Outcomes), DispositionError> {
    ledger.dispose(id, tag, settled, state, false)
}

// The sender's dispositions of several deliveries, as released.
pub(crate) fn release_all(
    ledger: &mut Ledger,
    pairs: &[(DeliveryNumber, DeliveryTag)],
    settled: bool,
) -> Result<(Vec<LinkFrame>, Outcomes), DispositionError> {
    ledger.batch_dispose(pairs, settled, DeliveryState::Released, false)
}

// The receiver accepts and settles a delivery.
pub(crate) fn take_acceptance(
    ledger: &mut Ledger,
    tag: &DeliveryTag,
) -> Result<DispositionAnswer, DispositionError> {
    ledger.on_incoming_disposition(true, Some(DeliveryState::Accepted), tag)
}

// The peer detaches.
pub(crate) fn take_detach(
    ledger: &mut Ledger,
    detach: &Detach,
) -> Result<(Option<Detach>, Outcomes), LinkRelayError> {
    ledger.on_incoming_detach(detach, true)
}

// The peer detaches: the outcomes of what is pending, if that closes the link.
pub(crate) fn fail_pending(ledger: &mut Ledger, detach: &Detach) -> Result<Outcomes, AllocError> {
    ledger.fail_pending_unsettled(detach)
}

// Sends the rest of a delivery. The entry that a refused send returns is dropped.
pub(crate) fn send_rest(
    ledger: &mut Ledger,
    transfer: Transfer,
    rest: &Payload,
    tag: DeliveryTag,
    entry: UnsettledMessage,
) -> Result<Vec<LinkFrame>, LinkStateError> {
    match ledger.send_unsettled_transfer(transfer, rest, tag, entry) {
        Ok(frames) => Ok(frames),
        Err((error, entry)) => {
            drop(entry);
            Err(error)
        }
    }
}
