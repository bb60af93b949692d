//! An allocation that is refused, whichever it is, loses nothing: the refused call leaves the fates and the
//! map as they were, and made again it returns what it would have returned. Run by hand with `rt try --test
//! --fail-alloc N`.
use crate::assertions::{assert_equal, assert_equal_at};
use crate::calls::{self, credit_of, pending_in};
use crate::ledgers::{Sent, send, sent_as};
use crate::shown::{Shown, fate_shown};
use amqp_link_endpoint::endpoint::{LinkAttach, LinkDetach, LinkExt};
use amqp_link_ledger::ledger::OutcomeLedger;
use amqp_link_sender::{SenderAttachExchange, SenderLink};
use amqp_link_state::state::LinkState;
use amqp_link_tests_support::calls::{self as support, local_state, set_output_handle};
use amqp_link_tests_support::links::{self, count_tag, went};
use amqp_link_tests_support::table::detach;
use amqp_link_types::delivery::UnsettledMessage;
use amqp_link_types::types::{
    Attach, DeliveryState, DeliveryTag, LinkFlow, LinkStateError, OutputHandle, Payload, Role,
    SenderSettleMode, Target, Transfer, UnsettledMap,
};
use std::alloc::{AllocError, Global};
use std::process::Abort;

type Ledger = OutcomeLedger<Target>;

// What a ledger shows: its first fates, the last bytes of the pending tags, how many are pending, its state and
// its credit.
#[derive(Clone, Copy, Debug, PartialEq, Eq)]
struct Standing {
    fates: [Shown; 5],
    tags: [Option<u8>; 4],
    pending: usize,
    state: LinkState,
    credit: u32,
}

fn tag_at(ledger: &OutcomeLedger<Target>, index: usize) -> Option<u8> {
    let (tag, _) = ledger.unsettled().get_index(index)?;
    tag.as_bytes().last().copied()
}

fn fates_of(ledger: &OutcomeLedger<Target>) -> [Shown; 5] {
    [
        fate_shown(ledger.fate(0)),
        fate_shown(ledger.fate(1)),
        fate_shown(ledger.fate(2)),
        fate_shown(ledger.fate(3)),
        fate_shown(ledger.fate(4)),
    ]
}

fn standing_of(ledger: &OutcomeLedger<Target>) -> Standing {
    let tags = [
        tag_at(ledger, 0),
        tag_at(ledger, 1),
        tag_at(ledger, 2),
        tag_at(ledger, 3),
    ];
    Standing {
        fates: fates_of(ledger),
        tags,
        pending: pending_in(ledger),
        state: local_state(ledger),
        credit: credit_of(ledger),
    }
}

// A call, with the counts that make the tags of its deliveries.
#[derive(Clone, Copy, Debug)]
enum Call {
    SendAttach,
    // The receiver's attach, by which it has accepted the delivery of this tag, if any.
    TakeAttach(Option<u8>),
    Grant(u32),
    Send,
    SendTransfer(u8),
    // Sends under a tag of its own, of as many bytes.
    SendTagged(u8),
    // Sends the rest of a delivery.
    Resume(u8),
    PutBack(u8),
    Withdraw(u8),
    // The receiver accepts a delivery and settles it.
    Accept(u8),
    // The sender states that a delivery is accepted.
    Dispose(u8),
    // The sender settles the deliveries 0 and 1.
    SettleBoth,
    // A detach to and fro, that does not close.
    LoseSession,
    // The receiver's detach, that closes.
    Close,
    // What became of the registrations below this number is released.
    Release(usize),
    // The sender's own flow, with the properties of the link.
    SendFlow,
}

// What a call answers: whether it is done, or how many frames, deliveries or outcomes it makes.
#[derive(Clone, Copy, Debug, PartialEq, Eq)]
enum Answer {
    Done(bool),
    Frames(usize),
    Exchanged(usize, usize),
    Disposed(usize, usize),
    Outcomes(usize),
    Refused,
}

fn payload(alloc: Global) -> Result<Payload, AllocError> {
    Payload::copy_from_slice(alloc, &[7])
}

fn new_entry(alloc: Global) -> Result<UnsettledMessage, AllocError> {
    Ok(UnsettledMessage::new(payload(alloc)?, None, 0))
}

fn transfer_of(alloc: Global, count: u8) -> Result<Transfer, AllocError> {
    Ok(Transfer {
        delivery_tag: Some(count_tag(alloc, count)?),
        ..Transfer::default()
    })
}

// The unsettled map of a receiver that has accepted a delivery, or has none.
fn map_of(
    alloc: Global,
    accepted: Option<u8>,
) -> Result<UnsettledMap<Option<DeliveryState>>, AllocError> {
    let mut map = UnsettledMap::new(alloc);
    let Some(count) = accepted else {
        return Ok(map);
    };
    drop(map.put(count_tag(alloc, count)?, Some(DeliveryState::Accepted))?);
    Ok(map)
}

fn attach_of(alloc: Global, accepted: Option<u8>) -> Result<Attach, AllocError> {
    let map = map_of(alloc, accepted)?;
    let mut attach = links::attach_of(alloc, Role::Receiver, SenderSettleMode::Unsettled)?;
    attach.unsettled = Some(map);
    Ok(attach)
}

fn send_attach(ledger: &mut Ledger) -> Result<Answer, AllocError> {
    if went(support::send_attach(ledger, false)) {
        Ok(Answer::Done(true))
    } else {
        Err(AllocError)
    }
}

fn resumed_in(exchange: &SenderAttachExchange) -> usize {
    match exchange {
        SenderAttachExchange::Complete => 0,
        SenderAttachExchange::IncompleteUnsettled(list) | SenderAttachExchange::Resume(list) => {
            list.len()
        }
    }
}

fn take_attach(
    ledger: &mut Ledger,
    alloc: Global,
    accepted: Option<u8>,
) -> Result<Answer, AllocError> {
    let answer = support::take_attach(ledger, attach_of(alloc, accepted)?);
    let counts = match &answer {
        Ok((exchange, outcomes)) => Ok(Answer::Exchanged(resumed_in(exchange), outcomes.len())),
        Err(_) => Err(AllocError),
    };
    drop(answer);
    counts
}

fn grant(ledger: &mut Ledger, credit: u32) -> Answer {
    let flow = LinkFlow {
        link_credit: Some(credit),
        ..LinkFlow::default()
    };
    Answer::Done(went(calls::take_flow(ledger, flow)))
}

fn sent(sent: Sent) -> Result<Answer, AllocError> {
    match sent {
        Sent::OutOfMemory => Err(AllocError),
        sent => Ok(Answer::Done(sent == Sent::Unsettled)),
    }
}

fn send_transfer(ledger: &mut Ledger, alloc: Global, count: u8) -> Result<Answer, AllocError> {
    let payload = payload(alloc)?;
    let transfer = transfer_of(alloc, count)?;
    let answer = ledger.send_payload_with_transfer(0, transfer, &payload);
    let how = match &answer {
        Ok((settlement, _)) => sent_as(settlement),
        Err(LinkStateError::OutOfMemory) => Sent::OutOfMemory,
        Err(_) => Sent::Other,
    };
    drop(answer);
    sent(how)
}

fn send_tagged(ledger: &mut Ledger, alloc: Global, len: u8) -> Result<Answer, AllocError> {
    let payload = payload(alloc)?;
    let tag = [len; 40];
    let tag = &tag[..usize::from(len).min(40)];
    sent(calls::send_tagged(ledger, tag, &payload))
}

fn send_flow(ledger: &mut Ledger) -> Result<Answer, AllocError> {
    match ledger.send_flow(Some(2), false, true) {
        Ok(frame) => {
            drop(frame);
            Ok(Answer::Done(true))
        }
        Err(_) => Err(AllocError),
    }
}

fn resume(ledger: &mut Ledger, alloc: Global, count: u8) -> Result<Answer, AllocError> {
    let rest = payload(alloc)?;
    let transfer = transfer_of(alloc, count)?;
    let tag = count_tag(alloc, count)?;
    let answer = ledger.send_unsettled_transfer(transfer, &rest, tag, new_entry(alloc)?);
    let frames = match &answer {
        Ok(frames) => Ok(Answer::Frames(frames.len())),
        Err(_) => Err(AllocError),
    };
    drop(answer);
    frames
}

fn put_back(ledger: &mut Ledger, alloc: Global, count: u8) -> Result<Answer, AllocError> {
    let tag = count_tag(alloc, count)?;
    if calls::put_back(ledger, tag, new_entry(alloc)?) {
        Ok(Answer::Done(true))
    } else {
        Err(AllocError)
    }
}

fn accept(ledger: &mut Ledger, tag: &DeliveryTag) -> Result<Answer, AllocError> {
    let answer = calls::take_acceptance(ledger, tag);
    let ended = match &answer {
        Ok(answer) => Ok(Answer::Done(answer.outcome.is_some())),
        Err(_) => Err(AllocError),
    };
    drop(answer);
    ended
}

fn dispose(ledger: &mut Ledger, tag: &DeliveryTag) -> Result<Answer, AllocError> {
    let answer = calls::dispose(ledger, 6, tag, false, DeliveryState::Accepted);
    let counts = match &answer {
        Ok((frames, outcomes)) => Ok(Answer::Disposed(frames.len(), outcomes.len())),
        Err(_) => Err(AllocError),
    };
    drop(answer);
    counts
}

fn settle_both(ledger: &mut Ledger, alloc: Global) -> Result<Answer, AllocError> {
    let mut pairs = Vec::with_capacity(alloc, 2)?;
    pairs.push((7, count_tag(alloc, 1)?))?;
    pairs.push((6, count_tag(alloc, 0)?))?;
    let answer = calls::release_all(ledger, &pairs, true);
    let counts = match &answer {
        Ok((frames, outcomes)) => Ok(Answer::Disposed(frames.len(), outcomes.len())),
        Err(_) => Err(AllocError),
    };
    drop(answer);
    counts
}

fn lose_session(ledger: &mut Ledger) -> Answer {
    support::lose_session(ledger);
    set_output_handle(ledger, Some(OutputHandle(0)));
    Answer::Done(local_state(ledger) == LinkState::Detached)
}

fn close(ledger: &mut Ledger) -> Result<Answer, AllocError> {
    let closing = detach(true);
    let answer = ledger.on_incoming_detach(&closing, true);
    drop(closing);
    let count = match &answer {
        Ok((_, outcomes)) => Ok(Answer::Outcomes(outcomes.len())),
        Err(_) => Err(AllocError),
    };
    drop(answer);
    count
}

fn make(ledger: &mut Ledger, alloc: Global, call: Call) -> Result<Answer, AllocError> {
    match call {
        Call::SendAttach => send_attach(ledger),
        Call::TakeAttach(accepted) => take_attach(ledger, alloc, accepted),
        Call::Grant(credit) => Ok(grant(ledger, credit)),
        Call::Send => sent(send(ledger, &payload(alloc)?)),
        Call::SendTransfer(count) => send_transfer(ledger, alloc, count),
        Call::Resume(count) => resume(ledger, alloc, count),
        Call::PutBack(count) => put_back(ledger, alloc, count),
        Call::Withdraw(count) => {
            let entry = calls::withdraw(ledger, &count_tag(alloc, count)?);
            Ok(Answer::Done(entry.is_some()))
        }
        Call::Accept(count) => accept(ledger, &count_tag(alloc, count)?),
        Call::Dispose(count) => dispose(ledger, &count_tag(alloc, count)?),
        Call::SettleBoth => settle_both(ledger, alloc),
        Call::LoseSession => Ok(lose_session(ledger)),
        Call::Close => close(ledger),
        Call::SendTagged(len) => send_tagged(ledger, alloc, len),
        Call::Release(before) => Ok(Answer::Done(ledger.release(before).is_ok())),
        Call::SendFlow => send_flow(ledger),
    }
}

// Makes a call; one that is out of memory leaves what the ledger shows, and is made again.
fn again(rt: &(impl Abort + AllocGlobal), ledger: &mut Ledger, call: Call) -> Answer {
    let before = standing_of(ledger);
    if let Ok(answer) = make(ledger, rt.alloc(), call) {
        return answer;
    }
    assert_equal_at(rt, &standing_of(ledger), &before, &call);
    make(ledger, rt.alloc(), call).unwrap_or(Answer::Refused)
}

fn expect_answers(rt: &(impl Abort + AllocGlobal), ledger: &mut Ledger, calls: &[(Call, Answer)]) {
    for (call, wanted) in calls {
        let answer = again(rt, ledger, *call);
        assert_equal_at(rt, &answer, wanted, &call);
    }
}

// The link "l" with output handle 0, that is not attached.
fn new_link(alloc: Global) -> Result<SenderLink<Target>, AllocError> {
    let parts = links::parts(alloc, SenderSettleMode::Unsettled, 512)?;
    Ok(SenderLink::new(alloc, parts).with_output_handle(OutputHandle(0)))
}

// Whether the entry is put back in a link.
fn put_in(link: &mut SenderLink<Target>, tag: DeliveryTag, entry: UnsettledMessage) -> bool {
    went(link.put_back(tag, entry))
}

// The same with the delivery of tag 5.
fn link_of_one(alloc: Global) -> Result<SenderLink<Target>, AllocError> {
    let tag = count_tag(alloc, 5)?;
    let entry = new_entry(alloc)?;
    let mut link = new_link(alloc)?;
    if put_in(&mut link, tag, entry) {
        Ok(link)
    } else {
        Err(AllocError)
    }
}

// A ledger of a link. If it is out of memory, the link is returned with so many deliveries.
fn ledger_round(
    rt: &(impl Abort + AllocGlobal),
    link: SenderLink<Target>,
    pending: usize,
) -> Ledger {
    let link = match OutcomeLedger::new(rt.alloc(), link) {
        Ok(ledger) => return ledger,
        Err(link) => link,
    };
    assert_equal_at(
        rt,
        &link.unsettled().len(),
        &pending,
        &"the link comes back",
    );
    OutcomeLedger::new(rt.alloc(), link)
        .ok()
        .expect(rt, "memory")
}

// Three are sent, one of which is withdrawn, one accepted, and one left to an exchange.
const THREE_SENT: [(Call, Answer); 12] = [
    (Call::SendAttach, Answer::Done(true)),
    (Call::TakeAttach(None), Answer::Exchanged(0, 0)),
    (Call::Grant(3), Answer::Done(true)),
    (Call::Send, Answer::Done(true)),
    (Call::Send, Answer::Done(true)),
    (Call::Send, Answer::Done(true)),
    (Call::Withdraw(1), Answer::Done(true)),
    (Call::Accept(0), Answer::Done(true)),
    (Call::LoseSession, Answer::Done(true)),
    (Call::SendAttach, Answer::Done(true)),
    (Call::TakeAttach(None), Answer::Exchanged(1, 0)),
    (Call::PutBack(2), Answer::Done(true)),
];

// Under tags of its own, one of which is too long to stand in the tag itself; what became of the first is released, and
// its number is not given again.
const RELEASED: [(Call, Answer); 11] = [
    (Call::SendAttach, Answer::Done(true)),
    (Call::TakeAttach(None), Answer::Exchanged(0, 0)),
    (Call::SendFlow, Answer::Done(true)),
    (Call::Grant(3), Answer::Done(true)),
    (Call::Send, Answer::Done(true)),
    (Call::SendTagged(2), Answer::Done(true)),
    (Call::Release(1), Answer::Done(false)),
    (Call::Accept(0), Answer::Done(true)),
    (Call::Release(1), Answer::Done(true)),
    (Call::SendTagged(40), Answer::Done(true)),
    (Call::SendTagged(3), Answer::Done(false)),
];

// The same of the calls that release.
#[test]
fn refused_growth_releases_nothing(rt: HostRuntime) {
    let link = new_link(rt.alloc()).or_else(|_| new_link(rt.alloc()));
    let mut ledger = ledger_round(&rt, link.expect(&rt, "memory"), 0);
    expect_answers(&rt, &mut ledger, RELEASED.as_slice());
    let left = standing_of(&ledger);
    drop(ledger);
    let fates = [
        Shown::Forgotten,
        Shown::Pending,
        Shown::Pending,
        Shown::Nothing,
        Shown::Nothing,
    ];
    assert_equal(&rt, &left.fates, &fates);
    assert_equal(&rt, &left.tags, &[Some(2), Some(40), None, None]);
}

// With one growth refused, whichever it is, the fates are those of a run where none is.
#[test]
fn refused_growth_loses_nothing(rt: HostRuntime) {
    let link = new_link(rt.alloc()).or_else(|_| new_link(rt.alloc()));
    let mut ledger = ledger_round(&rt, link.expect(&rt, "memory"), 0);
    expect_answers(&rt, &mut ledger, THREE_SENT.as_slice());
    let left = standing_of(&ledger);
    drop(ledger);
    let wanted = Standing {
        fates: [
            Shown::Accepted,
            Shown::Withdrawn,
            Shown::HandedOut,
            Shown::Pending,
            Shown::Nothing,
        ],
        tags: [Some(2), None, None, None],
        pending: 1,
        state: LinkState::Attached,
        credit: 0,
    };
    assert_equal(&rt, &left, &wanted);
}

// The delivery that the link had is accepted by the receiver's attach; of three others two are settled in a batch,
// and the last ends with the link.
const RESOLVED: [(Call, Answer); 8] = [
    (Call::SendAttach, Answer::Done(true)),
    (Call::TakeAttach(Some(5)), Answer::Exchanged(0, 1)),
    (Call::SendTransfer(0), Answer::Done(true)),
    (Call::Resume(1), Answer::Frames(1)),
    (Call::Dispose(0), Answer::Disposed(1, 0)),
    (Call::SettleBoth, Answer::Disposed(1, 2)),
    (Call::PutBack(8), Answer::Done(true)),
    (Call::Close, Answer::Outcomes(1)),
];

// The same of the calls that resolve.
#[test]
fn refused_growth_resolves_nothing(rt: HostRuntime) {
    let link = link_of_one(rt.alloc()).or_else(|_| link_of_one(rt.alloc()));
    let mut ledger = ledger_round(&rt, link.expect(&rt, "memory"), 1);
    expect_answers(&rt, &mut ledger, RESOLVED.as_slice());
    let left = standing_of(&ledger);
    drop(ledger);
    let fates = [
        Shown::Accepted,
        Shown::Accepted,
        Shown::NoState,
        Shown::Closed,
        Shown::Nothing,
    ];
    assert_equal(&rt, &left.fates, &fates);
    assert_equal(&rt, &left.pending, &0);
}
