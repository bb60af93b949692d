//! The scripts as lists of calls: the answers are those of the calls one by one.
use crate::assertions::assert_equal;
use crate::interrupted::{CUT_TWICE, THREE};
use crate::script::{
    Call, Row, Seen, arrived, bytes_are, disposed, first_of, new_inbox, standing, tag_of, tags_of,
    theirs, transfer_of, why_not_taken,
};
use amqp_link_inbox::{DisposeError, Inbox, TakeError};
use amqp_link_inbox_runs::{AnswerOf, Call as Made, run};
use amqp_link_types::types::{
    DeliveryState, FlowError, OutputHandle, Payload, ReceiverAttachError, ReceiverTransferError,
    Target, Whole,
};
use std::alloc::{AllocError, Global};
use std::process::Abort;
use std::slice;

type Answer = AnswerOf<Whole>;

// Both attaches, after the session has given the link a handle.
fn push_attach(
    alloc: Global,
    made: &mut Vec<Made>,
    stated: &[u8],
    incomplete: bool,
) -> Result<(), AllocError> {
    made.push(Made::SetOutputHandle(OutputHandle(0)))?;
    made.push(Made::SendAttach(false))?;
    let attach = theirs(alloc, stated, incomplete)?;
    made.push(Made::OnIncomingAttach(attach))?;
    Ok(())
}

fn made_of(alloc: Global, call: Call) -> Result<Made, AllocError> {
    Ok(match call {
        Call::Attach(_) | Call::AttachInPart(_) | Call::Cut => Made::OnSessionLost,
        Call::Grant(window) => Made::SendFlow {
            credit: Some(window),
            drain: None,
            echo: false,
            include_properties: false,
        },
        Call::Come(frame, bytes, more) => Made::OnIncomingTransfer(
            transfer_of(alloc, frame, more)?,
            Payload::copy_from_slice(alloc, bytes)?,
        ),
        Call::Take(byte, _) => Made::Take(tag_of(alloc, byte)?),
        Call::TakeSettled(_) => Made::TakeSettled,
        Call::Accept(byte) => Made::Dispose {
            tag: tag_of(alloc, byte)?,
            settled: Some(true),
            state: DeliveryState::Accepted,
            batchable: false,
        },
        Call::AcceptAll(bytes) => Made::DisposeAll {
            tags: tags_of(alloc, bytes)?,
            settled: Some(true),
            state: DeliveryState::Accepted,
            batchable: false,
        },
        Call::Keep(byte) => Made::KeepOutcome(tag_of(alloc, byte)?, DeliveryState::Accepted),
    })
}

fn calls_of(alloc: Global, script: &[Row]) -> Result<Vec<Made>, AllocError> {
    let mut made = Vec::new(alloc);
    for (call, _, _, _) in script {
        match call {
            Call::Attach(stated) => push_attach(alloc, &mut made, stated, false)?,
            Call::AttachInPart(stated) => push_attach(alloc, &mut made, stated, true)?,
            call => made.push(made_of(alloc, *call)?)?,
        }
    }
    Ok(made)
}

// The bytes that a call of a script asks for.
fn wanted_bytes(call: Call) -> &'static [u8] {
    match call {
        Call::Take(_, bytes) | Call::TakeSettled(bytes) => bytes,
        _ => &[],
    }
}

fn seen_in_taken(answer: Answer, bytes: &[u8]) -> Seen {
    match answer {
        Answer::Taken(Ok(delivery)) | Answer::SettledTaken(Ok(Some(delivery))) => {
            bytes_are(delivery, bytes)
        }
        Answer::Taken(Err(error)) | Answer::SettledTaken(Err(error)) => why_not_taken(error),
        other => {
            drop(other);
            Seen::Done
        }
    }
}

fn seen_in_disposed(answer: Answer) -> Seen {
    match answer {
        Answer::Disposed(Ok(frame)) => {
            let first = first_of(&frame);
            drop(frame);
            Seen::Sent(first)
        }
        Answer::AllDisposed(Ok(frames)) => {
            let count = frames.len();
            drop(frames);
            Seen::Frames(count)
        }
        Answer::Disposed(Err(error)) | Answer::AllDisposed(Err(error)) => disposed(error),
        other => {
            drop(other);
            Seen::Done
        }
    }
}

// What the answer to a call of a script shows.
fn seen_in(answer: Answer, call: Call) -> Seen {
    match answer {
        Answer::Attached(Ok((_, forgotten))) => {
            let count = forgotten.len();
            drop(forgotten);
            Seen::Forgotten(count)
        }
        Answer::Arrived(answer) => arrived(answer),
        Answer::Taken(_) | Answer::SettledTaken(_) => seen_in_taken(answer, wanted_bytes(call)),
        other => seen_in_disposed(other),
    }
}

// Runs the calls of a script on a new inbox, and compares the answer of each, and what the inbox shows in the end.
fn expect_list(rt: &(impl Abort + AllocGlobal), script: &[Row], last: (u32, usize, usize)) {
    let mut inbox = new_inbox(rt);
    let calls = calls_of(rt.alloc(), script).expect(rt, "memory");
    let answers = match run(rt.alloc(), &mut inbox, calls) {
        Ok(answers) => answers,
        Err(calls) => run(rt.alloc(), &mut inbox, calls).unwrap_or_else(|_| panic!(rt; "memory")),
    };
    let mut answers = answers.into_iter();
    for (call, wanted, _, _) in script {
        if matches!(call, Call::Attach(_) | Call::AttachInPart(_)) {
            drop(answers.next());
            drop(answers.next());
        }
        let seen = match answers.next() {
            Some(answer) => seen_in(answer, *call),
            None => Seen::OutOfMemory,
        };
        assert_equal(rt, &seen, wanted);
    }
    assert_equal(rt, &standing(&inbox), &last);
    drop((answers, inbox));
}

// Whether a call was out of memory.
fn is_out_of_memory(answer: &Answer) -> bool {
    match answer {
        Answer::AttachSent(Err(ReceiverAttachError::OutOfMemory))
        | Answer::Attached(Err(ReceiverAttachError::OutOfMemory))
        | Answer::Taken(Err(TakeError::OutOfMemory))
        | Answer::SettledTaken(Err(TakeError::OutOfMemory))
        | Answer::Disposed(Err(DisposeError::OutOfMemory))
        | Answer::AllDisposed(Err(DisposeError::OutOfMemory))
        | Answer::FlowSent(Err(FlowError::OutOfMemory))
        | Answer::DispositionTaken(Err(_)) => true,
        Answer::Arrived(Err(refused)) => refused.error == ReceiverTransferError::OutOfMemory,
        _ => false,
    }
}

// One of the calls of a row.
fn call_at(alloc: Global, row: &[Row], index: usize) -> Option<Made> {
    let calls = calls_of(alloc, row).or_else(|_| calls_of(alloc, row)).ok()?;
    calls.into_iter().nth(index)
}

// The answer to one of the calls of a row, which is a list by itself.
fn answer_alone(
    rt: &(impl Abort + AllocGlobal),
    inbox: &mut Inbox<Target>,
    row: &[Row],
    index: usize,
) -> Option<Answer> {
    let mut calls = Vec::new(rt.alloc());
    let call = call_at(rt.alloc(), row, index)?;
    if let Err(refused) = calls.push(call) {
        calls.push(refused.value).expect(rt, "memory");
    }
    let answers = match run(rt.alloc(), inbox, calls) {
        Ok(answers) => answers,
        Err(calls) => run(rt.alloc(), inbox, calls).unwrap_or_else(|_| panic!(rt; "memory")),
    };
    answers.into_iter().next()
}

// The answer to one of the calls of a row. If it is out of memory, what the inbox shows has stayed, and it is made again.
fn answer_in_memory(
    rt: &(impl Abort + AllocGlobal),
    inbox: &mut Inbox<Target>,
    row: &[Row],
    index: usize,
) -> Option<Answer> {
    let before = standing(inbox);
    let answer = answer_alone(rt, inbox, row, index)?;
    if !is_out_of_memory(&answer) {
        return Some(answer);
    }
    drop(answer);
    assert_equal(rt, &standing(inbox), &before);
    answer_alone(rt, inbox, row, index)
}

// With one growth refused, whichever it is, a single call of a list answers so, and leaves the inbox as it was: by hand, with
// `rt try --test --fail-alloc N`.
#[test]
fn a_single_call_of_a_list_is_out_of_memory(rt: HostRuntime) {
    let mut inbox = new_inbox(&rt);
    for row in &CUT_TWICE {
        let (call, wanted, credit, stated) = row;
        let attaches = matches!(call, Call::Attach(_) | Call::AttachInPart(_));
        let mut seen = Seen::OutOfMemory;
        for index in 0..(if attaches { 3 } else { 1 }) {
            if let Some(answer) = answer_in_memory(&rt, &mut inbox, slice::from_ref(row), index) {
                seen = seen_in(answer, *call);
            }
        }
        assert_equal(&rt, &seen, wanted);
        let (left, entries, _) = standing(&inbox);
        assert_equal(&rt, &(left, entries), &(*credit, *stated));
    }
    drop(inbox);
}

#[test]
fn a_delivery_is_cut_off_twice(rt: HostRuntime) {
    expect_list(&rt, CUT_TWICE.as_slice(), (0, 1, 0));
}

#[test]
fn three_are_disposed_of(rt: HostRuntime) {
    expect_list(&rt, THREE.as_slice(), (0, 0, 0));
}
