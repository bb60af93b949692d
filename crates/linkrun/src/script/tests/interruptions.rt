//! Runs with interruptions: what becomes of a delivery that is cut, resumed, handed out and settled.
use super::expect_output;
use crate::answer::Answer;
use amqp_link::errors::LinkStateError;
use amqp_link::{DeliveryState, Fate, Payload};
use std::process::Abort;

const SENT_AGAIN: &[(&str, &str, &str)] = &[
    (
        "put back, then sent again",
        "attach 30\ngrant 1\nsend 0102030405060708090a0b0c\ncut\nattach 37\nattach 38\ncut\n\
            send 00\nputback\ncut\nattach 38\nresume\narrive 9\nhandout 00000000\n\
            handout 00000000\nsettle 00000000\nfate 0\nfate 1\nfate 2\nfate 3\n\
            show 00000000\n",
        "attached 0\ncredit 1\nsent 00000000 3\ncut\nrefused LimitTooSmall\nattached 1\n\
            refused StillHandedOut\nrefused ResumeFirst\nback 00000000\ncut\nattached 1\n\
            resent 00000000 1\nwhole 00000000 0 12\n\
            delivery 00000000 0102030405060708090a0b0c\nrefused AlreadyHandedOut\n\
            settled 00000000\nhanded-out\nhanded-out\nresolved accepted\nunknown\nunknown\n",
    ),
    (
        "sent again at once",
        "attach 30\ngrant 1\nsend 0102030405060708090a0b0c\ncut\nattach 37\nattach 38\ncut\n\
            send 00\nresume\nfate 0\nfate 1\n",
        "attached 0\ncredit 1\nsent 00000000 3\ncut\nrefused LimitTooSmall\nattached 1\n\
            refused StillHandedOut\nrefused ResumeFirst\nresent 00000000 1\nhanded-out\n\
            pending\n",
    ),
];

#[test]
fn an_interrupted_delivery_is_sent_again(rt: HostRuntime) {
    expect_output(&rt, rt.alloc(), SENT_AGAIN);
}

const RESUMED: &[(&str, &str, &str)] = &[
    (
        "cut once, resumed, handed out and settled",
        "attach 30\ngrant 1\nsend 0102030405060708090a0b0c\narrive 7\ncut\nattach 45\n\
            attach 46\nresume\narrive 8\nshow 00000000\nhandout 00000000\n\
            settle 00000000\nfate 0\nfate 1\nshow 00000000\n",
        "attached 0\ncredit 1\nsent 00000000 3\nheld 00000000 0 5\ncut\n\
            refused LimitTooSmall\nattached 1\nresumed 00000000 1\nwhole 00000000 0 12\n\
            joined 0102030405060708090a0b0c\ndelivery 00000000 0102030405060708090a0b0c\n\
            settled 00000000\nhanded-out\nresolved accepted\nunknown\n",
    ),
    (
        "cut twice, complete, cut again, and settled after its last transfer has come once more",
        "attach 30\ngrant 1\n\
            send 005370c00053774101010101010101010101010101010101010101010101\
            010101010101010101010101010101010101010101010101010101010101\n\
            arrive 7\ncut\nattach 45\nattach 46\nresume\narrive 8\ncut\nattach 47\nresume\n\
            arrive 9\narrive 0\nshow 00000000\nfate 0\nfate 1\nfate 2\nfate 3\ncut\n\
            attach 47\nresume\nsettle 00000000\narrive 10\nshow 00000000\nsettle 00000000\n\
            settle 00000000\nshow 00000000\nfate 0\nfate 1\nfate 2\nfate 3\nfate 4\n",
        "attached 0\ncredit 1\nsent 00000000 12\nheld 00000000 0 5\ncut\n\
            refused LimitTooSmall\nattached 1\nresumed 00000000 4\nheld 00000000 1 19\ncut\n\
            attached 1\nresumed 00000000 2\nheld 00000000 1 38\nwhole 00000000 1 56\n\
            joined 005370c00053774101010101010101010101010101010101010101010101\
            010101010101010101010101010101010101010101010101010101010101\n\
            handed-out\nhanded-out\npending\nunknown\ncut\nattached 1\nresumed 00000000 1\n\
            refused OnWire\nwhole 00000000 1 56\n\
            joined 005370c00053774101010101010101010101010101010101010101010101\
            010101010101010101010101010101010101010101010101010101010101\n\
            settled 00000000\nrefused UnknownTag\nunknown\nhanded-out\nhanded-out\n\
            handed-out\nresolved accepted\nunknown\n",
    ),
];

#[test]
fn a_delivery_is_resumed_where_it_was_cut(rt: HostRuntime) {
    expect_output(&rt, rt.alloc(), RESUMED);
}

const REFUSED: &[(&str, &str, &str)] = &[
    (
        "before an attach",
        "cut\nresume\nputback\nhandout 00000000\nsettle 00000000\nshow 00000000\nfate 0\n\
            fate 4294967295\n",
        "refused NotAttached\nrefused NotAttached\nrefused NotAttached\n\
            refused NotAttached\nrefused NotAttached\nunknown\nunknown\nunknown\n",
    ),
    (
        "with nothing to resume",
        "attach 30\nresume\nputback\ncut\ncut\nattach 30\nresume\n",
        "attached 0\nrefused NothingToResume\nrefused NothingToResume\ncut\n\
            refused NotAttached\nattached 0\nrefused NothingToResume\n",
    ),
    (
        "of tags that nothing is held of",
        "attach 50\ngrant 2\nsend 0a0b\nhandout -\nsettle 00000001\nhandout 00000000\n\
            settle 00000000\n",
        "attached 0\ncredit 2\nsent 00000000 1\nrefused UnknownTag\nrefused UnknownTag\n\
            refused UnknownTag\nrefused UnknownTag\n",
    ),
    (
        "of a delivery in part",
        "attach 30\ngrant 1\nsend 0102030405060708090a0b0c\narrive 0\nhandout 00000000\n\
            settle 00000000\nfate 0\n",
        "attached 0\ncredit 1\nsent 00000000 3\nheld 00000000 0 5\nrefused NotWhole\n\
            refused NotWhole\npending\n",
    ),
    (
        "without credit at the receiver",
        "attach 50\ngrant 2\nsend 0a0b\narrive 0\ngrant 0\nhandout 00000000\ngrant 1\n\
            handout 00000000\nhandout 00000000\n",
        "attached 0\ncredit 2\nsent 00000000 1\nwhole 00000000 0 2\ncredit 0\n\
            refused TransferLimitExceeded\ncredit 0\ndelivery 00000000 0a0b\n\
            refused AlreadyHandedOut\n",
    ),
    (
        "while others are to be resumed",
        "attach 50\ngrant 2\nsend 0a0b\nsend -\narrive 0\narrive 1\nhandout 00000001\ncut\n\
            handout 00000000\nsettle 00000000\nattach 80\nsettle 00000000\nresume\n\
            settle 00000000\ncut\nputback\nputback\nsettle 00000000\nsettle 00000001\n\
            fate 0\nfate 1\nfate 2\nfate 3\n",
        "attached 0\ncredit 2\nsent 00000000 1\nsent 00000001 1\nwhole 00000000 0 2\n\
            whole 00000001 0 0\ndelivery 00000001 -\ncut\nrefused NotAttached\n\
            refused NotAttached\nattached 2\nrefused ResumeFirst\nresumed 00000000 1\n\
            refused ResumeFirst\nrefused StillHandedOut\nback 00000001\n\
            refused NothingToResume\nrefused OnWire\nsettled 00000001\nhanded-out\n\
            handed-out\npending\nresolved accepted\n",
    ),
];

#[test]
fn each_call_is_refused_by_name(rt: HostRuntime) {
    expect_output(&rt, rt.alloc(), REFUSED);
}

// The fate is printed as this text.
fn assert_text(rt: &(impl Abort + AllocGlobal), fate: &Fate, text: &str) {
    let answer = Answer::Became(fate);
    let printed = format!(in rt.alloc(); "{answer}").expect(rt, "memory");
    assert_eq!(rt; printed.as_str(), text);
}

#[test]
fn fates_that_no_script_reaches_have_a_text(rt: HostRuntime) {
    assert_text(&rt, &Fate::Resolved(Ok(None)), "resolved");
    let released = Some(DeliveryState::Released);
    assert_text(&rt, &Fate::Resolved(Ok(released)), "resolved");
    let closed = LinkStateError::RemoteClosed;
    assert_text(&rt, &Fate::Resolved(Err(closed)), "resolved");
    assert_text(&rt, &Fate::Released, "released");
}

// A fragment without bytes is no end of what is held.
#[test]
fn an_empty_fragment_is_no_end(rt: HostRuntime) {
    let mut pieces = Vec::new(rt.alloc());
    let all: [&'static [u8]; 4] = [b"", b"\x01\xa0", b"", b"\xff"];
    for bytes in all {
        let piece = Payload::copy_from_slice(rt.alloc(), bytes).expect(&rt, "memory");
        pieces.push(piece).expect(&rt, "memory");
    }
    let answer = Answer::Joined(pieces.as_slice());
    let printed = format!(in rt.alloc(); "{answer}").expect(&rt, "memory");
    assert_eq!(rt; printed.as_str(), "joined 01a0ff");
}
