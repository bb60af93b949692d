//! Worked values, and each body called through its bound.
use crate::assertions::{assert_equal_at, assert_holds_at};
use amqp_link_payloads::{DataBody, DecodeError, FromBody, Message, Payload, Whole};
use bytes::Bytes;
use std::process::Abort;

// A data section of two bytes in its short forms, and one of one byte in its long forms (3.2.6).
const SHORT: [u8; 7] = [0x00, 0x53, 0x75, 0xA0, 0x02, 0x61, 0x62];

const LONG: [u8; 16] = [
    0x00, 0x80, 0, 0, 0, 0, 0, 0, 0, 0x75, 0xB0, 0, 0, 0, 1, 0x7F,
];

fn piece(rt: &(impl Abort + AllocGlobal), bytes: &[u8]) -> Payload {
    Bytes::copy_from_slice(rt.alloc(), bytes).expect(rt, "memory")
}

// The bytes in two pieces, the first with so many, and one without bytes between them.
fn cut(rt: &(impl Abort + AllocGlobal), bytes: &[u8], at: usize) -> Vec<Payload> {
    let (front, rest) = bytes.split_at_checked(at).unwrap_or((bytes, &[]));
    let pieces = vec![in rt.alloc(); piece(rt, front), Bytes::new(), piece(rt, rest)];
    pieces.expect(rt, "memory")
}

fn message_of<B: FromBody>(
    rt: &(impl Abort + AllocGlobal),
    pieces: &[Payload],
) -> Result<Message<B>, DecodeError> {
    B::decode_from_pieces(rt.alloc(), pieces)
}

// Whether the pieces are read as this data, with nothing in front.
fn reads(rt: &(impl Abort + AllocGlobal), pieces: &[Payload], want: &[u8]) -> bool {
    let message = message_of::<DataBody>(rt, pieces).expect(rt, "a data section");
    let is_read = message.body.0.as_slice() == want && message.preamble.is_empty();
    drop(message);
    is_read
}

// Whether these bytes are read as this data, wherever they are cut in two.
fn is_data(rt: &(impl Abort + AllocGlobal), bytes: &[u8], want: &[u8]) -> bool {
    for at in 0..bytes.len() {
        let pieces = cut(rt, bytes, at);
        let is_read = reads(rt, pieces.as_slice(), want);
        drop(pieces);
        if !is_read {
            return false;
        }
    }
    true
}

#[test]
fn data_section_is_read_however_cut(rt: HostRuntime) {
    assert_holds_at(&rt, is_data(&rt, &SHORT, b"ab"), &"in its short forms");
    assert_holds_at(&rt, is_data(&rt, &LONG, &[0x7F]), &"in its long forms");
}

const OTHERS: &[(&[u8], &str)] = &[
    (&[], "no bytes"),
    (&[0x00, 0x53, 0x75, 0xA0, 0x03, 0x61, 0x62], "short"),
    (
        &[0x00, 0x53, 0x75, 0xA0, 0x02, 0x61, 0x62, 0x00],
        "a byte more",
    ),
    (&[0x00, 0x53, 0x77, 0xA0, 0x02, 0x61, 0x62], "a value"),
    (&[0x00, 0x53, 0x75, 0xA1, 0x02, 0x61, 0x62], "a text"),
];

// Why bytes that are cut in two are no data section.
fn refusal_of(rt: &(impl Abort + AllocGlobal), bytes: &[u8]) -> Option<DecodeError> {
    let pieces = cut(rt, bytes, 4);
    let refusal = message_of::<DataBody>(rt, pieces.as_slice()).err();
    drop(pieces);
    refusal
}

#[test]
fn all_else_is_refused(rt: HostRuntime) {
    let refused = Some(DecodeError::NotOneDataSection);
    for (bytes, message) in OTHERS {
        assert_equal_at(&rt, &refusal_of(&rt, bytes), &refused, message);
    }
}

// Whether a body of any bytes is all of these, with nothing in front and nothing behind.
fn is_whole(rt: &(impl Abort + AllocGlobal), pieces: &[Payload], want: &[u8]) -> bool {
    let message = message_of::<Whole>(rt, pieces).expect(rt, "memory");
    let is_all = message.body.0.as_slice() == want;
    let is_alone = message.preamble.is_empty() && message.footer.is_empty();
    drop(message);
    is_all && is_alone
}

#[test]
fn whole_body_is_all_bytes(rt: HostRuntime) {
    let pieces = cut(&rt, &SHORT, 4);
    let is_whole = is_whole(&rt, pieces.as_slice(), &SHORT);
    drop(pieces);
    assert_holds_at(&rt, is_whole, &"three pieces");
}
