//! Section headers: the only module that reads their bytes (3.2).
ghost use Rattle.std.specs.Prelude.{◌≡◌, ◌+◌, ◌-◌, ◌<◌, ◌≤◌, ℕ, length, get_or, take, drop, false};
ghost use Rattle.amqp_link_payloads.specs.Header;
ghost use Rattle.amqp_link_payloads.specs.Header.{ending};

// The bytes that are tested for headers at once, without branches: they fill whole vectors.
pub(crate) const BLOCK: usize = 32;

// A byte that no header contains.
pub(crate) const BLANK: u8 = 0xff;

// The length of the header with which the bytes begin: 0 if they begin with none.
#[tactic(auto, using(crate::proofs::HeaderLemmas::header_tests))]
fn header_len(bytes: &[u8]) -> usize
    ensures { result ≡ Header.header_len bytes.now }
{
    match bytes {
        [0x00, 0x53, 0x70..=0x78, ..] => 3,
        [0x00, 0x80, 0, 0, 0, 0, 0, 0, 0, 0x70..=0x78, ..] => 10,
        _ => 0,
    }
}

// Whether a header may end in the byte `last`, where `first` stands two bytes before it: either form ends in 00,
// one more byte, and 70 to 78. One that may end there need not.
fn may_end(first: u8, last: u8) -> bool
    ensures { result ≡ Header.may_end first last }
{
    (first == 0x00) & (0x70 <= last) & (last <= 0x78)
}

// Whether a header may end in one of the bytes from the third on. Reads them all, so that the compiler can test
// many at once.
pub(crate) fn may_hold_end(bytes: &[u8]) -> bool
    ensures { result ≡ false → (i : ℕ) → 2 ≤ i → i < length bytes.now
        → Header.may_end (get_or bytes.now (i - 2) 0) (get_or bytes.now i 0) ≡ false }
{
    let mut found = false;
    for i in 2..bytes.len() {
        found = found | may_end(bytes[i - 2], bytes[i]);
    }
    found
}

// The length of the header that ends in the byte at `i`: 0 if none does. Nine bytes stand before it.
pub(crate) fn header_before(bytes: &[u8], i: usize) -> u64
    requires before { 9 ≤ i }
    requires within { i < length bytes.now }
    ensures { result ≡ ending (take 10 (drop (i - 9) bytes.now)) }
{
    if !may_end(bytes[i - 2], bytes[i]) {
        0
    } else if header_len(&bytes[i - 2..i + 1]) == 3 {
        3
    } else if header_len(&bytes[i - 9..i + 1]) == 10 {
        10
    } else {
        0
    }
}
