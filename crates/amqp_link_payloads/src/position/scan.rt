//! The scan of bytes for the starts of sections (3.4.1): the one loop that reads them, whatever is kept of the starts.
ghost use Rattle.std.specs.Prelude.{◌≡◌, ◌+◌, ◌-◌, ◌^◌, ◌<◌, ◌≤◌, ◌++◌, [], ◌∷◌, ℕ, List, length, take, drop, if◌then◌else◌};
ghost use Rattle.amqp_link_payloads.specs.Scan.{Keeps, IsNext};
ghost use Rattle.amqp_link_payloads.specs.Tail.{IsTailOf, blanked};

use crate::position::header::{BLANK, BLOCK, header_before, may_hold_end};

// The bytes of a piece that are read behind the bytes before it: a header's length.
const HEAD: usize = 10;

// What is kept of the starts past the first byte, as they are found. Other bytes change nothing.
pub(crate) trait Starts: Copy {
    ghost use Rattle.amqp_link_payloads.specs.Scan.{Keeps};
    ghost use Rattle.amqp_link_payloads.specs.Tail.{EndsAt};

    // What is kept of all bytes so far, of which the last ones, so many, are of the piece that is read. The first
    // number is that of the section that a search looks for: counts have none.
    ghost has: { ℕ → Self → List ℕ → ℕ → Type 0 };

    // Takes a start, whose header has this length and ends in the byte at this place of the piece.
    fn start(self, header: u64, at: u64) -> Self
        requires { at + 1 < 2 ^ 64 }
        ensures { (aim : ℕ) (F : List ℕ) (b n : ℕ) → has aim self F at → 1 ≤ n → EndsAt (F ++ b ∷ []) n
            → n + header ≡ length F + 1 → Keeps (has aim) result (F ++ b ∷ []) (at + 1) };

    // The piece ends, and has this length.
    fn after(self, length: u64) -> Self
        ensures { (aim : ℕ) (F : List ℕ) → has aim self F length → Keeps (has aim) result F 0 };
}

// Reads the bytes in this range, each of which has nine before it. Before the tenth of all bytes stand so many of the
// piece.
fn scan_each<S: Starts>(starts: S, bytes: &[u8], from: usize, to: usize, before: u64) -> S
    requires head { 9 ≤ from }
    requires order { from ≤ to }
    requires within { to ≤ length bytes.now }
    requires room { before + length bytes.now < 2 ^ 64 }
    ensures { (aim : ℕ) (F : List ℕ) → IsNext F bytes.now
        → Keeps (S.has aim) starts (F ++ take (from - 9) (drop 9 bytes.now)) (before + (from - 9))
        → Keeps (S.has aim) result (F ++ take (to - 9) (drop 9 bytes.now)) (before + (to - 9)) }
{
    let mut next = starts;
    for i in from..to {
        let header = header_before(bytes, i);
        if header > 0 {
            next = next.start(header, before + (i - 9) as u64);
        }
    }
    next
}

// Reads the bytes after the first nine, before which stand so many of the piece. A block in which no header may end is
// not read byte by byte.
fn scan<S: Starts>(starts: S, bytes: &[u8], before: u64) -> S
    requires head { 9 ≤ length bytes.now }
    requires room { before + length bytes.now < 2 ^ 64 }
    ensures { (aim : ℕ) (F : List ℕ) → IsNext F bytes.now → Keeps (S.has aim) starts F before
        → Keeps (S.has aim) result (F ++ drop 9 bytes.now) (before + (length bytes.now - 9)) }
{
    let blocks = (bytes.len() - 9) / BLOCK;
    let mut next = starts;
    for i in 0..blocks {
        let from = 9 + i * BLOCK;
        if may_hold_end(&bytes[from - 2..from + BLOCK]) {
            next = scan_each(next, bytes, from, from + BLOCK, before);
        }
    }
    scan_each(next, bytes, 9 + blocks * BLOCK, bytes.len(), before)
}

// The last bytes that were read, as many as a header has before its last byte; blanks stand before the first byte of
// all and in place of it, since it is a start whatever it is.
#[derive(Clone, Copy, Debug)]
pub(crate) struct Tail {
    last: [u8; 9],
    is_new: bool,
}

impl Tail {
    pub(crate) fn new() -> Tail
        ensures { IsTailOf result [] }
    {
        Tail {
            last: [BLANK; 9],
            is_new: true,
        }
    }

    // These bytes, at most a header's length, behind those before them.
    fn joint(self, front: &[u8]) -> [u8; 19]
        requires { length front.now ≤ 10 }
        ensures { take (9 + length front.now) result
            ≡ self.last ++ (if self.is_new then blanked front.now else front.now) }
    {
        let mut joint = [BLANK; 19];
        joint[..9].copy_from_slice(&self.last);
        joint[9..9 + front.len()].copy_from_slice(front);
        if self.is_new {
            joint[9] = BLANK;
        }
        joint
    }

    // Reads a piece: its first bytes behind those before it, then the rest. Does not allocate.
    pub(crate) fn read<S: Starts>(self, starts: S, piece: &[u8]) -> (Tail, S)
        ensures { (aim : ℕ) (F : List ℕ) → IsTailOf self F → Keeps (S.has aim) starts (blanked F) 0
            → IsTailOf result.0 (F ++ piece.now)
            × Keeps (S.has aim) result.1 (blanked (F ++ piece.now)) 0 }
    {
        let head = piece.len().min(HEAD);
        let joint = self.joint(&piece[..head]);
        let mut next = scan(starts, &joint[..9 + head], 0);
        let mut last = self.last;
        if piece.len() <= HEAD {
            last.copy_from_slice(&joint[head..head + 9]);
        } else {
            next = scan(next, &piece[1..], HEAD as u64);
            last.copy_from_slice(&piece[piece.len() - 9..]);
        }
        let tail = Tail {
            last,
            is_new: self.is_new & piece.is_empty(),
        };
        (tail, next.after(piece.len() as u64))
    }
}
