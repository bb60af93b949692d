//! The sections of bytes that arrive in pieces (3.4.1).
ghost use Rattle.std.specs.Prelude.{◌≡◌, ◌<◌, ◌^◌, ◌++◌, [], ℕ, List, length, true, false, IfSome, MatchOption};

use crate::position::counts::Counts;
use crate::position::scan::Tail;

/// The sections of the pieces that were read so far: a position is kept as the bytes arrive.
#[derive(Clone, Copy, Debug)]
pub struct Sections {
    number: u32,
    offset: u64,
    tail: Tail,
    length: u64,
    ghost number_fits: { number < 2 ^ 32 },
    ghost length_fits: { length < 2 ^ 64 },
}

impl Sections {
    ghost use Rattle.amqp_link_payloads.specs.Position.{position};
    ghost use Rattle.amqp_link_payloads.specs.Sections.{HasRead, is_too_long};

    /// No byte was read.
    pub fn new() -> Sections
        ensures { HasRead result [] }
    {
        Sections {
            number: 0,
            offset: 0,
            tail: Tail::new(),
            length: 0,
        }
    }

    /// Reads one more piece, and it alone: once, however it is cut. None if a u64 does not hold the length of
    /// all pieces, or a u32 the number of the last section. Does not allocate.
    pub fn read(self, piece: &[u8]) -> Option<Sections>
        ensures read { (F : List ℕ) → HasRead self F
            → IfSome result (λ next. HasRead next (F ++ piece.now)) }
        ensures refused { (F : List ℕ) → HasRead self F
            → MatchOption result (is_too_long (F ++ piece.now) ≡ true) (λ next. is_too_long (F ++ piece.now) ≡ false) }
    {
        let length = self.length.checked_add(piece.len() as u64)?;
        let before = Counts::new(Some(self.number), Some(self.offset));
        let (tail, counts) = self.tail.read(before, piece);
        Some(Sections {
            number: counts.number?,
            offset: counts.offset?,
            tail,
            length,
        })
    }

    /// The position of the end of all pieces: the section's number, counted from 0, and the bytes since its
    /// start.
    pub fn position(self) -> (u32, u64)
        ensures { (F : List ℕ) → HasRead self F → result ≡ position F }
    {
        (self.number, self.offset)
    }

    /// The number of bytes in all pieces.
    pub fn len(self) -> u64
        ensures { (F : List ℕ) → HasRead self F → result ≡ length F }
    {
        self.length
    }
}
