//! The number and the offset of the section in which bytes end (3.4.1).
ghost use Rattle.std.specs.Prelude.{◌≡◌, ◌+◌, ◌^◌, ◌<◌, ◌++◌, ◌∷◌, [], ℕ, List, length, Some};
ghost use Rattle.amqp_link_payloads.specs.Counts.{HasCounted, number_below};
ghost use Rattle.amqp_link_payloads.specs.Position.{position};
ghost use Rattle.amqp_link_payloads.specs.Scan.{Keeps};

use crate::position::scan::Starts;

// The number of starts past the first byte, and the bytes since the last one.
#[derive(Clone, Copy, Debug)]
pub(crate) struct Counts {
    // the starts past the first byte, while a `u32` holds their number
    pub(crate) number: Option<u32>,
    // the bytes from the last start to the place `from` of the piece that is read, while a `u64` holds their number
    pub(crate) offset: Option<u64>,
    from: u64,
}

impl Counts {
    // What was counted before the next piece.
    pub(crate) fn new(number: Option<u32>, offset: Option<u64>) -> Counts
        ensures { (F : List ℕ) → number ≡ number_below (2 ^ 32) (position F).0
            → offset ≡ number_below (2 ^ 64) (position F).1 → Keeps HasCounted result F 0 }
    {
        Counts {
            number,
            offset,
            from: 0,
        }
    }
}

impl Starts for Counts {
    ghost has = { λ _. HasCounted };

    fn start(self, header: u64, at: u64) -> Counts {
        Counts {
            number: next_number(self.number),
            offset: Some(header),
            from: at + 1,
        }
    }

    fn after(self, length: u64) -> Counts {
        Counts::new(
            self.number,
            offset_on(self.offset, length.saturating_sub(self.from)),
        )
    }
}

fn next_number(number: Option<u32>) -> Option<u32>
    ensures { (k : ℕ) → number ≡ number_below (2 ^ 32) k → result ≡ number_below (2 ^ 32) (k + 1) }
{
    number?.checked_add(1)
}

fn offset_on(offset: Option<u64>, bytes: u64) -> Option<u64>
    ensures { (k : ℕ) → offset ≡ number_below (2 ^ 64) k → result ≡ number_below (2 ^ 64) (k + bytes) }
{
    offset?.checked_add(bytes)
}
