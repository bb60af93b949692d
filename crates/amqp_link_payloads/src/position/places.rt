//! A search for a place in a payload that is cut into pieces (3.4.1).
ghost use Rattle.std.specs.Prelude.{◌≡◌, ◌+◌, ◌^◌, ◌<◌, ◌≤◌, [], ◌∷◌, ◌++◌};
ghost use Rattle.std.specs.Prelude.{ℕ, List, Some, length, if◌then◌else◌};
ghost use Rattle.amqp_link_payloads.specs.Places.{place_by};

use crate::position::scan::Starts;

// What a search for a place in a section keeps of the bytes that it has read.
#[derive(Clone, Copy)]
pub(crate) struct Seek {
    // the number of the section that is searched for
    number: u64,
    // the starts past the first byte so far
    seen: u64,
    // the bytes before the piece that is read
    before: u64,
    // the section's start
    start: Option<u64>,
    // the end of the header with which the next section starts
    end: Option<u64>,
    ghost numbered: { number < 2 ^ 32 },
}

impl Seek {
    ghost use Rattle.amqp_link_payloads.specs.Position.{place};
    ghost use Rattle.amqp_link_payloads.specs.Scan.{Keeps};
    ghost use Rattle.amqp_link_payloads.specs.Seek.{HasSought, Seeks};

    // No byte was read: the first section starts before the first byte.
    pub(crate) fn new(number: u32) -> Seek
        ensures { Keeps (Seeks number) result [] 0 }
    {
        Seek {
            number: number as u64,
            seen: 0,
            before: 0,
            start: keep_or_set(None, number == 0, 0),
            end: None,
        }
    }

    // The place of that offset in the section, after all bytes were read.
    pub(crate) fn place(&self, offset: u64) -> Option<u64>
        ensures { (number : ℕ) (F : List ℕ) → HasSought number self.now F 0 → result ≡ place F number offset }
    {
        place_within(self.start, self.end, self.before, offset)
    }
}

impl Starts for Seek {
    ghost use Rattle.amqp_link_payloads.specs.Seek.{Seeks};

    ghost has = { Seeks };

    fn start(self, header: u64, at: u64) -> Seek {
        let seen = self.seen.saturating_add(1);
        let end = self.before.saturating_add(at + 1);
        let start = end.saturating_sub(header);
        Seek {
            number: self.number,
            seen,
            before: self.before,
            start: keep_or_set(self.start, seen == self.number, start),
            end: keep_or_set(self.end, seen == self.number + 1, end),
        }
    }

    fn after(self, length: u64) -> Seek {
        Seek {
            number: self.number,
            seen: self.seen,
            before: self.before.saturating_add(length),
            start: self.start,
            end: self.end,
        }
    }
}

// This place if the flag is set, otherwise the one that is known.
fn keep_or_set(known: Option<u64>, is_it: bool, place: u64) -> Option<u64>
    ensures { result ≡ (if is_it then Some place else known) }
{
    if is_it { Some(place) } else { known }
}

// The place at an offset from a start, within the bytes and short of the next header's end.
fn place_within(start: Option<u64>, end: Option<u64>, length: u64, offset: u64) -> Option<u64>
    ensures { result ≡ place_by start end length offset }
{
    let place = start?.checked_add(offset)?;
    let is_short = match end {
        Some(end) => place < end,
        None => true,
    };
    if is_short && place <= length {
        Some(place)
    } else {
        None
    }
}
