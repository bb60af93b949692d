//! How many rows of each type agree.
ghost use Rattle.std.specs.Prelude.{◌≡◌, ◌<◌, ◌↔◌, ℕ, IsTrue, All, slice_index_or};

use length_rows::row::{Compared, KINDS, Kind};
use std::fmt;

/// How many rows of a type there are, and how many of them agree.
#[derive(Clone, Copy)]
pub struct Tally {
    /// The type.
    pub kind: Kind,
    /// The rows.
    pub rows: u64,
    /// The rows that agree.
    pub agreed: u64,
}

impl fmt::Display for Tally {
    ghost use Rattle.std.specs.Prelude.{Some};
    ghost use Rattle.replay_lengths.specs.Report.{tally_text};

    ghost output = { λ tally. Some (tally_text tally) };

    fn fmt<W: fmt::Write>(&self, f: &mut fmt::Formatter<W>) -> fmt::Result {
        let (kind, rows, agreed) = (self.kind, self.rows, self.agreed);
        write!(f, "{kind} {agreed} of {rows} agree")
    }
}

impl Tally {
    ghost use Rattle.replay_lengths.specs.Counting.{IsCounted};

    // The tally after one more row. It counts only those of its type.
    fn with_row(self, row: &Compared) -> Tally
        ensures { IsCounted row.now self result }
    {
        if self.kind != row.kind {
            return self;
        }
        let agreed = if row.agrees() {
            self.agreed.saturating_add(1)
        } else {
            self.agreed
        };
        Tally {
            kind: self.kind,
            rows: self.rows.saturating_add(1),
            agreed,
        }
    }
}

/// A tally for each type, in their order.
#[derive(Drop)]
pub struct Tallies {
    tallies: [Tally; 9],
}

impl Tallies {
    ghost use Rattle.replay_lengths.specs.Counting.{EachCounted};
    ghost use Rattle.length_rows.specs.declared.row.Kind.{Kind};
    ghost use Rattle.replay_lengths.specs.declared.tally.Tally.{Tally};

    /// No rows.
    pub fn new() -> Tallies
        ensures { (at : ℕ) → at < 9 → (kind : Kind) (tally : Tally)
            → slice_index_or result.tallies at tally ≡ record { kind = slice_index_or KINDS at kind; rows = 0; agreed = 0 } }
    {
        Tallies {
            tallies: KINDS.map(|kind| Tally {
                kind,
                rows: 0,
                agreed: 0,
            }),
        }
    }

    /// The tallies in order.
    pub fn as_slice(&self) -> &[Tally]
        ensures { result.now ≡ self.now.tallies }
    {
        &self.tallies
    }

    /// Counts a row.
    pub fn count(&mut self, compared: &Compared)
        ensures { EachCounted compared.now self.old.tallies self.new.tallies }
    {
        for tally in &mut self.tallies {
            *tally = tally.with_row(compared);
        }
    }

    /// Whether all rows agree.
    pub fn all_agree(&self) -> bool
        ensures { IsTrue result ↔ All (λ tally. tally.agreed ≡ tally.rows) self.now.tallies }
    {
        self.tallies.iter().all(|tally| tally.agreed == tally.rows)
    }
}
