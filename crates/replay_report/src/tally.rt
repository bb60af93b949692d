//! How many rows there are, and how many of them agree.
ghost use Rattle.std.specs.Prelude.{◌≡◌, ◌+◌, ◌-◌, ◌^◌, ◌↔◌, IsTrue, min};

use crate::answer::Answer;
use std::fmt;

/// Counts of what rows have come to.
#[derive(Clone, Copy, Default)]
pub struct Tally {
    /// The rows.
    pub rows: u64,
    /// The frames and calls that an endpoint has refused.
    pub refused: u64,
    /// The facts that agree.
    pub agreed: u64,
    /// The facts that do not.
    pub differing: u64,
    /// The traces that have begun.
    pub traces: u64,
    /// Those that have ended with nothing left but flows.
    pub ended: u64,
    /// Those that have ended with something else left.
    pub left: u64,
}

impl Tally {
    ghost use Rattle.replay_report.specs.Counting.{AllAgree, tally_after};

    /// The counts after one more row, which has come to this.
    pub fn with_row(self, answer: &Answer) -> Tally
        ensures { result ≡ tally_after answer.now self }
    {
        let mut tally = self;
        tally.rows = one_more(tally.rows);
        match answer {
            Answer::Begun => tally.traces = one_more(tally.traces),
            Answer::Taken => {}
            Answer::Refused(_) => tally.refused = one_more(tally.refused),
            Answer::Agrees => tally.agreed = one_more(tally.agreed),
            Answer::Differs(_) => tally.differing = one_more(tally.differing),
            Answer::Ended(None) => tally.ended = one_more(tally.ended),
            Answer::Ended(Some(_)) => tally.left = one_more(tally.left),
        }
        tally
    }

    /// Whether each fact agrees, nothing was refused, and each trace has ended with nothing left but flows.
    pub fn all_agree(&self) -> bool
        ensures { IsTrue result ↔ AllAgree self.now }
    {
        self.differing == 0 && self.refused == 0 && self.left == 0 && self.ended == self.traces
    }
}

// One more, up to the largest number.
fn one_more(count: u64) -> u64
    ensures { result ≡ min (count + 1) (2 ^ 64 - 1) }
{
    count.saturating_add(1)
}

impl fmt::Display for Tally {
    fn fmt<W: fmt::Write>(&self, f: &mut fmt::Formatter<W>) -> fmt::Result {
        let (rows, refused, traces, ended) = (self.rows, self.refused, self.traces, self.ended);
        let (agreed, stated) = (self.agreed, self.agreed.saturating_add(self.differing));
        writeln!(f, "{rows} rows, {refused} refused")?;
        writeln!(
            f,
            "{ended} of {traces} traces end with nothing left but flows"
        )?;
        write!(f, "{agreed} of {stated} stated facts agree")
    }
}
