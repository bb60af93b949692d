//! How a replay of rows ends.
ghost use Rattle.std.specs.Prelude.{◌≡◌};

/// How a replay of rows ended.
#[derive(Clone, Copy)]
pub enum Verdict {
    /// All that the rows state agrees.
    Agreed,
    /// Some of it does not.
    Disagreed,
    /// A line is not run as a row.
    NotARow,
    /// Reading or writing failed, or it was out of memory.
    Failed,
}

impl Verdict {
    ghost use Rattle.performative_rows.specs.Verdicts.{status_of};

    /// The exit status.
    pub fn status(self) -> u8
        ensures { result ≡ status_of self }
    {
        match self {
            Verdict::Agreed => 0,
            Verdict::Disagreed => 1,
            Verdict::NotARow => 2,
            Verdict::Failed => 3,
        }
    }
}
