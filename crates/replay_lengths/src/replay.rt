//! A replay: the lines in order, and its output.
ghost use Rattle.std.specs.Prelude.{◌≡◌, ◌≤◌, IfOk};
ghost use Rattle.replay_lengths.specs.Report.{Concludes};

use crate::tally::Tallies;
use length_rows::row::{Compared, compare};
use line_text::line::read_line;
use performative_rows::error::RowError;
use performative_rows::verdict::Verdict;
use std::alloc::Global;
use std::io;
use std::io::{BufRead, Write};

#[cfg(test)]
mod tests;

/// Replays the rows in `input`. Empty lines and those that begin with `#` are skipped.
///
/// Writes each row that does not agree to `output`, and at the end how many rows of each type do. A line that
/// is no row ends the replay, and its number is written in place of how many agree. Returns 0 if all rows agree, 1 if some do not, 2 at a
/// line that is no row, and 3 if reading or writing fails, or if it is out of memory.
pub fn replay<R: BufRead, W: Write>(alloc: Global, input: &mut R, output: &mut W) -> u8
    ensures { result ≤ 3 }
{
    let verdict = replay_lines(alloc, input, output).unwrap_or(Verdict::Failed);
    verdict.status()
}

// The error is a failed read or write, or out of memory for a line.
fn replay_lines<R: BufRead, W: Write>(
    alloc: Global,
    input: &mut R,
    output: &mut W,
) -> io::Result<Verdict> {
    let mut tallies = Tallies::new();
    let mut line = Vec::new(alloc);
    for number in 1..u64::MAX {
        if !read_line(input, &mut line)? {
            return conclude(&tallies, output);
        }
        if line.is_empty() || line.first() == Some(&b'#') {
            continue;
        }
        match compare(alloc, line.as_slice()) {
            Ok(compared) => {
                tallies.count(&compared);
                report_difference(number, &compared, output)?;
            }
            Err(RowError::NotARow) => return refuse(number, output),
            Err(RowError::OutOfMemory) => return Ok(Verdict::Failed),
        }
    }
    Ok(Verdict::Failed)
}

// Writes a row that does not agree.
fn report_difference<W: Write>(number: u64, compared: &Compared, output: &mut W) -> io::Result<()> {
    if compared.agrees() {
        return Ok(());
    }
    let stated = compared.stated;
    match compared.computed {
        Some(computed) => writeln!(
            output,
            "line {number}: {stated} stated, {computed} computed"
        ),
        None => writeln!(output, "line {number}: {stated} stated, none computed"),
    }
}

// Writes a line that is no row.
fn refuse<W: Write>(number: u64, output: &mut W) -> io::Result<Verdict>
    ensures { IfOk result (λ verdict. verdict ≡ Verdict.NotARow) }
{
    writeln!(output, "line {number}: not a row")?;
    output.flush()?;
    Ok(Verdict::NotARow)
}

// Writes how many rows of each type agree.
fn conclude<W: Write>(tallies: &Tallies, output: &mut W) -> io::Result<Verdict>
    ensures { IfOk result (λ verdict. Concludes verdict tallies.now.tallies) }
{
    for tally in tallies.as_slice() {
        writeln!(output, "{tally}")?;
    }
    output.flush()?;
    if tallies.all_agree() {
        Ok(Verdict::Agreed)
    } else {
        Ok(Verdict::Disagreed)
    }
}
