//! A replay: the lines in order, and its output.
ghost use Rattle.std.specs.Prelude.{◌≡◌, ◌≢◌, ℕ, List, IfErr, IfOk};
ghost use Rattle.replay_report.specs.Counting.{no_rows};
ghost use Rattle.replay_report.specs.Replays.{AllRowsAgree, Concludes, Ends, Stops, is_skipped};
ghost use Rattle.replay_report.specs.declared.answer.Answer.{Answer};
ghost use Rattle.replay_report.specs.declared.answer.StepError.{StepError};

use crate::answer::{Answer, StepError};
use crate::tally::Tally;
use line_text::line::read_line;
use performative_rows::verdict::Verdict;
use std::alloc::Global;
use std::io;
use std::io::{BufRead, Write};

/// What runs the lines of traces, one after the other.
pub trait RunLine {
    /// From this state the line is run as a row, has come to this answer, and leaves that state.
    ghost comes_to: { Self → List ℕ → Answer → Self → Type 0 };
    /// From this state the line is not run as a row.
    ghost stops_at: { Self → List ℕ → StepError → Type 0 };

    /// Runs a line as a row: the word for the row, and what it has come to.
    fn run_line(&mut self, line: &[u8]) -> Result<(&'static str, Answer), StepError>
        ensures ok { IfOk result (λ ran. comes_to self.old line.now ran.1 self.new) }
        ensures err { IfErr result (λ error. stops_at self.old line.now error) };
}

/// How a replay has ended.
#[derive(Clone, Copy)]
pub struct Report {
    /// Whether all agrees. Its status is the exit status of a program.
    pub verdict: Verdict,
    /// The counts of the rows; of a replay that has failed they may be short.
    pub tally: Tally,
}

/// Replays the rows in `input`: `traces` runs each line in order, but empty ones and those that begin with `#`.
///
/// Writes each fact that does not agree to `output`, each row that is refused, and each end of a trace at which something was
/// left; and at the end how many there are of each. A line that is not run as a row ends the replay: its number and the reason
/// are written in place of the counts. The verdict is `Agreed` if all rows agree and each trace has ended, `Disagreed` if not,
/// `NotARow` at a line that is not run, and `Failed` if reading or writing fails, or if it is out of memory.
pub fn replay<T: RunLine, R: BufRead, W: Write>(
    alloc: Global,
    traces: &mut T,
    input: &mut R,
    output: &mut W,
) -> Report
    // Whichever the verdict is, it is that of the lines in `input`, each run by `traces` and counted.
    ensures ends { result.verdict ≢ Verdict.Failed
        → Ends T.comes_to T.stops_at traces.old no_rows (R.remaining input.old) result }
    // So each row agrees if the status is 0.
    ensures agreed { result.verdict ≡ Verdict.Agreed → AllRowsAgree T.comes_to traces.old (R.remaining input.old) }
{
    match replay_lines(alloc, traces, input, output) {
        Ok(report) => report,
        Err(_) => Report {
            verdict: Verdict::Failed,
            tally: Tally::default(),
        },
    }
}

// The error is a failed read or write, or out of memory for a line.
fn replay_lines<T: RunLine, R: BufRead, W: Write>(
    alloc: Global,
    traces: &mut T,
    input: &mut R,
    output: &mut W,
) -> io::Result<Report>
    ensures { IfOk result (λ report. report.verdict ≢ Verdict.Failed
        → Ends T.comes_to T.stops_at traces.old no_rows (R.remaining input.old) report) }
{
    let mut tally = Tally::default();
    let mut line = Vec::new(alloc);
    for number in 1..u64::MAX {
        if !read_line(input, &mut line)? {
            return conclude(tally, output);
        }
        if is_skipped(line.as_slice()) {
            continue;
        }
        match traces.run_line(line.as_slice()) {
            Ok((word, answer)) => {
                tally = tally.with_row(&answer);
                write_difference(number, word, &answer, output)?;
            }
            Err(error) => return stop(number, error, tally, output),
        }
    }
    Ok(Report {
        verdict: Verdict::Failed,
        tally,
    })
}

// Whether a line is no row: it is empty, or begins with `#`.
fn is_skipped(line: &[u8]) -> bool
    ensures { result ≡ is_skipped line.now }
{
    match line.first() {
        Some(byte) => *byte == b'#',
        None => true,
    }
}

// Writes a row that does not agree.
fn write_difference<W: Write>(
    number: u64,
    word: &str,
    answer: &Answer,
    output: &mut W,
) -> io::Result<()> {
    match answer {
        Answer::Begun | Answer::Taken | Answer::Agrees | Answer::Ended(None) => Ok(()),
        Answer::Refused(reason) => writeln!(output, "line {number}: {word} refused, {reason}"),
        Answer::Differs(difference) => writeln!(output, "line {number}: {word} {difference}"),
        Answer::Ended(Some(left)) => writeln!(output, "line {number}: {word} stated, {left} left"),
    }
}

// Writes a line that is not run as a row. Out of memory nothing is written.
fn stop<W: Write>(number: u64, error: StepError, tally: Tally, output: &mut W) -> io::Result<Report>
    ensures tally { IfOk result (λ report. report.tally ≡ tally) }
    ensures verdict { IfOk result (λ report. Stops error report.verdict) }
{
    if matches!(error, StepError::OutOfMemory) {
        return Ok(Report {
            verdict: Verdict::Failed,
            tally,
        });
    }
    writeln!(output, "line {number}: {error}")?;
    output.flush()?;
    Ok(Report {
        verdict: Verdict::NotARow,
        tally,
    })
}

// Writes how many rows there are, and how many agree.
fn conclude<W: Write>(tally: Tally, output: &mut W) -> io::Result<Report>
    ensures tally { IfOk result (λ report. report.tally ≡ tally) }
    ensures verdict { IfOk result (λ report. Concludes report.verdict tally) }
{
    writeln!(output, "{tally}")?;
    output.flush()?;
    let verdict = if tally.all_agree() {
        Verdict::Agreed
    } else {
        Verdict::Disagreed
    };
    Ok(Report { verdict, tally })
}
