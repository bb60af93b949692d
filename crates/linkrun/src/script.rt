//! A run of a script: its lines in order, an answer a line.
use crate::answer::perform;
use crate::event::{Event, parse_event};
use crate::fault::Fault;
use crate::status::Status;
use amqp_link::pair::{Pair, PairError};
use line_text::line::read_line;
use std::alloc::Global;
use std::io;
use std::io::{BufRead, Write};

#[cfg(test)]
mod tests;

/// Runs the script in `input` on a new pair: writes an answer to each line to `output`, and what ends the run
/// early to `faults`; flushes both. An empty line is counted and has no answer. A refusal of the pair is an
/// answer too, also if a call is out of memory, and the run continues.
///
/// `Complete` at the end of the script; `Stopped` at a line that is no event, after which nothing is read;
/// `Failed` if a read fails, if it is out of memory for a line, or if the fault cannot be written; and `Failed`,
/// with nothing written to `faults`, if a write to `output` fails or it is out of memory for the pair.
pub fn run_script<R: BufRead, O: Write, F: Write>(
    alloc: Global,
    input: &mut R,
    output: &mut O,
    faults: &mut F,
) -> Status {
    let Ok(mut pair) = Pair::new(alloc, 0) else {
        return Status::Failed;
    };
    let status = run_to_end(alloc, &mut pair, input, output, faults).unwrap_or(Status::Failed);
    drop(pair);
    status
}

// Runs the script. The error is a failed write.
fn run_to_end<R: BufRead, O: Write, F: Write>(
    alloc: Global,
    pair: &mut Pair,
    input: &mut R,
    output: &mut O,
    faults: &mut F,
) -> io::Result<Status> {
    let ended = run_lines(alloc, pair, input, output)?;
    // All answers are written before the fault that ended the run.
    output.flush()?;
    let Some(fault) = ended else {
        return Ok(Status::Complete);
    };
    writeln!(faults, "{fault}")?;
    faults.flush()?;
    Ok(fault.status())
}

// Answers the lines in order, up to the end or to the first one that ends the run early. The error is a
// failed write.
fn run_lines<R: BufRead, O: Write>(
    alloc: Global,
    pair: &mut Pair,
    input: &mut R,
    output: &mut O,
) -> io::Result<Option<Fault>> {
    let mut line = Vec::new(alloc);
    for number in 1..u64::MAX {
        match read_line(input, &mut line) {
            Ok(true) => {}
            Ok(false) => return Ok(None),
            Err(_) => return Ok(Some(Fault::InputFailed)),
        }
        if line.is_empty() {
            continue;
        }
        match parse_event(alloc, line.as_slice()) {
            Ok(Some(event)) => answer_to(pair, &event, output)?,
            Ok(None) => return Ok(Some(Fault::NotAnEvent(number))),
            Err(_) => return Ok(Some(Fault::InputFailed)),
        }
    }
    Ok(Some(Fault::InputFailed))
}

// Performs the event of a line, and writes the answer. The error is a failed write.
fn answer_to<O: Write>(pair: &mut Pair, event: &Event, output: &mut O) -> io::Result<()> {
    match perform(pair, event) {
        Ok(answer) => writeln!(output, "{answer}"),
        Err(refusal) => write_refusal(output, &refusal),
    }
}

fn write_refusal<O: Write>(output: &mut O, refusal: &PairError) -> io::Result<()> {
    writeln!(output, "refused {refusal:?}")
}
