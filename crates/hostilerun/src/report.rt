//! What is printed.
use hostile_frames::{Broken, NAMES, Reached};
use std::io::{self, Write};

/// Writes what was reached, and how often each refusal was.
pub fn write_reached<O: Write>(output: &mut O, reached: &Reached) -> io::Result<()> {
    for (words, count) in reached.counts() {
        writeln!(output, "{words}: {count}")?;
    }
    for (name, count) in NAMES.iter().zip(reached.refusals()) {
        writeln!(output, "{name}: {count}")?;
    }
    output.flush()
}

/// Writes which check has failed, and where.
pub fn write_broken<O: Write>(output: &mut O, broken: Broken) -> io::Result<()> {
    writeln!(output, "{broken}")?;
    output.flush()
}
