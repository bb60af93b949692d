//! What the program is asked for.
use line_text::number::parse_unsigned;
use std::{env, io};

/// The arguments of the program.
#[derive(Clone, Copy)]
pub struct Arguments {
    /// What decides the run.
    pub seed: u64,
    /// How many frames it has.
    pub frames: u64,
}

// The numbers that the arguments are, in order; none for each that is no number.
fn numbers_of(rt: &HostRuntime) -> io::Result<Vec<Option<u64>>> {
    let mut numbers = Vec::new(rt.alloc());
    for word in env::args(rt)?.skip(1) {
        let number = parse_unsigned(word.as_str().as_bytes());
        drop(word);
        numbers.push(number)?;
    }
    Ok(numbers)
}

/// The arguments, if there are two and both are numbers.
pub fn arguments_of(rt: &HostRuntime) -> io::Result<Option<Arguments>> {
    let numbers = numbers_of(rt)?;
    match numbers.as_slice() {
        [Some(seed), Some(frames)] => Ok(Some(Arguments {
            seed: *seed,
            frames: *frames,
        })),
        _ => Ok(None),
    }
}
