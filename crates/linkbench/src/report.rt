//! What is printed of the works.
use crate::measured::Measured;
use crate::refused::Refused;
use crate::tasks::{Amount, Task, all};
use std::alloc::Global;
use std::io::Write;
use std::rt::Clock;

// A work is made ready and done so often; the shortest time is printed.
const ROUNDS: u32 = 5;

/// Does each work once at a small size, and prints what it did.
pub fn show<C: Clock, O: Write>(clock: &C, alloc: Global, output: &mut O) -> Result<(), Refused> {
    for task in all() {
        let amount = task.shown();
        let Measured { did, .. } = task.measure(clock, alloc, amount)?;
        let (name, unit, size) = (task.name(), task.unit(), amount.size);
        writeln!(output, "{name}, {size} {unit}: {did}")?;
    }
    Ok(output.flush()?)
}

/// Times each work at its sizes, and prints the nanoseconds that an operation took.
pub fn time<C: Clock, O: Write>(clock: &C, alloc: Global, output: &mut O) -> Result<(), Refused> {
    for task in all() {
        for amount in task.timed() {
            time_one(clock, alloc, output, task, amount)?;
        }
    }
    Ok(())
}

fn time_one<C: Clock, O: Write>(
    clock: &C,
    alloc: Global,
    output: &mut O,
    task: Task,
    amount: Amount,
) -> Result<(), Refused> {
    let nanoseconds = shortest(clock, alloc, task, amount)?;
    let each = nanoseconds / u64::from(task.operations(amount).max(1));
    let (name, unit, size) = (task.name(), task.unit(), amount.size);
    writeln!(output, "{name:<24} {size:>8} {unit:<10} {each:>12} ns")?;
    Ok(output.flush()?)
}

// The shortest time of all rounds.
fn shortest<C: Clock>(
    clock: &C,
    alloc: Global,
    task: Task,
    amount: Amount,
) -> Result<u64, Refused> {
    let mut shortest = u64::MAX;
    for _ in 0..ROUNDS {
        let measured = task.measure(clock, alloc, amount)?;
        shortest = shortest.min(measured.nanoseconds);
    }
    Ok(shortest)
}
