//! What a call has returned, in words.
use amqp_link::inbox::AnswerOf;
use amqp_link::{Delivery, Whole};
use program_support::arrival_word;
use std::io;
use std::io::Write;

fn write_taken<O: Write>(output: &mut O, delivery: Delivery<Whole>) -> io::Result<()> {
    let written = writeln!(output, "taken {:?}", delivery.body().0.as_slice());
    drop(delivery);
    written
}

/// Writes the answer on a line.
pub fn write_answer<O: Write>(output: &mut O, answer: AnswerOf<Whole>) -> io::Result<()> {
    match answer {
        AnswerOf::Done => writeln!(output, "done"),
        AnswerOf::Attached(Ok((_, forgotten))) => {
            let count = forgotten.len();
            drop(forgotten);
            writeln!(output, "attached, forgotten {count}")
        }
        AnswerOf::Arrived(Ok(arrived)) => {
            let word = arrival_word(arrived.arrival);
            drop(arrived);
            writeln!(output, "{word}")
        }
        AnswerOf::Taken(Ok(delivery)) => write_taken(output, delivery),
        AnswerOf::AttachSent(Ok(frame)) => {
            drop(frame);
            writeln!(output, "attach sent")
        }
        AnswerOf::FlowSent(Ok(frame)) => {
            drop(frame);
            writeln!(output, "flow sent")
        }
        AnswerOf::OutcomeKept(Ok(())) => writeln!(output, "outcome kept"),
        other => {
            drop(other);
            writeln!(output, "refused")
        }
    }
}
