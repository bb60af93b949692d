//! Traces: the rows of one link endpoint each.
use crate::endpoint::Endpoint;
use frame_rows::reading::read_row;
use frame_rows::row::{Fact, NewLink, Row};
use replay_report::answer::{Answer, Difference, StepError, answer_of};
use replay_report::compare::number_difference;
use replay_report::made::Made;
use replay_report::replay::RunLine;
use std::alloc::Global;

// A trace that has begun, and has not ended.
#[derive(Drop)]
struct Trace {
    endpoint: Endpoint,
    made: Made,
}

impl Trace {
    // The trace of a new link.
    fn new(alloc: Global, link: NewLink) -> Result<Trace, StepError> {
        Ok(Trace {
            endpoint: Endpoint::new(alloc, link)?,
            made: Made::new(alloc),
        })
    }

    // How a fact differs from what was seen.
    fn difference(&mut self, fact: &Fact) -> Option<Difference> {
        let made = &mut self.made;
        match fact {
            Fact::Attach(attach) => made.state_attach(attach),
            Fact::Flow(flow) => made.state_flow(flow),
            Fact::Detach(detach) => made.state_detach(detach),
            Fact::Delivery(sent) => made.state_sent(sent),
            Fact::Disposition(disposed) => made.state_disposed(disposed),
            Fact::Got(delivery) => made.state_handed_out(delivery),
            Fact::Outcome(tag, state) => made.state_outcome(tag, *state),
            Fact::Credit(credit) => number_difference(
                u64::from(*credit),
                u64::from(self.endpoint.credit()),
            ),
            Fact::Unsettled(count) => number_difference(*count, self.endpoint.unsettled_len()),
            Fact::Records(count) => number_difference(*count, self.endpoint.records()),
        }
    }

    // A flow of the sender's, or that it has no credit, states that it has given back what it was to use up, if it was.
    fn state(&mut self, fact: &Fact) -> Result<Answer, StepError> {
        if matches!(fact, Fact::Flow(_) | Fact::Credit(0)) {
            self.endpoint.give_back(&mut self.made)?;
        }
        Ok(answer_of(self.difference(fact)))
    }

    // Runs a row that neither begins nor ends a trace.
    fn step(&mut self, row: Row) -> Result<Answer, StepError> {
        match row {
            Row::In(frame) => self.endpoint.take(&mut self.made, frame),
            Row::Do(call) => self.endpoint.call(&mut self.made, call),
            Row::States(fact) => self.state(&fact),
            other => {
                drop(other);
                Ok(Answer::Taken)
            }
        }
    }

    // Ends the trace.
    fn end(self) -> Answer {
        let left = self.made.left_word();
        drop(self);
        Answer::Ended(left)
    }
}

/// The trace that is under way, if one is.
#[derive(Drop)]
pub struct Traces {
    alloc: Global,
    open: Option<Trace>,
}

impl Traces {
    /// None has begun.
    pub fn new(alloc: Global) -> Traces {
        Traces { alloc, open: None }
    }

    /// Drops the trace that is under way, if one is. Who calls this need not prove that drop once more.
    pub fn finish(self) {
        drop(self);
    }

    // Runs a row. Refused with `NoLink` if it is a link while one is open, or another row while none is; with `OtherRole` if it
    // is a call of the other role; with `OutOfMemory`.
    fn run(&mut self, row: Row) -> Result<Answer, StepError> {
        match row {
            Row::Note => Ok(Answer::Taken),
            Row::Link(link) => self.begin(link),
            Row::End => match self.open.take() {
                Some(trace) => Ok(trace.end()),
                None => Err(StepError::NoLink),
            },
            other => match &mut self.open {
                Some(trace) => trace.step(other),
                None => {
                    drop(other);
                    Err(StepError::NoLink)
                }
            },
        }
    }

    fn begin(&mut self, link: NewLink) -> Result<Answer, StepError> {
        if self.open.is_some() {
            drop(link);
            return Err(StepError::NoLink);
        }
        self.open = Some(Trace::new(self.alloc, link)?);
        Ok(Answer::Begun)
    }
}

// What a row makes an endpoint do is stated by the calls of its link, and here by nothing more.
impl RunLine for Traces {
    ghost comes_to = { λ _ _ _ _. Unit {0} };

    ghost stops_at = { λ _ _ _. Unit {0} };

    /// Runs a line as a row. It is not run with `NotARow` if it is none; with `NoLink` if it is a link while one is open, or
    /// another row while none is; with `OtherRole` if it is a call of the other role; with `OutOfMemory`.
    fn run_line(&mut self, line: &[u8]) -> Result<(&'static str, Answer), StepError> {
        let row = read_row(self.alloc, line)?;
        let word = row.word();
        Ok((word, self.run(row)?))
    }
}
