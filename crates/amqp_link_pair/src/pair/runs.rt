//! Lists of calls, and what holds after any of them.
ghost use Rattle.std.specs.Prelude.{◌≡◌};
ghost use Rattle.amqp_link_payloads.specs.Bodies.{whole_message};
ghost use Rattle.amqp_link_ledger.specs.Fates.{MovesOnce};
ghost use Rattle.amqp_link_worlds.specs.Invariants.{IsWorld};
ghost use Rattle.amqp_link_worlds.specs.PairRuns.{FatesMoveOnce, HoldsWhatArrived, HoldsWhatWasSent, RunsEvents, Step};
ghost use Rattle.amqp_link_worlds.specs.PairRuns;
ghost use Rattle.amqp_link_worlds.specs.Worlds.{Good};
ghost use Rattle.amqp_link_pair.specs.Aborting.{arrival_answer, resumption_answer};
ghost use Rattle.amqp_link_worlds.specs.declared.event.Event.TheVariants as event;

use crate::pair::{Arrived, OrAborted, Pair, Resumed};
use amqp_link_types::types::{DeliveryNumber, DeliveryTag, Payload, Whole};
use amqp_link_worlds::error::PairError;
use amqp_link_worlds::event::{Answer, Event};
use std::alloc::Global;

#[tactic(auto, using(crate::proofs::StepLemmas::good_world))]
impl Pair {
    /// Makes these calls in order. Returns the answer of each, and whether all were made.
    ///
    /// Room for an answer is made before its call. The run stops, and returns false, before a call for whose
    /// answer there is no room, and after a call that is out of memory, whose refusal is then the last
    /// answer. Any other refused call leaves what its own contract says, and the next call is made. To
    /// continue a run that has stopped, run the events from the one that was out of memory, or from the first
    /// without an answer.
    ///
    /// After any list of sends, grants, arrivals, cuts and new attachments, for each delivery whose latest
    /// registration is pending or handed out: its payload is what the last send of its tag in the list gives,
    /// otherwise the one with which it was registered before (`sent`); the receiver holds exactly the bytes
    /// that arrived over all attachments (`arrived`), which are a front of that payload (`sent`); the position
    /// that the receiver reports gives the sender exactly the rest, and the last transfer completes the
    /// payload (both `good`): once it has arrived, the receiver holds exactly what was sent (`sent`). And each
    /// registration is pending, withdrawn, handed out, or resolved once (`fates`, and `made` for those that the
    /// run itself makes).
    ///
    /// Its cost is that of the single calls.
    pub fn run(&mut self, events: &[Event]) -> (Vec<Result<Answer, PairError>>, bool)
        ensures run { RunsEvents whole_message self.old events.now result.0.items result.1 self.new }
        ensures arrived { (run : RunsEvents whole_message self.old events.now result.0.items result.1 self.new)
            → HoldsWhatArrived whole_message self.old run.moments self.new }
        ensures sent { (run : RunsEvents whole_message self.old events.now result.0.items result.1 self.new)
            → HoldsWhatWasSent whole_message self.old run.moments self.new }
        ensures fates { MovesOnce self.old.ledger.records self.new.ledger.records }
        ensures made { (run : RunsEvents whole_message self.old events.now result.0.items result.1 self.new)
            → FatesMoveOnce whole_message run.moments self.new }
        ensures good { Good self.new }
        ensures kept { IsWorld self.new }
    {
        let mut answers = Vec::new(self.global());
        for event in events {
            if answers.reserve(1).is_err() {
                return (answers, false);
            }
            let answer = self.answer_to(event);
            let stops = is_answer_out_of_memory(&answer);
            answers.push_reserved(answer);
            if stops {
                return (answers, false);
            }
        }
        (answers, true)
    }

    // The allocator of the answers.
    fn global(&self) -> Global
        ensures { IsWorld self.now }
    {
        self.alloc
    }

    // Makes one call.
    fn answer_to(&mut self, event: &Event) -> Result<Answer, PairError>
        ensures step { Step whole_message self.old event.now result self.new }
        ensures kept { IsWorld self.new }
    {
        match event {
            Event::Attach(limit) => self.answer_attach(*limit),
            Event::Grant(credit) => self.answer_grant(*credit),
            Event::Send(payload) => self.answer_send(payload),
            Event::Arrive(id) => self.answer_arrive(*id),
            Event::Cut => self.answer_cut(),
            Event::ResumeNext => self.answer_resume_next(),
            Event::PutBackNext => self.answer_put_back_next(),
            Event::HandOut(tag) => self.answer_hand_out(tag),
            Event::Settle(tag) => self.answer_settle(tag),
            Event::Withdraw(tag) => self.answer_withdraw(tag),
        }
    }

    fn answer_attach(&mut self, limit: u32) -> Result<Answer, PairError>
        ensures step { Step whole_message self.old (event.Attach limit) result self.new }
        ensures kept { IsWorld self.new }
    {
        Ok(Answer::Attached(self.attach(limit)?))
    }

    fn answer_grant(&mut self, credit: u32) -> Result<Answer, PairError>
        ensures step { Step whole_message self.old (event.Grant credit) result self.new }
        ensures kept { IsWorld self.new }
    {
        Ok(Answer::Granted(self.grant(credit)?))
    }

    fn answer_send(&mut self, payload: &Payload) -> Result<Answer, PairError>
        ensures step { Step whole_message self.old (event.Send payload.now) result self.new }
        ensures kept { IsWorld self.new }
    {
        let sent = self.send(payload)?;
        Ok(Answer::Sent {
            tag: sent.tag,
            frames: sent.frames,
        })
    }

    fn answer_arrive(&mut self, id: DeliveryNumber) -> Result<Answer, PairError>
        ensures step { Step whole_message self.old (event.Arrive id) result self.new }
        ensures kept { IsWorld self.new }
    {
        Ok(answer_of_arrival(self.arrive(id)?))
    }

    fn answer_cut(&mut self) -> Result<Answer, PairError>
        ensures step { Step whole_message self.old event.Cut result self.new }
        ensures kept { IsWorld self.new }
    {
        self.cut()?;
        Ok(Answer::Cut)
    }

    fn answer_resume_next(&mut self) -> Result<Answer, PairError>
        ensures step { Step whole_message self.old event.ResumeNext result self.new }
        ensures kept { IsWorld self.new }
    {
        Ok(answer_of_resumption(self.resume_next()?))
    }

    fn answer_put_back_next(&mut self) -> Result<Answer, PairError>
        ensures step { Step whole_message self.old event.PutBackNext result self.new }
        ensures kept { IsWorld self.new }
    {
        Ok(Answer::PutBack(self.put_back_next()?))
    }

    fn answer_hand_out(&mut self, tag: &DeliveryTag) -> Result<Answer, PairError>
        ensures step { Step whole_message self.old (event.HandOut tag.now) result self.new }
        ensures kept { IsWorld self.new }
    {
        Ok(Answer::HandedOut(self.hand_out::<Whole>(tag)?))
    }

    fn answer_settle(&mut self, tag: &DeliveryTag) -> Result<Answer, PairError>
        ensures step { Step whole_message self.old (event.Settle tag.now) result self.new }
        ensures kept { IsWorld self.new }
    {
        self.settle(tag)?;
        Ok(Answer::Settled)
    }

    fn answer_withdraw(&mut self, tag: &DeliveryTag) -> Result<Answer, PairError>
        ensures step { Step whole_message self.old (event.Withdraw tag.now) result self.new }
        ensures kept { IsWorld self.new }
    {
        self.withdraw(tag)?;
        Ok(Answer::Withdrawn)
    }
}

// The answer that states what an arrival returned.
fn answer_of_arrival(came: OrAborted<Arrived>) -> Answer
    ensures { result ≡ arrival_answer came }
{
    match came {
        OrAborted::Answer(arrived) => Answer::Arrived {
            tag: arrived.tag,
            section_number: arrived.section_number,
            section_offset: arrived.section_offset,
            whole: arrived.whole,
        },
        OrAborted::Aborted(tag) => Answer::Aborted(tag),
    }
}

// The answer that states what a resumption returned.
fn answer_of_resumption(resumed: OrAborted<Resumed>) -> Answer
    ensures { result ≡ resumption_answer resumed }
{
    match resumed {
        OrAborted::Answer(resumed) => Answer::Resumed {
            tag: resumed.tag,
            frames: resumed.frames,
            resume: resumed.resume,
        },
        OrAborted::Aborted(tag) => Answer::Aborted(tag),
    }
}

// Whether a call was out of memory.
fn is_answer_out_of_memory(answer: &Result<Answer, PairError>) -> bool
    ensures { result ≡ PairRuns.is_answer_out_of_memory answer.now }
{
    match answer {
        Ok(_) => false,
        Err(error) => matches!(error, PairError::OutOfMemory),
    }
}
