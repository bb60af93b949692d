//! An outgoing link of a broker that is attached again (2.6.13).
ghost use Rattle.std.specs.Prelude.{◌≡◌, ◌↔◌, ◌⊎◌, [], Err, IfErr, IfOk, IsSomeAnd, None, OnErr, OnOk, Some, false, true, slice_get, if◌then◌else◌};
ghost use Rattle.amqp_link.specs.AttachSent.{SendsAttach};
ghost use Rattle.amqp_link.specs.SenderAttaches.{sender_left, sender_refusal, sender_shown};
ghost use Rattle.amqp_link.specs.Unsettled.{states_of};
ghost use Rattle.amqp_link.specs.Targets.{plain_target};
ghost use Rattle.amqp_link.specs.Termini.{sender_refuses_target};
ghost use Rattle.amqp_link.specs.declared.state.LinkState.{LinkState as TheState};
ghost use Rattle.amqp_link.specs.declared.types.TargetArchetype.TheVariants.{Target as TheTarget};
ghost use Rattle.amqp_link_uses.specs.Brokers;
ghost use Rattle.amqp_link_uses.specs.Brokers.{Resumes, StepsBy, StopsNext, attached_by, attaching, is_resuming, with_outgoing};

use crate::broker::outgoing::{Outgoing, take_next_on};
use crate::broker::{AttachError, Broker, Origin, SendError};
use crate::relay::{Reattached, take_attach};
use amqp_link::errors::{LinkStateError, SenderAttachError};
use amqp_link::resumption::{Left, ResumingDelivery, Step, put_back_one, resume_one};
use amqp_link::types::Attach;
use amqp_link::{LinkAttach, LinkFrame};
use std::alloc::Global;
use std::collections::VecDeque;

/// What was done of the first delivery that an exchange has ended or left.
#[derive(Debug, Drop)]
pub enum Resumed {
    /// It is sent again: its transfers, to be sent in this order.
    Sent(Vec<LinkFrame>),
    /// It was given up: the transfer to send, by which the peer forgets it, and where its message came from, if it was under way
    /// here: it is released there.
    Aborted(LinkFrame, Option<Origin>),
    /// It has an outcome: where its message came from, if it was under way here.
    Ended(Option<Origin>),
    /// It is left to the next attach: nothing is to be sent.
    PutBack,
    /// Nothing is left.
    Nothing,
}

// Whether a delivery is put back although the others are sent: it is listed whole by an exchange that did not state all, so
// that its peer may have a part of it.
fn is_kept_back(is_incomplete: bool, next: &ResumingDelivery) -> bool
    ensures { result ≡ Brokers.is_kept_back is_incomplete next.now }
{
    is_incomplete && matches!(next, ResumingDelivery::Resend(_))
}

impl Outgoing {
    // Takes the peer's attach: what has ended is to return, and what is to be sent again is left.
    fn take_attach(&mut self, alloc: Global, theirs: Attach) -> Result<(), SenderAttachError>
        ensures after { OnOk result (self.new ≡ attached_by theirs self.old) }
        ensures refused { IfErr result (λ error. (error ≡ SenderAttachError.OutOfMemory)
            ⊎ (sender_refusal plain_target (λ own theirs. sender_refuses_target theirs) self.old.ledger.link theirs ≡ Some error)) }
        ensures left { IfErr result (λ error. self.new ≡ record self.old {
          ledger = record self.old.ledger {
            link = sender_left plain_target (λ own theirs. sender_refuses_target theirs) error self.old.ledger.link theirs;
          };
        }) }
    {
        match take_attach(alloc, &mut self.ledger, theirs) {
            Ok(
                Reattached {
                    resuming,
                    outcomes,
                    is_incomplete,
                },
            ) => {
                self.ended = VecDeque::from_vec(outcomes);
                self.resuming = VecDeque::from_vec(resuming);
                self.is_incomplete = is_incomplete;
                Ok(())
            }
            Err(error) => Err(error),
        }
    }

    // Takes what comes first of what the exchange has ended or left: sends it, or keeps it for the next attach.
    pub(super) fn take_next(&mut self, is_sent: bool) -> Result<Step, LinkStateError>
        ensures step { IfOk result (λ step. StepsBy is_sent self.old step self.new) }
        ensures refused { IfErr result (λ why. StopsNext is_sent why self.old) }
        ensures left { OnErr result (self.new ≡ self.old) }
    {
        if let Some((tag, outcome)) = self.ended.pop_front() {
            return Ok(Step::Ended(tag, outcome));
        }
        let Some((tag, next)) = self.resuming.pop_front() else {
            return Ok(Step::Nothing);
        };
        let done = if is_sent && !is_kept_back(self.is_incomplete, &next) {
            resume_one(&mut self.ledger, tag, next)
        } else {
            put_back_one(&mut self.ledger, tag, next)
        };
        match done {
            Ok(step) => Ok(step),
            Err(Left { refused, tag, next }) => {
                self.resuming.push_front_reserved((tag, next));
                Err(refused)
            }
        }
    }
}

impl Broker {
    /// The attach to send on an outgoing link, as `send_attach` of its ledger makes it. The outcomes of a link that is reattached
    /// are left to `resume_next`: they release their messages.
    ///
    /// Refused in this order, with nothing changed: `NoSuchLink`; `StillResuming` while something of the exchange before is left,
    /// which this attach would not state: put it back; and as the ledger's call is.
    pub fn send_attach(
        &mut self,
        link: usize,
        is_reattaching: bool,
    ) -> Result<LinkFrame, AttachError>
        ensures sent { IfOk result (λ frame. IsSomeAnd (slice_get self.old.outgoing link) (λ o. (next : TheState)
            × SendsAttach (sender_shown TheTarget o.ledger.link)
            (if is_reattaching then [] else states_of o.ledger.link.unsettled) frame next
            × (self.new ≡ with_outgoing link (attaching is_reattaching next o) self.old))) }
        ensures no_such_link { result ≡ Err AttachError.NoSuchLink ↔ (slice_get self.old.outgoing link ≡ None) }
        ensures still { result ≡ Err AttachError.StillResuming
            ↔ IsSomeAnd (slice_get self.old.outgoing link) (λ o. is_resuming o ≡ true) }
        ensures left { OnErr result (self.new ≡ self.old) }
    {
        let Some(outgoing) = self.outgoing.get_mut(link) else {
            return Err(AttachError::NoSuchLink);
        };
        if outgoing.is_resuming() {
            return Err(AttachError::StillResuming);
        }
        match outgoing.ledger.send_attach(is_reattaching) {
            Ok((frame, outcomes)) => {
                outgoing.ended = VecDeque::from_vec(outcomes);
                Ok(frame)
            }
            Err(error) => Err(AttachError::Link(error)),
        }
    }

    /// Takes the attach of an outgoing link's peer, as `on_incoming_attach` of its ledger does. What the exchange has ended or left
    /// is then for `resume_next`, call by call, and stays under way until then. If the exchange did not state all deliveries
    /// (`Outgoing::is_incomplete`), those that are listed to be sent whole are put back by that: detach and attach again
    /// afterwards (`relay::detach_to_attach_again`).
    ///
    /// Refused in this order: `NoSuchLink`; `StillResuming`; both with nothing changed. Then as the ledger's call is, with the link
    /// that it leaves.
    pub fn on_incoming_attach(&mut self, link: usize, theirs: Attach) -> Result<(), AttachError>
        ensures after { OnOk result (IsSomeAnd (slice_get self.old.outgoing link) (λ o.
            self.new ≡ with_outgoing link (attached_by theirs o) self.old)) }
        ensures no_such_link { result ≡ Err AttachError.NoSuchLink ↔ (slice_get self.old.outgoing link ≡ None) }
        ensures still { result ≡ Err AttachError.StillResuming
            ↔ IsSomeAnd (slice_get self.old.outgoing link) (λ o. is_resuming o ≡ true) }
        ensures refused { (error : _) → result ≡ Err (AttachError.Link error)
            → IsSomeAnd (slice_get self.old.outgoing link) (λ o. (error ≡ SenderAttachError.OutOfMemory)
            ⊎ (sender_refusal plain_target (λ own theirs. sender_refuses_target theirs) o.ledger.link theirs ≡ Some error)) }
        ensures left { (error : _) → result ≡ Err (AttachError.Link error)
            → IsSomeAnd (slice_get self.old.outgoing link) (λ o. self.new ≡ with_outgoing link (record o {
              ledger = record o.ledger {
                link = sender_left plain_target (λ own theirs. sender_refuses_target theirs) error o.ledger.link theirs;
              };
            }) self.old) }
        ensures left_unasked { (result ≡ Err AttachError.NoSuchLink) ⊎ (result ≡ Err AttachError.StillResuming) → self.new ≡ self.old }
    {
        let Some(outgoing) = self.outgoing.get_mut(link) else {
            drop(theirs);
            return Err(AttachError::NoSuchLink);
        };
        if outgoing.is_resuming() {
            drop(theirs);
            return Err(AttachError::StillResuming);
        }
        match outgoing.take_attach(self.alloc, theirs) {
            Ok(()) => Ok(()),
            Err(error) => Err(AttachError::Link(error)),
        }
    }

    /// Does what comes next of what the last exchange of an outgoing link has ended or left: an outcome returns, or a delivery is
    /// sent again and stays under way, which takes no credit, or is given up and released. Call it until it answers `Nothing`.
    ///
    /// Refused in this order, with nothing changed: `NoSuchLink`; and as `resumption::resume_one` refuses it.
    pub fn resume_next(&mut self, link: usize) -> Result<Resumed, SendError>
        ensures { Resumes true link self.old result self.new }
    {
        self.do_next(link, true)
    }

    /// The same without sending anything, for a link whose session is lost again: a delivery that is left is put back, so that the
    /// next attach states it, and one that was given up is released. Call it until it answers `Nothing`, before `send_attach`.
    ///
    /// Refused in this order, with nothing changed: `NoSuchLink`; and as `resumption::put_back_one` refuses it.
    pub fn put_back_next(&mut self, link: usize) -> Result<Resumed, SendError>
        ensures { Resumes false link self.old result self.new }
    {
        self.do_next(link, false)
    }

    fn do_next(&mut self, link: usize, is_sent: bool) -> Result<Resumed, SendError>
        ensures { Resumes is_sent link self.old result self.new }
    {
        match take_next_on(&mut self.outgoing, link, is_sent) {
            Ok(Step::Sent(frames)) => Ok(Resumed::Sent(frames)),
            Ok(Step::Aborted(frame, tag)) => {
                let origin = self.return_outcome(link, &tag, Ok(None));
                drop(tag);
                Ok(Resumed::Aborted(frame, origin))
            }
            Ok(Step::Ended(tag, outcome)) => {
                let origin = self.return_outcome(link, &tag, outcome);
                drop(tag);
                Ok(Resumed::Ended(origin))
            }
            Ok(Step::PutBack) => Ok(Resumed::PutBack),
            Ok(Step::Nothing) => Ok(Resumed::Nothing),
            Err(error) => Err(error),
        }
    }
}
