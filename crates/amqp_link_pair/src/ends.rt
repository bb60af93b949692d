//! Both endpoints of a pair, and how far they are attached.
ghost use Rattle.std.specs.Prelude.{◌≡◌, IfOk};
ghost use Rattle.amqp_link_worlds.specs.Steps.{new_world};
ghost use Rattle.amqp_link_worlds.specs.Steps;
ghost use Rattle.amqp_link_worlds.specs.Worlds.{is_together};
ghost use Rattle.amqp_link_pair.specs.Endpoints.{new_ends, phase_of, plain_parts};

mod attaching;
mod calling;

use amqp_link_endpoint::endpoint::LinkExt;
use amqp_link_endpoint::link_parts::LinkParts;
use amqp_link_ledger::ledger::OutcomeLedger;
use amqp_link_receiver::receiver_link::ReceiverLink;
use amqp_link_sender::sender_link::SenderLink;
use amqp_link_types::types::{Attach, OutputHandle, SequenceNo, Source, Target, Text};
use std::alloc::{AllocError, Global};

/// How far the endpoints are attached.
#[derive(Clone, Copy, Debug, PartialEq, Eq)]
pub(crate) enum Stage {
    /// Nothing was sent, or they were detached.
    Apart,
    /// The sender's attach is on its way.
    Asked,
    /// The receiver has taken it.
    Taken,
    /// The receiver's attach is on its way.
    Answered,
    /// Both are attached.
    Together,
}

/// Both endpoints of a link.
#[derive(Drop)]
pub(crate) struct Ends {
    /// How far they are attached.
    pub stage: Stage,
    /// The frame limit in bytes, of the present attachment or of the one under way.
    pub limit: u32,
    /// The attach on its way.
    pub attach: Option<Attach>,
    /// The sender, with the fates of its registrations.
    pub ledger: OutcomeLedger<Target>,
    /// The receiver.
    pub receiver: ReceiverLink<Target>,
}

// What an endpoint is made with: the link "l", with this count and without credit.
fn parts(alloc: Global, count: SequenceNo) -> Result<LinkParts<Target>, AllocError>
    ensures { IfOk result (λ parts. parts ≡ plain_parts count) }
{
    let name = Text::from(String::from_str(alloc, "l")?);
    let mut parts = LinkParts::new(name, Some(Source::default()), Some(Target::default()), 0);
    parts.flow_state.initial_delivery_count = count;
    parts.flow_state.delivery_count = count;
    Ok(parts)
}

// The sender at handle 0, without deliveries.
fn new_ledger(alloc: Global, count: SequenceNo) -> Result<OutcomeLedger<Target>, AllocError>
    ensures { IfOk result (λ ledger. ledger ≡ (new_world count).ledger) }
{
    let link = SenderLink::new(alloc, parts(alloc, count)?).with_output_handle(OutputHandle(0));
    match OutcomeLedger::new(alloc, link) {
        Ok(ledger) => Ok(ledger),
        Err(link) => {
            drop(link);
            Err(AllocError)
        }
    }
}

impl Ends {
    /// Two endpoints that are not attached, both with this delivery-count and no credit.
    pub(crate) fn new(alloc: Global, count: SequenceNo) -> Result<Ends, AllocError>
        ensures { IfOk result (λ ends. ends ≡ new_ends count) }
    {
        let ledger = new_ledger(alloc, count)?;
        match parts(alloc, count) {
            Ok(parts) => Ok(Ends {
                stage: Stage::Apart,
                limit: 0,
                attach: None,
                ledger,
                receiver: ReceiverLink::new(alloc, parts).with_output_handle(OutputHandle(0)),
            }),
            Err(refused) => {
                drop(ledger);
                Err(refused)
            }
        }
    }

    /// The endpoints apart, the sender without the fates of its registrations.
    pub(crate) fn into_links(self) -> (SenderLink<Target>, ReceiverLink<Target>)
        ensures sender { result.0 ≡ self.ledger.link }
        ensures receiver { result.1 ≡ self.receiver }
    {
        let Ends {
            attach,
            ledger,
            receiver,
            ..
        } = self;
        drop(attach);
        (ledger.into_link(), receiver)
    }

    /// Whether both are attached.
    pub(crate) fn are_together(&self) -> bool
        ensures { result ≡ is_together (phase_of self.now.stage self.now.limit) }
    {
        matches!(self.stage, Stage::Together)
    }

    /// Whether neither has begun to attach since they were made or lost their session.
    pub(crate) fn are_apart(&self) -> bool
        ensures { result ≡ Steps.is_apart (phase_of self.now.stage self.now.limit) }
    {
        matches!(self.stage, Stage::Apart)
    }

    /// Whether the attaches of both endpoints with all their deliveries fit a frame at this limit.
    pub(crate) fn attaches_fit(&self, limit: u32) -> Result<bool, AllocError>
        ensures { IfOk result (λ fit. fit ≡ Steps.attaches_fit self.now.ledger.link self.now.receiver limit) }
    {
        let link = self.ledger.link();
        let count = link.flow_state().delivery_count();
        let asked = link.complete_attach_fits(limit, count)?;
        let answered = self.receiver.complete_attach_fits(limit, count)?;
        Ok(asked && answered)
    }
}
