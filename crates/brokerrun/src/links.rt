//! The broker and its links.
use amqp_link::types::{Source, Target, Text};
use amqp_link::{Inbox, LinkParts, OutcomeLedger, SenderLink};
use amqp_link_uses::broker::{Broker, Incoming, Outgoing};
use program_support::{Refused, done};
use std::alloc::{AllocError, Global};

// How many messages the broker has room for.
const ROOM: u32 = 3;

/// How many links it has in each direction.
const LINKS: usize = 2;

/// The name of a link, which both endpoints state.
pub fn name_of(alloc: Global, direction: &str, link: usize) -> Result<Text, AllocError> {
    Ok(Text::from(format!(in alloc; "{direction} {link}")?))
}

fn parts_of(alloc: Global, direction: &str, link: usize) -> Result<LinkParts<Target>, AllocError> {
    let name = name_of(alloc, direction, link)?;
    let (source, target) = (Source::default(), Target::default());
    Ok(LinkParts::new(name, Some(source), Some(target), 512))
}

fn new_outgoing(alloc: Global, link: usize) -> Result<Outgoing, Refused> {
    let endpoint = SenderLink::new(alloc, parts_of(alloc, "outgoing", link)?);
    let ledger = done(OutcomeLedger::new(alloc, endpoint))?;
    Ok(Outgoing::new(alloc, ledger))
}

/// A broker of two incoming and two outgoing links, none of which is attached.
pub fn new_broker(alloc: Global) -> Result<Broker, Refused> {
    let mut broker = Broker::new(alloc, ROOM);
    for link in 0..LINKS {
        let inbox = Inbox::new(alloc, parts_of(alloc, "incoming", link)?);
        broker.incoming.push(Incoming::new(alloc, inbox))?;
        broker.outgoing.push(new_outgoing(alloc, link)?)?;
    }
    Ok(broker)
}
