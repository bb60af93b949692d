//! How a line is read as a row.
use crate::row::{Call, DisposedOne, Fact, HandedOut, NewLink, Row, Sent, StateName};
use crate::words::{read_number, read_payload, read_tag};
use amqp_link_types::frame::{LinkFrame, LinkTransfer};
use amqp_link_types::types::{
    Attach, Boxed, DeliveryNumber, DeliveryState, Detach, Disposition, InputHandle, LinkFlow,
    OutputHandle, Role, Transfer,
};
use performative_rows::error::RowError;
use performative_rows::fields::if_read;
use performative_rows::reader::{ReadFrom, Reader, value_of};
use std::alloc::Global;

/// The row of a line; or that the line is no row, or that it is out of memory.
pub fn read_row(alloc: Global, line: &[u8]) -> Result<Row, RowError> {
    let mut reader = Reader::new(alloc, line);
    if reader.is_at(b"note") {
        return Ok(Row::Note);
    }
    let row = Row::read(&mut reader)?;
    if_read(row, reader.end())
}

// ---- the first word of a row

// What a row begins with.
#[derive(Clone, Copy)]
enum Head {
    Link,
    In,
    Do,
    Out,
    Got,
    Outcome,
    Credit,
    Unsettled,
    Records,
    End,
}

const HEADS: &[(&str, Head)] = &[
    ("link", Head::Link),
    ("in", Head::In),
    ("do", Head::Do),
    ("out", Head::Out),
    ("got", Head::Got),
    ("outcome", Head::Outcome),
    ("credit", Head::Credit),
    ("unsettled", Head::Unsettled),
    ("records", Head::Records),
    ("end", Head::End),
];

impl ReadFrom for Row {
    fn read(reader: &mut Reader) -> Result<Row, RowError> {
        let row = match value_of(HEADS, reader.word()?)? {
            Head::Link => Row::Link(NewLink::read(reader)?),
            Head::In => Row::In(read_frame(reader)?),
            Head::Do => Row::Do(Call::read(reader)?),
            Head::Out => Row::States(read_made(reader)?),
            Head::Got => Row::States(Fact::Got(HandedOut::read(reader)?)),
            Head::Outcome => Row::States(read_outcome(reader)?),
            Head::Credit => Row::States(Fact::Credit(read_number(reader)?)),
            Head::Unsettled => Row::States(Fact::Unsettled(reader.unsigned()?)),
            Head::Records => Row::States(Fact::Records(reader.unsigned()?)),
            Head::End => Row::End,
        };
        Ok(row)
    }
}

// ---- links, frames and calls

const ROLES: &[(&str, Role)] = &[("sender", Role::Sender), ("receiver", Role::Receiver)];

impl ReadFrom for NewLink {
    fn read(reader: &mut Reader) -> Result<NewLink, RowError> {
        Ok(NewLink {
            role: value_of(ROLES, reader.word()?)?,
            max_frame_size: read_number(reader)?,
            attach: Attach::read(reader)?,
        })
    }
}

// The frames by the words of their performatives.
#[derive(Clone, Copy)]
enum Frame {
    Attach,
    Flow,
    Transfer,
    Disposition,
    Detach,
}

const FRAMES: &[(&str, Frame)] = &[
    ("attach", Frame::Attach),
    ("flow", Frame::Flow),
    ("transfer", Frame::Transfer),
    ("disposition", Frame::Disposition),
    ("detach", Frame::Detach),
];

// The frame whose performative the next words are. They are not read.
fn frame_ahead(reader: &Reader) -> Result<Frame, RowError> {
    let mut ahead = *reader;
    value_of(FRAMES, ahead.word()?)
}

fn read_frame(reader: &mut Reader) -> Result<LinkFrame, RowError> {
    let frame = match frame_ahead(reader)? {
        Frame::Attach => LinkFrame::Attach(Boxed::read(reader)?),
        Frame::Flow => LinkFrame::Flow(LinkFlow::read(reader)?),
        Frame::Transfer => LinkFrame::RemoteTransfer(read_transfer(reader)?),
        Frame::Disposition => LinkFrame::Disposition(Disposition::read(reader)?),
        Frame::Detach => LinkFrame::Detach(Detach::read(reader)?),
    };
    Ok(frame)
}

fn read_transfer(reader: &mut Reader) -> Result<LinkTransfer, RowError> {
    let performative = Transfer::read(reader)?;
    Ok(LinkTransfer {
        input_handle: InputHandle::from(performative.handle),
        performative,
        payload: read_payload(reader)?,
    })
}

// What a user may call.
#[derive(Clone, Copy)]
enum Verb {
    Attach,
    Send,
    Dispose,
    Flow,
    Detach,
}

const VERBS: &[(&str, Verb)] = &[
    ("attach", Verb::Attach),
    ("send", Verb::Send),
    ("dispose", Verb::Dispose),
    ("flow", Verb::Flow),
    ("detach", Verb::Detach),
];

impl ReadFrom for Call {
    fn read(reader: &mut Reader) -> Result<Call, RowError> {
        let call = match value_of(VERBS, reader.word()?)? {
            Verb::Attach => Call::Attach(OutputHandle(read_number(reader)?)),
            Verb::Send => Call::Send(read_number(reader)?, read_sent(reader)?),
            Verb::Dispose => read_dispose(reader)?,
            Verb::Flow => Call::Flow {
                credit: read_number(reader)?,
                drain: bool::read(reader)?,
                echo: bool::read(reader)?,
            },
            Verb::Detach => Call::Detach(bool::read(reader)?),
        };
        Ok(call)
    }
}

fn read_sent(reader: &mut Reader) -> Result<Sent, RowError> {
    Ok(Sent {
        tag: read_tag(reader)?,
        format: Some(read_number(reader)?),
        settled: bool::read(reader)?,
        payload: read_payload(reader)?,
    })
}

// A sender names the delivery first, a receiver the state.
fn read_dispose(reader: &mut Reader) -> Result<Call, RowError> {
    let settled = bool::read(reader)?;
    let mut ahead = *reader;
    if ahead.unsigned().is_ok() {
        return read_dispose_sent(reader, settled);
    }
    Ok(Call::DisposeReceived {
        settled,
        state: DeliveryState::read(reader)?,
        ids: read_ids(reader)?,
    })
}

fn read_dispose_sent(reader: &mut Reader, settled: bool) -> Result<Call, RowError> {
    let id = read_number(reader)?;
    let tag = read_tag(reader)?;
    let state = Some(DeliveryState::read(reader)?);
    Ok(Call::DisposeSent(tag, DisposedOne { id, settled, state }))
}

// The ids up to the end of the line, of which there is one at least.
fn read_ids(reader: &mut Reader) -> Result<Vec<DeliveryNumber>, RowError> {
    let mut ids = Vec::new(reader.alloc());
    for _ in 0..u64::MAX {
        ids.push(read_number(reader)?)?;
        if reader.end().is_ok() {
            return Ok(ids);
        }
    }
    drop(ids);
    Err(RowError::NotARow)
}

// ---- facts

fn read_made(reader: &mut Reader) -> Result<Fact, RowError> {
    if reader.is_at(b"delivery") {
        return read_delivery(reader);
    }
    let fact = match frame_ahead(reader)? {
        Frame::Attach => Fact::Attach(Attach::read(reader)?),
        Frame::Flow => Fact::Flow(LinkFlow::read(reader)?),
        Frame::Detach => Fact::Detach(Detach::read(reader)?),
        Frame::Disposition => read_disposed_one(reader)?,
        Frame::Transfer => return Err(RowError::NotARow),
    };
    Ok(fact)
}

fn read_delivery(reader: &mut Reader) -> Result<Fact, RowError> {
    reader.expect(b"delivery")?;
    Ok(Fact::Delivery(Sent {
        tag: read_tag(reader)?,
        settled: bool::read(reader)?,
        format: reader.optional()?,
        payload: read_payload(reader)?,
    }))
}

fn read_disposed_one(reader: &mut Reader) -> Result<Fact, RowError> {
    reader.expect(b"disposition")?;
    Ok(Fact::Disposition(DisposedOne {
        id: read_number(reader)?,
        settled: bool::read(reader)?,
        state: reader.optional()?,
    }))
}

impl ReadFrom for HandedOut {
    fn read(reader: &mut Reader) -> Result<HandedOut, RowError> {
        Ok(HandedOut {
            id: read_number(reader)?,
            tag: read_tag(reader)?,
            settled: bool::read(reader)?,
            payload: read_payload(reader)?,
        })
    }
}

const STATES: &[(&str, StateName)] = &[
    ("accepted", StateName::Accepted),
    ("rejected", StateName::Rejected),
    ("released", StateName::Released),
    ("modified", StateName::Modified),
    ("received", StateName::Received),
];

// The name of the state is followed by its fields, or by a star in their place.
fn read_outcome(reader: &mut Reader) -> Result<Fact, RowError> {
    let tag = read_tag(reader)?;
    Ok(Fact::Outcome(tag, read_state_name(reader)?))
}

fn read_state_name(reader: &mut Reader) -> Result<StateName, RowError> {
    let mut ahead = *reader;
    let name = value_of(STATES, ahead.word()?)?;
    if ahead.is_at(b"*") {
        ahead.expect(b"*")?;
        *reader = ahead;
        return Ok(name);
    }
    drop(DeliveryState::read(reader)?);
    Ok(name)
}
