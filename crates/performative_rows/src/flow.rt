//! Flows, dispositions and detaches, as a row gives them.
use crate::error::RowError;
use crate::fields::{FieldReader, if_read};
use crate::reader::{ReadFrom, Reader};
use amqp_link_types::types::{Detach, Disposition, LinkFlow};

// A flow begins with the windows of its session: next-incoming-id, incoming-window, next-outgoing-id and outgoing-window
// (2.7.4). A link's flow does not have them.
fn skip_windows(fields: &mut FieldReader) -> Result<(), RowError> {
    let _next_incoming_id: Option<u32> = fields.optional();
    let _incoming_window: u32 = fields.required()?;
    let _next_outgoing_id: u32 = fields.required()?;
    let _outgoing_window: u32 = fields.required()?;
    Ok(())
}

impl ReadFrom for LinkFlow {
    // A flow without a handle is the session's alone, and no flow of a link.
    fn read(reader: &mut Reader) -> Result<LinkFlow, RowError> {
        let mut fields = FieldReader::new(reader, b"flow")?;
        skip_windows(&mut fields)?;
        let flow = LinkFlow {
            handle: fields.required()?,
            delivery_count: fields.optional(),
            link_credit: fields.optional(),
            available: fields.optional(),
            drain: fields.or_default(),
            echo: fields.or_default(),
            properties: fields.optional(),
        };
        if_read(flow, fields.end())
    }
}

impl ReadFrom for Disposition {
    fn read(reader: &mut Reader) -> Result<Disposition, RowError> {
        let mut fields = FieldReader::new(reader, b"disposition")?;
        let disposition = Disposition {
            role: fields.required()?,
            first: fields.required()?,
            last: fields.optional(),
            settled: fields.or_default(),
            state: fields.optional(),
            batchable: fields.or_default(),
        };
        if_read(disposition, fields.end())
    }
}

impl ReadFrom for Detach {
    fn read(reader: &mut Reader) -> Result<Detach, RowError> {
        let mut fields = FieldReader::new(reader, b"detach")?;
        let detach = Detach {
            handle: fields.required()?,
            closed: fields.or_default(),
            error: fields.optional(),
        };
        if_read(detach, fields.end())
    }
}
