//! Errors and the states of deliveries, as a row gives them.
use crate::error::RowError;
use crate::fields::{FieldReader, if_read};
use crate::reader::{ReadFrom, Reader};
use amqp_link_types::types::{DeliveryState, Error, Outcome};

impl ReadFrom for Error {
    fn read(reader: &mut Reader) -> Result<Error, RowError> {
        let mut fields = FieldReader::new(reader, b"error")?;
        let error = Error {
            condition: fields.required()?,
            description: fields.optional(),
            info: fields.optional(),
        };
        if_read(error, fields.end())
    }
}

impl ReadFrom for Outcome {
    fn read(reader: &mut Reader) -> Result<Outcome, RowError> {
        if reader.is_at(b"rejected") {
            return read_rejected(reader);
        }
        if reader.is_at(b"modified") {
            return read_modified(reader);
        }
        if reader.is_at(b"accepted") {
            FieldReader::new(reader, b"accepted")?.end()?;
            return Ok(Outcome::Accepted);
        }
        FieldReader::new(reader, b"released")?.end()?;
        Ok(Outcome::Released)
    }
}

impl ReadFrom for DeliveryState {
    fn read(reader: &mut Reader) -> Result<DeliveryState, RowError> {
        if reader.is_at(b"received") {
            return read_received(reader);
        }
        Ok(DeliveryState::from(Outcome::read(reader)?))
    }
}

fn read_rejected(reader: &mut Reader) -> Result<Outcome, RowError> {
    let mut fields = FieldReader::new(reader, b"rejected")?;
    let error = fields.optional();
    if_read(Outcome::Rejected { error }, fields.end())
}

fn read_modified(reader: &mut Reader) -> Result<Outcome, RowError> {
    let mut fields = FieldReader::new(reader, b"modified")?;
    let modified = Outcome::Modified {
        delivery_failed: fields.optional(),
        undeliverable_here: fields.optional(),
        message_annotations: fields.optional(),
    };
    if_read(modified, fields.end())
}

fn read_received(reader: &mut Reader) -> Result<DeliveryState, RowError> {
    let mut fields = FieldReader::new(reader, b"received")?;
    let received = DeliveryState::Received {
        section_number: fields.required()?,
        section_offset: fields.required()?,
    };
    if_read(received, fields.end())
}
