//! Transfers and attaches, as a row gives them.
use crate::error::RowError;
use crate::fields::{FieldReader, if_read, none_before};
use crate::reader::{ReadFrom, Reader};
use crate::value::read_u8;
use amqp_link_types::types::{
    Attach, DeliveryState, DeliveryTag, Handle, ReceiverSettleMode, Role, SenderSettleMode,
    Transfer, UnsettledMap,
};

impl ReadFrom for Handle {
    fn read(reader: &mut Reader) -> Result<Handle, RowError> {
        Ok(Handle(u32::read(reader)?))
    }
}

impl ReadFrom for Role {
    fn read(reader: &mut Reader) -> Result<Role, RowError> {
        if bool::read(reader)? {
            Ok(Role::Receiver)
        } else {
            Ok(Role::Sender)
        }
    }
}

impl ReadFrom for SenderSettleMode {
    fn read(reader: &mut Reader) -> Result<SenderSettleMode, RowError> {
        reader.expect(b"ubyte")?;
        match read_u8(reader)? {
            0 => Ok(SenderSettleMode::Unsettled),
            1 => Ok(SenderSettleMode::Settled),
            2 => Ok(SenderSettleMode::Mixed),
            _ => Err(RowError::NotARow),
        }
    }
}

impl ReadFrom for ReceiverSettleMode {
    fn read(reader: &mut Reader) -> Result<ReceiverSettleMode, RowError> {
        reader.expect(b"ubyte")?;
        match read_u8(reader)? {
            0 => Ok(ReceiverSettleMode::First),
            1 => Ok(ReceiverSettleMode::Second),
            _ => Err(RowError::NotARow),
        }
    }
}

impl ReadFrom for UnsettledMap<Option<DeliveryState>> {
    // A tag that occurs twice is refused.
    fn read(reader: &mut Reader) -> Result<UnsettledMap<Option<DeliveryState>>, RowError> {
        reader.expect(b"map")?;
        let mut unsettled = UnsettledMap::new(reader.alloc());
        let read = read_entries(&mut unsettled, reader);
        if_read(unsettled, read)
    }
}

fn read_entries(
    unsettled: &mut UnsettledMap<Option<DeliveryState>>,
    reader: &mut Reader,
) -> Result<(), RowError> {
    for _ in 0..reader.unsigned()? {
        read_entry(unsettled, reader)?;
    }
    Ok(())
}

fn read_entry(
    unsettled: &mut UnsettledMap<Option<DeliveryState>>,
    reader: &mut Reader,
) -> Result<(), RowError> {
    let tag = DeliveryTag::read(reader)?;
    match reader.optional() {
        Ok(state) => none_before(unsettled.put(tag, state)?),
        Err(error) => {
            drop(tag);
            Err(error)
        }
    }
}

impl ReadFrom for Transfer {
    fn read(reader: &mut Reader) -> Result<Transfer, RowError> {
        let mut fields = FieldReader::new(reader, b"transfer")?;
        let transfer = Transfer {
            handle: fields.required()?,
            delivery_id: fields.optional(),
            delivery_tag: fields.optional(),
            message_format: fields.optional(),
            settled: fields.optional(),
            more: fields.or_default(),
            rcv_settle_mode: fields.optional(),
            state: fields.optional(),
            resume: fields.or_default(),
            aborted: fields.or_default(),
            batchable: fields.or_default(),
        };
        if_read(transfer, fields.end())
    }
}

impl ReadFrom for Attach {
    fn read(reader: &mut Reader) -> Result<Attach, RowError> {
        let mut fields = FieldReader::new(reader, b"attach")?;
        let attach = Attach {
            name: fields.required()?,
            handle: fields.required()?,
            role: fields.required()?,
            snd_settle_mode: fields.or_default(),
            rcv_settle_mode: fields.or_default(),
            source: fields.optional(),
            target: fields.optional(),
            unsettled: fields.optional(),
            incomplete_unsettled: fields.or_default(),
            initial_delivery_count: fields.optional(),
            max_message_size: fields.optional(),
            offered_capabilities: fields.optional(),
            desired_capabilities: fields.optional(),
            properties: fields.optional(),
        };
        if_read(attach, fields.end())
    }
}
