//! The fields of a performative, a state, an error or a terminus, read in their order.
use crate::error::RowError;
use crate::reader::{ReadFrom, Reader};

/// The fields that are still to be read. Fields after those that a row has, and after one that cannot be read, are
/// absent.
#[derive(Drop)]
pub struct FieldReader<'r, 'a> {
    reader: &'r mut Reader<'a>,
    left: u64,
    refused: Option<RowError>,
}

impl<'r, 'a> FieldReader<'r, 'a> {
    /// The fields of a row, after the name of their type and their number, which are read here.
    pub fn new(reader: &'r mut Reader<'a>, name: &[u8]) -> Result<FieldReader<'r, 'a>, RowError> {
        reader.expect(name)?;
        let left = reader.unsigned()?;
        Ok(FieldReader {
            reader,
            left,
            refused: None,
        })
    }

    /// The next field, which may be absent. `end` tells if it could not be read.
    pub fn optional<T: ReadFrom>(&mut self) -> Option<T> {
        if self.left == 0 || self.refused.is_some() {
            return None;
        }
        self.left -= 1;
        match self.reader.optional() {
            Ok(field) => field,
            Err(error) => {
                self.refused = Some(error);
                None
            }
        }
    }

    /// The next field, which has to be there.
    pub fn required<T: ReadFrom>(&mut self) -> Result<T, RowError> {
        let field = self.optional();
        field.ok_or(self.refused.unwrap_or(RowError::NotARow))
    }

    /// The next field, or its default where it is absent. `end` tells if it could not be read.
    pub fn or_default<T: ReadFrom + Default>(&mut self) -> T {
        self.optional().unwrap_or_default()
    }

    /// All fields could be read, and no further one is given.
    pub fn end(&self) -> Result<(), RowError> {
        match self.refused {
            Some(error) => Err(error),
            None if self.left == 0 => Ok(()),
            None => Err(RowError::NotARow),
        }
    }
}

/// The value, if its fields could be read.
pub fn if_read<T: Drop>(value: T, fields: Result<(), RowError>) -> Result<T, RowError> {
    match fields {
        Ok(()) => Ok(value),
        Err(error) => {
            drop(value);
            Err(error)
        }
    }
}

/// Refused if there was a value in this place.
pub fn none_before<T: Drop>(before: Option<T>) -> Result<(), RowError> {
    let is_free = before.is_none();
    drop(before);
    if is_free {
        Ok(())
    } else {
        Err(RowError::NotARow)
    }
}
