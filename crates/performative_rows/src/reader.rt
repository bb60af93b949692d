//! The words of a row, read one after the other.
use crate::error::RowError;
use amqp_link_values::boxed::Boxed;
use line_text::hex::parse_bytes;
use line_text::number::{parse_signed, parse_unsigned};
use std::alloc::Global;

/// A type whose values a row states in words.
pub trait ReadFrom: Sized {
    /// The value of the next words, which are read.
    fn read(reader: &mut Reader) -> Result<Self, RowError>;
}

impl<T: ReadFrom + Drop> ReadFrom for Boxed<T> {
    fn read(reader: &mut Reader) -> Result<Boxed<T>, RowError> {
        let value = T::read(reader)?;
        Ok(Boxed::new(reader.alloc(), value)?)
    }
}

/// The words that are still to be read, separated by one blank each, and the allocator of their values.
#[derive(Clone, Copy)]
pub struct Reader<'a> {
    alloc: Global,
    rest: Option<&'a [u8]>,
}

impl<'a> Reader<'a> {
    /// All words of a line.
    pub fn new(alloc: Global, line: &'a [u8]) -> Reader<'a> {
        Reader {
            alloc,
            rest: Some(line),
        }
    }

    /// The allocator of the values.
    pub fn alloc(&self) -> Global {
        self.alloc
    }

    /// The next word, which is read.
    pub fn word(&mut self) -> Result<&'a [u8], RowError> {
        let Some(text) = self.rest else {
            return Err(RowError::NotARow);
        };
        let (word, rest) = split_word(text);
        self.rest = rest;
        Ok(word)
    }

    /// Reads the next word, which has to be this one.
    pub fn expect(&mut self, word: &[u8]) -> Result<(), RowError> {
        if self.word()? == word {
            Ok(())
        } else {
            Err(RowError::NotARow)
        }
    }

    /// Whether the next word is this one. It is not read.
    pub fn is_at(&self, word: &[u8]) -> bool {
        let mut ahead = *self;
        ahead.expect(word).is_ok()
    }

    /// Refused if a word follows.
    pub fn end(&self) -> Result<(), RowError> {
        match self.rest {
            None => Ok(()),
            Some(_) => Err(RowError::NotARow),
        }
    }

    /// A value, or none if a mark stands in its place.
    pub fn optional<T: ReadFrom>(&mut self) -> Result<Option<T>, RowError> {
        if self.is_at(b"_") {
            self.expect(b"_")?;
            return Ok(None);
        }
        Ok(Some(T::read(self)?))
    }

    /// An unsigned number.
    pub fn unsigned(&mut self) -> Result<u64, RowError> {
        parse_unsigned(self.word()?).ok_or(RowError::NotARow)
    }

    /// A signed number.
    pub fn signed(&mut self) -> Result<i64, RowError> {
        parse_signed(self.word()?).ok_or(RowError::NotARow)
    }

    /// Bytes in hexadecimal digits.
    pub fn bytes(&mut self) -> Result<Vec<u8>, RowError> {
        let word = self.word()?;
        parse_bytes(self.alloc, word)?.ok_or(RowError::NotARow)
    }

    /// A text, from its bytes.
    pub fn text(&mut self) -> Result<String, RowError> {
        match String::from_utf8(self.bytes()?) {
            Ok(text) => Ok(text),
            Err(_) => Err(RowError::NotARow),
        }
    }
}

// The word up to the first blank, and the text after the blank.
fn split_word(text: &[u8]) -> (&[u8], Option<&[u8]>) {
    match text.iter().position(|byte| *byte == b' ') {
        Some(at) => (&text[..at], Some(&text[at + 1..])),
        None => (text, None),
    }
}

/// The value that a word stands for; no row if it is none of these words.
pub fn value_of<T: Copy>(words: &[(&str, T)], word: &[u8]) -> Result<T, RowError> {
    for (name, value) in words {
        if name.as_bytes() == word {
            return Ok(*value);
        }
    }
    Err(RowError::NotARow)
}
