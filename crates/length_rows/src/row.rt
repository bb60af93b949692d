//! Rows: the type of a value, its length, the encoder that gave it or `hand`, and the value.
ghost use Rattle.std.specs.Prelude.{◌≡◌, ◌↔◌, Some, IsTrue};

use amqp_link_types::types::{Attach, DeliveryState, Error, Source, Target, Transfer, Value};
use amqp_link_values::length::EncodedLen;
use performative_rows::error::RowError;
use performative_rows::reader::{ReadFrom, Reader, value_of};
use std::alloc::Global;
use std::fmt;

/// The type of a row's value.
#[derive(Clone, Copy, PartialEq, Eq)]
pub enum Kind {
    /// A value of any plain type.
    Value,
    /// The state received.
    Received,
    /// The outcome modified.
    Modified,
    /// The outcome rejected.
    Rejected,
    /// An error.
    Error,
    /// A source.
    Source,
    /// A target.
    Target,
    /// A transfer.
    Transfer,
    /// An attach.
    Attach,
}

/// All types, in the order in which they are written.
pub const KINDS: [Kind; 9] = [
    Kind::Value,
    Kind::Received,
    Kind::Modified,
    Kind::Rejected,
    Kind::Error,
    Kind::Source,
    Kind::Target,
    Kind::Transfer,
    Kind::Attach,
];

impl Kind {
    ghost use Rattle.length_rows.specs.Words.{word_of};

    /// The word that names the type.
    pub fn word(self) -> &'static str
        ensures { result.now ≡ word_of self }
    {
        match self {
            Kind::Value => "value",
            Kind::Received => "received",
            Kind::Modified => "modified",
            Kind::Rejected => "rejected",
            Kind::Error => "error",
            Kind::Source => "source",
            Kind::Target => "target",
            Kind::Transfer => "transfer",
            Kind::Attach => "attach",
        }
    }
}

impl fmt::Display for Kind {
    ghost use Rattle.std.specs.Prelude.{Some};
    ghost use Rattle.length_rows.specs.Words.{word_of};

    ghost output = { λ kind. Some (word_of kind) };

    fn fmt<W: fmt::Write>(&self, f: &mut fmt::Formatter<W>) -> fmt::Result {
        f.write_str(self.word())
    }
}

/// A row's length and the computed one.
#[derive(Clone, Copy)]
pub struct Compared {
    /// The type of the value.
    pub kind: Kind,
    /// The length that the row states.
    pub stated: u64,
    /// The computed length; none if a u64 does not hold it.
    pub computed: Option<u64>,
}

impl Compared {
    /// Whether the two lengths are equal.
    pub fn agrees(&self) -> bool
        ensures { IsTrue result ↔ (self.now.computed ≡ Some self.now.stated) }
    {
        self.computed == Some(self.stated)
    }
}

/// The row of a line, compared, or that the line is no row, or that it is out of memory.
pub fn compare(alloc: Global, line: &[u8]) -> Result<Compared, RowError> {
    let mut reader = Reader::new(alloc, line);
    let kind = read_kind(&mut reader)?;
    let stated = reader.unsigned()?;
    read_encoder(&mut reader)?;
    reader.expect(b"|")?;
    // A value that is not of a plain type begins with its type again.
    if kind != Kind::Value && !reader.is_at(kind.word().as_bytes()) {
        return Err(RowError::NotARow);
    }
    let computed = computed_len(kind, &mut reader)?;
    reader.end()?;
    Ok(Compared {
        kind,
        stated,
        computed,
    })
}

fn read_kind(reader: &mut Reader) -> Result<Kind, RowError> {
    let word = reader.word()?;
    for kind in KINDS {
        if kind.word().as_bytes() == word {
            return Ok(kind);
        }
    }
    Err(RowError::NotARow)
}

// The encoders, and rows that were worked by hand.
const ENCODERS: &[(&str, ())] = &[
    ("proton", ()),
    ("uamqp", ()),
    ("proton+uamqp", ()),
    ("hand", ()),
];

// The encoder's name is only checked.
fn read_encoder(reader: &mut Reader) -> Result<(), RowError> {
    value_of(ENCODERS, reader.word()?)
}

fn computed_len(kind: Kind, reader: &mut Reader) -> Result<Option<u64>, RowError> {
    match kind {
        Kind::Value => len_of::<Value>(reader),
        Kind::Received | Kind::Modified | Kind::Rejected => len_of::<DeliveryState>(reader),
        Kind::Error => len_of::<Error>(reader),
        Kind::Source => len_of::<Source>(reader),
        Kind::Target => len_of::<Target>(reader),
        Kind::Transfer => len_of::<Transfer>(reader),
        Kind::Attach => len_of::<Attach>(reader),
    }
}

fn len_of<T: ReadFrom + EncodedLen + Drop>(reader: &mut Reader) -> Result<Option<u64>, RowError> {
    Ok(T::read(reader)?.encoded_len())
}
