//! How many bytes a value takes in its shortest code (1.6).
ghost use Rattle.std.specs.Prelude.{ℕ};
ghost use Rattle.amqp_link_values.specs.Length.{IsU64Of, bool_len, uint_len, ulong_len, bytes_len};
ghost use Rattle.amqp_link_values.specs.Length.{fields_len};
ghost use Rattle.amqp_link_values.specs.Length;

pub mod value;

use crate::boxed::Boxed;
use crate::delivery_tag::DeliveryTag;
use crate::fields::Fields;
use crate::length::value::{array_len, compound_len, text_len, unsigned_len};
use crate::symbol::Symbol;
use crate::symbols::Symbols;
use crate::text::Text;

/// A type whose values have an encoded length in bytes.
pub trait EncodedLen {
    // The length, which may be larger than a u64.
    ghost len_of: { Self → ℕ };

    /// The number of bytes of its shortest encoding; none exactly if a u64 does not hold it. Does not
    /// allocate.
    fn encoded_len(&self) -> Option<u64>
        ensures { IsU64Of (len_of self.now) result };
}

impl EncodedLen for bool {
    ghost len_of = { bool_len };

    fn encoded_len(&self) -> Option<u64> {
        Some(1)
    }
}

impl EncodedLen for u32 {
    ghost len_of = { uint_len };

    fn encoded_len(&self) -> Option<u64> {
        Some(unsigned_len(5, u64::from(*self)))
    }
}

impl EncodedLen for u64 {
    ghost len_of = { ulong_len };

    fn encoded_len(&self) -> Option<u64> {
        Some(unsigned_len(9, *self))
    }
}

impl EncodedLen for Text {
    ghost len_of = { bytes_len };

    fn encoded_len(&self) -> Option<u64> {
        let words = self.as_str();
        text_len(words.len())
    }
}

impl EncodedLen for Symbol {
    ghost len_of = { bytes_len };

    fn encoded_len(&self) -> Option<u64> {
        let name = self.as_str();
        text_len(name.len())
    }
}

impl EncodedLen for DeliveryTag {
    ghost len_of = { bytes_len };

    fn encoded_len(&self) -> Option<u64> {
        text_len(self.as_bytes().len())
    }
}

impl<T: EncodedLen> EncodedLen for Boxed<T> {
    ghost len_of = { T.len_of };

    fn encoded_len(&self) -> Option<u64> {
        let value: &T = self;
        value.encoded_len()
    }
}

impl EncodedLen for Fields {
    ghost len_of = { fields_len };

    fn encoded_len(&self) -> Option<u64> {
        let mut content = 0u64;
        for (name, value) in self.entries().iter() {
            let name = name.encoded_len()?;
            content = content
                .checked_add(name)?
                .checked_add(value.encoded_len()?)?;
        }
        compound_len(content)
    }
}

impl EncodedLen for Symbols {
    ghost len_of = { Length.array_len };

    fn encoded_len(&self) -> Option<u64> {
        array_len(self.as_slice())
    }
}
