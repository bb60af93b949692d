//! Symbols (1.6.21).
ghost use Rattle.std.specs.Prelude.{◌≡◌, ◌↔◌, ◌<◌, false, length, IfOk, OnErr, IsTrue, string_bytes};
ghost use Rattle.std.specs.Cmp.Lexicographic.{nat_list_eq_equiv};
ghost use Rattle.std.specs.Cmp.Rules.{hashing};
ghost use Rattle.std.specs.Cmp.{partial_equiv_from_equiv};
ghost use Rattle.std.specs.Hash as fed;
ghost use Rattle.std.specs.Str.{bytes_eq};
ghost use Rattle.std.proofs.Common.{rules};
ghost use Rattle.amqp_link_values.specs.Copies.{carries_any};

use crate::text::Text;
use std::alloc::AllocError;
use std::hash::{Hash, Hasher};
use std::marker::Model;

/// A name from a domain of names, such as `amqp:invalid-field` (1.6.21).
///
/// A contract sees a symbol as the bytes of its text. Two symbols are equal exactly if their bytes are, and
/// equal ones have equal hashes.
#[derive(Debug, Drop)]
pub struct Symbol {
    text: Text,
}

impl Model for Symbol {
    ghost use Rattle.std.specs.Prelude.{ℕ, List};

    ghost Value = { List ℕ };

    ghost view = { λ symbol. symbol.text };
}

impl Symbol {
    /// The text of the symbol.
    pub fn as_str(&self) -> &str
        ensures { result.now ≡ self.now }
    {
        self.text.as_str()
    }

    /// The buffer of the symbol. Does not allocate.
    pub fn into_string(self) -> String
        ensures { string_bytes result ≡ self }
    {
        self.text.into_string()
    }
}

impl From<String> for Symbol {
    ghost from_gives = { λ text symbol. symbol ≡ string_bytes text };

    fn from(text: String) -> Symbol {
        Symbol {
            text: Text::from(text),
        }
    }
}

impl Clone for Symbol {
    ghost is_clone = { λ symbol copy. copy ≡ symbol };

    ghost is_infallible = { λ symbol. carries_any symbol ≡ false };

    // An empty symbol does not allocate.
    fn clone(&self) -> Result<Symbol, AllocError>
        ensures copy { IfOk result (λ copy. copy ≡ self.now) }
        ensures memory { OnErr result (0 < length self.now) }
    {
        Ok(Symbol {
            text: self.text.clone()?,
        })
    }
}

impl PartialEq for Symbol {
    ghost eq = { bytes_eq };

    ghost laws = { partial_equiv_from_equiv nat_list_eq_equiv };

    fn eq(&self, other: &Symbol) -> bool
        ensures value { result ≡ bytes_eq self.now other.now }
        ensures equal { IsTrue result ↔ (self.now ≡ other.now) }
    {
        self.text == other.text
    }
}

impl Eq for Symbol {
    ghost laws = { nat_list_eq_equiv };
}

impl Hash for Symbol {
    ghost hash_input = { fed.slice fed.u8 };

    ghost respects_eq = { Prim.search (hashing, rules) };

    fn hash<H: Hasher>(&self, state: &mut H) {
        self.text.hash(state);
    }
}
