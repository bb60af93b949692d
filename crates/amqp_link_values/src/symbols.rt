//! Lists of symbols, such as capabilities and outcomes (2.7.3, 3.5.3).
ghost use Rattle.std.specs.Prelude.{◌≡◌, ◌↔◌, ◌<◌, false, length, IfOk, OnErr, IsTrue};
ghost use Rattle.std.specs.Cmp.{partial_equiv_from_equiv};
ghost use Rattle.amqp_link_values.specs.Copies.{carries_any};

use crate::copy::copy_of_list;
use crate::symbol::Symbol;
use std::alloc::AllocError;
use std::marker::Model;

/// Symbols in order.
///
/// A contract sees the list of their bytes.
#[derive(Debug, Drop)]
pub struct Symbols {
    symbols: Vec<Symbol>,
}

impl Model for Symbols {
    ghost use Rattle.std.specs.Prelude.{ℕ, List};

    ghost Value = { List (List ℕ) };

    ghost view = { λ symbols. symbols.symbols.items };
}

impl Symbols {
    /// The symbols in order.
    pub fn as_slice(&self) -> &[Symbol]
        ensures { result.now ≡ self.now }
    {
        self.symbols.as_slice()
    }

    /// The list as a `Vec`. Does not allocate.
    pub fn into_vec(self) -> Vec<Symbol>
        ensures { result.items ≡ self }
    {
        self.symbols
    }
}

impl From<Vec<Symbol>> for Symbols {
    ghost from_gives = { λ list symbols. symbols ≡ list.items };

    fn from(symbols: Vec<Symbol>) -> Symbols {
        Symbols { symbols }
    }
}

impl Clone for Symbols {
    ghost is_clone = { λ symbols copy. copy ≡ symbols };

    ghost is_infallible = { λ symbols. carries_any symbols ≡ false };

    // An empty list does not allocate.
    fn clone(&self) -> Result<Symbols, AllocError>
        ensures copy { IfOk result (λ copy. copy ≡ self.now) }
        ensures memory { OnErr result (0 < length self.now) }
    {
        Ok(Symbols {
            symbols: copy_of_list(&self.symbols)?,
        })
    }
}

impl PartialEq for Symbols {
    ghost use Rattle.std.specs.Cmp.Lexicographic.{pointwise, lists_equiv, nat_list_eq_equiv};
    ghost use Rattle.std.specs.Str.{bytes_eq};

    ghost eq = { pointwise bytes_eq };

    ghost laws = { partial_equiv_from_equiv (lists_equiv nat_list_eq_equiv) };

    fn eq(&self, other: &Symbols) -> bool
        ensures value { result ≡ pointwise bytes_eq self.now other.now }
        ensures equal { IsTrue result ↔ (self.now ≡ other.now) }
    {
        self.as_slice() == other.as_slice()
    }
}

impl Eq for Symbols {
    ghost use Rattle.std.specs.Cmp.Lexicographic.{lists_equiv, nat_list_eq_equiv};

    ghost laws = { lists_equiv nat_list_eq_equiv };
}
