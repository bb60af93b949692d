//! Values behind a pointer.
ghost use Rattle.std.specs.Prelude.{◌≡◌, IfOk, IfErr};
ghost use Rattle.std.specs.Borrow.{Lends, sem};

use std::alloc::{AllocError, AllocFailed, Global};
use std::marker::Model;
use std::ops::{Deref, DerefMut};

/// A value in memory of its own, so that what holds it stays narrow.
///
/// A contract sees the value.
#[derive(Debug, Drop)]
pub struct Boxed<T> {
    inner: Box<T>,
}

impl<T> Model for Boxed<T> {
    ghost Value = { T };

    ghost view = { λ boxed. boxed.inner.value };
}

impl<T> Boxed<T> {
    /// Moves a value into memory of its own. It is returned if there is none.
    pub fn new(alloc: Global, value: T) -> Result<Boxed<T>, AllocFailed<T>>
        ensures boxed { IfOk result (λ boxed. boxed ≡ value) }
        ensures back { IfErr result (λ refused. refused.value ≡ value) }
    {
        let inner = Box::new(alloc, value)?;
        Ok(Boxed { inner })
    }

    /// The value, without that memory.
    pub fn into_inner(self) -> T
        ensures { result ≡ self }
    {
        let Boxed { inner } = self;
        Box::into_inner(inner)
    }
}

impl<T> Deref for Boxed<T> {
    type Target = T;

    ghost deref_gives = { λ boxed value. value ≡ boxed };

    fn deref(&self) -> &T
        ensures { result.now ≡ self.now }
    {
        &self.inner
    }
}

impl<T> DerefMut for Boxed<T> {
    ghost use Rattle.amqp_link_values.specs.contracts.boxed.Boxed.{the_row};

    ghost deref_mut_gives = { λ boxed value. value ≡ boxed };

    fn deref_mut(&mut self) -> &mut T
        ensures value { result.now ≡ self.old }
        ensures* lends { sem 𝓛 (Lends (the_row T.row) T.row self.entry result (λ value. value)) }
    {
        &mut self.inner
    }
}

impl<T: Clone> Clone for Boxed<T> {
    ghost is_clone = { T.is_clone };

    fn clone(&self) -> Result<Boxed<T>, AllocError> {
        Ok(Boxed {
            inner: self.inner.clone()?,
        })
    }
}

impl<T: PartialEq> PartialEq for Boxed<T> {
    ghost eq = { T.eq };

    ghost laws = { T.laws };

    fn eq(&self, other: &Boxed<T>) -> bool {
        *self.inner == *other.inner
    }
}

impl<T: Eq> Eq for Boxed<T> {
    ghost laws = { T.Eq.laws };
}
