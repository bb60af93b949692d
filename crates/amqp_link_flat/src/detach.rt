//! Detaches as C has them (2.7.7).
ghost use Rattle.std.specs.Prelude.{◌≡◌, IfErr, IfOk, IsTrue, IsUtf8, OnOk};
ghost use Rattle.amqp_link_flat.specs.Flat.{plain_detach, stated_detach};
ghost use Rattle.amqp_link_flat.specs.Refusing.{AreTexts, IsTextRefusal};

use crate::delivery_state::{ErrorTexts, error_of};
use amqp_link_types::types::{Detach as LinkDetach, Handle};
use std::alloc::Global;

/// A detach. The texts of its error go beside it; the info of the error does not cross.
#[repr(C)]
#[derive(Drop)]
pub struct Detach {
    /// The handle of the link at the endpoint that sends this.
    pub handle: u32,
    /// Whether the link is closed for good.
    pub closed: bool,
    /// Whether it carries an error.
    pub has_error: bool,
    /// Whether the error has a description.
    pub has_description: bool,
}

impl Detach {
    /// The detach that C has passed, with these texts of its error.
    ///
    /// Refused with `NO_TEXT` and `OUT_OF_MEMORY`.
    pub fn to_detach(
        &self,
        alloc: Global,
        condition: &[u8],
        description: &[u8],
    ) -> Result<LinkDetach, u32>
        ensures detach { IfOk result (λ detach. detach
            ≡ stated_detach self.now condition.now description.now) }
        ensures no_text { result ≡ Err 4 → ¬ (AreTexts (IsTrue self.now.has_error)
            self.now.has_description condition.now description.now) }
        ensures utf8 { OnOk result (AreTexts (IsTrue self.now.has_error)
            self.now.has_description condition.now description.now) }
        ensures memory { result ≡ Err 3 → IsTrue self.now.has_error × IsUtf8 condition.now }
        ensures refused { IfErr result IsTextRefusal }
    {
        let texts = ErrorTexts {
            has_error: self.has_error,
            has_description: self.has_description,
            condition,
            description,
        };
        Ok(LinkDetach {
            handle: Handle(self.handle),
            closed: self.closed,
            error: error_of(alloc, texts)?,
        })
    }

    /// The detach for C.
    pub fn of(detach: &LinkDetach) -> Detach
        ensures { result ≡ plain_detach detach.now }
    {
        let (has_error, has_description) = match &detach.error {
            Some(error) => (true, error.description.is_some()),
            None => (false, false),
        };
        Detach {
            handle: detach.handle.0,
            closed: detach.closed,
            has_error,
            has_description,
        }
    }
}
