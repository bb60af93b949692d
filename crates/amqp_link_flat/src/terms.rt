//! What a link is made with, as C has it.
ghost use Rattle.std.specs.Prelude.{◌≡◌, ◌↔◌, IfErr, IfOk, IsUtf8, OnOk};
ghost use Rattle.amqp_link_flat.specs.Attaches.{AreLinkTexts, stated_parts};
ghost use Rattle.amqp_link_flat.specs.Refusing.{IsValueRefusal};

use crate::attach::Terminus;
use crate::numbers::settle_modes;
use crate::status::NO_SUCH_NUMBER;
use crate::texts::text;
use amqp_link_endpoint::LinkParts;
use amqp_link_types::types::Target;
use std::alloc::Global;

/// What a link is made with, but its name and its termini.
#[repr(C)]
#[derive(Drop)]
pub struct Terms {
    /// The largest message in bytes; 0 is no limit.
    pub max_message_size: u64,
    /// The largest size of a frame in bytes, without the four bytes of its size in front.
    pub max_frame_size: u32,
    /// When the sender settles: `AMQP_SENDER_UNSETTLED`, which is 0, `AMQP_SENDER_SETTLED` or `AMQP_SENDER_MIXED`,
    /// which the standard means where an attach states none (2.7.3).
    pub snd_settle_mode: u32,
    /// When the receiver settles: `AMQP_RECEIVER_FIRST`, which is 0, or `AMQP_RECEIVER_SECOND`.
    pub rcv_settle_mode: u32,
    /// The sender's delivery-count at the beginning.
    pub initial_delivery_count: u32,
    /// Whether the source of the peer's attach is verified: else AMQP_SOURCE_ADDRESS_IS_SOME_WHEN_DYNAMIC_IS_TRUE does not
    /// come at a sender, nor AMQP_SOURCE_ADDRESS_IS_NONE_WHEN_DYNAMIC_IS_TRUE at a receiver.
    pub verify_incoming_source: bool,
    /// Whether the target of the peer's attach is verified: else AMQP_TARGET_ADDRESS_IS_NONE_WHEN_DYNAMIC_IS_TRUE does not
    /// come at a sender, nor AMQP_TARGET_ADDRESS_IS_SOME_WHEN_DYNAMIC_IS_TRUE at a receiver.
    pub verify_incoming_target: bool,
}

/// The name and the addresses of a link, as C passes them.
#[derive(Clone, Copy)]
pub struct LinkTexts<'a> {
    /// The name.
    pub name: &'a [u8],
    /// The address of the source.
    pub source: &'a [u8],
    /// The address of the target.
    pub target: &'a [u8],
}

impl Terms {
    /// What a link is made with.
    ///
    /// Refused with `NO_SUCH_NUMBER`, `NO_TEXT`, `OUT_OF_MEMORY`.
    pub fn to_parts(
        &self,
        alloc: Global,
        source: &Terminus,
        target: &Terminus,
        texts: LinkTexts<'_>,
    ) -> Result<LinkParts<Target>, u32>
        ensures parts { IfOk result (λ parts. stated_parts self.now source.now target.now
            texts.entry.name.now texts.entry.source.now texts.entry.target.now ≡ Some parts) }
        ensures number { (result ≡ Err 5) ↔ (stated_parts self.now source.now target.now
            texts.entry.name.now texts.entry.source.now texts.entry.target.now ≡ None) }
        ensures no_text { result ≡ Err 4 → ¬ (AreLinkTexts source.now target.now
            texts.entry.name.now texts.entry.source.now texts.entry.target.now) }
        ensures utf8 { OnOk result (AreLinkTexts source.now target.now
            texts.entry.name.now texts.entry.source.now texts.entry.target.now) }
        ensures memory { result ≡ Err 3 → IsUtf8 texts.entry.name.now }
        ensures refused { IfErr result IsValueRefusal }
    {
        // Numbers first: whether one of them stands for nothing does not hang on memory.
        let Some((snd, rcv)) = settle_modes(self.snd_settle_mode, self.rcv_settle_mode) else {
            return Err(NO_SUCH_NUMBER);
        };
        let (Some(source_policies), Some(target_policies)) = (source.policies(), target.policies())
        else {
            return Err(NO_SUCH_NUMBER);
        };
        let name = text(alloc, texts.name)?;
        let source = source.source_with(alloc, texts.source, source_policies)?;
        let target = match target.target_with(alloc, texts.target, target_policies) {
            Ok(target) => target,
            Err(refused) => {
                drop(source);
                return Err(refused);
            }
        };
        let mut parts = LinkParts::new(name, source, target, self.max_frame_size);
        parts.snd_settle_mode = snd;
        parts.rcv_settle_mode = rcv;
        parts.max_message_size = self.max_message_size;
        parts.flow_state.initial_delivery_count = self.initial_delivery_count;
        parts.flow_state.delivery_count = self.initial_delivery_count;
        parts.verify_incoming_source = self.verify_incoming_source;
        parts.verify_incoming_target = self.verify_incoming_target;
        Ok(parts)
    }
}
