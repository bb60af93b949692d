//! How many bytes an attach takes (2.7.3).
#![tactic(auto, using(crate::proofs::Sizes::sizes))]

ghost use Rattle.std.specs.Prelude.{◌≡◌};
ghost use Rattle.amqp_link_values.specs.Length.{IsU64Of};
ghost use Rattle.amqp_link_types.specs.Size.{snd_mode_field, rcv_mode_field};
ghost use Rattle.amqp_link_types.specs.Size;
ghost use Rattle.amqp_link_types.specs.Size.{unsettled_len, attach_len};

use crate::size::{before, before_flag, before_given, before_optional, described};
use crate::types::{
    Attach, DeliveryState, DeliveryTag, ReceiverSettleMode, SenderSettleMode, UnsettledMap,
};
use amqp_link_values::length::EncodedLen;
use amqp_link_values::length::value::compound_len;

// ---- fields with a default, which is a null

fn snd_mode_len(mode: SenderSettleMode) -> Option<u64>
    ensures { result ≡ snd_mode_field mode }
{
    match mode {
        SenderSettleMode::Unsettled => Some(2), // the number 0
        SenderSettleMode::Settled => Some(2), // the number 1
        SenderSettleMode::Mixed => None,
    }
}

fn rcv_mode_len(mode: ReceiverSettleMode) -> Option<u64>
    ensures { result ≡ rcv_mode_field mode }
{
    match mode {
        ReceiverSettleMode::First => None,
        ReceiverSettleMode::Second => Some(2), // the number 1
    }
}

// ---- the unsettled map

// A tag and its state, or null.
fn entry_len(tag: &DeliveryTag, state: &Option<DeliveryState>) -> Option<u64>
    ensures { IsU64Of (Size.entry_len (tag.now, state.now)) result }
{
    let tag = tag.encoded_len()?;
    match state {
        Some(state) => tag.checked_add(state.encoded_len()?),
        None => tag.checked_add(1),
    }
}

impl EncodedLen for UnsettledMap<Option<DeliveryState>> {
    ghost len_of = { unsettled_len };

    fn encoded_len(&self) -> Option<u64> {
        let mut content = 0u64;
        for (tag, state) in self.pairs() {
            content = content.checked_add(entry_len(tag, state)?)?;
        }
        compound_len(content)
    }
}

// ---- the attach

impl EncodedLen for Attach {
    ghost len_of = { attach_len };

    #[tactic(auto, using(crate::proofs::Sizes::sizes), unfolding(crate::specs::Size::attach_len))]
    fn encoded_len(&self) -> Option<u64> {
        let rest = before_optional(&self.properties, 0)?;
        let rest = before_optional(&self.desired_capabilities, rest)?;
        let rest = before_optional(&self.offered_capabilities, rest)?;
        let rest = before_optional(&self.max_message_size, rest)?;
        let rest = before_optional(&self.initial_delivery_count, rest)?;
        let rest = before_flag(self.incomplete_unsettled, rest)?;
        let rest = before_optional(&self.unsettled, rest)?;
        let rest = before_optional(&self.target, rest)?;
        let rest = before_optional(&self.source, rest)?;
        let rest = before(rcv_mode_len(self.rcv_settle_mode), rest)?;
        let rest = before(snd_mode_len(self.snd_settle_mode), rest)?;
        let rest = before(Some(1), rest)?; // the role, which has no default
        let rest = before_given(&self.handle.0, rest)?;
        let rest = before_given(&self.name, rest)?;
        described(rest)
    }
}
