//! New deliveries under a tag of the caller's own (2.6.12, 2.7.5).
ghost use Rattle.std.specs.Prelude.{◌≡◌, Err, IfOk, MatchOption, OnErr};
ghost use Rattle.amqp_link_sender.specs.Senders.{IsSendable, SendAnswersThenOutOfMemory, SendsTaggedFitting, SendsTaggedOrLacksCredit, delivery_of, tagged_payload_tests};
ghost use Rattle.amqp_link_sender.specs.Waits.{after_waiting, waiting_error};

use crate::sender_link::{SenderLink, Sending, Waiting};
use amqp_link_endpoint::endpoint::target::LinkTarget;
use amqp_link_types::types::{DeliveryState, LinkStateError, MessageFormat, Payload};

impl<T: LinkTarget> SenderLink<T> {
    /// Sends a payload as a new delivery, for one credit, under this tag: all else is as `send_payload` does it, also the
    /// order of the refusals.
    ///
    /// The tags of `send_payload` have four bytes, the delivery-count: a tag of four bytes may meet one of those later, which
    /// is then refused with `TagPending` while this delivery is unsettled.
    pub fn send_payload_with_tag(
        &mut self,
        waiting: Waiting,
        delivery_tag: &[u8],
        payload: &Payload,
        message_format: MessageFormat,
        settled: Option<bool>,
        state: Option<DeliveryState>,
        batchable: bool,
    ) -> Result<Sending, LinkStateError>
        ensures sent { IfOk result (λ sending. SendsTaggedOrLacksCredit self.old delivery_tag.now
            (delivery_of message_format settled state batchable) payload.now sending self.new) }
        ensures fits { IfOk result (λ sending. SendsTaggedFitting self.old delivery_tag.now
            (delivery_of message_format settled state batchable) payload.now sending) }
        ensures refused { MatchOption (waiting_error self.old.local_state waiting)
            (SendAnswersThenOutOfMemory result (tagged_payload_tests self.old delivery_tag.now
            (delivery_of message_format settled state batchable) payload.now))
            (λ error. result ≡ Err error) }
        ensures left { OnErr result (self.new ≡ after_waiting self.old waiting) }
    {
        match self.take_waiting(waiting) {
            None => self.send_under(
                delivery_tag,
                payload,
                message_format,
                settled,
                state,
                batchable,
            ),
            Some(error) => {
                drop(state);
                Err(error)
            }
        }
    }

    /// Whether `send_payload_with_tag` would send this payload now if nothing is pending; false if there is no credit.
    /// Its refusals are the same, in the same order, without `OutOfMemory`. Does not allocate, and changes nothing.
    pub fn can_send_payload_with_tag(
        &self,
        delivery_tag: &[u8],
        payload: &Payload,
        message_format: MessageFormat,
        settled: Option<bool>,
        state: Option<DeliveryState>,
        batchable: bool,
    ) -> Result<bool, LinkStateError>
        ensures { IsSendable result (tagged_payload_tests self.now delivery_tag.now
            (delivery_of message_format settled state batchable) payload.now) }
    {
        self.can_send_under(
            delivery_tag,
            payload,
            message_format,
            settled,
            state,
            batchable,
        )
    }
}
