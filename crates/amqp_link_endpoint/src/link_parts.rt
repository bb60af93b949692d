//! What a link is made with.
ghost use Rattle.std.specs.Prelude.{◌≡◌, None, false};
ghost use Rattle.amqp_link_types.specs.declared.types.definitions.ReceiverSettleMode.TheVariants.{First};
ghost use Rattle.amqp_link_types.specs.declared.types.definitions.SenderSettleMode.TheVariants.{Mixed};

use amqp_link_state::state::LinkFlowStateInner;
use amqp_link_types::types::{ReceiverSettleMode, SenderSettleMode, Source, Symbols, Text};

/// What a link is made with, at either endpoint.
#[derive(Debug, Drop)]
pub struct LinkParts<T: Drop> {
    /// The name of the link, the same at both endpoints.
    pub name: Text,
    /// When the sender settles.
    pub snd_settle_mode: SenderSettleMode,
    /// When the receiver settles.
    pub rcv_settle_mode: ReceiverSettleMode,
    /// The source: where the messages come from.
    pub source: Option<Source>,
    /// The target: where the messages go.
    pub target: Option<T>,
    /// The largest message in bytes; 0 is no limit.
    pub max_message_size: u64,
    /// The capabilities that this endpoint offers.
    pub offered_capabilities: Option<Symbols>,
    /// The capabilities that this endpoint would have the peer offer.
    pub desired_capabilities: Option<Symbols>,
    /// The delivery-counts, the link-credit and the flags at the beginning.
    pub flow_state: LinkFlowStateInner,
    /// The largest size of a frame in bytes: its header of four bytes and its body, without the four bytes of
    /// the frame's size in front of them. If the peer's limit counts those as well, the caller passes that
    /// limit less 4. Each value counts by its shortest code (1.6): an encoder that writes longer ones, as a list with
    /// a head of 9 bytes in place of 3, needs a limit that is less by as much.
    pub max_frame_size: u32,
    /// Whether the source of the peer's attach is to be verified (3.5.3), if this endpoint has one.
    pub verify_incoming_source: bool,
    /// Whether the target of the peer's attach is to be verified (3.5.4), if this endpoint has one.
    pub verify_incoming_target: bool,
}

impl<T: Drop> LinkParts<T> {
    /// A link of which nothing else is said: the sender says of each delivery whether it is settled, the
    /// receiver settles by itself, messages are of any size, nothing is offered or desired, the counts begin
    /// at 0 without credit, and no terminus of the peer is verified. Set what is to be otherwise. Does not
    /// allocate.
    pub fn new(
        name: Text,
        source: Option<Source>,
        target: Option<T>,
        max_frame_size: u32,
    ) -> LinkParts<T>
        ensures { result ≡ record {
          name = name;
          snd_settle_mode = Mixed;
          rcv_settle_mode = First;
          source = source;
          target = target;
          max_message_size = 0;
          offered_capabilities = None;
          desired_capabilities = None;
          flow_state = record {
            initial_delivery_count = 0;
            delivery_count = 0;
            link_credit = 0;
            available = 0;
            drain = false;
            properties = None;
          };
          max_frame_size = max_frame_size;
          verify_incoming_source = false;
          verify_incoming_target = false;
        } }
    {
        LinkParts {
            name,
            snd_settle_mode: SenderSettleMode::Mixed,
            rcv_settle_mode: ReceiverSettleMode::First,
            source,
            target,
            max_message_size: 0,
            offered_capabilities: None,
            desired_capabilities: None,
            flow_state: LinkFlowStateInner::default(),
            max_frame_size,
            verify_incoming_source: false,
            verify_incoming_target: false,
        }
    }
}
