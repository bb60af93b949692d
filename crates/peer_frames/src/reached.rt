//! What a run has reached.

ghost use Rattle.std.specs.Prelude.{◌≡◌, ◌+◌, min};

/// How many names of refusals there are.
pub const NAMES_LEN: usize = 58;

/// The names of all refusals that are counted, in their order.
pub const NAMES: [&str; NAMES_LEN] = [
    "LinkStateError::IllegalState",
    "LinkStateError::RemoteDetached",
    "LinkStateError::RemoteDetachedWithError",
    "LinkStateError::RemoteClosed",
    "LinkStateError::RemoteClosedWithError",
    "LinkStateError::ExpectImmediateDetach",
    "LinkStateError::SessionStopped",
    "LinkStateError::TagPending",
    "LinkStateError::NoRoom",
    "Sending::CreditMissing",
    "DetachError::IllegalState",
    "DetachError::RemoteDetachedWithError",
    "DetachError::RemoteClosedWithError",
    "ApplyRemoteDetachError::IllegalState",
    "ApplyRemoteDetachError::RemoteDetachedWithError",
    "ApplyRemoteDetachError::RemoteClosedWithError",
    "SenderAttachError::IllegalState",
    "SenderAttachError::CoordinatorIsNotImplemented",
    "SenderAttachError::IncomingTargetIsNone",
    "SenderAttachError::SndSettleModeNotSupported",
    "SenderAttachError::SourceAddressIsSomeWhenDynamicIsTrue",
    "SenderAttachError::TargetAddressIsNoneWhenDynamicIsTrue",
    "SenderAttachError::DynamicNodePropertiesIsSomeWhenDynamicIsFalse",
    "SenderAttachError::AttachTooLarge",
    "SenderAttachError::DuplicatedLinkName",
    "SenderAttachError::(another of the session)",
    "ReceiverAttachError::IllegalState",
    "ReceiverAttachError::IncomingSourceIsNone",
    "ReceiverAttachError::InitialDeliveryCountIsNone",
    "ReceiverAttachError::CoordinatorIsNotImplemented",
    "ReceiverAttachError::DesiredFilterNotSupported",
    "ReceiverAttachError::SourceAddressIsNoneWhenDynamicIsTrue",
    "ReceiverAttachError::TargetAddressIsSomeWhenDynamicIsTrue",
    "ReceiverAttachError::DynamicNodePropertiesIsSomeWhenDynamicIsFalse",
    "ReceiverAttachError::AttachTooLarge",
    "ReceiverAttachError::DuplicatedLinkName",
    "ReceiverAttachError::(another of the session)",
    "ReceiverTransferError::IllegalState",
    "ReceiverTransferError::TransferLimitExceeded",
    "ReceiverTransferError::DeliveryIdIsNone",
    "ReceiverTransferError::DeliveryTagIsNone",
    "ReceiverTransferError::IllegalRcvSettleModeInTransfer",
    "ReceiverTransferError::InconsistentFieldInMultiFrameDelivery",
    "ReceiverTransferError::PayloadTooLong",
    "ReceiverTransferError::MessageDecode",
    "FlowError::IllegalState",
    "LinkRelayError::UnattachedHandle",
    "LinkRelayError::TransferFrameToSender",
    "TakeError::UnknownTag",
    "TakeError::NotComplete",
    "TakeError::AlreadyTaken",
    "TakeError::NotAttached",
    "TakeError::Undecoded",
    "DisposeError::NotAttached",
    "DisposeError::UnknownTag",
    "DisposeError::NotTaken",
    "DisposeError::NotResumed",
    "StillPending",
];

/// How often each thing has happened in a run.
#[derive(Clone, Copy, Debug, PartialEq, Eq)]
pub struct Reached {
    /// Lives of a link endpoint.
    pub lives: u64,
    /// Lives of these that are a sender's.
    pub senders: u64,
    /// Frames of peers that were passed to an endpoint.
    pub frames: u64,
    /// Calls of a user.
    pub calls: u64,
    /// Attaches of a peer that were taken.
    pub attaches: u64,
    /// Exchanges with something to resume.
    pub exchanges: u64,
    /// Deliveries that were sent.
    pub sent: u64,
    /// Transfers that were sent.
    pub transfers: u64,
    /// Deliveries that were resumed, sent again, aborted or stated again after an exchange.
    pub resumed: u64,
    /// Deliveries that were put back for a later exchange.
    pub put_back: u64,
    /// Deliveries that were withdrawn.
    pub withdrawn: u64,
    /// Deliveries that a sender learned the outcome of.
    pub outcomes: u64,
    /// Deliveries that failed without an outcome.
    pub failures: u64,
    /// Deliveries that arrived complete.
    pub complete: u64,
    /// Those of them that their sender had settled.
    pub settled: u64,
    /// Deliveries that were known already, and were resumed.
    pub known: u64,
    /// Deliveries that were aborted.
    pub aborted: u64,
    /// Transfers that were ignored.
    pub ignored: u64,
    /// Deliveries in whose place another has begun.
    pub replaced: u64,
    /// Deliveries that were taken.
    pub taken: u64,
    /// Deliveries that a receiver disposed of.
    pub disposed: u64,
    /// Outcomes that a receiver kept for the next attach.
    pub kept: u64,
    /// Deliveries that an attach of their sender has forgotten.
    pub forgotten: u64,
    refusals: [u64; NAMES_LEN],
}

impl Reached {
    /// Nothing.
    pub fn nothing() -> Reached {
        Reached {
            lives: 0,
            senders: 0,
            frames: 0,
            calls: 0,
            attaches: 0,
            exchanges: 0,
            sent: 0,
            transfers: 0,
            resumed: 0,
            put_back: 0,
            withdrawn: 0,
            outcomes: 0,
            failures: 0,
            complete: 0,
            settled: 0,
            known: 0,
            aborted: 0,
            ignored: 0,
            replaced: 0,
            taken: 0,
            disposed: 0,
            kept: 0,
            forgotten: 0,
            refusals: [0; NAMES_LEN],
        }
    }

    /// How often calls were refused by each name, in the order of the names.
    pub fn refusals(&self) -> &[u64] {
        self.refusals.as_slice()
    }

    /// What is counted, in words, with how often it has happened.
    pub fn counts(&self) -> [(&'static str, u64); 23] {
        [
            ("lives", self.lives),
            ("lives of a sender", self.senders),
            ("frames", self.frames),
            ("calls", self.calls),
            ("attaches taken", self.attaches),
            ("exchanges with something to resume", self.exchanges),
            ("deliveries sent", self.sent),
            ("transfers sent", self.transfers),
            ("deliveries resumed", self.resumed),
            ("deliveries put back", self.put_back),
            ("deliveries withdrawn", self.withdrawn),
            ("outcomes", self.outcomes),
            ("failures", self.failures),
            ("deliveries complete", self.complete),
            ("settled by their sender", self.settled),
            ("known again", self.known),
            ("aborted", self.aborted),
            ("ignored", self.ignored),
            ("replaced", self.replaced),
            ("taken", self.taken),
            ("disposed of", self.disposed),
            ("outcomes kept", self.kept),
            ("forgotten", self.forgotten),
        ]
    }

    /// A call was refused by this name.
    pub fn count_refusal(&mut self, name: &str) {
        let Some(place) = NAMES.iter().position(|known| *known == name) else {
            return;
        };
        if let Some(count) = self.refusals.get_mut(place) {
            count_one(count);
        }
    }
}

/// Once more.
pub fn count_one(count: &mut u64)
    ensures { count.new ≡ min (count.old + 1) u64.MAX }
{
    *count = count.saturating_add(1);
}

/// So often more.
pub fn count_more(count: &mut u64, more: usize)
    ensures { count.new ≡ min (count.old + more) u64.MAX }
{
    *count = count.saturating_add(more as u64);
}
