//! What both endpoints of a link share, whatever their role and target: how an attach and a detach move their
//! state, and what they show (2.6.3 to 2.6.6).
//!
//! Contracts speak of an endpoint by the record of all that it shows. Each change that a call can make has
//! one law: the record afterwards is the record before with these fields replaced.
ghost use Rattle.std.specs.Prelude.{◌≡◌, ◌⊎◌, ◌↔◌, Bool, true, false, IsTrue, List, []};
ghost use Rattle.std.specs.Prelude.{ℕ, if◌then◌else◌, unwrap_or};
ghost use Rattle.std.specs.Prelude.{Option, None, Some, Ok, Err, MatchOption, MatchResult, IfOk, IfErr, IfNone, IfSome, IsErrAnd, IsErrOf, OnErr, OnOk, is_none, is_some};
ghost use Rattle.std.specs.Borrow.{Lends, sem};
ghost use Rattle.std.specs.contracts.option.Option.{the_row as option_row};
ghost use Rattle.amqp_link_types.specs.contracts.types.definitions.OutputHandle.{the_row as handle_row};
ghost use Rattle.amqp_link_values.specs.contracts.fields.Fields.{the_row as fields_row};
ghost use Rattle.amqp_link_state.specs.declared.state.LinkState.{LinkState as TheState};
ghost use Rattle.amqp_link_values.specs.Data.{Data};
ghost use Rattle.amqp_link_types.specs.Entries.{Entries};
ghost use Rattle.amqp_link_types.specs.declared.types.definitions.OutputHandle.{OutputHandle as TheHandle};
ghost use Rattle.amqp_link_types.specs.declared.types.definitions.Error.{Error as TheError};
ghost use Rattle.amqp_link_types.specs.declared.types.attach.Attach.{Attach as TheAttach};
ghost use Rattle.amqp_link_endpoint.specs.AttachFields.{message_limit, next_of, remote_entries};
ghost use Rattle.amqp_link_endpoint.specs.Attaching.{FitsFrame, States, with_entries};
ghost use Rattle.amqp_link_endpoint.specs.AttachSent.{SendsAttach, IsTooLarge};
ghost use Rattle.amqp_link_endpoint.specs.LinkStates.{Call, next_state, state_without_session};
ghost use Rattle.amqp_link_endpoint.specs.Detaching.{detach_frame, recorded, remote_error};
ghost use Rattle.amqp_link_endpoint.specs.Failing.{error_sent, handled, state_after};
ghost use Rattle.amqp_link_endpoint.specs.Shown.{Shown, counted_attach, shown_attached, shown_kept, shown_taken, with_terms_of};

pub mod attached;
pub mod detached;
pub mod dividing;
pub mod either;
pub mod failing;
pub mod incoming;
pub mod table;
pub mod target;

use crate::endpoint::failing::{Action, AttachFailure};
use amqp_link_state::state::{LinkFlowState, LinkState};
use amqp_link_types::delivery::Outcomes;
use amqp_link_types::frame::LinkFrame;
use amqp_link_types::types::unsettled_map::UnsettledMap;
use amqp_link_types::types::{
    ApplyRemoteDetachError, Attach, Detach, Error, Fields, InputHandle, OutputHandle,
    ReceiverSettleMode, SenderSettleMode, SequenceNo,
};
use std::alloc::AllocError;

/// A link endpoint that can be detached (2.6.4 to 2.6.6). Nothing here allocates.
pub trait LinkDetach {
    /// Why a detach is refused, or the error that the peer's detach carries.
    type DetachError: Drop;

    /// The map of the unsettled deliveries, by tag.
    type Unsettled;

    /// What the endpoint keeps of one of them.
    type Entry;

    // The pairs of the map, as contracts see them.
    ghost unsettled_pairs: { Self.Unsettled → Entries Self.Entry };

    // All that it shows.
    ghost shown: { Self → Shown (Entries Self.Entry) };

    // The endpoint in another state and with another output handle, and all else as it is.
    ghost moved: { Self → TheState → Option TheHandle → Self };

    // The endpoint after its session is lost.
    ghost lost: { Self → Self };

    // A copy of the target is equal to it.
    ghost copies: { Type 0 };

    // The error of a call for which there is no transition.
    ghost illegal_state: { Self.DetachError };

    // The error that a reply carries, by whether the reply closes the link.
    ghost replied: { Bool → TheError → Self.DetachError };

    /// Takes the peer's reply to a detach of this endpoint. The output handle is released; then the error
    /// that the reply carries, if any, is returned.
    ///
    /// Refused with `IllegalState`, and nothing changed, if there is no transition from this state.
    fn on_detach_reply(&mut self, detach: Detach) -> Result<(), Self::DetachError>
        ensures answer { MatchOption (next_state Call.DetachReply detach.closed (shown self.old).local_state)
            (result ≡ Err illegal_state)
            (λ _. result ≡ recorded replied detach.closed detach.error) }
        ensures after { MatchOption (next_state Call.DetachReply detach.closed (shown self.old).local_state)
            (self.new ≡ self.old)
            (λ next. self.new ≡ moved self.old next None) };

    /// The detach to send: one that closes the link, or one after which the link may be attached again. The
    /// output handle is released.
    ///
    /// Refused with `IllegalState`: with nothing changed if there is no transition from this state, and with
    /// the state moved if there is no output handle. There is none from `IncompleteAttachExchanged`:
    /// `detached::detach_frame` makes the frame there.
    fn send_detach(
        &mut self,
        closed: bool,
        error: Option<Error>,
    ) -> Result<LinkFrame, Self::DetachError>
        ensures answer { MatchOption (next_state Call.SendDetach closed (shown self.old).local_state)
            (result ≡ Err illegal_state)
            (λ _. MatchOption (shown self.old).output_handle
            (result ≡ Err illegal_state)
            (λ number. result ≡ Ok (detach_frame number closed error))) }
        ensures after { MatchOption (next_state Call.SendDetach closed (shown self.old).local_state)
            (self.new ≡ self.old)
            (λ next. self.new ≡ moved self.old next None) };

    /// Records a detach that the peer initiated, and to which the session has replied, or the peer's reply to
    /// a detach that was sent after an incomplete exchange. The output handle is released; then the error that
    /// the detach carries, if any, is returned.
    ///
    /// Refused with `IllegalState`, and nothing changed, if there is no transition from this state.
    fn apply_remote_detach_outcome(&mut self, detach: Detach) -> Result<(), ApplyRemoteDetachError>
        ensures answer { MatchOption (next_state Call.RemoteDetach detach.closed (shown self.old).local_state)
            (result ≡ Err ApplyRemoteDetachError.IllegalState)
            (λ _. result ≡ recorded remote_error detach.closed detach.error) }
        ensures after { MatchOption (next_state Call.RemoteDetach detach.closed (shown self.old).local_state)
            (self.new ≡ self.old)
            (λ next. self.new ≡ moved self.old next None) };

    /// Records that the session of the link is gone, by its end or by a lost connection (2.5.2, 2.6.4): no detach
    /// is sent, and none will arrive. The state becomes the one after a detach of the peer's that does not close the
    /// link; an endpoint that is unattached, detached or closed keeps its state. Both handles are released.
    /// The unsettled map, the delivery-counts and the link-credit stay. What is under way of a delivery is
    /// forgotten as by a new attach: the next transfer begins a delivery.
    ///
    /// To go on, set the handle that a new session gives by `output_handle_mut`, and call `send_attach`. Never
    /// refused.
    fn on_session_lost(&mut self)
        ensures { self.new ≡ lost self.old };

    // Of what an endpoint shows, a lost session changes the state and releases both handles.
    ghost shown_lost: { (l : Self) → shown (lost l) ≡ record (shown l) {
      local_state = state_without_session (shown l).local_state;
      output_handle = None;
      input_handle = None;
    } };

    // A moved endpoint shows that state and that handle.
    ghost shown_moved: { (l : Self) (s : TheState) (h : Option TheHandle)
        → shown (moved l s h) ≡ record (shown l) { local_state = s; output_handle = h } };
}

/// A link endpoint that can be attached (2.6.3, 2.6.4).
pub trait LinkAttach: LinkDetach {
    /// What follows after both attaches were exchanged.
    type AttachExchange: Drop;

    /// Why an attach is refused.
    type AttachError: AttachFailure;

    // ---- the attach that is sent

    // The endpoint after it has sent its attach, by whether it is reattached: in this state, at the delivery-count that
    // it has stated, and without its unsettled deliveries if it is reattached.
    ghost attached: { Self → Bool → TheState → Self };

    /// The attach to send, with all unsettled deliveries, or with the first half of them, the first quarter,
    /// and so on, until it fits a frame; it is marked incomplete if it does not have all. An endpoint that is
    /// reattached states none of its deliveries and keeps none: the outcome of each is returned, in their
    /// order.
    ///
    /// A sender that is unattached states its initial delivery-count, in each other state its present one, as the
    /// deliveries before it are not sent again (2.6.4); a receiver states its initial one, which its peer ignores.
    ///
    /// Refused in this order, with nothing changed: illegal state without output handle, then if there is no
    /// transition from this state; too large if even an empty unsettled map does not fit. Out of memory may
    /// come before the last, since the attach is made before it is measured.
    ///
    /// Its cost grows with the number of unsettled deliveries: what the attach states of them is copied once,
    /// and measured anew after each halving.
    fn send_attach(
        &mut self,
        is_reattaching: bool,
    ) -> Result<(LinkFrame, Outcomes), Self::AttachError>
        requires { Self.copies }
        ensures sent { IfOk result (λ sent. SendsAttach (Self.shown self.old)
            (if is_reattaching then [] else (Self.shown self.old).entries) sent.0 (Self.shown self.new).local_state) }
        ensures after { OnOk result
            (self.new ≡ attached self.old is_reattaching (Self.shown self.new).local_state) }
        ensures shown { OnOk result (Self.shown self.new
            ≡ shown_attached (shown_kept is_reattaching (Self.shown self.old)) (Self.shown self.new).local_state) }
        ensures ended { IfOk result (λ sent. sent.1.items
            ≡ (if is_reattaching then (Self.shown self.old).ended else [])) }
        ensures refused { IfErr result (λ error. (error ≡ Self.AttachError.out_of_memory)
            ⊎ ((error ≡ Self.AttachError.illegal_state) × (((Self.shown self.old).output_handle ≡ None)
            ⊎ (next_state Call.SendAttach false (Self.shown self.old).local_state ≡ None)))
            ⊎ ((error ≡ Self.AttachError.too_large) × IsTooLarge (Self.shown self.old)
            (if is_reattaching then [] else (Self.shown self.old).entries))) }
        ensures memory { IsErrOf result Self.AttachError.out_of_memory
            → (is_none (Self.shown self.old).output_handle ≡ false)
            × (is_none (next_state Call.SendAttach false (Self.shown self.old).local_state) ≡ false) }
        ensures left { OnErr result (self.new ≡ self.old) };

    // ---- the attach that arrives

    // The first refusal of the attach, out of memory aside.
    ghost refusal_of: { Self → TheAttach → Option Self.AttachError };

    // The endpoint after it has taken the attach.
    ghost taken: { Self → TheAttach → Self };

    // What the exchange of the endpoint's own unsettled deliveries and those that the attach states returns,
    // in the state after the attach.
    ghost exchanged: { Entries Self.Entry → States → TheState → Self.AttachExchange → Type 0 };

    // Whether taking the attach allocates.
    ghost allocates: { Self → TheAttach → Bool };

    // The endpoint that each refusal of the attach leaves.
    ghost left: { Self.AttachError → Self → TheAttach → Self };

    /// Takes the peer's attach, and exchanges the unsettled deliveries of both endpoints (2.6.13): a sender's
    /// are resolved, a receiver's stay.
    ///
    /// Refused with illegal state, and nothing changed, if there is no transition from this state. Otherwise
    /// the state moves, also if the attach is refused; what else a refusal changes is stated at each
    /// endpoint. Out of memory, with nothing changed, comes after all refusals, or in place of one whose
    /// error carries a list.
    ///
    /// The peer's properties are put into the endpoint's own, one by one: what the peer states goes back to it
    /// in each attach and each flow with properties that is sent from then on. The attach is dropped also if it
    /// is refused: to make the call again after out of memory, keep a copy.
    ///
    /// A sender's cost grows with the number of deliveries that are unsettled at either side, and with the
    /// bytes of the payloads in which a reported position is looked for; a receiver's only with the entries of
    /// the attach, which are dropped.
    fn on_incoming_attach(
        &mut self,
        attach: Attach,
    ) -> Result<Self::AttachExchange, Self::AttachError>
        ensures taken { IfOk result (λ exchange. (self.new ≡ taken self.old attach)
            × exchanged (Self.shown self.old).unsettled (remote_entries attach)
            (Self.shown self.new).local_state exchange) }
        ensures refused { MatchResult result
            (λ _. refusal_of self.old attach ≡ None)
            (λ error. (error ≡ Self.AttachError.out_of_memory) ⊎ (refusal_of self.old attach ≡ Some error)) }
        ensures memory { IsErrOf result Self.AttachError.out_of_memory
            → IfSome (refusal_of self.old attach) (λ error. Self.AttachError.is_listing error ≡ true) }
        ensures growth { IsErrOf result Self.AttachError.out_of_memory → allocates self.old attach ≡ true }
        ensures left { IfErr result (λ error. self.new ≡ left error self.old attach) }
        ensures left_out_of_memory { IsErrOf result Self.AttachError.out_of_memory → self.new ≡ self.old }
        ensures shown { OnOk result (Self.shown self.new
            ≡ shown_taken (Self.shown self.old) (Self.shown self.new).target attach) }
        ensures terms { OnErr result (Self.shown self.new
            ≡ with_terms_of (Self.shown self.old) (Self.shown self.new)) }
        ensures step { MatchOption (next_of (Self.shown self.old).local_state attach)
            (IsErrAnd result (λ error. error ≡ Self.AttachError.illegal_state))
            (λ next. MatchResult result
            (λ _. (Self.shown self.new).local_state ≡ next)
            (λ error. (error ≡ Self.AttachError.out_of_memory) ⊎ ((Self.shown self.new).local_state ≡ next))) }
        ensures no_step { IfNone (next_of (Self.shown self.old).local_state attach)
            (self.new ≡ self.old) };
}

/// What a link endpoint shows. Nothing here allocates, but the text of an error that is sent.
pub trait LinkExt: LinkDetach {
    /// The role of the endpoint, by which its flow state is marked.
    type Marker;

    // The endpoint with other properties, and all else as it is.
    ghost with_properties: { Self → Option (List (List ℕ × Data)) → Self };

    // The endpoint with this largest size of a frame, and all else as it is.
    ghost with_frame_limit: { Self → ℕ → Self };

    /// The link with this output handle.
    fn with_output_handle(self, handle: OutputHandle) -> Self
        ensures { result ≡ Self.moved self (Self.shown self).local_state (Some handle) };

    /// Sets the largest size of a frame in bytes: its header of four bytes and its body, without the four
    /// bytes of the frame's size in front of them. If the peer's limit counts those as well, the caller
    /// passes that limit less 4.
    fn set_max_frame_size(&mut self, max_frame_size: u32)
        ensures { self.new ≡ with_frame_limit self.old max_frame_size };

    /// The state of the link.
    fn local_state(&self) -> &LinkState
        ensures { result.now ≡ (Self.shown self.now).local_state };

    /// The name of the link, the same at both endpoints.
    fn name(&self) -> &str
        ensures { result.now ≡ (Self.shown self.now).name };

    /// The handle under which this endpoint sends, if its session has given it one (2.6.2).
    fn output_handle(&self) -> Option<OutputHandle>
        ensures { result ≡ (Self.shown self.now).output_handle };

    /// The output handle, which the session sets and removes.
    fn output_handle_mut(&mut self) -> &mut Option<OutputHandle>
        ensures value { result.now ≡ (Self.shown self.old).output_handle }
        ensures* lends { sem 𝓛 (Lends Self.row (option_row handle_row) self.entry result
            (λ handle. Self.moved self.old (Self.shown self.old).local_state handle)) };

    /// The handle under which the peer sends, once its attach has arrived.
    fn input_handle(&self) -> Option<InputHandle>
        ensures { result ≡ (Self.shown self.now).input_handle };

    /// The delivery-counts, the link-credit and the flags.
    fn flow_state(&self) -> &LinkFlowState<Self::Marker>
        ensures { result.now ≡ (Self.shown self.now).flow_state };

    /// The unsettled deliveries, by tag.
    fn unsettled(&self) -> &Self::Unsettled
        ensures { Self.unsettled_pairs result.now ≡ (Self.shown self.now).unsettled };

    /// The unsettled deliveries, with the calls of this library.
    fn unsettled_map(&self) -> &UnsettledMap<Self::Entry>
        ensures { result.now ≡ (Self.shown self.now).unsettled };

    /// Whether the sender sends its deliveries settled.
    fn snd_settle_mode(&self) -> SenderSettleMode
        ensures { result ≡ (Self.shown self.now).snd_settle_mode };

    /// When the receiver settles: by itself, or only after the sender.
    fn rcv_settle_mode(&self) -> &ReceiverSettleMode
        ensures { result.now ≡ (Self.shown self.now).rcv_settle_mode };

    /// The largest message in bytes, after the peer's attach the smaller of both; none if there is no limit.
    fn max_message_size(&self) -> Option<u64>
        ensures { result ≡ message_limit (Self.shown self.now).max_message_size };

    /// Further properties of the link.
    fn properties(&self) -> &Option<Fields>
        ensures { result.now ≡ (Self.shown self.now).flow_state.properties };

    /// Further properties of the link, to be written.
    fn properties_mut(&mut self) -> &mut Option<Fields>
        ensures value { result.now ≡ (Self.shown self.old).flow_state.properties }
        ensures* lends { sem 𝓛 (Lends Self.row (option_row fields_row) self.entry result
            (λ properties. with_properties self.old properties)) };

    /// Whether an attach that states all unsettled deliveries and this delivery-count fits a frame of that
    /// size (a header of four bytes, and the body). Without an output handle it is measured with handle 0.
    ///
    /// Refused only if it is out of memory.
    ///
    /// Its cost grows with the number of entries in the unsettled map, which are copied and measured once.
    fn complete_attach_fits(
        &self,
        max_frame_size: u32,
        count: SequenceNo,
    ) -> Result<bool, AllocError>
        requires { Self.copies }
        ensures { IfOk result (λ fits. IsTrue fits ↔ FitsFrame (with_entries
            (counted_attach (Self.shown self.now) count
            (unwrap_or (Self.shown self.now).output_handle (record { 0 = 0 })))
            (Self.shown self.now).entries 0) max_frame_size) };

    /// What to do after an attach of this link has failed with `error`: a refusal by one of the link's own
    /// calls, or the session's name for what arrived in place of the peer's attach. Returns the error with an
    /// action: the caller sends the detach, or ends the session with that error.
    ///
    /// - `DuplicatedLinkName`: end the session, with condition `amqp:session:handle-in-use`.
    /// - At a sender `SndSettleModeNotSupported` and `IncomingTargetIsNone`, at a receiver `IncomingSourceIsNone`:
    ///   close the link without an error.
    /// - `CoordinatorIsNotImplemented`: close it with condition `amqp:not-implemented`.
    /// - `DynamicNodePropertiesIsSomeWhenDynamicIsFalse`; at a sender `SourceAddressIsSomeWhenDynamicIsTrue` and
    ///   `TargetAddressIsNoneWhenDynamicIsTrue`, at a receiver `InitialDeliveryCountIsNone`,
    ///   `SourceAddressIsNoneWhenDynamicIsTrue` and `TargetAddressIsSomeWhenDynamicIsTrue`: close it with condition
    ///   `amqp:invalid-field`.
    /// - All others: nothing.
    ///
    /// A link to be closed is left as `send_detach` leaves it. If `send_detach` is refused, the error is
    /// `IllegalState` and the action is `Nothing`; so a second call closes nothing.
    ///
    /// Allocates only the text of an error that is sent. If it is out of memory, nothing has changed.
    fn handle_attach_error<E: AttachFailure>(&mut self, error: E) -> Result<(E, Action), AllocError>
        ensures answer { IfOk result (λ given. given ≡ handled error E.illegal_state
            (E.remedy error) (Self.shown self.old).local_state (Self.shown self.old).output_handle) }
        ensures after { OnOk result (MatchOption (state_after (E.remedy error) (Self.shown self.old).local_state)
            (self.new ≡ self.old)
            (λ next. self.new ≡ Self.moved self.old next None)) }
        ensures left { OnErr result (self.new ≡ self.old) }
        ensures memory { OnErr result (is_some (error_sent (E.remedy error)
            (Self.shown self.old).local_state (Self.shown self.old).output_handle) ≡ true) };

    // Other properties replace those of the flow state.
    ghost shown_with_properties: { (l : Self) (p : Option (List (List ℕ × Data)))
        → Self.shown (with_properties l p) ≡ record (Self.shown l) {
          flow_state = record (Self.shown l).flow_state { properties = p };
        } };

    // Another limit of frames replaces that alone.
    ghost shown_with_frame_limit: { (l : Self) (n : ℕ)
        → Self.shown (with_frame_limit l n) ≡ record (Self.shown l) { max_frame_size = n } };
}

/// A link endpoint with all calls that both roles have.
///
/// These calls by kind, in the order in which a session needs them, and what each asks its caller to do next. Those of
/// one role stand at `SenderLink` and `ReceiverLink`.
///
/// - **Build**: `new` of the endpoint, then `with_output_handle` with the handle that the session gives;
///   `set_max_frame_size` as soon as the peer's limit is known.
/// - **Attach**: `send_attach` makes the attach to send, `on_incoming_attach` takes the peer's and returns how to
///   continue. Both orders are right, but a sender with unsettled deliveries sends first: its attach states those that
///   it still holds. If the attach is refused, `handle_attach_error` makes the detach to send.
/// - **Detach**: `send_detach` makes the detach to send, `on_detach_reply` takes the peer's reply. A detach of the
///   peer's goes to `on_incoming_detach` of the endpoint, which returns the detach to reply with, and then to
///   `apply_remote_detach_outcome`, which moves the state. After an incomplete exchange `send_detach` has no
///   transition: send the frame of `endpoint::detach_frame`, which moves no state, and give the peer's reply to
///   `apply_remote_detach_outcome`. If the session or the connection is lost, call `on_session_lost`: nothing is sent.
///   To attach again, set the handle that the session gives by `output_handle_mut`, and call `send_attach`.
/// - **Look**: `local_state`, `name`, `flow_state`, `unsettled`, `unsettled_map`, `output_handle`, `input_handle`, the
///   modes, `max_message_size`, `properties` (which `properties_mut` changes), and `complete_attach_fits`, which
///   measures an attach.
pub trait Link: LinkAttach + LinkExt {}

impl<L: LinkAttach + LinkExt> Link for L {}
