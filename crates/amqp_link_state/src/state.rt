//! The state and the flow state of a link endpoint (2.6.7).
//!
//! Only the receiver grants credit; each delivery takes one at both endpoints. Counts are serial numbers that
//! wrap, so no line here compares two of them by `<`.
ghost use Rattle.std.specs.Prelude.{◌≡◌};
ghost use Rattle.std.specs.Borrow.{Lends, sem};
ghost use Rattle.std.specs.contracts.option.Option.{the_row as option_row};
ghost use Rattle.amqp_link_state.specs.contracts.state.LinkFlowState.{the_row as flow_row};
ghost use Rattle.amqp_link_values.specs.contracts.fields.Fields.{the_row as fields_row};

mod flow;

use crate::role::{ReceiverMarker, SenderMarker};
use amqp_link_types::types::{Fields, SequenceNo};
use std::marker::{Model, PhantomData};
use thiserror::Error;

/// The link-credit that a receiver grants if its user does not choose another.
pub const DEFAULT_CREDIT: u32 = 200;

/// The state of a link endpoint between attach and detach (2.6.3 to 2.6.6).
///
/// The state moves when an attach is sent or arrives, and when a detach is sent or arrives:
///
/// ```text
///                         attach sent                      attach comes
///     Unattached ------------------------> AttachSent ---------------------> Attached
///     Unattached ------------------------> AttachReceived                    ^
///                         attach comes         |           attach sent       |
///                                              +-----------------------------+
///
///                         detach sent                      detach comes
///     Attached --------------------------> DetachSent ---------------------> Detached
///     Attached --------------------------> CloseSent ----------------------> Closed
///                        closing one sent                 closing one comes
///
///     Detached: as Unattached.       DetachSent: an attach may be sent as from Unattached.
///     Any state but Unattached, Detached and Closed, as the peer initiates a detach:
///     ---> Detached, or Closed where that detach closes.
///     The same states, as the session is lost: ---> Detached.
/// ```
///
/// An attach whose unsettled map is incomplete leads to the state of the same name with `Incomplete` in
/// front, and from there the exchange ends in `IncompleteAttachExchanged`; so does it if the second attach is
/// incomplete.
#[derive(Clone, Copy, Debug, Default, PartialEq, Eq)]
pub enum LinkState {
    /// Neither endpoint has sent an attach.
    #[default]
    Unattached,
    /// An attach was sent.
    AttachSent,
    /// An attach was sent whose unsettled map is incomplete.
    IncompleteAttachSent,
    /// An attach arrived.
    AttachReceived,
    /// An attach arrived whose unsettled map is incomplete.
    IncompleteAttachReceived,
    /// Both attaches were exchanged.
    Attached,
    /// Both attaches were exchanged, and the unsettled map of one of them is incomplete.
    IncompleteAttachExchanged,
    /// A detach that does not close was sent.
    DetachSent,
    /// The link is detached, and may be attached again.
    Detached,
    /// A detach that closes was sent.
    CloseSent,
    /// The link is closed for good.
    Closed,
}

/// The delivery-counts, the link-credit and the flags of one link endpoint (2.6.7).
#[derive(Debug, Default, Drop)]
pub struct LinkFlowStateInner {
    /// The sender's delivery-count when the link was attached.
    pub initial_delivery_count: SequenceNo,
    /// The delivery-count: the initial one, and one more for each delivery sent; it wraps.
    pub delivery_count: SequenceNo,
    /// The link-credit: how many more deliveries may be sent.
    pub link_credit: u32,
    /// How many deliveries wait at the sender.
    pub available: u32,
    /// Whether the sender is to use up its credit at once.
    pub drain: bool,
    /// Further properties of the link.
    pub properties: Option<Fields>,
}

/// There is less credit than was to be spent, and none was spent. Try again after the receiver's next flow.
#[derive(Clone, Copy, Debug, PartialEq, Eq, Error)]
#[error("there is less link credit than was to be spent")]
pub struct InsufficientCredit;

/// The flow state of one link endpoint, whose role is `R`.
///
/// A contract sees the delivery-counts, the link-credit and the flags.
#[derive(Debug, Drop)]
pub struct LinkFlowState<R> {
    inner: LinkFlowStateInner,
    role: PhantomData<R>,
}

impl<R> Model for LinkFlowState<R> {
    ghost use Rattle.std.specs.Coded.{codes};
    ghost use Rattle.amqp_link_values.specs.contracts.fields.Fields as fields;
    ghost use Rattle.amqp_link_state.specs.declared.state.LinkFlowStateInner.{LinkFlowStateInner as TheLinkFlowStateInner};

    ghost Value = { TheLinkFlowStateInner };

    ghost coded = { Prim.hlevel (codes, fields.the_row.coded) };

    ghost view = { λ flow. flow.inner };
}

impl<R> LinkFlowState<R> {
    /// The sender's delivery-count when the link was attached.
    pub fn initial_delivery_count(&self) -> SequenceNo
        ensures { result ≡ self.now.initial_delivery_count }
    {
        self.inner.initial_delivery_count
    }

    /// The delivery-count: the initial one, and one more for each delivery sent; it wraps.
    pub fn delivery_count(&self) -> SequenceNo
        ensures { result ≡ self.now.delivery_count }
    {
        self.inner.delivery_count
    }

    /// The link-credit: how many more deliveries may be sent.
    pub fn link_credit(&self) -> u32
        ensures { result ≡ self.now.link_credit }
    {
        self.inner.link_credit
    }

    /// Whether the sender is to use up its credit at once.
    pub fn drain(&self) -> bool
        ensures { result ≡ self.now.drain }
    {
        self.inner.drain
    }

    /// Further properties of the link.
    pub fn properties(&self) -> &Option<Fields>
        ensures { result.now ≡ self.now.properties }
    {
        &self.inner.properties
    }

    /// Further properties of the link, to be written. Does not allocate.
    pub fn properties_mut(&mut self) -> &mut Option<Fields>
        ensures value { result.now ≡ self.old.properties }
        ensures* lends { sem 𝓛 (Lends (flow_row R.row) (option_row fields_row) self.entry result
            (λ properties. record self.old { properties = properties })) }
    {
        &mut self.inner.properties
    }

    /// Sets the initial delivery-count to what `f` returns for it. Does not allocate.
    pub fn initial_delivery_count_mut<F: FnOnce(SequenceNo) -> SequenceNo>(&mut self, f: F)
        requires { F.pre f self.old.initial_delivery_count }
        ensures count { F.post f self.old.initial_delivery_count self.new.initial_delivery_count }
        ensures others { self.new ≡ record self.old { initial_delivery_count = self.new.initial_delivery_count } }
    {
        let flow = &mut self.inner;
        flow.initial_delivery_count = f(flow.initial_delivery_count);
    }

    /// Sets the delivery-count to what `f` returns for it. Does not allocate.
    pub fn delivery_count_mut<F: FnOnce(SequenceNo) -> SequenceNo>(&mut self, f: F)
        requires { F.pre f self.old.delivery_count }
        ensures count { F.post f self.old.delivery_count self.new.delivery_count }
        ensures others { self.new ≡ record self.old { delivery_count = self.new.delivery_count } }
    {
        let flow = &mut self.inner;
        flow.delivery_count = f(flow.delivery_count);
    }
}

impl LinkFlowState<ReceiverMarker> {
    /// A receiver's flow state. Does not allocate.
    pub fn receiver(inner: LinkFlowStateInner) -> Self
        ensures { result ≡ inner }
    {
        LinkFlowState {
            inner,
            role: PhantomData,
        }
    }
}

impl LinkFlowState<SenderMarker> {
    /// A sender's flow state. Does not allocate.
    pub fn sender(inner: LinkFlowStateInner) -> Self
        ensures { result ≡ inner }
    {
        LinkFlowState {
            inner,
            role: PhantomData,
        }
    }
}
