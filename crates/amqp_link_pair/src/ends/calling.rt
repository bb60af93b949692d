//! Flows and dispositions between attached endpoints, which do not go over the wire, and what a lost session leaves of
//! them (2.5.2, 2.6.4, 2.6.7, 2.6.12).
ghost use Rattle.std.specs.Prelude.{◌≡◌, ◌∷◌, [], true, false, None, Some, Ok, IsSome};
ghost use Rattle.amqp_link_types.specs.Entries.{entry_at, without_entry};
ghost use Rattle.amqp_link_types.specs.declared.types.delivery_state.DeliveryState.TheVariants.{Accepted};
ghost use Rattle.amqp_link_state.specs.Counts.{granted, stated_flow};
ghost use Rattle.amqp_link_ledger.specs.Fates.{Resolves, after};
ghost use Rattle.amqp_link_worlds.specs.Callable.{CanGrant, CanCut};
ghost use Rattle.amqp_link_worlds.specs.Steps.{with_credit};
ghost use Rattle.amqp_link_pair.specs.Endpoints.{IsFlow, without_session, ledger_without_session};

use crate::ends::{Ends, Stage};
use amqp_link_endpoint::endpoint::{LinkDetach, LinkExt};
use amqp_link_receiver::receiver_link::ReceiverLink;
use amqp_link_types::delivery::DeliveryInfo;
use amqp_link_types::frame::LinkFrame;
use amqp_link_types::types::{DeliveryState, Disposition, LinkFlow, Target};
use std::alloc::AllocError;

// The flow in a frame that has one.
fn flow_in(frame: LinkFrame) -> LinkFlow
    requires { IsFlow frame }
    ensures { frame ≡ LinkFrame.Flow result }
{
    let LinkFrame::Flow(flow) = frame else {
        unreachable!()
    };
    flow
}

// The receiver's flow with this credit.
fn state_credit(receiver: &mut ReceiverLink<Target>, credit: u32) -> LinkFlow
    requires { receiver.old.output_handle ≡ Some (record { 0 = 0 }) }
    ensures flow { result ≡ stated_flow (with_credit receiver.old.flow_state credit) (record { 0 = 0 }) false false }
    ensures after { receiver.new ≡ record receiver.old { flow_state = with_credit receiver.old.flow_state credit } }
{
    match receiver.send_flow(Some(credit), None, false, false) {
        Ok(frame) => flow_in(frame),
        Err(_) => unreachable!(),
    }
}

// The receiver's disposition of a delivery that it reports: accepted, and settled.
fn accept(receiver: &mut ReceiverLink<Target>, info: &DeliveryInfo) -> Disposition
    requires { IsSome (entry_at receiver.old.unsettled info.now.delivery_tag) }
    ensures settled { result.settled ≡ true }
    ensures state { result.state ≡ Some Accepted }
    ensures after { receiver.new ≡ record receiver.old {
      unsettled = without_entry receiver.old.unsettled info.now.delivery_tag;
    } }
{
    let told = receiver.dispose(info, Some(true), DeliveryState::Accepted, false);
    let Ok(Some(LinkFrame::Disposition(told))) = told else {
        unreachable!()
    };
    told
}

impl Ends {
    /// The receiver's flow with this credit arrives at the sender. Returns the sender's link-credit then.
    pub(crate) fn grant(&mut self, credit: u32) -> u32
        requires { CanGrant self.old.ledger.link self.old.receiver }
        ensures credit { result ≡ granted self.old.receiver.flow_state.delivery_count credit
            self.old.ledger.link.flow_state.delivery_count }
        ensures after { self.new ≡ record self.old {
          ledger = record self.old.ledger {
            link = record self.old.ledger.link { flow_state = with_credit self.old.ledger.link.flow_state result };
          };
          receiver = record self.old.receiver { flow_state = with_credit self.old.receiver.flow_state credit };
        } }
    {
        let flow = state_credit(&mut self.receiver, credit);
        let _ = self.ledger.on_incoming_flow(flow);
        self.ledger.flow_state().link_credit()
    }

    /// Both endpoints lose their session.
    pub(crate) fn cut(&mut self)
        requires { CanCut self.old.ledger.link self.old.receiver }
        ensures { self.new ≡ record self.old {
          stage = Stage.Apart;
          ledger = ledger_without_session self.old.ledger;
          receiver = without_session self.old.receiver;
        } }
    {
        self.ledger.on_session_lost();
        self.receiver.on_session_lost();
        self.stage = Stage::Apart;
    }

    /// The receiver disposes of a delivery as accepted and settled, and the sender takes that disposition. Does not
    /// allocate.
    pub(crate) fn settle(&mut self, info: &DeliveryInfo)
        requires sender { IsSome (entry_at self.old.ledger.link.unsettled info.now.delivery_tag) }
        requires receiver { IsSome (entry_at self.old.receiver.unsettled info.now.delivery_tag) }
        ensures { self.new ≡ record self.old {
          ledger = record {
            link = record self.old.ledger.link {
              unsettled = without_entry self.old.ledger.link.unsettled info.now.delivery_tag;
            };
            records = after (Resolves ((info.now.delivery_tag, Ok (Some Accepted)) ∷ [])) self.old.ledger.records;
          };
          receiver = record self.old.receiver {
            unsettled = without_entry self.old.receiver.unsettled info.now.delivery_tag;
          };
        } }
    {
        let told = accept(&mut self.receiver, info);
        let tag = info.delivery_tag();
        match self
            .ledger
            .on_incoming_disposition(told.settled, told.state, tag)
        {
            Ok(ended) => drop(ended),
            Err(_) => unreachable!(),
        }
    }
}
