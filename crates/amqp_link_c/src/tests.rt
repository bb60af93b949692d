//! The exports, called as C calls them.

// Makes a call, and makes it again if it is out of memory.
macro_rules! again {
    ($call:expr) => {{
        let status = $call;
        done(if status == OUT_OF_MEMORY { $call } else { status })
    }};
}

mod calls;
mod links;
mod refusals;
mod sizes;
mod two_links;

use amqp_link_flat::attach::{AttachFields, Terminus};
use amqp_link_flat::delivery_state::{ACCEPTED, DeliveryStateFields, NO_STATE};
use amqp_link_flat::flow::Flow;
use amqp_link_flat::numbers::{EXPIRES_SESSION_END, SENDER_MIXED};
use amqp_link_flat::terms::Terms;
use amqp_link_flat::transfer::Transfer;
use std::alloc::{AllocError, AllocFailed};
use std::fmt;

// Why a test ends early: a call was refused with this status, or it is out of memory.
#[derive(Debug, Drop)]
struct Refused(u32);

impl From<AllocError> for Refused {
    fn from(_error: AllocError) -> Refused {
        Refused(3)
    }
}

impl<T: Drop> From<AllocFailed<T>> for Refused {
    fn from(_error: AllocFailed<T>) -> Refused {
        Refused(3)
    }
}

impl From<fmt::Error> for Refused {
    fn from(_error: fmt::Error) -> Refused {
        Refused(3)
    }
}

// Goes on after a call that is done.
fn done(status: u32) -> Result<(), Refused> {
    if status == 0 {
        Ok(())
    } else {
        Err(Refused(status))
    }
}

fn terms() -> Terms {
    Terms {
        max_message_size: 0,
        max_frame_size: 64,
        snd_settle_mode: SENDER_MIXED,
        rcv_settle_mode: 0,
        initial_delivery_count: 0,
        verify_incoming_source: false,
        verify_incoming_target: false,
    }
}

// A terminus without an address.
fn terminus() -> Terminus {
    Terminus {
        durable: 0,
        expiry_policy: EXPIRES_SESSION_END,
        timeout: 0,
        is_there: true,
        has_address: false,
        dynamic: false,
    }
}

fn state(kind: u32) -> DeliveryStateFields {
    DeliveryStateFields {
        section_offset: 0,
        kind,
        section_number: 0,
        has_error: false,
        has_description: false,
        has_delivery_failed: false,
        delivery_failed: false,
        has_undeliverable_here: false,
        undeliverable_here: false,
    }
}

fn accepted() -> DeliveryStateFields {
    state(ACCEPTED)
}

fn flow() -> Flow {
    Flow {
        handle: 0,
        delivery_count: 0,
        link_credit: 0,
        available: 0,
        has_delivery_count: false,
        has_link_credit: false,
        has_available: false,
        drain: false,
        echo: false,
    }
}

fn transfer() -> Transfer {
    Transfer {
        state: state(NO_STATE),
        handle: 0,
        delivery_id: 0,
        message_format: 0,
        rcv_settle_mode: 0,
        has_delivery_id: false,
        has_tag: false,
        has_message_format: false,
        has_settled: false,
        settled: false,
        more: false,
        has_rcv_settle_mode: false,
        resume: false,
        aborted: false,
        batchable: false,
    }
}

fn attach_fields() -> AttachFields {
    AttachFields {
        max_message_size: 0,
        handle: 0,
        role: 0,
        snd_settle_mode: SENDER_MIXED,
        rcv_settle_mode: 0,
        initial_delivery_count: 0,
        has_max_message_size: false,
        has_initial_delivery_count: false,
        incomplete_unsettled: false,
    }
}
