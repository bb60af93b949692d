//! Samples for tests: a test that is out of memory stops.
use amqp_link_endpoint::link_parts::LinkParts;
use amqp_link_tests_support::{links, table};
use amqp_link_types::types::{Attach, DeliveryTag, Role, SenderSettleMode, Target};
use std::process::Abort;

pub(crate) fn parts(
    rt: &(impl Abort + AllocGlobal),
    mode: SenderSettleMode,
    max_frame_size: u32,
) -> LinkParts<Target> {
    links::parts(rt.alloc(), mode, max_frame_size).expect(rt, "memory")
}

pub(crate) fn coming(rt: &(impl Abort + AllocGlobal), role: Role, incomplete: bool) -> Attach {
    table::coming(rt.alloc(), role, incomplete).expect(rt, "memory")
}

pub(crate) fn attach_of(
    rt: &(impl Abort + AllocGlobal),
    role: Role,
    mode: SenderSettleMode,
) -> Attach {
    links::attach_of(rt.alloc(), role, mode).expect(rt, "memory")
}

pub(crate) fn count_tag(rt: &(impl Abort + AllocGlobal), count: u8) -> DeliveryTag {
    links::count_tag(rt.alloc(), count).expect(rt, "memory")
}
