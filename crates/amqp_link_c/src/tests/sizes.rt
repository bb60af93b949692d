//! The sizes of the structs: `tests_c/layout.stdout` has the same numbers, and the offsets, which a C program prints.
use crate::frames::Sizes;
use crate::link::LinkView;
use crate::outcomes::Outcome;
use crate::receiver::arriving::Arriving;
use crate::receiver::taking::{DeliveryView, KeptView};
use amqp_link_flat::attach::{AttachFields, Terminus};
use amqp_link_flat::delivery_state::DeliveryStateFields;
use amqp_link_flat::detach::Detach;
use amqp_link_flat::disposition::Disposition;
use amqp_link_flat::flow::Flow;
use amqp_link_flat::terms::Terms;
use amqp_link_flat::transfer::Transfer;
use amqp_link_object::Object;
use std::mem::size_of;

#[test]
fn structs_have_the_sizes_that_c_prints(rt: HostRuntime) {
    let rows = [
        (size_of::<Object>(), 16),
        (size_of::<LinkView>(), 48),
        (size_of::<AttachFields>(), 32),
        (size_of::<Terminus>(), 16),
        (size_of::<DeliveryStateFields>(), 24),
        (size_of::<Transfer>(), 56),
        (size_of::<Sizes>(), 16),
        (size_of::<Flow>(), 24),
        (size_of::<Disposition>(), 40),
        (size_of::<Detach>(), 8),
        (size_of::<Outcome>(), 32),
        (size_of::<Terms>(), 32),
        (size_of::<Arriving>(), 20),
        (size_of::<KeptView>(), 12),
        (size_of::<DeliveryView>(), 24),
    ];
    for (size, wanted) in rows {
        assert_eq!(rt; size, wanted);
    }
}
