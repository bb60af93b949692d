//! What holds over the definitions that contracts cite. Each function does nothing: its contract is the law.

pub use amqp_link_core::laws::merging_keeps_settlement_and_outcome;
pub use amqp_link_credit::laws::{
    a_run_refuses_only_for_memory, credit_is_kept, deliveries_complete_in_order,
};
pub use amqp_link_dispositions::laws::{
    each_ends_once, frames_name_what_is_kept, frames_name_what_is_listed,
};
pub use amqp_link_exchange::laws::{each_tag_is_answered_once, front_and_rest_are_the_payload};
pub use amqp_link_inbox::laws::{a_transfer_changes_its_own_delivery, bytes_are_those_that_came};
pub use amqp_link_inbox_runs::laws::{
    a_position_gives_the_rest, an_inbox_holds_what_a_ledger_sends,
};
pub use amqp_link_ledger::laws::{fates_move_once, outcomes_are_of_pending_records};
pub use amqp_link_payloads::laws::{data_sections_are_read, positions_name_fronts};
pub use amqp_link_runs::laws::sorted_is_sorted_stably;
pub use amqp_link_split::laws::{frames_of_a_split_fit, split_pieces_are_the_payload};
pub use amqp_link_state::laws::{
    each_credit_is_spent_or_given_back, serial_difference_is_the_nearest,
};
pub use amqp_link_worlds::laws::{
    a_kept_pair_is_good, a_new_pair_is_kept, an_attach_goes_in_four_steps,
    an_attach_hands_out_each_delivery_once, each_call_keeps_a_pair, each_run_keeps_a_pair,
    endpoints_refuse_only_for_memory, fates_move_once_in_a_run, held_is_what_arrived,
    held_is_what_was_sent, no_payload_changes, only_a_settlement_resolves,
    only_arrivals_and_settlements_change_what_is_held, out_from_send_or_resumption_on,
};
