//! Words for what is printed.
use amqp_link::inbox::Arrival;

/// What a transfer has made of its delivery.
pub fn arrival_word(arrival: Arrival) -> &'static str {
    match arrival {
        Arrival::Begun => "begun",
        Arrival::Continued => "continued",
        Arrival::Complete => "complete",
        Arrival::CompleteSettled => "complete and settled",
        Arrival::Known => "known",
        Arrival::Aborted(_) => "aborted",
        Arrival::Ignored => "ignored",
    }
}
