//! Parts that have something to copy in every place where a copy needs memory.
use amqp_link_types::types::{
    Attach, Boxed, DeliveryState, DeliveryTag, DistributionMode, Error, Fields, Handle, Outcome,
    ReceiverSettleMode, Role, SenderSettleMode, Source, Symbol, Symbols, Target, TargetArchetype,
    TerminusDurability, TerminusExpiryPolicy, Text, UnsettledMap, Value,
};
use std::process::Abort;

fn text(rt: &(impl Abort + AllocGlobal), words: &str) -> Text {
    let words = String::from_str(rt.alloc(), words);
    Text::from(words.expect(rt, "memory"))
}

fn symbol(rt: &(impl Abort + AllocGlobal), name: &str) -> Symbol {
    let name = String::from_str(rt.alloc(), name);
    Symbol::from(name.expect(rt, "memory"))
}

// A tag of one byte.
pub(crate) fn tag(rt: &(impl Abort + AllocGlobal), byte: u8) -> DeliveryTag {
    let bytes = vec![in rt.alloc(); byte];
    DeliveryTag::from(bytes.expect(rt, "memory"))
}

fn symbols(rt: &(impl Abort + AllocGlobal), name: &str) -> Symbols {
    let names = vec![in rt.alloc(); symbol(rt, name)];
    Symbols::from(names.expect(rt, "memory"))
}

// A field with a number.
pub(crate) fn fields(rt: &(impl Abort + AllocGlobal), number: u32) -> Fields {
    let mut fields = Fields::new(rt.alloc());
    let put = fields.insert(symbol(rt, "k"), Value::Uint(number));
    put.expect(rt, "memory");
    fields
}

// A value in memory of its own.
pub(crate) fn boxed<T: Drop>(rt: &(impl Abort + AllocGlobal), value: T) -> Boxed<T> {
    Boxed::new(rt.alloc(), value).ok().expect(rt, "memory")
}

pub(crate) fn error(rt: &(impl Abort + AllocGlobal)) -> Error {
    Error {
        condition: symbol(rt, "x:y"),
        description: Some(text(rt, "words")),
        info: Some(fields(rt, 7)),
    }
}

// A source whose deliveries are rejected unless they end in another way.
fn rejecting(rt: &(impl Abort + AllocGlobal)) -> Source {
    Source {
        default_outcome: Some(Outcome::Rejected {
            error: Some(boxed(rt, error(rt))),
        }),
        outcomes: Some(symbols(rt, "a")),
        capabilities: Some(symbols(rt, "b")),
        ..Source::default()
    }
}

fn source(rt: &(impl Abort + AllocGlobal)) -> Source {
    Source {
        address: Some(text(rt, "q1")),
        durable: TerminusDurability::Configuration,
        expiry_policy: TerminusExpiryPolicy::Never,
        timeout: 7,
        dynamic: true,
        dynamic_node_properties: Some(fields(rt, 1)),
        distribution_mode: Some(DistributionMode::Copy),
        filter: Some(fields(rt, 2)),
        ..rejecting(rt)
    }
}

fn target(rt: &(impl Abort + AllocGlobal)) -> Target {
    Target {
        address: Some(text(rt, "q2")),
        durable: TerminusDurability::UnsettledState,
        expiry_policy: TerminusExpiryPolicy::LinkDetach,
        timeout: 8,
        dynamic: true,
        dynamic_node_properties: Some(fields(rt, 3)),
        capabilities: Some(symbols(rt, "c")),
    }
}

// A delivery of which no state is known, and an accepted one.
pub(crate) fn unsettled(rt: &(impl Abort + AllocGlobal)) -> UnsettledMap<Option<DeliveryState>> {
    let mut map = UnsettledMap::new(rt.alloc());
    map.put(tag(rt, 1), None).expect(rt, "memory");
    let accepted = Some(DeliveryState::Accepted);
    map.put(tag(rt, 2), accepted).expect(rt, "memory");
    map
}

// An attach without termini and without deliveries.
fn named(rt: &(impl Abort + AllocGlobal)) -> Attach {
    Attach {
        name: text(rt, "l"),
        handle: Handle(1),
        role: Role::Receiver,
        snd_settle_mode: SenderSettleMode::Settled,
        rcv_settle_mode: ReceiverSettleMode::Second,
        source: None,
        target: None,
        unsettled: None,
        incomplete_unsettled: true,
        initial_delivery_count: Some(2),
        max_message_size: Some(3),
        offered_capabilities: Some(symbols(rt, "d")),
        desired_capabilities: Some(symbols(rt, "e")),
        properties: Some(fields(rt, 4)),
    }
}

pub(crate) fn attach(rt: &(impl Abort + AllocGlobal)) -> Attach {
    Attach {
        source: Some(source(rt)),
        target: Some(TargetArchetype::from(target(rt))),
        unsettled: Some(unsettled(rt)),
        ..named(rt)
    }
}
