//! Parts of links for tests.
use amqp_link_endpoint::link_parts::LinkParts;
use amqp_link_types::types::{
    Attach, DeliveryTag, Fields, Handle, LinkFlow, LinkRelayError, ReceiverSettleMode, Role,
    SenderSettleMode, Source, Symbol, Target, TargetArchetype, Text, Value,
};
use std::alloc::{AllocError, Global};

pub fn text(alloc: Global, words: &str) -> Result<Text, AllocError> {
    Ok(Text::from(String::from_str(alloc, words)?))
}

/// The link "l" with a source and a target without fields, in this mode, with this frame limit.
pub fn parts(
    alloc: Global,
    mode: SenderSettleMode,
    max_frame_size: u32,
) -> Result<LinkParts<Target>, AllocError> {
    let name = text(alloc, "l")?;
    let (source, target) = (Source::default(), Target::default());
    let mut parts = LinkParts::new(name, Some(source), Some(target), max_frame_size);
    parts.snd_settle_mode = mode;
    Ok(parts)
}

/// The peer's attach of that link, at handle 0.
pub fn attach_of(alloc: Global, role: Role, mode: SenderSettleMode) -> Result<Attach, AllocError> {
    let name = text(alloc, "l")?;
    Ok(Attach {
        name,
        handle: Handle(0),
        role,
        snd_settle_mode: mode,
        rcv_settle_mode: ReceiverSettleMode::First,
        source: Some(Source::default()),
        target: Some(TargetArchetype::from(Target::default())),
        unsettled: None,
        incomplete_unsettled: false,
        initial_delivery_count: Some(0),
        max_message_size: None,
        offered_capabilities: None,
        desired_capabilities: None,
        properties: None,
    })
}

/// The tag of a count that is less than 256.
pub fn count_tag(alloc: Global, count: u8) -> Result<DeliveryTag, AllocError> {
    DeliveryTag::copied(alloc, &[0, 0, 0, count])
}

/// Properties of one pair, a name to 7.
pub fn fields(alloc: Global, name: &str) -> Result<Fields, AllocError> {
    let mut fields = Fields::new(alloc);
    let name = String::from_str(alloc, name)?;
    drop(fields.insert(Symbol::from(name), Value::Uint(7)));
    Ok(fields)
}

/// The fields of a flow; of its properties, whether it has them.
#[derive(Clone, Copy, Debug, PartialEq, Eq)]
pub struct FlowFields {
    pub handle: u32,
    pub count: Option<u32>,
    pub credit: Option<u32>,
    pub available: Option<u32>,
    pub drain: bool,
    pub echo: bool,
    pub has_properties: bool,
}

/// The fields of a flow.
pub fn flow_fields(flow: &LinkFlow) -> FlowFields {
    FlowFields {
        handle: flow.handle.0,
        count: flow.delivery_count,
        credit: flow.link_credit,
        available: flow.available,
        drain: flow.drain,
        echo: flow.echo,
        has_properties: flow.properties.is_some(),
    }
}

fn fields_of_reply(
    answer: &Result<Option<LinkFlow>, LinkRelayError>,
) -> Result<Option<FlowFields>, LinkRelayError> {
    match answer {
        Ok(Some(flow)) => Ok(Some(flow_fields(flow))),
        Ok(None) => Ok(None),
        Err(error) => Err(*error),
    }
}

/// The fields of the flow that a call returned as its reply, if it did.
pub fn reply_fields(
    answer: Result<Option<LinkFlow>, LinkRelayError>,
) -> Result<Option<FlowFields>, LinkRelayError> {
    fields_of_reply(&answer)
}

/// Whether a call succeeded. Its result is dropped.
pub fn went<T: Drop, E: Drop>(answer: Result<T, E>) -> bool {
    answer.is_ok()
}
