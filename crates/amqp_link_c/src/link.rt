//! What both roles of a link have: its handles, its frame limit, what it shows, and a lost session.
ghost use Rattle.std.specs.Prelude.{◌≡◌, None, IfSome, unwrap_or};
ghost use Rattle.amqp_link_c.specs.Calls.{wrong_status};
ghost use Rattle.amqp_link_c.specs.Links.{link_status_in, name_in, plain_link, view_in, with_frame_limit, with_output_handle, without_session};
ghost use Rattle.amqp_link_c.specs.Reading.{IsCopied};
ghost use Rattle.amqp_link_object.specs.Objects.{value_in};

use amqp_link_endpoint::endpoint::{LinkDetach, LinkExt};
use amqp_link_flat::numbers::{number_of_receiver_mode, number_of_sender_mode, number_of_state};
use amqp_link_flat::status::{EMPTY, OK, Status, WRONG_KIND};
use amqp_link_flat::texts::copy_out;
use amqp_link_object::{Object, State};
use amqp_link_types::types::OutputHandle;
use std::alloc::Global;

/// What a link shows.
#[repr(C)]
#[derive(Drop)]
pub struct LinkView {
    /// The largest message in bytes; 0 is no limit.
    pub max_message_size: u64,
    /// How many deliveries are unsettled.
    pub unsettled: usize,
    /// The state: `AMQP_STATE_UNATTACHED` and so on.
    pub state: u32,
    /// The handle under which this endpoint sends.
    pub output_handle: u32,
    /// The handle under which the peer sends.
    pub input_handle: u32,
    /// The delivery-count.
    pub delivery_count: u32,
    /// The link-credit.
    pub link_credit: u32,
    /// When the sender settles: `AMQP_SENDER_UNSETTLED` and so on.
    pub snd_settle_mode: u32,
    /// When the receiver settles: `AMQP_RECEIVER_FIRST` or `AMQP_RECEIVER_SECOND`.
    pub rcv_settle_mode: u32,
    /// Whether `output_handle` is there.
    pub has_output_handle: bool,
    /// Whether `input_handle` is there.
    pub has_input_handle: bool,
    /// Whether the sender is to use up its credit at once.
    pub drain: bool,
}

/// Sets the handle that the session gives the link, under which it sends.
#[unsafe(no_mangle)]
pub extern "C" fn amqp_link_set_output_handle(
    alloc: Global,
    link: &mut Object,
    handle: u32,
) -> Status
    ensures status { result ≡ link_status_in (value_in link.old) }
    ensures set { value_in link.new ≡ with_output_handle handle (value_in link.old) }
{
    with_value!(alloc, link, Sender | Receiver, end => {
        *end.output_handle_mut() = Some(OutputHandle(handle));
        OK
    })
}

/// Sets the largest size of a frame in bytes, without the four bytes of its size in front. A performative is counted with the
/// shortest code of each value: if the session's encoder writes longer ones, lower the limit by what they add.
#[unsafe(no_mangle)]
pub extern "C" fn amqp_link_set_max_frame_size(
    alloc: Global,
    link: &mut Object,
    max_frame_size: u32,
) -> Status
    ensures status { result ≡ link_status_in (value_in link.old) }
    ensures set { value_in link.new ≡ with_frame_limit max_frame_size (value_in link.old) }
{
    with_value!(alloc, link, Sender | Receiver, end => {
        end.set_max_frame_size(max_frame_size);
        OK
    })
}

/// The session of the link is lost: no frame says so. What is unsettled, the counts, the credit and the fates stay. Set a
/// handle then, and attach again.
#[unsafe(no_mangle)]
pub extern "C" fn amqp_link_on_session_lost(alloc: Global, link: &mut Object) -> Status
    ensures status { result ≡ link_status_in (value_in link.old) }
    ensures lost { value_in link.new ≡ without_session (value_in link.old) }
{
    with_value!(alloc, link, Sender | Receiver, end => {
        end.on_session_lost();
        OK
    })
}

// What a link shows.
fn view_of<L: LinkExt>(link: &L) -> LinkView
    ensures { result ≡ plain_link (L.shown link.now) }
{
    let (output, input) = (link.output_handle(), link.input_handle());
    let flow = link.flow_state();
    LinkView {
        max_message_size: link.max_message_size().unwrap_or(0),
        unsettled: link.unsettled_map().len(),
        state: number_of_state(*link.local_state()),
        output_handle: match output {
            Some(handle) => handle.0,
            None => 0,
        },
        input_handle: match input {
            Some(handle) => handle.0,
            None => 0,
        },
        delivery_count: flow.delivery_count(),
        link_credit: flow.link_credit(),
        snd_settle_mode: number_of_sender_mode(link.snd_settle_mode()),
        rcv_settle_mode: number_of_receiver_mode(*link.rcv_settle_mode()),
        has_output_handle: output.is_some(),
        has_input_handle: input.is_some(),
        drain: flow.drain(),
    }
}

/// What a link shows.
#[unsafe(no_mangle)]
pub extern "C" fn amqp_link_look(alloc: Global, link: &mut Object, view: &mut LinkView) -> Status
    ensures status { result ≡ link_status_in (value_in link.old) }
    ensures view { view.new ≡ unwrap_or (view_in (value_in link.old)) view.old }
    ensures left { value_in link.new ≡ value_in link.old }
{
    with_value!(alloc, link, Sender | Receiver, end => {
        *view = view_of(end);
        OK
    })
}

/// The name of a link, copied out.
#[unsafe(no_mangle)]
pub extern "C" fn amqp_link_name(
    alloc: Global,
    link: &mut Object,
    name: &mut [u8],
    name_size: &mut usize,
) -> Status
    ensures kind { name_in (value_in link.old) ≡ None
        → (result ≡ wrong_status (value_in link.old)) × (name.new ≡ name.old) × (name_size.new ≡ name_size.old) }
    ensures copied { IfSome (name_in (value_in link.old)) (λ named.
        IsCopied named name.old name.new name_size.new result) }
    ensures left { value_in link.new ≡ value_in link.old }
{
    with_value!(alloc, link, Sender | Receiver, end => {
        copy_out(end.name().as_bytes(), name, name_size)
    })
}
