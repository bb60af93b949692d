//! The receiver of a link, with what has arrived of each delivery.
ghost use Rattle.std.specs.Prelude.{◌≡◌, ◌⊎◌, ◌↔◌, None, Some, IsSomeAnd, IsUtf8};
ghost use Rattle.amqp_link_flat.specs.Attaches.{AreLinkTexts, stated_parts};
ghost use Rattle.amqp_link_flat.specs.Refusing.{IsValueRefusal};
ghost use Rattle.amqp_link_object.specs.States.{receiver_in};
ghost use Rattle.amqp_link_inbox.specs.Inboxes.{inbox_of_parts};
ghost use Rattle.amqp_link_object.specs.Objects.{value_in};

pub(crate) mod arriving;
pub(crate) mod attach;
pub(crate) mod disposing;
pub(crate) mod flow;
pub(crate) mod taking;

use amqp_link_flat::attach::Terminus;
use amqp_link_flat::status::{OK, OUT_OF_MEMORY, Status};
use amqp_link_flat::terms::{LinkTexts, Terms};
use amqp_link_inbox::Inbox;
use amqp_link_object::{Object, Room, State};
use std::alloc::Global;

/// Makes the receiver of a link, which is not attached.
///
/// Refused in this order, with nothing changed: `AMQP_NO_SUCH_NUMBER` if a number in `terms`, `source` or `target` stands for
/// nothing; `AMQP_NO_TEXT` if the name or an address is no UTF-8.
#[unsafe(no_mangle)]
pub extern "C" fn amqp_receiver_new(
    alloc: Global,
    receiver: &mut Object,
    terms: &Terms,
    name: &[u8],
    source: &Terminus,
    source_address: &[u8],
    target: &Terminus,
    target_address: &[u8],
) -> Status
    ensures made { result ≡ 0 → IsSomeAnd (stated_parts terms.now source.now target.now name.now source_address.now
        target_address.now) (λ parts. receiver_in (value_in receiver.new) ≡ Some (inbox_of_parts parts)) }
    ensures number { (result ≡ 5) ↔ (stated_parts terms.now source.now target.now name.now source_address.now
        target_address.now ≡ None) }
    ensures no_text { result ≡ 4 → ¬ (AreLinkTexts source.now target.now name.now source_address.now target_address.now) }
    ensures utf8 { IsValueRefusal result ⊎ AreLinkTexts source.now target.now name.now source_address.now target_address.now }
    ensures name { result ≡ 3 → IsUtf8 name.now }
    ensures refused { (result ≡ 0) ⊎ IsValueRefusal result }
    ensures left { (result ≡ 0 → ⊥) → value_in receiver.new ≡ value_in receiver.old }
{
    let texts = LinkTexts {
        name,
        source: source_address,
        target: target_address,
    };
    let parts = match terms.to_parts(alloc, source, target, texts) {
        Ok(parts) => parts,
        Err(refused) => return refused,
    };
    let Some(room) = Room::new(alloc) else {
        drop(parts);
        return OUT_OF_MEMORY;
    };
    receiver.fill(room, State::Receiver(Inbox::new(alloc, parts)));
    OK
}
