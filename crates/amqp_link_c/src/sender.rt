//! The sender of a link, with what became of each of its deliveries.
ghost use Rattle.std.specs.Prelude.{◌≡◌, ◌⊎◌, ◌↔◌, [], None, Some, IsSomeAnd, IsUtf8};
ghost use Rattle.amqp_link_flat.specs.Attaches.{AreLinkTexts, stated_parts};
ghost use Rattle.amqp_link_flat.specs.Refusing.{IsValueRefusal};
ghost use Rattle.amqp_link_object.specs.States.{sender_in};
ghost use Rattle.amqp_link_sender.specs.Senders.{sender_of_parts};
ghost use Rattle.amqp_link_object.specs.Objects.{value_in};

pub(crate) mod attach;
pub(crate) mod flow;
pub(crate) mod resuming;
pub(crate) mod sending;
pub(crate) mod settling;

use amqp_link_flat::attach::Terminus;
use amqp_link_flat::status::{OK, OUT_OF_MEMORY, Status};
use amqp_link_flat::terms::{LinkTexts, Terms};
use amqp_link_ledger::ledger::OutcomeLedger;
use amqp_link_object::{Object, Room, State};
use amqp_link_sender::SenderLink;
use std::alloc::Global;

/// Makes the sender of a link, which is not attached.
///
/// Refused in this order, with nothing changed: `AMQP_NO_SUCH_NUMBER` if a number in `terms`, `source` or `target` stands for
/// nothing; `AMQP_NO_TEXT` if the name or an address is no UTF-8.
#[unsafe(no_mangle)]
pub extern "C" fn amqp_sender_new(
    alloc: Global,
    sender: &mut Object,
    terms: &Terms,
    name: &[u8],
    source: &Terminus,
    source_address: &[u8],
    target: &Terminus,
    target_address: &[u8],
) -> Status
    ensures made { result ≡ 0 → IsSomeAnd (stated_parts terms.now source.now target.now name.now source_address.now
        target_address.now) (λ parts. sender_in (value_in sender.new) ≡ Some (record { link = sender_of_parts parts; records = [] })) }
    ensures number { (result ≡ 5) ↔ (stated_parts terms.now source.now target.now name.now source_address.now
        target_address.now ≡ None) }
    ensures no_text { result ≡ 4 → ¬ (AreLinkTexts source.now target.now name.now source_address.now target_address.now) }
    ensures utf8 { IsValueRefusal result ⊎ AreLinkTexts source.now target.now name.now source_address.now target_address.now }
    ensures name { result ≡ 3 → IsUtf8 name.now }
    ensures refused { (result ≡ 0) ⊎ IsValueRefusal result }
    ensures left { (result ≡ 0 → ⊥) → value_in sender.new ≡ value_in sender.old }
{
    let texts = LinkTexts {
        name,
        source: source_address,
        target: target_address,
    };
    let parts = match terms.to_parts(alloc, source, target, texts) {
        Ok(parts) => parts,
        Err(refused) => return refused,
    };
    let Some(room) = Room::new(alloc) else {
        drop(parts);
        return OUT_OF_MEMORY;
    };
    match OutcomeLedger::new(alloc, SenderLink::new(alloc, parts)) {
        Ok(ledger) => {
            sender.fill(room, State::Sender(ledger));
            OK
        }
        Err(link) => {
            drop((link, room));
            OUT_OF_MEMORY
        }
    }
}
