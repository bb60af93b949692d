//! Attaches: what a session reads of one that is to be sent, and makes of one that has arrived (2.7.3).
ghost use Rattle.std.specs.Prelude.{◌≡◌, ◌⊎◌, ◌↔◌, [], None, Some, IfSome, IsSome, IsSomeAnd, IsTrue, IsUtf8, length, option_copied, slice_get, unwrap_or};
ghost use Rattle.amqp_link_c.specs.Attaching.{as_archetype, source_address, stated_error_at, target_address, unsettled_in, unsettled_of, with_unsettled};
ghost use Rattle.amqp_link_c.specs.Calls.{wrong_status};
ghost use Rattle.amqp_link_c.specs.Reading.{AreCopied, IsCopied, description_bytes};
ghost use Rattle.amqp_link_endpoint.specs.AttachFields.{remote_entries};
ghost use Rattle.amqp_link_flat.specs.Attaches.{CarriesAddress, IsAddress, plain_attach, plain_source, plain_target, stated_attach, stated_source, stated_target};
ghost use Rattle.amqp_link_flat.specs.Flat.{CarriesError, plain_state, stated_state};
ghost use Rattle.amqp_link_flat.specs.Refusing.{AreTexts, IsValueRefusal};
ghost use Rattle.amqp_link_object.specs.Objects.{value_in};
ghost use Rattle.amqp_link_object.specs.States.{attach_in};
ghost use Rattle.amqp_link_types.specs.Entries.{with_entry};

use crate::frames::{Sizes, copy_error};
use amqp_link_flat::attach::{AttachFields, Terminus};
use amqp_link_flat::delivery_state::{DeliveryStateFields, rejection_error};
use amqp_link_flat::status::{EMPTY, NO_SUCH_ENTRY, OK, OUT_OF_MEMORY, Status, WRONG_KIND};
use amqp_link_flat::texts::copy_out;
use amqp_link_object::{Object, Room, State};
use amqp_link_types::types::{
    Attach, DeliveryState, DeliveryTag, Error, Target, TargetArchetype, Text, UnsettledMap,
};
use std::alloc::Global;

/// Makes an attach as it has arrived: with these fields, without termini and unsettled deliveries.
///
/// Refused in this order, with nothing changed: `AMQP_NO_SUCH_NUMBER` if a role or a mode is none; `AMQP_NO_TEXT` if the name
/// is no UTF-8.
#[unsafe(no_mangle)]
pub extern "C" fn amqp_attach_new(
    alloc: Global,
    attach: &mut Object,
    name: &[u8],
    fields: &AttachFields,
) -> Status
    ensures made { result ≡ 0 → IsSomeAnd (stated_attach fields.now name.now) (λ made.
        attach_in (value_in attach.new) ≡ Some made) }
    ensures number { (result ≡ 5) ↔ (stated_attach fields.now name.now ≡ None) }
    ensures no_text { result ≡ 4 → ¬ (IsUtf8 name.now) }
    ensures utf8 { IsValueRefusal result ⊎ IsUtf8 name.now }
    ensures memory { result ≡ 3 → IsUtf8 name.now }
    ensures refused { (result ≡ 0) ⊎ IsValueRefusal result }
    ensures left { (result ≡ 0 → ⊥) → value_in attach.new ≡ value_in attach.old }
{
    let made = match fields.to_attach(alloc, name) {
        Ok(made) => made,
        Err(refused) => return refused,
    };
    let Some(room) = Room::new(alloc) else {
        drop(made);
        return OUT_OF_MEMORY;
    };
    attach.fill(room, State::Attach(made));
    OK
}

/// Sets the source of an attach.
///
/// Refused in this order, with nothing changed: `AMQP_NO_SUCH_NUMBER` if a number in `source` stands for nothing;
/// `AMQP_NO_TEXT` if the address is no UTF-8.
#[unsafe(no_mangle)]
pub extern "C" fn amqp_attach_set_source(
    alloc: Global,
    attach: &mut Object,
    source: &Terminus,
    address: &[u8],
) -> Status
    ensures kind { attach_in (value_in attach.old) ≡ None → result ≡ wrong_status (value_in attach.old) }
    ensures set { result ≡ 0 → IsSomeAnd (attach_in (value_in attach.old)) (λ before.
        IsSomeAnd (stated_source source.now address.now) (λ stated.
        attach_in (value_in attach.new) ≡ Some (record before { source = stated }))) }
    ensures number { IsSome (attach_in (value_in attach.old))
        → (result ≡ 5) ↔ (stated_source source.now address.now ≡ None) }
    ensures no_text { result ≡ 4 → CarriesAddress source.now × ¬ (IsUtf8 address.now) }
    ensures utf8 { IsSome (attach_in (value_in attach.old))
        → IsValueRefusal result ⊎ IsAddress source.now address.now }
    ensures memory { result ≡ 3 → CarriesAddress source.now × IsUtf8 address.now }
    ensures refused { IsSome (attach_in (value_in attach.old)) → (result ≡ 0) ⊎ IsValueRefusal result }
    ensures left { (result ≡ 0 → ⊥) → value_in attach.new ≡ value_in attach.old }
{
    with_value!(alloc, attach, Attach, made => match source.to_source(alloc, address) {
        Ok(source) => {
            made.source = source;
            OK
        }
        Err(refused) => refused,
    })
}

/// Sets the target of an attach.
///
/// Refused in this order, with nothing changed: `AMQP_NO_SUCH_NUMBER` if a number in `target` stands for nothing;
/// `AMQP_NO_TEXT` if the address is no UTF-8.
#[unsafe(no_mangle)]
pub extern "C" fn amqp_attach_set_target(
    alloc: Global,
    attach: &mut Object,
    target: &Terminus,
    address: &[u8],
) -> Status
    ensures kind { attach_in (value_in attach.old) ≡ None → result ≡ wrong_status (value_in attach.old) }
    ensures set { result ≡ 0 → IsSomeAnd (attach_in (value_in attach.old)) (λ before.
        IsSomeAnd (stated_target target.now address.now) (λ stated.
        attach_in (value_in attach.new) ≡ Some (record before { target = as_archetype stated }))) }
    ensures number { IsSome (attach_in (value_in attach.old))
        → (result ≡ 5) ↔ (stated_target target.now address.now ≡ None) }
    ensures no_text { result ≡ 4 → CarriesAddress target.now × ¬ (IsUtf8 address.now) }
    ensures utf8 { IsSome (attach_in (value_in attach.old))
        → IsValueRefusal result ⊎ IsAddress target.now address.now }
    ensures memory { result ≡ 3 → CarriesAddress target.now × IsUtf8 address.now }
    ensures refused { IsSome (attach_in (value_in attach.old)) → (result ≡ 0) ⊎ IsValueRefusal result }
    ensures left { (result ≡ 0 → ⊥) → value_in attach.new ≡ value_in attach.old }
{
    with_value!(alloc, attach, Attach, made => match target.to_target(alloc, address) {
        Ok(target) => {
            made.target = archetype(target);
            OK
        }
        Err(refused) => refused,
    })
}

// A target as an attach states it.
fn archetype(target: Option<Target>) -> Option<TargetArchetype>
    ensures { result ≡ as_archetype target }
{
    match target {
        Some(target) => Some(TargetArchetype::Target(target)),
        None => None,
    }
}

// Adds the state of a delivery to the map of an attach.
fn add_state(
    alloc: Global,
    map: &mut UnsettledMap<Option<DeliveryState>>,
    tag: &[u8],
    state: Option<DeliveryState>,
) -> u32
    ensures added { result ≡ 0 → map.new ≡ with_entry map.old tag.now state }
    ensures refused { (result ≡ 0) ⊎ (result ≡ 3) }
    ensures left { (result ≡ 0 → ⊥) → map.new ≡ map.old }
{
    let Ok(tag) = DeliveryTag::copied(alloc, tag) else {
        drop(state);
        return OUT_OF_MEMORY;
    };
    match map.put(tag, state) {
        Ok(before) => {
            drop(before);
            OK
        }
        Err(refused) => {
            drop(refused);
            OUT_OF_MEMORY
        }
    }
}

// Adds the state of a delivery to an attach.
fn add_unsettled(
    alloc: Global,
    attach: &mut Attach,
    tag: &[u8],
    state: Option<DeliveryState>,
) -> u32
    ensures added { result ≡ 0 → attach.new ≡ with_unsettled tag.now state attach.old }
    ensures refused { (result ≡ 0) ⊎ (result ≡ 3) }
    ensures left { (result ≡ 0 → ⊥) → attach.new ≡ attach.old }
{
    if let Some(map) = &mut attach.unsettled {
        return add_state(alloc, map, tag, state);
    }
    let mut map = UnsettledMap::new(alloc);
    let status = add_state(alloc, &mut map, tag, state);
    if status == OK {
        attach.unsettled = Some(map);
    } else {
        drop(map);
    }
    status
}

/// Adds an unsettled delivery to an attach: its tag and its state, with these texts of a rejection's error; `AMQP_NO_STATE` is the
/// null of an unsettled map. One that the attach has under the same tag is replaced.
///
/// Refused in this order, with nothing changed: `AMQP_NO_SUCH_NUMBER` if the kind of the state is none; `AMQP_NO_TEXT` if a
/// text is no UTF-8.
#[unsafe(no_mangle)]
pub extern "C" fn amqp_attach_add_unsettled(
    alloc: Global,
    attach: &mut Object,
    tag: &[u8],
    state: &DeliveryStateFields,
    condition: &[u8],
    description: &[u8],
) -> Status
    ensures kind { attach_in (value_in attach.old) ≡ None → result ≡ wrong_status (value_in attach.old) }
    ensures added { result ≡ 0 → IsSomeAnd (attach_in (value_in attach.old)) (λ before.
        IsSomeAnd (stated_state state.now condition.now description.now) (λ stated.
        attach_in (value_in attach.new) ≡ Some (with_unsettled tag.now stated before))) }
    ensures number { IsSome (attach_in (value_in attach.old))
        → (result ≡ 5) ↔ (stated_state state.now condition.now description.now ≡ None) }
    ensures no_text { result ≡ 4 → ¬ (AreTexts (CarriesError state.now)
        state.now.has_description condition.now description.now) }
    ensures utf8 { IsSome (attach_in (value_in attach.old)) → IsValueRefusal result ⊎ AreTexts (CarriesError state.now)
        state.now.has_description condition.now description.now }
    ensures condition { result ≡ 3 → CarriesError state.now → IsUtf8 condition.now }
    ensures refused { IsSome (attach_in (value_in attach.old)) → (result ≡ 0) ⊎ IsValueRefusal result }
    ensures left { (result ≡ 0 → ⊥) → value_in attach.new ≡ value_in attach.old }
{
    with_value!(alloc, attach, Attach, made => match state.to_state(alloc, condition, description) {
        Ok(state) => add_unsettled(alloc, made, tag, state),
        Err(refused) => refused,
    })
}

/// What an attach states, and its name.
#[unsafe(no_mangle)]
pub extern "C" fn amqp_attach_look(
    alloc: Global,
    attach: &mut Object,
    fields: &mut AttachFields,
    name: &mut [u8],
    name_size: &mut usize,
) -> Status
    ensures kind { attach_in (value_in attach.old) ≡ None
        → (result ≡ wrong_status (value_in attach.old)) × (name.new ≡ name.old) × (name_size.new ≡ name_size.old) }
    ensures copied { IfSome (attach_in (value_in attach.old)) (λ read.
        IsCopied read.name name.old name.new name_size.new result) }
    ensures fields { result ≡ 0 → IsSomeAnd (attach_in (value_in attach.old)) (λ read. fields.new ≡ plain_attach read) }
    ensures unwritten { (result ≡ 0 → ⊥) → fields.new ≡ fields.old }
    ensures left { value_in attach.new ≡ value_in attach.old }
{
    with_value!(alloc, attach, Attach, made => {
        let status = copy_out(made.name.as_str().as_bytes(), name, name_size);
        if status == OK {
            *fields = AttachFields::of(made);
        }
        status
    })
}

// The bytes of a text: none if there is no text.
fn bytes_of(text: Option<&Text>) -> &[u8]
    ensures { result.now ≡ unwrap_or (option_copied text.entry) [] }
{
    match text {
        Some(text) => text.as_str().as_bytes(),
        None => &[],
    }
}

/// The source of an attach, and its address.
#[unsafe(no_mangle)]
pub extern "C" fn amqp_attach_source(
    alloc: Global,
    attach: &mut Object,
    source: &mut Terminus,
    address: &mut [u8],
    address_size: &mut usize,
) -> Status
    ensures kind { attach_in (value_in attach.old) ≡ None
        → (result ≡ wrong_status (value_in attach.old)) × (address.new ≡ address.old) × (address_size.new ≡ address_size.old) }
    ensures copied { IfSome (attach_in (value_in attach.old)) (λ read.
        IsCopied (source_address read.source) address.old address.new address_size.new result) }
    ensures source { result ≡ 0 → IsSomeAnd (attach_in (value_in attach.old)) (λ read. source.new ≡ plain_source read.source) }
    ensures unwritten { (result ≡ 0 → ⊥) → source.new ≡ source.old }
    ensures left { value_in attach.new ≡ value_in attach.old }
{
    with_value!(alloc, attach, Attach, made => {
        let text = match &made.source {
            Some(source) => source.address.as_ref(),
            None => None,
        };
        let status = copy_out(bytes_of(text), address, address_size);
        if status == OK {
            *source = Terminus::of_source(&made.source);
        }
        status
    })
}

/// The target of an attach, and its address.
#[unsafe(no_mangle)]
pub extern "C" fn amqp_attach_target(
    alloc: Global,
    attach: &mut Object,
    target: &mut Terminus,
    address: &mut [u8],
    address_size: &mut usize,
) -> Status
    ensures kind { attach_in (value_in attach.old) ≡ None
        → (result ≡ wrong_status (value_in attach.old)) × (address.new ≡ address.old) × (address_size.new ≡ address_size.old) }
    ensures copied { IfSome (attach_in (value_in attach.old)) (λ read.
        IsCopied (target_address read.target) address.old address.new address_size.new result) }
    ensures target { result ≡ 0 → IsSomeAnd (attach_in (value_in attach.old)) (λ read. target.new ≡ plain_target read.target) }
    ensures unwritten { (result ≡ 0 → ⊥) → target.new ≡ target.old }
    ensures left { value_in attach.new ≡ value_in attach.old }
{
    with_value!(alloc, attach, Attach, made => {
        let text = match &made.target {
            Some(TargetArchetype::Target(target)) => target.address.as_ref(),
            None => None,
        };
        let status = copy_out(bytes_of(text), address, address_size);
        if status == OK {
            *target = Terminus::of_target(&made.target);
        }
        status
    })
}

/// How many unsettled deliveries an attach states. 0 of an object of another kind.
#[unsafe(no_mangle)]
pub extern "C" fn amqp_attach_unsettled_count(alloc: Global, attach: &mut Object) -> usize
    ensures count { result ≡ length (unsettled_in (value_in attach.old)) }
    ensures left { value_in attach.new ≡ value_in attach.old }
{
    let Some(state) = attach.take(alloc) else {
        return 0;
    };
    let count = match state.as_ref() {
        State::Attach(made) => match &made.unsettled {
            Some(map) => map.len(),
            None => 0,
        },
        _ => 0,
    };
    attach.put(state);
    count
}

// Copies out the tag and the state of an unsettled delivery.
fn copy_unsettled(
    attach: &Attach,
    number: usize,
    state: &mut DeliveryStateFields,
    tag: &mut [u8],
    tag_size: &mut usize,
) -> u32
    ensures absent { slice_get (remote_entries attach.now) number ≡ None
        → (result ≡ 7) × (tag.new ≡ tag.old) × (tag_size.new ≡ tag_size.old) }
    ensures copied { IfSome (slice_get (remote_entries attach.now) number) (λ entry.
        IsCopied entry.0 tag.old tag.new tag_size.new result) }
    ensures state { result ≡ 0 → IsSomeAnd (slice_get (remote_entries attach.now) number) (λ entry.
        state.new ≡ plain_state entry.1) }
    ensures unwritten { (result ≡ 0 → ⊥) → state.new ≡ state.old }
{
    let Some(map) = &attach.unsettled else {
        return NO_SUCH_ENTRY;
    };
    let Some((name, known)) = map.pair_at(number) else {
        return NO_SUCH_ENTRY;
    };
    let status = copy_out(name.as_bytes(), tag, tag_size);
    if status == OK {
        *state = DeliveryStateFields::of(known);
    }
    status
}

/// An unsettled delivery of an attach, counted from 0: its tag and its state.
#[unsafe(no_mangle)]
pub extern "C" fn amqp_attach_unsettled(
    alloc: Global,
    attach: &mut Object,
    number: usize,
    state: &mut DeliveryStateFields,
    tag: &mut [u8],
    tag_size: &mut usize,
) -> Status
    ensures kind { attach_in (value_in attach.old) ≡ None
        → (result ≡ wrong_status (value_in attach.old)) × (tag.new ≡ tag.old) × (tag_size.new ≡ tag_size.old) }
    ensures absent { IsSome (attach_in (value_in attach.old)) → slice_get (unsettled_in (value_in attach.old)) number ≡ None
        → (result ≡ 7) × (tag.new ≡ tag.old) × (tag_size.new ≡ tag_size.old) }
    ensures copied { IfSome (slice_get (unsettled_in (value_in attach.old)) number) (λ entry.
        IsCopied entry.0 tag.old tag.new tag_size.new result) }
    ensures state { result ≡ 0 → IsSomeAnd (slice_get (unsettled_in (value_in attach.old)) number) (λ entry.
        state.new ≡ plain_state entry.1) }
    ensures unwritten { (result ≡ 0 → ⊥) → state.new ≡ state.old }
    ensures left { value_in attach.new ≡ value_in attach.old }
{
    with_value!(alloc, attach, Attach, made => copy_unsettled(made, number, state, tag, tag_size))
}

// The error of the rejection that an attach states of a delivery, if it is one with an error.
fn error_at(attach: &Attach, number: usize) -> Option<&Error>
    ensures { option_copied result ≡ stated_error_at number attach.now }
{
    let (_, known) = attach.unsettled.as_ref()?.pair_at(number)?;
    rejection_error(known.as_ref()?)
}

/// The condition and the description of the error of a rejection that an attach states. `sizes` says how long they are.
///
/// `AMQP_NO_SUCH_ENTRY` if there is no such delivery, or it is not rejected with an error.
#[unsafe(no_mangle)]
pub extern "C" fn amqp_attach_unsettled_error(
    alloc: Global,
    attach: &mut Object,
    number: usize,
    condition: &mut [u8],
    description: &mut [u8],
    sizes: &mut Sizes,
) -> Status
    ensures kind { attach_in (value_in attach.old) ≡ None → (result ≡ wrong_status (value_in attach.old))
        × (condition.new ≡ condition.old) × (description.new ≡ description.old) × (sizes.new ≡ sizes.old) }
    ensures absent { IfSome (attach_in (value_in attach.old)) (λ read. stated_error_at number read ≡ None
        → (result ≡ 7) × (condition.new ≡ condition.old) × (description.new ≡ description.old) × (sizes.new ≡ sizes.old)) }
    ensures copied { IfSome (attach_in (value_in attach.old)) (λ read. IfSome (stated_error_at number read) (λ error.
        AreCopied error.condition (description_bytes error) condition.old condition.new
        description.old description.new sizes.new result)) }
    ensures left { value_in attach.new ≡ value_in attach.old }
{
    with_value!(alloc, attach, Attach, made => match error_at(made, number) {
        Some(error) => copy_error(error, condition, description, sizes),
        None => NO_SUCH_ENTRY,
    })
}
