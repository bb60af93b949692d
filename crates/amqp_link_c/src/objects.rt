//! Objects of any kind.
ghost use Rattle.std.specs.Prelude.{◌≡◌, None};
ghost use Rattle.amqp_link_object.specs.Objects.{value_in};
ghost use Rattle.amqp_link_object.specs.States.{kind_in};

use amqp_link_object::Object;
use amqp_link_object::state::KIND_NOTHING;
use std::alloc::Global;

/// Frees what an object has. Nothing is in it afterwards, and it may be used again.
#[unsafe(no_mangle)]
pub extern "C" fn amqp_free(alloc: Global, object: &mut Object)
    ensures { value_in object.new ≡ None }
{
    drop(object.take(alloc));
}

/// The kind of what an object has: `AMQP_KIND_NOTHING`, `AMQP_KIND_SENDER` and so on.
#[unsafe(no_mangle)]
pub extern "C" fn amqp_kind(alloc: Global, object: &mut Object) -> u32
    ensures kind { result ≡ kind_in (value_in object.old) }
    ensures left { value_in object.new ≡ value_in object.old }
{
    let Some(state) = object.take(alloc) else {
        return KIND_NOTHING;
    };
    let kind = state.kind();
    object.put(state);
    kind
}
