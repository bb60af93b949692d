//! What C holds: a value of the layer, or nothing.
//!
//! The struct is the same in C, where it is `{0}` at first: nothing. A call takes the value out, works on it, and puts it
//! back: neither step allocates. A value that a call makes goes into room that it allocated before it changed anything.
ghost use Rattle.std.specs.Prelude.{◌≡◌, Some, None, IsNone, is_some};
ghost use Rattle.amqp_link_object.specs.Boxes.{unboxed};

use crate::holder::Holder;
use crate::state::State;
use std::alloc::Global;
use std::mem;

/// A value of the layer, or nothing. In C it is `{0}` at first.
#[repr(C)]
#[derive(Drop)]
pub struct Object {
    pub holder: Holder,
    pub is_full: bool,
    pub ghost fullness: { is_full ≡ is_some holder.state },
}

/// Room for a value, which is allocated before the value is made.
#[derive(Drop)]
pub struct Room {
    state: Box<State>,
    alloc: Global,
}

// A box of a value, if there is memory for it.
fn boxed<T: Drop>(alloc: Global, value: T) -> Option<Box<T>> {
    match Box::new(alloc, value) {
        Ok(boxed) => Some(boxed),
        Err(_) => None,
    }
}

impl Room {
    /// Room for one value. Refused only if it is out of memory.
    pub fn new(alloc: Global) -> Option<Room> {
        let state = boxed(alloc, State::Room)?;
        Some(Room { state, alloc })
    }

    // The box with this value.
    fn filled(self, state: State) -> Box<State>
        ensures { result.value ≡ state }
    {
        let mut filled = self.state;
        drop(Box::replace(&mut filled, state));
        filled
    }
}

impl Object {
    /// Nothing. Does not allocate.
    pub fn empty(alloc: Global) -> Object
        ensures { result.holder.state ≡ None }
    {
        Object {
            holder: Holder::empty(alloc),
            is_full: false,
        }
    }

    /// Takes the value out. Does not allocate.
    pub fn take(&mut self, alloc: Global) -> Option<Box<State>>
        ensures value { unboxed result ≡ self.old.holder.state }
        ensures left { self.new.holder.state ≡ None }
    {
        if !self.is_full {
            return None;
        }
        let before = mem::replace(self, Object::empty(alloc));
        Some(before.holder.into_box())
    }

    /// Puts a value back, where there is none. Does not allocate.
    pub fn put(&mut self, state: Box<State>)
        requires { IsNone self.old.holder.state }
        ensures { self.new.holder.state ≡ Some state.value }
    {
        drop(mem::replace(
            self,
            Object {
                holder: Holder::of(state),
                is_full: true,
            },
        ));
    }

    /// Puts a value into the room that was made for it. What was in the object is dropped last. Does not allocate.
    pub fn fill(&mut self, room: Room, state: State)
        ensures { self.new.holder.state ≡ Some state }
    {
        let alloc = room.alloc;
        let filled = room.filled(state);
        let before = self.take(alloc);
        self.put(filled);
        drop(before);
    }
}
