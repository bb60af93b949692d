//! A box of a state, or nothing, as C holds it.
ghost use Rattle.std.specs.Prelude.{◌≡◌, Option, Some, None, IsSome};
ghost use Rattle.amqp_link_object.specs.Holders.{holder_owns, state_coded};
ghost use Rattle.amqp_link_object.specs.declared.state.State.{State};

use crate::loose::Loose;
use crate::state::State;
use std::alloc::Global;
use std::marker::Model;

/// A box of a state, or nothing, as its pointer.
#[repr(C)]
#[derive(Drop)]
pub struct Holder {
    // Of the state. Its type does not cross to C.
    at: *mut u8,
    alloc: Global,
    pub ghost state: { Option State } by { state_coded },
}

impl Model for Holder {
    ghost also_owns = { λ h. holder_owns h.alloc h.at h.state };
}

impl Holder {
    /// Holds a box.
    pub fn of(state: Box<State>) -> Holder
        ensures { result.state ≡ Some state.value }
    {
        Holder::of_loose(Loose::of(state))
    }

    /// The box that it holds.
    pub fn into_box(self) -> Box<State>
        requires { IsSome self.state }
        ensures { self.state ≡ Some result.value }
    {
        self.into_loose().into_box()
    }

    // This is `of`.
    fn of_loose(loose: Loose<State, Global>) -> Holder
        ensures { result.state ≡ Some loose.value }
    {
        let Loose { at, alloc } = loose;
        Holder {
            at: at as *mut u8,
            alloc,
        }
    }

    // This is `into_box`.
    fn into_loose(self) -> Loose<State, Global>
        requires { IsSome self.state }
        ensures { self.state ≡ Some result.value }
    {
        let Holder { at, alloc } = self;
        Loose {
            at: at as *mut State,
            alloc,
        }
    }

    /// Holds nothing.
    pub fn empty(alloc: Global) -> Holder
        ensures { result.state ≡ None }
    {
        Holder {
            at: std::ptr::null_mut(),
            alloc,
        }
    }
}
