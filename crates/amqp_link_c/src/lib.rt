//! Links and deliveries of AMQP 1.0 for C, and for what calls C.
//!
//! Each export takes what it works on out of its object, makes one call of the layer, and puts it back. What a call makes goes
//! into room that is allocated before the link is changed: so out of memory changes nothing for C either.
#![tactic(auto)]

// What `done` makes of the value in an object, if that is of this kind. The value is put back.
macro_rules! with_value {
    ($alloc:ident, $object:ident, $($kind:ident)|+, $value:ident => $done:expr) => {{
        let Some(mut state) = $object.take($alloc) else {
            return EMPTY;
        };
        let status = match state.as_mut() {
            $(State::$kind($value) => $done,)+
            _ => WRONG_KIND,
        };
        $object.put(state);
        status
    }};
}

mod attaching;
mod detaching;
mod failing;
mod frames;
mod link;
mod objects;
mod outcomes;
mod receiver;
mod sender;
#[cfg(test)]
mod tests;
