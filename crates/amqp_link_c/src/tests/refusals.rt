//! What a call returns for objects and values that it cannot use: a status each, and nothing changed.
use super::{attach_fields, terminus, terms};
use crate::attaching::{amqp_attach_new, amqp_attach_set_source};
use crate::frames::amqp_frames_count;
use crate::link::amqp_link_set_output_handle;
use crate::objects::{amqp_free, amqp_kind};
use crate::sender::amqp_sender_new;
use crate::sender::sending::amqp_sender_send;
use amqp_link_flat::numbers::SETTLED_BY_MODE;
use amqp_link_flat::status::{EMPTY, ILLEGAL_STATE, NO_SUCH_NUMBER, NO_TEXT, OK, WRONG_KIND};
use amqp_link_object::Object;
use amqp_link_object::state::{KIND_ATTACH, KIND_NOTHING, KIND_SENDER};
use std::alloc::Global;

fn make_sender(alloc: Global, sender: &mut Object, name: &[u8], snd_settle_mode: u32) -> u32 {
    let mut terms = terms();
    terms.snd_settle_mode = snd_settle_mode;
    let own = terminus();
    amqp_sender_new(alloc, sender, &terms, name, &own, &[], &own, &[])
}

#[test]
fn values_that_stand_for_nothing_are_refused(rt: HostRuntime) {
    let alloc = rt.alloc();
    let mut sender = Object::empty(alloc);
    assert_eq!(rt; make_sender(alloc, &mut sender, b"\xff", 2), NO_TEXT);
    assert_eq!(rt; make_sender(alloc, &mut sender, b"l", 3), NO_SUCH_NUMBER);
    assert_eq!(rt; amqp_kind(alloc, &mut sender), KIND_NOTHING);
    assert_eq!(rt; make_sender(alloc, &mut sender, b"l", 2), OK);
    assert_eq!(rt; make_sender(alloc, &mut sender, b"l", 3), NO_SUCH_NUMBER);
    assert_eq!(rt; amqp_kind(alloc, &mut sender), KIND_SENDER);
}

#[test]
fn objects_of_another_kind_are_refused(rt: HostRuntime) {
    let alloc = rt.alloc();
    let (mut attach, mut frames) = (Object::empty(alloc), Object::empty(alloc));
    assert_eq!(rt; amqp_link_set_output_handle(alloc, &mut attach, 0), EMPTY);
    assert_eq!(rt;
        amqp_attach_new(alloc, &mut attach, b"l", &attach_fields()),
        OK
    );
    assert_eq!(rt;
        amqp_link_set_output_handle(alloc, &mut attach, 0),
        WRONG_KIND
    );
    assert_eq!(rt; amqp_kind(alloc, &mut attach), KIND_ATTACH);
    let sent = amqp_sender_send(
        alloc,
        &mut attach,
        b"x",
        0,
        SETTLED_BY_MODE,
        false,
        &mut frames,
    );
    assert_eq!(rt; sent, WRONG_KIND);
    assert_eq!(rt; amqp_frames_count(alloc, &mut attach), 0);
    amqp_free(alloc, &mut attach);
    amqp_free(alloc, &mut attach);
    assert_eq!(rt;
        amqp_attach_set_source(alloc, &mut attach, &terminus(), &[]),
        EMPTY
    );
}

#[test]
fn a_send_before_the_attach_changes_nothing(rt: HostRuntime) {
    let alloc = rt.alloc();
    let (mut sender, mut frames) = (Object::empty(alloc), Object::empty(alloc));
    assert_eq!(rt; make_sender(alloc, &mut sender, b"l", 2), OK);
    let sent = amqp_sender_send(
        alloc,
        &mut sender,
        b"x",
        0,
        SETTLED_BY_MODE,
        false,
        &mut frames,
    );
    assert_eq!(rt; sent, ILLEGAL_STATE);
    assert_eq!(rt; amqp_kind(alloc, &mut frames), KIND_NOTHING);
}
