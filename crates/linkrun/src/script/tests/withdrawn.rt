//! Runs with a delivery that is withdrawn after a part of it has arrived: the receiver forgets it once the transfer arrives
//! that aborts it.
use super::expect_output;

const ABORTED: &[(&str, &str, &str)] = &[
    (
        "aborted by the first transfer after the attach",
        "attach 30\ngrant 2\nsend 0102030405060708090a0b0c\narrive 7\ncut\n\
            withdraw 00000000\nwithdraw 00000000\nattach 45\nattach 46\nresume\n\
            show 00000000\narrive 0\nshow 00000000\nfate 0\nfate 1\nsend 0a0b\n",
        "attached 0\ncredit 2\nsent 00000000 3\nheld 00000000 0 5\ncut\n\
            withdrawn 00000000\nrefused UnknownTag\nrefused LimitTooSmall\nattached 1\n\
            aborted 00000000\njoined 0102030405\naborted 00000000\nunknown\nwithdrawn\n\
            unknown\nsent 00000001 1\n",
    ),
    (
        "cut before the transfer arrives, put back, and aborted after that",
        "attach 30\ngrant 2\nsend 0102030405060708090a0b0c\narrive 7\ncut\n\
            withdraw 00000000\nattach 46\nresume\ncut\nattach 46\nputback\ncut\n\
            show 00000000\nattach 46\nresume\narrive 0\nshow 00000000\ncut\n\
            attach 30\n",
        "attached 0\ncredit 2\nsent 00000000 3\nheld 00000000 0 5\ncut\n\
            withdrawn 00000000\nattached 1\naborted 00000000\ncut\nattached 1\n\
            back 00000000\ncut\njoined 0102030405\nattached 1\naborted 00000000\n\
            aborted 00000000\nunknown\ncut\nattached 0\n",
    ),
    (
        "refused of deliveries that have arrived whole",
        "attach 30\ngrant 2\nsend 0102030405060708090a0b0c\narrive 7\n\
            cut\nattach 46\nresume\nsend 0a0b\narrive 8\narrive 9\ncut\n\
            withdraw 00000001\nwithdraw 00000000\nfate 0\nfate 1\nfate 2\n",
        "attached 0\ncredit 2\nsent 00000000 3\nheld 00000000 0 5\n\
            cut\nattached 1\nresumed 00000000 1\nsent 00000001 1\nwhole 00000000 0 12\n\
            whole 00000001 0 2\ncut\nrefused AlreadyWhole\nrefused AlreadyWhole\n\
            handed-out\npending\npending\n",
    ),
];

#[test]
fn a_withdrawn_delivery_is_aborted(rt: HostRuntime) {
    expect_output(&rt, rt.alloc(), ABORTED);
}

const KEPT: &[(&str, &str, &str)] = &[
    (
        "of which nothing has arrived, nothing is aborted",
        "attach 30\ngrant 1\nsend 0102030405060708090a0b0c\ncut\nwithdraw 00000000\n\
            attach 30\nresume\nfate 0\n",
        "attached 0\ncredit 1\nsent 00000000 3\ncut\nwithdrawn 00000000\n\
            attached 0\nrefused NothingToResume\nwithdrawn\n",
    ),
    (
        "another delivery stays, and is sent before the abort",
        "attach 30\ngrant 2\nsend 0102030405060708090a0b0c\nsend 0a0b\narrive 7\ncut\n\
            withdraw 00000000\nattach 80\nresume\nresume\nhandout 00000000\n\
            settle 00000000\narrive 8\narrive 0\nshow 00000001\nshow 00000000\n",
        "attached 0\ncredit 2\nsent 00000000 3\nsent 00000001 1\nheld 00000000 0 5\ncut\n\
            withdrawn 00000000\nattached 2\nresent 00000001 1\naborted 00000000\n\
            refused UnknownTag\nrefused UnknownTag\nwhole 00000001 0 2\n\
            aborted 00000000\njoined 0a0b\nunknown\n",
    ),
    (
        "refused while attached, of a tag that is not pending, and of a delivery that is whole",
        "withdraw 00000000\nattach 50\nwithdraw 00000000\ngrant 1\nsend 0a0b\narrive 0\n\
            cut\nwithdraw 00000000\nwithdraw -\nfate 0\n",
        "refused UnknownTag\nattached 0\nrefused AlreadyAttached\ncredit 1\n\
            sent 00000000 1\nwhole 00000000 0 2\ncut\nrefused AlreadyWhole\n\
            refused UnknownTag\npending\n",
    ),
];

#[test]
fn a_withdrawal_takes_its_delivery_alone(rt: HostRuntime) {
    expect_output(&rt, rt.alloc(), KEPT);
}
