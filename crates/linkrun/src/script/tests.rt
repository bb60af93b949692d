//! Whole runs over readers and writers in memory: what no clause states.
use super::run_script;
use crate::status::Status;
use std::alloc::Global;
use std::fmt::Debug;
use std::io;
use std::io::{BufRead, ErrorKind, Read, Write};
use std::process::Abort;

mod interruptions;
mod withdrawn;

const NOT_AN_EVENT: &[u8] = b"line 1: not an event\n";

// What a run wrote, and its status.
#[derive(Drop)]
struct Ran {
    output: Vec<u8>,
    faults: Vec<u8>,
    status: Status,
}

fn run<R: BufRead>(alloc: Global, input: &mut R) -> Ran {
    let mut output = Vec::new(alloc);
    let mut faults = Vec::new(alloc);
    let status = run_script(alloc, input, &mut output, &mut faults);
    Ran {
        output,
        faults,
        status,
    }
}

// A run wrote this and ended with this status. The assertions of all tests stand here: the check proves each in
// every function that has one.
fn assert_ran(
    rt: &impl Abort,
    ran: Ran,
    output: &[u8],
    faults: &[u8],
    status: Status,
    script: &impl Debug,
) {
    assert_eq!(rt; ran.output.as_slice(), output, "output of {script:?}");
    assert_eq!(rt; ran.faults.as_slice(), faults, "faults of {script:?}");
    assert_eq!(rt; ran.status, status, "status of {script:?}");
}

fn expect(
    rt: &impl Abort,
    alloc: Global,
    script: &str,
    output: &str,
    faults: &str,
    status: Status,
) {
    let mut input = script.as_bytes();
    let ran = run(alloc, &mut input);
    assert_ran(
        rt,
        ran,
        output.as_bytes(),
        faults.as_bytes(),
        status,
        &script,
    );
}

// A reader whose every read fails.
#[derive(Drop)]
struct Broken;

impl Read for Broken {
    fn read(&mut self, _buf: &mut [u8]) -> io::Result<usize> {
        Err(io::Error::from(ErrorKind::TimedOut))
    }
}

impl BufRead for Broken {
    fn fill_buf(&mut self) -> io::Result<&[u8]> {
        Err(io::Error::from(ErrorKind::TimedOut))
    }

    fn consume(&mut self, _amount: usize) {}
}

// A writer that has room for so many bytes, and may fail to flush them.
#[derive(Drop)]
struct Narrow {
    room: usize,
    flushes: bool,
}

impl Write for Narrow {
    fn write(&mut self, buf: &[u8]) -> io::Result<usize> {
        let count = buf.len().min(self.room);
        if count == 0 {
            return Err(io::Error::from(ErrorKind::StorageFull));
        }
        self.room -= count;
        Ok(count)
    }

    fn flush(&mut self) -> io::Result<()> {
        if self.flushes {
            Ok(())
        } else {
            Err(io::Error::from(ErrorKind::StorageFull))
        }
    }
}

// A run over narrow writers ended with this status.
fn assert_status(rt: &impl Abort, ended: Status, status: Status, script: &str, room: usize) {
    assert_eq!(rt; ended, status, "{script:?} with room for {room}");
}

// Each script of a table runs to its end, and prints this.
fn expect_output(rt: &impl Abort, alloc: Global, table: &[(&str, &str, &str)]) {
    for (what, script, output) in table {
        let mut input = script.as_bytes();
        let ran = run(alloc, &mut input);
        assert_ran(rt, ran, output.as_bytes(), b"", Status::Complete, what);
    }
}

const ANSWERED: &[(&str, &str, &str)] = &[
    ("an empty script", "", ""),
    ("empty lines alone", "\n\r\n\n", ""),
    (
        "a last line without an end, a leading zero",
        "attach 30\ngrant 04",
        "attached 0\ncredit 4\n",
    ),
    (
        "a carriage return before the end, the largest number",
        "attach 4294967295\r\ngrant 4294967295\r\n",
        "attached 0\ncredit 4294967295\n",
    ),
    ("a tag that nothing is held of", "show 00ff\n", "unknown\n"),
    (
        "digits of either case",
        "attach 40\ngrant 1\nsend abCDEf09\narrive 1\nshow 00000000\n",
        "attached 0\ncredit 1\nsent 00000000 1\nwhole 00000000 0 4\njoined abcdef09\n",
    ),
    (
        "an empty payload",
        "attach 30\ngrant 1\nsend -\narrive 1\nshow 00000000\n",
        "attached 0\ncredit 1\nsent 00000000 1\nwhole 00000000 0 0\njoined -\n",
    ),
];

#[test]
fn lines_are_answered(rt: HostRuntime) {
    expect_output(&rt, rt.alloc(), ANSWERED);
}

#[test]
fn refusals_are_answered_and_the_run_goes_on(rt: HostRuntime) {
    let script = "grant 1\nsend 00\narrive 0\nshow 00\nattach 28\nattach 29\nattach 28\n\
        attach 30\nsend 00\narrive 0\ngrant 1\nsend 00\n";
    let output = "refused NotAttached\nrefused NotAttached\nrefused NotAttached\nunknown\n\
        refused LimitTooSmall\nattached 0\nrefused AlreadyAttached\nrefused AlreadyAttached\n\
        refused CreditMissing\nrefused WireEmpty\ncredit 1\nsent 00000000 1\n";
    expect(&rt, rt.alloc(), script, output, "", Status::Complete);
}

// Each line ends its run at once.
fn expect_no_events(rt: &impl Abort, alloc: Global, lines: &[&[u8]]) {
    for line in lines {
        let mut input = *line;
        let ran = run(alloc, &mut input);
        assert_ran(rt, ran, b"", NOT_AN_EVENT, Status::Stopped, line);
    }
}

const NO_EVENTS: &[&[u8]] = &[
    b" ",
    b"\r",
    b"attach",
    b"attach  30",
    b" attach 30",
    b"attach 30 ",
    b"attach 30 30",
    b"attach -1",
    b"attach 3:",
    b"attach 4294967296",
    b"attach \xd9\xa3",
    b"Attach 30",
    b"arrive x",
    b"fate 0 ",
    b"send",
    b"send 012",
    b"send 0G",
    b"send --",
    b"show 00 ",
    b"cut\0",
    b"cut cut",
    b"resume 1",
    b"putback 00000000",
    b"settle ",
    b"handout 00 00",
    b"# a comment",
    b"\xff\xfe",
];

#[test]
fn other_lines_are_no_events(rt: HostRuntime) {
    expect_no_events(&rt, rt.alloc(), NO_EVENTS);
}

const STOPPED: &[(&str, &str, &str)] = &[
    (
        "\n\nattach 30\n\r\ngrant\n",
        "attached 0\n",
        "line 5: not an event\n",
    ),
    (
        "attach 30\ngrant 1\r",
        "attached 0\n",
        "line 2: not an event\n",
    ),
];

#[test]
fn a_line_that_is_no_event_ends_the_run(rt: HostRuntime) {
    for (script, output, faults) in STOPPED {
        expect(&rt, rt.alloc(), script, output, faults, Status::Stopped);
    }
}

// A run of the script whose next read fails has printed this.
fn expect_failed_read(rt: &impl Abort, alloc: Global, script: &str, output: &str) {
    let mut input = script.as_bytes().chain(Broken);
    let ran = run(alloc, &mut input);
    assert_ran(
        rt,
        ran,
        output.as_bytes(),
        b"input failed\n",
        Status::Failed,
        &script,
    );
}

const READ_IN_PART: &[(&str, &str)] = &[
    ("", ""),
    ("attach 30\n\ngrant 1\ngra", "attached 0\ncredit 1\n"),
];

#[test]
fn a_failed_read_is_reported(rt: HostRuntime) {
    for (script, output) in READ_IN_PART {
        expect_failed_read(&rt, rt.alloc(), script, output);
    }
}

// A run has failed, and wrote no fault.
fn assert_silent(rt: &impl Abort, faults: Vec<u8>, status: Status, what: &str) {
    assert!(rt; faults.is_empty(), "{what}");
    assert_eq!(rt; status, Status::Failed, "{what}");
}

// A run over this output has failed, and wrote no fault.
fn expect_failed_write(rt: &impl Abort, alloc: Global, script: &str, output: Narrow, what: &str) {
    let mut input = script.as_bytes();
    let mut output = output;
    let mut faults = Vec::new(alloc);
    let status = run_script(alloc, &mut input, &mut output, &mut faults);
    assert_silent(rt, faults, status, what);
}

const WRITTEN_IN_PART: &[(&str, &str, usize, bool)] = &[
    ("inside the first answer", "attach 30\n", 3, true),
    ("before the last line end", "attach 30\n", 10, true),
    ("at a refusal", "grant 1\n", 4, true),
    ("at the flush", "attach 30\n", 100, false),
    (
        "at the flush after a line that is no event",
        "stop\n",
        100,
        false,
    ),
];

#[test]
fn a_failed_write_is_not_spoken_of(rt: HostRuntime) {
    for (what, script, room, flushes) in WRITTEN_IN_PART {
        let output = Narrow {
            room: *room,
            flushes: *flushes,
        };
        expect_failed_write(&rt, rt.alloc(), script, output, what);
    }
}

// The status of a run over these faults.
fn status_over(alloc: Global, script: &str, faults: Narrow) -> Status {
    let mut input = script.as_bytes();
    let mut output = Vec::new(alloc);
    let mut faults = faults;
    run_script(alloc, &mut input, &mut output, &mut faults)
}

const FAULTS_IN_PART: &[(&str, usize, bool, Status)] = &[
    ("stop\n", 20, true, Status::Failed),
    ("stop\n", 21, false, Status::Failed),
    ("stop\n", 21, true, Status::Stopped),
    ("attach 30\n", 0, false, Status::Complete),
];

#[test]
fn a_fault_that_cannot_be_printed_is_a_failed_write(rt: HostRuntime) {
    for (script, room, flushes, status) in FAULTS_IN_PART {
        let faults = Narrow {
            room: *room,
            flushes: *flushes,
        };
        let ended = status_over(rt.alloc(), script, faults);
        assert_status(&rt, ended, *status, script, *room);
    }
}
