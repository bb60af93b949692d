//! Replays over readers and writers in memory: what no clause states.
use super::replay;
use std::alloc::Global;
use std::io;
use std::io::{BufRead, ErrorKind, Read, Write};
use std::process::Abort;

// The output if there are no rows.
const NO_ROWS: &str = "value 0 of 0 agree\nreceived 0 of 0 agree\nmodified 0 of 0 agree\n\
    rejected 0 of 0 agree\nerror 0 of 0 agree\nsource 0 of 0 agree\ntarget 0 of 0 agree\n\
    transfer 0 of 0 agree\nattach 0 of 0 agree\n";

const NOT_A_ROW: &str = "line 1: not a row\n";

// What a replay wrote, and its status.
#[derive(Drop)]
struct Ran {
    output: Vec<u8>,
    status: u8,
}

fn run<R: BufRead>(alloc: Global, input: &mut R) -> Ran {
    let mut output = Vec::new(alloc);
    let status = replay(alloc, input, &mut output);
    Ran { output, status }
}

fn expect(rt: &impl Abort, alloc: Global, rows: &str, output: &str, status: u8) {
    let mut input = rows.as_bytes();
    let ran = run(alloc, &mut input);
    assert_eq!(rt; ran.output.as_slice(), output.as_bytes(), "at {rows:?}");
    assert_eq!(rt; ran.status, status, "at {rows:?}");
}

// Each of these is a run that writes this and ends with this status.
fn expect_each(rt: &impl Abort, alloc: Global, all: &[&str], output: &str, status: u8) {
    for rows in all {
        expect(rt, alloc, rows, output, status);
    }
}

// A run that has ended with this status.
fn assert_status(rt: &impl Abort, ended: u8, status: u8, rows: &str) {
    assert_eq!(rt; ended, status, "at {rows:?}");
}

// A reader whose every read fails.
#[derive(Drop)]
struct Broken;

impl Read for Broken {
    fn read(&mut self, _buf: &mut [u8]) -> io::Result<usize> {
        Err(io::Error::from(ErrorKind::TimedOut))
    }
}

impl BufRead for Broken {
    fn fill_buf(&mut self) -> io::Result<&[u8]> {
        Err(io::Error::from(ErrorKind::TimedOut))
    }

    fn consume(&mut self, _amount: usize) {}
}

// A writer that has room for so many bytes.
#[derive(Drop)]
struct Narrow {
    room: usize,
}

impl Write for Narrow {
    fn write(&mut self, buf: &[u8]) -> io::Result<usize> {
        let count = buf.len().min(self.room);
        if count == 0 {
            return Err(io::Error::from(ErrorKind::StorageFull));
        }
        self.room -= count;
        Ok(count)
    }

    fn flush(&mut self) -> io::Result<()> {
        Ok(())
    }
}

const EMPTY: &[&str] = &["", "\n", "# value 1 uamqp | _\n", "\r\n\n#"];

#[test]
fn lines_that_say_nothing_are_passed_over(rt: HostRuntime) {
    expect_each(&rt, rt.alloc(), EMPTY, NO_ROWS, 0);
}

#[test]
fn a_row_that_does_not_agree_is_reported(rt: HostRuntime) {
    let mut rows =
        "value 1 uamqp | _\n# null\nvalue 2 proton | _\nvalue 4 uamqp | list 0\n".as_bytes();
    let printed =
        b"line 3: 2 stated, 1 computed\nline 4: 4 stated, 1 computed\nvalue 1 of 3 agree\n";
    let ran = run(rt.alloc(), &mut rows);
    assert!(rt; ran.output.starts_with(printed.as_slice()));
    assert_eq!(rt; ran.status, 1);
}

const NO_ROW: &[&str] = &[
    " ",
    "value",
    "value 1",
    "value 1 uamqp",
    "value 1 uamqp |",
    "value 1 uamqp | ",
    "value 1 uamqp _",
    "value 1 other | _",
    "value +1 uamqp | _",
    "value -1 uamqp | _",
    "value 18446744073709551616 uamqp | _",
    "value 1 uamqp | _ ",
    "value 1 uamqp  | _",
    "value 1 uamqp | _ _",
    "values 1 uamqp | _",
    "transfer 1 uamqp | _",
    "error 4 uamqp | target 0",
    "rejected 4 uamqp | accepted 0",
];

#[test]
fn other_lines_are_no_rows(rt: HostRuntime) {
    expect_each(&rt, rt.alloc(), NO_ROW, NOT_A_ROW, 2);
}

const NO_VALUES: &[&str] = &[
    "value 2 uamqp | ubyte 256",
    "value 2 uamqp | byte 128",
    "value 2 uamqp | byte -129",
    "value 2 uamqp | byte +1",
    "value 2 uamqp | byte -",
    "value 2 uamqp | ubyte -1",
    "value 2 uamqp | ubyte",
    "value 3 uamqp | binary 0",
    "value 3 uamqp | binary 0g",
    "value 3 uamqp | symbol ff",
    "value 3 uamqp | list 1",
    "value 3 uamqp | list 1 _ _",
    "value 3 uamqp | list 18446744073709551615 _",
    "value 3 uamqp | float 1",
    "value 4 uamqp | described uint 1 _",
    "target 4 uamqp | target 8 _ _ _ _ _ _ _ _",
    "target 4 uamqp | target 2 _ uint 3",
    "target 4 uamqp | target 3 _ _ symbol 61",
    "target 4 uamqp | target 6 _ _ _ _ _ map 2 symbol 61 _ symbol 61 _",
    "error 4 uamqp | error 0",
    "error 4 uamqp | error 1 _",
    "transfer 4 uamqp | transfer 7 uint 0 _ _ _ _ _ ubyte 2",
    "transfer 4 uamqp | transfer 8 uint 0 _ _ _ _ _ _ other 0",
    "attach 4 uamqp | attach 2 string 61 uint 0",
    "attach 4 uamqp | attach 9 string 61 uint 0 true _ _ _ _ map 2 binary - _ binary - _ true",
];

#[test]
fn other_words_are_no_values(rt: HostRuntime) {
    expect_each(&rt, rt.alloc(), NO_VALUES, NOT_A_ROW, 2);
}

#[test]
fn values_may_lie_sixteen_deep(rt: HostRuntime) {
    let fits = "value 49 uamqp | list 1 list 1 list 1 list 1 list 1 list 1 list 1 list 1 \
        list 1 list 1 list 1 list 1 list 1 list 1 list 1 list 1 _";
    let ran = run(rt.alloc(), &mut fits.as_bytes());
    assert_status(&rt, ran.status, 0, fits);
    let too_deep = "value 52 uamqp | list 1 list 1 list 1 list 1 list 1 list 1 list 1 list 1 \
        list 1 list 1 list 1 list 1 list 1 list 1 list 1 list 1 list 1 _";
    expect(&rt, rt.alloc(), too_deep, NOT_A_ROW, 2);
}

// The status of a run whose next read fails.
fn status_of_failed_read(alloc: Global, rows: &str) -> u8 {
    let mut input = rows.as_bytes().chain(Broken);
    run(alloc, &mut input).status
}

const READ_IN_PART: &[&str] = &["", "value 1 uamqp | _\n", "value 2 uamqp | _"];

#[test]
fn a_failed_read_has_a_status_of_its_own(rt: HostRuntime) {
    for rows in READ_IN_PART {
        assert_status(&rt, status_of_failed_read(rt.alloc(), rows), 3, rows);
    }
}

// The status of a run with so much room for its output.
fn status_within(alloc: Global, rows: &str, room: usize) -> u8 {
    let mut input = rows.as_bytes();
    let mut output = Narrow { room };
    replay(alloc, &mut input, &mut output)
}

const WRITTEN_IN_PART: &[(&str, usize)] = &[
    ("", 0),
    ("", NO_ROWS.len() - 1),
    ("value 2 uamqp | _", 5),
    ("value", 5),
];

#[test]
fn a_failed_write_has_a_status_of_its_own(rt: HostRuntime) {
    for (rows, room) in WRITTEN_IN_PART {
        assert_status(&rt, status_within(rt.alloc(), rows, *room), 3, rows);
    }
}
