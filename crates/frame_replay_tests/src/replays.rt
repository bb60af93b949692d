//! Replays over readers and writers in memory: what no clause states.
use frame_replay::trace::Traces;
use replay_report::replay::replay;
use std::alloc::Global;
use std::io;
use std::io::{BufRead, ErrorKind, Read, Write};
use std::process::Abort;
use std::test::Fail;

// The output if there are no rows.
const NO_ROWS: &str = "0 rows, 0 refused\n0 of 0 traces end with nothing left but flows\n\
    0 of 0 stated facts agree\n";

// A receiver that is attached, has granted five deliveries, and has handed out one of two bytes.
const RECEIVER: &str = "link receiver 508 attach 10 string 6c uint 0 true _ _ source 1 string 71 \
    target 1 string 71 _ _ uint 0\ndo attach 0\nin attach 10 string 6c uint 0 false _ _ source 1 \
    string 71 target 1 string 71 _ _ uint 0\ndo flow 5 false false\n\
    in transfer 4 uint 0 uint 0 binary 00 uint 0 6162\n";

// A sender that is attached, has been granted one delivery, and has sent one of one byte.
const SENDER: &str = "link sender 508 attach 10 string 6c uint 0 false _ _ source 1 string 71 \
    target 1 string 71 _ _ uint 0\ndo attach 0\nin attach 7 string 6c uint 0 true _ _ source 1 \
    string 71 target 1 string 71\nin flow 7 _ uint 0 uint 0 uint 0 uint 0 uint 0 uint 1\n\
    do send 0 00 0 false 61\n";

// What a replay wrote, and its status.
#[derive(Drop)]
struct Ran {
    output: Vec<u8>,
    status: u8,
}

fn run<R: BufRead>(alloc: Global, input: &mut R) -> Ran {
    let mut output = Vec::new(alloc);
    let status = status_of(alloc, input, &mut output);
    Ran { output, status }
}

fn status_of<R: BufRead, W: Write>(alloc: Global, input: &mut R, output: &mut W) -> u8 {
    let mut traces = Traces::new(alloc);
    let report = replay(alloc, &mut traces, input, output);
    traces.finish();
    report.verdict.status()
}

fn expect(rt: &impl Abort, alloc: Global, rows: &str, output: &str, status: u8) {
    let mut input = rows.as_bytes();
    let ran = run(alloc, &mut input);
    assert_eq!(rt; ran.output.as_slice(), output.as_bytes(), "at {rows:?}");
    assert_eq!(rt; ran.status, status, "at {rows:?}");
}

// A run whose output begins so.
fn expect_front(rt: &impl Abort, alloc: Global, rows: &str, front: &str, status: u8) {
    let mut input = rows.as_bytes();
    let ran = run(alloc, &mut input);
    assert!(rt; ran.output.starts_with(front.as_bytes()), "at {rows:?}");
    assert_eq!(rt; ran.status, status, "at {rows:?}");
}

// A reader whose every read fails.
#[derive(Drop)]
struct Broken;

impl Read for Broken {
    fn read(&mut self, _buf: &mut [u8]) -> io::Result<usize> {
        Err(io::Error::from(ErrorKind::TimedOut))
    }
}

impl BufRead for Broken {
    fn fill_buf(&mut self) -> io::Result<&[u8]> {
        Err(io::Error::from(ErrorKind::TimedOut))
    }

    fn consume(&mut self, _amount: usize) {}
}

// A writer that has room for so many bytes.
#[derive(Drop)]
struct Narrow {
    room: usize,
}

impl Write for Narrow {
    fn write(&mut self, buf: &[u8]) -> io::Result<usize> {
        let count = buf.len().min(self.room);
        if count == 0 {
            return Err(io::Error::from(ErrorKind::StorageFull));
        }
        self.room -= count;
        Ok(count)
    }

    fn flush(&mut self) -> io::Result<()> {
        Ok(())
    }
}

#[test]
fn lines_that_say_nothing_are_passed_over(rt: HostRuntime) {
    for rows in ["", "\n", "# credit 1\n", "\r\n\n#"] {
        expect(&rt, rt.alloc(), rows, NO_ROWS, 0);
    }
}

// Rows whose facts all agree: a delivery is disposed of, one is granted and detached under way, one is resolved, and one is sent
// with credit that drains before the rest is given back.
const AGREEING: &[(&str, &str)] = &[
    (
        RECEIVER,
        "out attach 11 string 6c uint 0 true _ _ source 1 string 71 target 1 string 71 _ _ uint 9 \
            ulong 0\nout flow 7 _ uint 0 uint 0 uint 0 uint 0 uint 2 uint 3\ngot 0 00 false 6162\n\
            credit 4\nunsettled 1\nrecords 0\ndo dispose true accepted 0 0\n\
            out disposition 0 true _\nunsettled 0\nnote nothing else\nend",
    ),
    (
        RECEIVER,
        "out attach 7 string 6c uint 0 true _ _ source 1 string 71 target 1 string 71\n\
            got 0 00 false 2*6162\nin transfer 6 uint 0 uint 1 binary 01 uint 0 true true -\n\
            do flow 3 true false\nout flow 9 _ uint 0 uint 0 uint 0 uint 0 uint 1 uint 3 _ true\n\
            in transfer 5 uint 0 uint 1 binary 01 uint 0 true 5*6162\ngot 1 01 true 6162616261\n\
            in detach 2 uint 0 true\nout detach 2 uint 0 true\nend",
    ),
    (
        SENDER,
        "out attach 10 string 6c uint 0 false _ _ source 1 string 71 target 1 string 71 _ _ uint 0\n\
            out delivery 00 false uint 0 1*6162\ncredit 0\nunsettled 1\n\
            in disposition 5 true uint 0 uint 3 true rejected 1 error 1 symbol 61\n\
            outcome 00 rejected *\nunsettled 0\ndo detach false\nout detach 1 uint 0\nend",
    ),
    (
        SENDER,
        "out attach 10 string 6c uint 0 false _ _ source 1 string 71 target 1 string 71 _ _ uint 0\n\
            out delivery 00 false uint 0 61\n\
            in flow 9 _ uint 0 uint 0 uint 0 uint 0 uint 1 uint 3 _ true\ncredit 3\n\
            do send 1 01 0 true 62\nout delivery 01 true uint 0 62\ncredit 2\n\
            out flow 9 _ uint 0 uint 0 uint 0 uint 0 uint 4 uint 0 _ true\ncredit 0\nend",
    ),
];

#[test]
fn facts_that_agree_are_counted(rt: HostRuntime) -> Result<(), Fail> {
    for (begin, rows) in AGREEING {
        let rows = format!(in rt.alloc(); "{begin}{rows}")?;
        let mut input = rows.as_bytes();
        let ran = run(rt.alloc(), &mut input);
        assert_eq!(rt; ran.status, 0, "at {rows:?}");
    }
    Ok(())
}

// A row that does not agree, and what is written of it.
const DIFFERING: &[(&str, &str, &str)] = &[
    (
        RECEIVER,
        "out attach 7 string 6d uint 0 true _ _ source 1 string 71 target 1 string 71",
        "attach stated, another name seen",
    ),
    (
        RECEIVER,
        "out flow 7 _ uint 0 uint 0 uint 0 uint 0 uint 1 uint 3",
        "flow up to 4 stated, 5 seen",
    ),
    (RECEIVER, "out detach 1 uint 0", "detach stated, none seen"),
    (
        RECEIVER,
        "out disposition 0 true _",
        "disposition stated, none seen",
    ),
    (
        RECEIVER,
        "got 1 00 false 6162",
        "got stated, another id seen",
    ),
    (RECEIVER, "credit 5", "credit 5 stated, 4 seen"),
    (RECEIVER, "unsettled 0", "unsettled 0 stated, 1 seen"),
    (RECEIVER, "records 1", "records 1 stated, 0 seen"),
    (
        RECEIVER,
        "do dispose true accepted 0 7",
        "do refused, no delivery with this id was handed out",
    ),
    (RECEIVER, "in flow 1 _", "not a row"),
    (RECEIVER, "end", "end stated, attach left"),
    (
        SENDER,
        "out delivery 00 false uint 0 62",
        "delivery stated, another payload seen",
    ),
    (SENDER, "outcome 00 accepted *", "outcome stated, none seen"),
    (
        SENDER,
        "do send 1 01 0 false 61",
        "do refused, there is no credit",
    ),
    (
        SENDER,
        "in transfer 4 uint 0 uint 0 binary 00 uint 0 -",
        "in refused, a transfer came to a sender",
    ),
];

#[test]
fn rows_that_do_not_agree_are_reported(rt: HostRuntime) -> Result<(), Fail> {
    for (begin, row, said) in DIFFERING {
        let rows = format!(in rt.alloc(); "{begin}{row}\n")?;
        let front = format!(in rt.alloc(); "line 6: {said}\n")?;
        let status = if *said == "not a row" { 2 } else { 1 };
        expect_front(&rt, rt.alloc(), rows.as_str(), front.as_str(), status);
    }
    Ok(())
}

// A difference leaves the replay going on to its counts.
#[test]
fn what_is_written_ends_with_the_counts(rt: HostRuntime) -> Result<(), Fail> {
    let rows = format!(in rt.alloc(); "{RECEIVER}credit 5\n")?;
    let said = "line 6: credit 5 stated, 4 seen\n6 rows, 0 refused\n\
        0 of 1 traces end with nothing left but flows\n0 of 1 stated facts agree\n";
    expect(&rt, rt.alloc(), rows.as_str(), said, 1);
    Ok(())
}

const NO_ROW: &[&str] = &[
    " ",
    "link",
    "link sender",
    "link broker 508 attach 3 string 6c uint 0 true",
    "link sender 4294967296 attach 3 string 6c uint 0 true",
    "in",
    "in begin 0",
    "in attach 3 string 6c uint 0 true _",
    "in flow 4 _ uint 0 uint 0 uint 0",
    "in transfer 1 uint 0",
    "in transfer 1 uint 0 0",
    "in transfer 1 uint 0 2*",
    "in transfer 1 uint 0 2*-",
    "in transfer 1 uint 0 *61",
    "in transfer 1 uint 0 1048577*61",
    "do",
    "do end",
    "do attach",
    "do send 0 00 0 61",
    "do dispose true accepted 0",
    "do dispose true accepted 0 0 1 ",
    "do dispose true 0 00",
    "out transfer 1 uint 0 61",
    "out disposition 0 true",
    "got 0 00 61",
    "outcome 00",
    "outcome 00 modified",
    "outcome 00 other *",
    "credit -1",
    "credit 4294967296",
    "unsettled",
    "records 0 0",
    "end 0",
];

#[test]
fn other_lines_are_no_rows(rt: HostRuntime) {
    for rows in NO_ROW {
        expect(&rt, rt.alloc(), rows, "line 1: not a row\n", 2);
    }
}

const NO_LINK: &str = "no link has begun, or the one before has not ended\n";

#[test]
fn rows_stand_between_a_link_and_its_end(rt: HostRuntime) -> Result<(), Fail> {
    let first = format!(in rt.alloc(); "line 1: {NO_LINK}")?;
    for rows in ["end", "credit 0", "do detach true", "in detach 1 uint 0"] {
        expect(&rt, rt.alloc(), rows, first.as_str(), 2);
    }
    let twice = format!(in rt.alloc(); "{SENDER}{SENDER}")?;
    let sixth = format!(in rt.alloc(); "line 6: {NO_LINK}")?;
    expect(&rt, rt.alloc(), twice.as_str(), sixth.as_str(), 2);
    Ok(())
}

// Calls of the other role.
const OTHER_ROLE: &[(&str, &str)] = &[
    (RECEIVER, "do send 0 00 0 false 61"),
    (RECEIVER, "do dispose true 0 00 accepted 0"),
    (SENDER, "do flow 1 false false"),
    (SENDER, "do dispose true accepted 0 0"),
];

#[test]
fn calls_are_those_of_the_role(rt: HostRuntime) -> Result<(), Fail> {
    let said = "line 6: an endpoint of the other role has such rows\n";
    for (begin, row) in OTHER_ROLE {
        let rows = format!(in rt.alloc(); "{begin}{row}")?;
        expect(&rt, rt.alloc(), rows.as_str(), said, 2);
    }
    Ok(())
}

#[test]
fn a_trace_that_does_not_end_does_not_agree(rt: HostRuntime) {
    let said = "5 rows, 0 refused\n0 of 1 traces end with nothing left but flows\n\
        0 of 0 stated facts agree\n";
    expect(&rt, rt.alloc(), RECEIVER, said, 1);
}

#[test]
fn a_failed_read_has_a_status_of_its_own(rt: HostRuntime) {
    for rows in ["", RECEIVER, "# credit 1"] {
        let mut input = rows.as_bytes().chain(Broken);
        let ran = run(rt.alloc(), &mut input);
        assert_eq!(rt; ran.status, 3, "at {rows:?}");
    }
}

const WRITTEN_IN_PART: &[(&str, usize)] = &[
    ("", 0),
    ("", NO_ROWS.len() - 1),
    ("end", 5),
    (RECEIVER, 20),
];

#[test]
fn a_failed_write_has_a_status_of_its_own(rt: HostRuntime) {
    for (rows, room) in WRITTEN_IN_PART {
        let mut input = rows.as_bytes();
        let mut output = Narrow { room: *room };
        let status = status_of(rt.alloc(), &mut input, &mut output);
        assert_eq!(rt; status, 3, "at {rows:?}");
    }
}
