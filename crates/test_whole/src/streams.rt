//! Tests of each call that takes a reader or a writer. The readers and writers fail, are interrupted, or take few bytes
//! at a time.

use crate::courses::cluster_after;
use crate::same::assert_same;
use mencius_app::{
    AppFault, Failure, Open, Sink, Source, Std, check, draw, judge, replay, report, run, trace,
};
use mencius_draw::{Options, Scheme, picture};
use mencius_trace::View;
use std::alloc::Global;
use std::io;
use std::io::{ErrorKind, Read, Write};
use std::panic::Expect;
use std::process::Abort;
use std::sync::Wait;
use std::test::Fail;
use std::thread::Threads;

// The view of the text of a whole trace.
const WHOLE_TEXT: View = View {
    is_json: false,
    instance: None,
    command: None,
    server: None,
};

// A reader that first fails with Interrupted `interruptions` times, and then gives the bytes in pieces. It may also
// fail at one of its calls.
#[derive(Drop)]
struct Pieces<'a> {
    bytes: &'a [u8],
    piece: usize,
    interruptions: u32,
    calls: usize,
    fails_at: Option<usize>,
}

impl Read for Pieces<'_> {
    fn read(&mut self, buf: &mut [u8]) -> io::Result<usize> {
        let call = self.calls;
        self.calls = call.saturating_add(1);
        if self.fails_at == Some(call) {
            return Err(io::Error::from(ErrorKind::TimedOut));
        }
        if self.interruptions > 0 {
            self.interruptions -= 1;
            return Err(io::Error::from(ErrorKind::Interrupted));
        }
        let n = self.bytes.len().min(buf.len()).min(self.piece);
        buf[..n].copy_from_slice(&self.bytes[..n]);
        self.bytes = &self.bytes[n..];
        Ok(n)
    }
}

// The trouble of a writer.
#[derive(Clone, Copy, PartialEq, Eq)]
enum Trouble {
    None,
    Error,
    TakesNothing,
}

// A writer that first fails with Interrupted `interruptions` times, and then takes the bytes in pieces. It may also be
// in trouble at one of its calls.
#[derive(Drop)]
struct Page<'a> {
    taken: &'a mut Vec<u8>,
    piece: usize,
    interruptions: u32,
    calls: usize,
    trouble: Trouble,
    trouble_at: usize,
}

impl Write for Page<'_> {
    fn write(&mut self, buf: &[u8]) -> io::Result<usize> {
        let call = self.calls;
        self.calls = call.saturating_add(1);
        if call == self.trouble_at && self.trouble == Trouble::Error {
            return Err(io::Error::from(ErrorKind::TimedOut));
        }
        if call == self.trouble_at && self.trouble == Trouble::TakesNothing {
            return Ok(0);
        }
        if self.interruptions > 0 {
            self.interruptions -= 1;
            return Err(io::Error::from(ErrorKind::Interrupted));
        }
        let n = buf.len().min(self.piece);
        self.taken.extend_from_slice(&buf[..n])?;
        Ok(n)
    }

    fn flush(&mut self) -> io::Result<()> {
        Ok(())
    }
}

// The call under test.
#[derive(Clone, Copy)]
enum Call {
    Replay,
    Trace,
    Check,
    Judge,
    Draw,
    Run,
    // The report of the cluster that `SCENARIO` makes. This call reads no input.
    Report,
}

fn name_of(call: Call) -> &'static str {
    match call {
        Call::Replay => "replay",
        Call::Trace => "trace",
        Call::Check => "check",
        Call::Judge => "judge",
        Call::Draw => "draw",
        Call::Run => "run",
        Call::Report => "report",
    }
}

const SCENARIO: &str = "{\"version\":1,\"servers\":1,\"events\":[\"submit 0 1.0 set a x\",\
    \"deliver 0 0\",\"deliver 1 0\",\"execute 0\"]}";

const REPORT: &str = "servers 1 messages 3 events 4\n\
    server 0 front 1 done 1 history 1.0\n\
    reply 1.0 none\n";

const NO_EVENTS: &str = "{\"version\":1,\"servers\":2,\"events\":[]}";

const NO_TURNS: &str = "{\"version\":1,\"servers\":1,\"workers\":1,\"seed\":1,\"turns\":0,\
    \"loss\":0,\"commands\":[[]]}";

// The trace of `NO_EVENTS`.
const TRACE: &str = "servers 2\n\
    server 0 front 0 executed 0 next 0 waiting -\n\
    server 1 front 1 executed 0 next 0 waiting -\n";

// The options that draw the whole trace of `NO_EVENTS`.
const WHOLE: Options = Options {
    first: 0,
    last: 0,
    scheme: Scheme::Light,
};

const LOG: &str = "submit 1.0 set a x\nexecute 0 1.0\nreply 1.0 none\n";

const VERDICT: &str = "ok servers 1 commands 1 executed 1 replies 1 open 0 lookups 0 shortest 1\n";

// The calls that read, each with its input and its output.
const READS: [(Call, &str, &str); 5] = [
    (Call::Replay, SCENARIO, REPORT),
    (Call::Trace, NO_EVENTS, TRACE),
    (Call::Check, SCENARIO, "ok servers 1 events 4\n"),
    (Call::Judge, LOG, VERDICT),
    (
        Call::Run,
        NO_TURNS,
        "{\"events\":[],\"servers\":1,\"version\":1}\n\
        servers 1 messages 0 events 0\n\
        server 0 front 0 done 0 history -\n\
        lookup a none\n",
    ),
];

// The call that only writes, with the scenario of its cluster and its output.
const REPORTED: (Call, &str, &str) = (Call::Report, SCENARIO, REPORT);

// Passes on the failure of a judgement. If it did not fail, checks that the log keeps all promises.
fn judged_in<R: Abort>(rt: &R, judged: Result<bool, Failure>) -> Result<(), Failure> {
    let all_kept = judged?;
    assert!(rt; all_kept);
    Ok(())
}

// Makes a call. A run prints its journal and looks up `a`.
fn make<R: Abort + Threads + Wait + Sync>(
    rt: &R,
    alloc: Global,
    call: Call,
    source: &mut Std<Pieces>,
    sink: &mut Std<Page>,
) -> Result<(), AppFault> {
    let made = match call {
        Call::Replay => return replay(alloc, source, sink),
        Call::Trace => trace(alloc, source, sink, &WHOLE_TEXT),
        Call::Check => check(alloc, source, sink),
        Call::Judge => judged_in(rt, judge(alloc, source, sink, false, false)),
        Call::Draw => draw(alloc, source, sink, &WHOLE),
        Call::Run => return run(rt, alloc, source, sink, &Open, true, Some("a")),
        Call::Report => return report(alloc, &cluster_after(rt, alloc, SCENARIO), sink),
    };
    made.map_err(AppFault::from)
}

fn reader<'a>(
    input: &'a str,
    piece: usize,
    interruptions: u32,
    fails_at: Option<usize>,
) -> Std<Pieces<'a>> {
    Std::new(Pieces {
        bytes: input.as_bytes(),
        piece,
        interruptions,
        calls: 0,
        fails_at,
    })
}

// The behaviour of a writer, without the bytes that it has taken.
#[derive(Clone, Copy)]
struct Paper {
    piece: usize,
    interruptions: u32,
    trouble: Trouble,
    trouble_at: usize,
}

// The result of a call, the numbers of failures of its reader and its writer, and the bytes that were written.
#[derive(Drop)]
struct CallResult {
    answer: Result<(), AppFault>,
    failures: (u64, u64),
    taken: Vec<u8>,
}

fn make_call<R: Abort + Threads + Wait + Sync>(
    rt: &R,
    alloc: Global,
    call: Call,
    mut source: Std<Pieces>,
    paper: Paper,
) -> CallResult {
    let mut taken = Vec::new(alloc);
    let mut sink = Std::new(Page {
        taken: &mut taken,
        piece: paper.piece,
        interruptions: paper.interruptions,
        calls: 0,
        trouble: paper.trouble,
        trouble_at: paper.trouble_at,
    });
    let answer = make(rt, alloc, call, &mut source, &mut sink);
    let failures = (source.failures(), sink.failures());
    CallResult {
        answer,
        failures,
        taken,
    }
}

// Checks that a call writes no bytes if its reader fails at one of the reader's calls.
fn assert_reads_at<R: Abort + Threads + Wait + Sync>(
    rt: &R,
    alloc: Global,
    call: Call,
    input: &str,
    at: usize,
) {
    let paper = Paper {
        piece: 100,
        interruptions: 0,
        trouble: Trouble::None,
        trouble_at: 0,
    };
    let made = make_call(rt, alloc, call, reader(input, 3, 0, Some(at)), paper);
    let found = (at, made.answer, made.failures, made.taken.len());
    let wanted = (at, Err(AppFault::ReadFailed), (1, 0), 0);
    assert_same(rt, &found, &wanted, name_of(call));
}

// Checks a call whose reader fails, for each call of the reader in turn.
fn assert_reads<R: Abort + Threads + Wait + Sync>(rt: &R, alloc: Global, call: Call, input: &str) {
    // Each call reads three bytes. An additional call finds the end.
    let calls = input.len().div_ceil(3) + 1;
    for at in 0..calls {
        assert_reads_at(rt, alloc, call, input, at);
    }
}

#[test]
fn reader_fails_at_each_call(rt: HostRuntime) {
    for (call, input, _text) in READS {
        assert_reads(&rt, rt.alloc(), call, input);
    }
    assert_reads(&rt, rt.alloc(), Call::Draw, NO_EVENTS);
}

// Checks the result of a call whose reader and writer are first interrupted this many times.
fn assert_answers<R: Abort + Threads + Wait + Sync>(
    rt: &R,
    alloc: Global,
    row: (Call, &str, &str),
    interruptions: (u32, u32),
    want: Result<(), AppFault>,
) {
    let (call, input, text) = row;
    let (reads, writes) = interruptions;
    let paper = Paper {
        piece: 1,
        interruptions: writes,
        trouble: Trouble::None,
        trouble_at: 0,
    };
    let made = make_call(rt, alloc, call, reader(input, 3, reads, None), paper);
    let whole = if want == Ok(()) { text } else { "" };
    let found = (made.answer, made.failures, made.taken.as_slice());
    let wanted = (want, (reads as u64, writes as u64), whole.as_bytes());
    assert_same(rt, &found, &wanted, name_of(call));
}

// How often the reader and the writer are interrupted at first, and the result of the call.
type Interrupted = ((u32, u32), Result<(), AppFault>);

const WRITES: [Interrupted; 2] = [((0, 1000), Ok(())), ((0, 1001), Err(AppFault::WriteFailed))];

const BOTH: [Interrupted; 3] = [
    ((1000, 0), Ok(())),
    ((1000, 1000), Ok(())),
    ((1001, 0), Err(AppFault::ReadFailed)),
];

fn assert_interruptions<R: Abort + Threads + Wait + Sync>(
    rt: &R,
    alloc: Global,
    row: (Call, &str, &str),
    table: &[Interrupted],
) {
    for (interruptions, want) in table {
        assert_answers(rt, alloc, row, *interruptions, *want);
    }
}

#[test]
fn interruptions(rt: HostRuntime) {
    let alloc = rt.alloc();
    for row in READS {
        assert_interruptions(&rt, alloc, row, &WRITES);
        assert_interruptions(&rt, alloc, row, &BOTH);
    }
    assert_interruptions(&rt, alloc, REPORTED, &WRITES);
}

// Checks a call whose writer is in trouble at a byte of the text, for each byte in turn. The call must have written all
// bytes before it.
fn assert_stops<R: Abort + Threads + Wait + Sync>(
    rt: &R,
    alloc: Global,
    row: (Call, &str, &str),
    trouble: Trouble,
) {
    for at in 0..row.2.len() {
        assert_stops_at(rt, alloc, row, trouble, at);
    }
}

fn assert_stops_at<R: Abort + Threads + Wait + Sync>(
    rt: &R,
    alloc: Global,
    row: (Call, &str, &str),
    trouble: Trouble,
    at: usize,
) {
    let (call, input, text) = row;
    let paper = Paper {
        piece: 1,
        interruptions: 0,
        trouble,
        trouble_at: at,
    };
    let made = make_call(rt, alloc, call, reader(input, 100, 0, None), paper);
    let found = (at, made.answer, made.failures, Some(made.taken.as_slice()));
    let failed = Err(AppFault::WriteFailed);
    let wanted = (at, failed, (0, 1), text.as_bytes().get(..at));
    assert_same(rt, &found, &wanted, name_of(call));
}

#[test]
fn writer_in_trouble_at_each_call(rt: HostRuntime) {
    for trouble in [Trouble::Error, Trouble::TakesNothing] {
        for row in READS {
            assert_stops(&rt, rt.alloc(), row, trouble);
        }
        assert_stops(&rt, rt.alloc(), REPORTED, trouble);
    }
}

// Checks only some bytes of a picture, because it is long. The writer is in trouble at each of them in turn.
fn assert_stops_at_some<R: Abort + Threads + Wait + Sync>(
    rt: &R,
    alloc: Global,
    row: (Call, &str, &str),
    trouble: Trouble,
) {
    let length = row.2.len();
    for at in [0, length / 2, length.saturating_sub(1)] {
        assert_stops_at(rt, alloc, row, trouble, at);
    }
}

#[test]
fn picture_with_troubles(rt: HostRuntime) -> Result<(), Fail> {
    let alloc = rt.alloc();
    let text = picture(alloc, TRACE, &WHOLE)?.expect(&rt, "few levels");
    let row = (Call::Draw, NO_EVENTS, text.as_str());
    assert_interruptions(&rt, alloc, row, &WRITES);
    assert_interruptions(&rt, alloc, row, &BOTH);
    assert_stops_at_some(&rt, alloc, row, Trouble::Error);
    assert_stops_at_some(&rt, alloc, row, Trouble::TakesNothing);
    Ok(())
}
