//! Whole runs over a source, a sink and a device in memory.
use crate::top::top;
use hse_io::{Got, Line, LineFault, Mark, MemSink, MemSource, Source, Status};
use media_disk::MemDisk;
use std::alloc::{AllocError, Global};
use std::process::Abort;
use std::test::Fail;

/// What a run ended with, and what it wrote.
#[derive(Drop)]
pub(crate) struct Ran {
    pub(crate) status: Status,
    pub(crate) marks: Vec<Mark>,
    pub(crate) sink: MemSink,
}

fn words(alloc: Global, action: &str) -> Result<Vec<String>, AllocError> {
    let mut words = Vec::new(alloc);
    words.push(String::from_str(alloc, "hse")?)?;
    words.push(String::from_str(alloc, action)?)?;
    words.push(String::from_str(alloc, "demo.db")?)?;
    Ok(words)
}

/// Runs a script; the source and the sink fail at these calls.
pub(crate) fn run(
    alloc: Global,
    script: &[u8],
    reads: Vec<u64>,
    writes: Vec<u64>,
    disk: &mut MemDisk,
) -> Result<Ran, AllocError> {
    let words = words(alloc, "run")?;
    let mut source = MemSource::of(script.to_vec(alloc)?, reads);
    let mut sink = MemSink::new(alloc, writes);
    let outcome = top(alloc, &words, &mut source, &mut sink, disk);
    Ok(Ran {
        status: outcome.status,
        marks: outcome.marks,
        sink,
    })
}

pub(crate) fn wrote(rt: &impl Abort, ran: &Ran, status: Status, lines: &[u8]) {
    assert_eq!(rt; ran.sink.bytes(), lines);
    assert!(rt; ran.status == status);
    assert_eq!(rt; ran.sink.refused(), 0);
}

/// A script and its replies, which end with one batch of two commits on the device.
const SCRIPT: &[u8] = b"put @ s a 1\nget @ s a\ndel @ s a\nget @ s a\nsync\nfoo\nput @ s a x:41\n";

const REPLIES: [&[u8]; 9] = [
    b"opened 1\n",
    b"ok 2\n",
    b"value 1\n",
    b"ok 3\n",
    b"none\n",
    b"ok 3\n",
    b"err line\n",
    b"err line\n",
    b"closed 3\n",
];

/// The first so many replies to the script, and then this text.
fn replies(alloc: Global, count: usize, last: &[u8]) -> Result<Vec<u8>, AllocError> {
    let mut text = Vec::new(alloc);
    for reply in REPLIES.iter().take(count) {
        text.extend_from_slice(reply)?;
    }
    text.extend_from_slice(last)?;
    Ok(text)
}

#[test]
fn a_put_and_a_deletion_are_stored_in_one_batch(rt: HostRuntime) -> Result<(), Fail> {
    let alloc = rt.alloc();
    let mut disk = MemDisk::new(alloc);
    let ran = run(alloc, SCRIPT, Vec::new(alloc), Vec::new(alloc), &mut disk)?;
    wrote(&rt, &ran, Status::Done, &replies(alloc, 9, b"")?);
    let region = [
        0x4f, 0, 0, 0, 0, 0, 0, 0, 1, 0x4f, 0, 0, 0, 57, 0, 0, 0, 2, 0, 0, 0, 0, 0, 0, 0, 2, 0, 0,
        0, 1, 1, 0, 0, 0, 0, 0, 0, 0, 1, 0, 1, b'a', 0, 0, 0, 1, b'1', 0, 0, 0, 0, 0, 0, 0, 3, 0,
        0, 0, 1, 2, 0, 0, 0, 0, 0, 0, 0, 1, 0, 1, b'a', 0,
    ];
    assert!(rt; disk.bytes().starts_with(region.as_slice()));
    assert_eq!(rt; disk.bytes().len(), 4_194_304);
    assert_eq!(rt; disk.refused(), 0);
    assert_eq!(rt; disk.calls().len(), 12);
    Ok(())
}

/// Runs a script on an empty device, of which these calls fail, and compares what it wrote.
fn answers_on(
    rt: &impl Abort,
    alloc: Global,
    script: &[u8],
    fails: &[u64],
    status: Status,
    lines: &[u8],
) -> Result<MemDisk, AllocError> {
    let mut disk = MemDisk::new(alloc);
    disk.fail_at(fails.to_vec(alloc)?);
    let ran = run(alloc, script, Vec::new(alloc), Vec::new(alloc), &mut disk)?;
    wrote(rt, &ran, status, lines);
    assert_eq!(rt; disk.refused(), 0);
    Ok(disk)
}

/// Runs a script on an empty device and compares what it wrote.
fn answers(
    rt: &impl Abort,
    alloc: Global,
    script: &[u8],
    status: Status,
    lines: &[u8],
) -> Result<(), AllocError> {
    answers_on(rt, alloc, script, &[], status, lines)?;
    Ok(())
}

#[test]
fn lines_outside_the_grammar_change_nothing(rt: HostRuntime) -> Result<(), Fail> {
    let alloc = rt.alloc();
    for script in [
        b"put  @ s a 1\n".as_slice(),
        b"put @ s  a 1\n",
        b"put @ s a  1\n",
        b"put @ s  1\n",
        b"put @ s a \n",
        b"put @ s a 1 \n",
        b"del @ s \n",
        b"del @ s a b\n",
        b"get @ s x:61\n",
        b"get @ t a\n",
        b"sync \n",
        b" sync\n",
        b"Sync",
        b"\t",
    ] {
        let lines = b"opened 1\nerr line\nclosed 1\n";
        answers(&rt, alloc, script, Status::Done, lines.as_slice())?;
    }
    Ok(())
}

#[test]
fn empty_lines_and_comments_have_no_reply(rt: HostRuntime) -> Result<(), Fail> {
    let alloc = rt.alloc();
    let script = b"\n#\n# put @ s a 1\n\nget @ s a\n#";
    let lines = b"opened 1\nnone\nclosed 1\n";
    answers(
        &rt,
        alloc,
        script.as_slice(),
        Status::Done,
        lines.as_slice(),
    )?;
    answers(
        &rt,
        alloc,
        b"",
        Status::Done,
        b"opened 1\nclosed 1\n".as_slice(),
    )?;
    let last = b"opened 1\nok 2\nclosed 2\n";
    answers(&rt, alloc, b"del @ s a", Status::Done, last.as_slice())?;
    Ok(())
}

/// A text that begins with this front and has so many bytes more.
pub(crate) fn padded(alloc: Global, front: &[u8], more: usize) -> Result<Vec<u8>, AllocError> {
    let mut text = Vec::new(alloc);
    text.resize(more, b'v')?;
    let mut line = front.to_vec(alloc)?;
    line.extend_from_slice(&text)?;
    Ok(line)
}

/// Runs a line that begins with this front and has so many bytes more.
fn line_answers(
    rt: &impl Abort,
    alloc: Global,
    front: &[u8],
    more: usize,
    lines: &[u8],
) -> Result<(), AllocError> {
    let script = padded(alloc, front, more)?;
    answers(rt, alloc, &script, Status::Done, lines)
}

static KEY_TOO_LONG: &[u8] = b"opened 1\nerr key-length 1345\nclosed 1\n";

#[test]
fn a_key_has_at_most_1344_bytes(rt: HostRuntime) -> Result<(), Fail> {
    let alloc = rt.alloc();
    line_answers(&rt, alloc, b"get @ s ", 1_345, KEY_TOO_LONG)?;
    line_answers(&rt, alloc, b"del @ s ", 1_345, KEY_TOO_LONG)?;
    line_answers(
        &rt,
        alloc,
        b"get @ s ",
        1_344,
        b"opened 1\nnone\nclosed 1\n",
    )?;
    line_answers(
        &rt,
        alloc,
        b"del @ s ",
        1_344,
        b"opened 1\nok 2\nclosed 2\n",
    )?;
    let mut script = padded(alloc, b"put @ s ", 1_345)?;
    script.extend_from_slice(b" 1")?;
    answers(&rt, alloc, &script, Status::Done, KEY_TOO_LONG)?;
    Ok(())
}

#[test]
fn the_log_has_no_room_for_a_value_of_4194181_bytes(rt: HostRuntime) -> Result<(), Fail> {
    let alloc = rt.alloc();
    let full = b"opened 1\nerr log-full 4194241 4194240\nclosed 1\n";
    line_answers(&rt, alloc, b"put @ s a ", 4_194_181, full)?;
    // A line whose key is too long as well is refused for its key.
    let mut front = padded(alloc, b"put @ s ", 1_345)?;
    front.push(b' ')?;
    line_answers(&rt, alloc, &front, 4_190_000, KEY_TOO_LONG)?;
    Ok(())
}

#[test]
fn a_line_has_at_most_4194304_bytes(rt: HostRuntime) -> Result<(), Fail> {
    let alloc = rt.alloc();
    let script = padded(alloc, b"x", 4_194_303)?;
    let lines = b"opened 1\nerr line\nclosed 1\n";
    answers(&rt, alloc, &script, Status::Done, lines.as_slice())?;
    let script = padded(alloc, b"get @ s a\nx", 4_194_304)?;
    let lines = b"opened 1\nnone\nfault line-too-long\n";
    answers(&rt, alloc, &script, Status::LineTooLong, lines.as_slice())?;
    Ok(())
}

#[test]
fn other_words_are_usage_and_touch_no_device(rt: HostRuntime) -> Result<(), Fail> {
    let alloc = rt.alloc();
    let mut disk = MemDisk::new(alloc);
    let mut source = MemSource::of(SCRIPT.to_vec(alloc)?, Vec::new(alloc));
    let mut sink = MemSink::new(alloc, Vec::new(alloc));
    let words = words(alloc, "ran")?;
    let outcome = top(alloc, &words, &mut source, &mut sink, &mut disk);
    assert!(rt; outcome.status == Status::Usage);
    assert_eq!(rt; sink.bytes(), b"fault usage\n".as_slice());
    assert!(rt; disk.calls().is_empty());
    Ok(())
}

#[test]
fn each_read_that_fails_ends_the_run(rt: HostRuntime) -> Result<(), Fail> {
    let alloc = rt.alloc();
    for call in 1..9usize {
        let mut disk = MemDisk::new(alloc);
        let reads = [call as u64].as_slice().to_vec(alloc)?;
        let ran = run(alloc, SCRIPT, reads, Vec::new(alloc), &mut disk)?;
        let lines = replies(alloc, call, b"fault read\n")?;
        wrote(&rt, &ran, Status::ReadFault, &lines);
    }
    Ok(())
}

#[test]
fn each_write_that_fails_ends_the_run(rt: HostRuntime) -> Result<(), Fail> {
    let alloc = rt.alloc();
    for call in 0..9usize {
        let mut disk = MemDisk::new(alloc);
        let writes = [call as u64 + 1].as_slice().to_vec(alloc)?;
        let ran = run(alloc, SCRIPT, Vec::new(alloc), writes, &mut disk)?;
        wrote(&rt, &ran, Status::WriteFault, &replies(alloc, call, b"")?);
    }
    // A status's line that is not written leaves the status as it is.
    let mut disk = MemDisk::new(alloc);
    let reads = [3].as_slice().to_vec(alloc)?;
    let writes = [4].as_slice().to_vec(alloc)?;
    let ran = run(alloc, SCRIPT, reads, writes, &mut disk)?;
    wrote(&rt, &ran, Status::ReadFault, &replies(alloc, 3, b"")?);
    Ok(())
}

/// Runs a script on an empty device of which one call fails.
fn fails_at(
    rt: &impl Abort,
    alloc: Global,
    script: &[u8],
    call: u64,
    lines: &[u8],
) -> Result<(), AllocError> {
    let disk = answers_on(rt, alloc, script, &[call], Status::DeviceFault, lines)?;
    // Nothing is asked of a device that has failed.
    assert_eq!(rt; disk.calls().len() as u64, call.wrapping_add(1));
    assert_eq!(rt; disk.listed(), 1);
    Ok(())
}

#[test]
fn each_device_call_that_fails_ends_the_run(rt: HostRuntime) -> Result<(), Fail> {
    let alloc = rt.alloc();
    // The opening takes eight calls, and a batch four.
    for call in 0..8 {
        fails_at(&rt, alloc, SCRIPT, call, b"fault device\n".as_slice())?;
    }
    for call in 8..12 {
        let lines = replies(alloc, 5, b"fault device\n")?;
        fails_at(&rt, alloc, SCRIPT, call, &lines)?;
        // Where no line is a sync, the end of the script writes the batch.
        let lines = b"opened 1\nok 2\nfault device\n";
        fails_at(&rt, alloc, b"put @ s a 1\n", call, lines.as_slice())?;
    }
    Ok(())
}

/// A source that gives the first line of another one again and again, and tells nothing.
#[derive(Drop)]
struct Endless {
    first: MemSource,
    lines: u64,
}

impl Source for Endless {
    ghost use Rattle.std.specs.Prelude.{None};

    ghost remaining = { λ s. None };

    ghost faults = { λ s. s.first.faults };

    fn read_line(&mut self, into: &mut Line) -> Result<Got, LineFault> {
        if self.lines == 0 {
            self.lines = 1;
            return self.first.read_line(into);
        }
        // The line stands in the buffer still.
        let _line = into.bytes();
        self.lines = self.lines.saturating_add(1);
        Ok(Got::Text)
    }
}

#[test]
fn a_script_ends_before_its_lines_have_2_to_the_40_bytes(rt: HostRuntime) -> Result<(), Fail> {
    let alloc = rt.alloc();
    let comment = padded(alloc, b"#", 4_194_303)?;
    let mut source = Endless {
        first: MemSource::of(comment, Vec::new(alloc)),
        lines: 0,
    };
    let mut sink = MemSink::new(alloc, Vec::new(alloc));
    let mut disk = MemDisk::new(alloc);
    let words = words(alloc, "run")?;
    let outcome = top(alloc, &words, &mut source, &mut sink, &mut disk);
    assert!(rt; outcome.status == Status::ScriptTooLong);
    assert_eq!(rt;
        sink.bytes(),
        b"opened 1\nfault script-too-long\n".as_slice()
    );
    // Each line counts 2^22 + 1 bytes, so the sum comes to 2^40 with the line of number 2^18.
    assert_eq!(rt; source.lines, 262_144);
    Ok(())
}

/// How many pieces of memory are held at most.
const PIECES: usize = 1 << 17;

/// Takes pieces of this size while there are any, and while there is room to hold them.
fn take_all(alloc: Global, size: usize, held: &mut Vec<Vec<u8>>) {
    for _ in 0..PIECES {
        if held.len() == held.capacity() {
            return;
        }
        let Ok(piece) = Vec::with_capacity(alloc, size) else {
            return;
        };
        let _ = held.push(piece);
    }
}

/// All memory that the system gives this process, in pieces of falling size. It goes back where this is dropped.
fn all_memory(alloc: Global) -> Result<Vec<Vec<u8>>, AllocError> {
    let mut held = Vec::with_capacity(alloc, PIECES)?;
    let mut size = 1usize << 47;
    for _ in 0..44 {
        take_all(alloc, size, &mut held);
        size /= 2;
    }
    Ok(held)
}

#[test]
fn a_run_that_gets_no_memory_tells_it(rt: HostRuntime) -> Result<(), Fail> {
    let alloc = rt.alloc();
    let words = words(alloc, "run")?;
    let mut source = MemSource::of(SCRIPT.to_vec(alloc)?, Vec::new(alloc));
    let mut sink = MemSink::new(alloc, Vec::new(alloc));
    let mut disk = MemDisk::new(alloc);
    let held = all_memory(alloc)?;
    let outcome = top(alloc, &words, &mut source, &mut sink, &mut disk);
    drop(held);
    assert!(rt; outcome.status == Status::NoMemory);
    assert!(rt; disk.calls().is_empty());
    // The line that tells it is written, or the sink has no memory for it either.
    let told = sink.bytes() == b"fault memory\n".as_slice();
    assert!(rt; told || sink.bytes().is_empty() && sink.refused() == 1);
    // With memory again the same objects are of use.
    let outcome = top(alloc, &words, &mut source, &mut sink, &mut disk);
    assert!(rt; outcome.status == Status::Done);
    assert_eq!(rt; disk.calls().len(), 12);
    Ok(())
}
