//! What no clause of `hse_io` says: that calls succeed, the lines and numbers that were meant, and what is tried again.
use hse_io::{
    Failed, Got, LONGEST_LINE, Line, LineFault, MemSink, MemSource, NoMemory, Sink, Source, Status,
    StdSink, StdSource,
};
use std::alloc::Global;
use std::io;
use std::io::{Read, Write};
use std::process::Abort;
use std::test::Fail;

/// Reads one line and compares it.
fn expect_line(rt: &impl Abort, source: &mut impl Source, line: &mut Line, want: &[u8]) {
    assert_eq!(rt; source.read_line(line), Ok(Got::Text));
    assert_eq!(rt; line.bytes(), want);
}

/// Reads the lines of "a\n\nbc", and twice the end.
fn expect_three_lines(rt: &impl Abort, source: &mut impl Source, line: &mut Line) {
    expect_line(rt, source, line, b"a");
    expect_line(rt, source, line, b"");
    expect_line(rt, source, line, b"bc");
    assert_eq!(rt; source.read_line(line), Ok(Got::Ended));
    assert_eq!(rt; source.read_line(line), Ok(Got::Ended));
}

#[test]
fn an_empty_line_is_a_line_and_the_last_one_may_lack_its_feed(rt: HostRuntime) -> Result<(), Fail> {
    let alloc = rt.alloc();
    let text = b"a\n\nbc";
    let mut line = Line::new(alloc)?;
    let mut told = MemSource::of(text.to_vec(alloc)?, Vec::new(alloc));
    expect_three_lines(&rt, &mut told, &mut line);
    let mut read = StdSource::new(alloc, text.as_slice())?;
    expect_three_lines(&rt, &mut read, &mut line);
    Ok(())
}

/// A text of so many bytes and one line feed.
fn long_line(alloc: Global, len: usize) -> Result<Vec<u8>, NoMemory> {
    let mut text = Vec::new(alloc);
    text.resize(len, b'x')?;
    text.push(b'\n')?;
    Ok(text)
}

/// Reads a line of so many bytes from a source of each kind.
fn expect_long(
    rt: &impl Abort,
    alloc: Global,
    len: usize,
    want: Result<Got, LineFault>,
) -> Result<(), NoMemory> {
    let mut line = Line::new(alloc)?;
    let text = long_line(alloc, len)?;
    let mut read = StdSource::new(alloc, text.as_slice())?;
    assert_eq!(rt; read.read_line(&mut line), want);
    drop(read);
    let mut told = MemSource::of(text, Vec::new(alloc));
    assert_eq!(rt; told.read_line(&mut line), want);
    Ok(())
}

#[test]
fn a_line_may_have_4194304_bytes_and_no_more(rt: HostRuntime) -> Result<(), Fail> {
    assert_eq!(rt; LONGEST_LINE, 4_194_304);
    expect_long(&rt, rt.alloc(), 4_194_304, Ok(Got::Text))?;
    expect_long(&rt, rt.alloc(), 4_194_305, Err(LineFault::TooLong))?;
    Ok(())
}

#[test]
fn listed_calls_fail_and_others_do_not(rt: HostRuntime) -> Result<(), Fail> {
    let alloc = rt.alloc();
    let mut line = Line::new(alloc)?;
    let mut source = MemSource::of(b"a\nb".to_vec(alloc)?, [1, 3].to_vec(alloc)?);
    assert_eq!(rt; source.read_line(&mut line), Err(LineFault::Failed));
    expect_line(&rt, &mut source, &mut line, b"a");
    assert_eq!(rt; source.read_line(&mut line), Err(LineFault::Failed));
    expect_line(&rt, &mut source, &mut line, b"b");
    let mut sink = MemSink::new(alloc, [2].to_vec(alloc)?);
    assert_eq!(rt; sink.write(b"one "), Ok(()));
    assert_eq!(rt; sink.write(b"two "), Err(Failed));
    assert_eq!(rt; sink.write(b"three"), Ok(()));
    assert_eq!(rt; sink.bytes(), b"one three".as_slice());
    assert_eq!(rt; sink.listed(), 1);
    assert_eq!(rt; sink.refused(), 0, "memory was there");
    Ok(())
}

/// A writer that takes at most so many bytes at each call.
#[derive(Drop)]
struct Sips {
    most: usize,
    taken: Vec<u8>,
}

impl Write for Sips {
    fn write(&mut self, bytes: &[u8]) -> io::Result<usize> {
        let count = self.most.min(bytes.len());
        self.taken.extend_from_slice(&bytes[..count])?;
        Ok(count)
    }

    fn flush(&mut self) -> io::Result<()> {
        Ok(())
    }
}

#[test]
fn a_slow_writer_gets_all_bytes_and_a_full_one_is_a_failure(rt: HostRuntime) -> Result<(), Fail> {
    let alloc = rt.alloc();
    for (most, want) in [(1, Ok(())), (0, Err(Failed))] {
        let mut writer = Sips {
            most,
            taken: Vec::new(alloc),
        };
        let mut sink = StdSink::new(&mut writer);
        assert_eq!(rt; sink.write(b""), Ok(()));
        assert_eq!(rt; sink.write(b"reply"), want);
        assert_eq!(rt; writer.taken.len(), 5 * most);
    }
    Ok(())
}

/// A reader and a writer whose first calls are interrupted, and which then give or take a byte at each call.
#[derive(Drop)]
struct Interrupts {
    left: u32,
    given: u8,
    taken: Vec<u8>,
}

/// One that is interrupted twice.
fn interrupted(alloc: Global) -> Interrupts {
    Interrupts {
        left: 2,
        given: b'a',
        taken: Vec::new(alloc),
    }
}

impl Interrupts {
    fn next(&mut self) -> io::Result<()> {
        if self.left > 0 {
            self.left -= 1;
            return Err(io::Error::from(io::ErrorKind::Interrupted));
        }
        Ok(())
    }
}

impl Read for Interrupts {
    fn read(&mut self, into: &mut [u8]) -> io::Result<usize> {
        self.next()?;
        if into.is_empty() || self.given > b'c' {
            return Ok(0);
        }
        into[0] = self.given;
        self.given = self.given.saturating_add(1);
        self.left = 2;
        Ok(1)
    }
}

impl Write for Interrupts {
    fn write(&mut self, bytes: &[u8]) -> io::Result<usize> {
        self.next()?;
        let count = bytes.len().min(1);
        self.taken.extend_from_slice(&bytes[..count])?;
        self.left = 2;
        Ok(count)
    }

    fn flush(&mut self) -> io::Result<()> {
        Ok(())
    }
}

#[test]
fn an_interrupted_read_or_write_is_tried_again(rt: HostRuntime) -> Result<(), Fail> {
    let alloc = rt.alloc();
    let mut line = Line::new(alloc)?;
    let mut source = StdSource::new(alloc, interrupted(alloc))?;
    expect_line(&rt, &mut source, &mut line, b"abc");
    assert_eq!(rt; source.read_line(&mut line), Ok(Got::Ended));
    let mut writer = interrupted(alloc);
    let mut sink = StdSink::new(&mut writer);
    assert_eq!(rt; sink.write(b"reply"), Ok(()));
    assert_eq!(rt; writer.taken.as_slice(), b"reply".as_slice());
    Ok(())
}

/// A reader that gives "ab" and then fails.
#[derive(Drop)]
struct Breaks {
    is_read: bool,
}

impl Read for Breaks {
    fn read(&mut self, into: &mut [u8]) -> io::Result<usize> {
        if self.is_read || into.len() < 2 {
            return Err(io::Error::from(io::ErrorKind::Other));
        }
        self.is_read = true;
        into[0] = b'a';
        into[1] = b'b';
        Ok(2)
    }
}

#[test]
fn a_line_that_breaks_off_in_a_failure_is_no_line(rt: HostRuntime) -> Result<(), Fail> {
    let mut line = Line::new(rt.alloc())?;
    let mut source = StdSource::new(rt.alloc(), Breaks { is_read: false })?;
    assert_eq!(rt; source.read_line(&mut line), Err(LineFault::Failed));
    Ok(())
}

#[test]
fn each_end_has_its_exit_number(rt: HostRuntime) {
    assert_eq!(rt; Status::Done as u8, 0);
    assert_eq!(rt; Status::Usage as u8, 2);
    assert_eq!(rt; Status::ReadFault as u8, 3);
    assert_eq!(rt; Status::WriteFault as u8, 4);
    assert_eq!(rt; Status::DeviceFault as u8, 5);
    assert_eq!(rt; Status::NotFormed as u8, 6);
    assert_eq!(rt; Status::NoMemory as u8, 7);
    assert_eq!(rt; Status::LineTooLong as u8, 8);
    assert_eq!(rt; Status::ScriptTooLong as u8, 9);
    assert_eq!(rt; Status::NotEmpty as u8, 10);
    assert_eq!(rt; Status::BadParams as u8, 11);
    assert_eq!(rt; Status::Refused as u8, 12);
}
