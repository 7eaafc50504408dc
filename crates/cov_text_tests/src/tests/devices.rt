//! Lines of texts, and devices that fail in mid-stream.
ghost use Rattle.std.specs.Prelude.{◌≤◌};

use cov_base::{Numbers, Text};
use cov_io::{Item, LineFault, Lines, MemorySink, MemorySource, Sink, Source, StdSink, StdSource};
use std::alloc::Global;
use std::process::Abort;
use std::test::Fail;

// Texts, each with its items.
const LINES: [(&[u8], &[u8]); 9] = [
    (b"", b"endendendend"),
    (b"\n", b"[]endendend"),
    (b"a", b"[a]endendend"),
    (b"a\n", b"[a]endendend"),
    (b"a\nb", b"[a][b]endend"),
    (b"ab\n\ncd\n", b"[ab][][cd]end"),
    (b"\n\na", b"[][][a]end"),
    (b"a\r\n\0b\n", b"[a\r][\0b]endend"),
    (b"a\nb\nc\nd\n", b"[a][b][c][d]"),
];

// So many bytes, and then how the text goes on and its items.
const LONG_LINES: [(usize, &[u8], &[u8]); 4] = [
    (8193, b"", b"longendendend"),
    (8193, b"\na", b"long[a]endend"),
    (100000, b"\n\nb\n", b"long[][b]end"),
    (65536, b"\na\n", b"long[a]endend"),
];

fn add_line(all: &mut Text, line: &Text) -> Result<(), Fail> {
    all.append(b"[")?;
    all.append(line.as_slice())?;
    Ok(all.append(b"]")?)
}

// Appends the next item: a line in brackets, `long`, `end`, or the fault.
fn add_item<S: Source>(lines: &mut Lines, source: &mut S, all: &mut Text) -> Result<(), Fail> {
    match lines.next(source) {
        Ok(Item::Line(line)) => add_line(all, &line),
        Ok(Item::Long) => Ok(all.append(b"long")?),
        Ok(Item::End) => Ok(all.append(b"end")?),
        Err(LineFault::ReadFault) => Ok(all.append(b"read fault")?),
        Err(LineFault::TooMuch) => Ok(all.append(b"too much")?),
        Err(LineFault::Memory) => Ok(all.append(b"no memory")?),
    }
}

// The first few items, one behind the other.
fn joined<S: Source>(
    alloc: Global,
    lines: &mut Lines,
    source: &mut S,
    count: u8,
) -> Result<Text, Fail> {
    let mut all = Text::new(alloc);
    for _ in 0..count {
        add_item(lines, source, &mut all)?;
    }
    Ok(all)
}

// The first few items of a source.
fn items<S: Source>(alloc: Global, source: &mut S, count: u8) -> Result<Text, Fail> {
    let mut lines = Lines::new(alloc)?;
    let all = joined(alloc, &mut lines, source, count);
    drop(lines);
    all
}

fn gives(
    rt: &impl Abort,
    alloc: Global,
    source: &mut MemorySource,
    wanted: &[u8],
) -> Result<(), Fail> {
    let given = items(alloc, source, 4)?;
    assert_eq!(rt; given.as_slice(), wanted);
    assert_eq!(rt; source.starved(), 0);
    Ok(())
}

// The second call alone.
fn second(alloc: Global) -> Result<Numbers, Fail> {
    let mut numbers = Numbers::new(alloc);
    numbers.push(2)?;
    Ok(numbers)
}

// Whether the items of a text that comes in pieces are those.
fn check_text(
    rt: &impl Abort,
    alloc: Global,
    text: Text,
    piece: usize,
    wanted: &[u8],
) -> Result<(), Fail>
    requires { 1 ≤ piece }
{
    let mut source = MemorySource::new(alloc, text, piece, Numbers::new(alloc));
    let given = gives(rt, alloc, &mut source, wanted);
    drop(source);
    given
}

#[test]
fn gives_the_lines(rt: HostRuntime) -> Result<(), Fail> {
    for (bytes, wanted) in &LINES {
        check_text(
            &rt,
            rt.alloc(),
            Text::from_slice(rt.alloc(), bytes)?,
            1,
            wanted,
        )?;
        check_text(
            &rt,
            rt.alloc(),
            Text::from_slice(rt.alloc(), bytes)?,
            65536,
            wanted,
        )?;
    }
    Ok(())
}

// A text that begins with so many bytes.
fn long_text(alloc: Global, count: usize, rest: &[u8]) -> Result<Text, Fail> {
    let mut text = Text::new(alloc);
    for _ in 0..count {
        text.push(b'x')?;
    }
    text.append(rest)?;
    Ok(text)
}

#[test]
fn skips_long_lines(rt: HostRuntime) -> Result<(), Fail> {
    for (count, rest, wanted) in &LONG_LINES {
        check_text(
            &rt,
            rt.alloc(),
            long_text(rt.alloc(), *count, rest)?,
            1000,
            wanted,
        )?;
    }
    Ok(())
}

fn gives_greatest(rt: &impl Abort, alloc: Global, source: &mut MemorySource) -> Result<(), Fail> {
    let given = items(alloc, source, 2)?;
    assert_eq!(rt; given.len(), 8197);
    assert_eq!(rt; given.get(8191), Some(b'x'));
    assert_eq!(rt; given.get(8195), Some(b'y'));
    Ok(())
}

#[test]
fn gives_a_line_of_the_greatest_length(rt: HostRuntime) -> Result<(), Fail> {
    let text = long_text(rt.alloc(), 8192, b"\ny")?;
    let mut source = MemorySource::new(rt.alloc(), text, 700, Numbers::new(rt.alloc()));
    let given = gives_greatest(&rt, rt.alloc(), &mut source);
    drop(source);
    given
}

fn fails_at_the_second_read(
    rt: &impl Abort,
    alloc: Global,
    source: &mut MemorySource,
) -> Result<(), Fail> {
    let given = items(alloc, source, 2)?;
    assert_eq!(rt; given.as_slice(), b"[a]read fault".as_slice());
    assert_eq!(rt; source.starved(), 0);
    Ok(())
}

#[test]
fn a_read_fails_in_mid_stream(rt: HostRuntime) -> Result<(), Fail> {
    let fail = second(rt.alloc())?;
    let text = Text::from_slice(rt.alloc(), b"a\nbc\nd")?;
    let mut source = MemorySource::new(rt.alloc(), text, 3, fail);
    let failed = fails_at_the_second_read(&rt, rt.alloc(), &mut source);
    drop(source);
    failed
}

fn fails_at_the_second_write(rt: &impl Abort, sink: &mut MemorySink) {
    assert!(rt; sink.put(b"ab").is_ok());
    assert!(rt; sink.put(b"cd").is_err());
    assert!(rt; sink.put(b"ef").is_ok());
    assert_eq!(rt; sink.written(), b"abef".as_slice());
    assert_eq!(rt; sink.starved(), 0);
}

#[test]
fn a_write_fails_in_mid_stream(rt: HostRuntime) -> Result<(), Fail> {
    let mut sink = MemorySink::new(rt.alloc(), second(rt.alloc())?);
    fails_at_the_second_write(&rt, &mut sink);
    drop(sink);
    Ok(())
}

#[test]
fn reads_by_std(rt: HostRuntime) -> Result<(), Fail> {
    let mut source = StdSource::new(b"a\nbc".as_slice());
    let given = items(rt.alloc(), &mut source, 4)?;
    assert_eq!(rt; given.as_slice(), b"[a][bc]endend".as_slice());
    let mut input = StdSource::new(rt.stdin());
    let given = items(rt.alloc(), &mut input, 4)?;
    assert_eq!(rt; given.as_slice(), b"endendendend".as_slice());
    Ok(())
}

fn put_words(rt: &impl Abort, bytes: &mut Vec<u8>) {
    let mut sink = StdSink::new(bytes);
    assert!(rt; sink.put(b"ab").is_ok());
    assert!(rt; sink.put(b"").is_ok());
    assert!(rt; sink.put(b"c").is_ok());
}

#[test]
fn writes_by_std(rt: HostRuntime) -> Result<(), Fail> {
    let mut bytes = Vec::new(rt.alloc());
    put_words(&rt, &mut bytes);
    assert_eq!(rt; bytes.as_slice(), b"abc".as_slice());
    let mut output = StdSink::new(rt.stdout());
    assert!(rt; output.put(b"by a test\n").is_ok());
    Ok(())
}
