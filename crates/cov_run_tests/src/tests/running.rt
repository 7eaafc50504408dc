// A run of the program over devices in memory.
use cov_base::{Memory, Numbers, Text, Texts};
use cov_disk::MemoryDisk;
use cov_io::{MemorySink, MemorySource};
use cov_out::{MemoryTrees, OutRow, OutRows};
use cov_serve::run;
use std::alloc::Global;

/// A row of trees: its path, and the bytes of a file.
pub(crate) type Row = (&'static [u8], Option<&'static [u8]>);

/// The call of each device that fails, from 1; 0 for none.
#[derive(Clone, Copy)]
pub(crate) struct Fails {
    pub(crate) source: u64,
    pub(crate) sink: u64,
    pub(crate) disk: u64,
    pub(crate) trees: u64,
}

pub(crate) const NONE_FAILS: Fails = Fails {
    source: 0,
    sink: 0,
    disk: 0,
    trees: 0,
};

/// Source and trees fail at their first call.
pub(crate) const UNASKED: Fails = Fails {
    source: 1,
    sink: 0,
    disk: 0,
    trees: 1,
};

/// A device that fails.
#[derive(Clone, Copy)]
pub(crate) enum Device {
    Source,
    Sink,
    Disk,
    Trees,
}

/// That this call of one device fails.
pub(crate) fn failing(device: Device, call: u64) -> Fails {
    let mut fails = NONE_FAILS;
    match device {
        Device::Source => fails.source = call,
        Device::Sink => fails.sink = call,
        Device::Disk => fails.disk = call,
        Device::Trees => fails.trees = call,
    }
    fails
}

/// A run: the words, the script, and what it writes where all goes well.
#[derive(Clone, Copy)]
pub(crate) struct Case {
    pub(crate) words: &'static [&'static str],
    pub(crate) script: &'static [u8],
    pub(crate) replies: &'static [u8],
    pub(crate) rows: &'static [Row],
}

/// How a run ends: the status, and how many bytes of the replies and how many of the rows are written. None where others are.
#[derive(Clone, Copy, Debug, PartialEq)]
pub(crate) struct End {
    pub(crate) code: u8,
    pub(crate) written: Option<usize>,
    pub(crate) rows: Option<usize>,
}

impl Case {
    /// The end with this status and all that is to be written.
    pub(crate) fn end(&self, code: u8) -> End {
        End {
            code,
            written: Some(self.replies.len()),
            rows: Some(self.rows.len()),
        }
    }
}

fn words_of(alloc: Global, words: &[&str]) -> Result<Texts, Memory> {
    let mut texts = Texts::new(alloc);
    for word in words {
        texts.push(Text::from_slice(alloc, word.as_bytes())?)?;
    }
    Ok(texts)
}

fn only(alloc: Global, call: u64) -> Result<Numbers, Memory> {
    let mut numbers = Numbers::new(alloc);
    numbers.push(call)?;
    Ok(numbers)
}

fn source_of(alloc: Global, script: &[u8], fails: u64) -> Result<MemorySource, Memory> {
    let fail = only(alloc, fails)?;
    let script = Text::from_slice(alloc, script)?;
    Ok(MemorySource::new(alloc, script, 64, fail))
}

// How many bytes there are, if they are the first of these.
fn front(bytes: &[u8], whole: &[u8]) -> Option<usize> {
    whole.starts_with(bytes).then_some(bytes.len())
}

fn is_row(row: &OutRow, wanted: &Row) -> bool {
    row.path.as_slice() == wanted.0 && row.bytes.as_ref().map(Text::as_slice) == wanted.1
}

// How many rows there are, if they are the first of these.
fn front_rows(rows: &OutRows, whole: &[Row]) -> Option<usize> {
    if whole.len() < rows.len() {
        return None;
    }
    for (row, wanted) in rows.as_slice().iter().zip(whole) {
        if !is_row(row, wanted) {
            return None;
        }
    }
    Some(rows.len())
}

/// Runs the program, for its status.
pub(crate) fn status(
    alloc: Global,
    case: &Case,
    fails: Fails,
    sink: &mut MemorySink,
    disk: &mut MemoryDisk,
    trees: &mut MemoryTrees,
) -> Result<u8, Memory> {
    let words = words_of(alloc, case.words)?;
    let mut source = source_of(alloc, case.script, fails.source)?;
    Ok(run(alloc, &words, &mut source, sink, disk, trees).code())
}

// Runs the program, for its status and what is written.
fn replied(
    alloc: Global,
    case: &Case,
    fails: Fails,
    disk: &mut MemoryDisk,
    trees: &mut MemoryTrees,
) -> Result<(u8, Option<usize>), Memory> {
    let mut sink = MemorySink::new(alloc, only(alloc, fails.sink)?);
    let code = status(alloc, case, fails, &mut sink, disk, trees);
    let written = front(sink.written(), case.replies);
    drop(sink);
    Ok((code?, written))
}

/// Runs the program over a disk.
pub(crate) fn end_over(
    alloc: Global,
    case: &Case,
    fails: Fails,
    disk: &mut MemoryDisk,
) -> Result<End, Memory> {
    let mut trees = MemoryTrees::new(alloc, only(alloc, fails.trees)?);
    let replied = replied(alloc, case, fails, disk, &mut trees);
    let rows = front_rows(trees.rows(), case.rows);
    drop(trees);
    let (code, written) = replied?;
    Ok(End {
        code,
        written,
        rows,
    })
}

/// The bytes of a disk: the first of these, and others behind them.
#[derive(Clone, Copy)]
pub(crate) struct Stored {
    pub(crate) whole: &'static [u8],
    pub(crate) count: usize,
    pub(crate) behind: &'static [u8],
}

/// These bytes.
pub(crate) fn bytes_of(alloc: Global, stored: &Stored) -> Result<Text, Memory> {
    let mut bytes = Text::new(alloc);
    if let Some(first) = stored.whole.get(..stored.count) {
        bytes.append(first)?;
    }
    bytes.append(stored.behind)?;
    Ok(bytes)
}

/// A disk of these bytes, of which this call fails.
pub(crate) fn disk_of(alloc: Global, bytes: Text, fails: u64) -> Result<MemoryDisk, Memory> {
    let fail = only(alloc, fails)?;
    Ok(MemoryDisk::new(alloc, bytes, fail, None))
}

/// Runs the program over a disk of these bytes, and whether it then has those.
pub(crate) fn end_from(
    alloc: Global,
    case: &Case,
    fails: Fails,
    before: &Stored,
    after: &Stored,
) -> Result<(End, bool), Memory> {
    let after = bytes_of(alloc, after)?;
    let mut disk = disk_of(alloc, bytes_of(alloc, before)?, fails.disk)?;
    let end = end_over(alloc, case, fails, &mut disk);
    let same = disk.bytes() == after.as_slice();
    drop(disk);
    Ok((end?, same))
}
