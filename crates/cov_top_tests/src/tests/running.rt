// A run of the program over devices in memory.
ghost use Rattle.std.specs.Prelude.{◌≤◌};

use cov_base::{Numbers, Text, Texts};
use cov_disk::MemoryDisk;
use cov_io::{MemorySink, MemorySource};
use cov_out::MemoryTrees;
use cov_serve::run;
use std::alloc::Global;
use std::process::Abort;
use std::test::Fail;

pub(crate) const DONE: u8 = 0;

pub(crate) const SOME_REFUSED: u8 = 1;

pub(crate) const USAGE: u8 = 2;

pub(crate) const READ_FAULT: u8 = 4;

pub(crate) const WRITE_FAULT: u8 = 5;

pub(crate) const TREES_FAULT: u8 = 7;

/// A script, what is written, and the exit status.
pub(crate) type Case<'a> = (&'a [u8], &'a [u8], u8);

fn words_of(alloc: Global, words: &[&str]) -> Result<Texts, Fail> {
    let mut texts = Texts::new(alloc);
    for word in words {
        texts.push(Text::from_slice(alloc, word.as_bytes())?)?;
    }
    Ok(texts)
}

pub(crate) fn list_of(alloc: Global, numbers: &[u64]) -> Result<Numbers, Fail> {
    let mut list = Numbers::new(alloc);
    for number in numbers {
        list.push(*number)?;
    }
    Ok(list)
}

/// A line and its reply.
pub(crate) type Step<'a> = (&'a [u8], &'a [u8]);

// The script of these steps, one part after another.
pub(crate) fn script_of(alloc: Global, parts: &[&[Step]]) -> Result<Text, Fail> {
    let mut script = Text::new(alloc);
    for part in parts {
        for (line, _) in *part {
            script.append(line)?;
            script.push(b'\n')?;
        }
    }
    Ok(script)
}

// What is written on it.
pub(crate) fn replies_of(alloc: Global, parts: &[&[Step]]) -> Result<Text, Fail> {
    let mut replies = Text::new(alloc);
    for part in parts {
        for (_, reply) in *part {
            replies.append(reply)?;
            replies.push(b'\n')?;
        }
    }
    Ok(replies)
}

/// Parts of a script, and the status of a run on them.
pub(crate) type Parts<'a> = (&'a [&'a [Step<'a>]], u8);

/// The words, the size of pieces, the calls of the source that fail, and those of the sink.
pub(crate) type Setting<'a> = (&'a [&'a str], usize, &'a [u64], &'a [u64]);

// Runs the program over a disk that is empty.
fn run_anew(
    alloc: Global,
    words: &Texts,
    source: &mut MemorySource,
    sink: &mut MemorySink,
    trees: &mut MemoryTrees,
) -> u8 {
    let mut disk = MemoryDisk::new(alloc, Text::new(alloc), Numbers::new(alloc), None);
    let status = run(alloc, words, source, sink, &mut disk, trees).code();
    drop(disk);
    status
}

// Runs the program on a script over a sink and trees.
fn serve_over(
    alloc: Global,
    setting: Setting,
    script: &[u8],
    sink: &mut MemorySink,
    trees: &mut MemoryTrees,
) -> Result<u8, Fail>
    requires { 1 ≤ setting.1 }
{
    let (words, piece, fail_to_read, _) = setting;
    let words = words_of(alloc, words)?;
    let text = Text::from_slice(alloc, script)?;
    let mut source = MemorySource::new(alloc, text, piece, list_of(alloc, fail_to_read)?);
    Ok(run_anew(alloc, &words, &mut source, sink, trees))
}

// Runs the program on a script over a sink.
pub(crate) fn serve(
    alloc: Global,
    setting: Setting,
    script: &[u8],
    sink: &mut MemorySink,
) -> Result<u8, Fail>
    requires { 1 ≤ setting.1 }
{
    let mut trees = MemoryTrees::new(alloc, Numbers::new(alloc));
    let served = serve_over(alloc, setting, script, sink, &mut trees);
    drop(trees);
    served
}

// Runs the program on a script over trees, and compares what is written and the status.
pub(crate) fn expect_over(
    rt: &impl Abort,
    alloc: Global,
    setting: Setting,
    case: Case,
    trees: &mut MemoryTrees,
) -> Result<(), Fail>
    requires { 1 ≤ setting.1 }
{
    let (script, written, status) = case;
    let mut sink = MemorySink::new(alloc, list_of(alloc, setting.3)?);
    let ended = serve_over(alloc, setting, script, &mut sink, trees)?;
    assert_eq!(rt; ended, status);
    assert_eq!(rt; sink.written(), written);
    Ok(())
}

// Runs the program on a script, and compares what is written and the status.
pub(crate) fn expect(
    rt: &impl Abort,
    alloc: Global,
    setting: Setting,
    case: Case,
) -> Result<(), Fail>
    requires { 1 ≤ setting.1 }
{
    let mut trees = MemoryTrees::new(alloc, Numbers::new(alloc));
    let expected = expect_over(rt, alloc, setting, case, &mut trees);
    drop(trees);
    expected
}

/// The script is read in large pieces, and no call fails.
pub(crate) const SERVED: Setting = (&["run"], 65536, &[], &[]);

/// The same, each read giving one byte.
pub(crate) const SERVED_BY_BYTES: Setting = (&["run"], 1, &[], &[]);

// Runs the program on each of these scripts.
pub(crate) fn are_served(
    rt: &impl Abort,
    alloc: Global,
    setting: Setting,
    cases: &[Case],
) -> Result<(), Fail>
    requires { 1 ≤ setting.1 }
{
    for case in cases {
        expect(rt, alloc, setting, *case)?;
    }
    Ok(())
}

// Runs the program on each of these scripts.
pub(crate) fn parts_are_served(
    rt: &impl Abort,
    alloc: Global,
    cases: &[Parts],
) -> Result<(), Fail> {
    for (parts, status) in cases {
        let script = script_of(alloc, parts)?;
        let written = replies_of(alloc, parts)?;
        let case = (script.as_slice(), written.as_slice(), *status);
        expect(rt, alloc, SERVED, case)?;
    }
    Ok(())
}
