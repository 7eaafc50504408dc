//! The program: its words, its standard input and output, the file of the store, and the folder that trees are written below.
#![tactic(auto)]

use cov_base::{Memory, Text, Texts};
use cov_disk::FileDisk;
use cov_io::{StdSink, StdSource};
use cov_out::FolderTrees;
use cov_serve::{Status, run};
use std::alloc::Global;
use std::env::{self, Args};
use std::io::ErrorKind;
use std::process::ExitCode;

fn main(rt: HostRuntime) -> ExitCode {
    let status = match words(&rt) {
        Ok(words) => serve(&rt, &words),
        Err(Memory) => Status::NoMemory,
    };
    ExitCode::from(status.code())
}

fn serve(rt: &HostRuntime, words: &Texts) -> Status {
    let mut script = StdSource::new(rt.stdin());
    let mut out = StdSink::new(rt.stdout());
    let mut disk = FileDisk::new(rt);
    let mut trees = FolderTrees::new(rt);
    run(
        rt.alloc(),
        words,
        &mut script,
        &mut out,
        &mut disk,
        &mut trees,
    )
}

// The words after the program's name. Words that can't be told are of no form, and so is no word.
fn words(rt: &HostRuntime) -> Result<Texts, Memory> {
    match env::args(rt) {
        Ok(args) => texts(rt.alloc(), args),
        Err(error) if error.kind() == ErrorKind::OutOfMemory => Err(Memory),
        Err(_) => Ok(Texts::new(rt.alloc())),
    }
}

fn texts(alloc: Global, args: Args) -> Result<Texts, Memory> {
    let mut texts = Texts::new(alloc);
    for arg in args.skip(1) {
        texts.push(Text::from(arg))?;
    }
    Ok(texts)
}
