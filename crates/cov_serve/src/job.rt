// What the words after the program's name ask for.
ghost use Rattle.std.specs.Prelude.{◌≡◌, ◌++◌, None, true, IfOk, IfSome, OnErr};
ghost use Rattle.cov_script.specs.Fields.{below_root, new_path_of};
ghost use Rattle.cov_script.specs.Readers.{reads_variant};
ghost use Rattle.cov_serve.specs.Jobs.{IsNamed, IsNewPath, import_job, job_of, store_job};
ghost use Rattle.cov_serve.specs.Program.{demo_number, if_reader, import_path, is_lone, replica_line, spaced};

use cov_base::{BadName, Memory, MemoryOr, Path, Text, Texts};
use cov_script::{read_long_number, reads_variant};
use std::alloc::Global;

/// A line of so many bytes isn't read.
const TOO_MANY_BYTES: usize = 1 << 32;

/// What the program is asked to do.
#[derive(Drop)]
pub(crate) enum Job {
    /// Something with the store of the disk, which is opened first.
    OnStore(StoreJob),
    /// The source is read to its end as the bytes of a store's journal, and a line that reads a variant is served over what was taken.
    /// No disk is opened.
    Replica(Text),
    /// The words are of no form.
    Unknown,
}

/// What is done with a store that was opened.
#[derive(Drop)]
pub(crate) enum StoreJob {
    /// A script is served.
    Run,
    /// It is told how many records the store has.
    Check,
    /// The script that a number stands for is served, and what its checkouts are replied is told.
    Demo(u64),
    /// A conditional text is read to its end, and added as a new file at a path, which isn't that of the root.
    Import(Path),
}

impl StoreJob {
    /// Gives up a job of a store that isn't opened.
    pub(crate) fn close(self) {}
}

/// The job that words are of.
pub(crate) fn job_of(alloc: Global, words: &Texts) -> Result<Job, Memory>
    ensures job { IfOk result (λ job. job ≡ job_of words.now) }
    ensures named { IfOk result IsNamed }
{
    match replica_line(alloc, words) {
        Ok(Some(line)) => Ok(Job::Replica(line)),
        Ok(None) => store_job(alloc, words),
        Err(Memory) => Err(Memory),
    }
}

// The job of words that aren't those of a replica.
fn store_job(alloc: Global, words: &Texts) -> Result<Job, Memory>
    ensures job { IfOk result (λ job. job ≡ store_job words.now) }
    ensures named { IfOk result IsNamed }
{
    if is_lone(words, b"run") {
        return Ok(Job::OnStore(StoreJob::Run));
    }
    if is_lone(words, b"check") {
        return Ok(Job::OnStore(StoreJob::Check));
    }
    match demo_number(words) {
        Some(number) => Ok(Job::OnStore(StoreJob::Demo(number))),
        None => import_job(alloc, words),
    }
}

// Whether the words are one alone, this one.
fn is_lone(words: &Texts, word: &[u8]) -> bool
    ensures { result ≡ is_lone word.now words.now }
{
    match words.get(0) {
        Some(first) => words.len() == 1 && first.as_slice() == word,
        None => false,
    }
}

// The number behind the word `demo`, if the words are these two.
fn demo_number(words: &Texts) -> Option<u64>
    ensures { result ≡ demo_number words.now }
{
    match words.as_slice() {
        [word, number] => {
            if word.as_slice() == b"demo".as_slice() {
                return read_long_number(number.as_slice());
            }
            None
        }
        _ => None,
    }
}

fn import_job(alloc: Global, words: &Texts) -> Result<Job, Memory>
    ensures job { IfOk result (λ job. job ≡ import_job (import_path words.now)) }
    ensures named { IfOk result IsNamed }
{
    match import_path(alloc, words) {
        Ok(Some(path)) => Ok(Job::OnStore(StoreJob::Import(path))),
        Ok(None) => Ok(Job::Unknown),
        Err(Memory) => Err(Memory),
    }
}

// The line that the words behind the word `replica` are, joined by spaces, if it reads a variant. Words of 2^32 bytes want too much
// memory.
fn replica_line(alloc: Global, words: &Texts) -> Result<Option<Text>, Memory>
    ensures line { IfOk result (λ line. line ≡ replica_line words.now) }
    ensures reads { IfOk result (λ line. IfSome line (λ line. reads_variant line ≡ true)) }
{
    match words.as_slice() {
        [word, first, others @ ..] => {
            if word.as_slice() == b"replica".as_slice() {
                return if_reader(alloc, joined(first, others)?);
            }
            Ok(None)
        }
        _ => Ok(None),
    }
}

// Words behind a first one, with one space between two.
fn joined(first: &Text, others: &[Text]) -> Result<Text, Memory>
    ensures { IfOk result (λ line. line ≡ first.now ++ spaced others.now) }
{
    let mut line = first.copy()?;
    let mut ahead = others;
    while let [word, rest @ ..] = ahead {
        line.append(b" ")?;
        line.append(word.as_slice())?;
        ahead = rest;
    }
    Ok(line)
}

// A line, if it reads a variant.
fn if_reader(alloc: Global, line: Text) -> Result<Option<Text>, Memory>
    ensures { IfOk result (λ found. found ≡ if_reader line) }
{
    if line.len() >= TOO_MANY_BYTES {
        return Err(Memory);
    }
    match reads_variant(alloc, line.as_slice())? {
        true => Ok(Some(line)),
        false => Ok(None),
    }
}

// The path behind the word `import`, if the words are these two.
fn import_path(alloc: Global, words: &Texts) -> Result<Option<Path>, Memory>
    ensures path { IfOk result (λ path. path ≡ import_path words.now) }
    ensures named { IfOk result (λ path. IfSome path IsNewPath) }
{
    match words.as_slice() {
        [word, path] => {
            if word.as_slice() == b"import".as_slice() {
                return new_path(alloc, path.as_slice());
            }
            Ok(None)
        }
        _ => Ok(None),
    }
}

// The path that bytes spell, if they spell one other than `/`.
fn new_path(alloc: Global, bytes: &[u8]) -> Result<Option<Path>, Memory>
    ensures path { IfOk result (λ path. path ≡ new_path_of bytes.now) }
    ensures named { IfOk result (λ path. IfSome path IsNewPath) }
{
    match Path::read(alloc, bytes) {
        Ok(path) => Ok(below_root(path)),
        Err(MemoryOr::Refused(BadName)) => Ok(None),
        Err(MemoryOr::Memory) => Err(Memory),
    }
}

fn below_root(path: Path) -> Option<Path>
    ensures { result ≡ below_root (Some path) }
{
    if path.is_empty() {
        return None;
    }
    Some(path)
}
