// Trees below a folder of the file system.
ghost use Rattle.std.specs.Prelude.{◌≡◌, ◌++◌, true, None, if◌then◌else◌, codes, is_err, string_bytes, IfOk, OnOk};
ghost use Rattle.cov_base.specs.Causes.{HasCause};
ghost use Rattle.cov_io.specs.InMemory.{raised};
ghost use Rattle.cov_out.specs.Rows.{is_below};

use crate::Trees;
use cov_base::{BadName, Failed, Memory, MemoryOr, Path, Text};
use cov_io::raised;
use std::alloc::Global;
use std::fs::{self, File};
use std::io::{self, Write};
use std::marker::Model;
use std::rt::Files;

/// The folder that trees are written below.
const FOLDER: &str = "trees";

/// Trees below the folder `trees` of the directory that the program runs in; the first call makes it where it isn't there. Making a
/// directory or a file that is there already fails, and so does a path that isn't names with a slash between two, which could lead
/// out of the folder. Each error of the system and want of memory is a fault. What the system does is trusted, and no row is told;
/// contracts see the trees as their count of faults.
#[derive(Drop)]
pub struct FolderTrees<R> {
    rt: R,
    is_made: bool,
    faults: u64,
}

impl<R> Model for FolderTrees<R> {
    ghost use Rattle.std.specs.Prelude.{ℕ};

    ghost Value = { ℕ };

    ghost view = { λ t. t.faults };
}

impl<R: Files + AllocGlobal> FolderTrees<R> {
    /// Trees that keep the runtime, by which they reach the file system. It touches nothing outside.
    pub fn new(rt: R) -> FolderTrees<R>
        ensures { result ≡ 0 }
    {
        FolderTrees {
            rt,
            is_made: false,
            faults: 0,
        }
    }

    // Makes a directory, without a count of its fault.
    fn make_below(&mut self, path: &[u8]) -> Result<(), Failed>
        ensures below { OnOk result (is_below path.now ≡ true) }
        ensures same { self.new ≡ self.old }
    {
        self.open()?;
        let place = place(self.rt.alloc(), path)?;
        fs::create_dir(&self.rt, place.as_str()).map_err(|_| Failed)
    }

    // Writes a file, without a count of its fault.
    fn write_below(&mut self, path: &[u8], bytes: &[u8]) -> Result<(), Failed>
        ensures below { OnOk result (is_below path.now ≡ true) }
        ensures same { self.new ≡ self.old }
    {
        self.open()?;
        let place = place(self.rt.alloc(), path)?;
        write_new(&self.rt, place.as_str(), bytes).map_err(|_| Failed)
    }

    // Makes the folder where it isn't known to be there.
    fn open(&mut self) -> Result<(), Failed>
        ensures same { self.new ≡ self.old }
    {
        if !self.is_made {
            fs::create_dir_all(&self.rt, FOLDER).map_err(|_| Failed)?;
            self.is_made = true;
        }
        Ok(())
    }

    // The answer of a call, counted where it failed.
    fn counted(&mut self, answer: Result<(), Failed>) -> Result<(), Failed>
        ensures same { result ≡ answer }
        ensures counted { self.new ≡ (if is_err answer then raised self.old else self.old) }
        ensures cause { HasCause self.old self.new answer }
    {
        if answer.is_err() {
            self.faults = raised(self.faults);
        }
        answer
    }
}

impl<R: Files + AllocGlobal> Trees for FolderTrees<R> {
    ghost rows = { λ _. None };

    ghost faults = { λ t. t };

    fn make_dir(&mut self, path: &[u8]) -> Result<(), Failed>
        // As all trees, of which nothing but this is left where no rows are told.
        ensures cause { HasCause self.old self.new result }

        // In a folder.
        ensures below { OnOk result (is_below path.now ≡ true) }
        ensures counted { self.new ≡ (if is_err result then raised self.old else self.old) }
    {
        let answer = self.make_below(path);
        self.counted(answer)
    }

    fn put_file(&mut self, path: &[u8], bytes: &[u8]) -> Result<(), Failed>
        // As all trees, of which nothing but this is left where no rows are told.
        ensures cause { HasCause self.old self.new result }

        // In a folder.
        ensures below { OnOk result (is_below path.now ≡ true) }
        ensures counted { self.new ≡ (if is_err result then raised self.old else self.old) }
    {
        let answer = self.write_below(path, bytes);
        self.counted(answer)
    }
}

// The place of a row in the file system.
fn place(alloc: Global, path: &[u8]) -> Result<String, Failed>
    ensures place { IfOk result (λ place. string_bytes place ≡ codes "trees/" ++ path.now) }
    ensures below { OnOk result (is_below path.now ≡ true) }
{
    match is_below(alloc, path) {
        Ok(true) => {}
        Ok(false) | Err(Memory) => return Err(Failed),
    }
    match str::from_utf8(path) {
        Ok(path) => format!(in alloc; "{FOLDER}/{path}").map_err(|_| Failed),
        Err(_) => Err(Failed),
    }
}

// Whether a path is names with a slash between two.
#[tactic(auto, using(crate::proofs::BelowLemmas::not_below))]
fn is_below(alloc: Global, path: &[u8]) -> Result<bool, Memory>
    ensures { IfOk result (λ below. below ≡ is_below path.now) }
{
    let mut behind_slash = Text::from_slice(alloc, b"/")?;
    behind_slash.append(path)?;
    match Path::read(alloc, behind_slash.as_slice()) {
        Ok(names) => Ok(!names.is_empty()),
        Err(MemoryOr::Refused(BadName)) => Ok(false),
        Err(MemoryOr::Memory) => Err(Memory),
    }
}

// Writes a file that isn't there yet. Where not all bytes can be written, the file is taken away again if that can be done.
fn write_new(files: &impl Files, place: &str, bytes: &[u8]) -> io::Result<()> {
    let mut file = File::create_new(files, place)?;
    match file.write_all(bytes) {
        Ok(()) => Ok(()),
        Err(error) => {
            // Whether it is gone or not, what is told is why it couldn't be written.
            let _ = fs::remove_file(files, place);
            Err(error)
        }
    }
}
