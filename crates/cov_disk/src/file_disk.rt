// A disk over a file.
ghost use Rattle.std.specs.Prelude.{◌≡◌, None, if◌then◌else◌, is_err};
ghost use Rattle.cov_base.specs.Causes.{HasCause};
ghost use Rattle.cov_io.specs.InMemory.{raised};

use crate::Disk;
use crate::file::StoreFile;
use cov_base::Failed;
use cov_io::raised;
use std::marker::Model;
use std::rt::Files;

/// A disk over the file `store.cov` of the directory that the program runs in; the first call opens it, or makes it empty where it
/// isn't there. What is no regular file, each error of the system and want of memory are faults; the file is then closed, and each
/// later call is a fault too.
/// What the system does with the file is trusted to be what a disk does, and no contents are told; contracts see the disk as its
/// count of faults.
#[derive(Drop)]
pub struct FileDisk<R: Files> {
    rt: R,
    state: State<R::File>,
    faults: u64,
}

#[derive(Drop)]
enum State<F> {
    /// No call was made.
    New,
    Open(StoreFile<F>),
    /// A call failed.
    Closed,
}

impl<R: Files> Model for FileDisk<R> {
    ghost use Rattle.std.specs.Prelude.{ℕ};

    ghost Value = { ℕ };

    ghost view = { λ d. d.faults };
}

impl<R: Files + AllocGlobal> FileDisk<R> {
    /// A disk that keeps the runtime, by which it reaches the file. It touches nothing outside.
    pub fn new(rt: R) -> FileDisk<R>
        ensures { result ≡ 0 }
    {
        FileDisk {
            rt,
            state: State::New,
            faults: 0,
        }
    }

    // The answer of a call, counted where it failed.
    fn counted<T>(&mut self, answer: Result<T, Failed>) -> Result<T, Failed>
        ensures same { result ≡ answer }
        ensures counted { self.new ≡ (if is_err answer then raised self.old else self.old) }
        ensures cause { HasCause self.old self.new answer }
    {
        if answer.is_err() {
            self.state = State::Closed;
            self.faults = raised(self.faults);
        }
        answer
    }
}

// The file, which is opened where no call was made.
fn opened<'a, R: Files + AllocGlobal>(
    rt: &R,
    state: &'a mut State<R::File>,
) -> Result<&'a mut StoreFile<R::File>, Failed> {
    if let State::New = state {
        *state = State::Open(StoreFile::open(rt, rt.alloc())?);
    }
    match state {
        State::Open(file) => Ok(file),
        _ => Err(Failed),
    }
}

impl<R: Files + AllocGlobal> Disk for FileDisk<R> {
    ghost use Rattle.cov_disk.specs.Images.{none_told};

    ghost contents = { λ _. None };

    ghost images = { λ _ _. ⊥ };

    ghost moment = { λ _. 0 };

    ghost images_since = { λ _ _ _. ⊥ };

    ghost faults = { λ d. d };

    ghost as_read = { λ _ c is. none_told c ⊥ is };

    ghost told = { λ _ _ image. absurd image };

    ghost counts_now = { λ _ _ _ _ image. image };

    ghost only_now = { λ _ _ since. since };

    fn length(&mut self) -> Result<u64, Failed>
        // As each disk, of which nothing but this is left where no contents are told.
        ensures cause { HasCause self.old self.new result }

        // Over a file.
        ensures counted { self.new ≡ (if is_err result then raised self.old else self.old) }
    {
        let answer = match opened(&self.rt, &mut self.state) {
            Ok(file) => Ok(file.length()),
            Err(Failed) => Err(Failed),
        };
        self.counted(answer)
    }

    fn read_at(&mut self, at: u64, into: &mut [u8]) -> Result<(), Failed>
        // As each disk, of which nothing but this is left where no contents are told.
        ensures cause { HasCause self.old self.new result }

        // Over a file.
        ensures counted { self.new ≡ (if is_err result then raised self.old else self.old) }
    {
        let answer = match opened(&self.rt, &mut self.state) {
            Ok(file) => file.read_at(at, into),
            Err(Failed) => Err(Failed),
        };
        self.counted(answer)
    }

    fn write_at(&mut self, at: u64, bytes: &[u8]) -> Result<(), Failed>
        // As each disk, of which nothing but this is left where no contents are told.
        ensures cause { HasCause self.old self.new result }

        // Over a file.
        ensures counted { self.new ≡ (if is_err result then raised self.old else self.old) }
    {
        let answer = match opened(&self.rt, &mut self.state) {
            Ok(file) => file.write_at(at, bytes),
            Err(Failed) => Err(Failed),
        };
        self.counted(answer)
    }

    fn sync(&mut self) -> Result<(), Failed>
        // As each disk, of which nothing but this is left where no contents are told.
        ensures cause { HasCause self.old self.new result }

        // Over a file.
        ensures counted { self.new ≡ (if is_err result then raised self.old else self.old) }
    {
        let answer = match opened(&self.rt, &mut self.state) {
            Ok(file) => file.sync(&self.rt),
            Err(Failed) => Err(Failed),
        };
        self.counted(answer)
    }
}
