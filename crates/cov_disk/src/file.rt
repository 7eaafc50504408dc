// The file that a store is kept in.
ghost use Rattle.std.specs.Prelude.{◌≡◌, length, IfSome};

use cov_base::Failed;
use std::alloc::Global;
use std::fs::{File, OpenFile};
use std::io::{self, ErrorKind, Read, Seek, SeekFrom, Write};
use std::rt::Files;

/// The file's name, in the directory that the program runs in.
const STORE: &str = "store.cov";

/// How many bytes are read at once, unless more are asked for.
const AHEAD: u64 = 65536;

/// An open file, with what is known of it. One program at a time is trusted to work on it.
#[derive(Drop)]
pub(crate) struct StoreFile<F> {
    file: F,
    /// How many bytes it has.
    length: u64,
    /// Whether its first byte was written since the last sync.
    is_begun: bool,
    /// Bytes that were read and not written over, and where they begin.
    ahead: Vec<u8>,
    from: u64,
}

impl<F: Read + Write + Seek + OpenFile> StoreFile<F> {
    /// Opens the file, which is made empty where it isn't there. What is no regular file is refused.
    pub(crate) fn open<R: Files<File = F>>(
        files: &R,
        alloc: Global,
    ) -> Result<StoreFile<F>, Failed> {
        let (file, length) = open_or_make(files).map_err(|_| Failed)?;
        Ok(StoreFile {
            file,
            length,
            is_begun: false,
            ahead: Vec::new(alloc),
            from: 0,
        })
    }

    pub(crate) fn length(&self) -> u64 {
        self.length
    }

    /// Reads a range, and some bytes behind it for the next reads.
    pub(crate) fn read_at(&mut self, at: u64, into: &mut [u8]) -> Result<(), Failed> {
        if self.piece(at, into.len()).is_none() {
            self.read_ahead(at, into.len() as u64)?;
        }
        match self.piece(at, into.len()) {
            Some(piece) => {
                into.copy_from_slice(piece);
                Ok(())
            }
            None => Err(Failed),
        }
    }

    // What was read of a range, None where a part of it wasn't.
    fn piece(&self, at: u64, count: usize) -> Option<&[u8]>
        ensures { IfSome result (λ piece. length piece.now ≡ count) }
    {
        let skipped = at.checked_sub(self.from)?;
        self.ahead.get(skipped as usize..)?.get(..count)
    }

    // Reads from a place on, at least so many bytes.
    fn read_ahead(&mut self, at: u64, count: u64) -> Result<(), Failed> {
        let left = self.length.checked_sub(at).ok_or(Failed)?;
        if left < count {
            return Err(Failed);
        }
        self.ahead.clear();
        self.ahead
            .resize(left.min(count.max(AHEAD)) as usize, 0)
            .map_err(|_| Failed)?;
        self.from = at;
        self.file.seek(SeekFrom::Start(at)).map_err(|_| Failed)?;
        self.file
            .read_exact(self.ahead.as_mut_slice())
            .map_err(|_| Failed)
    }

    /// Writes within the bytes that are there and past their end, but not behind it.
    pub(crate) fn write_at(&mut self, at: u64, bytes: &[u8]) -> Result<(), Failed> {
        if self.length < at {
            return Err(Failed);
        }
        if at == 0 {
            self.is_begun = true;
        }
        self.ahead.clear();
        self.file.seek(SeekFrom::Start(at)).map_err(|_| Failed)?;
        self.file.write_all(bytes).map_err(|_| Failed)?;
        self.length = self.length.max(at.saturating_add(bytes.len() as u64));
        Ok(())
    }

    /// Syncs the file, and where its first byte was written since the last sync the directory behind it: so whatever run writes the
    /// header of a file that is new, a crash leaves it there.
    pub(crate) fn sync<R: Files<File = F>>(&mut self, files: &R) -> Result<(), Failed> {
        self.file.sync_data().map_err(|_| Failed)?;
        if self.is_begun {
            sync_directory(files).map_err(|_| Failed)?;
            self.is_begun = false;
        }
        Ok(())
    }
}

// The file, with how many bytes it has.
fn open_or_make<R: Files>(files: &R) -> io::Result<(R::File, u64)> {
    let mut how = File::options();
    how.read(true).write(true);
    let file = match how.open(files, STORE) {
        Err(error) if error.kind() == ErrorKind::NotFound => {
            how.create(true).open(files, STORE)?
        }
        answer => answer?,
    };
    let metadata = file.metadata()?;
    if !metadata.is_file() {
        return Err(io::Error::from(ErrorKind::Unsupported));
    }
    Ok((file, metadata.len()))
}

fn sync_directory<R: Files>(files: &R) -> io::Result<()> {
    File::open(files, ".")?.sync_all()
}
