// Opening a disk.
ghost use Rattle.std.specs.Prelude.{◌≡◌, ◌≤◌, ◌<◌, [], List, ℕ, Some, length, OnOk, IfOk, IfErr, IfSome};
ghost use Rattle.cov_base.specs.Causes.{HasCause};
ghost use Rattle.cov_disk.specs.Images.{Told, Only, LeavesOnly};
ghost use Rattle.cov_journal.specs.Journal.{header, Holds};
ghost use Rattle.cov_journal.specs.Moments.{KeepsImages};
ghost use Rattle.cov_journal.specs.Reading.{HasGiven, HasHeader, IsOpened, IsOpenFault};

use crate::reader::Reader;
use crate::writing::write_synced;
use cov_base::Failed;
use cov_disk::Disk;
use std::alloc::Global;
use thiserror::Error;

const HEADER: [u8; 12] = *b"COVSTORE\x00\x00\x00\x01";

/// What a journal of more than 13 bytes begins with. Takes no memory.
pub fn header() -> [u8; 12]
    ensures { result ≡ header }
{
    HEADER
}

/// Why a disk can't be opened.
#[derive(Debug, Drop, Error)]
pub enum OpenFault {
    #[error("not a store")]
    NotAStore,
    #[error("the disk failed")]
    DiskFault,
    #[error("out of memory")]
    Memory,
}

/// Opens a disk: makes one of at most 13 bytes anew, and asks a longer one for its header.
pub(crate) fn open<D: Disk>(alloc: Global, disk: &mut D) -> Result<Reader, OpenFault>
    ensures reader { IfOk result (λ reader. HasGiven reader []) }
    ensures contents { OnOk result (Told IsOpened (D.contents disk.old) (D.contents disk.new)) }
    ensures kept { IfSome (D.contents disk.old) (λ bytes. 13 < length bytes →
        D.contents disk.new ≡ Some bytes) }
    ensures images { IfSome (D.contents disk.old) (λ bytes. 13 < length bytes →
        KeepsImages D.images D.moment D.images_since disk.old disk.new) }
    ensures stays { (payloads : List (List ℕ)) →
        IfSome (D.contents disk.old) (λ bytes. Holds bytes payloads →
        IfSome (D.contents disk.new) (λ now. Holds now payloads)) }
    ensures only { OnOk result (Only (D.contents disk.new) (D.images disk.new)) }
    ensures any_moment { (payloads : List (List ℕ)) →
        ((c : List ℕ) → D.images disk.old c → Holds c payloads) →
        LeavesOnly D.moment D.images_since disk.old disk.new (λ c. Holds c payloads) }
    ensures fault { IfErr result (IsOpenFault (D.contents disk.old) (D.faults disk.old)
        (D.faults disk.new)) }
    ensures later { D.faults disk.old ≤ D.faults disk.new }
{
    match settled_length(disk) {
        Ok(count) => open_settled(alloc, disk, count),
        Err(Failed) => Err(OpenFault::DiskFault),
    }
}

// Opens a disk that has one image.
fn open_settled<D: Disk>(alloc: Global, disk: &mut D, count: u64) -> Result<Reader, OpenFault>
    requires count { IfSome (D.contents disk.old) (λ bytes. count ≡ length bytes) }
    requires only { Only (D.contents disk.old) (D.images disk.old) }
    ensures reader { IfOk result (λ reader. HasGiven reader []) }
    ensures contents { OnOk result (Told IsOpened (D.contents disk.old) (D.contents disk.new)) }
    ensures kept { IfSome (D.contents disk.old) (λ bytes. 13 < length bytes →
        D.contents disk.new ≡ Some bytes) }
    ensures images { IfSome (D.contents disk.old) (λ bytes. 13 < length bytes →
        KeepsImages D.images D.moment D.images_since disk.old disk.new) }
    ensures only { OnOk result (Only (D.contents disk.new) (D.images disk.new)) }
    ensures any_moment { (payloads : List (List ℕ)) →
        ((c : List ℕ) → D.images disk.old c → Holds c payloads) →
        LeavesOnly D.moment D.images_since disk.old disk.new (λ c. Holds c payloads) }
    ensures fault { IfErr result (IsOpenFault (D.contents disk.old) (D.faults disk.old)
        (D.faults disk.new)) }
    ensures later { D.faults disk.old ≤ D.faults disk.new }
{
    if count <= 13 {
        return made(alloc, disk);
    }
    found(alloc, disk)
}

// Makes a disk of at most 13 bytes anew.
fn made<D: Disk>(alloc: Global, disk: &mut D) -> Result<Reader, OpenFault>
    requires small { IfSome (D.contents disk.old) (λ bytes. length bytes ≤ 13) }
    requires only { Only (D.contents disk.old) (D.images disk.old) }
    ensures reader { IfOk result (λ reader. HasGiven reader []) }
    ensures contents { OnOk result (Told IsOpened (D.contents disk.old) (D.contents disk.new)) }
    ensures kept { IfSome (D.contents disk.old) (λ bytes. 13 < length bytes →
        D.contents disk.new ≡ Some bytes) }
    ensures images { IfSome (D.contents disk.old) (λ bytes. 13 < length bytes →
        KeepsImages D.images D.moment D.images_since disk.old disk.new) }
    ensures only { OnOk result (Only (D.contents disk.new) (D.images disk.new)) }
    ensures any_moment { (payloads : List (List ℕ)) →
        ((c : List ℕ) → D.images disk.old c → Holds c payloads) →
        LeavesOnly D.moment D.images_since disk.old disk.new (λ c. Holds c payloads) }
    ensures fault { IfErr result (IsOpenFault (D.contents disk.old) (D.faults disk.old)
        (D.faults disk.new)) }
    ensures later { D.faults disk.old ≤ D.faults disk.new }
{
    match write_synced(disk, 0, b"COVSTORE\x00\x00\x00\x01\x00".as_slice()) {
        Ok(()) => Ok(Reader::new(alloc)),
        Err(Failed) => Err(OpenFault::DiskFault),
    }
}

// Asks a disk of over 13 bytes for its header.
fn found<D: Disk>(alloc: Global, disk: &mut D) -> Result<Reader, OpenFault>
    requires large { IfSome (D.contents disk.old) (λ bytes. 13 < length bytes) }
    requires only { Only (D.contents disk.old) (D.images disk.old) }
    ensures reader { IfOk result (λ reader. HasGiven reader []) }
    ensures contents { OnOk result (Told IsOpened (D.contents disk.old) (D.contents disk.new)) }
    ensures kept { IfSome (D.contents disk.old) (λ bytes. 13 < length bytes →
        D.contents disk.new ≡ Some bytes) }
    ensures images { IfSome (D.contents disk.old) (λ bytes. 13 < length bytes →
        KeepsImages D.images D.moment D.images_since disk.old disk.new) }
    ensures only { OnOk result (Only (D.contents disk.new) (D.images disk.new)) }
    ensures any_moment { (payloads : List (List ℕ)) →
        ((c : List ℕ) → D.images disk.old c → Holds c payloads) →
        LeavesOnly D.moment D.images_since disk.old disk.new (λ c. Holds c payloads) }
    ensures fault { IfErr result (IsOpenFault (D.contents disk.old) (D.faults disk.old)
        (D.faults disk.new)) }
    ensures later { D.faults disk.old ≤ D.faults disk.new }
{
    match has_header(disk) {
        Ok(true) => Ok(Reader::new(alloc)),
        Ok(false) => Err(OpenFault::NotAStore),
        Err(Failed) => Err(OpenFault::DiskFault),
    }
}

// Syncs, and says how many bytes there are.
fn settled_length<D: Disk>(disk: &mut D) -> Result<u64, Failed>
    ensures length { IfOk result (λ n. IfSome (D.contents disk.old) (λ bytes. n ≡ length bytes)) }
    ensures only { OnOk result (Only (D.contents disk.new) (D.images disk.new)) }
    ensures same { D.contents disk.new ≡ D.contents disk.old }
    ensures images { KeepsImages D.images D.moment D.images_since disk.old disk.new }
    ensures cause { HasCause (D.faults disk.old) (D.faults disk.new) result }
{
    disk.sync()?;
    disk.length()
}

// Whether the disk begins with the header.
fn has_header<D: Disk>(disk: &mut D) -> Result<bool, Failed>
    requires { IfSome (D.contents disk.old) (λ bytes. 12 ≤ length bytes) }
    ensures header { IfOk result (λ is. IfSome (D.contents disk.old)
        (λ bytes. HasHeader is bytes)) }
    ensures same { D.contents disk.new ≡ D.contents disk.old }
    ensures images { KeepsImages D.images D.moment D.images_since disk.old disk.new }
    ensures cause { HasCause (D.faults disk.old) (D.faults disk.new) result }
{
    let mut buffer = [0; 12];
    disk.read_at(0, buffer.as_mut_slice())?;
    Ok(is_header(buffer))
}

fn is_header(bytes: [u8; 12]) -> bool
    ensures { HasHeader result bytes }
{
    if bytes == HEADER {
        return true;
    }
    false
}
