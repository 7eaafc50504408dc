// A payload and its digest.
ghost use Rattle.std.specs.Prelude.{◌≡◌, ◌≤◌, ◌+◌, length, take, drop, ℕ, IfOk, IfErr, IfSome};
ghost use Rattle.cov_journal.specs.Moments.{KeepsImages};
ghost use Rattle.cov_journal.specs.Reading.{MayFail};

use cov_base::{Failed, Memory, MemoryOr, Text};
use cov_disk::Disk;
use std::alloc::Global;

/// What stands behind the length of a record.
#[derive(Drop)]
pub(crate) struct Framed {
    pub(crate) payload: Text,
    pub(crate) digest: [u8; 32],
}

/// A payload of this length and its digest, from a place on, by one read.
pub(crate) fn framed_at<D: Disk>(
    alloc: Global,
    disk: &mut D,
    at: u64,
    count: u32,
) -> Result<Framed, MemoryOr<Failed>>
    requires { IfSome (D.contents disk.old) (λ bytes. at + count + 32 ≤ length bytes) }
    ensures payload { IfOk result (λ framed.
        IfSome (D.contents disk.old) (λ bytes. framed.payload ≡ take count (drop at bytes))) }
    ensures digest { IfOk result (λ framed.
        IfSome (D.contents disk.old) (λ bytes. framed.digest ≡ take 32 (drop (at + count) bytes))) }
    ensures length { IfOk result (λ framed. length framed.payload ≡ count) }
    ensures same { D.contents disk.new ≡ D.contents disk.old }
    ensures images { KeepsImages D.images D.moment D.images_since disk.old disk.new }
    ensures later { D.faults disk.old ≤ D.faults disk.new }
    ensures failed { IfErr result (MayFail (D.faults disk.old) (D.faults disk.new)) }
{
    let Ok(mut bytes) = vec![in alloc; 0u8; count as usize + 32] else {
        return Err(MemoryOr::Memory);
    };
    match disk.read_at(at, bytes.as_mut_slice()) {
        Ok(()) => parted(alloc, bytes.as_slice(), count),
        Err(Failed) => Err(MemoryOr::Refused(Failed)),
    }
}

// Bytes that are a payload of this length and a digest.
fn parted(alloc: Global, bytes: &[u8], count: u32) -> Result<Framed, MemoryOr<Failed>>
    requires { length bytes.now ≡ count + 32 }
    ensures payload { IfOk result (λ framed. framed.payload ≡ take count bytes.now) }
    ensures digest { IfOk result (λ framed. framed.digest ≡ drop count bytes.now) }
    ensures failed { (before now : ℕ) → IfErr result (MayFail before now) }
{
    let (front, back) = bytes.split_at(count as usize);
    let mut digest = [0; 32];
    digest.copy_from_slice(back);
    match Text::from_slice(alloc, front) {
        Ok(payload) => Ok(Framed { payload, digest }),
        Err(Memory) => Err(MemoryOr::Memory),
    }
}
