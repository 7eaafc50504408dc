// What stands at a gate.
ghost use Rattle.std.specs.Prelude.{◌≡◌, ◌≤◌, ◌<◌, ◌+◌, ◌^◌, length, slice_index, List, ℕ, IfOk, IfSome};
ghost use Rattle.cov_base.specs.Causes.{HasCause};
ghost use Rattle.cov_journal.specs.Moments.{KeepsImages};
ghost use Rattle.cov_journal.specs.Reading.{HasFront, IsFront};

use cov_base::Failed;
use cov_disk::Disk;

/// What stands at a gate.
#[derive(Clone, Copy)]
pub(crate) enum Front {
    /// The gate is closed.
    Closed,
    /// It is open, and the bytes end before the gate that follows.
    Cut,
    /// It is open, and behind it are a payload of this length, a digest and a gate.
    Whole(u32),
}

/// What stands at a gate, by one read.
pub(crate) fn front_at<D: Disk>(disk: &mut D, gate: u64) -> Result<Front, Failed>
    requires far { gate < 2 ^ 62 }
    requires within { IfSome (D.contents disk.old) (λ bytes. gate < length bytes) }
    ensures front { IfOk result (λ front.
        IfSome (D.contents disk.old) (λ bytes. HasFront gate bytes front)) }
    ensures same { D.contents disk.new ≡ D.contents disk.old }
    ensures images { KeepsImages D.images D.moment D.images_since disk.old disk.new }
    ensures cause { HasCause (D.faults disk.old) (D.faults disk.new) result }
{
    let end = disk.length()?;
    if end < gate + 5 {
        return short_front_at(disk, gate);
    }
    long_front_at(disk, gate, end)
}

// What stands at a gate with fewer than four bytes behind it.
fn short_front_at<D: Disk>(disk: &mut D, gate: u64) -> Result<Front, Failed>
    requires within { IfSome (D.contents disk.old) (λ bytes. gate < length bytes) }
    requires short { IfSome (D.contents disk.old) (λ bytes. length bytes < gate + 5) }
    ensures front { IfOk result (λ front.
        IfSome (D.contents disk.old) (λ bytes. HasFront gate bytes front)) }
    ensures same { D.contents disk.new ≡ D.contents disk.old }
    ensures images { KeepsImages D.images D.moment D.images_since disk.old disk.new }
    ensures cause { HasCause (D.faults disk.old) (D.faults disk.new) result }
{
    let mut buffer = [0; 1];
    disk.read_at(gate, buffer.as_mut_slice())?;
    Ok(short_front(buffer[0]))
}

fn short_front(byte: u8) -> Front
    ensures { (gate : ℕ) (image : List ℕ) → slice_index image gate ≡ byte →
        length image < gate + 5 → HasFront gate image result }
{
    if byte == 1 {
        return Front::Cut;
    }
    Front::Closed
}

// What stands at a gate with at least four bytes behind it.
fn long_front_at<D: Disk>(disk: &mut D, gate: u64, end: u64) -> Result<Front, Failed>
    requires long { gate + 5 ≤ end }
    requires end { IfSome (D.contents disk.old) (λ bytes. end ≡ length bytes) }
    ensures front { IfOk result (λ front.
        IfSome (D.contents disk.old) (λ bytes. HasFront gate bytes front)) }
    ensures same { D.contents disk.new ≡ D.contents disk.old }
    ensures images { KeepsImages D.images D.moment D.images_since disk.old disk.new }
    ensures cause { HasCause (D.faults disk.old) (D.faults disk.new) result }
{
    let mut buffer = [0; 5];
    disk.read_at(gate, buffer.as_mut_slice())?;
    Ok(front_of(buffer, end - gate - 1))
}

fn front_of(bytes: [u8; 5], behind: u64) -> Front
    ensures { IsFront bytes behind result }
{
    let [gate, first, second, third, fourth] = bytes;
    if gate != 1 {
        return Front::Closed;
    }
    let count = u32::from_be_bytes([first, second, third, fourth]);
    if behind < count as u64 + 37 {
        return Front::Cut;
    }
    Front::Whole(count)
}
