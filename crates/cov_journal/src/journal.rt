// The journal, to which records are appended.
ghost use Rattle.std.specs.Prelude.{◌≡◌, ◌≤◌, ◌<◌, ◌+◌, ◌^◌, ◌⊎◌, ◌++◌, ◌∷◌, [], List, ℕ, length, OnOk, IfOk, IfSome, vec_capacity, vec_len};
ghost use Rattle.cov_base.specs.Causes.{HasCause};
ghost use Rattle.cov_base.specs.Texts.{Written};
ghost use Rattle.cov_disk.specs.Images.{Told, Only, LeavesOnly};
ghost use Rattle.cov_journal.specs.Gates.{HasGate};
ghost use Rattle.cov_journal.specs.Moments.{IsTornFrom};
ghost use Rattle.cov_journal.specs.Journal.{next_digest, body, IsWritten, FitsState, AppendsRecord};

use crate::writing::write_synced;
use cov_base::{Failed, Memory};
use cov_disk::Disk;
use sha2::{Digest, Sha256};
use std::alloc::Global;
use std::marker::Model;

/// Where the closed gate is, the digest of the last record, and room for a record.
#[derive(Drop)]
pub struct Journal {
    at: u64,
    digest: [u8; 32],
    room: Vec<u8>,
}

impl Model for Journal {
    ghost use Rattle.std.specs.Prelude.{vec_capacity, length, ◌≡◌};
    ghost use Rattle.cov_journal.specs.Journal.{State};

    ghost Value = { State };

    ghost view = { λ j. record { at = j.at; digest = j.digest; spare = vec_capacity j.room } };
}

/// The digest of a record after the digest before it, which is 32 zero bytes before the first. Takes no memory.
pub fn next_digest(before: &[u8; 32], payload: &[u8]) -> [u8; 32]
    ensures { result ≡ next_digest before.now payload.now }
{
    let mut hasher = Sha256::new();
    hasher.update(before.as_slice());
    hasher.update(payload);
    hasher.finalize()
}

/// Puts bytes behind those that are there, for which there is room.
fn put(room: &mut Vec<u8>, bytes: &[u8])
    requires { vec_len room.old + length bytes.now ≤ vec_capacity room.old }
    ensures items { room.new.items ≡ room.old.items ++ bytes.now }
    ensures len { vec_len room.new ≡ vec_len room.old + length bytes.now }
    ensures capacity { vec_capacity room.old ≤ vec_capacity room.new }
{
    match room.extend_from_slice(bytes) {
        Ok(()) => (),
        Err(_) => unreachable!(),
    }
}

/// Fills the room with what stands behind a gate, and the closed gate that follows.
fn fill(room: &mut Vec<u8>, payload: &[u8], digest: &[u8; 32])
    requires short { length payload.now < 2 ^ 32 }
    requires room { length payload.now + 37 ≤ vec_capacity room.old }
    ensures items { room.new.items ≡ body digest.now payload.now ++ 0 ∷ [] }
    ensures length { length room.new.items ≡ length payload.now + 37 }
{
    room.clear();
    let count = payload.len() as u32;
    put(room, count.to_be_bytes().as_slice());
    put(room, payload);
    put(room, digest.as_slice());
    put(room, &[0]);
}

// Puts a record behind a closed gate.
fn stage<D: Disk>(disk: &mut D, gate: u64, staged: &[u8]) -> Result<(), Failed>
    requires far { gate < 2 ^ 62 }
    requires within { IfSome (D.contents disk.old) (λ old. gate < length old) }
    ensures written { OnOk result (Told (Written (gate + 1) staged.now) (D.contents disk.old)
        (D.contents disk.new)) }
    ensures durable { OnOk result (Only (D.contents disk.new) (D.images disk.new)) }
    ensures since { LeavesOnly D.moment D.images_since disk.old disk.new
        (IsTornFrom (D.images disk.old) (gate + 1) (length staged.now)) }
    ensures cause { HasCause (D.faults disk.old) (D.faults disk.new) result }
{
    write_synced(disk, gate + 1, staged)
}

// Opens a gate.
fn open_gate<D: Disk>(disk: &mut D, gate: u64) -> Result<(), Failed>
    requires { IfSome (D.contents disk.old) (λ old. gate < length old) }
    ensures written { OnOk result (Told (Written gate (1 ∷ [])) (D.contents disk.old)
        (D.contents disk.new)) }
    ensures durable { OnOk result (Only (D.contents disk.new) (D.images disk.new)) }
    ensures since { LeavesOnly D.moment D.images_since disk.old disk.new
        (IsTornFrom (D.images disk.old) gate 1) }
    ensures cause { HasCause (D.faults disk.old) (D.faults disk.new) result }
{
    write_synced(disk, gate, &[1])
}

impl Journal {
    pub(crate) fn new(alloc: Global, at: u64, digest: [u8; 32]) -> Journal
        ensures at { result.at ≡ at }
        ensures digest { result.digest ≡ digest }
    {
        Journal {
            at,
            digest,
            room: Vec::new(alloc),
        }
    }

    /// Makes room for a record.
    pub fn reserve(&mut self, payload: u32) -> Result<(), Memory>
        ensures spare { OnOk result (payload + 37 ≤ self.new.spare) }
        ensures at { self.new.at ≡ self.old.at }
        ensures digest { self.new.digest ≡ self.old.digest }
    {
        self.room.clear();
        self.room.reserve(payload as usize + 37)?;
        Ok(())
    }

    /// Appends a record: at every moment the disk holds the payloads from before the call, with the new one or without. It writes
    /// the record and the closed gate behind it, and nothing else.
    /// At `Err` the journal is gone, and the disk is to be opened again.
    pub fn append<D: Disk>(mut self, disk: &mut D, payload: &[u8]) -> Result<Journal, Failed>
        requires payload { length payload.now < 2 ^ 32 }
        requires room { length payload.now + 37 ≤ self.spare }
        requires end { self.at + length payload.now + 37 ≤ 2 ^ 62 }
        requires gate { IfSome (D.contents disk.old) (λ bytes. self.at < length bytes) }
        ensures fits { (payloads : List (List ℕ)) → FitsState self payloads →
            IfOk result (λ journal. FitsState journal (payloads ++ payload.now ∷ [])) }
        ensures gate { IfOk result (λ journal. HasGate (D.contents disk.new) journal.at) }
        ensures written { (payloads : List (List ℕ)) → FitsState self payloads →
            IfSome (D.contents disk.old) (λ bytes. IsWritten bytes payloads) →
            OnOk result (IfSome (D.contents disk.new)
            (λ bytes. IsWritten bytes (payloads ++ payload.now ∷ []))) }
        ensures stored { (payloads : List (List ℕ)) → FitsState self payloads →
            ((c : List ℕ) → D.images disk.old c → IsWritten c payloads) →
            OnOk result ((c : List ℕ) → D.images disk.new c →
            IsWritten c (payloads ++ payload.now ∷ [])) }
        ensures any_moment { (payloads : List (List ℕ)) → FitsState self payloads →
            ((c : List ℕ) → D.images disk.old c → IsWritten c payloads) →
            LeavesOnly D.moment D.images_since disk.old disk.new
            (λ c. IsWritten c payloads ⊎ IsWritten c (payloads ++ payload.now ∷ [])) }
        ensures pinned { OnOk result (Told (AppendsRecord self payload.now)
            (D.contents disk.old) (D.contents disk.new)) }
        ensures only { OnOk result (Only (D.contents disk.new) (D.images disk.new)) }
        ensures outside { LeavesOnly D.moment D.images_since disk.old disk.new
            (IsTornFrom (D.images disk.old) self.at (length payload.now + 38)) }
        ensures cause { HasCause (D.faults disk.old) (D.faults disk.new) result }
    {
        self.extend(disk, payload)?;
        Ok(self)
    }

    /// Appends a record to a journal that is lent, which then goes on behind it: at every moment the disk
    /// holds the payloads from before the call, with the new one or without. It writes the record and the
    /// closed gate behind it, and nothing else. At `Err` the journal is to be given up, and the disk opened again.
    pub fn extend<D: Disk>(&mut self, disk: &mut D, payload: &[u8]) -> Result<(), Failed>
        requires payload { length payload.now < 2 ^ 32 }
        requires room { length payload.now + 37 ≤ self.old.spare }
        requires end { self.old.at + length payload.now + 37 ≤ 2 ^ 62 }
        requires gate { IfSome (D.contents disk.old) (λ bytes. self.old.at < length bytes) }
        ensures fits { (payloads : List (List ℕ)) → FitsState self.old payloads →
            FitsState self.new (payloads ++ payload.now ∷ []) }
        ensures gate { OnOk result (HasGate (D.contents disk.new) self.new.at) }
        ensures written { (payloads : List (List ℕ)) → FitsState self.old payloads →
            IfSome (D.contents disk.old) (λ bytes. IsWritten bytes payloads) →
            OnOk result (IfSome (D.contents disk.new)
            (λ bytes. IsWritten bytes (payloads ++ payload.now ∷ []))) }
        ensures stored { (payloads : List (List ℕ)) → FitsState self.old payloads →
            ((c : List ℕ) → D.images disk.old c → IsWritten c payloads) →
            OnOk result ((c : List ℕ) → D.images disk.new c →
            IsWritten c (payloads ++ payload.now ∷ [])) }
        ensures any_moment { (payloads : List (List ℕ)) → FitsState self.old payloads →
            ((c : List ℕ) → D.images disk.old c → IsWritten c payloads) →
            LeavesOnly D.moment D.images_since disk.old disk.new
            (λ c. IsWritten c payloads ⊎ IsWritten c (payloads ++ payload.now ∷ [])) }
        ensures pinned { OnOk result (Told (AppendsRecord self.old payload.now)
            (D.contents disk.old) (D.contents disk.new)) }
        ensures only { OnOk result (Only (D.contents disk.new) (D.images disk.new)) }
        ensures outside { LeavesOnly D.moment D.images_since disk.old disk.new
            (IsTornFrom (D.images disk.old) self.old.at (length payload.now + 38)) }
        ensures cause { HasCause (D.faults disk.old) (D.faults disk.new) result }
    {
        let digest = next_digest(&self.digest, payload);
        fill(&mut self.room, payload, &digest);
        let gate = self.at;
        self.at = gate + payload.len() as u64 + 37;
        self.digest = digest;
        stage(disk, gate, self.room.as_slice())?;
        open_gate(disk, gate)?;
        Ok(())
    }
}
