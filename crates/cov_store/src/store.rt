// A history on a disk.
ghost use Rattle.std.specs.Prelude.{◌≡◌, ◌⊎◌, ◌<◌, ◌≤◌, ◌+◌, ◌++◌, ◌∷◌, [], List, ℕ, Some, None, length, IfOk, IfErr, IfSome, OnOk};
ghost use Rattle.cov_base.specs.Causes.{Rose};
ghost use Rattle.cov_dd.specs.Diagrams.{Extends};
ghost use Rattle.cov_disk.specs.Images.{LeavesOnly};
ghost use Rattle.cov_edit.specs.declared.command.Command.{Command};
ghost use Rattle.cov_engine.specs.States.{receipt_number};
ghost use Rattle.cov_history.specs.Verdict.{verdict};
ghost use Rattle.cov_journal.specs.Gates.{HasGate};
ghost use Rattle.cov_journal.specs.Moments.{KeepsImages};
ghost use Rattle.cov_journal.specs.Reading.{IsNoStore};
ghost use Rattle.cov_store.specs.Applying.{IsRefusedBy, HandsBack, OnCommandRefused, OnDiskFault};
ghost use Rattle.cov_store.specs.Damages.{HasDamage};
ghost use Rattle.cov_store.specs.Opening.{IsImageFaultOf, HasReason, IsOfVerdict, GivesHistory, TellsDamage, TellsNoStore};
ghost use Rattle.cov_store.specs.Stands.{StandsFor, IsStored, IsJournalOf, gate_of};
ghost use Rattle.cov_store.specs.declared.damage.StoreDamage.{StoreDamage};

use crate::appending::append;
use crate::replaying::{close, replay_all};
use crate::{AppendFault, StoreFault};
use cov_disk::Disk;
use cov_edit::Command;
use cov_engine::{Engine, NoHolders, Receipt, Refusal};
use cov_journal::{Journal, OpenFault, Reader};
use std::alloc::Global;
use std::marker::Model;

/// A history whose commands are the records of a journal. Contracts see it as its engine is seen.
#[derive(Drop)]
pub struct Store {
    pub(crate) engine: Engine,
    pub(crate) journal: Journal,
}

impl Model for Store {
    ghost use Rattle.std.specs.Coded.{codes};
    ghost use Rattle.cov_dd.specs.contracts.triple.Triple as triples;
    ghost use Rattle.cov_edit.specs.contracts.command.Command as row;
    ghost use Rattle.cov_engine.specs.States.{EngineValue};
    ghost use Rattle.cov_store.specs.Stands.{IsJournalOf};

    ghost Value = { EngineValue };

    ghost coded = { Prim.hlevel (codes, row.the_row.coded, triples.the_row.coded) };

    ghost view = { λ s. s.engine };

    ghost invariant = { λ s. IsJournalOf s.journal s.engine.history };
}

/// Why a command isn't applied.
#[derive(Drop)]
pub enum ApplyFault {
    /// The history refuses it, or memory is wanting. The store and the disk are as before.
    Refused(Store, Refusal),
    /// A call of the disk failed. The disk is to be opened again.
    DiskFault,
}

impl Store {
    /// Opens a disk as a store: syncs, makes a disk of at most 13 bytes anew, and accepts the commands of the records one after
    /// another. A disk of more bytes is left as it was, however the opening ends. It takes time in the records and in what their
    /// commands take.
    pub fn open<D: Disk>(alloc: Global, disk: &mut D) -> Result<Store, StoreFault>
        ensures stands { (history : List Command) →
            IfSome (D.contents disk.old) (λ image. StandsFor image history →
            GivesHistory history (D.faults disk.old) (D.faults disk.new) result) }
        ensures damage { (number : ℕ) (cause : StoreDamage) →
            IfSome (D.contents disk.old) (λ image. (damage : HasDamage image number cause) →
            TellsDamage damage.history number cause (D.faults disk.old) (D.faults disk.new)
            result) }
        ensures no_store { IfSome (D.contents disk.old) (λ image. IsNoStore image →
            TellsNoStore (D.faults disk.old) (D.faults disk.new) result) }
        ensures opened { IfOk result (λ store.
            IfSome (D.contents disk.old) (λ image. StandsFor image store.history)) }
        ensures faulty { IfErr result (λ fault.
            IfSome (D.contents disk.old) (λ image. IsImageFaultOf image fault)) }
        ensures cause { IfErr result (HasReason (D.faults disk.old) (D.faults disk.new)) }
        ensures verdict { IfErr result IsOfVerdict }
        ensures written { IfOk result (λ store.
            IfSome (D.contents disk.new) (λ image. IsStored image store.history)) }
        ensures gate { IfOk result (λ store.
            HasGate (D.contents disk.new) (gate_of store.history)) }
        ensures kept { IfSome (D.contents disk.old) (λ image. 13 < length image →
            D.contents disk.new ≡ Some image) }
        ensures images { IfSome (D.contents disk.old) (λ image. 13 < length image →
            KeepsImages D.images D.moment D.images_since disk.old disk.new) }
        ensures stays { (history : List Command) →
            IfSome (D.contents disk.old) (λ image. StandsFor image history →
            IfSome (D.contents disk.new) (λ now. StandsFor now history)) }
        ensures stored { IfOk result (λ store. (image : List ℕ) → D.images disk.new image →
            IsStored image store.history) }
        ensures any_moment { (history : List Command) →
            ((image : List ℕ) → D.images disk.old image → StandsFor image history) →
            LeavesOnly D.moment D.images_since disk.old disk.new
            (λ image. StandsFor image history) }
        ensures later { D.faults disk.old ≤ D.faults disk.new }
    {
        match Reader::open(alloc, disk) {
            Ok(reader) => replay_all(alloc, disk, reader),
            Err(OpenFault::NotAStore) => Err(StoreFault::NotAStore),
            Err(OpenFault::DiskFault) => Err(StoreFault::DiskFault),
            Err(OpenFault::Memory) => Err(StoreFault::Memory),
        }
    }

    /// Applies a command, as `append` does to a history and a journal that are lent: makes its record and the room for that, makes it part
    /// of the history, and then writes the record. Want of memory comes before the first write. Where it is refused, store and disk are
    /// as before. It takes the time of `Engine::append`, and of writing the record.
    pub fn apply<D: Disk>(
        self,
        disk: &mut D,
        command: Command,
    ) -> Result<(Store, Receipt), ApplyFault>
        requires gate { HasGate (D.contents disk.old) (gate_of self.history) }
        ensures history { IfOk result (λ done. done.0.history ≡ self.history ++ command ∷ []) }
        ensures position { IfOk result (λ done. done.1.position ≡ length self.history + 1) }
        ensures number { IfOk result (λ done. done.1.number ≡ receipt_number self.history command) }
        ensures extends { IfOk result (λ done. Extends self.table done.0.table) }
        ensures accepted { OnOk result (verdict self.history command ≡ None) }
        ensures refused { IfErr result (IsRefusedBy (verdict self.history command)) }
        ensures back { IfErr result (HandsBack self) }
        ensures same { IfErr result (λ fault. OnCommandRefused fault (disk.new ≡ disk.old)) }
        ensures failed { IfErr result (λ fault.
            OnDiskFault fault (Rose (D.faults disk.old) (D.faults disk.new))) }
        ensures written { IfSome (D.contents disk.old) (λ image. IsStored image self.history) →
            OnOk result (IfSome (D.contents disk.new)
            (λ image. IsStored image (self.history ++ command ∷ []))) }
        ensures gate { IfOk result (λ done.
            HasGate (D.contents disk.new) (gate_of done.0.history)) }
        ensures stored { ((image : List ℕ) → D.images disk.old image →
            IsStored image self.history) →
            OnOk result ((image : List ℕ) → D.images disk.new image →
            IsStored image (self.history ++ command ∷ [])) }
        ensures any_moment { ((image : List ℕ) → D.images disk.old image →
            IsStored image self.history) →
            LeavesOnly D.moment D.images_since disk.old disk.new (λ image.
            IsStored image self.history ⊎ IsStored image (self.history ++ command ∷ [])) }
        ensures later { D.faults disk.old ≤ D.faults disk.new }
    {
        let Store {
            mut engine,
            mut journal,
        } = self;
        match append(
            &mut engine,
            &mut journal,
            disk,
            command,
            &mut NoHolders,
            &(),
        ) {
            Ok(receipt) => Ok((Store { engine, journal }, receipt)),
            Err(AppendFault::Refused(refusal)) => {
                Err(ApplyFault::Refused(Store { engine, journal }, refusal))
            }
            Err(AppendFault::DiskFault) => {
                close(engine);
                Err(ApplyFault::DiskFault)
            }
        }
    }

    /// The history in use.
    pub fn engine(&self) -> &Engine
        ensures { result.now ≡ self.now }
    {
        &self.engine
    }

    /// The history in use, and the journal that goes on behind it.
    pub fn into_parts(self) -> (Engine, Journal)
        ensures engine { result.0 ≡ self }
        ensures journal { IsJournalOf result.1 self.history }
    {
        let Store { engine, journal } = self;
        (engine, journal)
    }

    /// A store of these.
    pub fn from_parts(engine: Engine, journal: Journal) -> Store
        requires { IsJournalOf journal engine.history }
        ensures { result ≡ engine }
    {
        Store { engine, journal }
    }
}
