// A history from the bytes of a journal.
ghost use Rattle.std.specs.Prelude.{◌≡◌, [], true, nat_lt, None, Some, Err, IfOk, IfErr, OnOk};
ghost use Rattle.std.specs.List.{list_all};
ghost use Rattle.cov_edit.specs.History.{constraints_of, option_count};
ghost use Rattle.cov_history.specs.Completing.{completed_in};
ghost use Rattle.cov_replica.specs.Feeding.{Feeds, TellsFault};
ghost use Rattle.cov_replica.specs.Taken.{taken};
ghost use Rattle.cov_replica.specs.declared.fault.ReplicaFault.{ReplicaFault as Fault};
ghost use Rattle.cov_rules.specs.Completion.{Complete, IsCompletion, IsRefusalBy};

use crate::ReplicaFault;
use crate::reading::Reading;
use cov_base::{Choice, Memory, MemoryOr};
use cov_engine::Engine;
use cov_expr::Partial;
use cov_rules::CompleteFault;
use std::alloc::Global;
use std::marker::Model;

/// The history of a journal whose bytes come in pieces. Contracts see it as the bytes that it has taken; it keeps them all, those
/// behind a closed gate too.
#[derive(Drop)]
pub struct Replica {
    reading: Reading,
    fault: Option<ReplicaFault>,
}

impl Model for Replica {
    ghost use Rattle.std.specs.Prelude.{List, ℕ};
    ghost use Rattle.cov_replica.specs.Feeding.{IsReplica};

    ghost Value = { List ℕ };

    ghost view = { λ r. r.reading.bytes.items };

    ghost invariant = { λ r. IsReplica r.reading.bytes.items r.reading.at r.reading.digest
        r.reading.engine.history r.fault };
}

impl Replica {
    /// A replica that has taken no byte.
    pub fn new(alloc: Global) -> Result<Replica, Memory>
        ensures { IfOk result (λ replica. replica ≡ []) }
    {
        Ok(Replica {
            reading: Reading::new(alloc)?,
            fault: None,
        })
    }

    /// Takes the next piece of the bytes, wherever they are cut. After `NotAStore` or `Damaged` it answers the same for ever, takes no
    /// memory and no byte. After `Memory` the bytes of the piece from `taken` on may be fed again. The room that it takes grows with
    /// the bytes that came, whatever length they tell. It takes time in the piece, and in the records that are whole with it.
    pub fn feed(&mut self, piece: &[u8]) -> Result<(), ReplicaFault>
        ensures feeds { Feeds self.old piece.now self.new result }
        ensures tells { TellsFault self.new result }
        ensures again { (fault : Fault) → (taken self.old).fault ≡ Some fault →
            (result ≡ Err fault) × (self.new ≡ self.old) }
    {
        if self.fault.is_some() {
            return answer(&self.fault);
        }
        let before = self.reading.bytes.len();
        match self.reading.feed(piece) {
            Ok(()) => Ok(()),
            Err(MemoryOr::Refused(fault)) => {
                self.fault = Some(fault);
                answer(&self.fault)
            }
            Err(MemoryOr::Memory) => Err(ReplicaFault::Memory {
                taken: self.reading.bytes.len() - before,
            }),
        }
    }

    /// The history of the bytes that were taken. Takes no memory.
    pub fn engine(&self) -> &Engine
        ensures { result.now.history ≡ (taken self.now).history }
    {
        &self.reading.engine
    }

    /// What is wrong with the bytes that were taken, if anything is; never `Memory`. Takes no memory.
    pub fn fault(&self) -> Option<ReplicaFault>
        ensures { result ≡ (taken self.now).fault }
    {
        self.fault
    }

    /// The history of the bytes that were taken, without them. Takes no memory.
    pub fn into_engine(self) -> Engine
        ensures { result.history ≡ (taken self).history }
    {
        let Replica { reading, fault: _ } = self;
        reading.into_engine()
    }

    /// Completes a partial choice by the rules of that history, as `Engine::complete` does.
    pub fn complete(&mut self, partial: &Partial) -> Result<Choice, CompleteFault>
        requires { list_all (λ b. nat_lt b.0 (option_count (taken self.old).history)) partial.now
            ≡ true }
        ensures same { self.new ≡ self.old }
        ensures complete { IfOk result (λ choice.
            completed_in (taken self.old).history partial.now ≡ Complete choice) }
        ensures answer { IfOk result (IsCompletion (option_count (taken self.old).history)
            (constraints_of (taken self.old).history) partial.now) }
        ensures refused { IfErr result
            (IsRefusalBy (completed_in (taken self.old).history partial.now)) }
    {
        self.reading.engine.complete(partial)
    }
}

// The fault that was found, if one was.
fn answer(fault: &Option<ReplicaFault>) -> Result<(), ReplicaFault>
    ensures none { OnOk result (fault.now ≡ None) }
    ensures some { IfErr result (λ found. fault.now ≡ Some found) }
{
    match fault {
        Some(fault) => Err(*fault),
        None => Ok(()),
    }
}
