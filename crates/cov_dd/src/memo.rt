// What one call has met so far.
ghost use Rattle.std.specs.Prelude.{◌≡◌, ◌<◌, List, [], ◌∷◌, IfSome, IfNone, OnOk};
ghost use Rattle.cov_dd.specs.Memos.{IsKey, IsMade};

use crate::Node;
use cov_base::Memory;
use indexmap::IndexMap;
use std::alloc::Global;
use std::marker::Model;

/// Two nodes that are combined.
#[derive(Clone, Copy, Debug, PartialEq, Eq, Hash)]
pub(crate) struct Pair {
    pub left: Node,
    pub right: Node,
}

/// The node made for each pair. Contracts see the pairs, newest first, and how many more fit without memory.
#[derive(Drop)]
pub(crate) struct Memo {
    made: IndexMap<Pair, Node>,
}

impl Model for Memo {
    ghost use Rattle.std.specs.Prelude.{List, ℕ, reverse};
    ghost use Rattle.indexmap.specs.IndexMap.{spare};
    ghost use Rattle.cov_dd.specs.declared.memo.Pair.{Pair};
    ghost use Rattle.cov_dd.specs.Memos.{MemoValue, IsDistinct};

    ghost Value = { MemoValue };

    ghost view = { λ m. record { made = reverse m.made.entries; room = spare m.made } };

    ghost invariant = { λ m. IsDistinct (reverse m.made.entries) };
}

impl Memo {
    pub(crate) fn new(alloc: Global) -> Memo
        ensures { result.made ≡ [] }
    {
        Memo {
            made: IndexMap::new(alloc),
        }
    }

    pub(crate) fn find(&self, pair: Pair) -> Option<Node>
        ensures some { IfSome result (IsMade self.now.made pair) }
        ensures none { IfNone result (IsKey self.now.made pair → ⊥) }
    {
        self.made.get(&pair).copied()
    }

    /// Makes room for one more.
    pub(crate) fn reserve(&mut self) -> Result<(), Memory>
        ensures made { self.new.made ≡ self.old.made }
        ensures room { OnOk result (0 < self.new.room) }
    {
        self.made.reserve(1)?;
        Ok(())
    }

    pub(crate) fn put(&mut self, pair: Pair, node: Node)
        requires fresh { IsKey self.old.made pair → ⊥ }
        requires room { 0 < self.old.room }
        ensures { self.new.made ≡ (pair, node) ∷ self.old.made }
    {
        match self.made.insert(pair, node) {
            Ok(_) => {}
            Err(_) => unreachable!(),
        }
    }
}
