// Results that are remembered from call to call.
ghost use Rattle.std.specs.Prelude.{◌≡◌, [], ◌∷◌, IfOk, IfSome};
ghost use Rattle.cov_dd.specs.Memos.{AreAmong, IsMade};

use crate::Node;
use crate::memo::Pair;
use cov_base::Memory;
use lru::LruCache;
use std::alloc::Global;
use std::marker::Model;
use std::num::NonZeroUsize;

/// How many results are remembered.
const MOST_RESULTS: usize = 4096;

/// The nodes of the pairs that were asked for last. Contracts see the pairs with their nodes, the last first.
#[derive(Drop)]
pub(crate) struct Results {
    latest: LruCache<Pair, Node>,
}

impl Model for Results {
    ghost use Rattle.std.specs.Prelude.{List, ℕ};
    ghost use Rattle.cov_dd.specs.declared.memo.Pair.{Pair};

    ghost Value = { List (Pair × ℕ) };

    ghost view = { λ r. r.latest.entries };
}

impl Results {
    pub(crate) fn new(alloc: Global) -> Result<Results, Memory>
        ensures { IfOk result (λ results. results ≡ []) }
    {
        let Some(most) = NonZeroUsize::new(MOST_RESULTS) else {
            unreachable!();
        };
        Ok(Results {
            latest: LruCache::sparse(alloc, most)?,
        })
    }

    /// The node of a pair, if it is remembered.
    pub(crate) fn find(&mut self, pair: Pair) -> Option<Node>
        ensures some { IfSome result (IsMade self.old pair) }
        ensures among { AreAmong self.new self.old }
    {
        self.latest.get(&pair).copied()
    }

    /// Remembers the node of a pair, unless there is no memory for it. The pair that was asked for longest ago may go.
    pub(crate) fn put(&mut self, pair: Pair, node: Node)
        ensures { AreAmong self.new ((pair, node) ∷ self.old) }
    {
        let _ = self.latest.put(pair, node);
    }

    pub(crate) fn clear(&mut self)
        ensures { self.new ≡ [] }
    {
        self.latest.clear();
    }
}
