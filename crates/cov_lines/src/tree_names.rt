// The names of the trees that a run has written.
ghost use Rattle.std.specs.Prelude.{◌≡◌, ◌++◌, [], ◌∷◌, false, OnOk};
ghost use Rattle.std.specs.List.{list_any};
ghost use Rattle.std.specs.Str.{bytes_eq};

use cov_base::Memory;
use indexmap::IndexSet;
use std::alloc::Global;
use std::marker::Model;

/// The names of the trees that accepted checkouts of a run have used, of now or of the past, in their order, each once.
#[derive(Drop)]
pub(crate) struct TreeNames {
    names: IndexSet<Vec<u8>>,
}

impl Model for TreeNames {
    ghost use Rattle.std.specs.Prelude.{ℕ, List, map};

    ghost Value = { List (List ℕ) };

    ghost view = { λ t. map (λ name. name.items) t.names.keys };
}

impl TreeNames {
    pub(crate) fn new(alloc: Global) -> TreeNames
        ensures { result ≡ [] }
    {
        TreeNames {
            names: IndexSet::new(alloc),
        }
    }

    /// Whether a checkout has used the name. Takes no memory.
    pub(crate) fn contains(&self, name: &[u8]) -> bool
        ensures { result ≡ list_any (bytes_eq name.now) self.now }
    {
        self.names.contains(name)
    }

    /// Adds a name that none has used.
    pub(crate) fn add(&mut self, name: &[u8]) -> Result<(), Memory>
        requires { list_any (bytes_eq name.now) self.old ≡ false }
        ensures { OnOk result (self.new ≡ self.old ++ name.now ∷ []) }
    {
        let own = Vec::from_slice(*self.names.allocator(), name)?;
        self.names.insert(own)?;
        Ok(())
    }
}
