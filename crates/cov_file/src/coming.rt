// The changes of a file at one position that are expected.
ghost use Rattle.std.specs.Prelude.{◌≡◌, []};

use cov_base::LineNo;
use std::alloc::Global;

/// How many lines are expected, and which lines' other visibilities. For these there is room at any time, so it is made before one
/// is added.
#[derive(Drop)]
pub(crate) struct Coming {
    pub(crate) inserts: u32,
    pub(crate) deletes: Vec<LineNo>,
}

impl Coming {
    pub(crate) fn none(alloc: Global) -> Coming
        ensures inserts { result.inserts ≡ 0 }
        ensures deletes { result.deletes.items ≡ [] }
    {
        Coming {
            inserts: 0,
            deletes: Vec::new(alloc),
        }
    }
}
