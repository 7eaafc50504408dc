// Rows that clash: those of one directory and one name.
ghost use Rattle.std.specs.Prelude.{◌≡◌, ◌<◌, ◌&&◌, ◌++◌, ◌∷◌, [], ℕ, List, Bool, nat_eq, IfOk, OnOk, OnErr, if◌then◌else◌};
ghost use Rattle.std.specs.List.{AllByRecursion};
ghost use Rattle.std.specs.Str.{bytes_eq};
ghost use Rattle.cov_base.specs.Rows.{Row};
ghost use Rattle.cov_base.specs.Reaching.{has_clash};
ghost use Rattle.cov_dd.specs.Diagrams.{diagram_size, Extends, IsNode};
ghost use Rattle.cov_tree.specs.Entries.{rows_of, rows_in, is_one_place, AreWithin, AllAreWithin};
ghost use Rattle.cov_tree.specs.Grouping.{joined_at, GroupsWithin, IsClash};

use crate::entry::Place;
use crate::soundness::or_both;
use crate::standing::Standing;
use cov_base::{Kind, Memory, NodeNo};
use cov_dd::{FALSE, Node, Table};
use indexmap::IndexMap;
use std::alloc::Global;

/// A directory and a name in it, which a place lends.
#[derive(PartialEq, Eq, Hash, Drop)]
pub(crate) struct PlaceKey<'a> {
    parent: NodeNo,
    name: &'a [u8],
}

/// For each name in each directory the choices on which a row has it there.
#[derive(Drop)]
pub(crate) struct Groups<'a> {
    nodes: IndexMap<PlaceKey<'a>, Node>,
}

impl<'a> Groups<'a> {
    fn new(alloc: Global) -> Groups<'a>
        ensures { result.nodes.entries ≡ [] }
    {
        Groups {
            nodes: IndexMap::new(alloc),
        }
    }

    // The choices on which a row is at a place, FALSE where none is.
    fn joined(&self, place: &Place) -> Node
        ensures { result ≡ joined_at self.now.nodes.entries place.now.parent place.now.name }
    {
        let key = key_of(place);
        self.nodes.get(&key).copied().unwrap_or(FALSE)
    }

    // Sets the choices on which a row is at a place.
    fn put(&mut self, place: &'a Place, node: Node) -> Result<(), Memory>
        ensures ok { OnOk result ((parent : ℕ) (name : List ℕ) →
            joined_at self.new.nodes.entries parent name ≡
            (if is_one_place parent name place.now.parent place.now.name then node
            else joined_at self.old.nodes.entries parent name)) }
        ensures within { OnOk result ((table : _) → node < diagram_size table →
            GroupsWithin table self.old.nodes.entries → GroupsWithin table self.new.nodes.entries) }
    {
        self.nodes.reserve(1)?;
        match self.nodes.insert(key_of(place), node) {
            Ok(_) => Ok(()),
            Err(_) => unreachable!(),
        }
    }
}

fn key_of(place: &Place) -> PlaceKey<'_>
    ensures parent { result.parent ≡ place.now.parent }
    ensures name { result.name.now ≡ place.now.name }
{
    PlaceKey {
        parent: place.parent,
        name: place.name.as_slice(),
    }
}

/// The choices on which two rows have one directory and one name.
pub(crate) fn clashes(
    table: &mut Table,
    alloc: Global,
    entries: &[Standing<'_>],
) -> Result<Node, Memory>
    requires within { AllAreWithin table.old entries.now }
    ensures extends { Extends table.old table.new }
    ensures ok { IfOk result (λ r. IsNode table.new
        r (λ c. has_clash (rows_in table.old c entries.now))) }
{
    let mut groups = Groups::new(alloc);
    let mut clash = FALSE;
    'entries: for entry in entries {
        clash = add_entry(table, &mut groups, clash, entry)?;
    }
    Ok(clash)
}

// Adds the clashes of a node's rows with those before.
fn add_entry<'a>(
    table: &mut Table,
    groups: &mut Groups<'a>,
    clash: Node,
    entry: &Standing<'a>,
) -> Result<Node, Memory>
    requires within { AreWithin table.old entry.now.places }
    requires clash { clash < diagram_size table.old }
    requires groups { GroupsWithin table.old groups.old.nodes.entries }
    ensures extends { Extends table.old table.new }
    ensures groups { IfOk result (λ r. GroupsWithin table.new groups.new.nodes.entries) }
    ensures clash { IfOk result (λ r. r < diagram_size table.new) }
    ensures ok { (rows : List Bool → List Row) →
        IsClash table.old groups.old.nodes.entries clash rows →
        IfOk result (λ r.
        IsClash table.new groups.new.nodes.entries
        r (λ c. rows c ++ rows_of table.old c entry.now.node entry.now.kind entry.now.places)) }
{
    let mut found = clash;
    'places: for place in entry.places() {
        found = add_place(table, groups, found, place)?;
    }
    Ok(found)
}

// Adds the clashes of a place with those before.
fn add_place<'a>(
    table: &mut Table,
    groups: &mut Groups<'a>,
    clash: Node,
    place: &'a Place,
) -> Result<Node, Memory>
    requires vis { place.now.vis < diagram_size table.old }
    requires clash { clash < diagram_size table.old }
    requires groups { GroupsWithin table.old groups.old.nodes.entries }
    ensures extends { Extends table.old table.new }
    ensures groups { IfOk result (λ r. GroupsWithin table.new groups.new.nodes.entries) }
    ensures clash { IfOk result (λ r. r < diagram_size table.new) }
    ensures ok { (rows : List Bool → List Row) (node : ℕ) (kind : _) →
        IsClash table.old groups.old.nodes.entries clash rows →
        IfOk result (λ r.
        IsClash table.new groups.new.nodes.entries
        r (λ c. rows c ++ rows_of table.old c node kind (place.now ∷ []))) }
{
    let joined = groups.joined(place);
    let found = or_both(table, clash, joined, place.vis)?;
    let more = table.or(joined, place.vis)?;
    groups.put(place, more)?;
    Ok(found)
}
