// Places parted by an ambition.
ghost use Rattle.std.specs.Prelude.{◌≡◌, ◌<◌, ◌≤◌, ◌++◌, ◌&&◌, [], ◌∷◌, ℕ, List, Bool, true, length, IfOk, OnOk, if◌then◌else◌};
ghost use Rattle.cov_dd.specs.Diagrams.{diagram_size, value_in, Extends};
ghost use Rattle.cov_tree.specs.Entries.{rows_of, AreWithin};
ghost use Rattle.cov_tree.specs.Shifts.{place_at, shifted, Adds};

use crate::entry::{Place, Places};
use cov_base::{Memory, Name, NodeNo, Steps, Uncounted};
use cov_dd::{Node, Table};
use std::alloc::Global;

/// What becomes of a place where an ambition is true.
#[derive(Debug, Drop)]
pub enum Shift {
    Renamed(Name),
    Moved(NodeNo),
    Removed,
}

/// Places once they are shifted where the ambition is true. A place with no choice left is dropped.
pub(crate) fn parted(
    table: &mut Table,
    alloc: Global,
    places: &[Place],
    ambition: Node,
    shift: &Shift,
) -> Result<Places, Memory>
    requires places { AreWithin table.old places.now }
    requires ambition { ambition < diagram_size table.old }
    requires once { (c : List Bool) (node : ℕ) (kind : _) →
        length (rows_of table.old c node kind places.now) ≤ 1 }
    ensures extends { Extends table.old table.new }
    ensures ok { IfOk result (λ made. Adds table.old table.new []
        made (λ c. true)
        (λ c node kind. shifted table.old c node shift.now ambition
        (rows_of table.old c node kind places.now))) }
{
    let mut made = Places::new(alloc);
    'places: for place in places {
        add_parts(table, &mut made, place, ambition, shift)?;
    }
    Ok(made)
}

// Adds what is left of a place, and what becomes of it.
fn add_parts(
    table: &mut Table,
    made: &mut Places,
    place: &Place,
    ambition: Node,
    shift: &Shift,
) -> Result<(), Memory>
    requires made { AreWithin table.old made.old }
    requires place { place.now.vis < diagram_size table.old }
    requires ambition { ambition < diagram_size table.old }
    ensures extends { Extends table.old table.new }
    ensures ok { OnOk result (Adds table.old table.new made.old
        made.new (λ c. value_in table.old place.now.vis c)
        (λ c node kind. shifted table.old c node shift.now ambition
        (rows_of table.old c node kind (place.now ∷ [])))) }
{
    add_outside(table, made, place, ambition)?;
    add_shifted(table, made, place, ambition, shift)
}

// Adds what becomes of a place where the ambition is true.
fn add_shifted(
    table: &mut Table,
    made: &mut Places,
    place: &Place,
    ambition: Node,
    shift: &Shift,
) -> Result<(), Memory>
    requires made { AreWithin table.old made.old }
    requires place { place.now.vis < diagram_size table.old }
    requires ambition { ambition < diagram_size table.old }
    ensures extends { Extends table.old table.new }
    ensures ok { OnOk result (Adds table.old table.new made.old
        made.new (λ c. value_in table.old place.now.vis c && value_in table.old ambition c)
        (λ c node kind. if value_in table.old ambition c
        then shifted table.old c node shift.now ambition
        (rows_of table.old c node kind (place.now ∷ [])) else [])) }
{
    match shift {
        Shift::Renamed(name) => { add_within(table, made, place.parent, name, place.vis, ambition) }
        Shift::Moved(parent) => {
            add_within(table, made, *parent, &place.name, place.vis, ambition)
        }
        Shift::Removed => Ok(()),
    }
}

// Adds a place where the ambition isn't true.
fn add_outside(
    table: &mut Table,
    made: &mut Places,
    place: &Place,
    ambition: Node,
) -> Result<(), Memory>
    requires made { AreWithin table.old made.old }
    requires place { place.now.vis < diagram_size table.old }
    requires ambition { ambition < diagram_size table.old }
    ensures extends { Extends table.old table.new }
    ensures ok { OnOk result (Adds table.old table.new made.old
        made.new (λ c. value_in table.old place.now.vis c)
        (λ c node kind. if value_in table.old ambition c then []
        else rows_of table.old c node kind (place.now ∷ []))) }
{
    let vis = table.without(place.vis, ambition)?;
    made.put(table, place.parent, &place.name, vis)
}

// Adds a place of the visibility where the ambition is true.
fn add_within(
    table: &mut Table,
    made: &mut Places,
    parent: NodeNo,
    name: &Name,
    vis: Node,
    ambition: Node,
) -> Result<(), Memory>
    requires made { AreWithin table.old made.old }
    requires vis { vis < diagram_size table.old }
    requires ambition { ambition < diagram_size table.old }
    ensures extends { Extends table.old table.new }
    ensures ok { OnOk result (Adds table.old table.new made.old
        made.new (λ c. value_in table.old vis c && value_in table.old ambition c)
        (λ c node kind. if value_in table.old ambition c
        then rows_of table.old c node kind (place_at parent name.now vis ∷ []) else [])) }
{
    let vis = table.and(vis, ambition, &mut Steps::<Uncounted>::new())?;
    made.put(table, parent, name, vis)
}
