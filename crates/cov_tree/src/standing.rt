// Nodes whose places are lent.
ghost use Rattle.std.specs.Prelude.{◌≡◌, ℕ, ◌∷◌, ◌++◌, map, IfOk, OnOk};
ghost use Rattle.cov_tree.specs.Dated.{newest_entry, nodes_in};
ghost use Rattle.cov_tree.specs.Standing.{entry_with, made_beside};

use crate::Entries;
use crate::dated::DatedEntry;
use crate::entry::{Entry, Place};
use crate::plan::EntryPlan;
use cov_base::{Kind, Memory, NodeNo};
use std::alloc::Global;
use std::marker::Model;

/// A node but the root, with places that entries or a plan lend. Contracts see it as an entry with these places.
#[derive(Drop)]
pub struct Standing<'a> {
    node: NodeNo,
    kind: Kind,
    places: &'a [Place],
}

impl<'a> Model for Standing<'a> {
    ghost use Rattle.cov_tree.specs.declared.entry.Entry.{Entry};

    ghost Value = { Entry };

    ghost view = { λ s. record { node = s.node; kind = s.kind; places = s.places.now } };
}

impl<'a> Standing<'a> {
    pub(crate) fn new(node: NodeNo, kind: Kind, places: &'a [Place]) -> Standing<'a>
        ensures { result ≡ record { node = node; kind = kind; places = places.now } }
    {
        Standing { node, kind, places }
    }

    pub(crate) fn node(&self) -> NodeNo
        ensures { result ≡ self.now.node }
    {
        self.node
    }

    pub(crate) fn kind(&self) -> Kind
        ensures { result ≡ self.now.kind }
    {
        self.kind
    }

    pub(crate) fn places(&self) -> &'a [Place]
        ensures { result.now ≡ self.now.places }
    {
        self.places
    }
}

/// These nodes as a plan has them: with the places that it has for them, or else with their newest ones.
pub(crate) fn as_planned<'a>(
    alloc: Global,
    entries: &'a [DatedEntry],
    plan: &'a EntryPlan,
) -> Result<Vec<Standing<'a>>, Memory>
    ensures { IfOk result (λ list. list.items ≡
        map (entry_with plan.now) (map newest_entry entries.now)) }
{
    let mut list = Vec::with_capacity(alloc, entries.len())?;
    'entries: for entry in entries {
        let places = plan.places_of(entry.node, entry.places.as_slice());
        list.push(Standing::new(entry.node, entry.kind, places))?;
    }
    Ok(list)
}

/// Adds those nodes of a plan that it makes.
pub(crate) fn add_made<'a>(
    list: &mut Vec<Standing<'a>>,
    entries: &Entries,
    plan: &'a [Entry],
) -> Result<(), Memory>
    ensures { OnOk result (list.new.items ≡
        list.old.items ++ made_beside (nodes_in entries.now) plan.now) }
{
    'plan: for entry in plan {
        if !entries.has(entry.node) {
            list.push(Standing::new(entry.node, entry.kind, entry.places.as_slice()))?;
        }
    }
    Ok(())
}
