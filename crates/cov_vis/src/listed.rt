// Nodes as listings.
ghost use Rattle.std.specs.Prelude.{◌≡◌, ◌<◌, ◌≤◌, ◌++◌, true, ℕ, List, Bool, IfOk, OnOk};
ghost use Rattle.cov_dd.specs.Diagrams.{diagram_size, entry_in, span, value_in};
ghost use Rattle.cov_vis.specs.Decisions.{listing_of};
ghost use Rattle.cov_vis.specs.Listings.{has_options_below, is_reduced, reads};
ghost use Rattle.cov_vis.specs.Visiting.{child_in, listed, listing_of_nodes};

use crate::listing::{Child, Listing, ListingEntry};
use crate::visiting::{Nodes, visit};
use cov_base::Memory;
use cov_dd::{FALSE, Node, TRUE, Table};

/// The reduced listing of a node, in time linear in the nodes below it.
pub fn list(table: &Table, node: Node) -> Result<Listing, Memory>
    requires within { node < diagram_size table.now }
    ensures reduced { IfOk result (λ l. is_reduced l ≡ true) }
    ensures reads { IfOk result (λ l. (c : List Bool) → reads l c ≡ value_in table.now node c) }
    ensures options { (most : ℕ) → span table.now node ≤ most →
        IfOk result (λ l. has_options_below most l ≡ true) }
    ensures one { (most : ℕ) → span table.now node ≤ most →
        IfOk result (λ l. l ≡ listing_of most (value_in table.now node)) }
{
    table.is_diagram();
    let mut met = Nodes::new(table.allocator());
    visit(table, node, &mut met)?;
    list_nodes(table, &met, node)
}

fn list_nodes(table: &Table, nodes: &Nodes, root: Node) -> Result<Listing, Memory>
    ensures { IfOk result (λ l. l ≡ listing_of_nodes table.now nodes.now root) }
{
    let mut listing = Listing::new(table.allocator(), child_of(nodes, root));
    let mut ahead = nodes.as_slice();
    while let [first, rest @ ..] = ahead {
        push_node(table, nodes, *first, &mut listing)?;
        ahead = rest;
    }
    Ok(listing)
}

fn push_node(table: &Table, nodes: &Nodes, node: Node, listing: &mut Listing) -> Result<(), Memory>
    ensures root { listing.new.root ≡ listing.old.root }
    ensures entries { OnOk result (listing.new.entries ≡
        listing.old.entries ++ listed nodes.now (entry_in table.now node)) }
{
    match table.entry(node) {
        Some(triple) => listing.push(ListingEntry {
            option: triple.option,
            off: child_of(nodes, triple.off),
            on: child_of(nodes, triple.on),
        }),
        None => Ok(()),
    }
}

fn child_of(nodes: &Nodes, node: Node) -> Child
    ensures { result ≡ child_in nodes.now node }
{
    if node == FALSE {
        return Child::F;
    }
    if node == TRUE {
        return Child::T;
    }
    match nodes.place(node) {
        Some(index) => Child::At(index),
        None => Child::F,
    }
}
