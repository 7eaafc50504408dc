// The visibilities of places, listed and renumbered.
ghost use Rattle.std.specs.Prelude.{◌≡◌, ◌<◌, ◌≤◌, ◌+◌, ◌++◌, length, reverse, take, drop, OnOk};
ghost use Rattle.cov_tree.specs.Renumbered.{all_numbers, list_visibilities, list_without_vis, visibilities_at, AllGet, GetsAt};

use crate::entry::Place;
use cov_base::{Memory, OlderList, OlderLists};
use cov_dd::{Node, Nodes, append_nodes, renumber_nodes};
use std::alloc::Global;

/// Appends the visibilities of whole lists of places.
pub(crate) fn append_lists(lists: &[OlderList<Place>], into: &mut Nodes) -> Result<(), Memory>
    ensures ok { OnOk result (into.new ≡ into.old ++ all_numbers list_visibilities lists.now) }
    ensures front { take (length into.old) into.new ≡ into.old }
{
    let mut ahead = lists;
    while let [list, rest @ ..] = ahead {
        append_nodes(list.as_slice(), into)?;
        ahead = rest;
    }
    Ok(())
}

/// Gives older places the visibilities of a list from a place on, the oldest first. It answers the place after the last.
pub(crate) fn renumber_lists(
    older: &mut OlderLists<Place>,
    alloc: Global,
    from: &[Node],
    first: u64,
) -> u64
    requires { first + length (all_numbers list_visibilities (reverse older.old.lists)) ≤
        length from.now }
    ensures next { result ≡
        first + length (all_numbers list_visibilities (reverse older.old.lists)) }
    ensures lists { AllGet list_visibilities list_without_vis (reverse older.old.lists)
        (reverse older.new.lists) (drop first from.now) }
    ensures room { older.new.room ≡ older.old.room }
{
    let mut next = first;
    let mut index = 0;
    while index < older.as_slice().len() {
        next = renumber_list(older, alloc, index, from, next);
        index += 1;
    }
    next
}

// Gives the places of the list at an index those of a list from a place on.
fn renumber_list(
    older: &mut OlderLists<Place>,
    alloc: Global,
    index: usize,
    from: &[Node],
    first: u64,
) -> u64
    requires index { index < length older.old.lists }
    requires room { first + length (visibilities_at index older.old.lists) ≤ length from.now }
    ensures next { result ≡ first + length (visibilities_at index older.old.lists) }
    ensures list { GetsAt index older.old.lists older.new.lists (drop first from.now) }
    ensures room { older.new.room ≡ older.old.room }
{
    let mut places = older.replace(index, Vec::new(alloc));
    let next = renumber_nodes(&mut places, from, first);
    older.replace(index, places);
    next
}
