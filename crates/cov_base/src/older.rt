// Whole lists that later ones have replaced, by position.
ghost use Rattle.std.specs.Prelude.{◌≡◌, ◌<◌, [], ◌∷◌, length, reverse, nat_le, OnOk};
ghost use Rattle.std.specs.List.{find};
ghost use Rattle.std.specs.Option.{option_copied};
ghost use Rattle.cov_base.specs.Older.{value_at, IsReplaced};

use crate::{Memory, Position};
use std::alloc::Global;
use std::marker::Model;
use std::mem;

/// A whole list from a position on.
#[derive(Drop)]
pub struct OlderList<T> {
    from: Position,
    items: Vec<T>,
}

impl<T> Model for OlderList<T> {
    ghost use Rattle.std.specs.Prelude.{List, ℕ};

    ghost Value = { ℕ × List T };

    ghost view = { λ l. (l.from, l.items.items) };
}

impl<T: Drop> OlderList<T> {
    pub fn as_slice(&self) -> &[T]
        ensures { result.now ≡ self.now.1 }
    {
        self.items.as_slice()
    }
}

/// Whole lists by position, each from its own on. Their positions rise.
#[derive(Drop)]
pub struct OlderLists<T> {
    lists: Vec<OlderList<T>>,
}

impl<T> Model for OlderLists<T> {
    ghost use Rattle.std.specs.Prelude.{◌-◌, reverse, vec_len, vec_capacity};
    ghost use Rattle.cov_base.specs.Older.{Older, older_code};

    ghost Value = { Older T };

    ghost coded = { older_code T.code };

    ghost view = { λ o. record {
      lists = reverse o.lists.items;
      room = vec_capacity o.lists - vec_len o.lists;
    } };
}

impl<T: Drop> OlderLists<T> {
    pub fn new(alloc: Global) -> OlderLists<T>
        ensures { result.lists ≡ [] }
    {
        OlderLists {
            lists: Vec::new(alloc),
        }
    }

    /// Makes room for a list.
    pub fn reserve(&mut self) -> Result<(), Memory>
        ensures same { self.new.lists ≡ self.old.lists }
        ensures room { OnOk result (0 < self.new.room) }
    {
        self.lists.reserve(1)?;
        Ok(())
    }

    /// Puts a list behind the others. It takes no memory.
    pub fn push(&mut self, from: Position, items: Vec<T>)
        requires room { 0 < self.old.room }
        ensures { self.new.lists ≡ (from, items.items) ∷ self.old.lists }
    {
        self.lists.push_reserved(OlderList { from, items });
    }

    /// The lists, the oldest first.
    pub fn as_slice(&self) -> &[OlderList<T>]
        ensures { reverse result.now ≡ self.now.lists }
    {
        self.lists.as_slice()
    }

    /// Puts other items into the list at an index, from 0 for the oldest, and answers those that it had. It takes no memory.
    pub fn replace(&mut self, index: usize, items: Vec<T>) -> Vec<T>
        requires { index < length self.old.lists }
        ensures lists { IsReplaced self.old.lists self.new.lists index items.items result.items }
        ensures room { self.new.room ≡ self.old.room }
    {
        mem::replace(&mut self.lists[index].items, items)
    }

    /// The newest list not beyond a position, an empty one where all are.
    pub fn at(&self, position: Position) -> &[T]
        ensures { result.now ≡ value_at [] self.now.lists position }
    {
        match newest_until(&self.lists, position) {
            Some(list) => list.items.as_slice(),
            None => &[],
        }
    }
}

// The last of rising lists that isn't beyond a position.
fn newest_until<T>(lists: &[OlderList<T>], position: Position) -> Option<&OlderList<T>>
    ensures { option_copied result ≡ find (λ l. nat_le l.0 position) (reverse lists.now) }
{
    lists.iter().rev().find(|list| list.from <= position)
}
