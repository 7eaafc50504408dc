// Lists of the product's own. Each keeps its allocator, and contracts see it as a list.
ghost use Rattle.std.specs.Prelude.{◌≡◌, ◌<◌, ◌≤◌, [], ◌∷◌, ◌++◌, ◌==◌, length, take, insert, nat_eq, slice_get, slice_set, OnOk, OnErr};
ghost use Rattle.std.specs.Fn.{CalledAt};
ghost use Rattle.std.specs.List.{list_any};
ghost use Rattle.std.specs.List.Retain.{IsFiltered};
ghost use Rattle.std.specs.Option.{option_copied};

use crate::{LineNo, Memory, NodeNo, Text};
use std::alloc::Global;
use std::marker::{Model, PhantomData};

/// A list of texts.
pub type Texts = List<Text>;

/// A list of numbers.
pub type Numbers = List<u64, ByValue>;

/// A list of line numbers.
pub type LineNos = List<LineNo, ByValue>;

/// A list of node numbers.
pub type NodeNos = List<NodeNo, ByValue>;

/// The way of a list that lends its items.
#[derive(Debug)]
pub struct ByReference;

/// The way of a list that answers its items by value, as one of numbers does.
#[derive(Debug)]
pub struct ByValue;

/// A list of items, which `get` answers in a way that the type names.
#[derive(Debug, Drop)]
pub struct List<T, Way = ByReference> {
    items: Vec<T>,
    way: PhantomData<Way>,
}

impl<T, Way> Model for List<T, Way> {
    ghost use Rattle.std.specs.Prelude.{List as Items};

    ghost Value = { Items T };

    ghost view = { λ l. l.items.items };
}

impl<T: Drop, Way> List<T, Way> {
    pub fn new(alloc: Global) -> Self
        ensures { result ≡ [] }
    {
        List {
            items: Vec::new(alloc),
            way: PhantomData,
        }
    }

    pub fn push(&mut self, item: T) -> Result<(), Memory>
        ensures ok { OnOk result (self.new ≡ self.old ++ item ∷ []) }
        ensures err { OnErr result (self.new ≡ self.old) }
    {
        self.items.push(item)?;
        Ok(())
    }

    /// Appends all the items or none.
    pub fn append(&mut self, items: Self) -> Result<(), Memory>
        ensures ok { OnOk result (self.new ≡ self.old ++ items) }
        ensures err { OnErr result (self.new ≡ self.old) }
    {
        let mut items = items;
        self.items.append(&mut items.items)?;
        Ok(())
    }

    /// Puts an item before the one at an index, or at the end.
    pub fn insert(&mut self, index: usize, item: T) -> Result<(), Memory>
        requires { index ≤ length self.old }
        ensures ok { OnOk result (self.new ≡ insert self.old index item) }
        ensures err { OnErr result (self.new ≡ self.old) }
    {
        self.items.insert(index, item)?;
        Ok(())
    }

    /// Puts an item in the place of another, without memory.
    pub fn set(&mut self, index: usize, item: T)
        requires { index < length self.old }
        ensures { self.new ≡ slice_set self.old index item }
    {
        self.items[index] = item;
    }

    /// Keeps the first items, `length` of them where there are as many, without memory.
    pub fn cut(&mut self, length: usize)
        ensures { self.new ≡ take length self.old }
    {
        self.items.truncate(length);
    }

    /// Takes out the items that aren't kept, without memory and in one pass.
    pub fn retain<F: FnMut(&T) -> bool>(&mut self, is_kept: F)
        requires { F.IsAlwaysCallable is_kept }
        ensures { IsFiltered (CalledAt F.FnMut) is_kept self.old self.new }
    {
        self.items.retain(is_kept);
    }

    pub fn len(&self) -> usize
        ensures { result ≡ length self.now }
    {
        self.items.len()
    }

    pub fn is_empty(&self) -> bool
        ensures { result ≡ (length self.now == 0) }
    {
        self.items.is_empty()
    }

    /// The items in order.
    pub fn as_slice(&self) -> &[T]
        ensures { result.now ≡ self.now }
    {
        self.items.as_slice()
    }

    /// The allocator that the list keeps.
    pub fn allocator(&self) -> Global {
        *self.items.allocator()
    }
}

impl<T: Drop> List<T, ByReference> {
    /// The item at an index, None exactly where the index isn't below the length.
    pub fn get(&self, index: usize) -> Option<&T>
        ensures { option_copied result ≡ slice_get self.now index }
    {
        self.items.get(index)
    }
}

impl<T: Copy> List<T, ByValue> {
    /// The item at an index, None exactly where the index isn't below the length.
    pub fn get(&self, index: usize) -> Option<T>
        ensures { result ≡ slice_get self.now index }
    {
        self.items.get(index).copied()
    }
}

impl Numbers {
    pub fn contains(&self, number: u64) -> bool
        ensures { result ≡ list_any (λ n. nat_eq n number) self.now }
    {
        self.items.contains(&number)
    }
}
