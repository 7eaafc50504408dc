// The order of the lines of one file, for all choices at once.
ghost use Rattle.std.specs.Prelude.{◌≡◌, ◌<◌, ◌≤◌, ◌-◌, [], true, false, OnOk, OnErr, IfOk};
ghost use Rattle.cov_base.specs.Addresses.{after_anchor};
ghost use Rattle.cov_order.specs.Orders.{has_line, is_anchor, AreLines};

use crate::pages::Pages;
use cov_base::{LineNo, LineNos, Memory};
use std::alloc::Global;
use std::marker::Model;

/// The lines that were ever inserted into a file, in order. Contracts see it as the list of their numbers, each of
/// them once, and the number of lines for which there is room.
#[derive(Drop)]
pub struct Order {
    pages: Pages,
    room: u32,
}

impl Model for Order {
    ghost use Rattle.cov_order.specs.Orders.{Ordered};
    ghost use Rattle.cov_order.specs.Pages.{lines_of, IsPaged, HasRoom};

    ghost Value = { Ordered };

    ghost view = { λ o. record { lines = lines_of o.pages; spare = o.room } };

    ghost invariant = { λ o. IsPaged o.pages × HasRoom o.pages o.room };
}

impl Order {
    pub fn new(alloc: Global) -> Order
        ensures { result.lines ≡ [] }
    {
        Order {
            pages: Pages::new(alloc),
            room: 0,
        }
    }

    /// Makes room for at least `n` more lines.
    pub fn reserve(&mut self, n: u32) -> Result<(), Memory>
        ensures same { self.new.lines ≡ self.old.lines }
        ensures room { OnOk result (n ≤ self.new.spare) }
        ensures kept { OnErr result (self.new.spare ≡ self.old.spare) }
    {
        self.pages.reserve(n)?;
        self.room = n;
        Ok(())
    }

    /// Puts a line directly after its anchor, or first where the anchor is the head. It takes time in the number of lines of a
    /// page and now and then, where one is split, in the number of pages, and no memory.
    pub fn insert_after(&mut self, anchor: LineNo, line: LineNo)
        requires anchored { is_anchor anchor self.old.lines ≡ true }
        requires line { 0 < line }
        requires fresh { has_line line self.old.lines ≡ false }
        requires room { 0 < self.old.spare }
        ensures lines { self.new.lines ≡ after_anchor anchor line self.old.lines }
        ensures spare { self.new.spare ≡ self.old.spare - 1 }
    {
        self.pages.insert_after(anchor, line);
        self.room -= 1;
    }

    /// Does nothing; it tells that no line stands twice.
    pub fn lines_are_once(&self)
        ensures { AreLines self.now.lines }
    {
        // Names the pages, since their invariant tells it.
        let _pages = &self.pages;
    }

    /// The lines in order.
    pub fn walk(&self) -> Result<LineNos, Memory>
        ensures lines { IfOk result (λ lines. lines ≡ self.now.lines) }
        ensures once { AreLines self.now.lines }
    {
        self.pages.walk()
    }
}
