// What is kept of what is shown, each with the values of nodes under which it is right.
ghost use Rattle.std.specs.Prelude.{◌≡◌, ◌<◌, ℕ, Bool, List, [], true, Some, length, slice_get, IfSome};
ghost use Rattle.std.specs.Option.{option_map};
ghost use Rattle.cov_values.specs.Sights.{AreRight, IsChanged, IsRenumbered, IsRight};
ghost use Rattle.cov_values.specs.Values.{on_choice, Agrees};
ghost use Rattle.cov_values.specs.declared.sights.Sight.{Sight};
ghost use Rattle.cov_values.specs.declared.values.Evaluated.{Evaluated};

use crate::replacing::Replacements;
use crate::values::Values;
use cov_base::{Choice, Shared};
use cov_dd::{Node, Table};
use std::alloc::Global;
use std::marker::Model;

/// How many sights are kept.
const MOST_KEPT: usize = 8;

/// What is shown where certain nodes have certain values, as they have on a choice; None once it was let go. What many lines or files
/// are shown by is mostly one of few nodes, so these are few.
#[derive(Drop)]
pub struct Sight<T> {
    pub choice: Choice,
    pub values: Values,
    pub shown: Option<Shared<T>>,
}

/// A change of what is shown. A sight before it brings one after it, where the nodes of the sight have certain values.
pub trait ShownChange<T> {
    ghost brings: { Self → List Evaluated → T → T → Type 0 };

    /// What is shown after the change, None where that isn't known by the values or where it can't be made.
    fn after(&self, shown: Shared<T>, values: &Values) -> Option<Shared<T>>
        ensures { IfSome result (brings self.now values.now shown) };
}

impl<T: Drop> Sight<T> {
    // One more owner of what is shown, None where it was let go or its owners can't be counted.
    fn share(&self) -> Option<Shared<T>>
        ensures { IfSome result (λ more. self.now.shown ≡ Some more) }
    {
        match &self.shown {
            Some(shown) => match shown.share() {
                Ok(more) => Some(more),
                Err(_) => None,
            },
            None => None,
        }
    }

    fn renumber(&mut self, by: &Replacements)
        ensures { (before after : (ℕ → Bool) → T) → IsRenumbered by.now before after →
            IsRight before self.old → IsRight after self.new }
    {
        match self.values.renumbered(by) {
            Some(values) => self.values = values,
            None => self.shown = None,
        }
    }

    fn note(&mut self, table: &Table, node: Node)
        ensures { (shows : (ℕ → Bool) → T) → IsRight shows self.old → IsRight shows self.new }
    {
        match self.values.evaluate(node, table, self.choice) {
            Ok(_) => (),
            Err(_) => self.shown = None,
        }
    }

    fn change<C: ShownChange<T>>(&mut self, change: &C)
        ensures { (before after : (ℕ → Bool) → T) → IsChanged (C.brings change.now) before after →
            IsRight before self.old → IsRight after self.new }
    {
        match self.shown.take() {
            Some(shown) => self.shown = change.after(shown, &self.values),
            None => (),
        }
    }
}

/// The sights that are kept of something. The one that was right last is asked first. Once one couldn't be kept, none is until they
/// are let go or the nodes are renumbered.
pub struct Sights<T> {
    kept: Vec<Sight<T>>,
    last: usize,
    is_stopped: bool,
}

impl<T> Model for Sights<T> {
    ghost use Rattle.std.specs.Prelude.{List};
    ghost use Rattle.cov_values.specs.declared.sights.Sight.{Sight};

    ghost Value = { List (Sight T) };

    ghost view = { λ s. s.kept.items };
}

// They are dropped by a call, so that whoever drops what they are kept of needn't know what is kept of it.
impl<T: Drop> Drop for Sights<T> {
    fn drop(self) {
        let Sights {
            kept,
            last,
            is_stopped,
        } = self;
        drop((last, is_stopped));
        drop(kept);
    }
}

impl<T: Drop> Sights<T> {
    /// None is kept.
    pub fn new(alloc: Global) -> Sights<T>
        ensures { result ≡ [] }
    {
        Sights {
            kept: Vec::new(alloc),
            last: 0,
            is_stopped: false,
        }
    }

    /// What is shown on a choice, None where no sight that is kept is right there. It evaluates the nodes of sights, of each up to the
    /// first that has another value.
    pub fn find(&self, table: &Table, choice: Choice) -> Option<Shared<T>>
        ensures { IfSome result (λ shown. (shows : (ℕ → Bool) → T) → AreRight shows self.now →
            shows (on_choice table.now choice) ≡ shown) }
    {
        match self.place(table, choice) {
            Some(at) => self.share(at),
            None => None,
        }
    }

    // One more owner of what the sight at a place shows, None where it was let go or its owners can't be counted.
    fn share(&self, at: usize) -> Option<Shared<T>>
        ensures { IfSome result (λ shown. option_map (λ s. s.shown) (slice_get self.now at) ≡
            Some (Some shown)) }
    {
        match self.kept.get(at) {
            Some(sight) => sight.share(),
            None => None,
        }
    }

    // Where a sight is that is right on a choice.
    fn place(&self, table: &Table, choice: Choice) -> Option<usize>
        ensures within { IfSome result (λ at. at < length self.now) }
        ensures agrees { IfSome result (λ at. (s : Sight T) → slice_get self.now at ≡ Some s →
            Agrees (on_choice table.now choice) s.values) }
    {
        if self.fits(self.last, table, choice) {
            return Some(self.last);
        }
        let mut at = 0;
        while at < self.kept.len() {
            if self.fits(at, table, choice) {
                return Some(at);
            }
            at += 1;
        }
        None
    }

    // Whether there is a sight at a place that wasn't let go, and the nodes have its values on a choice.
    fn fits(&self, at: usize, table: &Table, choice: Choice) -> bool
        ensures within { result ≡ true → at < length self.now }
        ensures agrees { result ≡ true → (s : Sight T) → slice_get self.now at ≡ Some s →
            Agrees (on_choice table.now choice) s.values }
    {
        match self.kept.get(at) {
            Some(sight) => sight.shown.is_some() && sight.values.agree(table, choice),
            None => false,
        }
    }

    /// Whether no sight is right on a choice, and one may be kept. If one is right, it is the one that is asked first from now on.
    pub fn wants(&mut self, table: &Table, choice: Choice) -> bool
        ensures { self.new ≡ self.old }
    {
        match self.place(table, choice) {
            Some(at) => {
                self.last = at;
                false
            }
            None => !self.is_stopped,
        }
    }

    /// Keeps a sight more, in the place of one that was let go or, where there are as many as may be, of the next one. It is asked
    /// first from now on, and passed over where there is no memory.
    pub fn keep(&mut self, sight: Sight<T>)
        ensures { (shows : (ℕ → Bool) → T) → AreRight shows self.old → IsRight shows sight →
            AreRight shows self.new }
    {
        let at = self.place_for_more();
        self.last = at;
        if at < self.kept.len() {
            self.kept[at] = sight;
            return;
        }
        match self.kept.push(sight) {
            Ok(()) => (),
            Err(_) => self.stop_keeping(),
        }
    }

    // The place of a sight that was let go, else one behind the others or, where there are as many as may be, the next one.
    fn place_for_more(&self) -> usize {
        let mut at = 0;
        while at < self.kept.len() {
            if self.kept[at].shown.is_none() {
                return at;
            }
            at += 1;
        }
        if at < MOST_KEPT {
            return at;
        }
        self.last.wrapping_add(1) % MOST_KEPT
    }

    /// Keeps no sight more until they are let go or the nodes are renumbered.
    pub fn stop_keeping(&mut self)
        ensures { self.new ≡ self.old }
    {
        self.is_stopped = true;
    }

    /// Whether there is none.
    pub fn is_empty(&self) -> bool
        ensures { result ≡ true → self.now ≡ [] }
    {
        self.kept.is_empty()
    }

    /// Lets the sights go. It takes no memory.
    pub fn let_go(&mut self)
        ensures { self.new ≡ [] }
    {
        self.kept.clear();
        self.is_stopped = false;
    }

    /// Has each sight go with nodes that take the places of those that it goes with, or lets it go.
    pub fn renumber(&mut self, by: &Replacements)
        ensures { (before after : (ℕ → Bool) → T) → IsRenumbered by.now before after →
            AreRight before self.old → AreRight after self.new }
    {
        let mut index = 0;
        while index < self.kept.len() {
            self.kept[index].renumber(by);
            index += 1;
        }
        self.is_stopped = false;
    }

    /// Has the value of a node with each sight, as what is shown is about to get it. A sight for which there is no memory is let go.
    pub fn note(&mut self, table: &Table, node: Node)
        ensures { (shows : (ℕ → Bool) → T) → AreRight shows self.old → AreRight shows self.new }
    {
        let mut index = 0;
        while index < self.kept.len() {
            self.kept[index].note(table, node);
            index += 1;
        }
    }

    /// Brings each sight forward by a change of what is shown, or lets it go.
    pub fn change<C: ShownChange<T>>(&mut self, change: &C)
        ensures { (before after : (ℕ → Bool) → T) → IsChanged (C.brings change.now) before after →
            AreRight before self.old → AreRight after self.new }
    {
        let mut index = 0;
        while index < self.kept.len() {
            self.kept[index].change(change);
            index += 1;
        }
    }
}
