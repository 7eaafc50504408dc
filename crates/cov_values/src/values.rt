// Values of nodes on a choice.
ghost use Rattle.std.specs.Prelude.{◌≡◌, [], ℕ, Bool, None, true, IfOk, OnOk, IfSome};
ghost use Rattle.std.specs.List.{AllByRecursion};
ghost use Rattle.cov_values.specs.declared.values.Evaluated.{Evaluated};
ghost use Rattle.cov_values.specs.Replaced.{IsReplacedTo, IsValuedBefore};
ghost use Rattle.cov_values.specs.Values.{on_choice, Agrees, IsKnown, IsNotValued, IsOther};

use crate::replacing::Replacements;
use cov_base::{Choice, Memory};
use cov_dd::{FALSE, Node, Table};
use std::alloc::Global;
use std::marker::Model;

/// Of how many nodes values are known at most, and how many nodes are replaced at most.
pub const MOST_VALUES: usize = 64;

/// A node with its value on a choice.
#[derive(Clone, Copy)]
pub struct Evaluated {
    node: Node,
    value: bool,
}

/// Nodes with the values that they have on some choice, where FALSE is false. They are gone through one by one, so they are to
/// be few: what many lines or files are shown by is mostly one of few nodes. Contracts see them in the order in which they came.
#[derive(Drop)]
pub struct Values {
    each: Vec<Evaluated>,
}

impl Model for Values {
    ghost use Rattle.std.specs.Prelude.{List};
    ghost use Rattle.cov_values.specs.Values.{HaveValues};
    ghost use Rattle.cov_values.specs.declared.values.Evaluated.{Evaluated};

    ghost Value = { List Evaluated };

    ghost view = { λ v. v.each.items };

    ghost invariant = { λ v. HaveValues v.each.items };
}

impl Values {
    /// No value is known but that of FALSE.
    pub fn new(alloc: Global) -> Values
        ensures { result ≡ [] }
    {
        Values {
            each: Vec::new(alloc),
        }
    }

    /// The value of a node, None where it isn't known.
    pub fn get(&self, node: Node) -> Option<bool>
        ensures known { IfSome result (IsKnown self.now node) }
        ensures unknown { result ≡ None → IsNotValued self.now node }
    {
        if node == FALSE {
            return Some(false);
        }
        found(self.each.as_slice(), node)
    }

    /// Whether a node is known to be true.
    pub fn is_true(&self, node: Node) -> bool
        ensures { result ≡ true → IsKnown self.now node true }
    {
        match self.get(node) {
            Some(value) => value,
            None => false,
        }
    }

    /// The value of a node, which is known then. Its diagram is walked only where it wasn't. It is refused where as many values
    /// are known as may be, as want of memory is.
    pub fn evaluate(&mut self, node: Node, table: &Table, choice: Choice) -> Result<bool, Memory>
        ensures value { IfOk result (IsKnown self.new node) }
        ensures grows { (f : ℕ → Bool) → Agrees f self.new → Agrees f self.old }
        ensures on_choice { Agrees (on_choice table.now choice) self.old →
            Agrees (on_choice table.now choice) self.new }
    {
        match self.get(node) {
            Some(value) => Ok(value),
            None => {
                let value = table.value(node, choice);
                self.add(node, value)?;
                Ok(value)
            }
        }
    }

    // Whether a node has a value from now on: it hasn't where it has the other one, or where there is no room.
    fn put(&mut self, node: Node, value: bool) -> bool
        ensures value { result ≡ true → IsKnown self.new node value }
        ensures grows { (f : ℕ → Bool) → Agrees f self.new → Agrees f self.old }
    {
        match self.get(node) {
            Some(known) => is_same(known, value),
            None => match self.add(node, value) {
                Ok(()) => true,
                Err(_) => false,
            },
        }
    }

    fn add(&mut self, node: Node, value: bool) -> Result<(), Memory>
        requires { IsNotValued self.old node }
        ensures value { OnOk result (IsKnown self.new node value) }
        ensures grows { (f : ℕ → Bool) → Agrees f self.new → Agrees f self.old }
        ensures more { (f : ℕ → Bool) → f node ≡ value → Agrees f self.old → Agrees f self.new }
    {
        if self.each.len() >= MOST_VALUES {
            return Err(Memory);
        }
        self.each.push(Evaluated { node, value })?;
        Ok(())
    }

    /// Whether all nodes have these values on a choice. It walks the diagram of each, up to the first that hasn't.
    pub fn agree(&self, table: &Table, choice: Choice) -> bool
        ensures { result ≡ true → Agrees (on_choice table.now choice) self.now }
    {
        agree(self.each.as_slice(), table, choice)
    }

    /// The values of the nodes that take the places of these; those that none replaces are left out. None where two nodes with two
    /// values would become one, or where there is no room.
    pub fn renumbered(&self, by: &Replacements) -> Option<Values>
        ensures { IfSome result (λ values. (f : ℕ → Bool) → Agrees f values →
            IsValuedBefore by.now f self.now) }
    {
        let mut values = Values::new(*self.each.allocator());
        let mut ahead = self.each.as_slice();
        while let [first, rest @ ..] = ahead {
            if !put_replaced(&mut values, *first, by) {
                return None;
            }
            ahead = rest;
        }
        Some(values)
    }
}

// Gives what takes the place of a node the value of the node, if something does. Whether it has that value then.
fn put_replaced(values: &mut Values, evaluated: Evaluated, by: &Replacements) -> bool
    ensures value { result ≡ true → (f : ℕ → Bool) → Agrees f values.new →
        IsReplacedTo by.now f evaluated }
    ensures grows { (f : ℕ → Bool) → Agrees f values.new → Agrees f values.old }
{
    match by.get(evaluated.node) {
        Some(node) => values.put(node, evaluated.value),
        None => true,
    }
}

fn is_same(one: bool, other: bool) -> bool
    ensures { result ≡ true → one ≡ other }
{
    one == other
}

// The value of a node that is among these.
fn found(values: &[Evaluated], node: Node) -> Option<bool>
    ensures known { IfSome result (IsKnown values.now node) }
    ensures unknown { result ≡ None → AllByRecursion (IsOther node) values.now }
{
    let mut ahead = values;
    while let [first, rest @ ..] = ahead {
        if first.node == node {
            return Some(first.value);
        }
        ahead = rest;
    }
    None
}

// Whether nodes have these values on a choice. It walks the diagram of each node, up to the first that hasn't.
fn agree(values: &[Evaluated], table: &Table, choice: Choice) -> bool
    ensures { result ≡ true → Agrees (on_choice table.now choice) values.now }
{
    let mut ahead = values;
    while let [first, rest @ ..] = ahead {
        if !has_value(first, table, choice) {
            return false;
        }
        ahead = rest;
    }
    true
}

// Whether a node has its value on a choice.
fn has_value(evaluated: &Evaluated, table: &Table, choice: Choice) -> bool
    ensures { result ≡ true →
        on_choice table.now choice evaluated.now.node ≡ evaluated.now.value }
{
    let value = table.value(evaluated.node, choice);
    value == evaluated.value
}
