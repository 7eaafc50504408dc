// The options that are declared.
ghost use Rattle.std.specs.Prelude.{◌≡◌, ◌<◌, ◌≤◌, ◌+◌, ◌++◌, [], ◌∷◌, Some, false, true, length, position, slice_get, is_some, IfSome, IsOk, OnOk};
ghost use Rattle.std.specs.List.{list_all, IsDistinct};
ghost use Rattle.std.specs.Str.{bytes_eq};
ghost use Rattle.cov_base.specs.Spelling.{is_option_name};
ghost use Rattle.cov_base.specs.declared.limits.TheConstants.{CHOICE_WIDTH};
ghost use Rattle.cov_expr.specs.Options.{is_declared, option_name};

use cov_base::{Memory, OptionId, OptionName};
use indexmap::IndexSet;
use std::alloc::Global;
use std::marker::Model;

/// The options of a product line, at most `CHOICE_WIDTH` of them, numbered from 0 in order of declaration.
#[derive(Drop)]
pub struct Options {
    names: IndexSet<Vec<u8>>,
}

impl Model for Options {
    ghost use Rattle.std.specs.Prelude.{◌≡◌, ◌≤◌, true, length, map};
    ghost use Rattle.std.specs.List.{list_all};
    ghost use Rattle.cov_base.specs.declared.limits.TheConstants.{CHOICE_WIDTH};
    ghost use Rattle.indexmap.specs.IndexSet.{spare};
    ghost use Rattle.cov_base.specs.Spelling.{is_option_name};
    ghost use Rattle.cov_expr.specs.Options.{Declared};

    ghost Value = { Declared };

    ghost view = { λ o. record {
      names = map (λ name. name.items) o.names.keys;
      spare = spare o.names;
    } };

    ghost invariant = { λ o. (length o.names.keys ≤ CHOICE_WIDTH) ×
        (list_all (λ name. is_option_name name.items) o.names.keys ≡ true) };
}

impl Options {
    pub fn new(alloc: Global) -> Options
        ensures { result.names ≡ [] }
    {
        Options {
            names: IndexSet::new(alloc),
        }
    }

    /// How many options there are.
    pub fn count(&self) -> u8
        ensures count { result ≡ length self.now.names }
        ensures most { result ≤ CHOICE_WIDTH }
        ensures spelt { list_all is_option_name self.now.names ≡ true }
        ensures distinct { IsDistinct bytes_eq self.now.names }
    {
        self.names.len() as u8
    }

    /// The option that has the name, None exactly where none has it. It takes no memory.
    pub fn find(&self, name: &[u8]) -> Option<OptionId>
        ensures found { result ≡ position (bytes_eq name.now) self.now.names }
        ensures declared { is_some result ≡ is_declared self.now.names name.now }
        ensures within { IfSome result (λ option. option < length self.now.names) }
        ensures named { IfSome result (λ option. slice_get self.now.names option ≡ Some name.now) }
    {
        match self.names.get_index_of(name) {
            None => None,
            Some(index) => Some(OptionId::new(index as u8)),
        }
    }

    /// The name of an option.
    pub fn name(&self, option: OptionId) -> &[u8]
        requires { option < length self.now.names }
        ensures bytes { result.now ≡ option_name self.now.names option }
        ensures there { slice_get self.now.names option ≡ Some result.now }
    {
        self.names.as_slice()[option.number() as usize].as_slice()
    }

    /// Makes room for one option more.
    pub fn reserve(&mut self) -> Result<(), Memory>
        ensures names { self.new.names ≡ self.old.names }
        ensures room { OnOk result (0 < self.new.spare) }
        ensures succeeds { 0 < self.old.spare → IsOk result }
    {
        self.names.reserve(1)?;
        Ok(())
    }

    /// Declares an option, for which room was made. It takes no memory.
    pub fn declare(&mut self, name: OptionName) -> OptionId
        requires fresh { is_declared self.old.names name ≡ false }
        requires below { length self.old.names < CHOICE_WIDTH }
        requires room { 0 < self.old.spare }
        ensures names { self.new.names ≡ self.old.names ++ name ∷ [] }
        ensures number { result ≡ length self.old.names }
        ensures spare { self.old.spare ≤ self.new.spare + 1 }
    {
        let number = self.names.len() as u8;
        match self.names.insert(name.into_vec()) {
            Ok(_) => OptionId::new(number),
            Err(_) => unreachable!(),
        }
    }
}
