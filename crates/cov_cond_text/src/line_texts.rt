// Texts that a file's lines can have.
ghost use Rattle.std.specs.Prelude.{◌≡◌, ◌==◌, [], ◌∷◌, ◌++◌, true, length, OnOk, OnErr};
ghost use Rattle.std.specs.List.{list_all};
ghost use Rattle.cov_base.specs.Spelling.{is_line_text};

use cov_base::{Memory, Text, Texts};
use std::alloc::Global;
use std::marker::Model;

/// Texts, each with at most `MOST_TEXT_BYTES` bytes and no byte 10. Contracts see it as the list of them.
#[derive(Drop)]
pub struct LineTexts {
    texts: Texts,
}

impl Model for LineTexts {
    ghost use Rattle.std.specs.Prelude.{◌≡◌, ℕ, List, true};
    ghost use Rattle.std.specs.List.{list_all};
    ghost use Rattle.cov_base.specs.Spelling.{is_line_text};

    ghost Value = { List (List ℕ) };

    ghost view = { λ t. t.texts };

    ghost invariant = { λ t. list_all is_line_text t.texts ≡ true };
}

impl LineTexts {
    pub(crate) fn new(alloc: Global) -> LineTexts
        ensures { result ≡ [] }
    {
        LineTexts {
            texts: Texts::new(alloc),
        }
    }

    pub(crate) fn push(&mut self, text: Text) -> Result<(), Memory>
        requires { is_line_text text ≡ true }
        ensures ok { OnOk result (self.new ≡ self.old ++ text ∷ []) }
        ensures err { OnErr result (self.new ≡ self.old) }
    {
        self.texts.push(text)
    }

    pub fn is_empty(&self) -> bool
        ensures { result ≡ (length self.now == 0) }
    {
        self.texts.is_empty()
    }

    /// The texts in order.
    pub fn as_slice(&self) -> &[Text]
        ensures texts { result.now ≡ self.now }
        ensures spelt { list_all is_line_text self.now ≡ true }
    {
        self.texts.as_slice()
    }
}
