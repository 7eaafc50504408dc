// A conditional text while it is read.
ghost use Rattle.std.specs.Prelude.{◌≡◌, ◌<◌, ◌≤◌, ◌+◌, ◌^◌, ◌++◌, ◌∷◌, [], true, length, map, IfOk, IfNone, IfSome, OnOk, OnSome};
ghost use Rattle.std.specs.List.{sum_by};
ghost use Rattle.cov_base.specs.Spelling.{is_line_text};
ghost use Rattle.cov_base.specs.declared.limits.TheConstants.{MOST_PARTS};
ghost use Rattle.cov_cond_text.specs.Reading.{nothing_read, line_read, after_directive};
ghost use Rattle.cov_cond_text.specs.Readers.{state_of, done_of, condition_in, weight, HasRoom, IsFurther};

use crate::run::{Run, Runs};
use crate::{Conditions, LineTexts};
use cov_base::{List, MOST_PARTS, Memory, Text};
use cov_expr::Expr;
use std::alloc::Global;
use std::mem;

/// An open block.
#[derive(Drop)]
pub(crate) struct Block {
    /// What is true in it now.
    pub(crate) condition: Expr,
    /// Whether its other side was begun.
    pub(crate) has_else: bool,
}

/// What was read of a conditional text.
#[derive(Drop)]
pub(crate) struct Reader {
    pub(crate) alloc: Global,
    pub(crate) runs: Runs,
    /// The texts since the last directive.
    pub(crate) texts: LineTexts,
    /// From outside inwards.
    pub(crate) blocks: Vec<Block>,
    /// How many parts more the conditions of open blocks may have, each with one for the `&` before it.
    pub(crate) room: u32,
    pub(crate) directives: u32,
}

impl Reader {
    pub(crate) fn new(alloc: Global) -> Reader
        ensures state { state_of result ≡ nothing_read }
        ensures done { done_of result ≡ [] }
        ensures room { HasRoom result }
        ensures next { result.runs.next ≤ result.directives }
    {
        Reader {
            alloc,
            runs: Runs::new(alloc),
            texts: LineTexts::new(alloc),
            blocks: Vec::new(alloc),
            room: MOST_PARTS + 1,
            directives: 0,
        }
    }

    /// Takes a text that isn't a directive.
    pub(crate) fn take_text(&mut self, text: &[u8]) -> Result<(), Memory>
        requires spelt { is_line_text text.now ≡ true }
        requires room { HasRoom self.old }
        requires next { self.old.runs.next ≤ self.old.directives }
        ensures done { OnOk result (done_of self.new ≡ done_of self.old ++ line_read (state_of self.old) text.now ∷ []) }
        ensures state { OnOk result (state_of self.new ≡ state_of self.old) }
        ensures blocks { OnOk result (self.new.blocks ≡ self.old.blocks) }
        ensures room { OnOk result (HasRoom self.new) }
        ensures next { OnOk result (self.new.runs.next ≤ self.new.directives) }
    {
        let text = Text::from_slice(self.alloc, text)?;
        self.texts.push(text)
    }

    /// Ends the run of the texts since the last directive.
    pub(crate) fn end_run(&mut self) -> Result<(), Memory>
        requires room { HasRoom self.old }
        requires next { self.old.runs.next ≤ self.old.directives }
        ensures done { OnOk result (done_of self.new ≡ done_of self.old) }
        ensures none { OnOk result (self.new.texts ≡ []) }
        ensures blocks { OnOk result (self.new.blocks ≡ self.old.blocks) }
        ensures room { OnOk result (self.new.room ≡ self.old.room) }
        ensures directives { OnOk result (self.new.directives ≡ self.old.directives) }
        ensures next { OnOk result (self.new.runs.next ≤ self.new.directives + 1) }
    {
        if self.texts.is_empty() {
            return Ok(());
        }
        let conditions = conditions_of(self.alloc, self.blocks.as_slice())?;
        let texts = mem::replace(&mut self.texts, LineTexts::new(self.alloc));
        self.runs.push(Run {
            group: self.directives,
            conditions,
            texts,
        })?;
        Ok(())
    }

    /// Puts a block into the others that are open; no text was taken since the last directive.
    #[tactic(auto, using(crate::proofs::ReadSteps::pushed_blocks, crate::proofs::ReadSteps::pushed_room, crate::proofs::ReadSteps::done_without))]
    pub(crate) fn push(&mut self, block: Block) -> Result<(), Memory>
        requires room { HasRoom self.old }
        requires fits { weight block ≤ self.old.room }
        requires none { self.old.texts ≡ [] }
        requires next { self.old.runs.next ≤ self.old.directives + 1 }
        ensures done { OnOk result (done_of self.new ≡ done_of self.old) }
        ensures none { OnOk result (self.new.texts ≡ []) }
        ensures blocks { OnOk result ((state_of self.new).blocks ≡ block ∷ (state_of self.old).blocks) }
        ensures directives { OnOk result (self.new.directives ≡ self.old.directives) }
        ensures more { OnOk result (length self.new.blocks.items ≡ length self.old.blocks.items + 1) }
        ensures room { OnOk result (HasRoom self.new) }
        ensures next { OnOk result (self.new.runs.next ≤ self.new.directives + 1) }
    {
        let parts = block.condition.parts();
        self.blocks.push(block)?;
        self.room -= parts + 1;
        Ok(())
    }

    /// Ends the run of the texts since the last directive and takes out the innermost block; None where none is open.
    #[tactic(auto, using(crate::proofs::ReadSteps::popped_blocks, crate::proofs::ReadSteps::popped_room, crate::proofs::ReadSteps::none_open, crate::proofs::ReadSteps::done_without))]
    pub(crate) fn pop(&mut self) -> Result<Option<Block>, Memory>
        requires room { HasRoom self.old }
        requires next { self.old.runs.next ≤ self.old.directives }
        ensures none { IfOk result (λ block. IfNone block ((state_of self.old).blocks ≡ [])) }
        ensures blocks { IfOk result (λ block. IfSome block (λ b. (state_of self.old).blocks ≡ b ∷ (state_of self.new).blocks)) }
        ensures done { IfOk result (λ block. OnSome block (done_of self.new ≡ done_of self.old)) }
        ensures texts { IfOk result (λ block. OnSome block (self.new.texts ≡ [])) }
        ensures directives { IfOk result (λ block. OnSome block (self.new.directives ≡ self.old.directives)) }
        ensures room { IfOk result (λ block. OnSome block (HasRoom self.new)) }
        ensures next { IfOk result (λ block.
            OnSome block (self.new.runs.next ≤ self.new.directives + 1)) }
        ensures fits { IfOk result (λ block. IfSome block (λ b. weight b ≤ self.new.room)) }
        ensures fewer { IfOk result (λ block. OnSome block (length self.old.blocks.items ≡ length self.new.blocks.items + 1)) }
    {
        self.end_run()?;
        match self.blocks.pop() {
            None => Ok(None),
            Some(block) => {
                self.room += block.condition.parts() + 1;
                Ok(Some(block))
            }
        }
    }

    /// Counts a directive; no text was taken since the last one.
    #[tactic(auto, using(crate::proofs::ReadSteps::done_without))]
    pub(crate) fn count_directive(&mut self)
        requires few { self.old.directives + 1 < 2 ^ 32 }
        requires none { self.old.texts ≡ [] }
        requires room { HasRoom self.old }
        requires next { self.old.runs.next ≤ self.old.directives + 1 }
        ensures done { done_of self.new ≡ done_of self.old }
        ensures state { state_of self.new ≡ after_directive (state_of self.old) (state_of self.old).blocks }
        ensures further { IsFurther self.old self.new }
        ensures blocks { self.new.blocks ≡ self.old.blocks }
        ensures room { HasRoom self.new }
        ensures next { self.new.runs.next ≤ self.new.directives }
    {
        self.directives += 1;
    }
}

// The conditions of blocks.
#[tactic(auto, using(crate::proofs::ReadSteps::few_parts))]
fn conditions_of(alloc: Global, blocks: &[Block]) -> Result<Conditions, Memory>
    requires { sum_by weight blocks.now ≤ MOST_PARTS + 1 }
    ensures { IfOk result (λ conditions. conditions ≡ map condition_in blocks.now) }
{
    Ok(Conditions::new(copy_conditions(alloc, blocks)?))
}

fn copy_conditions(alloc: Global, blocks: &[Block]) -> Result<List<Expr>, Memory>
    ensures { IfOk result (λ conditions. conditions ≡ map condition_in blocks.now) }
{
    let mut conditions = List::new(alloc);
    for block in blocks {
        conditions.push(block.condition.copy(alloc)?)?;
    }
    Ok(conditions)
}
