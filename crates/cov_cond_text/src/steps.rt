// One line more of a conditional text.
ghost use Rattle.std.specs.Prelude.{◌≡◌, ◌<◌, ◌≤◌, ◌+◌, ◌^◌, [], ◌∷◌, Ok, false, true, length, IfOk, IfErr, OnOk};
ghost use Rattle.cov_base.specs.declared.limits.TheConstants.{MOST_PARTS};
ghost use Rattle.cov_expr.specs.Formula.{Not, part_count};
ghost use Rattle.cov_expr.specs.Reading.{parsed};
ghost use Rattle.cov_expr.specs.Naming.{bound_expression};
ghost use Rattle.cov_cond_text.specs.Reading.{after_if, after_else, after_end, after_directive, opened_if};
ghost use Rattle.cov_cond_text.specs.Readers.{state_of, done_of, weight, HasRoom, IsFaultOf, IsFurther};

use crate::CondFault;
use crate::reader::{Block, Reader};
use cov_base::Memory;
use cov_expr::{Expr, ExprFault, NameFault, Options, Part, RawExpr, parse};
use std::alloc::Global;

/// Takes a line that ends the innermost block.
pub(crate) fn close(reader: &mut Reader, line: u32) -> Result<(), CondFault>
    requires room { HasRoom reader.old }
    requires few { reader.old.directives + 1 < 2 ^ 32 }
    requires next { reader.old.runs.next ≤ reader.old.directives }
    ensures state { OnOk result (after_end line (state_of reader.old) (state_of reader.old).blocks ≡ Ok (state_of reader.new)) }
    ensures done { OnOk result (done_of reader.new ≡ done_of reader.old) }
    ensures room { OnOk result (HasRoom reader.new) }
    ensures further { OnOk result (IsFurther reader.old reader.new) }
    ensures next { OnOk result (reader.new.runs.next ≤ reader.new.directives) }
    ensures fault { IfErr result (IsFaultOf (after_end line (state_of reader.old) (state_of reader.old).blocks)) }
{
    match reader.pop() {
        Err(Memory) => Err(CondFault::Memory),
        Ok(None) => Err(CondFault::Syntax { line }),
        Ok(Some(_)) => {
            reader.count_directive();
            Ok(())
        }
    }
}

/// Takes a line that begins the other side of the innermost block.
pub(crate) fn turn(reader: &mut Reader, line: u32) -> Result<(), CondFault>
    requires room { HasRoom reader.old }
    requires few { reader.old.directives + 1 < 2 ^ 32 }
    requires next { reader.old.runs.next ≤ reader.old.directives }
    ensures state { OnOk result (after_else line (state_of reader.old) (state_of reader.old).blocks ≡ Ok (state_of reader.new)) }
    ensures done { OnOk result (done_of reader.new ≡ done_of reader.old) }
    ensures room { OnOk result (HasRoom reader.new) }
    ensures further { OnOk result (IsFurther reader.old reader.new) }
    ensures next { OnOk result (reader.new.runs.next ≤ reader.new.directives) }
    ensures fault { IfErr result (IsFaultOf (after_else line (state_of reader.old) (state_of reader.old).blocks)) }
{
    match reader.pop() {
        Err(Memory) => Err(CondFault::Memory),
        Ok(None) => Err(CondFault::Syntax { line }),
        Ok(Some(block)) => begin_other(reader, block, line),
    }
}

// Begins the other side of a block, which was taken out.
#[tactic(auto, using(crate::proofs::ReadSteps::turned_few))]
fn begin_other(reader: &mut Reader, block: Block, line: u32) -> Result<(), CondFault>
    requires room { HasRoom reader.old }
    requires fits { weight block ≤ reader.old.room }
    requires none { reader.old.texts ≡ [] }
    requires few { reader.old.directives + 1 < 2 ^ 32 }
    requires next { reader.old.runs.next ≤ reader.old.directives + 1 }
    ensures state { OnOk result (after_else line (state_of reader.old) (block ∷ (state_of reader.old).blocks) ≡ Ok (state_of reader.new)) }
    ensures done { OnOk result (done_of reader.new ≡ done_of reader.old) }
    ensures room { OnOk result (HasRoom reader.new) }
    ensures further { OnOk result (IsFurther reader.old reader.new) }
    ensures next { OnOk result (reader.new.runs.next ≤ reader.new.directives) }
    ensures fault { IfErr result (IsFaultOf (after_else line (state_of reader.old) (block ∷ (state_of reader.old).blocks))) }
{
    let Block {
        condition,
        has_else,
    } = block;
    if has_else {
        return Err(CondFault::Syntax { line });
    }
    if reader.room < condition.parts() + 2 {
        return Err(CondFault::TooLong { line });
    }
    match add_other(reader, condition) {
        Ok(()) => Ok(()),
        Err(Memory) => Err(CondFault::Memory),
    }
}

// Puts in the other side of a condition.
fn add_other(reader: &mut Reader, condition: Expr) -> Result<(), Memory>
    requires room { HasRoom reader.old }
    requires fits { part_count condition + 2 ≤ reader.old.room }
    requires none { reader.old.texts ≡ [] }
    requires few { reader.old.directives + 1 < 2 ^ 32 }
    requires next { reader.old.runs.next ≤ reader.old.directives + 1 }
    ensures state { OnOk result (state_of reader.new ≡ after_directive (state_of reader.old) (record { condition = Not condition; has_else = true } ∷ (state_of reader.old).blocks)) }
    ensures done { OnOk result (done_of reader.new ≡ done_of reader.old) }
    ensures room { OnOk result (HasRoom reader.new) }
    ensures further { OnOk result (IsFurther reader.old reader.new) }
    ensures next { OnOk result (reader.new.runs.next ≤ reader.new.directives) }
{
    let condition = negated(reader.alloc, condition)?;
    reader.push(Block {
        condition,
        has_else: true,
    })?;
    reader.count_directive();
    Ok(())
}

// The expression that is true where one isn't.
fn negated(alloc: Global, condition: Expr) -> Result<Expr, Memory>
    requires { part_count condition + 1 ≤ MOST_PARTS }
    ensures { IfOk result (λ expr. expr ≡ Not condition) }
{
    let part = Part::Not(Box::new(alloc, condition.into_part())?);
    match Expr::new(part) {
        Ok(expr) => Ok(expr),
        Err(_) => unreachable!(),
    }
}

/// Takes a line that opens a block on the choices on which an expression is true.
pub(crate) fn open(
    reader: &mut Reader,
    line: u32,
    expression: &[u8],
    options: &Options,
) -> Result<(), CondFault>
    requires short { length expression.now < 2 ^ 32 }
    requires room { HasRoom reader.old }
    requires few { reader.old.directives + 1 < 2 ^ 32 }
    requires next { reader.old.runs.next ≤ reader.old.directives }
    ensures state { OnOk result (after_if options.now.names line (state_of reader.old) (parsed expression.now) ≡ Ok (state_of reader.new)) }
    ensures done { OnOk result (done_of reader.new ≡ done_of reader.old) }
    ensures room { OnOk result (HasRoom reader.new) }
    ensures further { OnOk result (IsFurther reader.old reader.new) }
    ensures next { OnOk result (reader.new.runs.next ≤ reader.new.directives) }
    ensures fault { IfErr result (IsFaultOf (after_if options.now.names line (state_of reader.old) (parsed expression.now))) }
{
    match parse(reader.alloc, expression) {
        Err(ExprFault::Syntax { .. }) => Err(CondFault::Syntax { line }),
        Err(ExprFault::TooLong) => Err(CondFault::TooLong { line }),
        Err(ExprFault::Memory) => Err(CondFault::Memory),
        Ok(raw) => open_raw(reader, line, &raw, options),
    }
}

// Opens a block on an expression over names.
#[tactic(auto, using(crate::proofs::ReadSteps::open_few))]
fn open_raw(
    reader: &mut Reader,
    line: u32,
    raw: &RawExpr,
    options: &Options,
) -> Result<(), CondFault>
    requires room { HasRoom reader.old }
    requires few { reader.old.directives + 1 < 2 ^ 32 }
    requires next { reader.old.runs.next ≤ reader.old.directives }
    ensures state { OnOk result (after_if options.now.names line (state_of reader.old) (Ok raw.now) ≡ Ok (state_of reader.new)) }
    ensures done { OnOk result (done_of reader.new ≡ done_of reader.old) }
    ensures room { OnOk result (HasRoom reader.new) }
    ensures further { OnOk result (IsFurther reader.old reader.new) }
    ensures next { OnOk result (reader.new.runs.next ≤ reader.new.directives) }
    ensures fault { IfErr result (IsFaultOf (after_if options.now.names line (state_of reader.old) (Ok raw.now))) }
{
    if reader.room < raw.parts() + 1 {
        return Err(CondFault::TooLong { line });
    }
    open_bound(reader, line, raw, options)
}

// Opens a block on an expression over names for which there is room.
#[tactic(auto, using(crate::proofs::ReadSteps::parts_bound))]
fn open_bound(
    reader: &mut Reader,
    line: u32,
    raw: &RawExpr,
    options: &Options,
) -> Result<(), CondFault>
    requires room { HasRoom reader.old }
    requires fits { part_count raw.now + 1 ≤ reader.old.room }
    requires few { reader.old.directives + 1 < 2 ^ 32 }
    requires next { reader.old.runs.next ≤ reader.old.directives }
    ensures state { OnOk result (opened_if line (state_of reader.old) (bound_expression options.now.names raw.now) ≡ Ok (state_of reader.new)) }
    ensures done { OnOk result (done_of reader.new ≡ done_of reader.old) }
    ensures room { OnOk result (HasRoom reader.new) }
    ensures further { OnOk result (IsFurther reader.old reader.new) }
    ensures next { OnOk result (reader.new.runs.next ≤ reader.new.directives) }
    ensures fault { IfErr result (IsFaultOf (opened_if line (state_of reader.old) (bound_expression options.now.names raw.now))) }
{
    match raw.bind(reader.alloc, options) {
        Err(NameFault::UnknownOption { name }) => Err(CondFault::UnknownOption { line, name }),
        Err(NameFault::Memory) => Err(CondFault::Memory),
        Ok(condition) => match add_block(reader, condition) {
            Ok(()) => Ok(()),
            Err(Memory) => Err(CondFault::Memory),
        },
    }
}

// Opens a block with a condition.
fn add_block(reader: &mut Reader, condition: Expr) -> Result<(), Memory>
    requires room { HasRoom reader.old }
    requires fits { part_count condition + 1 ≤ reader.old.room }
    requires few { reader.old.directives + 1 < 2 ^ 32 }
    requires next { reader.old.runs.next ≤ reader.old.directives }
    ensures state { OnOk result (state_of reader.new ≡ after_directive (state_of reader.old) (record { condition = condition; has_else = false } ∷ (state_of reader.old).blocks)) }
    ensures done { OnOk result (done_of reader.new ≡ done_of reader.old) }
    ensures room { OnOk result (HasRoom reader.new) }
    ensures further { OnOk result (IsFurther reader.old reader.new) }
    ensures next { OnOk result (reader.new.runs.next ≤ reader.new.directives) }
{
    reader.end_run()?;
    reader.push(Block {
        condition,
        has_else: false,
    })?;
    reader.count_directive();
    Ok(())
}
