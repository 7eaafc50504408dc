// The conditional text that lines spell.
ghost use Rattle.std.specs.Prelude.{◌≡◌, ◌<◌, ◌≤◌, ◌+◌, ◌^◌, [], Ok, Err, length, IfOk, IfErr, OnOk};
ghost use Rattle.std.specs.List.{sum_by};
ghost use Rattle.cov_cond_text.specs.Conditional.{IsCondText};
ghost use Rattle.cov_cond_text.specs.Reading.{form_of, after_line, nothing_read, read_text};
ghost use Rattle.cov_cond_text.specs.Readers.{state_of, done_of, line_size, HasRoom, IsFaultOf, Takes};
ghost use Rattle.cov_cond_text.specs.declared.fault.CondFault.TheVariants as faults;

use crate::form::{Form, form_of};
use crate::reader::Reader;
use crate::steps::{close, open, turn};
use crate::{CondFault, CondText};
use cov_base::{Memory, Text, Texts};
use cov_expr::Options;
use std::alloc::Global;

// Takes one line more. The number of a line is from 1.
fn take_line(
    reader: &mut Reader,
    number: usize,
    line: &[u8],
    options: &Options,
) -> Result<(), CondFault>
    requires short { number + length line.now ≤ 2 ^ 32 }
    requires room { HasRoom reader.old }
    requires few { reader.old.directives < number }
    requires next { reader.old.runs.next ≤ reader.old.directives }
    ensures takes { OnOk result (Takes options.now.names number line.now reader.old reader.new) }
    ensures room { OnOk result (HasRoom reader.new) }
    ensures next { OnOk result (reader.new.runs.next ≤ reader.new.directives) }
    ensures fault { IfErr result (IsFaultOf (after_line options.now.names number (state_of reader.old) (form_of line.now))) }
{
    match form_of(line) {
        Form::Text(text) => match reader.take_text(text) {
            Ok(()) => Ok(()),
            Err(Memory) => Err(CondFault::Memory),
        },
        Form::If(expression) => open(reader, number as u32, expression, options),
        Form::Else => turn(reader, number as u32),
        Form::End => close(reader, number as u32),
        Form::Fault => Err(CondFault::Syntax {
            line: number as u32,
        }),
    }
}

// Takes the lines in order; behind the last one no block may be open.
fn take_all(reader: &mut Reader, lines: &[Text], options: &Options) -> Result<(), CondFault>
    requires size { sum_by line_size lines.now ≤ 2 ^ 32 }
    requires fresh { state_of reader.old ≡ nothing_read }
    requires none { done_of reader.old ≡ [] }
    requires room { HasRoom reader.old }
    requires next { reader.old.runs.next ≤ reader.old.directives }
    ensures room { OnOk result (HasRoom reader.new) }
    ensures next { OnOk result (reader.new.runs.next ≤ reader.new.directives) }
    ensures read { OnOk result (read_text options.now.names lines.now ≡ Ok (done_of reader.new)) }
    ensures fault { IfErr result (IsFaultOf (read_text options.now.names lines.now)) }
{
    let mut ahead = lines;
    let mut number: usize = 1;
    while let [line, rest @ ..] = ahead {
        match take_line(reader, number, line.as_slice(), options) {
            Ok(()) => (),
            Err(fault) => return Err(fault),
        }
        ahead = rest;
        number += 1;
    }
    if reader.blocks.is_empty() {
        return Ok(());
    }
    Err(CondFault::Syntax {
        line: number as u32,
    })
}

/// The conditional text that lines spell. `Syntax`, `TooLong` and `UnknownOption` come by the first line at fault, in this order;
/// `Syntax` for the line after the last where a block is open at the end. It takes time in the lines, and for each directive in
/// the conditions that are open.
#[tactic(auto, using(crate::proofs::Fitting::read_fits))]
pub fn read(alloc: Global, lines: &Texts, options: &Options) -> Result<CondText, CondFault>
    requires { sum_by line_size lines.now ≤ 2 ^ 32 }
    ensures text { IfOk result (λ text. read_text options.now.names lines.now ≡ Ok text) }
    ensures fits { IfOk result (λ text. IsCondText (length options.now.names) text) }
    ensures fault { IfErr result (IsFaultOf (read_text options.now.names lines.now)) }
{
    let mut reader = Reader::new(alloc);
    match take_all(&mut reader, lines.as_slice(), options) {
        Ok(()) => finish(reader),
        Err(fault) => give_up(reader, fault),
    }
}

// The text that was read.
fn finish(mut reader: Reader) -> Result<CondText, CondFault>
    requires room { HasRoom reader }
    requires next { reader.runs.next ≤ reader.directives }
    ensures text { IfOk result (λ text. text ≡ done_of reader) }
    ensures fault { IfErr result (λ fault. fault ≡ faults.Memory) }
{
    match reader.end_run() {
        Ok(()) => Ok(as_text(reader)),
        Err(Memory) => give_up(reader, CondFault::Memory),
    }
}

// The runs of a reader that keeps no texts besides.
fn as_text(reader: Reader) -> CondText
    requires { reader.texts ≡ [] }
    ensures { result ≡ done_of reader }
{
    let Reader { runs, .. } = reader;
    CondText::new(runs)
}

// Closes a reader, and answers the fault.
fn give_up(_: Reader, fault: CondFault) -> Result<CondText, CondFault>
    ensures { result ≡ Err fault }
{
    Err(fault)
}
