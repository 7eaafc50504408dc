// The lines of a source, which is read to its end before anything is done with them.
ghost use Rattle.std.specs.Prelude.{◌≡◌, ◌<◌, ◌≤◌, ◌++◌, ◌∷◌, List, ℕ, Some, None, [], true, option_map, IfOk, OnOk, IfErr, IsOk};
ghost use Rattle.cov_base.specs.Lines.{lines_of};
ghost use Rattle.cov_import.specs.Sources.{StopsAt, StopsReading, TakesNext, kept_lines, read_of, source_counts};
ghost use Rattle.cov_io.specs.Progress.{CountsGiven, potential};
ghost use Rattle.cov_loop.specs.Counts.{Counted};
ghost use Rattle.cov_loop.specs.Turns.{ahead_of};

use cov_base::{Memory, Text, Texts};
use cov_io::{Item, LineFault, Lines, Source};
use std::alloc::Global;

/// Reads a source to its end. The lines are kept in order, each without its end, or none where some line, whatever the others are, has more
/// than `MOST_SCRIPT_LINE_BYTES` bytes. `TooMuch` comes where the source gave `TOO_MANY_SCRIPT_BYTES` bytes and its end wasn't met.
pub fn read_source<S: Source>(alloc: Global, source: &mut S) -> Result<Option<Texts>, LineFault>
    ensures lines { (text : List ℕ) → S.left source.old ≡ Some text →
        IfOk result (λ lines. lines ≡ kept_lines (lines_of text)) }
    ensures read { (text : List ℕ) → S.left source.old ≡ Some text →
        OnOk result (S.left source.new ≡ Some []) }
    ensures later { S.faults source.old ≤ S.faults source.new }
    ensures left { CountsGiven (S.left source.old) (S.left source.new)
        (S.given source.old) (S.given source.new) }
    ensures stopped { IfErr result (λ fault. StopsReading fault
        (source_counts (S.faults source.old) (S.given source.old) (S.ends source.old))
        (source_counts (S.faults source.new) (S.given source.new) (S.ends source.new))) }
{
    match Lines::new(alloc) {
        Ok(mut lines) => {
            let mut kept = Some(Texts::new(alloc));
            let read = take_all(&mut kept, &mut lines, source);
            as_read(kept, read)
        }
        Err(Memory) => Err(LineFault::Memory),
    }
}

// What was kept, if all was read.
fn as_read(kept: Option<Texts>, read: Result<(), LineFault>) -> Result<Option<Texts>, LineFault>
    ensures { result ≡ read_of kept read }
{
    match read {
        Ok(()) => Ok(kept),
        Err(fault) => Err(fault),
    }
}

// Takes the lines that are ahead, to the end of the source.
fn take_all<S: Source>(
    kept: &mut Option<Texts>,
    lines: &mut Lines,
    source: &mut S,
) -> Result<(), LineFault>
    ensures kept { (text : List ℕ) (before : List (List ℕ)) →
        ahead_of lines.old (S.left source.old) ≡ Some text → kept.old ≡ kept_lines before →
        OnOk result
        ((kept.new ≡ kept_lines (before ++ lines_of text)) × (S.left source.new ≡ Some [])) }
    ensures counted { Counted lines.old lines.new
        (source_counts (S.faults source.old) (S.given source.old) (S.ends source.old))
        (source_counts (S.faults source.new) (S.given source.new) (S.ends source.new)) }
    ensures left { CountsGiven (S.left source.old) (S.left source.new)
        (S.given source.old) (S.given source.new) }
    ensures stopped { IfErr result (λ fault. StopsAt fault lines.new
        (source_counts (S.faults source.old) (S.given source.old) (S.ends source.old))
        (source_counts (S.faults source.new) (S.given source.new) (S.ends source.new))) }
{
    'taking: loop {
        match take_next(kept, lines, source) {
            Ok(more) => match more {
                true => {}
                false => return Ok(()),
            },
            Err(fault) => return Err(fault),
        }
    }
}

// Takes the next line, if there is one.
fn take_next<S: Source>(
    kept: &mut Option<Texts>,
    lines: &mut Lines,
    source: &mut S,
) -> Result<bool, LineFault>
    ensures takes { (text : List ℕ) → ahead_of lines.old (S.left source.old) ≡ Some text →
        IfOk result (TakesNext text kept.old kept.new (ahead_of lines.new (S.left source.new))) }
    ensures counted { Counted lines.old lines.new
        (source_counts (S.faults source.old) (S.given source.old) (S.ends source.old))
        (source_counts (S.faults source.new) (S.given source.new) (S.ends source.new)) }
    ensures left { CountsGiven (S.left source.old) (S.left source.new)
        (S.given source.old) (S.given source.new) }
    ensures stopped { IfErr result (λ fault. StopsAt fault lines.new
        (source_counts (S.faults source.old) (S.given source.old) (S.ends source.old))
        (source_counts (S.faults source.new) (S.given source.new) (S.ends source.new))) }
    ensures falls { IfOk result (λ more. more ≡ true → potential lines.new < potential lines.old) }
{
    match lines.next(source) {
        Ok(Item::Line(line)) => as_more(keep(kept, line)),
        Ok(Item::Long) => {
            keep_none(kept);
            Ok(true)
        }
        Ok(Item::End) => Ok(false),
        Err(fault) => Err(fault),
    }
}

fn as_more(kept: Result<(), Memory>) -> Result<bool, LineFault>
    ensures ok { IfOk result (λ more. (more ≡ true) × IsOk kept) }
    ensures err { IfErr result (λ fault. fault ≡ LineFault.Memory) }
{
    match kept {
        Ok(()) => Ok(true),
        Err(Memory) => Err(LineFault::Memory),
    }
}

// Keeps one line more, unless none is kept.
fn keep(kept: &mut Option<Texts>, line: Text) -> Result<(), Memory>
    ensures { OnOk result (kept.new ≡ option_map (λ lines. lines ++ line ∷ []) kept.old) }
{
    match kept {
        Some(lines) => lines.push(line),
        None => Ok(()),
    }
}

// Keeps no line any more.
fn keep_none(kept: &mut Option<Texts>)
    ensures { kept.new ≡ None }
{
    *kept = None;
}
