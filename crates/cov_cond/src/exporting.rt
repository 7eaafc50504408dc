// A file as conditional text.
ghost use Rattle.std.specs.Prelude.{◌≡◌, ◌++◌, ◌∷◌, [], false, true, length, map, Ok, None, IfOk, IfErr, OnOk};
ghost use Rattle.std.specs.List.{AllByRecursion};
ghost use Rattle.cov_edit.specs.History.{option_count, options_of};
ghost use Rattle.cov_vis.specs.declared.listing.Child.TheVariants.{F, T};
ghost use Rattle.cov_vis.specs.Listings.{has_options_below, same_child};
ghost use Rattle.cov_engine.specs.Visibility.{IsVisibilityOf, is_no_line, presence_of};
ghost use Rattle.cov_cond.specs.Exporting.{exported, text_line, IsExportFaultOf};
ghost use Rattle.cov_cond.specs.Writing.{end_of, goes_on, listing_of_run, present_row, with_line, writing, written, IsGoing, IsPresence};

use crate::ExportFault;
use crate::enclosing::if_line;
use crate::open_run::{OpenRun, end_run, has_node};
use cov_base::{FileRow, Memory, MemoryOr, NodeNo, Text, Texts};
use cov_dd::Node;
use cov_engine::{Engine, NoSuchLine};
use cov_vis::{Child, Listing};
use std::alloc::Global;

/// The lines of a file with all its variants: those that some choice has, in their order, each run of neighbours with one listing bare
/// where all choices have it, and else between an `#if` of the listing's expression and an `#endif`. A text that begins with `#` has one
/// more before it. `TooLong` comes exactly where such an expression has more than `MOST_TOKENS` tokens, and names the first line of
/// that kind. It takes time in the lines ever inserted into the file, and for each of them that isn't visible as the last one written is
/// in the nodes below its visibility.
pub fn export(alloc: Global, engine: &Engine, file: NodeNo) -> Result<Texts, ExportFault>
    ensures lines { IfOk result (λ lines. exported engine.now.history file ≡ Ok lines) }
    ensures fault { IfErr result (IsExportFaultOf (exported engine.now.history file)) }
{
    let Ok(rows) = engine.file_lines(file) else {
        return Err(ExportFault::Memory);
    };
    export_rows(alloc, engine, rows.as_slice())
}

fn export_rows(alloc: Global, engine: &Engine, rows: &[FileRow]) -> Result<Texts, ExportFault>
    requires { AllByRecursion (λ r. is_no_line engine.now.history r.line ≡ false) rows.now }
    ensures lines { IfOk result (λ lines. written (options_of engine.now.history)
        (writing engine.now.history [] None) (map (present_row engine.now.history) rows.now)
        ≡ Ok lines) }
    ensures fault { IfErr result (IsExportFaultOf (written (options_of engine.now.history)
        (writing engine.now.history [] None) (map (present_row engine.now.history) rows.now))) }
{
    let mut lines = Texts::new(alloc);
    match write_rows(engine, rows, &mut lines) {
        Ok(()) => Ok(lines),
        Err(fault) => Err(fault),
    }
}

// Writes the lines of a file behind others.
fn write_rows(engine: &Engine, rows: &[FileRow], lines: &mut Texts) -> Result<(), ExportFault>
    requires { AllByRecursion (λ r. is_no_line engine.now.history r.line ≡ false) rows.now }
    ensures lines { OnOk result (written (options_of engine.now.history)
        (writing engine.now.history lines.old None)
        (map (present_row engine.now.history) rows.now) ≡ Ok lines.new) }
    ensures fault { IfErr result (IsExportFaultOf (written (options_of engine.now.history)
        (writing engine.now.history lines.old None)
        (map (present_row engine.now.history) rows.now))) }
{
    let mut run = None;
    let mut ahead = rows;
    while let [row, rest @ ..] = ahead {
        match write_row(engine, run, row, lines) {
            Ok(next) => run = next,
            Err(fault) => return Err(fault),
        }
        ahead = rest;
    }
    match end_run(run, lines) {
        Ok(()) => Ok(()),
        Err(Memory) => Err(ExportFault::Memory),
    }
}

// Writes a line where the run that goes on is told, and answers the run that goes on then.
fn write_row(
    engine: &Engine,
    run: Option<OpenRun>,
    row: &FileRow,
    lines: &mut Texts,
) -> Result<Option<OpenRun>, ExportFault>
    requires line { is_no_line engine.now.history row.now.line ≡ false }
    requires run { IsGoing engine.now.history engine.now.table run }
    ensures lines { IfOk result (λ next. with_line (options_of engine.now.history)
        (writing engine.now.history lines.old run) (present_row engine.now.history row.now)
        ≡ Ok (writing engine.now.history lines.new next)) }
    ensures run { IfOk result (IsGoing engine.now.history engine.now.table) }
    ensures fault { IfErr result (IsExportFaultOf (with_line (options_of engine.now.history)
        (writing engine.now.history lines.old run) (present_row engine.now.history row.now))) }
{
    let Some(node) = engine.vis(row.line) else {
        unreachable!()
    };
    if has_node(engine.table(), &run, node) {
        return match write_more(run, row, lines) {
            Ok(next) => Ok(next),
            Err(Memory) => Err(ExportFault::Memory),
        };
    }
    write_other(engine, run, row, node, lines)
}

// Writes a line of the run that goes on.
fn write_more(
    run: Option<OpenRun>,
    row: &FileRow,
    lines: &mut Texts,
) -> Result<Option<OpenRun>, Memory>
    ensures run { IfOk result (λ next. next ≡ run) }
    ensures lines { OnOk result (lines.new ≡ lines.old ++ text_line row.now.text ∷ []) }
{
    write_text(&row.text, lines)?;
    Ok(run)
}

// Writes a line whose node isn't that of the run that goes on.
fn write_other(
    engine: &Engine,
    run: Option<OpenRun>,
    row: &FileRow,
    node: Node,
    lines: &mut Texts,
) -> Result<Option<OpenRun>, ExportFault>
    requires line { is_no_line engine.now.history row.now.line ≡ false }
    requires run { IsGoing engine.now.history engine.now.table run }
    requires node { IsVisibilityOf engine.now.history engine.now.table row.now.line node }
    requires other { IsPresence engine.now.history row.now.line →
        goes_on (listing_of_run engine.now.history run)
        (presence_of engine.now.history row.now.line) ≡ false }
    ensures lines { IfOk result (λ next. with_line (options_of engine.now.history)
        (writing engine.now.history lines.old run) (present_row engine.now.history row.now)
        ≡ Ok (writing engine.now.history lines.new next)) }
    ensures run { IfOk result (IsGoing engine.now.history engine.now.table) }
    ensures fault { IfErr result (IsExportFaultOf (with_line (options_of engine.now.history)
        (writing engine.now.history lines.old run) (present_row engine.now.history row.now))) }
{
    match engine.presence(row.line) {
        Ok(listing) => write_listed(engine, run, row, node, &listing, lines),
        Err(MemoryOr::Memory) => Err(ExportFault::Memory),
        Err(MemoryOr::Refused(NoSuchLine)) => unreachable!(),
    }
}

// Writes a line with its listing, which isn't that of the run that goes on.
fn write_listed(
    engine: &Engine,
    run: Option<OpenRun>,
    row: &FileRow,
    node: Node,
    listing: &Listing,
    lines: &mut Texts,
) -> Result<Option<OpenRun>, ExportFault>
    requires run { IsGoing engine.now.history engine.now.table run }
    requires node { IsVisibilityOf engine.now.history engine.now.table row.now.line node }
    requires listing { listing.now ≡ presence_of engine.now.history row.now.line }
    requires options { has_options_below (option_count engine.now.history) listing.now ≡ true }
    requires presence { IsPresence engine.now.history row.now.line }
    requires other { goes_on (listing_of_run engine.now.history run)
        (presence_of engine.now.history row.now.line) ≡ false }
    ensures lines { IfOk result (λ next. with_line (options_of engine.now.history)
        (writing engine.now.history lines.old run) (present_row engine.now.history row.now)
        ≡ Ok (writing engine.now.history lines.new next)) }
    ensures run { IfOk result (IsGoing engine.now.history engine.now.table) }
    ensures fault { IfErr result (IsExportFaultOf (with_line (options_of engine.now.history)
        (writing engine.now.history lines.old run) (present_row engine.now.history row.now))) }
{
    match listing.root() {
        Child::F => Ok(run),
        Child::T => match begin_bare(run, row, lines) {
            Ok(()) => Ok(Some(OpenRun {
                node,
                line: row.line,
                is_bare: true,
            })),
            Err(Memory) => Err(ExportFault::Memory),
        },
        Child::At(_) => write_enclosed(engine, run, row, node, listing, lines),
    }
}

// Writes a line that some choices have and others don't, with which a run begins.
fn write_enclosed(
    engine: &Engine,
    run: Option<OpenRun>,
    row: &FileRow,
    node: Node,
    listing: &Listing,
    lines: &mut Texts,
) -> Result<Option<OpenRun>, ExportFault>
    requires run { IsGoing engine.now.history engine.now.table run }
    requires node { IsVisibilityOf engine.now.history engine.now.table row.now.line node }
    requires listing { listing.now ≡ presence_of engine.now.history row.now.line }
    requires options { has_options_below (option_count engine.now.history) listing.now ≡ true }
    requires presence { IsPresence engine.now.history row.now.line }
    requires other { goes_on (listing_of_run engine.now.history run)
        (presence_of engine.now.history row.now.line) ≡ false }
    requires somewhere { same_child listing.now.root F ≡ false }
    requires enclosed { same_child listing.now.root T ≡ false }
    ensures lines { IfOk result (λ next. with_line (options_of engine.now.history)
        (writing engine.now.history lines.old run) (present_row engine.now.history row.now)
        ≡ Ok (writing engine.now.history lines.new next)) }
    ensures run { IfOk result (IsGoing engine.now.history engine.now.table) }
    ensures fault { IfErr result (IsExportFaultOf (with_line (options_of engine.now.history)
        (writing engine.now.history lines.old run) (present_row engine.now.history row.now))) }
{
    match if_line(engine.options(), listing) {
        Ok(Some(line)) => match begin_enclosed(run, row, line, lines) {
            Ok(()) => Ok(Some(OpenRun {
                node,
                line: row.line,
                is_bare: false,
            })),
            Err(Memory) => Err(ExportFault::Memory),
        },
        Ok(None) => Err(ExportFault::TooLong { line: row.line }),
        Err(Memory) => Err(ExportFault::Memory),
    }
}

// Ends the run that goes on, and writes the first line of one that all choices have.
fn begin_bare(run: Option<OpenRun>, row: &FileRow, lines: &mut Texts) -> Result<(), Memory>
    ensures { OnOk result (lines.new ≡ lines.old ++ (end_of run ++ text_line row.now.text ∷ [])) }
{
    end_run(run, lines)?;
    write_text(&row.text, lines)
}

// Ends the run that goes on, and writes the first line of one behind the line that is to stand before it.
fn begin_enclosed(
    run: Option<OpenRun>,
    row: &FileRow,
    if_line: Text,
    lines: &mut Texts,
) -> Result<(), Memory>
    ensures { OnOk result (lines.new ≡ lines.old ++
        (end_of run ++ if_line ∷ text_line row.now.text ∷ [])) }
{
    end_run(run, lines)?;
    lines.push(if_line)?;
    write_text(&row.text, lines)
}

// Writes a text as a line.
fn write_text(text: &Text, lines: &mut Texts) -> Result<(), Memory>
    ensures { OnOk result (lines.new ≡ lines.old ++ text_line text.now ∷ []) }
{
    lines.push(line_of(text)?)
}

// A text as a line: with one more `#` before it, if it begins with one.
fn line_of(text: &Text) -> Result<Text, Memory>
    ensures { IfOk result (λ line. line ≡ text_line text.now) }
{
    if text.get(0) != Some(b'#') {
        return text.copy();
    }
    let mut line = Text::from_slice(text.allocator(), b"#")?;
    line.append(text.as_slice())?;
    Ok(line)
}
