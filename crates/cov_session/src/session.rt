// A session that is open.
ghost use Rattle.std.specs.Prelude.{◌≡◌, ◌<◌, ◌≤◌, ◌+◌, ◌-◌, ◌^◌, List, ℕ, [], ◌∷◌, ◌++◌, true, false, length, nat_lt, Ok, None, Some, IfOk, IfErr, OnOk, OnErr};
ghost use Rattle.std.specs.List.{fold, list_all};
ghost use Rattle.cov_base.specs.Addresses.{IsTable};
ghost use Rattle.cov_base.specs.Spelling.{is_line_text};
ghost use Rattle.cov_base.specs.declared.number.LineRef.TheVariants.{Old};
ghost use Rattle.cov_base.specs.declared.limits.TheConstants.{MOST_TEXT_BYTES};
ghost use Rattle.cov_dd.specs.Diagrams.{Extends};
ghost use Rattle.cov_expr.specs.Formula.{True, reach, value};
ghost use Rattle.cov_edit.specs.EditFits.{has_line_text};
ghost use Rattle.cov_edit.specs.History.{option_count, first_false_in, text_bytes, edit_bytes};
ghost use Rattle.cov_edit.specs.Numbering.{Numbers};
ghost use Rattle.cov_edit.specs.Variant.{Variant, edited};
ghost use Rattle.cov_edit.specs.declared.command.Command.{Command as AnyCommand};
ghost use Rattle.cov_edit.specs.declared.edit.Edit.{Edit as AnyEdit};
ghost use Rattle.cov_edit.specs.declared.edit.Edit.TheVariants as edits;
ghost use Rattle.cov_edit.specs.declared.sided.Sided.{Sided as AnySided};
ghost use Rattle.cov_view.specs.References.{is_head};
ghost use Rattle.cov_view.specs.Refusals.{refusal};
ghost use Rattle.cov_view.specs.Seen.{seen_fault};
ghost use Rattle.cov_view.specs.Views.{Shows, table_after, next_by_number};
ghost use Rattle.cov_history.specs.Sessions.{commit_of, edits_of};
ghost use Rattle.cov_session.specs.Adding.{IsAdditionFault, addition_fault, on_side, with_edits};
ghost use Rattle.cov_session.specs.Counting.{line_made, own_lines};
ghost use Rattle.cov_session.specs.Open.{IsOpen, as_named};
ghost use Rattle.cov_session.specs.Opening.{IsOpeningFault, NamesDeclared, new_session, opened};
ghost use Rattle.cov_session.specs.Siding.{side_fault, with_side};

mod refreshing;

use crate::SessionFault;
use crate::siding::{everywhere, first_late};
use crate::viewing::view_now;
use cov_base::{Choice, Kind, LIMITS, LineRef, Memory, Name, NodeRef, Position, Text};
use cov_edit::{Command, Edit, Edits, Sided};
use cov_engine::Engine;
use cov_expr::{Expr, Partial};
use cov_history::kept_laws::holding_stands;
use cov_history::laws::{open_options_are_declared, replay_stands};
use cov_view::{EditFault, View, is_head};
use std::alloc::Global;
use std::marker::Model;

/// Edits on the variant of a choice at a base, made within an ambition and each with its side, with the view that they make of
/// it.
#[derive(Drop)]
pub struct OpenSession {
    name: Name,
    base: Position,
    choice: Choice,
    ambition: Expr,
    // The side of the edits that follow.
    side: Expr,
    edits: Edits,
    view: View,
    // The bytes of text that the edits insert.
    bytes: usize,
}

impl Model for OpenSession {
    ghost use Rattle.std.specs.Coded.{codes, coded_ℕ};
    ghost use Rattle.cov_expr.specs.Formula.{formula_code};
    ghost use Rattle.cov_edit.specs.Sides.{unsided};
    ghost use Rattle.cov_edit.specs.contracts.sided.Sided as sided_row;
    ghost use Rattle.cov_view.specs.contracts.row.ViewRow as view_row;
    ghost use Rattle.cov_session.specs.Counting.{IsCounted};
    ghost use Rattle.cov_session.specs.Open.{SessionValue};

    ghost Value = { SessionValue };

    ghost coded = { Prim.hlevel (codes, formula_code coded_ℕ, sided_row.the_row.coded, view_row.the_row.coded) };

    ghost view = { λ s. record {
      name = s.name;
      side = s.side;
      session = record {
        base = s.base;
        choice = s.choice;
        ambition = s.ambition;
        edits = s.edits;
      };
      view = s.view;
    } };

    ghost invariant = { λ s. IsCounted s.view (unsided s.edits) s.bytes };
}

impl OpenSession {
    /// Opens a session within an ambition, on the choice to which the rules complete a partial one. `Invalid`, `Incomplete`
    /// and `OutsideAmbition` come in this order, exactly where the completion and the ambition's value say so.
    /// It takes time in the rows and lines that the engine keeps.
    pub fn open(
        alloc: Global,
        engine: &mut Engine,
        name: Name,
        partial: &Partial,
        ambition: Expr,
    ) -> Result<OpenSession, SessionFault>
        requires options { list_all (λ b. nat_lt b.0 (option_count engine.old.history))
            partial.now ≡ true }
        requires ambition { reach ambition ≤ option_count engine.old.history }
        ensures history { engine.new.history ≡ engine.old.history }
        ensures extends { Extends engine.old.table engine.new.table }
        ensures name { IfOk result (λ s. s.name ≡ name) }
        ensures side { IfOk result (λ s. s.side ≡ True) }
        ensures opened { IfOk result (λ s.
            opened engine.old.history partial.now ambition ≡ Ok s.session) }
        ensures open { IfOk result (IsOpen engine.old.history) }
        ensures refused { IfErr result (λ fault.
            IsOpeningFault fault (opened engine.old.history partial.now ambition)) }
        ensures declared { IfErr result (NamesDeclared (option_count engine.old.history)) }
    {
        open_options_are_declared();
        let choice = engine.complete(partial)?;
        if !ambition.value(choice) {
            return Err(SessionFault::OutsideAmbition);
        }
        engine.bring_forward(choice);
        Ok(OpenSession::begin(alloc, engine, name, choice, ambition)?)
    }

    // Begins a session now, on a choice within its ambition that meets the constraints.
    fn begin(
        alloc: Global,
        engine: &Engine,
        name: Name,
        choice: Choice,
        ambition: Expr,
    ) -> Result<OpenSession, Memory>
        requires count { length choice ≡ option_count engine.now.history }
        requires ambition { reach ambition ≤ option_count engine.now.history }
        requires valid { first_false_in engine.now.history choice ≡ None }
        requires inside { value ambition choice ≡ true }
        ensures name { IfOk result (λ s. s.name ≡ name) }
        ensures side { IfOk result (λ s. s.side ≡ True) }
        ensures begun { IfOk result (λ s.
            s.session ≡ new_session engine.now.history ambition choice) }
        ensures open { IfOk result (IsOpen engine.now.history) }
    {
        let view = view_now(engine, choice)?;
        Ok(OpenSession {
            name,
            base: engine.position(),
            choice,
            ambition,
            side: everywhere(),
            edits: Edits::new(alloc),
            view,
            bytes: 0,
        })
    }

    /// The position at which it was opened.
    pub fn base(&self) -> Position
        ensures { result ≡ self.now.session.base }
    {
        self.base
    }

    /// The choice on whose variant it works.
    pub fn choice(&self) -> Choice
        ensures { result ≡ self.now.session.choice }
    {
        self.choice
    }

    /// How many lines it has inserted.
    pub fn own_lines(&self) -> u32
        ensures { result ≡ own_lines self.now.session }
    {
        self.view.lines_made()
    }

    /// The number of the line that an edit inserts, from 0 among those of the session.
    pub(crate) fn line_made(&self, edit: &Edit) -> Option<u32>
        ensures { result ≡ line_made self.now.session edit.now }
    {
        match edit {
            Edit::New { .. }
            | Edit::Delete { .. }
            | Edit::Rename { .. }
            | Edit::Move { .. }
            | Edit::Remove { .. } => None,
            Edit::Insert { .. } => Some(self.own_lines()),
        }
    }

    /// What it sees.
    pub fn view(&self) -> &View
        ensures { result.now ≡ self.now.view }
    {
        &self.view
    }

    /// Takes an edit with the current side, unless the limits on a commit or what the session sees refuse it; at any `Err` it stays
    /// as it is. It takes the time of `View::apply`, and copies no more than the side and the edit's text or name.
    pub fn edit(&mut self, alloc: Global, edit: Edit) -> Result<(), SessionFault>
        requires text { has_line_text edit ≡ true }
        ensures accepted { OnOk result ((history : List AnyCommand) → IsOpen history self.old →
            addition_fault history self.old.session (edit ∷ []) ≡ None) }
        ensures open { OnOk result ((history : List AnyCommand) → IsOpen history self.old →
            IsOpen history self.new) }
        ensures grown { OnOk result (self.new.session ≡
            with_edits self.old.session (on_side self.old.side (edit ∷ []))) }
        ensures name { self.new.name ≡ self.old.name }
        ensures side { self.new.side ≡ self.old.side }
        ensures refused { IfErr result (λ fault. (history : List AnyCommand) →
            IsOpen history self.old →
            IsAdditionFault fault (addition_fault history self.old.session (edit ∷ []))) }
        ensures same { OnErr result (self.new ≡ self.old) }
    {
        let bytes = self.room_for(1, bytes_of(&edit))?;
        self.add_edit(alloc, edit, bytes)
    }

    // The bytes of text with so many edits and bytes more, unless a commit doesn't hold so many.
    fn room_for(&self, edits: usize, bytes: usize) -> Result<usize, SessionFault>
        requires edits { edits ≤ 2 }
        requires bytes { bytes ≤ MOST_TEXT_BYTES }
        ensures bytes { IfOk result (λ all. all ≡ text_bytes (edits_of self.now.session) + bytes) }
        ensures light { IfOk result (λ all. all ≤ LIMITS.commit_bytes) }
        ensures room { OnOk result
            (length (edits_of self.now.session) + edits ≤ LIMITS.edits) }
        ensures refused { IfErr result (λ fault. (history : List AnyCommand) (es : List AnyEdit) →
            length es ≡ edits → text_bytes es ≡ bytes →
            IsAdditionFault fault (addition_fault history self.now.session es)) }
    {
        if self.edits.len() + edits > LIMITS.edits {
            return Err(SessionFault::TooManyEdits);
        }
        let bytes = self.bytes + bytes;
        if bytes as u64 > LIMITS.commit_bytes {
            return Err(SessionFault::TooManyBytes);
        }
        Ok(bytes)
    }

    // Takes an edit with the current side, as the limits allow. It is pushed first, so that nothing can fail once the view
    // has it.
    fn add_edit(&mut self, alloc: Global, edit: Edit, bytes: usize) -> Result<(), SessionFault>
        requires text { has_line_text edit ≡ true }
        requires room { length (edits_of self.old.session) < LIMITS.edits }
        requires light { bytes ≤ LIMITS.commit_bytes }
        requires bytes { bytes ≡ text_bytes (edits_of self.old.session) + edit_bytes edit }
        ensures accepted { OnOk result ((history : List AnyCommand) → IsOpen history self.old →
            addition_fault history self.old.session (edit ∷ []) ≡ None) }
        ensures open { OnOk result ((history : List AnyCommand) → IsOpen history self.old →
            IsOpen history self.new) }
        ensures grown { OnOk result (self.new.session ≡
            with_edits self.old.session (on_side self.old.side (edit ∷ []))) }
        ensures name { self.new.name ≡ self.old.name }
        ensures side { self.new.side ≡ self.old.side }
        ensures refused { IfErr result (λ fault. (history : List AnyCommand) →
            IsOpen history self.old →
            IsAdditionFault fault (addition_fault history self.old.session (edit ∷ []))) }
        ensures same { OnErr result (self.new ≡ self.old) }
    {
        holding_stands();
        replay_stands();
        let side = self.side.copy(alloc)?;
        self.edits.push(Sided { side, edit })?;
        let Some(last) = self.edits.last() else {
            unreachable!()
        };
        match self.view.apply(last) {
            Ok(()) => {
                self.bytes = bytes;
                Ok(())
            }
            Err(fault) => {
                self.edits.pop();
                Err(SessionFault::from(fault))
            }
        }
    }

    /// Takes an insertion directly after a line and the deletion of that line, with the current side, both or neither: at any
    /// `Err` it stays as it is. The head isn't a line.
    pub fn replace(
        &mut self,
        alloc: Global,
        file: NodeRef,
        line: LineRef,
        text: Text,
    ) -> Result<(), SessionFault>
        requires text { is_line_text text ≡ true }
        ensures accepted { OnOk result ((history : List AnyCommand) → IsOpen history self.old →
            addition_fault history self.old.session
            (edits.Insert file line text ∷ edits.Delete file line ∷ []) ≡ None) }
        ensures open { OnOk result ((history : List AnyCommand) → IsOpen history self.old →
            IsOpen history self.new) }
        ensures grown { OnOk result (self.new.session ≡
            with_edits self.old.session
            (on_side self.old.side (edits.Insert file line text ∷ edits.Delete file line ∷ []))) }
        ensures name { self.new.name ≡ self.old.name }
        ensures side { self.new.side ≡ self.old.side }
        ensures refused { IfErr result (λ fault. (history : List AnyCommand) →
            IsOpen history self.old →
            IsAdditionFault fault
            (addition_fault history self.old.session
            (edits.Insert file line text ∷ edits.Delete file line ∷ []))) }
        ensures same { OnErr result (self.new ≡ self.old) }
    {
        holding_stands();
        replay_stands();
        let bytes = self.room_for(2, text.len())?;
        if is_head(&line) {
            return Err(SessionFault::from(head_fault(&self.view, file)));
        }
        self.add_replacement(alloc, &file, &line, text, bytes)
    }

    // Inserts after a line and deletes it, with the current side, as the limits allow.
    fn add_replacement(
        &mut self,
        alloc: Global,
        file: &NodeRef,
        line: &LineRef,
        text: Text,
        bytes: usize,
    ) -> Result<(), SessionFault>
        requires text { is_line_text text ≡ true }
        requires a_line { is_head line.now ≡ false }
        requires room { length (edits_of self.old.session) + 2 ≤ LIMITS.edits }
        requires light { bytes ≤ LIMITS.commit_bytes }
        requires bytes { bytes ≡ text_bytes (edits_of self.old.session) + length text }
        ensures accepted { OnOk result ((history : List AnyCommand) → IsOpen history self.old →
            addition_fault history self.old.session
            (edits.Insert file.now line.now text ∷ edits.Delete file.now line.now ∷ []) ≡ None) }
        ensures open { OnOk result ((history : List AnyCommand) → IsOpen history self.old →
            IsOpen history self.new) }
        ensures grown { OnOk result (self.new.session ≡
            with_edits self.old.session
            (on_side self.old.side
            (edits.Insert file.now line.now text ∷ edits.Delete file.now line.now ∷ []))) }
        ensures name { self.new.name ≡ self.old.name }
        ensures side { self.new.side ≡ self.old.side }
        ensures refused { IfErr result (λ fault. (history : List AnyCommand) →
            IsOpen history self.old →
            IsAdditionFault fault
            (addition_fault history self.old.session
            (edits.Insert file.now line.now text ∷ edits.Delete file.now line.now ∷ []))) }
        ensures same { OnErr result (self.new ≡ self.old) }
    {
        holding_stands();
        replay_stands();
        push_both(alloc, &mut self.edits, &self.side, file, line, text)?;
        let Some(insert) = self.edits.get(self.edits.len() - 2) else {
            unreachable!()
        };
        match self.view.apply(insert) {
            Ok(()) => {
                delete_line(&mut self.view, file, line);
                self.bytes = bytes;
                Ok(())
            }
            Err(fault) => {
                pop_both(&mut self.edits);
                Err(SessionFault::from(fault))
            }
        }
    }

    /// Takes another side for the edits that follow. `LateOption` and `OutsideSide` come in this order, exactly where the side has
    /// an option that the choice doesn't bind and where it is false there; at any `Err` it stays as it is. It takes no memory,
    /// and time in the parts of the side.
    pub fn set_side(&mut self, side: Expr) -> Result<(), SessionFault>
        ensures accepted { OnOk result (side_fault self.old.session side ≡ None) }
        ensures open { (history : List AnyCommand) → IsOpen history self.old →
            IsOpen history self.new }
        ensures set { OnOk result (as_named self.new ≡ with_side (as_named self.old) side) }
        ensures name { self.new.name ≡ self.old.name }
        ensures refused { IfErr result (λ fault. side_fault self.old.session side ≡ Some fault) }
        ensures declared { IfErr result (λ fault. (count : ℕ) → reach side ≤ count →
            NamesDeclared count fault) }
        ensures same { OnErr result (self.new ≡ self.old) }
    {
        if let Some(option) = first_late(side.part(), self.choice.count()) {
            return Err(SessionFault::LateOption { option });
        }
        if !side.value(self.choice) {
            return Err(SessionFault::OutsideSide);
        }
        self.side = side;
        Ok(())
    }

    /// The commit of the session, in memory of its own.
    pub fn command(&self, alloc: Global) -> Result<Command, Memory>
        ensures { IfOk result (λ command. command ≡ commit_of self.now.session) }
    {
        Ok(Command::Commit {
            base: self.base,
            choice: self.choice,
            ambition: self.ambition.copy(alloc)?,
            edits: self.edits.copy()?,
        })
    }
}

// The bytes of the text that an edit inserts.
fn bytes_of(edit: &Edit) -> usize
    ensures bytes { result ≡ edit_bytes edit.now }
    ensures most { has_line_text edit.now ≡ true → result ≤ MOST_TEXT_BYTES }
{
    match edit {
        Edit::New { .. }
        | Edit::Delete { .. }
        | Edit::Rename { .. }
        | Edit::Move { .. }
        | Edit::Remove { .. } => 0,
        Edit::Insert { text, .. } => text.len(),
    }
}

// Why the head of a file can't be deleted.
fn head_fault(view: &View, file: NodeRef) -> EditFault
    ensures { (ns : Numbers) (table : List (List ℕ)) (v : Variant) → Shows ns table view.now v →
        refusal ns v (edits.Delete file (Old 0)) ≡ Some result }
{
    match view.kind(file) {
        None => EditFault::NoSuchNode,
        Some(Kind::Dir) => EditFault::NotFile,
        Some(Kind::File) => EditFault::NoSuchLine,
    }
}

// Appends an insertion after a line and the deletion of that line, both with a side, both or neither.
fn push_both(
    alloc: Global,
    list: &mut Edits,
    side: &Expr,
    file: &NodeRef,
    line: &LineRef,
    text: Text,
) -> Result<(), Memory>
    requires { is_line_text text ≡ true }
    ensures ok { OnOk result (list.new ≡
        list.old ++ on_side side.now
        (edits.Insert file.now line.now text ∷ edits.Delete file.now line.now ∷ [])) }
    ensures err { OnErr result (list.new ≡ list.old) }
{
    let own = side.copy(alloc)?;
    let other = side.copy(alloc)?;
    list.push(Sided {
        side: own,
        edit: Edit::Insert {
            file: *file,
            after: *line,
            text,
        },
    })?;
    match list.push(Sided {
        side: other,
        edit: Edit::Delete {
            file: *file,
            line: *line,
        },
    }) {
        Ok(()) => Ok(()),
        Err(Memory) => {
            list.pop();
            Err(Memory)
        }
    }
}

// Takes the last two edits away.
fn pop_both(list: &mut Edits)
    ensures { (first : List AnySided) (insert delete : AnySided) →
        list.old ≡ first ++ insert ∷ delete ∷ [] → list.new ≡ first }
{
    list.pop();
    list.pop();
}

// Deletes a line that its file has.
fn delete_line(view: &mut View, file: &NodeRef, line: &LineRef)
    requires nodes { view.old.nodes_made < 2 ^ 32 - 1 }
    requires lines { view.old.lines_made < 2 ^ 32 - 1 }
    requires there { seen_fault view.old.rows (edits.Delete file.now line.now) ≡ None }
    ensures accepted { (ns : Numbers) (table : List (List ℕ)) (v : Variant) →
        Shows ns table view.old v → refusal ns v (edits.Delete file.now line.now) ≡ None }
    ensures applied { (ns : Numbers) (table : List (List ℕ)) (v : Variant) → IsTable table →
        Shows ns table view.old v →
        Shows ns (table_after ns table (edits.Delete file.now line.now)) view.new
        (fold edited v (next_by_number ns table view.old (edits.Delete file.now line.now))) }
    ensures nodes { view.new.nodes_made ≡ view.old.nodes_made }
    ensures lines { view.new.lines_made ≡ view.old.lines_made }
{
    match view.apply(&Edit::Delete {
        file: *file,
        line: *line,
    }) {
        Ok(()) => (),
        Err(_) => unreachable!(),
    }
}
