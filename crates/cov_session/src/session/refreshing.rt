// How a session goes on from a later base.
ghost use Rattle.std.specs.Prelude.{◌≡◌, ◌≤◌, List, [], true, length, Ok, None, IfOk, IfErr, OnOk, OnErr};
ghost use Rattle.std.specs.List.{enumerate_from};
ghost use Rattle.cov_base.specs.declared.limits.TheConstants.{LIMITS};
ghost use Rattle.cov_dd.specs.Diagrams.{Extends};
ghost use Rattle.cov_rules.specs.Completion.{Complete};
ghost use Rattle.cov_edit.specs.History.{option_count, first_false_in};
ghost use Rattle.cov_edit.specs.declared.command.Command.{Command as AnyCommand};
ghost use Rattle.cov_history.specs.Completing.{completed_in};
ghost use Rattle.cov_history.specs.Sessions.{edits_of};
ghost use Rattle.cov_session.specs.Adding.{IsAdditionFault};
ghost use Rattle.cov_session.specs.Calls.{IsSessionFaultOf};
ghost use Rattle.cov_session.specs.Faults.{by_loss};
ghost use Rattle.cov_session.specs.Open.{SessionValue, IsOpen};
ghost use Rattle.cov_session.specs.Opening.{NamesDeclared};
ghost use Rattle.cov_session.specs.Refreshing.{IsInReach, IsInside, first_lost, rebased, refreshed, with_work};

use super::OpenSession;
use crate::SessionFault;
use crate::viewing::view_now;
use cov_base::Choice;
use cov_edit::Edit;
use cov_engine::Engine;
use cov_expr::Partial;
use cov_history::kept_laws::holding_stands;
use cov_history::laws::{open_options_are_declared, replay_stands};
use cov_view::{EditFault, View};
use std::alloc::Global;

impl OpenSession {
    /// Moves the base to now, on the choice to which the rules complete its own, and applies the edits again; all sides stay.
    /// `Invalid`, `Incomplete` and `EditLost` come in this order, exactly where the completion and the edits say so; at any `Err`
    /// it stays as it is. It takes time in the rows and lines that the engine keeps and in the edits, and copies none of their
    /// text but into the view.
    pub fn refresh(&mut self, alloc: Global, engine: &mut Engine) -> Result<(), SessionFault>
        requires open { IsOpen engine.old.history self.old }
        ensures history { engine.new.history ≡ engine.old.history }
        ensures extends { Extends engine.old.table engine.new.table }
        ensures name { self.new.name ≡ self.old.name }
        ensures side { self.new.side ≡ self.old.side }
        ensures refreshed { OnOk result
            (refreshed engine.old.history self.old.session ≡ Ok self.new.session) }
        ensures open { OnOk result (IsOpen engine.old.history self.new) }
        ensures refused { IfErr result
            (IsSessionFaultOf (refreshed engine.old.history self.old.session)) }
        ensures declared { IfErr result (NamesDeclared (option_count engine.old.history)) }
        ensures same { OnErr result (self.new ≡ self.old) }
    {
        let choice = self.completed_now(alloc, engine)?;
        engine.bring_forward(choice);
        let view = self.view_on(engine, choice)?;
        self.base = engine.position();
        self.choice = choice;
        self.view = view;
        Ok(())
    }

    // The choice to which the rules of now complete its own.
    fn completed_now(&self, alloc: Global, engine: &mut Engine) -> Result<Choice, SessionFault>
        requires open { IsOpen engine.old.history self.now }
        ensures history { engine.new.history ≡ engine.old.history }
        ensures extends { Extends engine.old.table engine.new.table }
        ensures completed { IfOk result (λ choice.
            completed_in engine.old.history (enumerate_from 0 self.now.session.choice)
            ≡ Complete choice) }
        ensures count { IfOk result (λ choice. length choice ≡ option_count engine.old.history) }
        ensures valid { IfOk result (λ choice. first_false_in engine.old.history choice ≡ None) }
        ensures inside { IfOk result (λ choice. IsInside self.now choice) }
        ensures refused { IfErr result
            (IsSessionFaultOf (refreshed engine.old.history self.now.session)) }
        ensures declared { IfErr result (NamesDeclared (option_count engine.old.history)) }
    {
        open_options_are_declared();
        let own = Partial::of(alloc, self.choice)?;
        Ok(engine.complete(&own)?)
    }

    // What it would see now on a choice within its ambition and its sides that meets the constraints.
    fn view_on(&self, engine: &Engine, choice: Choice) -> Result<View, SessionFault>
        requires count { length choice ≡ option_count engine.now.history }
        requires reach { IsInReach (option_count engine.now.history) self.now }
        requires valid { first_false_in engine.now.history choice ≡ None }
        requires inside { IsInside self.now choice }
        ensures open { IfOk result (λ view. IsOpen engine.now.history (record {
          name = self.now.name;
          side = self.now.side;
          session = rebased self.now.session (length engine.now.history) choice;
          view = view;
        })) }
        ensures refused { IfErr result (λ fault. IsAdditionFault fault
            (first_lost engine.now.history
            (rebased self.now.session (length engine.now.history) choice)
            (edits_of self.now.session))) }
    {
        let mut view = view_now(engine, choice)?;
        apply_all(&mut view, self.edits.as_slice())?;
        Ok(view)
    }
}

// Applies edits, in order, to a view that has none yet. The first that it refuses is lost.
fn apply_all(view: &mut View, edits: &[Edit]) -> Result<(), SessionFault>
    requires few { length edits.now ≤ LIMITS.edits }
    requires nodes { view.old.nodes_made ≡ 0 }
    requires lines { view.old.lines_made ≡ 0 }
    ensures open { OnOk result ((history : List AnyCommand) (s : SessionValue) →
        IsOpen history (with_work s [] view.old) →
        IsOpen history (with_work s edits.now view.new)) }
    ensures refused { IfErr result (λ fault. (history : List AnyCommand) (s : SessionValue) →
        IsOpen history (with_work s [] view.old) →
        IsAdditionFault fault (first_lost history s.session edits.now)) }
{
    holding_stands();
    replay_stands();
    let mut index = 0;
    let mut ahead = edits;
    while let [edit, rest @ ..] = ahead {
        match view.apply(edit) {
            Ok(()) => (),
            Err(fault) => return Err(loss(fault, index)),
        }
        index += 1;
        ahead = rest;
    }
    Ok(())
}

// Why a session isn't refreshed whose edit at this place is refused.
fn loss(fault: EditFault, index: u32) -> SessionFault
    ensures { result ≡ by_loss index fault }
{
    match fault {
        EditFault::Memory => SessionFault::Memory,
        EditFault::NoSuchNode
        | EditFault::NotFile
        | EditFault::NotDirectory
        | EditFault::NameTaken
        | EditFault::NotEmpty
        | EditFault::IntoItself
        | EditFault::IsRoot
        | EditFault::NoSuchLine => SessionFault::EditLost { index },
    }
}
