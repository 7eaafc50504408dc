// The sessions that are open, each called by its name.
ghost use Rattle.std.specs.Prelude.{◌≡◌, ◌<◌, ◌≤◌, List, ℕ, [], ◌∷◌, ◌++◌, true, nat_lt, map, Ok, None, Some, is_some, IfOk, IfErr, OnOk, OnErr, IsErrOf};
ghost use Rattle.std.specs.List.{find, list_all};
ghost use Rattle.std.specs.Map.{lookup};
ghost use Rattle.std.specs.Option.{option_copied, option_map};
ghost use Rattle.std.specs.Str.{bytes_eq};
ghost use Rattle.indexmap.specs.IndexMap.{spare};
ghost use Rattle.slab.specs.Slab.{HasRoomFor};
ghost use Rattle.cov_base.specs.Spelling.{is_line_text};
ghost use Rattle.cov_base.specs.declared.error.MemoryOr.TheVariants as failing;
ghost use Rattle.cov_dd.specs.Diagrams.{Extends};
ghost use Rattle.cov_expr.specs.Formula.{True, reach};
ghost use Rattle.cov_edit.specs.EditFits.{has_line_text};
ghost use Rattle.cov_edit.specs.History.{option_count};
ghost use Rattle.cov_edit.specs.declared.command.Command.{Command as AnyCommand};
ghost use Rattle.cov_edit.specs.declared.edit.Edit.TheVariants as edits;
ghost use Rattle.cov_history.specs.Sessions.{commit_of};
ghost use Rattle.cov_session.specs.Calls.{AreOpen, IsOfName, IsSessionFaultOf, Makes, opened_among, side_set, taken, refreshed_among};
ghost use Rattle.cov_session.specs.Counting.{own_lines, line_made};
ghost use Rattle.cov_session.specs.Named.{named, side_of, with_session, without};
ghost use Rattle.cov_session.specs.Open.{SessionValue, as_named};
ghost use Rattle.cov_session.specs.Opening.{NamesDeclared};

mod ending;

use crate::{NoSession, OpenSession, Opened, SessionFault};
use cov_base::{LineRef, Memory, MemoryOr, Name, NodeRef, Text};
use cov_edit::{Command, Edit};
use cov_engine::Engine;
use cov_expr::{Expr, Partial};
use cov_view::View;
use indexmap::IndexMap;
use slab::Slab;
use std::alloc::Global;
use std::marker::Model;

/// The greatest number of sessions that are open at once.
pub const MOST_SESSIONS: usize = 64;

/// The sessions that are open, in the order in which they were opened, at most `MOST_SESSIONS` of them and no two of one name.
/// A call finds its session in time in the name, however many are open.
#[derive(Drop)]
pub struct Sessions {
    // The key of each session by its name.
    keys: IndexMap<Vec<u8>, usize>,
    sessions: Slab<OpenSession>,
}

impl Model for Sessions {
    ghost use Rattle.std.specs.Coded.{codes};
    ghost use Rattle.std.specs.Prelude.{List};
    ghost use Rattle.cov_session.specs.contracts.session.OpenSession as session_row;
    ghost use Rattle.cov_session.specs.Kept.{kept, AreKept};
    ghost use Rattle.cov_session.specs.Open.{SessionValue};

    ghost Value = { List SessionValue };

    ghost coded = { Prim.hlevel (codes, session_row.the_row.coded) };

    ghost view = { λ s. kept s.keys.entries s.sessions };

    ghost invariant = { λ s. AreKept s.keys.entries s.sessions };
}

impl Sessions {
    pub fn new(alloc: Global) -> Sessions
        ensures { result ≡ [] }
    {
        Sessions {
            keys: IndexMap::new(alloc),
            sessions: Slab::new(alloc),
        }
    }

    /// Opens a session now, within an ambition and with the side `True`, on the choice to which the rules complete a partial one.
    /// `SessionExists`, `TooManySessions`, `Invalid`, `Incomplete` and `OutsideAmbition` come in this order; at any `Err` no
    /// session changes. It takes time in the rows and lines that the engine keeps.
    pub fn open(
        &mut self,
        engine: &mut Engine,
        name: Name,
        partial: &Partial,
        ambition: Expr,
    ) -> Result<Opened, SessionFault>
        requires options { list_all (λ b. nat_lt b.0 (option_count engine.old.history))
            partial.now ≡ true }
        requires ambition { reach ambition ≤ option_count engine.old.history }
        ensures history { engine.new.history ≡ engine.old.history }
        ensures extends { Extends engine.old.table engine.new.table }
        ensures opened { IfOk result (λ opened.
            Makes
            (opened_among engine.old.history (map as_named self.old) name partial.now ambition)
            (λ s. map as_named self.old ++ record { name = name; side = True; session = s } ∷ [])
            opened (map as_named self.new)) }
        ensures open { AreOpen engine.old.history self.old → AreOpen engine.old.history self.new }
        ensures refused { IfErr result (IsSessionFaultOf
            (opened_among engine.old.history (map as_named self.old) name partial.now ambition)) }
        ensures declared { IfErr result (NamesDeclared (option_count engine.old.history)) }
        ensures same { OnErr result (self.new ≡ self.old) }
    {
        if self.keys.contains_key(name.as_slice()) {
            return Err(SessionFault::SessionExists);
        }
        if self.keys.len() >= MOST_SESSIONS {
            return Err(SessionFault::TooManySessions);
        }
        let own = make_room(&mut self.keys, &mut self.sessions, &name)?;
        let alloc = *self.keys.allocator();
        let session = OpenSession::open(alloc, engine, name, partial, ambition)?;
        let opened = standing(&session);
        let key = self.sessions.insert_reserved(session);
        match self.keys.insert(own, key) {
            Ok(_) => Ok(opened),
            Err(_) => unreachable!(),
        }
    }

    /// Makes a side the current one of the session of a name: each edit that follows has it. `NoSession`, `LateOption` and
    /// `OutsideSide` come in this order; at any `Err` no session changes. It takes no memory, and time in the parts of the side.
    pub fn side(&mut self, name: &Name, side: Expr) -> Result<(), SessionFault>
        ensures set { OnOk result
            (side_set (map as_named self.old) name.now side ≡ Ok (map as_named self.new)) }
        ensures open { (history : List AnyCommand) → AreOpen history self.old →
            AreOpen history self.new }
        ensures refused { IfErr result (λ fault.
            side_set (map as_named self.old) name.now side ≡ Err fault) }
        ensures declared { IfErr result (λ fault. (count : ℕ) → reach side ≤ count →
            NamesDeclared count fault) }
        ensures same { OnErr result (self.new ≡ self.old) }
    {
        let Some(key) = key_of(&self.keys, name) else {
            return Err(SessionFault::NoSession);
        };
        let Some(session) = self.sessions.get_mut(key) else {
            unreachable!()
        };
        session.set_side(side)
    }

    /// Edits in the session of a name with its current side, which answers the number of the line that it inserts, from 0 among
    /// those of the session. `NoSession`, `TooManyEdits`, `TooManyBytes` and what the session sees refuse in this order; at any
    /// `Err` no session changes. It takes the time of `View::apply`.
    pub fn edit(&mut self, name: &Name, edit: Edit) -> Result<Option<u32>, SessionFault>
        requires text { has_line_text edit ≡ true }
        ensures taken { OnOk result ((history : List AnyCommand) → AreOpen history self.old →
            taken history (map as_named self.old) name.now (edit ∷ []) ≡
            Ok (map as_named self.new)) }
        ensures open { (history : List AnyCommand) → AreOpen history self.old →
            AreOpen history self.new }
        ensures number { IfOk result (λ number.
            option_map (λ s. line_made s.session edit) (named (map as_named self.old) name.now) ≡
            Some number) }
        ensures refused { IfErr result (λ fault. (history : List AnyCommand) →
            AreOpen history self.old →
            IsSessionFaultOf (taken history (map as_named self.old) name.now (edit ∷ [])) fault) }
        ensures same { OnErr result (self.new ≡ self.old) }
    {
        let alloc = *self.keys.allocator();
        let Some(key) = key_of(&self.keys, name) else {
            return Err(SessionFault::NoSession);
        };
        let Some(session) = self.sessions.get_mut(key) else {
            unreachable!()
        };
        let number = session.line_made(&edit);
        session.edit(alloc, edit)?;
        Ok(number)
    }

    /// Replaces a line in the session of a name with its current side: inserts another directly after it, and deletes it, both or
    /// neither. It answers the number of the new line, from 0 among those of the session. What refuses it comes in the order of
    /// `edit`; at any `Err` no session changes.
    pub fn replace(
        &mut self,
        name: &Name,
        file: NodeRef,
        line: LineRef,
        text: Text,
    ) -> Result<u32, SessionFault>
        requires text { is_line_text text ≡ true }
        ensures taken { OnOk result ((history : List AnyCommand) → AreOpen history self.old →
            taken history (map as_named self.old) name.now
            (edits.Insert file line text ∷ edits.Delete file line ∷ []) ≡
            Ok (map as_named self.new)) }
        ensures open { (history : List AnyCommand) → AreOpen history self.old →
            AreOpen history self.new }
        ensures number { IfOk result (λ number.
            option_map (λ s. own_lines s.session) (named (map as_named self.old) name.now) ≡
            Some number) }
        ensures refused { IfErr result (λ fault. (history : List AnyCommand) →
            AreOpen history self.old →
            IsSessionFaultOf
            (taken history (map as_named self.old) name.now
            (edits.Insert file line text ∷ edits.Delete file line ∷ [])) fault) }
        ensures same { OnErr result (self.new ≡ self.old) }
    {
        let alloc = *self.keys.allocator();
        let Some(key) = key_of(&self.keys, name) else {
            return Err(SessionFault::NoSession);
        };
        let Some(session) = self.sessions.get_mut(key) else {
            unreachable!()
        };
        let number = session.own_lines();
        session.replace(alloc, file, line, text)?;
        Ok(number)
    }

    /// What the session of a name sees, `NoSession` exactly where no open one has it. It takes no memory.
    pub fn view(&self, name: &Name) -> Result<&View, NoSession>
        ensures view { IfOk result (λ view.
            (s : SessionValue) × IsOfName self.now name.now s × (s.view ≡ view.now)) }
        ensures none { OnErr result (named (map as_named self.now) name.now ≡ None) }
    {
        match self.session(name) {
            Some(session) => Ok(session.view()),
            None => Err(NoSession),
        }
    }

    /// Refreshes the session of a name: its base is now, on the choice to which the rules complete its own, with its edits applied
    /// again; these keep their sides, and the current side stays. `NoSession`, `Invalid`, `Incomplete` and `EditLost` come in
    /// this order; at any `Err` no session changes. It takes time in the rows and lines that the engine keeps and, for each edit,
    /// that of `View::apply`.
    pub fn refresh(&mut self, engine: &mut Engine, name: &Name) -> Result<Opened, SessionFault>
        requires open { AreOpen engine.old.history self.old }
        ensures history { engine.new.history ≡ engine.old.history }
        ensures extends { Extends engine.old.table engine.new.table }
        ensures refreshed { IfOk result (λ opened.
            Makes
            (refreshed_among engine.old.history (map as_named self.old) name.now)
            (λ s. with_session (map as_named self.old) (record {
              name = name.now;
              side = side_of (map as_named self.old) name.now;
              session = s;
            })) opened (map as_named self.new)) }
        ensures open { AreOpen engine.old.history self.new }
        ensures refused { IfErr result (IsSessionFaultOf
            (refreshed_among engine.old.history (map as_named self.old) name.now)) }
        ensures declared { IfErr result (NamesDeclared (option_count engine.old.history)) }
        ensures same { OnErr result (self.new ≡ self.old) }
    {
        let alloc = *self.keys.allocator();
        let Some(key) = key_of(&self.keys, name) else {
            return Err(SessionFault::NoSession);
        };
        let Some(session) = self.sessions.get_mut(key) else {
            unreachable!()
        };
        session.refresh(alloc, engine)?;
        Ok(standing(session))
    }

    /// The commit of the session of a name, in memory of its own; `NoSession` exactly where no open one has the name.
    pub fn command(&self, name: &Name) -> Result<Command, MemoryOr<NoSession>>
        ensures command { IfOk result (λ command.
            option_map (λ s. commit_of s.session) (named (map as_named self.now) name.now) ≡
            Some command) }
        ensures none { IsErrOf result (failing.Refused (record {})) →
            named (map as_named self.now) name.now ≡ None }
    {
        match self.session(name) {
            Some(session) => Ok(session.command(*self.keys.allocator())?),
            None => Err(MemoryOr::Refused(NoSession)),
        }
    }

    /// Ends the session of a name, `NoSession` exactly where no open one has it. It takes no memory, and time in how many are open.
    pub fn discard(&mut self, name: &Name) -> Result<(), NoSession>
        ensures without { OnOk result (map as_named self.new ≡
            without (map as_named self.old) name.now) }
        ensures open { (history : List AnyCommand) → AreOpen history self.old →
            AreOpen history self.new }
        ensures there { OnOk result (is_some (named (map as_named self.old) name.now) ≡ true) }
        ensures none { OnErr result (named (map as_named self.old) name.now ≡ None) }
        ensures same { OnErr result (self.new ≡ self.old) }
    {
        match self.keys.shift_remove(name.as_slice()) {
            Some(key) => {
                self.sessions.remove(key);
                Ok(())
            }
            None => Err(NoSession),
        }
    }

    // The session of a name.
    fn session(&self, name: &Name) -> Option<&OpenSession>
        ensures { option_copied result ≡ find (λ s. bytes_eq s.name name.now) self.now }
    {
        match key_of(&self.keys, name) {
            Some(key) => self.sessions.get(key),
            None => None,
        }
    }
}

// The key of the session of a name.
fn key_of(keys: &IndexMap<Vec<u8>, usize>, name: &Name) -> Option<usize>
    ensures { result ≡ lookup (λ key. bytes_eq name.now key.items) keys.now.entries }
{
    keys.get(name.as_slice()).copied()
}

// Makes room for one session more, and copies its name for its key.
fn make_room(
    keys: &mut IndexMap<Vec<u8>, usize>,
    sessions: &mut Slab<OpenSession>,
    name: &Name,
) -> Result<Vec<u8>, Memory>
    ensures keys { keys.new.entries ≡ keys.old.entries }
    ensures sessions { sessions.new.slots ≡ sessions.old.slots }
    ensures name { IfOk result (λ own. own.items ≡ name.now) }
    ensures room_for_key { OnOk result (0 < spare keys.new) }
    ensures room { OnOk result (HasRoomFor sessions.new 1) }
{
    keys.reserve(1)?;
    sessions.reserve(1)?;
    Ok(Vec::from_slice(*keys.allocator(), name.as_slice())?)
}

// Where a session stands.
fn standing(session: &OpenSession) -> Opened
    ensures base { result.base ≡ session.now.session.base }
    ensures choice { result.choice ≡ session.now.session.choice }
{
    Opened {
        base: session.base(),
        choice: session.choice(),
    }
}
