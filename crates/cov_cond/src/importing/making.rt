// The edit that makes the file.
ghost use Rattle.std.specs.Prelude.{◌≡◌, ◌<◌, List, ℕ, true, length, Ok, None, IfOk, IfErr, OnOk};
ghost use Rattle.cov_cond.specs.Committing.{made_at, making_fault_of, IsMakingFault};
ghost use Rattle.cov_cond.specs.Fitting.{IsImportFaultOf};
ghost use Rattle.cov_edit.specs.EditFits.{has_line_text};
ghost use Rattle.cov_edit.specs.Numbering.{Numbers, numbers_of};
ghost use Rattle.cov_edit.specs.Replay.{replay};
ghost use Rattle.cov_edit.specs.Variant.{Variant};
ghost use Rattle.cov_edit.specs.declared.edit.Edit.TheVariants.{New};
ghost use Rattle.cov_base.specs.declared.number.Kind.TheVariants.{File};
ghost use Rattle.cov_view.specs.Refusals.{refusal};
ghost use Rattle.cov_view.specs.Views.{Shows};

use crate::ImportFault;
use cov_base::{Choice, Kind, Memory, Name, NodeRef, Path};
use cov_edit::Edit;
use cov_engine::Engine;
use cov_view::{EditFault, View};

/// The edit that makes the file of a path. `NoSuchPath` comes exactly where nothing is at the path without its last name, in the
/// variant of a choice now, and `Edit` exactly where this variant refuses the edit. It takes time in the rows and lines that the
/// engine keeps.
pub(crate) fn making_edit(engine: &Engine, choice: Choice, path: &Path) -> Result<Edit, ImportFault>
    requires named { 0 < length path.now }
    ensures edit { IfOk result (λ edit. made_at (numbers_of engine.now.history)
        (replay choice engine.now.history) path.now ≡ Ok edit) }
    ensures spelt { IfOk result (λ edit. has_line_text edit ≡ true) }
    ensures fault { IfErr result (IsImportFaultOf (made_at (numbers_of engine.now.history)
        (replay choice engine.now.history) path.now)) }
{
    match view_now(engine, choice) {
        Ok(mut view) => made_in(&mut view, path),
        Err(Memory) => Err(ImportFault::Memory),
    }
}

// The variant of a choice now; nothing in it is new.
fn view_now(engine: &Engine, choice: Choice) -> Result<View, Memory>
    ensures shows { IfOk result (λ view.
        Shows (numbers_of engine.now.history) (numbers_of engine.now.history).addresses view
        (replay choice engine.now.history)) }
    ensures nodes { IfOk result (λ view. view.nodes_made ≡ 0) }
    ensures lines { IfOk result (λ view. view.lines_made ≡ 0) }
{
    Engine::view(engine.visible(), choice, engine.position())
}

// The edit that makes the file of a path in a view in which nothing is new.
fn made_in(view: &mut View, path: &Path) -> Result<Edit, ImportFault>
    requires named { 0 < length path.now }
    requires nodes { view.old.nodes_made ≡ 0 }
    requires lines { view.old.lines_made ≡ 0 }
    ensures edit { IfOk result (λ edit. (ns : Numbers) (table : List (List ℕ)) (v : Variant) →
        Shows ns table view.old v → made_at ns v path.now ≡ Ok edit) }
    ensures spelt { IfOk result (λ edit. has_line_text edit ≡ true) }
    ensures fault { IfErr result (λ fault. (ns : Numbers) (table : List (List ℕ)) (v : Variant) →
        Shows ns table view.old v → IsImportFaultOf (made_at ns v path.now) fault) }
{
    let [directory @ .., name] = path.as_slice() else {
        unreachable!()
    };
    match view.follow(directory) {
        Some(parent) => made_below(view, parent, name),
        None => Err(ImportFault::NoSuchPath),
    }
}

// The edit that makes a file of a directory, unless the view refuses it.
fn made_below(view: &mut View, parent: NodeRef, name: &Name) -> Result<Edit, ImportFault>
    requires nodes { view.old.nodes_made ≡ 0 }
    requires lines { view.old.lines_made ≡ 0 }
    ensures edit { IfOk result (λ edit. edit ≡ New File parent name.now) }
    ensures taken { OnOk result ((ns : Numbers) (table : List (List ℕ)) (v : Variant) →
        Shows ns table view.old v → refusal ns v (New File parent name.now) ≡ None) }
    ensures fault { IfErr result (λ fault. (ns : Numbers) (table : List (List ℕ)) (v : Variant) →
        Shows ns table view.old v → IsMakingFault (refusal ns v (New File parent name.now)) fault) }
{
    let name = match name.copy() {
        Ok(name) => name,
        Err(Memory) => return Err(ImportFault::Memory),
    };
    let edit = Edit::New {
        kind: Kind::File,
        parent,
        name,
    };
    match view.apply(&edit) {
        Ok(()) => Ok(edit),
        Err(fault) => Err(fault_of(fault)),
    }
}

// Why a file isn't made, by the fault of its edit.
fn fault_of(fault: EditFault) -> ImportFault
    ensures { result ≡ making_fault_of fault }
{
    match fault {
        EditFault::Memory => ImportFault::Memory,
        EditFault::NoSuchNode
        | EditFault::NotFile
        | EditFault::NotDirectory
        | EditFault::NameTaken
        | EditFault::NotEmpty
        | EditFault::IntoItself
        | EditFault::IsRoot
        | EditFault::NoSuchLine => ImportFault::Edit { fault },
    }
}
