// One variant with edits on top.
ghost use Rattle.std.specs.Prelude.{◌≡◌, ◌<◌, ◌-◌, ◌^◌, ◌+◌, ◌&&◌, not, true, false, List, ℕ, [], ◌∷◌, ◌++◌, length, map, None, Some, is_some, option_map, IfSome, IfOk, IfErr, IsErrOf, OnOk, OnErr};
ghost use Rattle.std.specs.List.{fold};
ghost use Rattle.cov_base.specs.Addresses.{IsTable};
ghost use Rattle.cov_base.specs.Faults.{fault_of};
ghost use Rattle.cov_base.specs.declared.number.Kind.TheVariants.{File, Dir};
ghost use Rattle.cov_base.specs.declared.number.NodeRef.TheVariants.{Old};
ghost use Rattle.cov_base.specs.declared.number.LineRef.TheVariants as lines;
ghost use Rattle.cov_edit.specs.Numbering.{Numbers, node_number, nodes_made, anchors_of};
ghost use Rattle.cov_edit.specs.Variant.{Variant, edited};
ghost use Rattle.cov_view.specs.References.{is_made_node};
ghost use Rattle.cov_view.specs.Lines.{after_ref, without_ref};
ghost use Rattle.cov_view.specs.Listing.{IsListingOf, listed_in};
ghost use Rattle.cov_view.specs.Refusals.{shows_node, is_dir, refusal, takes_memory};
ghost use Rattle.cov_view.specs.Paths.{path_node, shown_kind, AreLinesOf};
ghost use Rattle.cov_view.specs.Seen.{Seen, kind_in, node_at, lines_in, has_child, is_there, kind_is_dir, new_fault, line_fault, rename_fault, move_fault, remove_fault, seen_fault, seen_after, at_row, with_lines_by, with_name_by, with_parent_by, with_file_row, without_node, AreRows};
ghost use Rattle.cov_view.specs.SeenTree.{tree_in};
ghost use Rattle.cov_view.specs.Shown.{bare_rows};
ghost use Rattle.cov_view.specs.Soundness.{AreOld, old_row, fault_in};
ghost use Rattle.cov_view.specs.Tree.{tree_of, IsTreeOf};
ghost use Rattle.cov_view.specs.Views.{Shows, table_after, next_by_number, FaultBy};

use crate::adding::old_lines;
use crate::listing::listing;
use crate::row::{ViewRow, is_root, shows_anchor, shows_line};
use crate::row_lines::RowLines;
use crate::rows::Rows;
use crate::soundness::first_fault;
use crate::tree::tree;
use crate::{
    DirRows, EditFault, Fault, ListFault, ReadFaultOfView, SharedTree, TreeRows, ViewLine,
    ViewLines,
};
use cov_base::{
    FileRows, Kind, LineNo, LineRef, Memory, Name, NodeNo, NodeRef, Path, SharedRows, Text,
};
use cov_edit::Edit;
use std::alloc::Global;
use std::marker::Model;

/// One variant: its nodes, the lines of each of its files in order, and how many nodes and lines the edits applied so
/// far have made. The next node or line made is `New` of that number.
#[derive(Debug, Drop)]
pub struct View {
    rows: Rows,
    nodes_made: u32,
    lines_made: u32,
}

impl Model for View {
    ghost use Rattle.cov_view.specs.Seen.{Seen, AreRows};

    ghost Value = { Seen };

    ghost view = { λ v. record {
      rows = v.rows;
      nodes_made = v.nodes_made;
      lines_made = v.lines_made;
    } };

    ghost invariant = { λ v. AreRows v.nodes_made v.rows };
}

impl View {
    /// The root alone, nothing made.
    pub fn new(alloc: Global) -> Result<View, Memory>
        ensures { IfOk result (λ view. view ≡
            record { rows = []; nodes_made = 0; lines_made = 0 }) }
    {
        Ok(View {
            rows: Rows::new(alloc),
            nodes_made: 0,
            lines_made: 0,
        })
    }

    /// The nodes of a tree without lines, nothing made. It shares their names and what they are found by with the tree, the
    /// latter until an edit changes the tree, and takes time in the nodes.
    pub fn of_tree(tree: SharedTree) -> Result<View, Memory>
        ensures { IfOk result (λ view. view ≡
            record { rows = bare_rows tree; nodes_made = 0; lines_made = 0 }) }
    {
        Ok(View {
            rows: Rows::of_tree(tree)?,
            nodes_made: 0,
            lines_made: 0,
        })
    }

    /// Appends a node that a history has.
    pub fn add_row(
        &mut self,
        node: NodeNo,
        kind: Kind,
        parent: NodeNo,
        name: &Name,
    ) -> Result<(), Memory>
        requires { kind_in self.old.rows (NodeRef.Old node) ≡ None }
        ensures rows { OnOk result (self.new.rows ≡
            self.old.rows ++
            record {
              node = NodeRef.Old node;
              kind = kind;
              parent = NodeRef.Old parent;
              name = name.now;
              lines = [];
            } ∷ []) }
        ensures nodes { self.new.nodes_made ≡ self.old.nodes_made }
        ensures lines { self.new.lines_made ≡ self.old.lines_made }
        ensures err { OnErr result (self.new ≡ self.old) }
    {
        let row = ViewRow {
            node: NodeRef::Old(node),
            kind,
            parent: NodeRef::Old(parent),
            name: name.copy()?,
            lines: RowLines::new(self.rows.allocator()),
        };
        self.rows.push(row)
    }

    /// Appends a line that a history has to its file, which was added before.
    pub fn add_line(&mut self, file: NodeNo, line: LineNo, text: &Text) -> Result<(), Memory>
        requires { kind_in self.old.rows (NodeRef.Old file) ≡ Some File }
        ensures rows { OnOk result (self.new.rows ≡
            at_row (NodeRef.Old file)
            (with_lines_by (λ ls. ls ++ record { line = lines.Old line; text = text.now } ∷ []))
            self.old.rows) }
        ensures nodes { self.new.nodes_made ≡ self.old.nodes_made }
        ensures lines { self.new.lines_made ≡ self.old.lines_made }
        ensures err { OnErr result (self.new ≡ self.old) }
    {
        let mut one = ViewLines::new(self.rows.allocator());
        one.push(ViewLine {
            line: LineRef::Old(line),
            text: text.copy()?,
        })?;
        self.rows.append_lines(&NodeRef::Old(file), one)
    }

    /// Appends lines that a history has to their file, which was added before: all of them or, at `Memory`, none. It looks
    /// the file up once, and the lines share their texts with those that are handed in.
    pub fn add_lines(&mut self, file: NodeNo, lines: &FileRows) -> Result<(), Memory>
        requires { kind_in self.old.rows (NodeRef.Old file) ≡ Some File }
        ensures rows { OnOk result (self.new.rows ≡
            fold (with_file_row file) self.old.rows lines.now) }
        ensures nodes { self.new.nodes_made ≡ self.old.nodes_made }
        ensures lines { self.new.lines_made ≡ self.old.lines_made }
        ensures err { OnErr result (self.new ≡ self.old) }
    {
        let added = old_lines(lines)?;
        self.rows.append_lines(&NodeRef::Old(file), added)
    }

    /// Appends lines that a history has to their file, which was added before, as `add_lines` does. A file without lines shares
    /// them, and takes a byte for each, until an edit puts one among them. The file is looked up only where the row at an index
    /// isn't its.
    pub fn share_lines_at(
        &mut self,
        index: usize,
        file: NodeNo,
        lines: SharedRows,
    ) -> Result<(), Memory>
        requires { kind_in self.old.rows (NodeRef.Old file) ≡ Some File }
        ensures rows { OnOk result (self.new.rows ≡ fold (with_file_row file) self.old.rows lines) }
        ensures nodes { self.new.nodes_made ≡ self.old.nodes_made }
        ensures lines { self.new.lines_made ≡ self.old.lines_made }
        ensures err { OnErr result (self.new ≡ self.old) }
    {
        self.rows.share_lines_at(index, &NodeRef::Old(file), lines)
    }

    /// How many nodes edits have made.
    pub fn nodes_made(&self) -> u32
        ensures { result ≡ self.now.nodes_made }
    {
        self.nodes_made
    }

    /// How many lines edits have made.
    pub fn lines_made(&self) -> u32
        ensures { result ≡ self.now.lines_made }
    {
        self.lines_made
    }

    /// The kind of a node, None exactly where it isn't there.
    pub fn kind(&self, node: NodeRef) -> Option<Kind>
        ensures kind { result ≡ kind_in self.now.rows node }
        ensures shown { (ns : Numbers) (table : List (List ℕ)) (v : Variant) →
            Shows ns table self.now v → result ≡ shown_kind ns v node }
    {
        self.rows.kind_of(&node)
    }

    /// The node to which a path leads, None exactly where a name on it isn't there. It takes no memory, and time
    /// in the names of the path.
    pub fn resolve(&self, path: &Path) -> Option<NodeRef>
        ensures node { result ≡ node_at self.now.rows (NodeRef.Old 0) path.now }
        ensures there { IfSome result (λ node. is_some (kind_in self.now.rows node) ≡ true) }
        ensures shown { (ns : Numbers) (table : List (List ℕ)) (v : Variant) →
            Shows ns table self.now v →
            option_map (node_number ns.nodes) result ≡ path_node v.rows 0 path.now }
        ensures made { IfSome result (λ node. (ns : Numbers) (table : List (List ℕ)) (v : Variant) →
            Shows ns table self.now v → is_made_node ns.nodes self.now.nodes_made node ≡ true) }
    {
        self.follow(path.as_slice())
    }

    /// The node to which names lead from the root, as `resolve` says it of those of a path.
    pub fn follow(&self, names: &[Name]) -> Option<NodeRef>
        ensures node { result ≡ node_at self.now.rows (NodeRef.Old 0) names.now }
        ensures there { IfSome result (λ node. is_some (kind_in self.now.rows node) ≡ true) }
        ensures shown { (ns : Numbers) (table : List (List ℕ)) (v : Variant) →
            Shows ns table self.now v →
            option_map (node_number ns.nodes) result ≡ path_node v.rows 0 names.now }
        ensures made { IfSome result (λ node. (ns : Numbers) (table : List (List ℕ)) (v : Variant) →
            Shows ns table self.now v → is_made_node ns.nodes self.now.nodes_made node ≡ true) }
    {
        self.node_at(names)
    }

    fn node_at(&self, path: &[Name]) -> Option<NodeRef>
        ensures { result ≡ node_at self.now.rows (NodeRef.Old 0) path.now }
    {
        let mut node = NodeRef::Old(NodeNo::new(0));
        'names: for name in path {
            match self.rows.child_in(&node, name.as_slice()) {
                Some(child) => node = child,
                None => return None,
            }
        }
        Some(node)
    }

    /// The lines of a file in order. `NoSuchNode` and `NotFile` come exactly where the node isn't there and where it
    /// is a directory.
    pub fn lines(&self, file: NodeRef) -> Result<ViewLines, ReadFaultOfView>
        ensures lines { IfOk result (λ lines. lines_in self.now.rows file ≡ Some lines) }
        ensures absent { IsErrOf result ReadFaultOfView.NoSuchNode →
            kind_in self.now.rows file ≡ None }
        ensures not_file { IsErrOf result ReadFaultOfView.NotFile →
            kind_in self.now.rows file ≡ Some Dir }
        ensures shown { IfOk result (λ lines. (ns : Numbers) (table : List (List ℕ)) (v : Variant) →
            Shows ns table self.now v → AreLinesOf ns self.now.lines_made v file lines) }
        ensures absent_shown { IsErrOf result ReadFaultOfView.NoSuchNode →
            (ns : Numbers) (table : List (List ℕ)) (v : Variant) → Shows ns table self.now v →
            shows_node ns v file ≡ false }
        ensures not_file_shown { IsErrOf result ReadFaultOfView.NotFile →
            (ns : Numbers) (table : List (List ℕ)) (v : Variant) → Shows ns table self.now v →
            (shows_node ns v file && is_dir v.rows (node_number ns.nodes file)) ≡ true }
    {
        self.lines_of(&file)
    }

    fn lines_of(&self, file: &NodeRef) -> Result<ViewLines, ReadFaultOfView>
        ensures file { OnOk result (kind_in self.now.rows file.now ≡ Some File) }
        ensures lines { IfOk result (λ lines. lines_in self.now.rows file.now ≡ Some lines) }
        ensures absent { IsErrOf result ReadFaultOfView.NoSuchNode →
            kind_in self.now.rows file.now ≡ None }
        ensures not_file { IsErrOf result ReadFaultOfView.NotFile →
            kind_in self.now.rows file.now ≡ Some Dir }
    {
        if is_root(file) {
            return Err(ReadFaultOfView::NotFile);
        }
        let Some(row) = self.rows.get(file) else {
            return Err(ReadFaultOfView::NoSuchNode);
        };
        match row.kind {
            Kind::Dir => Err(ReadFaultOfView::NotFile),
            Kind::File => match row.lines.copied() {
                Ok(lines) => Ok(lines),
                Err(Memory) => Err(ReadFaultOfView::Memory),
            },
        }
    }

    /// What is in a directory, in byte order of names. `NoSuchNode` and `NotDirectory` come exactly where the node isn't
    /// there and where it is a file. It takes time in the nodes.
    pub fn list(&self, dir: NodeRef) -> Result<DirRows, ListFault>
        ensures directory { OnOk result (kind_in self.now.rows dir ≡ Some Dir) }
        ensures rows { IfOk result (λ rows. rows ≡ listed_in self.now.rows dir) }
        ensures absent { IsErrOf result ListFault.NoSuchNode → kind_in self.now.rows dir ≡ None }
        ensures not_directory { IsErrOf result ListFault.NotDirectory →
            kind_in self.now.rows dir ≡ Some File }
        ensures shown { IfOk result (λ rows. (ns : Numbers) (table : List (List ℕ)) (v : Variant) →
            Shows ns table self.now v → IsListingOf ns v dir rows) }
        ensures absent_shown { IsErrOf result ListFault.NoSuchNode →
            (ns : Numbers) (table : List (List ℕ)) (v : Variant) → Shows ns table self.now v →
            shows_node ns v dir ≡ false }
        ensures not_directory_shown { IsErrOf result ListFault.NotDirectory →
            (ns : Numbers) (table : List (List ℕ)) (v : Variant) → Shows ns table self.now v →
            (shows_node ns v dir && not (is_dir v.rows (node_number ns.nodes dir))) ≡ true }
    {
        self.list_of(&dir)
    }

    fn list_of(&self, dir: &NodeRef) -> Result<DirRows, ListFault>
        ensures directory { OnOk result (kind_in self.now.rows dir.now ≡ Some Dir) }
        ensures rows { IfOk result (λ rows. rows ≡ listed_in self.now.rows dir.now) }
        ensures absent { IsErrOf result ListFault.NoSuchNode →
            kind_in self.now.rows dir.now ≡ None }
        ensures not_directory { IsErrOf result ListFault.NotDirectory →
            kind_in self.now.rows dir.now ≡ Some File }
    {
        match self.rows.kind_of(dir) {
            None => Err(ListFault::NoSuchNode),
            Some(Kind::File) => Err(ListFault::NotDirectory),
            Some(Kind::Dir) => match listing(self.rows.allocator(), self.rows.as_slice(), dir) {
                Ok(rows) => Ok(rows),
                Err(Memory) => Err(ListFault::Memory),
            },
        }
    }

    /// The tree: all nodes but the root in byte order of their paths, which have no `/` before them, each file with its lines,
    /// every one followed by byte 10. It takes time in the tree, but for the path of each node, which it climbs to the root.
    pub fn tree(&self) -> Result<TreeRows, Memory>
        ensures tree { IfOk result (λ tree. tree ≡ tree_in self.now.rows) }
        ensures shown { IfOk result (λ tree. (ns : Numbers) (table : List (List ℕ)) (v : Variant) →
            Shows ns table self.now v → tree ≡ tree_of v) }
        ensures whole { IfOk result (λ tree. (ns : Numbers) (table : List (List ℕ)) (v : Variant) →
            Shows ns table self.now v → fault_of v.rows ≡ None → IsTreeOf v tree) }
    {
        tree(&self.rows)
    }

    /// The first fault of a view of nodes that a history has, None exactly where each variant that it shows is sound. It
    /// takes time in the nodes and their depths.
    pub fn first_fault(&self) -> Result<Option<Fault>, Memory>
        requires { AreOld self.now.rows }
        ensures fault { IfOk result (λ fault. fault ≡ fault_in (map old_row self.now.rows)) }
        ensures shown { IfOk result (λ fault. (ns : Numbers) (table : List (List ℕ)) (v : Variant) →
            Shows ns table self.now v → fault ≡ fault_in v.rows) }
    {
        first_fault(self.rows.allocator(), &self.rows)
    }

    /// Applies an edit, unless the rows of the view refuse it, as then each variant that it shows does; the view then stays
    /// as it is. `Memory` may come where nothing refuses the edit.
    /// An insertion or deletion takes time in the lines of its file, a new node or name in the name, a move in the depth of
    /// its directory, a removal in the nodes. A deletion, a move and a removal take no memory.
    pub fn apply(&mut self, edit: &Edit) -> Result<(), EditFault>
        requires nodes { self.old.nodes_made < 2 ^ 32 - 1 }
        requires lines { self.old.lines_made < 2 ^ 32 - 1 }
        ensures accepted { OnOk result ((ns : Numbers) (table : List (List ℕ)) (v : Variant) →
            Shows ns table self.old v → refusal ns v edit.now ≡ None) }
        ensures applied { OnOk result ((ns : Numbers) (table : List (List ℕ)) (v : Variant) →
            IsTable table → Shows ns table self.old v →
            Shows ns (table_after ns table edit.now) self.new
            (fold edited v (next_by_number ns table self.old edit.now))) }
        ensures accepted_seen { OnOk result (seen_fault self.old.rows edit.now ≡ None) }
        ensures made { OnOk result (self.new ≡ seen_after self.old edit.now) }
        ensures nodes { OnOk result (self.new.nodes_made ≡
            self.old.nodes_made + nodes_made (edit.now ∷ [])) }
        ensures lines { OnOk result (self.new.lines_made ≡
            self.old.lines_made + length (anchors_of 0 (edit.now ∷ []))) }
        ensures refused { IfErr result (λ f. (ns : Numbers) (table : List (List ℕ)) (v : Variant) →
            Shows ns table self.old v → FaultBy f (refusal ns v edit.now)) }
        ensures refused_seen { IfErr result (λ f. FaultBy f (seen_fault self.old.rows edit.now)) }
        ensures memory { IsErrOf result EditFault.Memory → takes_memory edit.now ≡ true }
        ensures same { OnErr result (self.new ≡ self.old) }
    {
        match self.fault(edit) {
            Some(fault) => Err(fault),
            None => match self.act(edit) {
                Ok(()) => Ok(()),
                Err(Memory) => Err(EditFault::Memory),
            },
        }
    }

    // The refusal of an edit.
    fn fault(&self, edit: &Edit) -> Option<EditFault>
        ensures fault { result ≡ seen_fault self.now.rows edit.now }
        ensures once { AreRows self.now.nodes_made self.now.rows }
    {
        let rows = &self.rows;
        match edit {
            Edit::New { parent, name, .. } => self.new_fault(parent, name.as_slice()),
            Edit::Insert { file, after, .. } => {
                self.line_fault(file, shows_anchor(rows, file, after))
            }
            Edit::Delete { file, line } => self.line_fault(file, shows_line(rows, file, line)),
            Edit::Rename { node, name } => self.rename_fault(node, name.as_slice()),
            Edit::Move { node, parent } => self.move_fault(node, parent),
            Edit::Remove { node } => self.remove_fault(node),
        }
    }

    fn new_fault(&self, parent: &NodeRef, name: &[u8]) -> Option<EditFault>
        ensures { result ≡ new_fault (kind_in self.now.rows parent.now)
            (has_child self.now.rows parent.now name.now) }
    {
        match self.rows.kind_of(parent) {
            None => Some(EditFault::NoSuchNode),
            Some(Kind::File) => Some(EditFault::NotDirectory),
            Some(Kind::Dir) => match self.rows.has_child(parent, name) {
                true => Some(EditFault::NameTaken),
                false => None,
            },
        }
    }

    fn line_fault(&self, file: &NodeRef, had: bool) -> Option<EditFault>
        ensures { result ≡ line_fault (kind_in self.now.rows file.now) had }
    {
        match self.rows.kind_of(file) {
            None => Some(EditFault::NoSuchNode),
            Some(Kind::Dir) => Some(EditFault::NotFile),
            Some(Kind::File) => match had {
                true => None,
                false => Some(EditFault::NoSuchLine),
            },
        }
    }

    fn rename_fault(&self, node: &NodeRef, name: &[u8]) -> Option<EditFault>
        ensures { result ≡ rename_fault self.now.rows node.now name.now }
    {
        if is_root(node) {
            return Some(EditFault::IsRoot);
        }
        if !self.rows.is_there(node) {
            return Some(EditFault::NoSuchNode);
        }
        if self.rows.has_child_beside(node, name) {
            return Some(EditFault::NameTaken);
        }
        None
    }

    fn move_fault(&self, node: &NodeRef, parent: &NodeRef) -> Option<EditFault>
        ensures { result ≡ move_fault self.now.rows node.now parent.now }
    {
        if is_root(node) {
            return Some(EditFault::IsRoot);
        }
        if !self.rows.is_there(node) || !self.rows.is_there(parent) {
            return Some(EditFault::NoSuchNode);
        }
        if !self.is_dir(parent) {
            return Some(EditFault::NotDirectory);
        }
        if self.rows.lies_within(node, parent) {
            return Some(EditFault::IntoItself);
        }
        if self.rows.has_child_of(parent, node) {
            return Some(EditFault::NameTaken);
        }
        None
    }

    fn remove_fault(&self, node: &NodeRef) -> Option<EditFault>
        ensures { result ≡ remove_fault self.now.rows node.now }
    {
        if is_root(node) {
            return Some(EditFault::IsRoot);
        }
        if !self.rows.is_there(node) {
            return Some(EditFault::NoSuchNode);
        }
        if self.rows.has_children(node) {
            return Some(EditFault::NotEmpty);
        }
        None
    }

    fn is_dir(&self, node: &NodeRef) -> bool
        ensures { result ≡ kind_is_dir (kind_in self.now.rows node.now) }
    {
        match self.rows.kind_of(node) {
            Some(Kind::Dir) => true,
            Some(Kind::File) | None => false,
        }
    }

    // Makes a node.
    fn make(&mut self, kind: Kind, parent: &NodeRef, name: &Name) -> Result<(), Memory>
        requires { self.old.nodes_made < 2 ^ 32 - 1 }
        ensures rows { OnOk result (self.new.rows ≡
            self.old.rows ++
            record {
              node = NodeRef.New self.old.nodes_made;
              kind = kind;
              parent = parent.now;
              name = name.now;
              lines = [];
            } ∷ []) }
        ensures nodes { OnOk result (self.new.nodes_made ≡ self.old.nodes_made + 1) }
        ensures lines { OnOk result (self.new.lines_made ≡ self.old.lines_made) }
        ensures err { OnErr result (self.new ≡ self.old) }
    {
        let row = ViewRow {
            node: NodeRef::New(self.nodes_made),
            kind,
            parent: *parent,
            name: name.copy()?,
            lines: RowLines::new(self.rows.allocator()),
        };
        self.rows.push(row)?;
        self.nodes_made += 1;
        Ok(())
    }

    // Makes a line.
    fn insert(&mut self, file: &NodeRef, after: &LineRef, text: &Text) -> Result<(), Memory>
        requires { self.old.lines_made < 2 ^ 32 - 1 }
        ensures rows { OnOk result (self.new.rows ≡
            at_row file.now
            (with_lines_by
            (after_ref after.now
            (record { line = LineRef.New self.old.lines_made; text = text.now }))) self.old.rows) }
        ensures nodes { OnOk result (self.new.nodes_made ≡ self.old.nodes_made) }
        ensures lines { OnOk result (self.new.lines_made ≡ self.old.lines_made + 1) }
        ensures err { OnErr result (self.new ≡ self.old) }
    {
        let line = ViewLine {
            line: LineRef::New(self.lines_made),
            text: text.copy()?,
        };
        self.rows.insert_line(file, after, line)?;
        self.lines_made += 1;
        Ok(())
    }

    // Takes a line out.
    fn delete(&mut self, file: &NodeRef, line: &LineRef)
        ensures rows { self.new.rows ≡ at_row file.now (with_lines_by (without_ref line.now))
            self.old.rows }
        ensures nodes { self.new.nodes_made ≡ self.old.nodes_made }
        ensures lines { self.new.lines_made ≡ self.old.lines_made }
    {
        self.rows.delete_line(file, line);
    }

    // Gives a node another name.
    fn rename(&mut self, node: &NodeRef, name: &Name) -> Result<(), Memory>
        ensures rows { OnOk result (self.new.rows ≡
            at_row node.now (with_name_by name.now) self.old.rows) }
        ensures nodes { self.new.nodes_made ≡ self.old.nodes_made }
        ensures lines { self.new.lines_made ≡ self.old.lines_made }
        ensures err { OnErr result (self.new ≡ self.old) }
    {
        let name = name.copy()?;
        self.rows.set_name(node, name)
    }

    // Gives a node another directory.
    fn put_into(&mut self, node: &NodeRef, parent: &NodeRef)
        ensures rows { self.new.rows ≡ at_row node.now (with_parent_by parent.now) self.old.rows }
        ensures nodes { self.new.nodes_made ≡ self.old.nodes_made }
        ensures lines { self.new.lines_made ≡ self.old.lines_made }
    {
        self.rows.set_parent(node, parent);
    }

    // Takes a node out.
    fn remove(&mut self, node: &NodeRef)
        ensures rows { self.new.rows ≡ without_node node.now self.old.rows }
        ensures nodes { self.new.nodes_made ≡ self.old.nodes_made }
        ensures lines { self.new.lines_made ≡ self.old.lines_made }
    {
        self.rows.remove(node);
    }

    // Does what an edit does.
    fn act(&mut self, edit: &Edit) -> Result<(), Memory>
        requires nodes { self.old.nodes_made < 2 ^ 32 - 1 }
        requires lines { self.old.lines_made < 2 ^ 32 - 1 }
        ensures rows { OnOk result (self.new.rows ≡ (seen_after self.old edit.now).rows) }
        ensures nodes_made { OnOk result
            (self.new.nodes_made ≡ (seen_after self.old edit.now).nodes_made) }
        ensures lines_made { OnOk result
            (self.new.lines_made ≡ (seen_after self.old edit.now).lines_made) }
        ensures memory { OnErr result (takes_memory edit.now ≡ true) }
        ensures err { OnErr result (self.new ≡ self.old) }
    {
        match edit {
            Edit::New { kind, parent, name } => self.make(*kind, parent, name),
            Edit::Insert { file, after, text } => self.insert(file, after, text),
            Edit::Delete { file, line } => {
                self.delete(file, line);
                Ok(())
            }
            Edit::Rename { node, name } => self.rename(node, name),
            Edit::Move { node, parent } => {
                self.put_into(node, parent);
                Ok(())
            }
            Edit::Remove { node } => {
                self.remove(node);
                Ok(())
            }
        }
    }
}
