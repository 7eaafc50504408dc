// How sessions are edited.
ghost use Rattle.std.specs.Prelude.{◌≡◌, ◌<◌, length, true, Some};
ghost use Rattle.cov_base.specs.Spelling.{is_line_text};
ghost use Rattle.cov_edit.specs.EditFits.{has_line_text};
ghost use Rattle.cov_lines.specs.Acting.{Acts};
ghost use Rattle.cov_lines.specs.Editing.{line_ref};
ghost use Rattle.cov_lines.specs.Step.{deleted, edited, exchanged, inserted, made, made_in, moved, removed, renamed, replaced};
ghost use Rattle.cov_session.specs.Named.{named};
ghost use Rattle.cov_session.specs.Open.{NamedSession};

use crate::state::ServerState;
use cov_base::{Kind, LineNo, LineRef, Name, NodeRef, Path, Text};
use cov_codes::Stop;
use cov_edit::Edit;
use cov_script::{LineField, reply_new_line, reply_plain};

impl ServerState {
    /// Makes a directory or file at a path.
    pub(crate) fn make_node(&mut self, kind: Kind, name: &Name, path: &Path) -> Result<Text, Stop>
        requires { 0 < length path.now }
        ensures { Acts (made self.old.state kind name.now path.now)
            self.old.state self.new.state result }
    {
        let Some((own, directory)) = path.as_slice().split_last() else {
            unreachable!()
        };
        self.make_in(kind, name, directory, own)
    }

    #[tactic(auto, unfolding(crate::specs::Step::made_in))]
    fn make_in(
        &mut self,
        kind: Kind,
        name: &Name,
        directory: &[Name],
        own: &Name,
    ) -> Result<Text, Stop>
        ensures { Acts (made_in self.old.state kind name.now directory.now own.now)
            self.old.state self.new.state result }
    {
        let (_, parent) = self.node_at(name, directory)?;
        let own = own.copy()?;
        self.edit(
            name,
            Edit::New {
                kind,
                parent,
                name: own,
            },
        )
    }

    /// Gives a node that a session sees another name in its directory.
    #[tactic(auto, unfolding(crate::specs::Step::renamed))]
    pub(crate) fn rename(&mut self, name: &Name, path: &Path, to: Name) -> Result<Text, Stop>
        ensures { Acts (renamed self.old.state name.now path.now to)
            self.old.state self.new.state result }
    {
        let (_, node) = self.node_at(name, path.as_slice())?;
        self.edit(name, Edit::Rename { node, name: to })
    }

    /// Moves a node that a session sees into a directory that it sees.
    #[tactic(auto, unfolding(crate::specs::Step::moved))]
    pub(crate) fn move_node(
        &mut self,
        name: &Name,
        path: &Path,
        target: &Path,
    ) -> Result<Text, Stop>
        ensures { Acts (moved self.old.state name.now path.now target.now)
            self.old.state self.new.state result }
    {
        let (_, node) = self.node_at(name, path.as_slice())?;
        let (_, parent) = self.node_at(name, target.as_slice())?;
        self.edit(name, Edit::Move { node, parent })
    }

    /// Removes a node that a session sees.
    #[tactic(auto, unfolding(crate::specs::Step::removed))]
    pub(crate) fn remove(&mut self, name: &Name, path: &Path) -> Result<Text, Stop>
        ensures { Acts (removed self.old.state name.now path.now)
            self.old.state self.new.state result }
    {
        let (_, node) = self.node_at(name, path.as_slice())?;
        self.edit(name, Edit::Remove { node })
    }

    /// Inserts a line into a file that a session sees.
    #[tactic(auto, unfolding(crate::specs::Step::inserted))]
    pub(crate) fn insert(
        &mut self,
        name: &Name,
        path: &Path,
        line: LineField,
        text: Text,
    ) -> Result<Text, Stop>
        requires { is_line_text text ≡ true }
        ensures { Acts (inserted self.old.state name.now path.now line text)
            self.old.state self.new.state result }
    {
        let (_, file) = self.node_at(name, path.as_slice())?;
        let after = line_ref(line);
        self.edit(name, Edit::Insert { file, after, text })
    }

    /// Deletes a line of a file that a session sees.
    #[tactic(auto, unfolding(crate::specs::Step::deleted))]
    pub(crate) fn delete(&mut self, name: &Name, path: &Path, line: LineField) -> Result<Text, Stop>
        ensures { Acts (deleted self.old.state name.now path.now line)
            self.old.state self.new.state result }
    {
        let (_, file) = self.node_at(name, path.as_slice())?;
        let line = line_ref(line);
        self.edit(name, Edit::Delete { file, line })
    }

    /// Replaces a line of a file that a session sees.
    #[tactic(auto, unfolding(crate::specs::Step::replaced))]
    pub(crate) fn replace(
        &mut self,
        name: &Name,
        path: &Path,
        line: LineField,
        text: Text,
    ) -> Result<Text, Stop>
        requires { is_line_text text ≡ true }
        ensures { Acts (replaced self.old.state name.now path.now line text)
            self.old.state self.new.state result }
    {
        let (_, file) = self.node_at(name, path.as_slice())?;
        self.exchange(name, file, line_ref(line), text)
    }

    // Adds an edit to the session of a name. The reply gives the number of the line that it inserts, if it does.
    fn edit(&mut self, name: &Name, edit: Edit) -> Result<Text, Stop>
        requires { has_line_text edit ≡ true }
        ensures { (s : NamedSession) → named self.old.state.sessions name.now ≡ Some s →
            Acts (edited self.old.state name.now s.session edit)
            self.old.state self.new.state result }
    {
        match self.sessions.edit(name, edit)? {
            Some(number) => Ok(reply_new_line(self.alloc, number)?),
            None => Ok(reply_plain(self.alloc)?),
        }
    }

    // Replaces a line in the session of a name. The reply gives the number of the new one.
    fn exchange(
        &mut self,
        name: &Name,
        file: NodeRef,
        line: LineRef,
        text: Text,
    ) -> Result<Text, Stop>
        requires { is_line_text text ≡ true }
        ensures { (s : NamedSession) → named self.old.state.sessions name.now ≡ Some s →
            Acts (exchanged self.old.state name.now s.session file line text)
            self.old.state self.new.state result }
    {
        let number = self.sessions.replace(name, file, line, text)?;
        Ok(reply_new_line(self.alloc, number)?)
    }
}

// A line as an edit names it.
fn line_ref(line: LineField) -> LineRef
    ensures { result ≡ line_ref line }
{
    match line {
        LineField::Number(number) => LineRef::Old(LineNo::new(number)),
        LineField::Own(number) => LineRef::New(number),
    }
}
