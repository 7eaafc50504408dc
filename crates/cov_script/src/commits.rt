// The commits of the generated script.
ghost use Rattle.std.specs.Prelude.{◌≡◌, ◌<◌, suc, ◌+◌, ◌++◌, OnOk, codes};
ghost use Rattle.cov_script.specs.Commits.{file_path, anchor_text, insert_line, insert_lines, delete_line, planned_lines, commit_lines, mark_after, after_commit, after_commits};
ghost use Rattle.cov_script.specs.Draws.{state_after};

use crate::LineField;
use crate::draws::Draws;
use crate::plan::{Ambition, Plan};
use crate::word::append_numbered;
use cov_base::{Memory, Text};

/// The commits that are still to come: their numbers are drawn one after another, and each file has a mark.
#[derive(Drop)]
pub(crate) struct Commits {
    draws: Draws,
    /// Of each file the number of the line that its next commit deletes, or 0.
    marks: [u32; 64],
}

impl Commits {
    pub(crate) fn new(seed: u64) -> Commits
        ensures { result ≡ after_commits 0 seed }
    {
        Commits {
            draws: Draws::new(seed),
            marks: [0; 64],
        }
    }

    /// Appends the lines of the next commit, which is behind so many others.
    pub(crate) fn append_next(&mut self, text: &mut Text, index: u32) -> Result<(), Memory>
        requires { index < 400 }
        ensures lines { OnOk result (text.new ≡ text.old ++ commit_lines (suc index) self.old) }
        ensures after { OnOk result (self.new ≡ after_commit index self.old) }
    {
        let plan = Plan::draw(&mut self.draws);
        let mark = self.marks[plan.file as usize];
        append_planned(&plan, &mut self.draws, mark, index + 1, text)?;
        self.marks[plan.file as usize] = mark_after(plan.ambition, index);
        Ok(())
    }
}

// Appends the lines of a commit.
fn append_planned(
    plan: &Plan,
    draws: &mut Draws,
    mark: u32,
    commit: u32,
    text: &mut Text,
) -> Result<(), Memory>
    ensures lines { OnOk result (text.new ≡
        text.old ++ planned_lines commit plan.now draws.old mark) }
    ensures draws { OnOk result (draws.new ≡ state_after 99 draws.old) }
{
    plan.append_opening(text)?;
    append_inserts(draws, plan.file, commit, text)?;
    append_delete(plan.file, mark, text)?;
    text.append(b"commit s\n")
}

// Appends the lines that insert a commit's lines.
fn append_inserts(draws: &mut Draws, file: u32, commit: u32, text: &mut Text) -> Result<(), Memory>
    ensures lines { OnOk result (text.new ≡ text.old ++ insert_lines file commit draws.old) }
    ensures draws { OnOk result (draws.new ≡ state_after 99 draws.old) }
{
    append_insert(file, commit, LineField::Number(0), 0, text)?;
    for others in 0..99 {
        let anchor = LineField::Own(draws.below(others + 1));
        append_insert(file, commit, anchor, others + 1, text)?;
    }
    Ok(())
}

// Appends the line that inserts one line.
fn append_insert(
    file: u32,
    commit: u32,
    anchor: LineField,
    index: u32,
    text: &mut Text,
) -> Result<(), Memory>
    ensures { OnOk result (text.new ≡ text.old ++ insert_line file commit anchor index) }
{
    text.append(b"insert s ")?;
    append_path(file, text)?;
    append_anchor(anchor, text)?;
    append_numbered(text, b" line ", commit)?;
    append_numbered(text, b" ", index)?;
    text.append(b"\n")
}

// Appends the line behind which another is inserted, behind a space.
fn append_anchor(anchor: LineField, text: &mut Text) -> Result<(), Memory>
    ensures { OnOk result (text.new ≡ text.old ++ codes " " ++ anchor_text anchor) }
{
    match anchor {
        LineField::Number(number) => append_numbered(text, b" ", number),
        LineField::Own(index) => append_numbered(text, b" +", index),
    }
}

// Appends the line that deletes a file's marked line, if there is one.
fn append_delete(file: u32, mark: u32, text: &mut Text) -> Result<(), Memory>
    ensures { OnOk result (text.new ≡ text.old ++ delete_line file mark) }
{
    if mark == 0 {
        return Ok(());
    }
    text.append(b"delete s ")?;
    append_path(file, text)?;
    append_numbered(text, b" ", mark)?;
    text.append(b"\n")
}

/// Appends where a file is.
pub(crate) fn append_path(file: u32, text: &mut Text) -> Result<(), Memory>
    ensures { OnOk result (text.new ≡ text.old ++ file_path file) }
{
    append_numbered(text, b"/d", file % 8)?;
    append_numbered(text, b"/f", file)
}

// A file's mark after a commit in it.
fn mark_after(ambition: Ambition, index: u32) -> u32
    requires { index < 400 }
    ensures { result ≡ mark_after ambition index }
{
    match ambition {
        Ambition::Always => 100 * index + 1,
        Ambition::On | Ambition::Either | Ambition::Without => 0,
    }
}
