// Inserts one after the other.
ghost use Rattle.std.specs.Prelude.{◌≡◌, ◌<◌, ◌+◌, ◌^◌, ◌++◌, ◌∷◌, [], true, length, OnOk};
ghost use Rattle.std.specs.List.{list_all};
ghost use Rattle.cov_base.specs.Spelling.{is_line_text};
ghost use Rattle.cov_cond.specs.Committing.{anchor_behind, plain_count, text_count};
ghost use Rattle.cov_cond.specs.Importing.{chained, meant_for_all, plain_in, plain_texts};
ghost use Rattle.cov_edit.specs.EditFits.{has_line_text};

use super::choosing::everywhere;
use cov_base::{LineRef, Memory, NodeRef, Text};
use cov_cond_text::Run;
use cov_edit::{Edit, Edits, Sided};

/// Appends an edit that is meant for the whole of its commit's ambition.
pub(crate) fn push_for_all(edits: &mut Edits, edit: Edit) -> Result<(), Memory>
    requires { has_line_text edit ≡ true }
    ensures { OnOk result (edits.new ≡ edits.old ++ meant_for_all (edit ∷ [])) }
{
    edits.push(Sided {
        side: everywhere(),
        edit,
    })
}

// Behind which line the next insert goes, so many coming before it, the first of which went behind an anchor.
fn anchor_behind(first: &LineRef, inserted: u32) -> LineRef
    ensures { result ≡ anchor_behind first.now inserted }
{
    match inserted {
        0 => *first,
        _ => LineRef::New(inserted - 1),
    }
}

/// Appends the inserts of texts one after the other, so many coming before them in their commit, the first of which went behind an
/// anchor.
pub(crate) fn insert_texts(
    edits: &mut Edits,
    file: &NodeRef,
    first: &LineRef,
    before: u32,
    texts: &[Text],
) -> Result<(), Memory>
    requires spelt { list_all is_line_text texts.now ≡ true }
    requires few { before + length texts.now < 2 ^ 32 }
    ensures { OnOk result (edits.new ≡ edits.old ++ meant_for_all
        (chained file.now (anchor_behind first.now before) before texts.now)) }
{
    let mut inserted = before;
    let mut ahead = texts;
    while let [text, rest @ ..] = ahead {
        let edit = Edit::Insert {
            file: *file,
            after: anchor_behind(first, inserted),
            text: text.copy()?,
        };
        push_for_all(edits, edit)?;
        inserted += 1;
        ahead = rest;
    }
    Ok(())
}

/// How many texts of a run stand without conditions.
pub(crate) fn plain_count(run: &Run) -> usize
    ensures { result ≡ plain_count run.now }
{
    match run.conditions.is_empty() {
        true => run.texts.as_slice().len(),
        false => 0,
    }
}

/// Appends the inserts of the texts without conditions one after the other, the first behind an anchor.
pub(crate) fn insert_plain(
    edits: &mut Edits,
    file: &NodeRef,
    first: &LineRef,
    runs: &[Run],
) -> Result<(), Memory>
    requires few { text_count runs.now < 2 ^ 32 }
    ensures { OnOk result (edits.new ≡ edits.old ++ meant_for_all
        (chained file.now first.now 0 (plain_texts runs.now))) }
{
    let mut inserted = 0;
    let mut ahead = runs;
    while let [run, rest @ ..] = ahead {
        insert_run(edits, file, first, inserted, run)?;
        inserted += plain_count(run) as u32;
        ahead = rest;
    }
    Ok(())
}

// Appends the inserts of the texts of a run, if these stand without conditions.
fn insert_run(
    edits: &mut Edits,
    file: &NodeRef,
    first: &LineRef,
    before: u32,
    run: &Run,
) -> Result<(), Memory>
    requires few { before + length run.now.texts < 2 ^ 32 }
    ensures { OnOk result (edits.new ≡ edits.old ++ meant_for_all
        (chained file.now (anchor_behind first.now before) before
        (plain_in run.now.conditions run.now.texts))) }
{
    match run.conditions.is_empty() {
        true => insert_texts(edits, file, first, before, run.texts.as_slice()),
        false => Ok(()),
    }
}
