// How much edits make.
ghost use Rattle.std.specs.Prelude.{◌≡◌, ◌<◌, ◌+◌, ◌*◌, ◌^◌, ◌≤◌, [], ◌∷◌, true, length};
ghost use Rattle.std.specs.List.{list_all};
ghost use Rattle.cov_base.specs.declared.limits.TheConstants.{LIMITS, MOST_TEXT_BYTES};
ghost use Rattle.cov_edit.specs.EditFits.{fits_edit};
ghost use Rattle.cov_edit.specs.History.{edit_bytes};
ghost use Rattle.cov_edit.specs.Numbering.{nodes_made, anchors_of};
ghost use Rattle.cov_engine.specs.Sizes.{sizes_of, sizes_refusal};
ghost use Rattle.cov_history.specs.declared.refusal.Refusal.TheVariants as refusals;
ghost use Rattle.cov_view.specs.Refusals.{first_of};
ghost use Rattle.cov_history.specs.Verdict.{amount_refusals};

use crate::{Counts, Refusal};
use cov_base::Limits;
use cov_edit::Edit;

/// How many lines and nodes edits make, and how many bytes of text they insert.
#[derive(Clone, Copy)]
pub(crate) struct Sizes {
    pub(crate) lines: u32,
    pub(crate) nodes: u32,
    pub(crate) bytes: u64,
}

pub(crate) fn measure(edits: &[Edit]) -> Sizes
    requires few { length edits.now ≤ LIMITS.edits }
    requires fits { list_all fits_edit edits.now ≡ true }
    ensures sizes { result ≡ sizes_of edits.now }
    ensures few { result.bytes ≤ LIMITS.edits * MOST_TEXT_BYTES }
{
    let mut sizes = Sizes {
        lines: 0,
        nodes: 0,
        bytes: 0,
    };
    let mut ahead = edits;
    while let [edit, rest @ ..] = ahead {
        sizes = with_edit(sizes, edit);
        ahead = rest;
    }
    sizes
}

// The sizes with those of an edit more.
fn with_edit(sizes: Sizes, edit: &Edit) -> Sizes
    requires few { (sizes.lines ≤ LIMITS.edits) × (sizes.nodes ≤ LIMITS.edits) ×
        (sizes.bytes ≤ LIMITS.edits * MOST_TEXT_BYTES) }
    requires fits { fits_edit edit.now ≡ true }
    ensures lines { result.lines ≡ sizes.lines + length (anchors_of 0 (edit.now ∷ [])) }
    ensures nodes { result.nodes ≡ sizes.nodes + nodes_made (edit.now ∷ []) }
    ensures bytes { result.bytes ≡ sizes.bytes + edit_bytes edit.now }
{
    match edit {
        Edit::New { .. } => Sizes {
            nodes: sizes.nodes + 1,
            ..sizes
        },
        Edit::Insert { text, .. } => Sizes {
            lines: sizes.lines + 1,
            nodes: sizes.nodes,
            bytes: sizes.bytes + text.len() as u64,
        },
        Edit::Delete { .. } | Edit::Rename { .. } | Edit::Move { .. } | Edit::Remove { .. } =>
            sizes,
    }
}

/// The refusal of edits that are too many or make too much for limits, where so much is there already.
pub(crate) fn refusal(
    limits: Limits,
    counts: Counts,
    edits: &[Edit],
    sizes: Sizes,
) -> Option<Refusal>
    requires sizes { length edits.now ≤ limits.edits → sizes ≡ sizes_of edits.now }
    requires within { limits.commit_bytes ≤ limits.bytes }
    ensures { result ≡ sizes_refusal limits counts edits.now }
{
    if edits.len() > limits.edits {
        return Some(Refusal::TooManyEdits);
    }
    refusal_of_sizes(limits, counts, sizes)
}

fn refusal_of_sizes(limits: Limits, counts: Counts, sizes: Sizes) -> Option<Refusal>
    requires { limits.commit_bytes ≤ limits.bytes }
    ensures { result ≡
        first_of (amount_refusals limits (counts.lines + sizes.lines) (counts.nodes +
        sizes.nodes) sizes.bytes (counts.bytes + sizes.bytes)) }
{
    if u64::from(counts.lines) + u64::from(sizes.lines) > limits.lines {
        return Some(Refusal::TooManyLines);
    }
    if u64::from(counts.nodes) + u64::from(sizes.nodes) > limits.nodes {
        return Some(Refusal::TooManyNodes);
    }
    if sizes.bytes > limits.commit_bytes || counts.bytes > limits.bytes - sizes.bytes {
        return Some(Refusal::TooManyBytes);
    }
    None
}

/// The counts with what edits make more.
pub(crate) fn with_sizes(counts: Counts, sizes: Sizes) -> Counts
    requires lines { counts.lines + sizes.lines < 2 ^ 32 }
    requires nodes { counts.nodes + sizes.nodes < 2 ^ 32 }
    requires bytes { counts.bytes + sizes.bytes < 2 ^ 64 }
    ensures { result ≡
        record {
          lines = counts.lines + sizes.lines;
          nodes = counts.nodes + sizes.nodes;
          bytes = counts.bytes + sizes.bytes;
        } }
{
    Counts {
        lines: counts.lines + sizes.lines,
        nodes: counts.nodes + sizes.nodes,
        bytes: counts.bytes + sizes.bytes,
    }
}
