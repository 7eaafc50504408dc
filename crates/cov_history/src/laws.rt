//! Laws of histories: replay, sessions, verdicts and soundness. Each function does nothing; what it ensures is the law.
ghost use Rattle.cov_history.specs.Laws.{GoodSessionsStay, GoodCommitsPass, CommitShowsSeen, ReplayStands, LegalIsMade, CommitShowsFiles, SeenStays, OpenOptionsAreDeclared, RowsAreInOrder, RowsAreOnce, CommitChangesRows, LinesKeepRows, LegalIsUnread, CommitIsUnread, NoneBadIsSound, BadHasFault, LegalIsSound, UpgradeIsLegalOnce, LinesStaySound, RowsAreFew, LegalTreeIsWhole, LegalLeavesVariant};

use cov_view::laws::tree_is_whole;

/// A good session stays good when its history grows.
pub fn good_sessions_stay()
    ensures { GoodSessionsStay }
{}

/// The commit of a good session is refused only where it is too large, empty, overtaken or would leave a fault, or the history is full.
pub fn good_commits_pass()
    ensures { GoodCommitsPass }
{}

/// Where no commit stands after the base, the commit of a good session shows what the session saw.
pub fn commit_shows_seen()
    ensures { CommitShowsSeen }
{}

/// The lines of a replay stand in order, and each is one of the history's.
pub fn replay_stands()
    ensures { ReplayStands }
{}

/// On each choice, the replay of a legal history names only the root and the nodes that the history made.
pub fn legal_is_made()
    ensures { LegalIsMade }
{}

/// Where the commit of a good session is accepted, each file that it touches is as the session saw it, in each valid variant that
/// begins with the session's choice.
pub fn commit_shows_files()
    ensures { CommitShowsFiles }
{}

/// What a session sees stays as it is, whatever others do.
pub fn seen_stays()
    ensures { SeenStays }
{}

/// An option that the rules of a history leave open is declared.
pub fn open_options_are_declared()
    ensures { OpenOptionsAreDeclared }
{}

/// The rows of a replay stand in order of their nodes.
pub fn rows_are_in_order()
    ensures { RowsAreInOrder }
{}

/// No node has two rows in a replay, and the root has none.
pub fn rows_are_once()
    ensures { RowsAreOnce }
{}

/// Of a commit's changes of the rows, those are made, in order, whose ambition and side are true.
pub fn commit_changes_rows()
    ensures { CommitChangesRows }
{}

/// Edits of lines alone leave the rows.
pub fn lines_keep_rows()
    ensures { LinesKeepRows }
{}

/// The replay of a legal history reads no option that the history doesn't declare.
pub fn legal_is_unread()
    ensures { LegalIsUnread }
{}

/// The replay with a commit more reads none either, if its ambition and sides have only declared options.
pub fn commit_is_unread()
    ensures { CommitIsUnread }
{}

/// Where no choice is bad, a command leaves no fault on a valid choice within the ambition.
pub fn none_bad_is_sound()
    ensures { NoneBadIsSound }
{}

/// A bad choice is one of all declared options, valid and within the ambition, and the command leaves a fault on it.
pub fn bad_has_fault()
    ensures { BadHasFault }
{}

/// Each valid variant of a legal history is sound.
pub fn legal_is_sound()
    ensures { LegalIsSound }
{}

/// Behind a legal history an upgrade is legal exactly where none stands and there is room for a command.
pub fn upgrade_is_legal_once()
    ensures { UpgradeIsLegalOnce }
{}

/// A commit of edits of lines alone has no bad choice after a legal history.
pub fn lines_stay_sound()
    ensures { LinesStaySound }
{}

/// A replay has no more rows than its history made nodes.
pub fn rows_are_few()
    ensures { RowsAreFew }
{}

/// The tree of each valid variant of a legal history has a row of each of its nodes, in byte order of paths.
pub fn legal_tree_is_whole()
    ensures { LegalTreeIsWhole }
{
    tree_is_whole();
}

/// Some choice of all its options meets the constraints of a legal history.
pub fn legal_leaves_variant()
    ensures { LegalLeavesVariant }
{}
