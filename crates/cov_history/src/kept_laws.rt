//! Laws of what a history keeps for all choices and positions at once, its rows and its lines by file and number. Each function
//! does nothing; what it ensures is the law.
ghost use Rattle.cov_history.specs.KeptLaws.{LinesFollowReplay, RowsFollowReplay, HoldingFollowsReplay, HoldingStands, HoldingIsWhole, LinesKeepTheirTexts, HoldingGoesOn, CommitKeepsLines, CommitKeepsRows, FileFollowsReplay, ShownIsKept, EditsStand, AmidGoesOn, InsertAfterAnchor, InsertInOneFile, InsertIsNumbered, AnchorsStay, AcceptedIsAnchored, DeclarationsHoldNothing, FileShowsReplay, InsertIsDated, OrderTakesInsert, LegalIsInReach, DeleteIsDated, DeleteInOneFile, AcceptedIsThere, DeleteKeepsOrder, LinesAreDistinct, FilesRise, FilesGoOn, RowsTellFiles, LinesAreInFiles, AcceptedNamesFiles, TurnNamesFile, AmidIsInFiles};

/// At each position, the lines seen on a choice are those of the replay of the history up to there.
pub fn lines_follow_replay()
    ensures { LinesFollowReplay }
{}

/// At each position, the rows seen on a choice are those of the replay of the history up to there.
pub fn rows_follow_replay()
    ensures { RowsFollowReplay }
{}

/// At each position, the variant seen on a choice is that of the replay of the history up to there.
pub fn holding_follows_replay()
    ensures { HoldingFollowsReplay }
{}

/// What a history holds is in order, has no line but the history's, and no change that is later than the history.
pub fn holding_stands()
    ensures { HoldingStands }
{}

/// What a history holds has each line that the history inserts, once, and in its file, and a row of each node that it makes.
pub fn holding_is_whole()
    ensures { HoldingIsWhole }
{}

/// Each kept line has the text with which the history inserts it, also where no choice shows it.
pub fn lines_keep_their_texts()
    ensures { LinesKeepTheirTexts }
{}

/// What a longer history holds comes after what the shorter holds.
pub fn holding_goes_on()
    ensures { HoldingGoesOn }
{}

/// A commit changes the lines edit by edit, from its own position on.
pub fn commit_keeps_lines()
    ensures { CommitKeepsLines }
{}

/// A commit changes the rows edit by edit, from its own position on.
pub fn commit_keeps_rows()
    ensures { CommitKeepsRows }
{}

/// At each position, the lines of a file in the replay are those seen of the file's kept lines.
pub fn file_follows_replay()
    ensures { FileFollowsReplay }
{}

/// A line that some choice has at some position is kept in its file.
pub fn shown_is_kept()
    ensures { ShownIsKept }
{}

/// What is held stands when the edits of a commit begin, and after each of them, whatever they apply within.
pub fn edits_stand()
    ensures { EditsStand }
{}

/// What is held amid the edits of a commit, each where it applies, stands, and goes on by one edit more.
pub fn amid_goes_on()
    ensures { AmidGoesOn }
{}

/// An insert puts its line directly after the anchor, or first where that is the head, whatever it and the edits before it apply
/// within.
pub fn insert_after_anchor()
    ensures { InsertAfterAnchor }
{}

/// An insert leaves the other files as they are.
pub fn insert_in_one_file()
    ensures { InsertInOneFile }
{}

/// A new line has the next number.
pub fn insert_is_numbered()
    ensures { InsertIsNumbered }
{}

/// After an insert, each anchor still is one, and the new line is one of its file.
pub fn anchors_stay()
    ensures { AnchorsStay }
{}

/// Each insert of a good session has its anchor kept when it is its turn, whatever stands after the base.
pub fn accepted_is_anchored()
    ensures { AcceptedIsAnchored }
{}

/// Commands without a commit change nothing of what is held.
pub fn declarations_hold_nothing()
    ensures { DeclarationsHoldNothing }
{}

/// At each position, the lines shown of a file are those of the replay of the history up to there.
pub fn file_shows_replay()
    ensures { FileShowsReplay }
{}

/// By number too, an insert puts its line directly after the anchor, or first where that is the head.
pub fn insert_is_dated()
    ensures { InsertIsDated }
{}

/// The order of a file takes the line of an insert, and then is that of the file.
pub fn order_takes_insert()
    ensures { OrderTakesInsert }
{}

/// What a legal history holds names, at each change, only options that are declared there.
pub fn legal_is_in_reach()
    ensures { LegalIsInReach }
{}

/// By number, a delete that applies within an expression hides its line there from its commit on, and leaves the other lines of
/// its file.
pub fn delete_is_dated()
    ensures { DeleteIsDated }
{}

/// A delete leaves the other files as they are.
pub fn delete_in_one_file()
    ensures { DeleteInOneFile }
{}

/// Each delete of a good session has its line in its file when it is its turn, whatever stands after the base.
pub fn accepted_is_there()
    ensures { AcceptedIsThere }
{}

/// A delete leaves the order of each file, and what is an anchor in it.
pub fn delete_keeps_order()
    ensures { DeleteKeepsOrder }
{}

/// When the first of a commit's edits are done, each file has different lines, none of them the head.
pub fn lines_are_distinct()
    ensures { LinesAreDistinct }
{}

/// The files of a history rise, and are nodes that it made.
pub fn files_rise()
    ensures { FilesRise }
{}

/// The files of a longer history begin with those of the shorter, and a commit adds those that its edits make.
pub fn files_go_on()
    ensures { FilesGoOn }
{}

/// The rows of files are just those whose nodes are files of the history, on each choice.
pub fn rows_tell_files()
    ensures { RowsTellFiles }
{}

/// In a legal history, the file of each kept line is one.
pub fn lines_are_in_files()
    ensures { LinesAreInFiles }
{}

/// The inserts and deletes of a commit that is accepted name files of the history with the commit.
pub fn accepted_names_files()
    ensures { AcceptedNamesFiles }
{}

/// Each insert or delete of a good session names a file of the history, or one that the edits before it make.
pub fn turn_names_file()
    ensures { TurnNamesFile }
{}

/// When the first of a good session's edits are done, each held line is in a file of the history or in one that they make.
pub fn amid_is_in_files()
    ensures { AmidIsInFiles }
{}
