//! Laws of what an engine does to its history. Each function does nothing; what it ensures is the law.
ghost use Rattle.cov_edit.specs.Laws.{NothingOutsideAmbition};
ghost use Rattle.cov_history.specs.Laws.{LegalIsSound};

/// Where for each of its edits the ambition or the edit's side is false, a commit changes nothing.
pub fn nothing_outside_ambition()
    ensures { NothingOutsideAmbition }
{
    cov_edit::laws::nothing_outside_ambition();
}

/// Each valid variant of a legal history is sound.
pub fn legal_is_sound()
    ensures { LegalIsSound }
{
    cov_history::laws::legal_is_sound();
}
