//! Laws of the lines of a file. Each function does nothing; what it ensures is the law.
ghost use Rattle.cov_file.specs.Laws.{AlikeShowTheSame, InsertIsLater, ChangeIsLater};
ghost use Rattle.cov_file.specs.Sights.{ShownByValues};

/// Lines that are alike show the same on each choice at each position.
pub fn alike_show_the_same()
    ensures { AlikeShowTheSame }
{}

/// An insert changes nothing before its position, and nothing on a choice on which the line isn't visible.
pub fn insert_is_later()
    ensures { InsertIsLater }
{}

/// A change of a line changes nothing before its position, and from there on shows the line where its new node is true.
pub fn change_is_later()
    ensures { ChangeIsLater }
{}

/// What a file shows on a choice at a position depends on the values of its lines' nodes there alone.
pub fn shown_by_values()
    ensures { ShownByValues }
{}
