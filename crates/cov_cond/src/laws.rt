//! Laws of conditional texts. Each function does nothing; what it ensures is the law.
ghost use Rattle.cov_cond.specs.Laws.{ExportGivesText, ExportedIsRead, ImportGivesText, ImportIsAccepted, ImportMakesFile};

use cov_expr::{reading_follows_grammar, texts_give_their_expressions};
use cov_vis::laws::tests_have_one_listing;

/// Where no expression is too long, the conditional text of a file is read back, and gives on each choice the texts of the file there.
pub fn export_gives_text()
    ensures { ExportGivesText }
{
    reading_follows_grammar();
    texts_give_their_expressions();
    tests_have_one_listing();
}

/// The lines that `export` answers are read back, and give on each choice the texts of the file there.
pub fn exported_is_read()
    ensures { ExportedIsRead }
{
    export_gives_text();
}

/// On each valid choice, the new file of an import has the texts of the conditional text.
pub fn import_gives_text()
    ensures { ImportGivesText }
{}

/// The commits of an import are all accepted where the first is and there is room for them.
pub fn import_is_accepted()
    ensures { ImportIsAccepted }
{}

/// On each choice the new file of an import is there, in its directory and with its name.
pub fn import_makes_file()
    ensures { ImportMakesFile }
{}
