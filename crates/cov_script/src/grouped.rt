// What a line says, by its group.
ghost use Rattle.std.specs.Prelude.{◌≡◌};
ghost use Rattle.cov_script.specs.Grouping.{grouped};

use crate::{Line, LineField};
use cov_base::{Name, Path, Text};
use cov_expr::{RawChoice, RawExpr};

/// What a line says, by its group.
#[derive(Drop)]
pub enum GroupedLine {
    /// It is empty or begins with `#`, and has no reply.
    Silent,
    Declaration(Declaration),
    Session(SessionLine),
    /// It edits in the session of a name.
    Edit { name: Name, edit: EditLine },
    Question(Question),
    Analysis(AnalysisLine),
    Past(PastLine),
    /// It alone writes rows of a tree.
    Tree(TreeLine),
}

/// A line that adds an option or a rule, or upgrades the history.
#[derive(Drop)]
pub enum Declaration {
    Option { token: Text },
    Constraint { expr: RawExpr },
    Prefer { expr: RawExpr },
    Default { token: Text, on: bool },
    Upgrade,
}

/// A line with which a session begins, goes on otherwise, begins anew or ends.
#[derive(Drop)]
pub enum SessionLine {
    Open {
        name: Name,
        choice: RawChoice,
        ambition: RawExpr,
    },
    /// It changes the side of the edits that follow.
    Side {
        name: Name,
        side: RawExpr,
    },
    Refresh {
        name: Name,
    },
    Commit {
        name: Name,
    },
    Discard {
        name: Name,
    },
}

/// A line that edits what a session sees.
#[derive(Drop)]
pub enum EditLine {
    MakeDir {
        path: Path,
    },
    MakeFile {
        path: Path,
    },
    Rename {
        path: Path,
        to: Name,
    },
    Move {
        path: Path,
        target: Path,
    },
    Remove {
        path: Path,
    },
    Insert {
        path: Path,
        line: LineField,
        text: Text,
    },
    Delete {
        path: Path,
        line: LineField,
    },
    Replace {
        path: Path,
        line: LineField,
        text: Text,
    },
}

/// A line that asks for something and changes nothing.
#[derive(Drop)]
pub enum Question {
    Complete {
        choice: RawChoice,
    },
    Show {
        name: Name,
        path: Path,
    },
    List {
        name: Name,
        path: Path,
    },
    Cat {
        choice: RawChoice,
        path: Path,
    },
    Alt {
        choice: RawChoice,
        token: Text,
        path: Path,
    },
    Conditional {
        choice: RawChoice,
        path: Path,
    },
    Presence {
        line: u32,
    },
}

/// A line that asks what the rules come to.
#[derive(Drop)]
pub enum AnalysisLine {
    Analyse,
    Nearest { choice: RawChoice },
}

/// A line that asks what the history tells of its past.
#[derive(Drop)]
pub enum PastLine {
    Log {
        choice: RawChoice,
    },
    Blame {
        choice: RawChoice,
        path: Path,
    },
    Past {
        position: u32,
        choice: RawChoice,
        path: Path,
    },
}

/// A line that writes a tree: of a variant of now, or of one of a position.
#[derive(Drop)]
pub enum TreeLine {
    Checkout {
        tree: Name,
        choice: RawChoice,
    },
    PastOut {
        tree: Name,
        position: u32,
        choice: RawChoice,
    },
}

impl Line {
    /// The line by its group. Takes no memory.
    pub fn grouped(self) -> GroupedLine
        ensures { result ≡ grouped self }
    {
        match self {
            Line::Nothing => GroupedLine::Silent,
            Line::Option { token } => GroupedLine::Declaration(Declaration::Option { token }),
            Line::Constraint { expr } => GroupedLine::Declaration(Declaration::Constraint { expr }),
            Line::Prefer { expr } => GroupedLine::Declaration(Declaration::Prefer { expr }),
            Line::Default { token, on } => {
                GroupedLine::Declaration(Declaration::Default { token, on })
            }
            Line::Complete { choice } => GroupedLine::Question(Question::Complete { choice }),
            Line::OpenSession {
                name,
                choice,
                ambition,
            } => {
                GroupedLine::Session(SessionLine::Open {
                    name,
                    choice,
                    ambition,
                })
            }
            Line::Side { name, side } => GroupedLine::Session(SessionLine::Side { name, side }),
            Line::MakeDir { name, path } => GroupedLine::Edit {
                name,
                edit: EditLine::MakeDir { path },
            },
            Line::MakeFile { name, path } => GroupedLine::Edit {
                name,
                edit: EditLine::MakeFile { path },
            },
            Line::Rename { name, path, to } => GroupedLine::Edit {
                name,
                edit: EditLine::Rename { path, to },
            },
            Line::Move { name, path, target } => GroupedLine::Edit {
                name,
                edit: EditLine::Move { path, target },
            },
            Line::Remove { name, path } => GroupedLine::Edit {
                name,
                edit: EditLine::Remove { path },
            },
            Line::Insert {
                name,
                path,
                line,
                text,
            } => GroupedLine::Edit {
                name,
                edit: EditLine::Insert { path, line, text },
            },
            Line::Delete { name, path, line } => GroupedLine::Edit {
                name,
                edit: EditLine::Delete { path, line },
            },
            Line::Replace {
                name,
                path,
                line,
                text,
            } => GroupedLine::Edit {
                name,
                edit: EditLine::Replace { path, line, text },
            },
            Line::Show { name, path } => GroupedLine::Question(Question::Show { name, path }),
            Line::List { name, path } => GroupedLine::Question(Question::List { name, path }),
            Line::Refresh { name } => GroupedLine::Session(SessionLine::Refresh { name }),
            Line::Commit { name } => GroupedLine::Session(SessionLine::Commit { name }),
            Line::Discard { name } => GroupedLine::Session(SessionLine::Discard { name }),
            Line::Cat { choice, path } => GroupedLine::Question(Question::Cat { choice, path }),
            Line::Checkout { tree, choice } => {
                GroupedLine::Tree(TreeLine::Checkout { tree, choice })
            }
            Line::Alt {
                choice,
                token,
                path,
            } => GroupedLine::Question(Question::Alt {
                choice,
                token,
                path,
            }),
            Line::Conditional { choice, path } => {
                GroupedLine::Question(Question::Conditional { choice, path })
            }
            Line::Presence { line } => GroupedLine::Question(Question::Presence { line }),
            Line::Upgrade => GroupedLine::Declaration(Declaration::Upgrade),
            Line::Analyse => GroupedLine::Analysis(AnalysisLine::Analyse),
            Line::Nearest { choice } => GroupedLine::Analysis(AnalysisLine::Nearest { choice }),
            Line::Log { choice } => GroupedLine::Past(PastLine::Log { choice }),
            Line::Blame { choice, path } => GroupedLine::Past(PastLine::Blame { choice, path }),
            Line::Past {
                position,
                choice,
                path,
            } => GroupedLine::Past(PastLine::Past {
                position,
                choice,
                path,
            }),
            Line::PastOut {
                tree,
                position,
                choice,
            } => GroupedLine::Tree(TreeLine::PastOut {
                tree,
                position,
                choice,
            }),
        }
    }
}
