// Why a line is refused.
ghost use Rattle.std.specs.Prelude.{◌≡◌, ◌≤◌, ◌++◌, IfOk, OnOk, codes, length};
ghost use Rattle.std.specs.Fmt.{decimal};
ghost use Rattle.cov_script.specs.Replies.{code_detail, code_text, code_word, place_text, side_word, IsCodeOf};

use crate::word::{append_number, append_word};
use cov_base::{Choice, Memory, NodeNo, OptionId, Position, Text};
use cov_expr::{Options, print_choice};
use std::alloc::Global;

/// The rule by which a line is refused.
#[derive(Debug, Drop)]
pub enum Code {
    /// The line has no form; its first mistake is at this byte, or behind the last.
    Syntax {
        at: u32,
    },
    /// An expression has more than `MOST_TOKENS` tokens.
    TooLong,
    /// This line, of a file or of a conditional text, is the first whose expression has more than `MOST_TOKENS` tokens; or, of a
    /// text, behind which too much is open.
    TooLongAt {
        line: u32,
    },
    /// The line has more than `MOST_SCRIPT_LINE_BYTES` bytes.
    Long,
    /// No option may have that name.
    BadName,
    /// An option of that name is declared.
    Exists,
    /// There are as many as there may be.
    Full,
    /// No option has that name.
    UnknownOption {
        name: Text,
    },
    /// A choice binds the option twice.
    Repeated {
        option: OptionId,
    },
    /// No choice meets the constraints.
    NoVariantLeft,
    /// The history is upgraded already.
    Upgraded,
    /// The constraint with this number, from 1, is the first that can't hold.
    Invalid {
        rule: u32,
    },
    /// The option is the first that the rules leave open.
    Incomplete {
        option: OptionId,
    },
    /// A session of that name is open.
    SessionExists,
    /// No session of that name is open.
    NoSession,
    /// As many sessions are open as may be.
    TooManySessions,
    /// The ambition of a session isn't true on its choice.
    OutsideAmbition,
    /// The option is the first of a side, from the left, that was declared after the base of its session, or the least of a choice
    /// that was declared after a position.
    LateOption {
        option: OptionId,
    },
    /// The side isn't true on the choice of its session.
    OutsideSide,
    /// The edit with this number, from 0, is the first whose side isn't true on the choice of its commit.
    OutsideSideAt {
        edit: u32,
    },
    NoSuchPath,
    NotFile,
    NotDirectory,
    /// Its directory has that name already.
    NameTaken,
    /// A directory that is to be removed has a node.
    NotEmpty,
    /// A node would be moved to itself or below itself.
    IntoItself,
    /// The root keeps its place, and has no name.
    IsRoot,
    NoSuchLine,
    /// A session has more than `LIMITS.edits` edits.
    TooManyEdits,
    /// A session's inserted texts have more than 2^24 bytes.
    TooManyBytes,
    TooManyLines,
    TooManyNodes,
    /// The edit with this number, from 0, is the first that can't be made again on the new base.
    EditLost {
        index: u32,
    },
    /// There are no edits to commit.
    Empty,
    /// The base of a commit is beyond the history.
    BadBase,
    /// An option isn't declared.
    BadOption,
    /// The edit with this number, from 0, is the first that its variant refuses.
    BadRecord {
        edit: u32,
    },
    /// The first commit after the base of which some edit touches a common node with some edit, where a valid choice makes both
    /// ambitions and both sides true, has this position.
    Overtaken {
        position: Position,
    },
    /// In the variant of the choice the two nodes have one directory and one name.
    Clash {
        low: NodeNo,
        high: NodeNo,
        choice: Choice,
    },
    /// In the variant of the choice the directory of the node is missing.
    Orphan {
        node: NodeNo,
        choice: Choice,
    },
    /// In the variant of the choice the node lies below itself.
    Loop {
        node: NodeNo,
        choice: Choice,
    },
    /// On this side of an option, the constraint with this number, from 1, is the first that is false.
    SideInvalid {
        on: bool,
        rule: u32,
    },
    /// A tree of that name was written in this run.
    TreeTaken,
    /// The history has fewer commands.
    NoSuchPosition,
}

/// The words of a refusal, without a line's end.
pub fn code_text(alloc: Global, options: &Options, code: &Code) -> Result<Text, Memory>
    requires { IsCodeOf (length options.now.names) code.now }
    ensures { IfOk result (λ text. text ≡ code_text options.now.names code.now) }
{
    let mut text = Text::from_slice(alloc, word_of(code))?;
    append_detail(alloc, &mut text, options, code)?;
    Ok(text)
}

// The first word of a refusal.
fn word_of(code: &Code) -> &'static [u8]
    ensures { result.now ≡ code_word code.now }
{
    match code {
        Code::Syntax { .. } => b"syntax",
        Code::TooLong | Code::TooLongAt { .. } => b"too-long",
        Code::Long => b"long",
        Code::BadName => b"bad-name",
        Code::Exists => b"exists",
        Code::Full => b"full",
        Code::UnknownOption { .. } => b"unknown-option",
        Code::Repeated { .. } => b"repeated",
        Code::NoVariantLeft => b"no-variant-left",
        Code::Upgraded => b"upgraded",
        Code::Invalid { .. } => b"invalid",
        Code::Incomplete { .. } => b"incomplete",
        Code::SessionExists => b"session-exists",
        Code::NoSession => b"no-session",
        Code::TooManySessions => b"too-many-sessions",
        Code::OutsideAmbition => b"outside-ambition",
        Code::LateOption { .. } => b"late-option",
        Code::OutsideSide | Code::OutsideSideAt { .. } => b"outside-side",
        Code::NoSuchPath => b"no-such-path",
        Code::NotFile => b"not-file",
        Code::NotDirectory => b"not-directory",
        Code::NameTaken => b"name-taken",
        Code::NotEmpty => b"not-empty",
        Code::IntoItself => b"into-itself",
        Code::IsRoot => b"is-root",
        Code::NoSuchLine => b"no-such-line",
        Code::TooManyEdits => b"too-many-edits",
        Code::TooManyBytes => b"too-many-bytes",
        Code::TooManyLines => b"too-many-lines",
        Code::TooManyNodes => b"too-many-nodes",
        Code::EditLost { .. } => b"edit-lost",
        Code::Empty => b"empty",
        Code::BadBase => b"bad-base",
        Code::BadOption => b"bad-option",
        Code::BadRecord { .. } => b"bad-record",
        Code::Overtaken { .. } => b"overtaken",
        Code::Clash { .. } => b"clash",
        Code::Orphan { .. } => b"orphan",
        Code::Loop { .. } => b"loop",
        Code::SideInvalid { .. } => b"side-invalid",
        Code::TreeTaken => b"tree-taken",
        Code::NoSuchPosition => b"no-such-position",
    }
}

// Appends what a refusal says behind its first word: a number, a name, nodes and a choice, or a side and a number.
fn append_detail(
    alloc: Global,
    text: &mut Text,
    options: &Options,
    code: &Code,
) -> Result<(), Memory>
    requires { IsCodeOf (length options.now.names) code.now }
    ensures { OnOk result (text.new ≡ text.old ++ code_detail options.now.names code.now) }
{
    match code {
        Code::Syntax { at } => append_number(alloc, text, *at as u64),
        Code::TooLongAt { line } => append_number(alloc, text, *line as u64),
        Code::Invalid { rule } => append_number(alloc, text, *rule as u64),
        Code::EditLost { index } => append_number(alloc, text, *index as u64),
        Code::BadRecord { edit } => append_number(alloc, text, *edit as u64),
        Code::OutsideSideAt { edit } => append_number(alloc, text, *edit as u64),
        Code::Overtaken { position } => append_number(alloc, text, position.number() as u64),
        Code::UnknownOption { name } => append_word(text, name.as_slice()),
        Code::Repeated { option } | Code::Incomplete { option } | Code::LateOption { option } => {
            append_word(text, options.name(*option))
        }
        Code::Clash { low, high, choice } => append_clash(
            alloc,
            text,
            options,
            (*low, *high),
            *choice,
        ),
        Code::Orphan { node, choice } | Code::Loop { node, choice } => append_place(
            alloc, text, options, *node, *choice,
        ),
        Code::SideInvalid { on, rule } => append_side(alloc, text, *on, *rule),
        _ => Ok(()),
    }
}

// Appends two nodes, the lower first, and the choice in whose variant they clash.
fn append_clash(
    alloc: Global,
    text: &mut Text,
    options: &Options,
    nodes: (NodeNo, NodeNo),
    choice: Choice,
) -> Result<(), Memory>
    requires { length choice ≤ length options.now.names }
    ensures { OnOk result (text.new ≡
        text.old ++ codes " " ++ decimal nodes.0 ++ place_text options.now.names nodes.1 choice) }
{
    append_number(alloc, text, nodes.0.number() as u64)?;
    append_place(alloc, text, options, nodes.1, choice)
}

// Appends a node and the choice in whose variant it is.
fn append_place(
    alloc: Global,
    text: &mut Text,
    options: &Options,
    node: NodeNo,
    choice: Choice,
) -> Result<(), Memory>
    requires { length choice ≤ length options.now.names }
    ensures { OnOk result (text.new ≡ text.old ++ place_text options.now.names node choice) }
{
    append_number(alloc, text, node.number() as u64)?;
    append_word(text, b"in")?;
    let choice = print_choice(alloc, options, choice)?;
    append_word(text, choice.as_slice())
}

// Appends a side of an option and the number of a constraint.
fn append_side(alloc: Global, text: &mut Text, on: bool, rule: u32) -> Result<(), Memory>
    ensures { OnOk result (text.new ≡
        text.old ++ codes " " ++ side_word on ++ codes " " ++ decimal rule) }
{
    append_word(text, side_word(on))?;
    append_number(alloc, text, rule as u64)
}

// The word of a side of an option.
fn side_word(on: bool) -> &'static [u8]
    ensures { result.now ≡ side_word on }
{
    match on {
        true => b"on",
        false => b"off",
    }
}
