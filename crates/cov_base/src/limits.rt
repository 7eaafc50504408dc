// How much a history holds, and how long the spellings of what it holds are.
ghost use Rattle.std.specs.Prelude.{◌≡◌};
ghost use Rattle.cov_base.specs.Limits.{limits_when};

/// How much a history holds at most.
#[derive(Clone, Copy)]
pub struct Limits {
    /// Options.
    pub options: u8,
    /// Constraints, preferences and defaults: so many of each.
    pub rules: u16,
    /// Commands of every kind.
    pub commands: usize,
    /// Edits of a commit.
    pub edits: usize,
    /// Bytes of text that a commit inserts.
    pub commit_bytes: u64,
    /// Lines, with those that are seen nowhere any more.
    pub lines: u64,
    /// Nodes, with the root and the removed ones.
    pub nodes: u64,
    /// Bytes of text.
    pub bytes: u64,
}

/// The limits of a history without an upgrade.
pub const LIMITS: Limits = Limits {
    options: 64,
    rules: 256,
    commands: 1 << 20,
    edits: 16384,
    commit_bytes: 1 << 24,
    lines: 1 << 20,
    nodes: 65536,
    bytes: 1 << 30,
};

/// The limits of a history with an upgrade. Those of commands, edits and bytes are the same.
pub const UPGRADED_LIMITS: Limits = Limits {
    options: CHOICE_WIDTH,
    rules: 1024,
    commands: 1 << 20,
    edits: 16384,
    commit_bytes: 1 << 24,
    lines: 1 << 24,
    nodes: 1 << 20,
    bytes: 1 << 30,
};

/// The limits of a history, by whether it has an upgrade.
pub fn limits_when(upgraded: bool) -> Limits
    ensures { result ≡ limits_when upgraded }
{
    match upgraded {
        true => UPGRADED_LIMITS,
        false => LIMITS,
    }
}

/// From so many bytes of a script on no more are read, unless its end was met.
pub const TOO_MANY_SCRIPT_BYTES: u64 = 1 << 32;

/// How many options a choice can have a value of, as a word of so many bits. Their numbers are below it.
pub const CHOICE_WIDTH: u8 = 128;

/// The greatest number of bytes of a line of a script, its end left out.
pub const MOST_SCRIPT_LINE_BYTES: usize = 8192;

/// The greatest number of bytes of the text of a file's line.
pub const MOST_TEXT_BYTES: usize = 4096;

/// The greatest number of bytes of the name of a file, a directory or a session.
pub const MOST_NAME_BYTES: usize = 255;

/// The greatest number of bytes of the name of an option.
pub const MOST_OPTION_NAME_BYTES: usize = 64;

/// The greatest number of tokens of an expression.
pub const MOST_TOKENS: u32 = 256;

/// The greatest number of parts of an expression, each of which has a token of its own.
pub const MOST_PARTS: u32 = MOST_TOKENS;
