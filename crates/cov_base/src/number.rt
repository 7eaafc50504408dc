// Numbers with a meaning of their own.
ghost use Rattle.std.specs.Prelude.{◌≡◌, ◌<◌, ℕ};
ghost use Rattle.cov_base.specs.declared.limits.TheConstants.{CHOICE_WIDTH};

use std::marker::Model;

/// The number of an option, from 0 in order of declaration; always below `CHOICE_WIDTH`.
#[derive(Clone, Copy, Debug, PartialEq, Eq, PartialOrd, Ord, Hash)]
pub struct OptionId {
    number: u8,
}

impl Model for OptionId {
    ghost Value = { ℕ };

    ghost view = { λ o. o.number };

    ghost invariant = { λ o. o.number < CHOICE_WIDTH };

    ghost inverse = { λ n. record { number = n } };
}

impl OptionId {
    pub fn new(number: u8) -> OptionId
        requires { number < CHOICE_WIDTH }
        ensures { result ≡ number }
    {
        OptionId { number }
    }

    pub fn number(self) -> u8
        ensures number { result ≡ self }
        ensures bound { result < CHOICE_WIDTH }
    {
        self.number
    }
}

/// The number of a line, from 1 over the whole store; 0 is the head of a file.
#[derive(Clone, Copy, Debug, PartialEq, Eq, PartialOrd, Ord, Hash)]
pub struct LineNo {
    number: u32,
}

impl Model for LineNo {
    ghost Value = { ℕ };

    ghost view = { λ l. l.number };

    ghost inverse = { λ n. record { number = n } };
}

impl LineNo {
    pub fn new(number: u32) -> LineNo
        ensures { result ≡ number }
    {
        LineNo { number }
    }

    pub fn number(self) -> u32
        ensures { result ≡ self }
    {
        self.number
    }
}

/// The number of a file or directory, from 1 over the whole store; 0 is the root directory.
#[derive(Clone, Copy, Debug, PartialEq, Eq, PartialOrd, Ord, Hash)]
pub struct NodeNo {
    number: u32,
}

impl Model for NodeNo {
    ghost Value = { ℕ };

    ghost view = { λ n. n.number };

    ghost inverse = { λ n. record { number = n } };
}

impl NodeNo {
    pub fn new(number: u32) -> NodeNo
        ensures { result ≡ number }
    {
        NodeNo { number }
    }

    pub fn number(self) -> u32
        ensures { result ≡ self }
    {
        self.number
    }
}

/// How many commands of a history are meant, from its first.
#[derive(Clone, Copy, Debug, PartialEq, Eq, PartialOrd, Ord, Hash)]
pub struct Position {
    number: u32,
}

impl Model for Position {
    ghost Value = { ℕ };

    ghost view = { λ p. p.number };

    ghost inverse = { λ n. record { number = n } };
}

impl Position {
    pub fn new(number: u32) -> Position
        ensures { result ≡ number }
    {
        Position { number }
    }

    pub fn number(self) -> u32
        ensures { result ≡ self }
    {
        self.number
    }
}

/// What a node is; it never changes.
#[derive(Clone, Copy, Debug, PartialEq, Eq)]
pub enum Kind {
    File,
    Dir,
}

/// A node that a history has, or the i-th node, from 0, that the same list of edits makes.
#[derive(Clone, Copy, Debug, PartialEq, Eq, Hash)]
pub enum NodeRef {
    Old(NodeNo),
    New(u32),
}

/// A line that a history has, or the i-th line, from 0, that the same list of edits makes.
#[derive(Clone, Copy, Debug, PartialEq, Eq)]
pub enum LineRef {
    Old(LineNo),
    New(u32),
}
