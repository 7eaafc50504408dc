// What a line comes to before a disk is called.
ghost use Rattle.std.specs.Prelude.{◌≡◌, None};
ghost use Rattle.cov_lines.specs.declared.handled.Handled.TheVariants.{Adds};

use cov_base::{Name, Text};
use cov_edit::Command;
use cov_loop::Reply;

/// What a line comes to.
#[derive(Drop)]
pub(crate) enum Handled {
    /// It is done, and this is its reply. It adds no command.
    Done(Reply),
    /// It adds a command, and nothing has changed yet.
    Adds(Addition),
}

/// A command that is to be added.
#[derive(Drop)]
pub(crate) struct Addition {
    pub(crate) command: Command,
    /// The session that ends with it, if one does.
    pub(crate) ends: Option<Name>,
    pub(crate) confirmation: Confirmation,
}

/// How a command that is added is confirmed.
#[derive(Drop)]
pub(crate) enum Confirmation {
    /// It is known before.
    Known(Text),
    /// It gives the number of the constraint.
    Constraint,
    /// It gives the number of the preference.
    Prefer,
    /// It gives the number of the default.
    Default,
    /// It gives the number of an upgrade.
    Upgrade,
    /// It gives the position that the history then has.
    Commit,
}

impl Handled {
    /// A command with which no session ends is added: one that declares something, or an upgrade.
    pub(crate) fn to_declare(command: Command, confirmation: Confirmation) -> Handled
        ensures { result ≡ Adds
            (record { command = command; ends = None; confirmation = confirmation }) }
    {
        Handled::Adds(Addition {
            command,
            ends: None,
            confirmation,
        })
    }
}
