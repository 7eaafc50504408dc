// The commits of an import, as they are added one after another.
ghost use Rattle.std.specs.Prelude.{◌≡◌, ◌-◌, [], None, length, slice_get, if◌then◌else◌, IfOk};
ghost use Rattle.cov_import.specs.Serving.{asks, importing, next_asked, next_commit};
ghost use Rattle.cov_loop.specs.declared.answer.Answer.TheVariants.{Nothing};

use cov_base::{Memory, Text};
use cov_disk::Disk;
use cov_edit::{Command, Commands};
use cov_lines::Server;
use cov_loop::{Answer, Ending, LineServer, Reply};
use cov_out::OutRows;
use std::alloc::Global;
use std::marker::Model;
use std::mem;

/// Adds commits one after another: each line of one byte that is no `#` asks for the next, and all other lines for nothing. A commit that
/// is refused stays the next.
#[derive(Drop)]
pub struct ImportServer {
    alloc: Global,
    server: Server,
    commits: Commands,
    /// How many commands the history had before the first of the commits.
    base: u32,
}

impl Model for ImportServer {
    ghost use Rattle.std.specs.Coded.{codes, coded_ℕ};
    ghost use Rattle.cov_dd.specs.contracts.triple.Triple as triples;
    ghost use Rattle.cov_expr.specs.Formula.{formula_code};
    ghost use Rattle.cov_edit.specs.contracts.command.Command as command_row;
    ghost use Rattle.cov_edit.specs.contracts.sided.Sided as sided_row;
    ghost use Rattle.cov_import.specs.Serving.{ImportValue};

    ghost Value = { ImportValue };

    ghost coded = { Prim.hlevel (
      codes,
      formula_code coded_ℕ,
      command_row.the_row.coded,
      sided_row.the_row.coded,
      triples.the_row.coded,
    ) };

    ghost view = { λ s. record {
      server = s.server;
      commits = s.commits.commands;
      base = s.base;
    } };
}

impl ImportServer {
    /// A server of commits that are to be added to the history of another.
    pub fn new(alloc: Global, server: Server, commits: Commands) -> ImportServer
        ensures server { result.server ≡ server }
        ensures commits { result.commits ≡ commits.commands }
        ensures base { result.base ≡ length server.state.history }
    {
        let base = server.position().number();
        ImportServer {
            alloc,
            server,
            commits,
            base,
        }
    }

    /// Gives the server up at the end of the program, as `Server::close` does.
    pub fn close(self) {
        mem::forget(self);
    }

    // A copy of the commit for which a line asks, if it asks for one and one is left.
    fn next_asked(&self, line: &[u8]) -> Result<Option<Command>, Memory>
        ensures { IfOk result (λ next. next ≡ next_asked (importing self.now) line.now) }
    {
        if asks(line) {
            return self.next_commit();
        }
        Ok(None)
    }

    fn next_commit(&self) -> Result<Option<Command>, Memory>
        ensures { IfOk result (λ next. next ≡ next_commit (importing self.now)) }
    {
        match self.commits.get(self.index()) {
            Some(command) => self.copy(command),
            None => Ok(None),
        }
    }

    fn copy(&self, command: &Command) -> Result<Option<Command>, Memory>
        ensures { IfOk result (λ next. next ≡ Some command.now) }
    {
        match command.copy(self.alloc) {
            Ok(command) => Ok(Some(command)),
            Err(Memory) => Err(Memory),
        }
    }

    // How many of the commits were added.
    fn index(&self) -> usize
        ensures { result ≡ length self.now.server.state.history - self.now.base }
    {
        self.server.position().number().saturating_sub(self.base) as usize
    }
}

impl LineServer for ImportServer {
    ghost use Rattle.cov_import.specs.Serving.{Importing, commands_told, counts_rise, goes_on_same, import_count, import_goes_on, import_gate, import_step, import_stored, importing, long_kept, refusal_told, refused_kept, rows_told, silent_kept, stored_told};

    ghost State = { Importing };

    ghost state_of = { importing };

    ghost step = { import_step };

    ghost stored = { import_stored };

    ghost gate = { import_gate };

    ghost count = { import_count };

    ghost goes_on = { import_goes_on };

    fn answer<D: Disk>(&mut self, line: &[u8], disk: &mut D) -> Result<Reply, Ending> {
        match self.next_asked(line) {
            Ok(Some(command)) => self.server.add_commit(command, disk),
            Ok(None) => Ok(nothing(self.alloc)),
            Err(Memory) => Err(Ending::NoMemory),
        }
    }

    fn answer_long(&mut self) -> Result<Reply, Memory> {
        Ok(nothing(self.alloc))
    }

    ghost refusal_told = { refusal_told };

    ghost refused_kept = { refused_kept };

    ghost rows_told = { rows_told };

    ghost long_kept = { long_kept };

    ghost silent_kept = { silent_kept };

    ghost commands_told = { commands_told };

    ghost stored_told = { stored_told };

    ghost counts_rise = { counts_rise };

    ghost goes_on_same = { goes_on_same };
}

// Whether a line asks for a commit.
fn asks(line: &[u8]) -> bool
    ensures { result ≡ asks line.now }
{
    match line {
        [byte] => *byte != b'#',
        _ => false,
    }
}

// The reply to a line that asks for nothing.
fn nothing(alloc: Global) -> Reply
    ensures text { result.text ≡ [] }
    ensures rows { result.rows ≡ [] }
    ensures answer { result.answer ≡ Nothing }
{
    Reply {
        text: Text::new(alloc),
        rows: OutRows::new(alloc),
        answer: Answer::Nothing,
    }
}
