// Lines as the commits of a new file.
ghost use Rattle.std.specs.Prelude.{◌≡◌, ◌<◌, ◌≤◌, ◌^◌, Ok, Some, true, get_or, length, IfOk, IfErr, slice_get};
ghost use Rattle.std.specs.List.{list_all, sum_by};
ghost use Rattle.cov_base.specs.Spelling.{is_name};
ghost use Rattle.cov_base.specs.declared.limits.TheConstants.{LIMITS};
ghost use Rattle.cov_codes.specs.Codes.{import_code};
ghost use Rattle.cov_cond.specs.Fitting.{imported_at};
ghost use Rattle.cov_cond_text.specs.Conditional.{IsCondText};
ghost use Rattle.cov_cond_text.specs.Readers.{line_size};
ghost use Rattle.cov_edit.specs.History.{option_count};
ghost use Rattle.cov_history.specs.Verdict.{IsLegalFrom};
ghost use Rattle.cov_import.specs.Taking.{FollowFirst, StopsTaking, admitted, handed_on, kept_taken, lines_taken};
ghost use Rattle.cov_lines.specs.Finding.{by_code};

use cov_base::{Memory, Path, Text, Texts};
use cov_codes::Stop;
use cov_cond::laws::import_is_accepted;
use cov_cond::{CondText, read};
use cov_edit::{Command, Commands};
use cov_lines::Server;
use cov_script::Code;
use std::alloc::Global;

/// More bytes of lines than these, with one more for the end of each, aren't read.
const MOST_BYTES: u64 = 1 << 32;

/// The commits that lines are as a new file at a path, or the first code that refuses them: `Long` where no lines were kept, then that of
/// the first line at fault, then that of the rule by which the file can't be made, then that of the history's refusal of the first
/// commit. None is added; the others are refused by nothing then. Want of memory comes also where the lines have more than 2^32 bytes,
/// which those of no source have that gives fewer.
pub fn take_in(
    alloc: Global,
    server: Server,
    path: &Path,
    lines: Option<Texts>,
) -> (Server, Result<Commands, Stop>)
    requires named { 0 < length path.now }
    requires spelt { list_all is_name path.now ≡ true }
    ensures state { result.0.state ≡ server.state }
    ensures counted { result.0.commits ≡ server.commits }
    ensures commits { IfOk result.1 (λ commits.
        kept_taken server.state.history path.now lines ≡ Ok commits.commands) }
    ensures accepted { IfOk result.1 (λ commits.
        IsLegalFrom server.state.history commits.commands) }
    ensures few { IfOk result.1 (λ commits. length commits.commands ≤ LIMITS.commands) }
    ensures refused { IfErr result.1 (StopsTaking server.state.history
        (kept_taken server.state.history path.now lines)) }
{
    let mut server = server;
    match take_lines(alloc, &mut server, path, lines) {
        Ok(commits) => admit(alloc, server, commits),
        Err(stop) => (server, Err(stop)),
    }
}

// The commits that lines are, if none of them is too long.
fn take_lines(
    alloc: Global,
    server: &mut Server,
    path: &Path,
    lines: Option<Texts>,
) -> Result<Commands, Stop>
    requires named { 0 < length path.now }
    requires spelt { list_all is_name path.now ≡ true }
    ensures state { server.new.state ≡ server.old.state }
    ensures counted { server.new.commits ≡ server.old.commits }
    ensures commits { IfOk result (λ commits.
        lines_taken server.old.state.history path.now lines ≡ Ok commits.commands) }
    ensures follow { IfOk result (λ commits.
        FollowFirst server.old.state.history commits.commands) }
    ensures few { IfOk result (λ commits. length commits.commands ≤ LIMITS.commands) }
    ensures refused { IfErr result (StopsTaking server.old.state.history
        (lines_taken server.old.state.history path.now lines)) }
{
    match lines {
        Some(lines) => take_short(alloc, server, path, &lines),
        None => Err(Stop::Refused(Code::Long)),
    }
}

// The same of lines of which none is too long.
fn take_short(
    alloc: Global,
    server: &mut Server,
    path: &Path,
    lines: &Texts,
) -> Result<Commands, Stop>
    requires named { 0 < length path.now }
    requires spelt { list_all is_name path.now ≡ true }
    ensures state { server.new.state ≡ server.old.state }
    ensures counted { server.new.commits ≡ server.old.commits }
    ensures commits { IfOk result (λ commits.
        lines_taken server.old.state.history path.now (Some lines.now) ≡ Ok commits.commands) }
    ensures follow { IfOk result (λ commits.
        FollowFirst server.old.state.history commits.commands) }
    ensures few { IfOk result (λ commits. length commits.commands ≤ LIMITS.commands) }
    ensures refused { IfErr result (StopsTaking server.old.state.history
        (lines_taken server.old.state.history path.now (Some lines.now))) }
{
    if !are_few(lines.as_slice()) {
        return Err(Stop::Memory);
    }
    match read(alloc, lines, server.options()) {
        Ok(text) => take_text(server, path, &text),
        Err(fault) => Err(Stop::from(fault)),
    }
}

// The commits of a conditional text.
fn take_text(server: &mut Server, path: &Path, text: &CondText) -> Result<Commands, Stop>
    requires named { 0 < length path.now }
    requires spelt { list_all is_name path.now ≡ true }
    requires fits { IsCondText (option_count server.old.state.history) text.now }
    ensures state { server.new.state ≡ server.old.state }
    ensures counted { server.new.commits ≡ server.old.commits }
    ensures commits { IfOk result (λ commits.
        by_code import_code (imported_at server.old.state.history path.now text.now) ≡
        Ok commits.commands) }
    ensures follow { IfOk result (λ commits.
        FollowFirst server.old.state.history commits.commands) }
    ensures few { IfOk result (λ commits. length commits.commands ≤ LIMITS.commands) }
    ensures refused { IfErr result (StopsTaking server.old.state.history
        (by_code import_code (imported_at server.old.state.history path.now text.now))) }
{
    import_is_accepted();
    server.history_is_legal();
    match server.import(path, text) {
        Ok(commits) => Ok(commits),
        Err(fault) => Err(Stop::from(fault)),
    }
}

// Whether lines have no more bytes, with one more for the end of each, than are read.
fn are_few(lines: &[Text]) -> bool
    ensures { result ≡ true → sum_by line_size lines.now ≤ 2 ^ 32 }
{
    let mut room = MOST_BYTES;
    let mut ahead = lines;
    'lines: while let [line, rest @ ..] = ahead {
        if room <= line.len() as u64 {
            return false;
        }
        room -= line.len() as u64 + 1;
        ahead = rest;
    }
    true
}

// Commits, unless the history refuses the first.
fn admit(alloc: Global, server: Server, commits: Commands) -> (Server, Result<Commands, Stop>)
    requires follow { FollowFirst server.state.history commits.commands }
    ensures state { result.0.state ≡ server.state }
    ensures counted { result.0.commits ≡ server.commits }
    ensures same { IfOk result.1 (λ admitted. admitted ≡ commits) }
    ensures commits { IfOk result.1 (λ taken.
        admitted server.state.history commits.commands ≡ Ok taken.commands) }
    ensures accepted { IfOk result.1 (λ taken.
        IsLegalFrom server.state.history taken.commands) }
    ensures refused { IfErr result.1 (StopsTaking server.state.history
        (admitted server.state.history commits.commands)) }
{
    match first_of(alloc, &commits) {
        Ok(Some(first)) => {
            let (server, checked) = server.check(first);
            (server, hand_on(commits, checked))
        }
        Ok(None) => (server, Ok(commits)),
        Err(Memory) => (server, hand_on(commits, Err(Stop::Memory))),
    }
}

// A copy of the first command, if there is one.
fn first_of(alloc: Global, commits: &Commands) -> Result<Option<Command>, Memory>
    ensures { IfOk result (λ first. first ≡ slice_get commits.now.commands 0) }
{
    match commits.get(0) {
        Some(command) => copied(alloc, command),
        None => Ok(None),
    }
}

fn copied(alloc: Global, command: &Command) -> Result<Option<Command>, Memory>
    ensures { IfOk result (λ copied. copied ≡ Some command.now) }
{
    match command.copy(alloc) {
        Ok(command) => Ok(Some(command)),
        Err(Memory) => Err(Memory),
    }
}

fn hand_on(commits: Commands, checked: Result<(), Stop>) -> Result<Commands, Stop>
    ensures { result ≡ handed_on commits checked }
{
    match checked {
        Ok(()) => Ok(commits),
        Err(stop) => Err(stop),
    }
}
