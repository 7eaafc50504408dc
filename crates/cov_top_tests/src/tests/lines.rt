// Lines that are served one at a time, by the call that takes the server and hands it back.
ghost use Rattle.std.specs.Prelude.{Some};
ghost use Rattle.cov_journal.specs.Gates.{HasGate};
ghost use Rattle.cov_store.specs.Stands.{gate_of};

use cov_base::{Numbers, Text};
use cov_disk::MemoryDisk;
use cov_io::MemorySink;
use cov_out::MemoryTrees;
use cov_serve::{Answer, Server, Status, serve_line};
use std::alloc::Global;
use std::process::Abort;
use std::test::Fail;

fn close(_: Server) {}

// Declares the option once more, which ends the server.
fn serve_last(
    server: Server,
    out: &mut MemorySink,
    disk: &mut MemoryDisk,
    trees: &mut MemoryTrees,
) -> Result<Answer, Status>
    requires gate { HasGate (Some disk.old.kept.content) (gate_of server.state.history) }
{
    match serve_line(server, b"option a", out, disk, trees) {
        Ok((server, answer)) => {
            close(server);
            Ok(answer)
        }
        Err(status) => Err(status),
    }
}

// A line that has no reply, and the last.
fn serve_note(
    rt: &impl Abort,
    server: Server,
    out: &mut MemorySink,
    disk: &mut MemoryDisk,
    trees: &mut MemoryTrees,
) -> Result<Answer, Status>
    requires gate { HasGate (Some disk.old.kept.content) (gate_of server.state.history) }
{
    match serve_line(server, b"# a note", out, disk, trees) {
        Ok((server, answer)) => {
            assert!(rt; answer == Answer::Nothing);
            serve_last(server, out, disk, trees)
        }
        Err(status) => Err(status),
    }
}

// Declares an option, and serves the others.
fn serve_lines(
    rt: &impl Abort,
    server: Server,
    out: &mut MemorySink,
    disk: &mut MemoryDisk,
    trees: &mut MemoryTrees,
) -> Result<Answer, Status>
    requires gate { HasGate (Some disk.old.kept.content) (gate_of server.state.history) }
{
    match serve_line(server, b"option a", out, disk, trees) {
        Ok((server, answer)) => {
            assert!(rt; answer == Answer::Accepted);
            serve_note(rt, server, out, disk, trees)
        }
        Err(status) => Err(status),
    }
}

fn open_and_serve(
    rt: &impl Abort,
    alloc: Global,
    out: &mut MemorySink,
    disk: &mut MemoryDisk,
    trees: &mut MemoryTrees,
) -> bool {
    match Server::open(alloc, disk) {
        Ok(server) => matches!(
            serve_lines(rt, server, out, disk, trees),
            Ok(Answer::Refused)
        ),
        Err(_fault) => false,
    }
}

fn check_lines(rt: &impl Abort, alloc: Global, disk: &mut MemoryDisk) {
    let mut out = MemorySink::new(alloc, Numbers::new(alloc));
    let mut trees = MemoryTrees::new(alloc, Numbers::new(alloc));
    assert!(rt; open_and_serve(rt, alloc, &mut out, disk, &mut trees));
    assert_eq!(rt; out.written(), b"ok option 0\nrefused exists\n".as_slice());
    drop(out);
    drop(trees);
}

#[test]
fn lines_are_served_one_at_a_time(rt: HostRuntime) -> Result<(), Fail> {
    let alloc = rt.alloc();
    let mut disk = MemoryDisk::new(alloc, Text::new(alloc), Numbers::new(alloc), None);
    check_lines(&rt, alloc, &mut disk);
    drop(disk);
    Ok(())
}
