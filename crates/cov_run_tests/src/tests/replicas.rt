// The words that serve a line over the bytes of a store, and the store of the script of a number, as a replica takes it in pieces.
ghost use Rattle.std.specs.Prelude.{◌≡◌, true, nat_lt, IfOk};
ghost use Rattle.std.specs.List.{list_all};
ghost use Rattle.cov_edit.specs.History.{option_count};

use crate::tests::demo::{TOLD, make_store};
use crate::tests::running::{Case, Device, Fails, Row, end_from, failing};
use crate::tests::stores::{FIRST, OPTION, PLAIN};
use cov_base::{Choice, Memory, Name, Numbers, Text};
use cov_disk::MemoryDisk;
use cov_engine::Engine;
use cov_expr::{Partial, RawChoice};
use cov_replica::Replica;
use cov_script::reply_checkout;
use cov_view::{TreeRows, View, digest, dirs_in, files_in};
use std::alloc::Global;
use std::process::Abort;
use std::test::Fail;

/// How many bytes a piece has.
const PIECE_BYTES: usize = 1000;

/// A tree, and bindings of the choice whose variant it is.
struct Checkout {
    tree: &'static [u8],
    choice: &'static [u8],
}

const CHECKOUTS: [Checkout; 8] = [
    Checkout {
        tree: b"t0",
        choice: b"-",
    },
    Checkout {
        tree: b"t1",
        choice: b"o13=on",
    },
    Checkout {
        tree: b"t2",
        choice: b"o20=on",
    },
    Checkout {
        tree: b"t3",
        choice: b"o27=on",
    },
    Checkout {
        tree: b"t4",
        choice: b"o34=on",
    },
    Checkout {
        tree: b"t5",
        choice: b"o41=on",
    },
    Checkout {
        tree: b"t6",
        choice: b"o48=on",
    },
    Checkout {
        tree: b"t7",
        choice: b"o55=on",
    },
];

/// Drops a replica, here alone.
fn close(_: Replica) {}

fn close_view(_: View) {}

// Bindings of options that the history declares.
fn bound(alloc: Global, engine: &Engine, text: &[u8]) -> Result<Partial, Fail>
    ensures { IfOk result (λ partial.
        list_all (λ b. nat_lt b.0 (option_count engine.now.history)) partial ≡ true) }
{
    let Ok(raw) = RawChoice::parse(alloc, text) else {
        return Err(Fail::from("no choice"));
    };
    match raw.bind(alloc, engine.options()) {
        Ok(partial) => Ok(partial),
        Err(_) => Err(Fail::from("not bound")),
    }
}

// The choice to which the rules complete bindings.
fn completed(alloc: Global, replica: &mut Replica, text: &[u8]) -> Result<Choice, Fail> {
    let partial = bound(alloc, replica.engine(), text)?;
    match replica.complete(&partial) {
        Ok(choice) => Ok(choice),
        Err(_) => Err(Fail::from("not completed")),
    }
}

fn rows_of(engine: &Engine, choice: Choice) -> Result<TreeRows, Fail> {
    let view = Engine::view(engine.visible(), choice, engine.position())?;
    let rows = view.tree();
    close_view(view);
    Ok(rows?)
}

// What a checkout of a replica is replied.
fn told(alloc: Global, replica: &mut Replica, checkout: &Checkout) -> Result<Text, Fail> {
    let choice = completed(alloc, replica, checkout.choice)?;
    let rows = rows_of(replica.engine(), choice)?;
    let tree = Name::read(alloc, checkout.tree)?;
    let dirs = as_count(dirs_in(&rows))?;
    let files = as_count(files_in(&rows))?;
    Ok(reply_checkout(alloc, &tree, dirs, files, &digest(&rows))?)
}

fn as_count(count: usize) -> Result<u32, Fail> {
    match u32::try_from(count) {
        Ok(count) => Ok(count),
        Err(_) => Err(Fail::from("too many rows")),
    }
}

fn all_told(alloc: Global, replica: &mut Replica) -> Result<Text, Fail> {
    let mut all = Text::new(alloc);
    for checkout in CHECKOUTS.as_slice() {
        let reply = told(alloc, replica, checkout)?;
        all.append(reply.as_slice())?;
    }
    Ok(all)
}

fn check_fed(
    rt: &impl Abort,
    alloc: Global,
    bytes: &[u8],
    replica: &mut Replica,
) -> Result<(), Fail> {
    for piece in bytes.chunks(PIECE_BYTES) {
        assert!(rt; matches!(replica.feed(piece), Ok(())));
    }
    assert_eq!(rt; replica.engine().position().number(), 532);
    assert_eq!(rt; all_told(alloc, replica)?.as_slice(), TOLD);
    Ok(())
}

#[test]
fn a_replica_has_the_same_trees(rt: HostRuntime) -> Result<(), Fail> {
    let alloc = rt.alloc();
    let mut disk = MemoryDisk::new(alloc, Text::new(alloc), Numbers::new(alloc), None);
    make_store(alloc, &mut disk)?;
    let mut replica = Replica::new(alloc)?;
    let checked = check_fed(&rt, alloc, disk.bytes(), &mut replica);
    close(replica);
    drop(disk);
    checked
}

const CAT: &[&str] = &["replica", "cat", "-", "/m"];

const CHECKOUT: &[&str] = &["replica", "checkout", "t", "-"];

/// The store of an option, the one of the two commits of the plain script, and bytes that are none.
const OPTION_BYTES: &[u8] = &OPTION;

const PLAIN_BYTES: &[u8] = &PLAIN;

const NO_STORE: &[u8] = b"hello hello hello he";

const PLAIN_REPLIES: &[u8] =
    b"ok replica 2\nok checkout t 0 1 fcaaf111a029839929979878379637db41b8c7896f279141476fd3b35c6532ed\n";

const PLAIN_ROWS: &[Row] = &[(b"t", None), (b"t/m", Some(b"one\ntwo\n"))];

/// Words, the first bytes of these, what is told, the rows that are written, and the status.
struct Answered {
    words: &'static [&'static str],
    source: &'static [u8],
    count: usize,
    replies: &'static [u8],
    rows: &'static [Row],
    status: u8,
}

const ANSWERS: [Answered; 7] = [
    Answered {
        words: CAT,
        source: OPTION_BYTES,
        count: 53,
        replies: b"ok replica 1\nrefused incomplete a\n",
        rows: &[],
        status: 1,
    },
    Answered {
        words: CAT,
        source: OPTION_BYTES,
        count: 52,
        replies: b"ok replica 1\nrefused incomplete a\n",
        rows: &[],
        status: 1,
    },
    Answered {
        words: CAT,
        source: OPTION_BYTES,
        count: 51,
        replies: b"ok replica 0\nrefused no-such-path\n",
        rows: &[],
        status: 1,
    },
    Answered {
        words: CAT,
        source: NO_STORE,
        count: 20,
        replies: b"not-a-store\n",
        rows: &[],
        status: 8,
    },
    Answered {
        words: CHECKOUT,
        source: NO_STORE,
        count: 13,
        replies: b"ok replica 0\nok checkout t 0 0 e3b0c44298fc1c149afbf4c8996fb92427ae41e4649b934ca495991b7852b855\n",
        rows: &[(b"t", None)],
        status: 0,
    },
    Answered {
        words: CAT,
        source: PLAIN_BYTES,
        count: 150,
        replies: b"ok replica 2\nok 2\n1 one\n2 two\n",
        rows: &[],
        status: 0,
    },
    Answered {
        words: CHECKOUT,
        source: PLAIN_BYTES,
        count: 150,
        replies: PLAIN_REPLIES,
        rows: PLAIN_ROWS,
        status: 0,
    },
];

// The disk isn't called.
fn check_answered(rt: &impl Abort, alloc: Global, answered: &Answered) -> Result<(), Memory> {
    let case = Case {
        words: answered.words,
        script: answered.source.get(..answered.count).unwrap_or(&[]),
        replies: answered.replies,
        rows: answered.rows,
    };
    let end = end_from(alloc, &case, failing(Device::Disk, 1), &FIRST, &FIRST)?;
    assert_eq!(rt; end, (case.end(answered.status), true));
    Ok(())
}

#[test]
fn a_line_is_answered(rt: HostRuntime) -> Result<(), Fail> {
    for answered in ANSWERS.as_slice() {
        check_answered(&rt, rt.alloc(), answered)?;
    }
    Ok(())
}

/// The store of an option, with a bit of the last byte of its digest changed.
const BAD: &[u8] = &[
    67, 79, 86, 83, 84, 79, 82, 69, 0, 0, 0, 1, 1, 0, 0, 0, 3, 1, 1, 97, 147, 247, 53, 91, 227,
    241, 213, 211, 196, 216, 235, 143, 164, 23, 174, 210, 3, 103, 5, 49, 151, 206, 175, 224, 125,
    41, 13, 220, 179, 241, 251, 220, 0,
];

/// What fails, and how the run then ends: the status, and how many bytes and rows are written.
struct Failing {
    fails: Fails,
    status: u8,
    written: usize,
    rows: usize,
}

const FAILINGS: [Failing; 5] = [
    Failing {
        fails: Fails {
            source: 2,
            sink: 0,
            disk: 1,
            trees: 0,
        },
        status: 4,
        written: 0,
        rows: 0,
    },
    Failing {
        fails: Fails {
            source: 0,
            sink: 1,
            disk: 1,
            trees: 0,
        },
        status: 5,
        written: 0,
        rows: 0,
    },
    Failing {
        fails: Fails {
            source: 0,
            sink: 2,
            disk: 1,
            trees: 0,
        },
        status: 5,
        written: 13,
        rows: 2,
    },
    Failing {
        fails: Fails {
            source: 0,
            sink: 0,
            disk: 1,
            trees: 1,
        },
        status: 7,
        written: 13,
        rows: 0,
    },
    Failing {
        fails: Fails {
            source: 0,
            sink: 0,
            disk: 1,
            trees: 2,
        },
        status: 7,
        written: 13,
        rows: 1,
    },
];

#[test]
fn the_first_failing_call_ends_it(rt: HostRuntime) -> Result<(), Fail> {
    let case = Case {
        words: CHECKOUT,
        script: PLAIN_BYTES,
        replies: PLAIN_REPLIES,
        rows: PLAIN_ROWS,
    };
    for failing in FAILINGS.as_slice() {
        let mut end = case.end(failing.status);
        end.written = Some(failing.written);
        end.rows = Some(failing.rows);
        let ended = end_from(rt.alloc(), &case, failing.fails, &FIRST, &FIRST)?;
        assert_eq!(rt; ended, (end, true));
    }
    Ok(())
}

#[test]
fn damage_is_told_alone(rt: HostRuntime) -> Result<(), Fail> {
    let case = Case {
        words: CHECKOUT,
        script: BAD,
        replies: b"damaged 1 digest\n",
        rows: &[],
    };
    let end = end_from(rt.alloc(), &case, failing(Device::Disk, 1), &FIRST, &FIRST)?;
    assert_eq!(rt; end, (case.end(9), true));
    Ok(())
}
