//! What a replica takes of images, whole, cut or changed, in pieces of any size.
ghost use Rattle.std.specs.Prelude.{◌≡◌, true, nat_lt, IfOk};
ghost use Rattle.std.specs.List.{list_all};
ghost use Rattle.cov_edit.specs.History.{option_count};

use crate::tests::images::{BEHIND, CHANGES, Change, ONE, PLAIN, ROWS, TEN, many_edits};
use crate::tests::opening::{Answer, changed, rule_of};
use cov_base::{Choice, FileRows, Memory, NodeNo, OptionId, Position};
use cov_engine::Engine;
use cov_expr::{Partial, RawChoice};
use cov_replica::{Replica, ReplicaDamage, ReplicaFault};
use cov_rules::CompleteFault;
use cov_view::{TreeRows, View, digest};
use std::alloc::Global;
use std::process::Abort;
use std::test::Fail;

/// Drops a replica, here alone.
fn close(_: Replica) {}

fn close_view(_: View) {}

fn damage(number: u32, cause: &ReplicaDamage) -> Answer {
    match cause {
        ReplicaDamage::Digest => Answer::Digest(number),
        ReplicaDamage::NotARecord => Answer::NotARecord(number),
        ReplicaDamage::Refused(refusal) => Answer::Refused(number, rule_of(refusal)),
    }
}

/// How many commands there are behind a piece, or what is wrong.
fn fed(replica: &mut Replica, piece: &[u8]) -> Answer {
    match replica.feed(piece) {
        Ok(()) => Answer::Opened(replica.engine().position().number()),
        Err(ReplicaFault::NotAStore) => Answer::NotAStore,
        Err(ReplicaFault::Damaged { number, cause }) => damage(number, &cause),
        Err(ReplicaFault::Memory { .. }) => Answer::Stopped,
    }
}

/// The same behind the last of pieces of a size.
fn fed_by(replica: &mut Replica, bytes: &[u8], size: usize) -> Answer {
    let mut answer = fed(replica, b"");
    for piece in bytes.chunks(size.max(1)) {
        answer = fed(replica, piece);
    }
    answer
}

/// What bytes come to that are fed in pieces of a size.
fn taken(alloc: Global, bytes: &[u8], size: usize) -> Result<Answer, Memory> {
    let mut replica = Replica::new(alloc)?;
    let answer = fed_by(&mut replica, bytes, size);
    close(replica);
    Ok(answer)
}

/// Bytes come to this, whole and byte by byte.
fn check_taken(rt: &impl Abort, alloc: Global, bytes: &[u8], answer: Answer) -> Result<(), Memory> {
    assert_eq!(rt; taken(alloc, bytes, bytes.len())?, answer);
    assert_eq!(rt; taken(alloc, bytes, 1)?, answer);
    Ok(())
}

/// How many of the ten records end within so many bytes.
fn whole_within(length: usize) -> u32 {
    let mut end: usize = 12;
    let mut count: u32 = 0;
    for behind in BEHIND.as_slice() {
        end = end.saturating_add(*behind).saturating_add(1);
        if end <= length {
            count = count.saturating_add(1);
        }
    }
    count
}

// Each cut, as the first bytes that come and as all of them.
fn check_cuts(rt: &impl Abort, alloc: Global, replica: &mut Replica) -> Result<(), Memory> {
    for (length, byte) in TEN.iter().enumerate() {
        let answer = Answer::Opened(whole_within(length));
        let first = TEN.get(..length).unwrap_or(&[]);
        assert_eq!(rt; taken(alloc, first, length)?, answer);
        assert_eq!(rt; fed(replica, b""), answer);
        fed(replica, &[*byte]);
    }
    assert_eq!(rt; fed(replica, b""), Answer::Opened(10));
    Ok(())
}

#[test]
fn every_cut_gives_the_records_before(rt: HostRuntime) -> Result<(), Fail> {
    let mut replica = Replica::new(rt.alloc())?;
    let checked = check_cuts(&rt, rt.alloc(), &mut replica);
    close(replica);
    checked?;
    Ok(())
}

/// Changes so many bytes from a place on, one at a time.
fn check_bytes(
    rt: &impl Abort,
    alloc: Global,
    at: &mut usize,
    count: usize,
    bits: u8,
    answer: Answer,
) -> Result<(), Memory> {
    for _ in 0..count {
        let bytes = changed(alloc, *at, bits)?;
        assert_eq!(rt; taken(alloc, bytes.as_slice(), 100)?, answer);
        *at = at.saturating_add(1);
    }
    Ok(())
}

// A changed gate ends the records, and so does a length that reaches beyond the bytes.
fn check_change(rt: &impl Abort, alloc: Global, change: &Change) -> Result<(), Memory> {
    let bits = change.bits;
    let mut at = 0;
    let mut number: u32 = 0;
    check_bytes(rt, alloc, &mut at, 12, bits, Answer::NotAStore)?;
    for (behind, long) in BEHIND.iter().zip(change.cut.as_slice()) {
        let ends = long.saturating_add(1);
        check_bytes(rt, alloc, &mut at, ends, bits, Answer::Opened(number))?;
        number = number.saturating_add(1);
        let others = behind.saturating_sub(*long);
        check_bytes(rt, alloc, &mut at, others, bits, Answer::Digest(number))?;
    }
    check_bytes(rt, alloc, &mut at, 1, bits, Answer::Opened(10))?;
    assert_eq!(rt; at, TEN.len());
    Ok(())
}

#[test]
fn every_changed_byte_is_told(rt: HostRuntime) -> Result<(), Fail> {
    for change in CHANGES.as_slice() {
        check_change(&rt, rt.alloc(), change)?;
    }
    Ok(())
}

// Of an image that is cut a replica takes the records before, and else it comes to what the image comes to where it is opened.
fn as_taken(opened: Answer) -> Answer {
    match opened {
        Answer::Cut(number) => Answer::Opened(number.saturating_sub(1)),
        answer => answer,
    }
}

#[test]
fn whole_records_are_accepted_or_refused(rt: HostRuntime) -> Result<(), Fail> {
    for row in ROWS.as_slice() {
        check_taken(&rt, rt.alloc(), row.image, as_taken(row.answer))?;
    }
    let image = many_edits(rt.alloc())?;
    let answer = taken(rt.alloc(), image.as_slice(), 1000)?;
    assert!(&rt; matches!(answer, Answer::Refused(1, _)));
    Ok(())
}

/// First bytes of an image, and what they come to.
struct First {
    bytes: &'static [u8],
    answer: Answer,
}

const FIRSTS: [First; 9] = [
    First {
        bytes: b"",
        answer: Answer::Opened(0),
    },
    First {
        bytes: b"COVSTORE\x00\x00\x00\x01",
        answer: Answer::Opened(0),
    },
    First {
        bytes: b"COVSTORE\x00\x00\x00\x01\x00",
        answer: Answer::Opened(0),
    },
    First {
        bytes: b"COVSTORE\x00\x00\x00\x01\x00\x00",
        answer: Answer::Opened(0),
    },
    First {
        bytes: b"COVSTORE\x00\x00\x00\x01\x02\x00\x00\x00\x03\x01\x01a",
        answer: Answer::Opened(0),
    },
    First {
        bytes: b"hello hello hello he",
        answer: Answer::NotAStore,
    },
    First {
        bytes: b"hello hello he",
        answer: Answer::NotAStore,
    },
    First {
        bytes: b"hello hello h",
        answer: Answer::Opened(0),
    },
    First {
        bytes: b"hello hello ",
        answer: Answer::Opened(0),
    },
];

#[test]
fn few_bytes_are_no_store_or_an_empty_one(rt: HostRuntime) -> Result<(), Fail> {
    for first in FIRSTS.as_slice() {
        check_taken(&rt, rt.alloc(), first.bytes, first.answer)?;
    }
    Ok(())
}

#[test]
fn a_gate_that_is_two_is_closed(rt: HostRuntime) -> Result<(), Fail> {
    let bytes = changed(rt.alloc(), 52, 3)?;
    check_taken(&rt, rt.alloc(), bytes.as_slice(), Answer::Opened(1))?;
    Ok(())
}

// A fault is answered again, whatever comes, and the history before it stays.
fn check_fault(rt: &impl Abort, replica: &mut Replica, bytes: &[u8], answer: Answer, count: u32) {
    assert_eq!(rt; fed(replica, bytes), answer);
    assert_eq!(rt; fed(replica, b""), answer);
    assert_eq!(rt; fed(replica, ONE.as_slice()), answer);
    assert!(rt; replica.fault().is_some());
    assert_eq!(rt; replica.engine().position().number(), count);
}

#[test]
fn no_store_stays_none(rt: HostRuntime) -> Result<(), Fail> {
    let mut replica = Replica::new(rt.alloc())?;
    let bytes = b"hello hello hello he".as_slice();
    check_fault(&rt, &mut replica, bytes, Answer::NotAStore, 0);
    close(replica);
    Ok(())
}

#[test]
fn damage_stays(rt: HostRuntime) -> Result<(), Fail> {
    let bytes = changed(rt.alloc(), 100, 1)?;
    let mut replica = Replica::new(rt.alloc())?;
    check_fault(&rt, &mut replica, bytes.as_slice(), Answer::Digest(3), 2);
    close(replica);
    Ok(())
}

// Bindings of options that the history declares.
fn bound(alloc: Global, engine: &Engine, text: &[u8]) -> Result<Partial, Fail>
    ensures { IfOk result (λ partial.
        list_all (λ b. nat_lt b.0 (option_count engine.now.history)) partial ≡ true) }
{
    let Ok(raw) = RawChoice::parse(alloc, text) else {
        return Err(Fail::from("no choice"));
    };
    match raw.bind(alloc, engine.options()) {
        Ok(partial) => Ok(partial),
        Err(_) => Err(Fail::from("not bound")),
    }
}

// How many options the choice has to which the rules complete bindings; none where they leave the first option open.
fn completed(alloc: Global, replica: &mut Replica, text: &[u8]) -> Result<Option<u8>, Fail> {
    let partial = bound(alloc, replica.engine(), text)?;
    match replica.complete(&partial) {
        Ok(choice) => Ok(Some(choice.count())),
        Err(fault) => none_at_first(fault),
    }
}

fn none_at_first(fault: CompleteFault) -> Result<Option<u8>, Fail> {
    let first = CompleteFault::Incomplete {
        option: OptionId::new(0),
    };
    if fault == first {
        return Ok(None);
    }
    Err(Fail::from("not completed"))
}

// The option a has no default, and so no choice is complete without it; before its record there is but one.
fn check_one(rt: &impl Abort, alloc: Global, replica: &mut Replica) -> Result<(), Fail> {
    assert_eq!(rt;
        fed(replica, ONE.get(..51).unwrap_or(&[])),
        Answer::Opened(0)
    );
    assert_eq!(rt; completed(alloc, replica, b"-")?, Some(0));
    assert_eq!(rt;
        fed(replica, ONE.get(51..52).unwrap_or(&[])),
        Answer::Opened(1)
    );
    assert_eq!(rt; completed(alloc, replica, b"-")?, None);
    assert_eq!(rt;
        fed(replica, ONE.get(52..).unwrap_or(&[])),
        Answer::Opened(1)
    );
    assert_eq!(rt; completed(alloc, replica, b"a=on")?, Some(1));
    Ok(())
}

#[test]
fn an_option_is_declared_by_its_last_byte(rt: HostRuntime) -> Result<(), Fail> {
    let mut replica = Replica::new(rt.alloc())?;
    let checked = check_one(&rt, rt.alloc(), &mut replica);
    close(replica);
    checked
}

fn rows_of(engine: &Engine) -> Result<TreeRows, Memory> {
    let view = Engine::view(engine.visible(), Choice::new(0, 0), engine.position())?;
    let rows = view.tree();
    close_view(view);
    rows
}

fn lines_of(engine: &Engine) -> Result<FileRows, Memory> {
    engine.lines_at(NodeNo::new(1), Choice::new(0, 0), Position::new(2))
}

/// The digest of the tree with the file m that has the lines one and two.
const ONE_TWO: [u8; 32] = [
    252, 170, 241, 17, 160, 41, 131, 153, 41, 151, 152, 120, 55, 150, 55, 219, 65, 184, 199, 137,
    111, 39, 145, 65, 71, 111, 211, 179, 92, 101, 50, 237,
];

fn check_plain(rt: &impl Abort, engine: &Engine) -> Result<(), Memory> {
    let lines = lines_of(engine)?;
    assert_eq!(rt; lines.len(), 2);
    let rows = rows_of(engine)?;
    assert_eq!(rt; digest(&rows), ONE_TWO);
    Ok(())
}

// The plain store in pieces of a size, and what the engine of the replica then shows.
fn check_shown(rt: &impl Abort, alloc: Global, size: usize) -> Result<(), Memory> {
    let mut replica = Replica::new(alloc)?;
    let answer = fed_by(&mut replica, PLAIN.as_slice(), size);
    let engine = replica.into_engine();
    let checked = check_plain(rt, &engine);
    close_engine(engine);
    assert_eq!(rt; answer, Answer::Opened(2));
    checked
}

fn close_engine(_: Engine) {}

#[test]
fn a_file_is_shown(rt: HostRuntime) -> Result<(), Fail> {
    check_shown(&rt, rt.alloc(), 1)?;
    check_shown(&rt, rt.alloc(), PLAIN.len())?;
    Ok(())
}
