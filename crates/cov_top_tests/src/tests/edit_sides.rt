// Sides: what the edits of one commit are meant for.
use crate::tests::running::{DONE, Parts, SERVED, SOME_REFUSED, Step, expect, parts_are_served};
use std::fmt::Write;
use std::test::Fail;

// A line for all, and one for a side. No side has an option that was declared after the base, or is false on the session's choice.
const DECLARED: [Step; 14] = [
    (b"option d", b"ok option 0"),
    (b"open s d=on for true", b"ok open 1 d=on"),
    (b"mkfile s /m", b"ok"),
    (b"insert s /m 0 one", b"ok +0"),
    (b"side s d", b"ok"),
    (b"insert s /m +0 two", b"ok +1"),
    (b"option e", b"ok option 1"),
    (b"side s e", b"refused late-option e"),
    (b"side s !d", b"refused outside-side"),
    (b"commit s", b"ok commit 3"),
    (b"default e off", b"ok default 1"),
    (b"cat d=on /m", b"ok 2\n1 one\n2 two"),
    (b"cat d=off /m", b"ok 1\n1 one"),
    (b"where 2", b"ok 1 0\n0 d F T"),
];

// A line that is inserted on one side and deleted on another stays where it isn't deleted.
const OWN_LINE: [Step; 10] = [
    (b"option d", b"ok option 0"),
    (b"option e", b"ok option 1"),
    (b"open s d=on,e=on for true", b"ok open 2 d=on,e=on"),
    (b"mkfile s /m", b"ok"),
    (b"side s d", b"ok"),
    (b"insert s /m 0 x", b"ok +0"),
    (b"side s e", b"ok"),
    (b"delete s /m +0", b"ok"),
    (b"commit s", b"ok commit 3"),
    (b"where 1", b"ok 2 0\n0 d F 1\n1 e T F"),
];

// What refuses a side, in its order. A refused one leaves the side of before, a refresh keeps it, and a session begins without one.
const REFUSED: [Step; 52] = [
    (b"side s true", b"refused no-session"),
    (b"side s", b"refused syntax 6"),
    (b"side s ", b"refused syntax 7"),
    (b"side  s true", b"refused syntax 5"),
    (b"side s a &", b"refused syntax 10"),
    (b"side s/t true", b"refused syntax 5"),
    (b"option a", b"ok option 0"),
    (b"option b", b"ok option 1"),
    (b"side s c", b"refused unknown-option c"),
    (b"side s a", b"refused no-session"),
    (b"open s a=on,b=off for a", b"ok open 2 a=on,b=off"),
    (b"side s c & b & d", b"refused unknown-option c"),
    (b"side s c", b"refused unknown-option c"),
    (b"side s b", b"refused outside-side"),
    (b"side s !a", b"refused outside-side"),
    (b"side t a", b"refused no-session"),
    (b"side s a | b", b"ok"),
    (b"side s false", b"refused outside-side"),
    (b"side s  a", b"ok"),
    (b"option c", b"ok option 2"),
    (b"option d", b"ok option 3"),
    (b"side s (d | c) & !a", b"refused late-option d"),
    (b"side s !a & d", b"refused late-option d"),
    (b"side s !a & c | d", b"refused late-option c"),
    (b"side s e & d", b"refused unknown-option e"),
    (b"side t e", b"refused unknown-option e"),
    (b"side t d", b"refused no-session"),
    (b"side s a | d", b"refused late-option d"),
    (b"side s a | !b", b"ok"),
    (b"mkfile s /m", b"ok"),
    (b"insert s /m 0 one", b"ok +0"),
    (b"side s !b", b"ok"),
    (b"refresh s", b"refused incomplete c"),
    (b"default c off", b"ok default 1"),
    (b"default d on", b"ok default 2"),
    (b"refresh s", b"ok refresh 6 a=on,b=off,c=off,d=on"),
    (b"insert s /m +0 two", b"ok +1"),
    (b"side s d & !c", b"ok"),
    (b"insert s /m +1 three", b"ok +2"),
    (b"side s c", b"refused outside-side"),
    (b"side s a & d", b"ok"),
    (b"delete s /m +0", b"ok"),
    (b"show s /m", b"ok 2\n+1 two\n+2 three"),
    (b"commit s", b"ok commit 7"),
    (b"side s true", b"refused no-session"),
    (b"where 1", b"ok 2 0\n0 a F 1\n1 d T F"),
    (b"where 2", b"ok 2 0\n0 a F 1\n1 b T F"),
    (b"where 3", b"ok 3 0\n0 a F 1\n1 c 2 F\n2 d F T"),
    (
        b"open s a=on,b=off for true",
        b"ok open 7 a=on,b=off,c=off,d=on",
    ),
    (b"insert s /m 2 four", b"ok +0"),
    (b"commit s", b"ok commit 8"),
    (b"where 4", b"ok 0 T"),
];

// Commits overtake by edits of one node in variants that both edits are meant for, and not by edits of two nodes. A commit is sound or
// not on each choice by the edits that are meant for it.
const COMMITTED: [Step; 73] = [
    (b"option d", b"ok option 0"),
    (b"option e", b"ok option 1"),
    (b"open s d=on,e=on for true", b"ok open 2 d=on,e=on"),
    (b"mkfile s /m", b"ok"),
    (b"mkfile s /n", b"ok"),
    (b"insert s /m 0 one", b"ok +0"),
    (b"insert s /n 0 one", b"ok +1"),
    (b"commit s", b"ok commit 3"),
    (b"open s d=on,e=off for true", b"ok open 3 d=on,e=off"),
    (b"open t d=off,e=on for true", b"ok open 3 d=off,e=on"),
    (b"side s d", b"ok"),
    (b"insert s /m 1 of d", b"ok +0"),
    (b"side s !e", b"ok"),
    (b"insert s /n 2 of !e", b"ok +1"),
    (b"side t !d", b"ok"),
    (b"insert t /m 1 of !d", b"ok +0"),
    (b"side t e", b"ok"),
    (b"insert t /n 2 of e", b"ok +1"),
    (b"commit s", b"ok commit 4"),
    (b"commit t", b"ok commit 5"),
    (b"cat d=on,e=on /m", b"ok 2\n1 one\n3 of d"),
    (b"cat d=on,e=on /n", b"ok 2\n2 one\n6 of e"),
    (b"cat d=off,e=off /m", b"ok 2\n1 one\n5 of !d"),
    (b"cat d=off,e=off /n", b"ok 2\n2 one\n4 of !e"),
    (b"open s d=on,e=off for true", b"ok open 5 d=on,e=off"),
    (b"open t d=off,e=on for true", b"ok open 5 d=off,e=on"),
    (b"side s d & !e", b"ok"),
    (b"insert s /m 1 x", b"ok +0"),
    (b"insert s /n 2 x", b"ok +1"),
    (b"side t !d", b"ok"),
    (b"insert t /m 1 y", b"ok +0"),
    (b"side t e | d", b"ok"),
    (b"insert t /n 2 y", b"ok +1"),
    (b"commit s", b"ok commit 6"),
    (b"commit t", b"refused overtaken 6"),
    (b"refresh t", b"ok refresh 6 d=off,e=on"),
    (b"commit t", b"ok commit 7"),
    (b"open s d=on,e=on for true", b"ok open 7 d=on,e=on"),
    (b"side s d", b"ok"),
    (b"mkfile s /x", b"ok"),
    (b"side s e", b"ok"),
    (b"rename s /x y", b"ok"),
    (b"side s true", b"ok"),
    (b"mkfile s /x", b"ok"),
    (b"commit s", b"refused clash 3 4 in d=on,e=off"),
    (b"remove s /y", b"ok"),
    (b"commit s", b"ok commit 8"),
    (b"open s d=on,e=on for e", b"ok open 8 d=on,e=on"),
    (b"side s d", b"ok"),
    (b"mkdir s /a", b"ok"),
    (b"side s true", b"ok"),
    (b"mkfile s /a/f", b"ok"),
    (b"commit s", b"refused orphan 6 in d=off,e=on"),
    (b"drop s", b"ok"),
    (b"open s d=on,e=on for true", b"ok open 8 d=on,e=on"),
    (b"side s d", b"ok"),
    (b"mkfile s /z", b"ok"),
    (b"side s e", b"ok"),
    (b"replace s /m 1 uno", b"ok +0"),
    (b"commit s", b"ok commit 9"),
    (b"open t d=off,e=on for true", b"ok open 9 d=off,e=on"),
    (b"mkfile t /z", b"ok"),
    (b"commit t", b"refused clash 5 6 in d=on,e=off"),
    (b"drop t", b"ok"),
    (b"open t d=off,e=on for true", b"ok open 9 d=off,e=on"),
    (b"side t !d", b"ok"),
    (b"mkfile t /z", b"ok"),
    (b"show t /m", b"ok 3\n11 uno\n9 y\n5 of !d"),
    (b"commit t", b"ok commit 10"),
    (b"where 1", b"ok 1 0\n0 e T F"),
    (b"where 11", b"ok 1 0\n0 e F T"),
    (b"cat d=on,e=on /m", b"ok 2\n11 uno\n3 of d"),
    (b"cat d=on,e=off /m", b"ok 3\n1 one\n7 x\n3 of d"),
];

const CASES: [Parts; 4] = [
    (&[&DECLARED], SOME_REFUSED),
    (&[&OWN_LINE], DONE),
    (&[&REFUSED], SOME_REFUSED),
    (&[&COMMITTED], SOME_REFUSED),
];

#[test]
fn sides_are_served(rt: HostRuntime) -> Result<(), Fail> {
    parts_are_served(&rt, rt.alloc(), &CASES)
}

// An ambition and a side may have 256 tokens each; one more is refused before the session is looked for.
#[test]
fn long_sides_are_served(rt: HostRuntime) -> Result<(), Fail> {
    let alloc = rt.alloc();
    let longest = "!".repeat(alloc, 255)?;
    let mut script = String::from_str(alloc, "option a\n")?;
    writeln!(script, "open s a=off for {longest}a")?;
    writeln!(script, "side s {longest}a")?;
    writeln!(script, "side s !{longest}a")?;
    writeln!(script, "side t !{longest}a")?;
    writeln!(script, "side t {longest}a")?;
    script.push_str("mkfile s /m\ninsert s /m 0 x\ncommit s\nwhere 1\n")?;
    let written: &[u8] =
        b"ok option 0\nok open 1 a=off\nok\nrefused too-long\nrefused too-long\nrefused no-session\nok\nok +0\nok commit 2\nok 1 0\n0 a T F\n";
    expect(
        &rt,
        alloc,
        SERVED,
        (script.as_bytes(), written, SOME_REFUSED),
    )
}
