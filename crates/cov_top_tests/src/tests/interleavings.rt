// Sessions whose lines come in two random orders: what each is told before it is committed is the same in both.
use crate::tests::running::{SERVED, SOME_REFUSED, serve};
use cov_base::{Memory, Numbers, Text};
use cov_io::MemorySink;
use std::alloc::{AllocError, Global};
use std::process::Abort;
use std::test::Fail;

// What stands before the sessions, and their openings.
const BEGUN: [&str; 17] = [
    "option d",
    "option e",
    "open s d=off,e=off for true",
    "mkfile s /m",
    "insert s /m 0 one",
    "insert s /m +0 two",
    "insert s /m +1 three",
    "mkdir s /a",
    "mkfile s /a/n",
    "insert s /a/n 0 n",
    "commit s",
    "open a d=on,e=off for d",
    "open b d=on,e=off for true",
    "open c d=off,e=on for !d",
    "open f d=off,e=on for e",
    "open g d=on,e=on for true",
    "open h d=off,e=off for !d & !e",
];

// The lines of each session, of which the last is its commit. What declares options and rules is a row of its own.
const SESSIONS: [&[&str]; 7] = [
    &[
        "show a /m",
        "insert a /m 1 of a",
        "replace a /m 2 zwei",
        "show a /m",
        "delete a /m 4",
        "list a /",
        "mkfile a /x",
        "insert a /x 0 x",
        "show a /x",
        "commit a",
    ],
    &[
        "delete b /m 1",
        "mkdir b /x",
        "move b /m /x",
        "list b /",
        "show b /x/m",
        "insert b /x/m +0 y",
        "insert b /x/m 2 of b",
        "show b /x/m",
        "commit b",
    ],
    &[
        "list c /a",
        "rename c /a/n o",
        "insert c /a/o 4 of c",
        "show c /a/o",
        "show c /a/n",
        "mkfile c /a/n",
        "list c /a",
        "commit c",
    ],
    &[
        "show f /m",
        "replace f /m 3 drei",
        "replace f /m +0 tre",
        "show f /m",
        "mkfile f /x",
        "list f /",
        "remove f /a",
        "commit f",
    ],
    &[
        "remove g /a/n",
        "move g /m /a",
        "list g /",
        "list g /a",
        "rename g /a b",
        "show g /b/m",
        "insert g /b/m 0 of g",
        "show g /b/m",
        "commit g",
    ],
    &[
        "insert h /m 0 of h",
        "delete h /m +0",
        "show h /m",
        "insert h /a/n 4 h",
        "show h /a/n",
        "mkdir h /a/x",
        "list h /a",
        "commit h",
    ],
    &[
        "option f",
        "default f off",
        "prefer !d",
        "constraint d | e | !f",
        "complete d=on,e=on",
        "option g",
        "prefer g",
        "complete e=off",
        "cat d=on,e=on /m",
    ],
];

// The replies to these lines, but the last of each, one session after another.
const TOLD: &str =
    "ok 3\n1 one\n2 two\n3 three\nok +0\nok +1\nok 4\n1 one\n+0 of a\n+1 zwei\n3 three\nrefused no-such-line\nok 2\nd a\nf m\nok\nok +2\nok 1\n+2 x\nok\nok\nok\nok 2\nd a\nd x\nok 2\n2 two\n3 three\nrefused no-such-line\nok +0\nok 3\n2 two\n+0 of b\n3 three\nok 1\nf n\nok\nok +0\nok 2\n4 n\n+0 of c\nrefused no-such-path\nok\nok 2\nf n\nf o\nok 3\n1 one\n2 two\n3 three\nok +0\nok +1\nok 3\n1 one\n2 two\n+1 tre\nok\nok 3\nd a\nf m\nf x\nrefused not-empty\nok\nok\nok 1\nd a\nok 1\nf m\nok\nok 3\n1 one\n2 two\n3 three\nok +0\nok 4\n+0 of g\n1 one\n2 two\n3 three\nok +0\nok\nok 3\n1 one\n2 two\n3 three\nok +1\nok 2\n4 n\n+1 h\nok\nok 2\nf n\nd x\nok option 2\nok default 1\nok prefer 1\nok constraint 1\nok d=on,e=on,f=off\nok option 3\nok prefer 2\nok d=off,e=off,f=off,g=on\n";

// One who is told nothing that is compared.
const NOBODY: usize = SESSIONS.len();

// A script, and whom each of its lines is told to.
#[derive(Drop)]
struct Order {
    script: String,
    tellers: Vec<usize>,
}

impl Order {
    fn new(alloc: Global) -> Order {
        Order {
            script: String::new(alloc),
            tellers: Vec::new(alloc),
        }
    }

    fn push(&mut self, line: &str, teller: usize) -> Result<(), AllocError> {
        self.script.push_str(line)?;
        self.script.push('\n')?;
        self.tellers.push(teller)?;
        Ok(())
    }
}

// The next number of a generator.
fn drawn(state: u64) -> u64 {
    state
        .wrapping_mul(6364136223846793005)
        .wrapping_add(1442695040888963407)
}

// Puts the first of the lines that a session has ahead behind a script, if one is left.
fn take_turn(order: &mut Order, session: usize, ahead: &mut &[&str]) -> Result<(), AllocError> {
    let [line, rest @ ..] = *ahead else {
        return Ok(());
    };
    *ahead = rest;
    let teller = if rest.is_empty() { NOBODY } else { session };
    order.push(line, teller)
}

// Puts all lines behind a script: those that stand before, and then those of all sessions, each session's in their order.
fn fill(order: &mut Order, seed: u64) -> Result<(), AllocError> {
    for line in BEGUN {
        order.push(line, NOBODY)?;
    }
    let mut ahead = SESSIONS;
    let mut state = seed;
    for _ in 0..600u32 {
        state = drawn(state);
        let session = ((state >> 33) % NOBODY as u64) as usize;
        take_turn(order, session, &mut ahead[session])?;
    }
    Ok(())
}

// Whether a line is the first of a reply.
fn begins_reply(line: &[u8]) -> bool {
    line.starts_with(b"ok") || line.starts_with(b"refused")
}

// Puts what a session is told behind a text.
fn hear(told: &mut Text, tellers: &[usize], written: &[u8], session: usize) -> Result<(), Memory> {
    let mut tellers = tellers.iter();
    let mut teller = NOBODY;
    for line in written.split(|byte| *byte == b'\n') {
        if begins_reply(line) {
            teller = tellers.next().copied().unwrap_or(NOBODY);
        }
        if teller == session {
            told.append(line)?;
            told.push(b'\n')?;
        }
    }
    Ok(())
}

// Puts what all are told behind a text, one session after another.
fn hear_all(told: &mut Text, tellers: &[usize], written: &[u8]) -> Result<(), Memory> {
    for session in 0..NOBODY {
        hear(told, tellers, written, session)?;
    }
    Ok(())
}

// Runs the program on a script, and compares what the sessions are told.
fn check_told(
    rt: &impl Abort,
    alloc: Global,
    order: &Order,
    sink: &mut MemorySink,
    told: &mut Text,
) -> Result<(), Fail> {
    let status = serve(alloc, SERVED, order.script.as_bytes(), sink)?;
    assert_eq!(rt; status, SOME_REFUSED);
    hear_all(told, order.tellers.as_slice(), sink.written())?;
    assert_eq!(rt; told.as_slice(), TOLD.as_bytes());
    Ok(())
}

fn check_order(rt: &impl Abort, alloc: Global, order: &mut Order, seed: u64) -> Result<(), Fail> {
    fill(order, seed)?;
    let mut sink = MemorySink::new(alloc, Numbers::new(alloc));
    let mut told = Text::new(alloc);
    let checked = check_told(rt, alloc, order, &mut sink, &mut told);
    drop(sink);
    drop(told);
    checked
}

#[test]
fn sessions_are_told_the_same_in_each_order(rt: HostRuntime) -> Result<(), Fail> {
    for seed in [1, 7] {
        let mut order = Order::new(rt.alloc());
        let checked = check_order(&rt, rt.alloc(), &mut order, seed);
        drop(order);
        checked?;
    }
    Ok(())
}
