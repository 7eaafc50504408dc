// Scripts that reach limits.
use crate::tests::running::{DONE, SERVED, SOME_REFUSED, expect};
use std::fmt::Write;
use std::test::Fail;

// A session on which 4,096 bytes are inserted again and again reaches the bytes of a commit; those of a
// line that is deleted still count.
#[test]
fn sessions_are_limited(rt: HostRuntime) -> Result<(), Fail> {
    let alloc = rt.alloc();
    let mut script = String::from_str(alloc, "open s - for true\nmkfile s /m\n")?;
    let mut written = String::from_str(alloc, "ok open 0 -\nok\n")?;
    let text = "x".repeat(alloc, 4096)?;
    for number in 0..4096u32 {
        writeln!(script, "insert s /m 0 {text}")?;
        writeln!(written, "ok +{number}")?;
    }
    script.push_str(
        "insert s /m 0 x\ninsert s /m 0 \ninsert s /m 5 x\nreplace s /m 5 x\nreplace s /m 5 \nreplace s /m +4096 x\nreplace s /m +0 \ndelete s /m +1\ninsert s /m 0 x\n",
    )?;
    written.push_str(
        "refused too-many-bytes\nok +4096\nrefused too-many-bytes\nrefused too-many-bytes\nrefused no-such-line\nrefused too-many-bytes\nok +4097\nok\nrefused too-many-bytes\n",
    )?;
    let case = (script.as_bytes(), written.as_bytes(), SOME_REFUSED);
    expect(&rt, alloc, SERVED, case)
}

// A session on which a line is replaced again and again runs out of edits, two at a time.
#[test]
fn replacements_are_limited(rt: HostRuntime) -> Result<(), Fail> {
    let alloc = rt.alloc();
    let mut script = String::from_str(alloc, "open s - for true\nmkfile s /m\ninsert s /m 0 x\n")?;
    let mut written = String::from_str(alloc, "ok open 0 -\nok\nok +0\n")?;
    for number in 0..8190u32 {
        let next = number + 1;
        writeln!(script, "replace s /m +{number} x")?;
        writeln!(written, "ok +{next}")?;
    }
    script.push_str(
        "insert s /m 0 y\nreplace s /m +8190 z\nreplace s /m 9 z\nreplace s /n 1 z\ndelete s /m +8190\ndelete s /m +8191\nshow s /m\n",
    )?;
    written.push_str(
        "ok +8191\nrefused too-many-edits\nrefused too-many-edits\nrefused no-such-path\nok\nrefused too-many-edits\nok 1\n+8191 y\n",
    )?;
    let case = (script.as_bytes(), written.as_bytes(), SOME_REFUSED);
    expect(&rt, alloc, SERVED, case)
}

// What more is asked while 64 sessions are open: a name more, names in use, faults beside, and a place that comes free.
const MORE: (&str, &str) = (
    "open s64 - for true\nopen s0 - for true\nopen s0 - for a\noption a\nconstraint !a\nopen t a=on for true\nopen t - for b\nmkfile s63 /m\ncommit s63\nopen t a=on for true\nopen t a=off for a\nopen t - for true\nopen s63 - for true\nlist t /\nlist s62 /\ndrop s5\nopen s63 - for true\nmkfile s62 /m\ncommit s62\ncommit s0\nrefresh s62\nmkfile s61 /n\nrefresh s61\nlist s61 /\n",
    "refused too-many-sessions\nrefused session-exists\nrefused unknown-option a\nok option 0\nok constraint 1\nrefused too-many-sessions\nrefused unknown-option b\nok\nok commit 3\nrefused invalid 1\nrefused outside-ambition\nok open 3 a=off\nrefused too-many-sessions\nok 1\nf m\nok 0\nok\nok open 3 a=off\nok\nrefused clash 1 2 in a=off\nrefused empty\nrefused edit-lost 0\nok\nok refresh 3 a=off\nok 2\nf m\nf n\n",
);

#[test]
fn open_sessions_are_limited(rt: HostRuntime) -> Result<(), Fail> {
    let alloc = rt.alloc();
    let mut script = String::new(alloc);
    let mut written = String::new(alloc);
    for number in 0..64u32 {
        writeln!(script, "open s{number} - for true")?;
        written.push_str("ok open 0 -\n")?;
    }
    script.push_str(MORE.0)?;
    written.push_str(MORE.1)?;
    let case = (script.as_bytes(), written.as_bytes(), SOME_REFUSED);
    expect(&rt, alloc, SERVED, case)
}

#[test]
fn limits_are_kept(rt: HostRuntime) -> Result<(), Fail> {
    let alloc = rt.alloc();
    let mut script = String::new(alloc);
    let mut written = String::new(alloc);
    for number in 0..64u32 {
        writeln!(script, "option o{number}")?;
        writeln!(written, "ok option {number}")?;
    }
    script.push_str("option o64\noption o3\n")?;
    written.push_str("refused full\nrefused full\n")?;
    let case = (script.as_bytes(), written.as_bytes(), SOME_REFUSED);
    expect(&rt, alloc, SERVED, case)?;

    let longest = [b'#'; 8192];
    expect(&rt, alloc, SERVED, (&longest, b"", DONE))?;
    let too_long = [b'#'; 8193];
    expect(
        &rt,
        alloc,
        SERVED,
        (&too_long, b"refused long\n", SOME_REFUSED),
    )
}

/// The kinds of rules with a rule of each.
pub(crate) const KINDS: [(&str, &str); 3] = [
    ("constraint", "constraint a\n"),
    ("prefer", "prefer a\n"),
    ("default", "default a on\n"),
];

#[test]
fn rules_are_limited(rt: HostRuntime) -> Result<(), Fail> {
    let alloc = rt.alloc();
    let mut script = String::from_str(alloc, "option a\n")?;
    let mut written = String::from_str(alloc, "ok option 0\n")?;
    for (kind, line) in &KINDS {
        for number in 1..257u32 {
            script.push_str(line)?;
            writeln!(written, "ok {kind} {number}")?;
        }
        script.push_str(line)?;
        written.push_str("refused full\n")?;
    }
    script.push_str("constraint b\nprefer a a\ndefault b on\ncomplete a=off\n")?;
    written.push_str(
        "refused unknown-option b\nrefused syntax 9\nrefused unknown-option b\nrefused invalid 1\n",
    )?;
    let case = (script.as_bytes(), written.as_bytes(), SOME_REFUSED);
    expect(&rt, alloc, SERVED, case)
}

#[test]
fn long_expressions_are_refused(rt: HostRuntime) -> Result<(), Fail> {
    let alloc = rt.alloc();
    let mut script = String::from_str(alloc, "option a\nconstraint ")?;
    for _ in 0..255u32 {
        script.push('!')?;
    }
    script.push_str("a\nprefer ")?;
    for _ in 0..256u32 {
        script.push('!')?;
    }
    script.push_str("a\nconstraint ")?;
    for _ in 0..8000u32 {
        script.push('(')?;
    }
    let written: &[u8] = b"ok option 0\nok constraint 1\nrefused too-long\nrefused too-long\n";
    expect(
        &rt,
        alloc,
        SERVED,
        (script.as_bytes(), written, SOME_REFUSED),
    )
}
