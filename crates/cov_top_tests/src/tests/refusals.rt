// Each refusal of a line that names a path, and what the session shows after it.
use crate::tests::running::{SERVED, SOME_REFUSED, expect};
use std::fmt::Write;
use std::test::Fail;

// A directory with a file that one variant alone has, and a session in another that makes its own, with the replies.
const BEGUN: (&str, &str) = (
    "option p\nopen s p=on for p\nmkdir s /v\nmkfile s /v/w\ninsert s /v/w 0 theirs\ncommit s\nopen s p=off for true\nmkdir s /a\nmkdir s /a/b\nmkfile s /a/m\nmkfile s /m\ninsert s /m 0 ours\n",
    "ok option 0\nok open 1 p=on\nok\nok\nok +0\nok commit 2\nok open 2 p=off\nok\nok\nok\nok\nok +0\n",
);

// What the session shows, and how.
const SHOWN: (&str, &str) = (
    "list s /\nlist s /a\nlist s /a/b\nshow s /m\nshow s /a/m\n",
    "ok 2\nd a\nf m\nok 2\nd b\nf m\nok 0\nok 1\n+0 ours\nok 0\n",
);

const REFUSED: [(&str, &str); 73] = [
    ("mkdir t /x", "no-session"),
    ("mkdir s /q/x", "no-such-path"),
    ("mkdir s /v/x", "no-such-path"),
    ("mkdir s /m/x/y", "no-such-path"),
    ("mkdir s /m/x", "not-directory"),
    ("mkdir s /a", "name-taken"),
    ("mkdir s /m", "name-taken"),
    ("mkfile t /x", "no-session"),
    ("mkfile s /q/x", "no-such-path"),
    ("mkfile s /v/x", "no-such-path"),
    ("mkfile s /m/x/y", "no-such-path"),
    ("mkfile s /m/x", "not-directory"),
    ("mkfile s /a", "name-taken"),
    ("mkfile s /a/b", "name-taken"),
    ("rename t /m x", "no-session"),
    ("rename s /q x", "no-such-path"),
    ("rename s /v x", "no-such-path"),
    ("rename s /m/x y", "no-such-path"),
    ("rename s / x", "is-root"),
    ("rename s /m a", "name-taken"),
    ("rename s /m m", "name-taken"),
    ("rename s /a/b m", "name-taken"),
    ("move t /m /a", "no-session"),
    ("move s /q /a", "no-such-path"),
    ("move s /v /a", "no-such-path"),
    ("move s /m /q", "no-such-path"),
    ("move s /m /v", "no-such-path"),
    ("move s / /a", "is-root"),
    ("move s / /m", "is-root"),
    ("move s /a /m", "not-directory"),
    ("move s /a/b /m", "not-directory"),
    ("move s /m /m", "not-directory"),
    ("move s /a /a", "into-itself"),
    ("move s /a /a/b", "into-itself"),
    ("move s /m /", "name-taken"),
    ("move s /m /a", "name-taken"),
    ("move s /a/b /a", "name-taken"),
    ("remove t /m", "no-session"),
    ("remove s /q", "no-such-path"),
    ("remove s /v/w", "no-such-path"),
    ("remove s /m/x", "no-such-path"),
    ("remove s /", "is-root"),
    ("remove s /a", "not-empty"),
    ("list t /", "no-session"),
    ("list s /v", "no-such-path"),
    ("list s /m/x", "no-such-path"),
    ("list s /m", "not-directory"),
    ("insert t /m 0 x", "no-session"),
    ("insert s /v/w 0 x", "no-such-path"),
    ("insert s / 0 x", "not-file"),
    ("insert s /a 0 x", "not-file"),
    ("insert s /m 1 x", "no-such-line"),
    ("insert s /m +1 x", "no-such-line"),
    ("insert s /a/m +0 x", "no-such-line"),
    ("delete t /m +0", "no-session"),
    ("delete s /v/w 1", "no-such-path"),
    ("delete s /a 0", "not-file"),
    ("delete s /m 0", "no-such-line"),
    ("delete s /m 1", "no-such-line"),
    ("delete s /a/m +0", "no-such-line"),
    ("replace t /m +0 x", "no-session"),
    ("replace s /v/w 1 x", "no-such-path"),
    ("replace s /a/b 0 x", "not-file"),
    ("replace s /m 0 x", "no-such-line"),
    ("replace s /m 1 x", "no-such-line"),
    ("replace s /a/m +0 x", "no-such-line"),
    ("show t /m", "no-session"),
    ("show s /v/w", "no-such-path"),
    ("show s /a", "not-file"),
    ("show s /m/x", "no-such-path"),
    ("cat p=on /v", "not-file"),
    ("cat p=on /v/w/x", "no-such-path"),
    ("cat p=off /v/w", "no-such-path"),
];

// The commit of the session, and what each variant has then.
const ENDED: (&str, &str) = (
    "commit s\ncat p=on /v/w\ncat p=on /m\ncat p=off /m\n",
    "ok commit 3\nok 1\n1 theirs\nok 1\n2 ours\nok 1\n2 ours\n",
);

#[test]
fn refused_lines_change_nothing(rt: HostRuntime) -> Result<(), Fail> {
    let alloc = rt.alloc();
    let mut script = String::from_str(alloc, BEGUN.0)?;
    let mut written = String::from_str(alloc, BEGUN.1)?;
    for (line, rule) in &REFUSED {
        writeln!(script, "{line}")?;
        writeln!(written, "refused {rule}")?;
        script.push_str(SHOWN.0)?;
        written.push_str(SHOWN.1)?;
    }
    script.push_str(ENDED.0)?;
    written.push_str(ENDED.1)?;
    let case = (script.as_bytes(), written.as_bytes(), SOME_REFUSED);
    expect(&rt, alloc, SERVED, case)
}
