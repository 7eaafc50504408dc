// Scripts that a whole run serves, with their replies.
use crate::tests::running::{Case, DONE, SERVED, SERVED_BY_BYTES, SOME_REFUSED, are_served};
use std::test::Fail;

const CASES: [Case; 7] = [
    (b"option a\noption b\n", b"ok option 0\nok option 1\n", DONE),
    (
        b"option a\ncomplete -",
        b"ok option 0\nrefused incomplete a\n",
        SOME_REFUSED,
    ),
    (b"", b"", DONE),
    (
        b"option a\noption b\nconstraint !(a & b)\ncomplete a=on,b=off\n",
        b"ok option 0\nok option 1\nok constraint 1\nok a=on,b=off\n",
        DONE,
    ),
    (
        b"option a\noption b\nconstraint !(a & b)\ncomplete a=on,b=on\n",
        b"ok option 0\nok option 1\nok constraint 1\nrefused invalid 1\n",
        SOME_REFUSED,
    ),
    (
        b"complete -\noption a\noption b\nconstraint a | b\nconstraint a & !b\ncomplete a=off,b=off\ncomplete b=on,a=on\ncomplete a=on\ncomplete a=on,b=off,a=on\ncomplete a=on,c=off\nconstraint c\nconstraint  a&(b|a )\nconstraint a &\ncomplete a=on,b=off",
        b"ok -\nok option 0\nok option 1\nok constraint 1\nok constraint 2\nrefused invalid 1\nrefused invalid 2\nok a=on,b=off\nrefused repeated a\nrefused unknown-option c\nrefused unknown-option c\nok constraint 3\nrefused syntax 14\nok a=on,b=off\n",
        SOME_REFUSED,
    ),
    (
        b"\n# note\noptoin a\noption\noption a b\noption 9x\noption a\noption a\r\noption for\n\xff\xfe",
        b"refused syntax 0\nrefused syntax 6\nrefused syntax 8\nrefused bad-name\nok option 0\nrefused bad-name\nrefused bad-name\nrefused syntax 0\n",
        SOME_REFUSED,
    ),
];

#[test]
fn scripts_are_served(rt: HostRuntime) -> Result<(), Fail> {
    are_served(&rt, rt.alloc(), SERVED, &CASES)?;
    are_served(&rt, rt.alloc(), SERVED_BY_BYTES, &CASES)
}

const RULES: [Case; 6] = [
    (
        b"option a\nconstraint a\nconstraint !a\ncomplete -\n",
        b"ok option 0\nok constraint 1\nrefused no-variant-left\nok a=on\n",
        SOME_REFUSED,
    ),
    (
        b"option a\nprefer a\ndefault a off\ncomplete -\n",
        b"ok option 0\nok prefer 1\nok default 1\nok a=on\n",
        DONE,
    ),
    (
        b"option a\noption b\nconstraint !a | b\nconstraint !a | !b\ncomplete a=on\n",
        b"ok option 0\nok option 1\nok constraint 1\nok constraint 2\nrefused invalid 2\n",
        SOME_REFUSED,
    ),
    (
        b"option a\n\n# note\noptoin a\noption\noption a b\noption 9x\noption a\nconstraint a &\nconstraint a $\nconstraint b\ncomplete a=yes\ncomplete a=on,a=off\nmkfile s m\nmkfile s /m\ninsert s /m 4294967296 one\nwhere 1\n",
        b"ok option 0\nrefused syntax 0\nrefused syntax 6\nrefused syntax 8\nrefused bad-name\nrefused exists\nrefused syntax 14\nrefused syntax 13\nrefused unknown-option b\nrefused syntax 9\nrefused repeated a\nrefused syntax 9\nrefused no-session\nrefused syntax 12\nrefused no-such-line\n",
        SOME_REFUSED,
    ),
    (
        b"option a\noption b\nopen s a=on,c=on,a=on for d\nopen s a=on,b=on,a=on for d\nopen s a=on for d\nopen s a=on for true\nconstraint !a | !b\nopen s a=on,b=on for false\nopen s a=on,b=off for false\ndefault c on\ndefault 9x on\ndefault on off\ndefault b off\nprefer c & on\nopen s a=on for !b\nopen t a=on,c=on for d\ncat c=on /n/x\ncat c=on /m\ncat b=on,b=off /m\ncat a=on,b=on /m\ncat - /m\ncat a=off /m\nmkfile t /m\nmkfile s /m\nmkfile t /m\ninsert t /m/n 0 x\nmkfile t /n/m\n",
        b"ok option 0\nok option 1\nrefused unknown-option c\nrefused repeated a\nrefused unknown-option d\nrefused incomplete b\nok constraint 1\nrefused invalid 1\nrefused outside-ambition\nrefused unknown-option c\nrefused unknown-option 9x\nrefused unknown-option on\nok default 1\nrefused unknown-option c\nok open 4 a=on,b=off\nrefused unknown-option c\nrefused unknown-option c\nrefused unknown-option c\nrefused repeated b\nrefused invalid 1\nrefused incomplete a\nrefused no-such-path\nrefused no-session\nok\nrefused no-session\nrefused no-session\nrefused no-session\n",
        SOME_REFUSED,
    ),
    (
        b"mkdir s /d\nrename s /m n\nmove s /m /\nremove s /m\nlist s /\nrefresh s\ncheckout t -\nalt - a /m\nwhere 1\nmkdir s m\nwhere 01\nside s true\nupgrade\n",
        b"refused no-session\nrefused no-session\nrefused no-session\nrefused no-session\nrefused no-session\nrefused no-session\nok checkout t 0 0 e3b0c44298fc1c149afbf4c8996fb92427ae41e4649b934ca495991b7852b855\nrefused unknown-option a\nrefused no-such-line\nrefused syntax 8\nrefused syntax 6\nrefused no-session\nok upgrade 2\n",
        SOME_REFUSED,
    ),
];

#[test]
fn rules_are_served(rt: HostRuntime) -> Result<(), Fail> {
    are_served(&rt, rt.alloc(), SERVED, &RULES)
}

const SESSIONS: [Case; 3] = [
    (
        b"open s - for true\ncommit s\ninsert s /m 0 x\nmkfile s /m\nopen t - for true\ndrop s\ncommit s\n",
        b"ok open 0 -\nrefused empty\nrefused no-such-path\nok\nok open 0 -\nok\nrefused no-session\n",
        SOME_REFUSED,
    ),
    (
        b"option a\nopen s a=off for a\n",
        b"ok option 0\nrefused outside-ambition\n",
        SOME_REFUSED,
    ),
    (
        b"option a\nopen s a=on for a\nmkfile s /m\noption b\nconstraint !a\ninsert s /m 0 one\ninsert s /m 7 two\ninsert s /n 0 two\nmkfile s /m\ncommit s\ncat a=on,b=on /m\ncat a=off,b=on /m\nconstraint a | b\ncat a=off,b=off /m\nopen s a=on,b=off for b\n",
        b"ok option 0\nok open 1 a=on\nok\nok option 1\nok constraint 1\nok +0\nrefused no-such-line\nrefused no-such-path\nrefused name-taken\nok commit 4\nrefused invalid 1\nrefused no-such-path\nok constraint 2\nrefused invalid 2\nrefused invalid 1\n",
        SOME_REFUSED,
    ),
];

#[test]
fn sessions_are_served(rt: HostRuntime) -> Result<(), Fail> {
    are_served(&rt, rt.alloc(), SERVED, &SESSIONS)
}

const EDITING: [Case; 3] = [
    (
        b"open s - for true\nmkfile s /m\ninsert s /m 0 one\ncommit s\nopen s - for true\ninsert s /m 1 two\ncommit s\nopen s - for true\ninsert s /m 1 x\ndelete s /m 3\ninsert s /m 3 y\ndelete s /m +0\ndelete s /m +0\nshow s /m\n",
        b"ok open 0 -\nok\nok +0\nok commit 1\nok open 1 -\nok +0\nok commit 2\nok open 2 -\nok +0\nrefused no-such-line\nrefused no-such-line\nok\nrefused no-such-line\nok 2\n1 one\n2 two\n",
        SOME_REFUSED,
    ),
    (
        b"open s - for true\nmkfile s /m\ninsert s /m 0 one\ninsert s /m +0 two\ncommit s\nopen s - for true\ndelete s /m 0\nreplace s /m 0 zero\nreplace s /m 3 zero\nreplace s /m 1 uno\nshow s /m\nreplace s /m 1 uno\nreplace s /m +0 eins\ninsert s /m +1 und\nshow s /m\ndelete s /n 1\nreplace s /n 1 x\nshow s /n\ndelete t /m 1\nreplace t /m 1 x\nshow t /m\ndelete s /m/n 1\nreplace s / 1 x\nshow s /m/n\n",
        b"ok open 0 -\nok\nok +0\nok +1\nok commit 1\nok open 1 -\nrefused no-such-line\nrefused no-such-line\nrefused no-such-line\nok +0\nok 2\n+0 uno\n2 two\nrefused no-such-line\nok +1\nok +2\nok 3\n+1 eins\n+2 und\n2 two\nrefused no-such-path\nrefused no-such-path\nrefused no-such-path\nrefused no-session\nrefused no-session\nrefused no-session\nrefused no-such-path\nrefused not-file\nrefused no-such-path\n",
        SOME_REFUSED,
    ),
    (
        b"option d\nopen s d=on for true\nmkfile s /m\ninsert s /m 0 a\ninsert s /m +0 b\ndelete s /m +0\ninsert s /m +1 c\nreplace s /m +1 d\ndelete s /m 1\ninsert s /m 1 e\nreplace s /m 2 e\ninsert s /m +0 e\nshow s /m\ndrop s\nshow s /m\ndelete s /m +1\nreplace s /m +1 x\ndelete s /m + 1\nshow s\n",
        b"ok option 0\nok open 1 d=on\nok\nok +0\nok +1\nok\nok +2\nok +3\nrefused no-such-line\nrefused no-such-line\nrefused no-such-line\nrefused no-such-line\nok 2\n+3 d\n+2 c\nok\nrefused no-session\nrefused no-session\nrefused no-session\nrefused syntax 12\nrefused syntax 6\n",
        SOME_REFUSED,
    ),
];

#[test]
fn lines_are_deleted_and_replaced(rt: HostRuntime) -> Result<(), Fail> {
    are_served(&rt, rt.alloc(), SERVED, &EDITING)
}

const DELETED: [Case; 1] = [(
    b"open s - for true\nmkfile s /m\ninsert s /m 0 one\ninsert s /m +0 two\ncommit s\nopen s - for true\nreplace s /m 1 uno\nreplace s /m +0 eins\ninsert s /m +1 und\ncommit s\ncat - /m\n",
    b"ok open 0 -\nok\nok +0\nok +1\nok commit 1\nok open 1 -\nok +0\nok +1\nok +2\nok commit 2\nok 3\n4 eins\n5 und\n2 two\n",
    DONE,
)];

#[test]
fn deletes_are_committed(rt: HostRuntime) -> Result<(), Fail> {
    are_served(&rt, rt.alloc(), SERVED, &DELETED)
}

const DIRECTORIES: [Case; 5] = [
    (
        b"open s - for true\nmkdir s /src\nmkfile s /a\nmkfile s /Makefile\nmkdir s /src/b\nlist s /\nlist s /src\nlist s /src/b\nlist s /a\nlist s /n\nlist t /\nrename s /a z\nmove s /src/b /\nlist s /\n",
        b"ok open 0 -\nok\nok\nok\nok\nok 3\nf Makefile\nf a\nd src\nok 1\nd b\nok 0\nrefused not-directory\nrefused no-such-path\nrefused no-session\nok\nok\nok 4\nf Makefile\nd b\nd src\nf z\n",
        SOME_REFUSED,
    ),
    (
        b"option d\nopen s d=on for d\nmkfile s /x\ncommit s\nopen t d=off for true\nmkfile t /x\ncommit t\ndrop t\n",
        b"ok option 0\nok open 1 d=on\nok\nok commit 2\nok open 2 d=off\nok\nrefused clash 1 2 in d=on\nok\n",
        SOME_REFUSED,
    ),
    (
        b"option p\nopen s p=on for true\nmkdir s /a\nmkdir s /b\nmkdir s /c\ncommit s\nopen s p=on for p\nmove s /a /b\nremove s /c\ncommit s\nopen t p=off for true\nmove t /b /a\ncommit t\ndrop t\nopen t p=off for true\nmkfile t /c/x\ncommit t\n",
        b"ok option 0\nok open 1 p=on\nok\nok\nok\nok commit 2\nok open 2 p=on\nok\nok\nok commit 3\nok open 3 p=off\nok\nrefused loop 1 in p=on\nok\nok open 3 p=off\nok\nrefused orphan 4 in p=on\n",
        SOME_REFUSED,
    ),
    (
        b"open s - for true\nmkdir s /a\nmkdir s /a/b\nmkfile s /a/b/m\ninsert s /a/b/m 0 one\nmkdir s /c\nmove s /a/b /c\nrename s /c/b d\nshow s /c/d/m\ncommit s\ncat - /c/d/m\ncat - /a/b/m\nopen s - for true\nremove s /a\nmove s /c/d/m /\nreplace s /m 1 two\nremove s /c/d\ncommit s\ncat - /m\ncat - /a\n",
        b"ok open 0 -\nok\nok\nok\nok +0\nok\nok\nok\nok 1\n+0 one\nok commit 1\nok 1\n1 one\nrefused no-such-path\nok open 1 -\nok\nok\nok +0\nok\nok commit 2\nok 1\n2 two\nrefused no-such-path\n",
        SOME_REFUSED,
    ),
    (
        b"mkdir s /a\nopen s - for true\nmkdir s /a\nmkfile s /m\nmkdir t /a\nmkdir s /x/a\nmkdir s /m/a\nmkdir s /a\nrename t / a\nrename s /x a\nrename s / a\nrename s /m a\nrename s /m m\nmove t / /\nmove s /x /\nmove s /m /x\nmove s / /a\nmove s /m /m\nmove s /a /a\nmove s /m /\nmkdir s /a/b\nmove s /a /a/b\nremove t /\nremove s /x\nremove s /\nremove s /a\ninsert s /a 0 x\ndelete s / 1\nshow s /a\nshow s /\nshow s /m/n\ncat - /\ncat - /m/n\nremove s /a/b\nremove s /a\n",
        b"refused no-session\nok open 0 -\nok\nok\nrefused no-session\nrefused no-such-path\nrefused not-directory\nrefused name-taken\nrefused no-session\nrefused no-such-path\nrefused is-root\nrefused name-taken\nrefused name-taken\nrefused no-session\nrefused no-such-path\nrefused no-such-path\nrefused is-root\nrefused not-directory\nrefused into-itself\nrefused name-taken\nok\nrefused into-itself\nrefused no-session\nrefused no-such-path\nrefused is-root\nrefused not-empty\nrefused not-file\nrefused not-file\nrefused not-file\nrefused not-file\nrefused no-such-path\nrefused not-file\nrefused no-such-path\nok\nok\n",
        SOME_REFUSED,
    ),
];

#[test]
fn directories_are_served(rt: HostRuntime) -> Result<(), Fail> {
    are_served(&rt, rt.alloc(), SERVED, &DIRECTORIES)
}
