// Scripts with many open sessions, with their replies.
use crate::tests::running::{Case, DONE, SERVED, SOME_REFUSED, are_served};
use std::test::Fail;

const OVERTAKEN: [Case; 6] = [
    // A session reads its base, is overtaken, and is refreshed.
    (
        b"open a - for true\nmkfile a /m\ninsert a /m 0 one\ncommit a\nopen a - for true\nopen b - for true\ninsert a /m 1 two\ninsert b /m 1 three\ncommit a\nshow b /m\ncommit b\nrefresh b\ncommit b\ncat - /m\n",
        b"ok open 0 -\nok\nok +0\nok commit 1\nok open 1 -\nok open 1 -\nok +0\nok +0\nok commit 2\nok 2\n1 one\n+0 three\nrefused overtaken 2\nok refresh 2 -\nok commit 3\nok 3\n1 one\n3 three\n2 two\n",
        SOME_REFUSED,
    ),
    // No choice is common.
    (
        b"option d\nopen s d=on for true\nmkfile s /m\ninsert s /m 0 one\ncommit s\nopen a d=on for d\nopen b d=off for !d\ninsert a /m 1 yes\ninsert b /m 1 no\ncommit a\ncommit b\ncat d=on /m\ncat d=off /m\n",
        b"ok option 0\nok open 1 d=on\nok\nok +0\nok commit 2\nok open 2 d=on\nok open 2 d=off\nok +0\nok +0\nok commit 3\nok commit 4\nok 2\n1 one\n2 yes\nok 2\n1 one\n3 no\n",
        DONE,
    ),
    // The line that both delete is lost.
    (
        b"open s - for true\nmkfile s /m\ninsert s /m 0 one\ncommit s\nopen s - for true\ninsert s /m 1 two\ncommit s\nopen a - for true\nopen b - for true\ndelete a /m 1\ndelete b /m 1\ncommit a\ncommit b\nrefresh b\nshow b /m\n",
        b"ok open 0 -\nok\nok +0\nok commit 1\nok open 1 -\nok +0\nok commit 2\nok open 2 -\nok open 2 -\nok\nok\nok commit 3\nrefused overtaken 3\nrefused edit-lost 0\nok 1\n2 two\n",
        SOME_REFUSED,
    ),
    // Of two that overtake, the first is named; what touches another file or shares no choice is none of them.
    (
        b"option d\noption e\nopen s d=off,e=off for true\nmkfile s /m\nmkfile s /n\nmkdir s /a\ninsert s /m 0 one\ncommit s\nopen a d=on,e=off for d\nopen b d=on,e=on for e\nopen c d=off,e=off for !d & !e\nopen f d=off,e=off for !d\ninsert a /n 0 n\ncommit a\ninsert b /m 1 b\ncommit b\nopen g d=on,e=on for d & e\ninsert g /m 1 g\ncommit g\ninsert c /m 1 c\ncommit c\ninsert f /m 1 f\ncommit f\nrefresh f\nshow f /m\ncommit f\ndrop f\n",
        b"ok option 0\nok option 1\nok open 2 d=off,e=off\nok\nok\nok\nok +0\nok commit 3\nok open 3 d=on,e=off\nok open 3 d=on,e=on\nok open 3 d=off,e=off\nok open 3 d=off,e=off\nok +0\nok commit 4\nok +0\nok commit 5\nok open 5 d=on,e=on\nok +0\nok commit 6\nok +0\nok commit 7\nok +0\nrefused overtaken 5\nok refresh 7 d=off,e=off\nok 3\n1 one\n+0 f\n5 c\nok commit 8\nrefused no-session\n",
        SOME_REFUSED,
    ),
    // On the one choice that is common a constraint of now is false.
    (
        b"option d\noption e\nopen s d=off,e=off for true\nmkfile s /m\ncommit s\nopen a d=on,e=off for d\nopen b d=off,e=on for e\nopen c d=off,e=on for e\ninsert a /m 0 a\ninsert b /m 0 b\ninsert c /m 0 c\ncommit a\ncommit b\nconstraint !(d & e)\ncommit b\ncommit c\ncat d=on /m\n",
        b"ok option 0\nok option 1\nok open 2 d=off,e=off\nok\nok commit 3\nok open 3 d=on,e=off\nok open 3 d=off,e=on\nok open 3 d=off,e=on\nok +0\nok +0\nok +0\nok commit 4\nrefused overtaken 4\nok constraint 1\nok commit 6\nrefused overtaken 6\nok 1\n1 a\n",
        SOME_REFUSED,
    ),
    // Each edit of a node of before touches that node; a new node, its directory and the target of a move aren't touched.
    (
        b"open s - for true\nmkdir s /a\nmkdir s /b\nmkfile s /m\nmkfile s /n\ncommit s\nopen r - for true\nopen t - for true\nopen u - for true\nopen v - for true\nopen w - for true\nopen x - for true\nrename r /m k\nmkfile r /a/x\ncommit r\ninsert t /m 0 one\ncommit t\nmkfile u /a/y\nmove u /n /a\ncommit u\nremove v /n\ncommit v\nrename w /a c\ncommit w\nmkdir x /a/d\nmove x /b /a/d\ncommit x\nopen z - for true\nlist z /\nlist z /c\nlist z /c/d\n",
        b"ok open 0 -\nok\nok\nok\nok\nok commit 1\nok open 1 -\nok open 1 -\nok open 1 -\nok open 1 -\nok open 1 -\nok open 1 -\nok\nok\nok commit 2\nok +0\nrefused overtaken 2\nok\nok\nok commit 3\nok\nrefused overtaken 3\nok\nok commit 4\nok\nok\nok commit 5\nok open 5 -\nok 2\nd c\nf k\nok 4\nd d\nf n\nf x\nf y\nok 1\nd b\n",
        SOME_REFUSED,
    ),
];

#[test]
fn commits_are_overtaken_by_common_nodes_on_common_choices(rt: HostRuntime) -> Result<(), Fail> {
    are_served(&rt, rt.alloc(), SERVED, &OVERTAKEN)
}

const REFRESHED: [Case; 4] = [
    // An option was declared under the session, and a default is wanted.
    (
        b"option a\nopen s a=on for a\nmkfile s /f\noption b\nrefresh s\ndefault b off\nrefresh s\ncommit s\ncommit s\n",
        b"ok option 0\nok open 1 a=on\nok\nok option 1\nrefused incomplete b\nok default 1\nok refresh 3 a=on,b=off\nok commit 4\nrefused no-session\n",
        SOME_REFUSED,
    ),
    // The choice is invalid now, or incomplete; a commit under the choice of then is still accepted.
    (
        b"option a\nopen s a=on for true\nmkfile s /f\ninsert s /f 0 one\ninsert s /f +0 two\nopen t a=on for a\nconstraint !a\nrefresh t\nrefresh s\nshow s /f\ncommit s\ndrop t\nopen t a=off for true\ninsert t /f 0 three\noption b\nrefresh t\nshow t /f\nprefer b\nrefresh t\nshow t /f\ncommit t\ncat a=off /f\n",
        b"ok option 0\nok open 1 a=on\nok\nok +0\nok +1\nok open 1 a=on\nok constraint 1\nrefused invalid 1\nrefused invalid 1\nok 2\n+0 one\n+1 two\nok commit 3\nok\nok open 3 a=off\nok +0\nok option 1\nrefused incomplete b\nok 3\n+0 three\n1 one\n2 two\nok prefer 1\nok refresh 5 a=off,b=on\nok 3\n+0 three\n1 one\n2 two\nok commit 6\nok 3\n3 three\n1 one\n2 two\n",
        SOME_REFUSED,
    ),
    // The first edit that is refused now is told, and the session shows what it showed.
    (
        b"open s - for true\nmkdir s /a\nmkfile s /a/m\nmkfile s /n\ninsert s /a/m 0 one\ninsert s /a/m +0 two\ncommit s\nopen d - for true\nopen r - for true\nopen v - for true\nopen x - for true\nopen o - for true\nopen p - for true\ninsert d /a/m 1 d\ninsert d /a/m +0 e\nreplace d /a/m 2 f\ninsert r /n 0 r\nrename r /a b\ninsert v /a/m 0 v\nmove v /a/m /\nmkdir x /a/x\nmkfile x /k\nremove o /n\ninsert p /n 0 p\ndelete p /n +0\nopen y - for true\ndelete y /a/m 2\ncommit y\nrefresh d\nshow d /a/m\nopen y - for true\nrename y /a b\nmkfile y /k\ncommit y\nrefresh r\nrefresh v\nlist v /\nshow v /m\nrefresh x\nlist x /\nlist x /a\ndrop x\nopen y - for true\nremove y /n\ncommit y\nrefresh o\nlist o /\nrefresh p\nshow p /n\nrefresh v\ncommit v\nrefresh d\ndelete d /a/m +0\nshow d /a/m\n",
        b"ok open 0 -\nok\nok\nok\nok +0\nok +1\nok commit 1\nok open 1 -\nok open 1 -\nok open 1 -\nok open 1 -\nok open 1 -\nok open 1 -\nok +0\nok +1\nok +2\nok +0\nok\nok +0\nok\nok\nok\nok\nok +0\nok\nok open 1 -\nok\nok commit 2\nrefused edit-lost 2\nok 4\n1 one\n+0 d\n+1 e\n+2 f\nok open 2 -\nok\nok\nok commit 3\nrefused edit-lost 1\nok refresh 3 -\nok 4\nd b\nf k\nf m\nf n\nok 2\n+0 v\n1 one\nrefused edit-lost 1\nok 3\nd a\nf k\nf n\nok 2\nf m\nd x\nok\nok open 3 -\nok\nok commit 4\nrefused edit-lost 0\nok 1\nd a\nrefused edit-lost 0\nok 0\nok refresh 4 -\nok commit 5\nrefused edit-lost 2\nok\nok 3\n1 one\n+1 e\n+2 f\n",
        SOME_REFUSED,
    ),
    // The lines of the session keep their numbers in it, and those of others come between.
    (
        b"option d\nopen s d=on for true\nmkfile s /m\ninsert s /m 0 one\ncommit s\nopen a d=on for d\nopen b d=on for true\nmkfile a /own\ninsert a /own 0 x\ninsert a /m 1 a0\ninsert a /m +1 a1\ndelete a /m +1\ninsert b /m 1 b0\ncommit b\noption e\ndefault e on\nrefresh a\nshow a /m\nshow a /own\ninsert a /m +1 y\ninsert a /m +2 a2\ninsert a /m 2 a3\nshow a /m\nrefresh a\ncommit a\ncat d=on /m\ncat d=off /m\ncat d=on /own\n",
        b"ok option 0\nok open 1 d=on\nok\nok +0\nok commit 2\nok open 2 d=on\nok open 2 d=on\nok\nok +0\nok +1\nok +2\nok\nok +0\nok commit 3\nok option 1\nok default 1\nok refresh 5 d=on,e=on\nok 3\n1 one\n+2 a1\n2 b0\nok 1\n+0 x\nrefused no-such-line\nok +3\nok +4\nok 5\n1 one\n+2 a1\n+3 a2\n2 b0\n+4 a3\nok refresh 5 d=on,e=on\nok commit 6\nok 5\n1 one\n5 a1\n6 a2\n2 b0\n7 a3\nok 2\n1 one\n2 b0\nok 1\n3 x\n",
        SOME_REFUSED,
    ),
];

#[test]
fn sessions_are_refreshed_or_stay_as_they_are(rt: HostRuntime) -> Result<(), Fail> {
    are_served(&rt, rt.alloc(), SERVED, &REFRESHED)
}

const NAMED: [Case; 3] = [
    // A name is in use until its session is committed.
    (
        b"open s - for true\nmkfile s /m\ninsert s /m 0 one\ncommit s\nopen s - for true\ninsert s /m 1 two\nshow s /m\ncommit s\ncat - /m\nopen s - for true\nmkdir s /d\nmkfile s /m\nmkfile s /m/x\nmkfile s /q/x\nrename s / z\nrename s /m d\nmove s /d /d\nmove s /m /m\nmove s /m /\nmkfile s /d/k\nremove s /d\ninsert s /d 0 x\ninsert s /m 9 x\ndelete s /m 0\nreplace s /m 1 uno\nshow s /m\nlist s /\nlist s /m\nmove s /m /d\nrename s /d/k j\nlist s /d\nremove s /d/m\nopen s - for true\ncommit s\nopen s - for true\ncommit s\n",
        b"ok open 0 -\nok\nok +0\nok commit 1\nok open 1 -\nok +0\nok 2\n1 one\n+0 two\nok commit 2\nok 2\n1 one\n2 two\nok open 2 -\nok\nrefused name-taken\nrefused not-directory\nrefused no-such-path\nrefused is-root\nrefused name-taken\nrefused into-itself\nrefused not-directory\nrefused name-taken\nok\nrefused not-empty\nrefused not-file\nrefused no-such-line\nrefused no-such-line\nok +0\nok 2\n+0 uno\n2 two\nok 2\nd d\nf m\nrefused not-directory\nok\nok\nok 2\nf j\nf m\nok\nrefused session-exists\nok commit 3\nok open 3 -\nrefused empty\n",
        SOME_REFUSED,
    ),
    // Each line for a session that isn't open, and what ends one session alone.
    (
        b"option d\nopen s d=on for d\nopen t d=off for !d\nmkfile s /m\nmkfile t /m\ninsert s /m 0 of s\ninsert t /m 0 of t\nopen s d=on for d\nopen s d=off for d\nopen t d=on for false\nmkdir u /a\nmkfile u /n\nrename u /m n\nmove u /m /\nremove u /m\ninsert u /m 0 x\ndelete u /m +0\nreplace u /m +0 x\nshow u /m\nlist u /\nrefresh u\ncommit u\ndrop u\nopen u d=off for d\nshow s /m\nshow t /m\ncommit s\nshow s /m\nshow t /m\nopen s d=on for d\nshow s /m\ndrop t\nshow s /m\ndrop t\ncommit t\ncommit s\nopen t d=off for true\nlist t /\nmkdir t /a\ndrop s\ncommit t\nopen s d=on for true\nlist s /\n",
        b"ok option 0\nok open 1 d=on\nok open 1 d=off\nok\nok\nok +0\nok +0\nrefused session-exists\nrefused session-exists\nrefused session-exists\nrefused no-session\nrefused no-session\nrefused no-session\nrefused no-session\nrefused no-session\nrefused no-session\nrefused no-session\nrefused no-session\nrefused no-session\nrefused no-session\nrefused no-session\nrefused no-session\nrefused no-session\nrefused outside-ambition\nok 1\n+0 of s\nok 1\n+0 of t\nok commit 2\nrefused no-session\nok 1\n+0 of t\nok open 2 d=on\nok 1\n1 of s\nok\nok 1\n1 of s\nrefused no-session\nrefused no-session\nrefused empty\nok open 2 d=off\nok 0\nok\nok\nok commit 3\nok open 3 d=on\nok 2\nd a\nf m\n",
        SOME_REFUSED,
    ),
    // The refusals of an opening in their order.
    (
        b"option a\noption b\nconstraint !a\nopen s a=off,b=on for b\nopen s c=on for true\nopen s b=on,b=on for true\nopen s b=on for c\nopen s a=on for true\nopen t a=on for true\nopen t a=off for true\nopen t b=off for b\nopen t a=off,b=off for !b\ndrop s\nopen s a=on for true\nopen s - for true\nopen s b=off for b\n",
        b"ok option 0\nok option 1\nok constraint 1\nok open 3 a=off,b=on\nrefused unknown-option c\nrefused repeated b\nrefused unknown-option c\nrefused session-exists\nrefused invalid 1\nrefused incomplete b\nrefused outside-ambition\nok open 3 a=off,b=off\nok\nrefused invalid 1\nrefused incomplete b\nrefused outside-ambition\n",
        SOME_REFUSED,
    ),
];

#[test]
fn lines_reach_the_session_that_they_name(rt: HostRuntime) -> Result<(), Fail> {
    are_served(&rt, rt.alloc(), SERVED, &NAMED)
}

const KEPT: [Case; 3] = [
    // Lines are deleted, and a file is renamed, moved and removed, under a session that was opened before an option was declared.
    (
        b"option a\nopen s a=on for a\nmkfile s /m\ninsert s /m 0 one\ninsert s /m +0 two\nmkdir s /d\nmkfile s /d/f\ncommit s\nopen s a=on for a\noption b\nconstraint a | b\nopen t a=on,b=off for true\nlist s /\nshow s /m\nlist t /\ndelete t /m 1\nreplace t /m 2 zwei\nrename t /m n\nmkdir t /e\nmove t /d/f /e\nremove t /d\ncommit t\nlist s /\nlist s /d\nshow s /m\nshow s /n\ninsert s /m 1 uno\ndelete s /m 2\nreplace s /m 1 eins\ninsert s /m 3 drei\nrename s /d e\nmove s /m /e\nshow s /e/m\ncommit s\nshow s /e/m\nrefresh s\nlist s /\ndrop s\nopen s a=on,b=on for a\nshow s /n\nlist s /\nlist s /e\ndrop s\n",
        b"ok option 0\nok open 1 a=on\nok\nok +0\nok +1\nok\nok\nok commit 2\nok open 2 a=on\nok option 1\nok constraint 1\nok open 4 a=on,b=off\nok 2\nd d\nf m\nok 2\n1 one\n2 two\nok 2\nd d\nf m\nok\nok +0\nok\nok\nok\nok\nok commit 5\nok 2\nd d\nf m\nok 1\nf f\nok 2\n1 one\n2 two\nrefused no-such-path\nok +0\nok\nok +1\nrefused no-such-line\nok\nok\nok 2\n+1 eins\n+0 uno\nrefused overtaken 5\nok 2\n+1 eins\n+0 uno\nrefused incomplete b\nok 1\nd e\nok\nok open 5 a=on,b=on\nok 1\n3 zwei\nok 2\nd e\nf n\nok 1\nf f\nok\n",
        SOME_REFUSED,
    ),
    // Two sessions make the same name, and the second is refused on a choice that neither shows.
    (
        b"option p\noption q\nopen s p=on,q=off for p\nopen t p=off,q=on for q\nopen u p=off,q=off for !p & !q\nmkfile s /x\nmkdir t /x\nmkfile u /x\ninsert u /x 0 u\ncommit s\ncommit u\ncommit t\nlist t /\nrename t /x y\ncommit t\ncat p=off,q=off /x\ncat p=on,q=on /x\ncat p=on,q=on /y\ncat p=off,q=on /x\n",
        b"ok option 0\nok option 1\nok open 2 p=on,q=off\nok open 2 p=off,q=on\nok open 2 p=off,q=off\nok\nok\nok\nok +0\nok commit 3\nok commit 4\nrefused clash 1 3 in p=on,q=on\nok 1\nd x\nok\nok commit 5\nok 1\n1 u\nok 0\nrefused not-file\nrefused no-such-path\n",
        SOME_REFUSED,
    ),
    // A directory is removed under sessions that make something in it and move something into it.
    (
        b"open s - for true\nmkdir s /a\nmkdir s /b\ncommit s\nopen s - for true\nopen t - for true\nopen u - for true\nopen v - for true\nremove s /a\nmkfile t /a/x\nmkdir u /c\nmove u /b /a\nmove v /a /b\ncommit s\ncommit t\ncommit u\ncommit v\nrefresh t\nrefresh v\ndrop v\nlist t /a\ndrop t\nrefresh u\nlist u /a\ncommit u\ndrop u\nopen s - for true\nlist s /\n",
        b"ok open 0 -\nok\nok\nok commit 1\nok open 1 -\nok open 1 -\nok open 1 -\nok open 1 -\nok\nok\nok\nok\nok\nok commit 2\nrefused orphan 3 in -\nrefused orphan 2 in -\nrefused overtaken 2\nrefused edit-lost 0\nrefused edit-lost 0\nok\nok 1\nf x\nok\nrefused edit-lost 1\nok 1\nd b\nrefused orphan 2 in -\nok\nok open 2 -\nok 1\nd b\n",
        SOME_REFUSED,
    ),
];

#[test]
fn sessions_see_their_base_whatever_comes(rt: HostRuntime) -> Result<(), Fail> {
    are_served(&rt, rt.alloc(), SERVED, &KEPT)
}
