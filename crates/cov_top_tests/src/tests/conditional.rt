// A file with all its variants as conditional text.
use crate::tests::running::{Parts, SOME_REFUSED, Step, parts_are_served};
use std::test::Fail;

// Neighbours with one listing stand together, a text that begins with `#` has one more, and a file that another choice doesn't have
// is told where one has it. Refusals come in the order of `cat`.
const TOLD: [Step; 46] = [
    (b"option d", b"ok option 0"),
    (b"option e", b"ok option 1"),
    (b"open s d=on,e=off for true", b"ok open 2 d=on,e=off"),
    (b"mkdir s /dir", b"ok"),
    (b"mkfile s /dir/m", b"ok"),
    (b"insert s /dir/m 0 #one", b"ok +0"),
    (b"insert s /dir/m +0", b"ok +1"),
    (b"insert s /dir/m +1 two", b"ok +2"),
    (b"insert s /dir/m +2 ## three", b"ok +3"),
    (b"commit s", b"ok commit 3"),
    (b"cond d=on,e=off /dir/m", b"ok 4\n##one\n\ntwo\n### three"),
    (b"open s d=on,e=on for d & e", b"ok open 3 d=on,e=on"),
    (b"insert s /dir/m 2 both", b"ok +0"),
    (b"insert s /dir/m +0 #if both", b"ok +1"),
    (b"commit s", b"ok commit 4"),
    (b"open s d=on,e=off for d | e", b"ok open 4 d=on,e=off"),
    (b"insert s /dir/m 4 some", b"ok +0"),
    (b"commit s", b"ok commit 5"),
    (
        b"open s d=on,e=off for d & !e | !d & e",
        b"ok open 5 d=on,e=off",
    ),
    (b"insert s /dir/m 4 one of them", b"ok +0"),
    (b"commit s", b"ok commit 6"),
    (b"open s d=off,e=off for !d", b"ok open 6 d=off,e=off"),
    (b"insert s /dir/m 0 none", b"ok +0"),
    (b"remove s /dir/m", b"ok"),
    (b"commit s", b"ok commit 7"),
    (
        b"cond d=on,e=off /dir/m",
        b"ok 17\n#if !d\nnone\n#endif\n##one\n\n#if d & e\nboth\n##if both\n#endif\ntwo\n### three\n#if d & !e | !d & e\none of them\n#endif\n#if d | e\nsome\n#endif",
    ),
    (b"cond d=off,e=off /dir/m", b"refused no-such-path"),
    (
        b"cond d=on,e=on,x=on,d=on /dir/m",
        b"refused unknown-option x",
    ),
    (b"cond d=on,d=on,x=on /q", b"refused unknown-option x"),
    (b"cond d=on /q", b"refused incomplete e"),
    (b"cond d=on,e=on /q", b"refused no-such-path"),
    (b"cond d=on,e=on /dir", b"refused not-file"),
    (b"cond d=on,e=on /", b"refused not-file"),
    (b"cond d=on,e=on /dir/m/q", b"refused no-such-path"),
    (b"constraint !d | !e", b"ok constraint 1"),
    (b"cond d=on,e=on /dir/m", b"refused invalid 1"),
    (b"default d on", b"ok default 1"),
    (b"default e off", b"ok default 2"),
    (
        b"cond - /dir/m",
        b"ok 17\n#if !d\nnone\n#endif\n##one\n\n#if d & e\nboth\n##if both\n#endif\ntwo\n### three\n#if d & !e | !d & e\none of them\n#endif\n#if d | e\nsome\n#endif",
    ),
    (b"cond - m", b"refused syntax 7"),
    (b"cond -", b"refused syntax 6"),
    (b"cond", b"refused syntax 4"),
    (b"cond - /m x", b"refused syntax 9"),
    (b"cond  /m", b"refused syntax 5"),
    (b"cond d=up /m", b"refused syntax 5"),
    (b"cond d=on,x=on,d=on /dir/m", b"refused unknown-option x"),
];

// The expression of four pairs has few enough tokens, and that of five hasn't; the first line of the file that has it is told.
const TOO_LONG: [Step; 35] = [
    (b"option a", b"ok option 0"),
    (b"option b", b"ok option 1"),
    (b"option c", b"ok option 2"),
    (b"option f", b"ok option 3"),
    (b"option g", b"ok option 4"),
    (b"option h", b"ok option 5"),
    (b"option i", b"ok option 6"),
    (b"option j", b"ok option 7"),
    (b"option k", b"ok option 8"),
    (b"option l", b"ok option 9"),
    (b"default a on", b"ok default 1"),
    (b"default b on", b"ok default 2"),
    (b"default c on", b"ok default 3"),
    (b"default f on", b"ok default 4"),
    (b"default g on", b"ok default 5"),
    (b"default h on", b"ok default 6"),
    (b"default i on", b"ok default 7"),
    (b"default j on", b"ok default 8"),
    (b"default k on", b"ok default 9"),
    (b"default l on", b"ok default 10"),
    (
        b"open s - for true",
        b"ok open 20 a=on,b=on,c=on,f=on,g=on,h=on,i=on,j=on,k=on,l=on",
    ),
    (b"mkfile s /m", b"ok"),
    (b"insert s /m 0 all", b"ok +0"),
    (b"commit s", b"ok commit 21"),
    (
        b"open s - for (a | b) & (c | f) & (g | h) & (i | j)",
        b"ok open 21 a=on,b=on,c=on,f=on,g=on,h=on,i=on,j=on,k=on,l=on",
    ),
    (b"insert s /m 1 four", b"ok +0"),
    (b"commit s", b"ok commit 22"),
    (
        b"cond - /m",
        b"ok 4\nall\n#if a & (c & (g & (i | j) | !g & (h & (i | j))) | !c & (f & (g & (i | j) | !g & (h & (i | j))))) | !a & (b & (c & (g & (i | j) | !g & (h & (i | j))) | !c & (f & (g & (i | j) | !g & (h & (i | j))))))\nfour\n#endif",
    ),
    (
        b"open s - for (a | b) & (c | f) & (g | h) & (i | j) & (k | l)",
        b"ok open 22 a=on,b=on,c=on,f=on,g=on,h=on,i=on,j=on,k=on,l=on",
    ),
    (b"insert s /m 2 five", b"ok +0"),
    (b"insert s /m +0 five", b"ok +1"),
    (b"insert s /m 0 five", b"ok +2"),
    (b"commit s", b"ok commit 23"),
    (b"cond - /m", b"refused too-long 5"),
    (b"cond k=off,l=off /m", b"refused too-long 5"),
];

const CASES: [Parts; 2] = [(&[&TOLD], SOME_REFUSED), (&[&TOO_LONG], SOME_REFUSED)];

#[test]
fn files_are_told_as_conditional_text(rt: HostRuntime) -> Result<(), Fail> {
    parts_are_served(&rt, rt.alloc(), &CASES)
}
