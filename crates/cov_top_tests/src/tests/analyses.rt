// What the rules make of options, what each constraint adds, and the nearest valid choice.
use crate::tests::running::{DONE, Parts, SOME_REFUSED, Step, parts_are_served};
use std::test::Fail;

// Two constraints that say the same: the others imply each.
const SAID_TWICE: [Step; 8] = [
    (b"option a", b"ok option 0"),
    (b"option b", b"ok option 1"),
    (b"constraint !(a & b)", b"ok constraint 1"),
    (b"constraint !a | !b", b"ok constraint 2"),
    (
        b"analyse",
        b"ok 4\nfree a a=off,b=off a=on,b=off\nfree b a=off,b=off a=off,b=on\nredundant 1\nredundant 2",
    ),
    (b"nearest a=on,b=on", b"ok nearest 1 a=off,b=on"),
    (b"nearest a=on,b=off", b"ok nearest 0 a=on,b=off"),
    (b"nearest b=off,a=off", b"ok nearest 0 a=off,b=off"),
];

// Rules that leave one choice. What refuses a line comes in order: what the choice names, and what it leaves open.
const ONE_LEFT: [Step; 17] = [
    (b"option a", b"ok option 0"),
    (b"option b", b"ok option 1"),
    (b"constraint a", b"ok constraint 1"),
    (b"constraint !b", b"ok constraint 2"),
    (
        b"analyse",
        b"ok 4\nforced a\ndead b\nneeded 1 a=off,b=off\nneeded 2 a=on,b=on",
    ),
    (b"nearest a=off,b=on", b"ok nearest 2 a=on,b=off"),
    (b"nearest a=on", b"refused incomplete b"),
    (b"nearest b=on", b"refused incomplete a"),
    (b"nearest -", b"refused incomplete a"),
    (b"nearest a=on,c=on,a=on", b"refused unknown-option c"),
    (b"nearest a=on,a=on", b"refused repeated a"),
    (b"nearest a=on,b=off,b=on", b"refused repeated b"),
    (b"analyse x", b"refused syntax 7"),
    (b"analyse ", b"refused syntax 7"),
    (b"nearest", b"refused syntax 7"),
    (b"nearest a", b"refused syntax 8"),
    (b"nearest a=on,b=off /m", b"refused syntax 18"),
];

// No option, and no rule; a constraint without options. At a tie an option is off, and one that no rule reads stays. Preferences and
// defaults say nothing of what is valid.
const FREE: [Step; 32] = [
    (b"analyse", b"ok 0"),
    (b"nearest -", b"ok nearest 0 -"),
    (b"constraint true", b"ok constraint 1"),
    (b"analyse", b"ok 1\nredundant 1"),
    (b"nearest -", b"ok nearest 0 -"),
    (b"option a", b"ok option 0"),
    (b"analyse", b"ok 2\nfree a a=off a=on\nredundant 1"),
    (b"nearest a=on", b"ok nearest 0 a=on"),
    (b"nearest a=off", b"ok nearest 0 a=off"),
    (b"nearest -", b"refused incomplete a"),
    (b"option b", b"ok option 1"),
    (b"option c", b"ok option 2"),
    (b"option d", b"ok option 3"),
    (b"constraint a | b | c", b"ok constraint 2"),
    (b"constraint !a | !b", b"ok constraint 3"),
    (b"constraint !(a & b) & (b | !b)", b"ok constraint 4"),
    (b"constraint !c | b", b"ok constraint 5"),
    (
        b"analyse",
        b"ok 9\nfree a a=off,b=on,c=off,d=off a=on,b=off,c=off,d=off\nfree b a=on,b=off,c=off,d=off a=off,b=on,c=off,d=off\nfree c a=off,b=on,c=off,d=off a=off,b=on,c=on,d=off\nfree d a=off,b=on,c=off,d=off a=off,b=on,c=off,d=on\nredundant 1\nneeded 2 a=off,b=off,c=off,d=off\nredundant 3\nredundant 4\nneeded 5 a=off,b=off,c=on,d=off",
    ),
    (
        b"nearest a=off,b=off,c=off,d=on",
        b"ok nearest 1 a=off,b=on,c=off,d=on",
    ),
    (
        b"nearest a=on,b=on,c=on,d=on",
        b"ok nearest 1 a=off,b=on,c=on,d=on",
    ),
    (
        b"nearest a=off,b=off,c=on,d=off",
        b"ok nearest 1 a=off,b=on,c=on,d=off",
    ),
    (b"prefer d", b"ok prefer 1"),
    (b"default c off", b"ok default 1"),
    (
        b"nearest a=off,b=off,c=off,d=on",
        b"ok nearest 1 a=off,b=on,c=off,d=on",
    ),
    (b"option e", b"ok option 4"),
    (b"constraint d & !e", b"ok constraint 6"),
    (
        b"analyse",
        b"ok 11\nfree a a=off,b=on,c=off,d=on,e=off a=on,b=off,c=off,d=on,e=off\nfree b a=on,b=off,c=off,d=on,e=off a=off,b=on,c=off,d=on,e=off\nfree c a=off,b=on,c=off,d=on,e=off a=off,b=on,c=on,d=on,e=off\nforced d\ndead e\nredundant 1\nneeded 2 a=off,b=off,c=off,d=on,e=off\nredundant 3\nredundant 4\nneeded 5 a=off,b=off,c=on,d=on,e=off\nneeded 6 a=off,b=on,c=off,d=off,e=off",
    ),
    (
        b"nearest a=off,b=off,c=off,d=off,e=on",
        b"ok nearest 3 a=off,b=on,c=off,d=on,e=off",
    ),
    (b"nearest a=off,b=off,c=off,d=on", b"refused incomplete e"),
    (b"constraint !d", b"refused no-variant-left"),
    (b"constraint !a & !b & !c | d", b"ok constraint 7"),
    (
        b"analyse",
        b"ok 12\nfree a a=off,b=on,c=off,d=on,e=off a=on,b=off,c=off,d=on,e=off\nfree b a=on,b=off,c=off,d=on,e=off a=off,b=on,c=off,d=on,e=off\nfree c a=off,b=on,c=off,d=on,e=off a=off,b=on,c=on,d=on,e=off\nforced d\ndead e\nredundant 1\nneeded 2 a=off,b=off,c=off,d=on,e=off\nredundant 3\nredundant 4\nneeded 5 a=off,b=off,c=on,d=on,e=off\nneeded 6 a=off,b=on,c=off,d=on,e=on\nredundant 7",
    ),
];

const CASES: [Parts; 3] = [
    (&[&SAID_TWICE], DONE),
    (&[&ONE_LEFT], SOME_REFUSED),
    (&[&FREE], SOME_REFUSED),
];

#[test]
fn rules_are_analysed(rt: HostRuntime) -> Result<(), Fail> {
    parts_are_served(&rt, rt.alloc(), &CASES)
}
