//! Replies with their bytes.
ghost use Rattle.std.specs.Prelude.{length};
ghost use Rattle.cov_script.specs.Replies.{IsCodeOf};

use crate::tests::naming::declare_two;
use cov_base::{
    Choice, Kind, LineNo, LineRef, Memory, Name, NodeNo, OptionId, Position, Text, Texts,
};
use cov_expr::Options;
use cov_script::{
    Code, Target, alt_line, append_blame_line, append_log_line, cat_line, dead_line, forced_line,
    free_line, list_line, needed_line, redundant_line, reply_checkout, reply_commit,
    reply_complete, reply_constraint, reply_count, reply_default, reply_nearest, reply_new_line,
    reply_open, reply_option, reply_plain, reply_prefer, reply_refresh, reply_refused,
    reply_upgrade, reply_where, show_line, where_line, whole,
};
use std::alloc::Global;
use std::test::Fail;

// The accepted replies that tell neither a choice nor a text.
fn add_numbers(alloc: Global, lines: &mut Texts) -> Result<(), Memory> {
    lines.push(reply_option(alloc, OptionId::new(63))?)?;
    lines.push(reply_constraint(alloc, 256)?)?;
    lines.push(reply_prefer(alloc, 1)?)?;
    lines.push(reply_default(alloc, 2)?)?;
    lines.push(reply_upgrade(alloc, 2)?)?;
    lines.push(reply_plain(alloc)?)?;
    lines.push(reply_new_line(alloc, 0)?)?;
    lines.push(reply_commit(alloc, Position::new(7))?)
}

// The lines that tell a text.
fn add_lines(alloc: Global, words: &Text, empty: &Text, lines: &mut Texts) -> Result<(), Memory> {
    lines.push(show_line(alloc, LineRef::Old(LineNo::new(12)), words)?)?;
    lines.push(show_line(alloc, LineRef::New(3), empty)?)?;
    lines.push(cat_line(alloc, LineNo::new(13), empty)?)?;
    lines.push(alt_line(alloc, b'+', LineNo::new(2), words)?)
}

// The lines that tell a commit.
fn add_pasts(alloc: Global, lines: &mut Texts) -> Result<(), Memory> {
    let words = Text::from_slice(alloc, b"one  two")?;
    let mut told = Text::new(alloc);
    append_log_line(&mut told, Position::new(41), 0)?;
    append_blame_line(&mut told, Position::new(7), LineNo::new(13), &words)?;
    lines.push(told)
}

// The lines that tell a node.
fn add_nodes(alloc: Global, lines: &mut Texts) -> Result<(), Fail> {
    let name = Name::read(alloc, b"Makefile")?;
    lines.push(list_line(alloc, Kind::Dir, &name)?)?;
    lines.push(list_line(alloc, Kind::File, &name)?)?;
    Ok(())
}

// SHA-256 of no bytes.
const DIGEST: &[u8; 32] =
    b"\xe3\xb0\xc4\x42\x98\xfc\x1c\x14\x9a\xfb\xf4\xc8\x99\x6f\xb9\x24\x27\xae\x41\xe4\x64\x9b\x93\x4c\xa4\x95\x99\x1b\x78\x52\xb8\x55";

// The reply that tells a tree.
fn add_tree(alloc: Global, lines: &mut Texts) -> Result<(), Fail> {
    let name = Name::read(alloc, b"t")?;
    lines.push(reply_checkout(alloc, &name, 8, 64, DIGEST)?)?;
    Ok(())
}

// The lines that tell a listing, where there are two options.
fn add_listing(alloc: Global, options: &Options, lines: &mut Texts) -> Result<(), Memory> {
    if options.count() != 2 {
        return Ok(());
    }
    let (first, second) = (OptionId::new(0), OptionId::new(1));
    lines.push(reply_where(alloc, 2, Target::At(0))?)?;
    lines.push(where_line(alloc, 0, options, first, Target::At(1), Target::T)?)?;
    lines.push(where_line(alloc, 1, options, second, Target::F, Target::T)?)
}

// The accepted replies that tell no choice.
fn add_accepted(alloc: Global, lines: &mut Texts) -> Result<(), Memory> {
    add_numbers(alloc, lines)?;
    let words = Text::from_slice(alloc, b"one  two")?;
    let empty = Text::new(alloc);
    let added = add_lines(alloc, &words, &empty, lines);
    drop(empty);
    drop(words);
    added
}

fn add_code(alloc: Global, options: &Options, code: &Code, lines: &mut Texts) -> Result<(), Memory>
    requires { IsCodeOf (length options.now.names) code.now }
{
    lines.push(reply_refused(alloc, options, code)?)
}

// The replies that tell a choice or an option, where there are two.
fn add_choices(alloc: Global, options: &Options, lines: &mut Texts) -> Result<(), Memory> {
    if options.count() != 2 {
        return Ok(());
    }
    let choice = Choice::new(1, 2);
    let repeated = Code::Repeated {
        option: OptionId::new(1),
    };
    let incomplete = Code::Incomplete {
        option: OptionId::new(0),
    };
    let late = Code::LateOption {
        option: OptionId::new(1),
    };
    lines.push(reply_complete(alloc, options, choice)?)?;
    lines.push(reply_open(alloc, Position::new(9), options, choice)?)?;
    lines.push(reply_refresh(alloc, Position::new(10), options, choice)?)?;
    add_code(alloc, options, &repeated, lines)?;
    add_code(alloc, options, &incomplete, lines)?;
    add_code(alloc, options, &late, lines)
}

// The lines that tell what rules come to, where there are two options.
fn add_states(alloc: Global, options: &Options, lines: &mut Texts) -> Result<(), Memory> {
    if options.count() != 2 {
        return Ok(());
    }
    let (first, second) = (OptionId::new(0), OptionId::new(1));
    let (off, on) = (Choice::new(1, 2), Choice::new(3, 2));
    lines.push(dead_line(alloc, options, first)?)?;
    lines.push(forced_line(alloc, options, second)?)?;
    lines.push(free_line(alloc, options, second, off, on)?)?;
    lines.push(redundant_line(alloc, 1)?)?;
    lines.push(needed_line(alloc, 2, options, off)?)?;
    lines.push(reply_nearest(alloc, 2, options, on)?)
}

// The refusals of a variant that isn't a tree, where there are two options.
fn add_faults(alloc: Global, options: &Options, lines: &mut Texts) -> Result<(), Memory> {
    if options.count() != 2 {
        return Ok(());
    }
    let choice = Choice::new(2, 2);
    let node = NodeNo::new(12);
    let clash = Code::Clash {
        low: NodeNo::new(3),
        high: node,
        choice,
    };
    let none = Choice::new(0, 0);
    add_code(alloc, options, &clash, lines)?;
    add_code(alloc, options, &Code::Orphan { node, choice }, lines)?;
    add_code(alloc, options, &Code::Loop { node, choice: none }, lines)
}

// The other refused replies that tell a number or a name, and those that tell neither.
fn add_refused(alloc: Global, options: &Options, lines: &mut Texts) -> Result<(), Memory> {
    add_code(alloc, options, &Code::Syntax { at: 0 }, lines)?;
    add_code(alloc, options, &Code::TooLongAt { line: 7 }, lines)?;
    let name = Text::from_slice(alloc, b"for")?;
    add_code(alloc, options, &Code::UnknownOption { name }, lines)?;
    add_code(alloc, options, &Code::Invalid { rule: 2 }, lines)?;
    add_code(alloc, options, &Code::EditLost { index: 16383 }, lines)?;
    let side = Code::SideInvalid { on: false, rule: 1 };
    add_code(alloc, options, &side, lines)?;
    let outside = Code::OutsideSideAt { edit: 1 };
    add_code(alloc, options, &outside, lines)?;
    add_code(alloc, options, &Code::OutsideSide, lines)?;
    add_code(alloc, options, &Code::TreeTaken, lines)?;
    add_code(alloc, options, &Code::NoSuchPosition, lines)?;
    add_code(alloc, options, &Code::NoVariantLeft, lines)?;
    add_code(alloc, options, &Code::Upgraded, lines)?;
    add_code(alloc, options, &Code::SessionExists, lines)?;
    add_code(alloc, options, &Code::TooManySessions, lines)
}

const REPLIES: &str = "ok 48
ok option 63
ok constraint 256
ok prefer 1
ok default 2
ok upgrade 2
ok
ok +0
ok commit 7
12 one  two
+3 \n13 \n+ 2 one  two
41 0
7 13 one  two
d Makefile
f Makefile
ok checkout t 8 64 e3b0c44298fc1c149afbf4c8996fb92427ae41e4649b934ca495991b7852b855
ok 2 0
0 a 1 T
1 b F T
ok a=on,b=off
ok open 9 a=on,b=off
ok refresh 10 a=on,b=off
refused repeated b
refused incomplete a
refused late-option b
dead a
forced b
free b a=on,b=off a=on,b=on
redundant 1
needed 2 a=on,b=off
ok nearest 2 a=on,b=on
refused clash 3 12 in a=off,b=on
refused orphan 12 in a=off,b=on
refused loop 12 in -
refused syntax 0
refused too-long 7
refused unknown-option for
refused invalid 2
refused edit-lost 16383
refused side-invalid off 1
refused outside-side 1
refused outside-side
refused tree-taken
refused no-such-position
refused no-variant-left
refused upgraded
refused session-exists
refused too-many-sessions
";

// All these replies as one.
fn joined(alloc: Global, options: &mut Options, lines: &mut Texts) -> Result<Text, Fail> {
    declare_two(alloc, options)?;
    add_accepted(alloc, lines)?;
    add_pasts(alloc, lines)?;
    add_nodes(alloc, lines)?;
    add_tree(alloc, lines)?;
    add_listing(alloc, options, lines)?;
    add_choices(alloc, options, lines)?;
    add_states(alloc, options, lines)?;
    add_faults(alloc, options, lines)?;
    add_refused(alloc, options, lines)?;
    let first = reply_count(alloc, lines.len() as u64)?;
    Ok(whole(&first, lines)?)
}

#[test]
fn replies_have_their_bytes(rt: HostRuntime) -> Result<(), Fail> {
    let alloc = rt.alloc();
    let mut options = Options::new(alloc);
    let mut lines = Texts::new(alloc);
    let reply = joined(alloc, &mut options, &mut lines);
    drop(lines);
    drop(options);
    assert!(rt; reply?.as_slice() == REPLIES.as_bytes());
    Ok(())
}
