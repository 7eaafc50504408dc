// The texts of replies. Each function but `whole` gives one line with its end.
ghost use Rattle.std.specs.Prelude.{◌≡◌, ◌<◌, ◌≤◌, ◌++◌, [], IfOk, OnOk, codes, get_or, length};
ghost use Rattle.std.specs.List.{concat};
ghost use Rattle.cov_script.specs.Replies.{option_reply, constraint_reply, prefer_reply, default_reply, upgrade_reply, complete_reply, open_reply, refresh_reply, plain_reply, new_line_reply, count_reply, commit_reply, shown_line, cat_line, kind_letter, list_line, refused_reply, numbered, based, checkout_reply, alt_line, text_line, where_reply, where_line, dead_line, forced_line, free_line, redundant_line, needed_line, nearest_reply, log_line, blame_line, IsCodeOf};

use crate::code::{Code, code_text};
use crate::target::{Target, append_target};
use crate::word::{append_number, append_word};
use cov_base::{Choice, Kind, LineNo, LineRef, Memory, Name, OptionId, Position, Text, Texts};
use cov_expr::{Options, print_choice};
use itoa::Buffer;
use std::alloc::Global;

/// The text of a reply; want of memory is its only refusal.
type ReplyText = Result<Text, Memory>;

/// The reply to an option that is declared.
pub fn reply_option(alloc: Global, id: OptionId) -> ReplyText
    ensures { IfOk result (λ text. text ≡ option_reply id) }
{
    numbered(alloc, "ok option ", id.number() as u64)
}

/// The reply to a constraint that is added, with its number from 1.
pub fn reply_constraint(alloc: Global, number: u32) -> ReplyText
    ensures { IfOk result (λ text. text ≡ constraint_reply number) }
{
    numbered(alloc, "ok constraint ", number as u64)
}

/// The reply to a preference that is added, with its number from 1.
pub fn reply_prefer(alloc: Global, number: u32) -> ReplyText
    ensures { IfOk result (λ text. text ≡ prefer_reply number) }
{
    numbered(alloc, "ok prefer ", number as u64)
}

/// The reply to a default that is added, with its number from 1.
pub fn reply_default(alloc: Global, number: u32) -> ReplyText
    ensures { IfOk result (λ text. text ≡ default_reply number) }
{
    numbered(alloc, "ok default ", number as u64)
}

/// The reply to an upgrade, with the number that the receipt of an upgrade has.
pub fn reply_upgrade(alloc: Global, number: u32) -> ReplyText
    ensures { IfOk result (λ text. text ≡ upgrade_reply number) }
{
    numbered(alloc, "ok upgrade ", number as u64)
}

/// The reply that tells a completion.
pub fn reply_complete(alloc: Global, options: &Options, choice: Choice) -> ReplyText
    requires { length choice ≤ length options.now.names }
    ensures { IfOk result (λ text. text ≡ complete_reply options.now.names choice) }
{
    let choice = print_choice(alloc, options, choice)?;
    spaced(alloc, b"ok", choice.as_slice())
}

/// The reply to a session that is opened, with its base and its choice.
pub fn reply_open(alloc: Global, base: Position, options: &Options, choice: Choice) -> ReplyText
    requires { length choice ≤ length options.now.names }
    ensures { IfOk result (λ text. text ≡ open_reply base options.now.names choice) }
{
    based(alloc, "ok open ", base.number(), options, choice)
}

/// The reply to a session that is refreshed, with its new base and the choice that it has there.
pub fn reply_refresh(alloc: Global, base: Position, options: &Options, choice: Choice) -> ReplyText
    requires { length choice ≤ length options.now.names }
    ensures { IfOk result (λ text. text ≡ refresh_reply base options.now.names choice) }
{
    based(alloc, "ok refresh ", base.number(), options, choice)
}

/// The reply that says no more than that a line is accepted.
pub fn reply_plain(alloc: Global) -> ReplyText
    ensures { IfOk result (λ text. text ≡ plain_reply) }
{
    Text::from_slice(alloc, b"ok\n")
}

/// The reply to a line that a session inserts, with its number, from 0, among those of the session.
pub fn reply_new_line(alloc: Global, index: u32) -> ReplyText
    ensures { IfOk result (λ text. text ≡ new_line_reply index) }
{
    numbered(alloc, "ok +", index as u64)
}

/// The first line of a reply that has so many lines more.
pub fn reply_count(alloc: Global, count: u64) -> ReplyText
    ensures { IfOk result (λ text. text ≡ count_reply count) }
{
    numbered(alloc, "ok ", count)
}

/// The reply to a commit, with its number in the history.
pub fn reply_commit(alloc: Global, at: Position) -> ReplyText
    ensures { IfOk result (λ text. text ≡ commit_reply at) }
{
    numbered(alloc, "ok commit ", at.number() as u64)
}

/// A line of a file as a session sees it.
pub fn show_line(alloc: Global, line: LineRef, text: &Text) -> ReplyText
    ensures { IfOk result (λ shown. shown ≡ shown_line line text.now) }
{
    let head = match line {
        LineRef::Old(line) => {
            let number = line.number();
            format!(in alloc; "{number}")?
        }
        LineRef::New(index) => format!(in alloc; "+{index}")?,
    };
    spaced(alloc, head.as_bytes(), text.as_slice())
}

/// A line of a file under a choice.
pub fn cat_line(alloc: Global, line: LineNo, text: &Text) -> ReplyText
    ensures { IfOk result (λ shown. shown ≡ cat_line line text.now) }
{
    let mut shown = Text::new(alloc);
    append_cat_line(&mut shown, line, text)?;
    Ok(shown)
}

/// Appends a line of a file under a choice to a reply; nothing but the reply takes memory.
pub fn append_cat_line(reply: &mut Text, line: LineNo, text: &Text) -> Result<(), Memory>
    ensures { OnOk result (reply.new ≡ reply.old ++ cat_line line text.now) }
{
    let mut number = Buffer::new();
    reply.append(number.format(line.number()).as_bytes())?;
    reply.append(b" ")?;
    reply.append(text.as_slice())?;
    reply.append(b"\n")
}

/// A node of a directory.
pub fn list_line(alloc: Global, kind: Kind, name: &Name) -> ReplyText
    ensures { IfOk result (λ shown. shown ≡ list_line kind name.now) }
{
    spaced(alloc, letter_of(kind), name.as_slice())
}

// The letter of a kind of node.
fn letter_of(kind: Kind) -> &'static [u8]
    ensures { result.now ≡ kind_letter kind }
{
    match kind {
        Kind::Dir => b"d",
        Kind::File => b"f",
    }
}

/// The reply to a tree that is written: how many directories it has without its own, how many files, and its digest.
pub fn reply_checkout(
    alloc: Global,
    tree: &Name,
    dirs: u32,
    files: u32,
    digest: &[u8; 32],
) -> ReplyText
    ensures { IfOk result (λ text. text ≡ checkout_reply tree.now dirs files digest.now) }
{
    let digest = hex::encode(alloc, digest.as_slice())?;
    let mut head = Text::from_slice(alloc, b"ok checkout ")?;
    head.append(tree.as_slice())?;
    append_number(alloc, &mut head, dirs as u64)?;
    append_number(alloc, &mut head, files as u64)?;
    spaced(alloc, head.as_slice(), digest.as_bytes())
}

/// A line of a file with both sides of an option, behind the byte of `=` where both have it, of `+` where on alone has it,
/// or of `-` where off alone has it.
pub fn alt_line(alloc: Global, mark: u8, line: LineNo, text: &Text) -> ReplyText
    ensures { IfOk result (λ shown. shown ≡ alt_line mark line text.now) }
{
    let mut head = Text::from_slice(alloc, &[mark])?;
    append_number(alloc, &mut head, line.number() as u64)?;
    spaced(alloc, head.as_slice(), text.as_slice())
}

/// Appends a line of a conditional text to a reply; nothing but the reply takes memory.
pub fn append_text_line(reply: &mut Text, line: &Text) -> Result<(), Memory>
    ensures { OnOk result (reply.new ≡ reply.old ++ text_line line.now) }
{
    reply.append(line.as_slice())?;
    reply.append(b"\n")
}

/// The first line of the reply that tells a listing, with the number of its entries.
pub fn reply_where(alloc: Global, count: u64, root: Target) -> ReplyText
    ensures { IfOk result (λ text. text ≡ where_reply count root) }
{
    let mut text = Text::from_slice(alloc, b"ok")?;
    append_number(alloc, &mut text, count)?;
    append_target(alloc, &mut text, root)?;
    text.append(b"\n")?;
    Ok(text)
}

/// An entry of a listing, with its number from 0.
pub fn where_line(
    alloc: Global,
    index: u64,
    options: &Options,
    option: OptionId,
    off: Target,
    on: Target,
) -> ReplyText
    requires { option < length options.now.names }
    ensures { IfOk result (λ text. text ≡ where_line index options.now.names option off on) }
{
    let mut text = Text::from(format!(in alloc; "{index}")?);
    append_word(&mut text, options.name(option))?;
    append_target(alloc, &mut text, off)?;
    append_target(alloc, &mut text, on)?;
    text.append(b"\n")?;
    Ok(text)
}

/// An option that no valid choice has on.
pub fn dead_line(alloc: Global, options: &Options, option: OptionId) -> ReplyText
    requires { option < length options.now.names }
    ensures { IfOk result (λ text. text ≡ dead_line options.now.names option) }
{
    spaced(alloc, b"dead", options.name(option))
}

/// An option that no valid choice has off.
pub fn forced_line(alloc: Global, options: &Options, option: OptionId) -> ReplyText
    requires { option < length options.now.names }
    ensures { IfOk result (λ text. text ≡ forced_line options.now.names option) }
{
    spaced(alloc, b"forced", options.name(option))
}

/// An option that is neither, with a choice that has it off and one that has it on.
pub fn free_line(
    alloc: Global,
    options: &Options,
    option: OptionId,
    off: Choice,
    on: Choice,
) -> ReplyText
    requires option { option < length options.now.names }
    requires off { length off ≤ length options.now.names }
    requires on { length on ≤ length options.now.names }
    ensures { IfOk result (λ text. text ≡ free_line options.now.names option off on) }
{
    let off = print_choice(alloc, options, off)?;
    let on = print_choice(alloc, options, on)?;
    let mut text = Text::from_slice(alloc, b"free")?;
    append_word(&mut text, options.name(option))?;
    append_word(&mut text, off.as_slice())?;
    spaced(alloc, text.as_slice(), on.as_slice())
}

/// A constraint, by its number from 1, that the others imply.
pub fn redundant_line(alloc: Global, rule: u32) -> ReplyText
    ensures { IfOk result (λ text. text ≡ redundant_line rule) }
{
    numbered(alloc, "redundant ", rule as u64)
}

/// A constraint, by its number from 1, that the others don't imply, with a choice that meets those and not it.
pub fn needed_line(alloc: Global, rule: u32, options: &Options, choice: Choice) -> ReplyText
    requires { length choice ≤ length options.now.names }
    ensures { IfOk result (λ text. text ≡ needed_line rule options.now.names choice) }
{
    based(alloc, "needed ", rule, options, choice)
}

/// The reply that tells the nearest valid choice, with the number of options on which it differs.
pub fn reply_nearest(alloc: Global, changed: u8, options: &Options, choice: Choice) -> ReplyText
    requires { length choice ≤ length options.now.names }
    ensures { IfOk result (λ text. text ≡ nearest_reply changed options.now.names choice) }
{
    based(alloc, "ok nearest ", changed as u32, options, choice)
}

/// Appends a commit, by its position, with how many edits of it are told; nothing but the reply takes memory.
pub fn append_log_line(reply: &mut Text, position: Position, edits: u32) -> Result<(), Memory>
    ensures { OnOk result (reply.new ≡ reply.old ++ log_line position edits) }
{
    let mut number = Buffer::new();
    reply.append(number.format(position.number()).as_bytes())?;
    reply.append(b" ")?;
    let mut count = Buffer::new();
    reply.append(count.format(edits).as_bytes())?;
    reply.append(b"\n")
}

/// Appends a line of a file, behind the position of the commit that it comes from; nothing but the reply takes memory.
pub fn append_blame_line(
    reply: &mut Text,
    position: Position,
    line: LineNo,
    text: &Text,
) -> Result<(), Memory>
    ensures { OnOk result (reply.new ≡ reply.old ++ blame_line position line text.now) }
{
    let mut number = Buffer::new();
    reply.append(number.format(position.number()).as_bytes())?;
    reply.append(b" ")?;
    append_cat_line(reply, line, text)
}

/// The reply to a line that is refused.
pub fn reply_refused(alloc: Global, options: &Options, code: &Code) -> ReplyText
    requires { IsCodeOf (length options.now.names) code.now }
    ensures { IfOk result (λ text. text ≡ refused_reply options.now.names code.now) }
{
    let words = code_text(alloc, options, code)?;
    spaced(alloc, b"refused", words.as_slice())
}

/// A reply of several lines: the first line and the others in order, in work that is linear in them all.
pub fn whole(first: &Text, lines: &Texts) -> ReplyText
    ensures { IfOk result (λ text. text ≡ first.now ++ concat lines.now) }
{
    let mut text = first.copy()?;
    for index in 0..lines.len() {
        append_line(&mut text, lines, index)?;
    }
    Ok(text)
}

// Appends one of the lines.
fn append_line(text: &mut Text, lines: &Texts, index: usize) -> Result<(), Memory>
    requires { index < length lines.now }
    ensures { OnOk result (text.new ≡ text.old ++ get_or lines.now index []) }
{
    match lines.get(index) {
        Some(line) => text.append(line.as_slice()),
        None => unreachable!(),
    }
}

// A line of words and a number behind them.
fn numbered(alloc: Global, words: &str, number: u64) -> ReplyText
    ensures { IfOk result (λ text. text ≡ numbered words.now number) }
{
    Ok(Text::from(format!(in alloc; "{words}{number}\n")?))
}

// A line of words, and a number and a choice behind them.
fn based(alloc: Global, words: &str, number: u32, options: &Options, choice: Choice) -> ReplyText
    requires { length choice ≤ length options.now.names }
    ensures { IfOk result (λ text. text ≡ based words.now number options.now.names choice) }
{
    let choice = print_choice(alloc, options, choice)?;
    let head = format!(in alloc; "{words}{number}")?;
    spaced(alloc, head.as_bytes(), choice.as_slice())
}

// A line of two words with a space between them.
fn spaced(alloc: Global, first: &[u8], second: &[u8]) -> ReplyText
    ensures { IfOk result (λ line. line ≡ first.now ++ (codes " " ++ (second.now ++ codes "\n"))) }
{
    let mut line = Text::from_slice(alloc, first)?;
    line.append(b" ")?;
    line.append(second)?;
    line.append(b"\n")?;
    Ok(line)
}
