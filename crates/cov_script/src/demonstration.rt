// The script that a number stands for.
ghost use Rattle.std.specs.Prelude.{◌≡◌, ◌<◌, ◌++◌, IfOk, OnOk, length};
ghost use Rattle.cov_script.specs.Commits.{each_below};
ghost use Rattle.cov_script.specs.Demonstration.{demo_text, option_line, default_line, dir_line, file_line, checkout_line, each_commit, first_commit_lines, made_lines, row_line};

use crate::commits::{Commits, append_path};
use crate::word::append_numbered;
use cov_base::{Memory, Text};
use std::alloc::Global;

/// A line that the script has for each number below a count.
#[derive(Clone, Copy)]
enum Row {
    /// It declares an option.
    Option,
    /// It adds an option's default.
    Default,
    /// It makes a directory.
    Dir,
    /// It makes a file.
    File,
    /// It writes a tree.
    Checkout,
}

/// The script that a number stands for: options, rules, a commit of directories and files, four hundred commits of lines, and eight
/// checkouts. It is made in one pass.
pub fn demo(alloc: Global, number: u64) -> Result<Text, Memory>
    ensures script { IfOk result (λ text. text ≡ demo_text number) }
    ensures short { IfOk result (λ text. length text < 2000000) }
{
    let mut text = Text::new(alloc);
    append_demo(number, &mut text)?;
    Ok(text)
}

fn append_demo(number: u64, text: &mut Text) -> Result<(), Memory>
    ensures { OnOk result (text.new ≡ text.old ++ demo_text number) }
{
    append_made(number, text)?;
    append_each(Row::Checkout, 8, text)
}

// Appends what comes before the checkouts.
fn append_made(number: u64, text: &mut Text) -> Result<(), Memory>
    ensures { OnOk result (text.new ≡ text.old ++ made_lines number) }
{
    append_each(Row::Option, 64, text)?;
    text.append(b"constraint !(o0 & o1)\nconstraint !o2 | o3\nprefer o4 | o5\n")?;
    append_each(Row::Default, 64, text)?;
    append_first_commit(text)?;
    append_commits(number, text)
}

// Appends the commit that makes the directories and the files.
fn append_first_commit(text: &mut Text) -> Result<(), Memory>
    ensures { OnOk result (text.new ≡ text.old ++ first_commit_lines) }
{
    text.append(b"open s - for true\n")?;
    append_each(Row::Dir, 8, text)?;
    append_each(Row::File, 64, text)?;
    text.append(b"commit s\n")
}

// Appends the commits of lines.
fn append_commits(number: u64, text: &mut Text) -> Result<(), Memory>
    ensures { OnOk result (text.new ≡ text.old ++ each_commit number) }
{
    let mut commits = Commits::new(number);
    for index in 0..400 {
        commits.append_next(text, index)?;
    }
    Ok(())
}

// Appends the line of each number below a count.
fn append_each(row: Row, count: u32, text: &mut Text) -> Result<(), Memory>
    requires { count < 100 }
    ensures { OnOk result (text.new ≡ text.old ++ each_below count (row_line row)) }
{
    for number in 0..count {
        append_row(row, number, text)?;
    }
    Ok(())
}

fn append_row(row: Row, number: u32, text: &mut Text) -> Result<(), Memory>
    requires { number < 100 }
    ensures { OnOk result (text.new ≡ text.old ++ row_line row number) }
{
    match row {
        Row::Option => append_option(number, text),
        Row::Default => append_default(number, text),
        Row::Dir => append_dir(number, text),
        Row::File => append_file(number, text),
        Row::Checkout => append_checkout(number, text),
    }
}

fn append_option(option: u32, text: &mut Text) -> Result<(), Memory>
    ensures { OnOk result (text.new ≡ text.old ++ option_line option) }
{
    append_numbered(text, b"option o", option)?;
    text.append(b"\n")
}

fn append_default(option: u32, text: &mut Text) -> Result<(), Memory>
    ensures { OnOk result (text.new ≡ text.old ++ default_line option) }
{
    append_numbered(text, b"default o", option)?;
    text.append(b" off\n")
}

fn append_dir(dir: u32, text: &mut Text) -> Result<(), Memory>
    ensures { OnOk result (text.new ≡ text.old ++ dir_line dir) }
{
    append_numbered(text, b"mkdir s /d", dir)?;
    text.append(b"\n")
}

fn append_file(file: u32, text: &mut Text) -> Result<(), Memory>
    ensures { OnOk result (text.new ≡ text.old ++ file_line file) }
{
    text.append(b"mkfile s ")?;
    append_path(file, text)?;
    text.append(b"\n")
}

fn append_checkout(tree: u32, text: &mut Text) -> Result<(), Memory>
    requires { tree < 100 }
    ensures { OnOk result (text.new ≡ text.old ++ checkout_line tree) }
{
    if tree == 0 {
        return text.append(b"checkout t0 -\n");
    }
    append_numbered(text, b"checkout t", tree)?;
    append_numbered(text, b" o", 6 + 7 * tree)?;
    text.append(b"=on\n")
}
