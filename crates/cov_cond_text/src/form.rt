// What a line is by itself.
ghost use Rattle.std.specs.Prelude.{◌≡◌, length, codes};
ghost use Rattle.std.specs.Str.{bytes_eq};
ghost use Rattle.cov_cond_text.specs.Forms.{shown_form, HasLineText, LeastBytes};
ghost use Rattle.cov_cond_text.specs.Reading.{form_of, text_form};

use cov_base::is_line_text;

/// A line by itself.
pub(crate) enum Form<'a> {
    Text(&'a [u8]),
    /// Opens a block on the choices on which an expression is true.
    If(&'a [u8]),
    Else,
    End,
    /// None of the format.
    Fault,
}

/// What a line is.
pub(crate) fn form_of(line: &[u8]) -> Form<'_>
    ensures form { shown_form result ≡ form_of line.now }
    ensures spelt { HasLineText (shown_form result) }
    ensures least { LeastBytes (form_of line.now) (length line.now) }
{
    if let Some(expression) = line.strip_prefix(b"#if ") {
        return Form::If(expression);
    }
    if is_else(line) {
        return Form::Else;
    }
    if is_end(line) {
        return Form::End;
    }
    if let Some(_) = line.strip_prefix(b"##") {
        return text_form(&line[1..]);
    }
    if let Some(_) = line.strip_prefix(b"#") {
        return Form::Fault;
    }
    text_form(line)
}

fn is_else(line: &[u8]) -> bool
    ensures { result ≡ bytes_eq line.now (codes "#else") }
{
    matches!(line, b"#else")
}

#[tactic(auto, using(crate::proofs::Words::in_two))]
fn is_end(line: &[u8]) -> bool
    ensures { result ≡ bytes_eq line.now (codes "#endif") }
{
    match line.strip_prefix(b"#") {
        Some(word) => is_end_word(word),
        None => false,
    }
}

fn is_end_word(word: &[u8]) -> bool
    ensures { result ≡ bytes_eq word.now (codes "endif") }
{
    matches!(word, b"endif")
}

fn text_form(text: &[u8]) -> Form<'_>
    ensures form { shown_form result ≡ text_form text.now }
    ensures spelt { HasLineText (shown_form result) }
{
    if is_line_text(text) {
        return Form::Text(text);
    }
    Form::Fault
}
