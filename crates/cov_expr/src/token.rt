// The tokens of a text.
ghost use Rattle.std.specs.Prelude.{◌≡◌, ◌+◌, ◌<◌, ◌≤◌, ℕ, length, Option};
ghost use Rattle.std.specs.List.{prefix_len};
ghost use Rattle.cov_expr.specs.Lexemes.{lexeme_len, lexed_by};
ghost use Rattle.cov_expr.specs.Tokens.{goes_on, sign, tokens_from};

use cov_base::{Text, is_first_byte, is_word_byte};

/// What a text of an expression is made of.
#[derive(Debug, Drop)]
pub enum Token {
    /// A name, or one of the constants `true` and `false`.
    Word(Text),
    Bang,
    Amp,
    Bar,
    Open,
    Close,
}

/// What stands at the front of a text.
#[derive(Debug, Drop)]
pub(crate) enum Lexeme {
    Space,
    /// A word of this many bytes.
    Word(usize),
    /// A token of one byte.
    Sign(Token),
    /// A byte that neither is a space nor begins a token.
    Bad,
}

impl Lexeme {
    ghost use Rattle.cov_expr.specs.Lexemes.{is_bad, lexeme_len, lexeme_tokens};

    pub(crate) fn is_bad(&self) -> bool
        ensures { result ≡ is_bad self.now }
    {
        matches!(self, Lexeme::Bad)
    }

    /// How many bytes it takes.
    pub(crate) fn len(&self) -> usize
        ensures { result ≡ lexeme_len self.now }
    {
        match self {
            Lexeme::Space | Lexeme::Sign(_) | Lexeme::Bad => 1,
            Lexeme::Word(len) => *len,
        }
    }

    /// How many tokens it is.
    pub(crate) fn tokens(&self) -> u32
        ensures { result ≡ lexeme_tokens self.now }
    {
        match self {
            Lexeme::Space | Lexeme::Bad => 0,
            Lexeme::Word(_) | Lexeme::Sign(_) => 1,
        }
    }
}

/// What stands at the front of a text that isn't empty.
pub(crate) fn lexeme_of(text: &[u8]) -> Lexeme
    requires { 0 < length text.now }
    ensures lexed { (at : ℕ) → tokens_from at 0 text.now ≡ lexed_by at text.now result }
    ensures moves { 0 < lexeme_len result }
    ensures fits { lexeme_len result ≤ length text.now }
{
    let first = text[0];
    if is_first_byte(first) {
        return Lexeme::Word(word_len(text));
    }
    if first == b' ' {
        return Lexeme::Space;
    }
    match sign_of(first) {
        Some(token) => Lexeme::Sign(token),
        None => Lexeme::Bad,
    }
}

// How many bytes at the front a word may have.
fn word_len(text: &[u8]) -> usize
    ensures { result ≡ prefix_len goes_on text.now }
{
    text.iter().take_while(|b| is_word_byte(**b)).count()
}

fn sign_of(byte: u8) -> Option<Token>
    ensures { result ≡ sign byte }
{
    match byte {
        b'!' => Some(Token::Bang),
        b'&' => Some(Token::Amp),
        b'|' => Some(Token::Bar),
        b'(' => Some(Token::Open),
        b')' => Some(Token::Close),
        _ => None,
    }
}
