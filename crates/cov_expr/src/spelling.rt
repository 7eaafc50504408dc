// The expression that a text spells.
ghost use Rattle.std.specs.Prelude.{◌≡◌, ◌<◌, ◌^◌, length, IfOk, IfSome};
ghost use Rattle.std.specs.Option.{option_map};
ghost use Rattle.cov_base.specs.Answers.{IsOrMemory};
ghost use Rattle.cov_expr.specs.Parsing.{IsParsed};
ghost use Rattle.cov_expr.specs.Reading.{start, next, read_lexed, parsed, is_memory};
ghost use Rattle.cov_expr.specs.Readings.{state_of};
ghost use Rattle.cov_expr.specs.Sizes.{IsFrontSize};
ghost use Rattle.cov_expr.specs.FrontReads.{HasTokens, IsFrontRead};
ghost use Rattle.cov_expr.specs.Tokens.{tokens_of, token_count};

use crate::raw_expr::RawExpr;
use crate::reading::Reading;
use crate::token::{Lexeme, Token, lexeme_of};
use crate::tree::Tree;
use cov_base::{MOST_TOKENS, Memory, Text};
use std::alloc::Global;

/// Why a text is no expression.
#[derive(Clone, Copy, Debug, PartialEq, Eq)]
pub enum ExprFault {
    /// The place of the first mistake: the index of a byte, or the number of bytes where the text ends too early.
    Syntax { at: u32 },
    /// It has more than `MOST_TOKENS` tokens.
    TooLong,
    Memory,
}

impl From<Memory> for ExprFault {
    ghost use Rattle.cov_expr.specs.declared.spelling.ExprFault.TheVariants.{Memory as wanting};

    ghost from_gives = { λ _ e. e ≡ wanting };

    fn from(_: Memory) -> Self {
        ExprFault::Memory
    }
}

/// The expression that a text spells. Its refusals come in this order: `Syntax` at the first byte that neither is a
/// space nor begins a token; `TooLong` where there are more than `MOST_TOKENS` tokens; `Syntax` at the first byte of the first
/// token such that no expression begins with the tokens up to and including it; `Syntax` at the text's length where
/// the tokens are too few for an expression. The work is linear in the text.
pub fn parse(alloc: Global, bytes: &[u8]) -> Result<RawExpr, ExprFault>
    requires { length bytes.now < 2 ^ 32 }
    ensures grammar { IsParsed (length bytes.now) (tokens_of bytes.now) result }
    ensures answer { IsOrMemory is_memory (parsed bytes.now) result }
{
    match parse_tree(alloc, bytes) {
        Ok(tree) => Ok(RawExpr::new(tree)),
        Err(fault) => Err(fault),
    }
}

fn parse_tree(alloc: Global, bytes: &[u8]) -> Result<Tree, ExprFault>
    requires { length bytes.now < 2 ^ 32 }
    ensures { IsOrMemory is_memory (parsed bytes.now) result }
{
    match count_tokens(bytes) {
        Err(at) => Err(ExprFault::Syntax { at }),
        Ok(count) => {
            if count > MOST_TOKENS {
                return Err(ExprFault::TooLong);
            }
            read_tokens(alloc, bytes)
        }
    }
}

// Reads a text all of whose bytes are spaces or parts of tokens.
fn read_tokens(alloc: Global, bytes: &[u8]) -> Result<Tree, ExprFault>
    requires short { length bytes.now < 2 ^ 32 }
    requires lexed { HasTokens (tokens_of bytes.now) }
    ensures { IsOrMemory is_memory (read_lexed (tokens_of bytes.now) (length bytes.now) start)
        result }
{
    let mut reading = Reading::new(alloc);
    let mut at = 0;
    while at < bytes.len() {
        match read_front(alloc, reading, &bytes[at..])? {
            None => return Err(ExprFault::Syntax { at: at as u32 }),
            Some(front) => {
                at += front.bytes;
                reading = front.reading;
            }
        }
    }
    match reading.finish(alloc)? {
        None => Err(ExprFault::Syntax { at: at as u32 }),
        Some(tree) => Ok(tree),
    }
}

// What was read, with the space or the token at the front of a text, and how many bytes this is.
#[derive(Debug, Drop)]
struct Front {
    reading: Reading,
    bytes: usize,
}

// Reads what stands at the front of the text; None where no expression goes on with it.
fn read_front(alloc: Global, reading: Reading, text: &[u8]) -> Result<Option<Front>, Memory>
    requires some { 0 < length text.now }
    requires few { reading.level.nots < 2 ^ 32 }
    ensures { IfOk result (IsFrontRead text.now (state_of reading)) }
{
    match lexeme_of(text) {
        Lexeme::Bad => Ok(None),
        Lexeme::Space => Ok(Some(Front { reading, bytes: 1 })),
        Lexeme::Word(bytes) => {
            let word = Text::from_slice(alloc, &text[..bytes])?;
            read_token(alloc, reading, Token::Word(word), bytes)
        }
        Lexeme::Sign(token) => read_token(alloc, reading, token, 1),
    }
}

// Reads a token of a number of bytes.
fn read_token(
    alloc: Global,
    reading: Reading,
    token: Token,
    bytes: usize,
) -> Result<Option<Front>, Memory>
    requires { reading.level.nots < 2 ^ 32 }
    ensures state { IfOk result (λ front.
        option_map (λ s. state_of s.reading) front ≡ next (state_of reading) token) }
    ensures bytes { IfOk result (λ front. IfSome front (λ s. s.bytes ≡ bytes)) }
{
    match reading.read(alloc, token)? {
        None => Ok(None),
        Some(reading) => Ok(Some(Front { reading, bytes })),
    }
}

// How many tokens the text has, or the place of the first byte that neither is a space nor begins a token.
fn count_tokens(bytes: &[u8]) -> Result<u32, u32>
    requires { length bytes.now < 2 ^ 32 }
    ensures { result ≡ token_count (tokens_of bytes.now) }
{
    let mut at = 0;
    let mut count = 0;
    while at < bytes.len() {
        match front_size(&bytes[at..]) {
            None => return Err(at as u32),
            Some(size) => {
                at += size.bytes;
                count += size.tokens;
            }
        }
    }
    Ok(count)
}

// How much stands at the front of a text.
#[derive(Clone, Copy, Debug)]
struct Size {
    bytes: usize,
    tokens: u32,
}

// How much a space or a token at the front of the text is, None where neither stands there.
fn front_size(text: &[u8]) -> Option<Size>
    requires { 0 < length text.now }
    ensures { IsFrontSize text.now result }
{
    let lexeme = lexeme_of(text);
    if lexeme.is_bad() {
        return None;
    }
    Some(Size {
        bytes: lexeme.len(),
        tokens: lexeme.tokens(),
    })
}
