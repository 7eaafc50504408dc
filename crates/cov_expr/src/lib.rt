//! Options, expressions over them, and choices as texts.
#![tactic(auto)]

mod binding;
mod expr;
mod laws;
mod naming;
mod options;
mod part;
mod part_text;
mod partial;
mod print;
mod raw_choice;
mod raw_expr;
mod reading;
mod spelling;
mod token;
mod tree;

pub use binding::BindFault;
pub use expr::{Expr, TooManyParts};
pub use laws::{
    reading_follows_grammar, texts_give_their_expressions, tokens_spell_one_expression,
};
pub use naming::NameFault;
pub use options::Options;
pub use part::Part;
pub use partial::Partial;
pub use print::print_choice;
pub use raw_choice::{ChoiceSyntax, RawChoice, switch_in};
pub use raw_expr::RawExpr;
pub use spelling::{ExprFault, parse};
pub use token::Token;
