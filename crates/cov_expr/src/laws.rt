// Laws of the grammar of expressions and of their texts.
ghost use Rattle.cov_expr.specs.Laws.{SpellOneExpression, ReadsByGrammar, TextsSpell, TextsReadBack, NamesBindBack};

/// By each rule of the grammar, tokens spell one expression at most.
pub fn tokens_spell_one_expression()
    ensures { SpellOneExpression }
{}

/// What reading a text token by token gives is what the grammar says of it, and nothing else is.
pub fn reading_follows_grammar()
    ensures { ReadsByGrammar }
{}

/// The text of an expression spells it, and reading and binding a text of at most `MOST_TOKENS` tokens gives the expression again.
pub fn texts_give_their_expressions()
    ensures spells { TextsSpell }
    ensures reads { TextsReadBack }
    ensures binds { NamesBindBack }
{}
