// What a line names in the history: options, expressions and choices.
ghost use Rattle.std.specs.Prelude.{◌≡◌, ◌<◌, ◌≤◌, true, nat_lt, length, None, IfOk};
ghost use Rattle.std.specs.List.{list_all};
ghost use Rattle.cov_expr.specs.Formula.{reach};
ghost use Rattle.cov_edit.specs.History.{first_false_in, option_count};
ghost use Rattle.cov_lines.specs.Acting.{Finds};
ghost use Rattle.cov_lines.specs.Finding.{completed_choice, found_choice, found_expression, found_option, found_partial, whole_choice};

use crate::state::ServerState;
use crate::whole::whole_choice;
use cov_base::{Choice, OptionId, Text};
use cov_codes::Stop;
use cov_expr::{Expr, Partial, RawChoice, RawExpr};
use cov_history::laws::open_options_are_declared;
use cov_script::Code;

impl ServerState {
    /// The option that has a name.
    pub(crate) fn find_option(&self, name: Text) -> Result<OptionId, Stop>
        ensures found { Finds (found_option self.now.state.history name) self.now.state result }
        ensures within { IfOk result (λ option. option < option_count self.now.state.history) }
    {
        match self.engine.options().find(name.as_slice()) {
            Some(option) => Ok(option),
            None => Err(Stop::Refused(Code::UnknownOption { name })),
        }
    }

    /// An expression with options in place of their names.
    pub(crate) fn find_expression(&self, expr: &RawExpr) -> Result<Expr, Stop>
        ensures found { Finds (found_expression self.now.state.history expr.now)
            self.now.state result }
        ensures within { IfOk result (λ expr. reach expr ≤ option_count self.now.state.history) }
    {
        Ok(expr.bind(self.alloc, self.engine.options())?)
    }

    /// The partial choice that bindings are.
    pub(crate) fn find_partial(&self, choice: &RawChoice) -> Result<Partial, Stop>
        ensures found { Finds (found_partial self.now.state.history choice.now)
            self.now.state result }
        ensures within { IfOk result (λ partial.
            list_all (λ b. nat_lt b.0 (option_count self.now.state.history)) partial ≡ true) }
    {
        Ok(choice.bind(self.alloc, self.engine.options())?)
    }

    /// The choice to which the rules complete a partial one. It is valid.
    pub(crate) fn complete_partial(&mut self, partial: &Partial) -> Result<Choice, Stop>
        requires { list_all (λ b. nat_lt b.0 (option_count self.old.state.history))
            partial.now ≡ true }
        ensures found { Finds (completed_choice self.old.state.history partial.now)
            self.old.state result }
        ensures same { self.new.state ≡ self.old.state }
        ensures whole { IfOk result (λ choice.
            length choice ≡ option_count self.old.state.history) }
        ensures valid { IfOk result (λ choice.
            first_false_in self.old.state.history choice ≡ None) }
    {
        open_options_are_declared();
        Ok(self.engine.complete(partial)?)
    }

    /// The choice that a partial one is, which is to bind each option.
    pub(crate) fn find_whole(&self, partial: &Partial) -> Result<Choice, Stop>
        ensures found { Finds
            (whole_choice (option_count self.now.state.history) partial.now)
            self.now.state result }
        ensures whole { IfOk result (λ choice.
            length choice ≡ option_count self.now.state.history) }
    {
        match whole_choice(partial, self.engine.options().count()) {
            Ok(choice) => Ok(choice),
            Err(option) => Err(Stop::Refused(Code::Incomplete { option })),
        }
    }

    /// The choice to which the rules complete bindings.
    pub(crate) fn find_choice(&mut self, choice: &RawChoice) -> Result<Choice, Stop>
        ensures found { Finds (found_choice self.old.state.history choice.now)
            self.old.state result }
        ensures same { self.new.state ≡ self.old.state }
        ensures whole { IfOk result (λ choice.
            length choice ≡ option_count self.old.state.history) }
    {
        let partial = self.find_partial(choice)?;
        self.complete_partial(&partial)
    }
}
