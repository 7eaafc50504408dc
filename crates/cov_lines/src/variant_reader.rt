// The lines that read a variant, over a history that no store keeps.
ghost use Rattle.std.specs.Prelude.{◌≡◌, true, IfOk};
ghost use Rattle.cov_lines.specs.Acting.{AnswersNow};
ghost use Rattle.cov_lines.specs.States.{starting};
ghost use Rattle.cov_lines.specs.Step.{acted, plainly, served, served_question, served_tree, step};
ghost use Rattle.cov_loop.specs.Answers.{Gives};
ghost use Rattle.cov_script.specs.Readers.{is_reader, reads_variant};
ghost use Rattle.cov_script.specs.declared.grouped.GroupedLine.TheVariants.{Tree as tree_line};

use crate::serving::as_reply;
use crate::state::ServerState;
use cov_base::{MOST_SCRIPT_LINE_BYTES, Memory};
use cov_codes::Stop;
use cov_engine::Engine;
use cov_loop::Reply;
use cov_script::{Code, GroupedLine, Question, TreeLine, read_line};
use std::alloc::Global;
use std::marker::Model;
use std::mem;

/// What answers the lines that read a variant. Its history is kept by no store, and no line changes it.
#[derive(Drop)]
pub struct VariantReader {
    state: ServerState,
}

impl Model for VariantReader {
    ghost use Rattle.std.specs.Coded.{codes, coded_ℕ};
    ghost use Rattle.cov_expr.specs.Formula.{formula_code};
    ghost use Rattle.cov_edit.specs.contracts.command.Command as command_row;
    ghost use Rattle.cov_edit.specs.contracts.sided.Sided as sided_row;
    ghost use Rattle.cov_lines.specs.States.{State};

    ghost Value = { State };

    ghost coded = { Prim.hlevel (
      codes,
      formula_code coded_ℕ,
      command_row.the_row.coded,
      sided_row.the_row.coded,
    ) };

    ghost view = { λ r. r.state.state };
}

impl VariantReader {
    /// A reader of the variants of a history, which has written no tree.
    pub fn new(alloc: Global, engine: Engine) -> VariantReader
        ensures { result ≡ starting engine.history }
    {
        VariantReader {
            state: ServerState::new(alloc, engine),
        }
    }

    /// What a line that reads a variant is answered, with the rows that are to be written before. It takes time in what is read.
    pub fn answer(&mut self, line: &[u8]) -> Result<Reply, Memory>
        requires { reads_variant line.now ≡ true }
        ensures { IfOk result (Gives (step self.old line.now) self.new) }
    {
        self.state.answer_reader(line)
    }

    /// Gives the reader up at the end of the program, as `Server::close` does.
    pub fn close(self) {
        mem::forget(self);
    }
}

impl ServerState {
    // What a line is answered that reads a variant.
    fn answer_reader(&mut self, line: &[u8]) -> Result<Reply, Memory>
        requires { reads_variant line.now ≡ true }
        ensures { IfOk result (Gives (step self.old.state line.now) self.new.state) }
    {
        match self.read_variant(line) {
            Ok(reply) => Ok(reply),
            Err(Stop::Refused(code)) => self.refuse(&code),
            Err(Stop::Memory) => Err(Memory),
        }
    }

    // Does what the line says, and makes its reply.
    #[tactic(auto, unfolding(crate::specs::Step::acted))]
    fn read_variant(&mut self, line: &[u8]) -> Result<Reply, Stop>
        requires { reads_variant line.now ≡ true }
        ensures { AnswersNow (acted self.old.state line.now) self.old.state self.new.state result }
    {
        if line.len() > MOST_SCRIPT_LINE_BYTES {
            return Err(Stop::Refused(Code::Long));
        }
        let form = read_line(self.alloc, line)?;
        self.answer_form(form.grouped())
    }

    #[tactic(auto, unfolding(crate::specs::Step::served))]
    fn answer_form(&mut self, line: GroupedLine) -> Result<Reply, Stop>
        requires { is_reader line ≡ true }
        ensures { AnswersNow (served self.old.state line) self.old.state self.new.state result }
    {
        match line {
            GroupedLine::Question(question) => self.answer_question(question),
            GroupedLine::Tree(line) => self.answer_tree(line),
            _ => unreachable!(),
        }
    }

    fn answer_question(&mut self, question: Question) -> Result<Reply, Stop>
        ensures { AnswersNow (plainly (served_question self.old.state question))
            self.old.state self.new.state result }
    {
        as_reply(self.alloc, self.serve_question(question))
    }

    #[tactic(auto, unfolding(crate::specs::Step::served_tree))]
    fn answer_tree(&mut self, line: TreeLine) -> Result<Reply, Stop>
        requires { is_reader (tree_line line) ≡ true }
        ensures { AnswersNow (served_tree self.old.state line)
            self.old.state self.new.state result }
    {
        match line {
            TreeLine::Checkout { tree, choice } => self.check_out_now(&tree, &choice),
            TreeLine::PastOut { .. } => unreachable!(),
        }
    }
}
