// What a line does, by its group, and its reply.
ghost use Rattle.std.specs.Prelude.{IfOk};
ghost use Rattle.cov_edit.specs.History.{option_count};
ghost use Rattle.cov_lines.specs.Acting.{Acts, AnswersNow, Handles};
ghost use Rattle.cov_lines.specs.Growth.{Keeps};
ghost use Rattle.cov_lines.specs.States.{State};
ghost use Rattle.cov_lines.specs.Step.{Act, acted, plainly, refused, served, served_analysis, served_declaration, served_edit, served_past, served_question, served_session, served_tree};
ghost use Rattle.cov_lines.specs.Texts.{EditHasParts, HasParts};
ghost use Rattle.cov_loop.specs.Answers.{Gives};
ghost use Rattle.cov_script.specs.Replies.{IsCodeOf};

use crate::handled::Handled;
use crate::state::ServerState;
use cov_base::{Kind, LineNo, MOST_SCRIPT_LINE_BYTES, Memory, Name, Position, Text};
use cov_codes::Stop;
use cov_loop::{Answer, Reply};
use cov_out::OutRows;
use cov_script::{
    AnalysisLine, Code, Declaration, EditLine, GroupedLine, PastLine, Question, SessionLine,
    TreeLine, lines_read_as_spelt, read_line, reply_refused,
};
use std::alloc::Global;

impl ServerState {
    /// The reply that refuses a line.
    pub(crate) fn refuse(&self, code: &Code) -> Result<Reply, Memory>
        requires { IsCodeOf (option_count self.now.state.history) code.now }
        ensures { IfOk result (Gives (refused self.now.state code.now) self.now.state) }
    {
        let text = reply_refused(self.alloc, self.engine.options(), code)?;
        let rows = OutRows::new(self.alloc);
        let answer = Answer::Refused;
        Ok(Reply { text, rows, answer })
    }

    /// Does what a line says, and makes its reply, with the rows that are to be written before it; or makes the command that the
    /// line adds.
    #[tactic(auto, unfolding(crate::specs::Step::acted))]
    pub(crate) fn act(&mut self, line: &[u8]) -> Result<Handled, Stop>
        ensures { Handles (acted self.old.state line.now) self.old.state self.new.state result }
    {
        if line.len() > MOST_SCRIPT_LINE_BYTES {
            return Err(Stop::Refused(Code::Long));
        }
        lines_read_as_spelt();
        let form = read_line(self.alloc, line)?;
        self.serve(form.grouped())
    }

    #[tactic(auto, unfolding(crate::specs::Step::served))]
    fn serve(&mut self, line: GroupedLine) -> Result<Handled, Stop>
        requires { HasParts line }
        ensures { Handles (served self.old.state line) self.old.state self.new.state result }
    {
        match line {
            GroupedLine::Silent => Ok(Handled::Done(Reply::to_done(
                self.alloc,
                Text::new(self.alloc),
            ))),
            GroupedLine::Declaration(declaration) => self.serve_declaration(declaration),
            GroupedLine::Session(line) => self.serve_session(line),
            GroupedLine::Edit { name, edit } => as_done(self.alloc, self.serve_edit(&name, edit)),
            GroupedLine::Question(question) => as_done(self.alloc, self.serve_question(question)),
            GroupedLine::Analysis(line) => as_done(self.alloc, self.serve_analysis(line)),
            GroupedLine::Past(line) => as_done(self.alloc, self.serve_past(line)),
            GroupedLine::Tree(line) => self.serve_tree(line),
        }
    }

    #[tactic(auto, unfolding(crate::specs::Step::served_declaration))]
    fn serve_declaration(&self, declaration: Declaration) -> Result<Handled, Stop>
        ensures { Handles (plainly (served_declaration self.now.state declaration))
            self.now.state self.now.state result }
    {
        match declaration {
            Declaration::Option { token } => self.declare(&token),
            Declaration::Constraint { expr } => self.constrain(&expr),
            Declaration::Prefer { expr } => self.prefer(&expr),
            Declaration::Default { token, on } => self.set_default(token, on),
            Declaration::Upgrade => self.upgrade(),
        }
    }

    #[tactic(auto, unfolding(crate::specs::Step::served_session))]
    fn serve_session(&mut self, line: SessionLine) -> Result<Handled, Stop>
        ensures { Handles (plainly (served_session self.old.state line))
            self.old.state self.new.state result }
    {
        match line {
            SessionLine::Open {
                name,
                choice,
                ambition,
            } => as_done(self.alloc, self.open(name, &choice, &ambition)),
            SessionLine::Side { name, side } => as_done(self.alloc, self.set_side(&name, &side)),
            SessionLine::Refresh { name } => as_done(self.alloc, self.refresh(&name)),
            SessionLine::Commit { name } => self.commit(name),
            SessionLine::Discard { name } => as_done(self.alloc, self.discard(&name)),
        }
    }

    #[tactic(auto, unfolding(crate::specs::Step::served_edit))]
    fn serve_edit(&mut self, name: &Name, edit: EditLine) -> Result<Text, Stop>
        requires { EditHasParts edit }
        ensures { Acts (served_edit self.old.state name.now edit)
            self.old.state self.new.state result }
    {
        match edit {
            EditLine::MakeDir { path } => self.make_node(Kind::Dir, name, &path),
            EditLine::MakeFile { path } => self.make_node(Kind::File, name, &path),
            EditLine::Rename { path, to } => self.rename(name, &path, to),
            EditLine::Move { path, target } => self.move_node(name, &path, &target),
            EditLine::Remove { path } => self.remove(name, &path),
            EditLine::Insert { path, line, text } => self.insert(name, &path, line, text),
            EditLine::Delete { path, line } => self.delete(name, &path, line),
            EditLine::Replace { path, line, text } => self.replace(name, &path, line, text),
        }
    }

    #[tactic(auto, unfolding(crate::specs::Step::served_question))]
    pub(crate) fn serve_question(&mut self, question: Question) -> Result<Text, Stop>
        ensures { Acts (served_question self.old.state question)
            self.old.state self.new.state result }
    {
        match question {
            Question::Complete { choice } => self.complete(&choice),
            Question::Show { name, path } => self.show(&name, &path),
            Question::List { name, path } => self.list(&name, &path),
            Question::Cat { choice, path } => self.tell(&choice, &path),
            Question::Alt {
                choice,
                token,
                path,
            } => self.compare(&choice, token, &path),
            Question::Conditional { choice, path } => self.tell_conditional(&choice, &path),
            Question::Presence { line } => self.presence(LineNo::new(line)),
        }
    }

    #[tactic(auto, unfolding(crate::specs::Step::served_analysis))]
    fn serve_analysis(&mut self, line: AnalysisLine) -> Result<Text, Stop>
        ensures { Acts (served_analysis self.old.state line) self.old.state self.new.state result }
    {
        match line {
            AnalysisLine::Analyse => self.analyse(),
            AnalysisLine::Nearest { choice } => self.nearest(&choice),
        }
    }

    #[tactic(auto, unfolding(crate::specs::Step::served_past))]
    fn serve_past(&mut self, line: PastLine) -> Result<Text, Stop>
        ensures { Acts (served_past self.old.state line) self.old.state self.new.state result }
    {
        match line {
            PastLine::Log { choice } => self.log(&choice),
            PastLine::Blame { choice, path } => self.blame(&choice, &path),
            PastLine::Past {
                position,
                choice,
                path,
            } => self.tell_past(Position::new(position), &choice, &path),
        }
    }

    #[tactic(auto, unfolding(crate::specs::Step::served_tree))]
    fn serve_tree(&mut self, line: TreeLine) -> Result<Handled, Stop>
        ensures { Handles (served_tree self.old.state line) self.old.state self.new.state result }
    {
        match line {
            TreeLine::Checkout { tree, choice } => self.check_out(&tree, &choice),
            TreeLine::PastOut {
                tree,
                position,
                choice,
            } => self.write_past(&tree, Position::new(position), &choice),
        }
    }
}

// What a line comes to that adds no command.
fn as_done(alloc: Global, told: Result<Text, Stop>) -> Result<Handled, Stop>
    ensures { (wanted : Act) (old new : State) → Keeps old wanted → Acts wanted old new told →
        Handles (plainly wanted) old new result }
{
    match as_reply(alloc, told) {
        Ok(reply) => Ok(Handled::Done(reply)),
        Err(stop) => Err(stop),
    }
}

/// The reply of a line that adds no command and writes no rows.
pub(crate) fn as_reply(alloc: Global, told: Result<Text, Stop>) -> Result<Reply, Stop>
    ensures { (wanted : Act) (old new : State) → Keeps old wanted → Acts wanted old new told →
        AnswersNow (plainly wanted) old new result }
{
    match told {
        Ok(text) => Ok(Reply::to_done(alloc, text)),
        Err(stop) => Err(stop),
    }
}
