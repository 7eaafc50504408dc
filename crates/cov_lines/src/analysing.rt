// How the rules are analysed: what they make of each option, what each of them adds, and the valid choice nearest to one.
ghost use Rattle.std.specs.Prelude.{◌≡◌, ◌<◌, ◌≤◌, ◌++◌, length, map, IfOk, OnOk};
ghost use Rattle.std.specs.List.{concat, range_with_len};
ghost use Rattle.cov_analyse.specs.Analysing.{IsAnalysisOf};
ghost use Rattle.cov_edit.specs.History.{constraints_of, option_count, options_of};
ghost use Rattle.cov_lines.specs.Acting.{Acts};
ghost use Rattle.cov_lines.specs.Analysing.{AreWithin, IsNeedWithin};
ghost use Rattle.cov_lines.specs.Replies.{analysis_reply, option_line, rule_line, told_option, told_rule};
ghost use Rattle.cov_lines.specs.Step.{analysed, nearest_told};

use crate::state::ServerState;
use cov_analyse::{Analysis, OptionState, RuleState};
use cov_base::{Memory, OptionId, Text};
use cov_codes::Stop;
use cov_engine::Engine;
use cov_expr::{Options, RawChoice};
use cov_history::laws::legal_leaves_variant;
use cov_script::{dead_line, forced_line, free_line, needed_line, redundant_line, reply_count};
use std::alloc::Global;

impl ServerState {
    /// Tells what the constraints make of each option, and what each of them adds to the others.
    #[tactic(auto, unfolding(crate::specs::Step::analysed))]
    pub(crate) fn analyse(&self) -> Result<Text, Stop>
        ensures { Acts (analysed self.now.state) self.now.state self.now.state result }
    {
        Ok(tell_analysis(self.alloc, &self.engine)?)
    }

    /// Tells the valid choice that is nearest to one, which is to bind each option.
    #[tactic(auto, unfolding(crate::specs::Step::nearest_told))]
    pub(crate) fn nearest(&mut self, choice: &RawChoice) -> Result<Text, Stop>
        ensures { Acts (nearest_told self.old.state choice.now)
            self.old.state self.new.state result }
    {
        let partial = self.find_partial(choice)?;
        let choice = self.find_whole(&partial)?;
        Ok(self.nearest.tell(self.alloc, &self.engine, choice)?)
    }
}

/// The analysis of the constraints of a history.
pub(crate) fn analysis_of(alloc: Global, engine: &Engine) -> Result<Analysis, Memory>
    ensures analysis { IfOk result (IsAnalysisOf (constraints_of engine.now.history)) }
    ensures count { IfOk result (λ analysis.
        analysis.count ≡ option_count engine.now.history) }
{
    engine.history_is_legal();
    legal_leaves_variant();
    Analysis::of(alloc, engine.rules(), engine.options().count())
}

/// Drops an analysis, in the one place where that is done.
pub(crate) fn close_analysis(_: Analysis) {}

fn tell_analysis(alloc: Global, engine: &Engine) -> Result<Text, Memory>
    ensures { IfOk result (λ text. text ≡
        analysis_reply (options_of engine.now.history) (constraints_of engine.now.history)) }
{
    let mut analysis = analysis_of(alloc, engine)?;
    let told = tell_states(alloc, engine, &mut analysis);
    close_analysis(analysis);
    told
}

// Tells the states of all options, and then those of all constraints.
fn tell_states(alloc: Global, engine: &Engine, analysis: &mut Analysis) -> Result<Text, Memory>
    requires analysis { IsAnalysisOf (constraints_of engine.now.history) analysis.old }
    requires count { analysis.old.count ≡ option_count engine.now.history }
    ensures { IfOk result (λ text. text ≡
        analysis_reply (options_of engine.now.history) (constraints_of engine.now.history)) }
{
    let options = engine.options().count();
    let constraints = engine.rules().constraints();
    let mut reply = reply_count(alloc, options as u64 + constraints as u64)?;
    tell_options(alloc, engine, analysis, &mut reply)?;
    tell_constraints(alloc, engine, analysis, &mut reply)?;
    Ok(reply)
}

// Tells the states of all options.
fn tell_options(
    alloc: Global,
    engine: &Engine,
    analysis: &mut Analysis,
    reply: &mut Text,
) -> Result<(), Memory>
    requires analysis { IsAnalysisOf (constraints_of engine.now.history) analysis.old }
    requires count { analysis.old.count ≡ option_count engine.now.history }
    ensures analysis { OnOk result
        (IsAnalysisOf (constraints_of engine.now.history) analysis.new) }
    ensures count { OnOk result (analysis.new.count ≡ option_count engine.now.history) }
    ensures told { OnOk result (reply.new ≡ reply.old ++ concat
        (map (told_option (options_of engine.now.history) (constraints_of engine.now.history))
        (range_with_len 0 (option_count engine.now.history)))) }
{
    let count = engine.options().count();
    let mut number = 0;
    while number < count {
        tell_option(alloc, engine, analysis, OptionId::new(number), reply)?;
        number += 1;
    }
    Ok(())
}

fn tell_option(
    alloc: Global,
    engine: &Engine,
    analysis: &mut Analysis,
    option: OptionId,
    reply: &mut Text,
) -> Result<(), Memory>
    requires analysis { IsAnalysisOf (constraints_of engine.now.history) analysis.old }
    requires count { analysis.old.count ≡ option_count engine.now.history }
    requires option { option < option_count engine.now.history }
    ensures analysis { OnOk result
        (IsAnalysisOf (constraints_of engine.now.history) analysis.new) }
    ensures count { OnOk result (analysis.new.count ≡ option_count engine.now.history) }
    ensures told { OnOk result (reply.new ≡ reply.old ++ told_option
        (options_of engine.now.history) (constraints_of engine.now.history) option) }
{
    let state = analysis.option(option)?;
    let line = option_line(alloc, engine.options(), option, state)?;
    reply.append(line.as_slice())
}

fn option_line(
    alloc: Global,
    options: &Options,
    option: OptionId,
    state: OptionState,
) -> Result<Text, Memory>
    requires option { option < length options.now.names }
    requires state { AreWithin (length options.now.names) state }
    ensures { IfOk result (λ line. line ≡ option_line options.now.names option state) }
{
    match state {
        OptionState::Dead => dead_line(alloc, options, option),
        OptionState::Forced => forced_line(alloc, options, option),
        OptionState::Free { off, on } => free_line(alloc, options, option, off, on),
    }
}

// Tells the states of all constraints.
fn tell_constraints(
    alloc: Global,
    engine: &Engine,
    analysis: &mut Analysis,
    reply: &mut Text,
) -> Result<(), Memory>
    requires analysis { IsAnalysisOf (constraints_of engine.now.history) analysis.old }
    requires count { analysis.old.count ≡ option_count engine.now.history }
    ensures { OnOk result (reply.new ≡ reply.old ++ concat
        (map (told_rule (options_of engine.now.history) (constraints_of engine.now.history))
        (range_with_len 1 (length (constraints_of engine.now.history))))) }
{
    let count = engine.rules().constraints();
    let mut told = 0;
    while told < count {
        told += 1;
        tell_constraint(alloc, engine, analysis, told, reply)?;
    }
    Ok(())
}

// Tells the state of the constraint with a number from 1.
fn tell_constraint(
    alloc: Global,
    engine: &Engine,
    analysis: &mut Analysis,
    rule: u32,
    reply: &mut Text,
) -> Result<(), Memory>
    requires analysis { IsAnalysisOf (constraints_of engine.now.history) analysis.old }
    requires count { analysis.old.count ≡ option_count engine.now.history }
    requires first { 1 ≤ rule }
    requires last { rule ≤ length (constraints_of engine.now.history) }
    ensures analysis { OnOk result
        (IsAnalysisOf (constraints_of engine.now.history) analysis.new) }
    ensures count { OnOk result (analysis.new.count ≡ option_count engine.now.history) }
    ensures told { OnOk result (reply.new ≡ reply.old ++ told_rule
        (options_of engine.now.history) (constraints_of engine.now.history) rule) }
{
    let state = analysis.constraint(rule)?;
    let line = rule_line(alloc, engine.options(), rule, state)?;
    reply.append(line.as_slice())
}

fn rule_line(alloc: Global, options: &Options, rule: u32, state: RuleState) -> Result<Text, Memory>
    requires { IsNeedWithin (length options.now.names) state }
    ensures { IfOk result (λ line. line ≡ rule_line options.now.names rule state) }
{
    match state {
        RuleState::Redundant => redundant_line(alloc, rule),
        RuleState::Needed { choice } => needed_line(alloc, rule, options, choice),
    }
}
