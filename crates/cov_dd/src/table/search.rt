// The first choice on which a node is true.
ghost use Rattle.std.specs.Prelude.{◌≡◌, ◌≢◌, ◌<◌, ◌≤◌, ◌↔◌, ℕ, Bool, true, false, length, find, Some, IsNone, if◌then◌else◌};
ghost use Rattle.cov_base.specs.Choices.{all_choices, with_option};
ghost use Rattle.cov_base.specs.declared.limits.TheConstants.{CHOICE_WIDTH};
ghost use Rattle.cov_dd.specs.Diagrams.{diagram_size, span, value_in};

use super::Table;
use crate::{FALSE, Node};
use cov_base::{Choice, OptionId};

impl Table {
    /// The first choice of `count` options, in their order, on which a node is true. None comes exactly for FALSE.
    pub fn least(&self, a: Node, count: u8) -> Option<Choice>
        requires within { a < diagram_size self.now }
        requires count { count ≤ CHOICE_WIDTH }
        requires options { span self.now a ≤ count }
        ensures first { result ≡ find (value_in self.now a) (all_choices count) }
        ensures none { IsNone result ↔ (a ≡ 0) }
    {
        if a == FALSE {
            return None;
        }
        Some(self.first_choice(a, count))
    }

    // An option is on only where off leads to FALSE.
    fn first_choice(&self, a: Node, count: u8) -> Choice
        requires within { a < diagram_size self.now }
        requires other { a ≢ 0 }
        requires count { count ≤ CHOICE_WIDTH }
        requires options { span self.now a ≤ count }
        ensures { find (value_in self.now a) (all_choices count) ≡ Some result }
    {
        // Reading a field brings the table's invariant into the proof.
        let _ = &self.entries;
        let mut node = a;
        let mut choice = Choice::new(0, count);
        while let Some(triple) = self.entry(node) {
            let on = triple.off == FALSE;
            choice = switched(choice, triple.option, on);
            node = triple.child(on);
        }
        choice
    }
}

fn switched(choice: Choice, option: OptionId, on: bool) -> Choice
    requires { option < length choice }
    ensures { result ≡ (if on then with_option choice option true else choice) }
{
    if on {
        choice.with(option, true)
    } else {
        choice
    }
}
