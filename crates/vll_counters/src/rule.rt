//! The rule that holds of the words and of all views between any two atomic steps.
use crate::key::Key;
use crate::views::SeatView;
use atomic_table::TableRule;

/// The rule that holds of the words and of all views between any two atomic steps.
pub struct Law;

impl TableRule<(), SeatView, Key> for Law {
    ghost use Rattle.vll_counters.specs.History.{RuleWithHistory, first_seat};
    ghost use Rattle.vll_counters.specs.Shown.{base_of};

    ghost holds = { λ key. RuleWithHistory (base_of key) };

    ghost first = { λ _. first_seat };
}
