// Document 02, CR 5, in one call: the figures of two walks, and the longer walk's own list, in a struct that holds it. Thin: the figures come from `comparison`, the list from `longer_list`.
#![tactic(auto)]

ghost use Rattle.std.specs.Prelude.{◌≡◌};
ghost use Rattle.two_walks.specs.Comparison.{lent, comparison_call};
ghost use Rattle.lent_comparison.specs.WholeAnswer.{whole_reading};

use comparison::walk_figures;
use longer_list::longer_walk;
use outline_answers::OutlineRefusal;
use two_walks::Figures;

#[derive(Clone, Copy)]
pub struct Comparison<'a> {
    pub answer: Result<Figures, OutlineRefusal>,
    pub longer: &'a [i32],
}

#[tactic(auto, unfolding(two_walks::specs::Comparison::comparison_call))]
pub fn compare_walks<'a>(first: &'a [i32], second: &'a [i32]) -> Comparison<'a>
    ensures { whole_reading result ≡ comparison_call (lent first.entry) (lent second.entry) }
{
    Comparison {
        answer: walk_figures(first, second),
        longer: longer_walk(first, second),
    }
}
