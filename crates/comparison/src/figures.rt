// The figures of a comparison: the call on a whole list answers for each walk, the first before the second.
ghost use Rattle.std.specs.Prelude.{◌≡◌, false};
ghost use Rattle.outline.specs.EdgeSums.{exceed, outline_bounds};
ghost use Rattle.two_walks.specs.Comparison.{minus, figures_call};
ghost use Rattle.comparison.specs.Answer.{reading};

use crate::distances::AcceptedWalk;
use outline::Totals;
use outline_answers::OutlineRefusal;
use outline_calls::outline_totals;
use two_walks::Figures;

// Each of the six by itself.
fn subtract(s: Totals, t: Totals) -> Totals
    requires s_value { exceed outline_bounds s ≡ false }
    requires t_value { exceed outline_bounds t ≡ false }
    ensures { result ≡ minus s t }
{
    Totals {
        a2: s.a2 - t.a2,
        x6: s.x6 - t.x6,
        y6: s.y6 - t.y6,
        xx12: s.xx12 - t.xx12,
        xy24: s.xy24 - t.xy24,
        yy12: s.yy12 - t.yy12,
    }
}

// Each walk by the call on a whole list, so the first is refused before the second.
pub fn walk_figures(first: &[i32], second: &[i32]) -> Result<Figures, OutlineRefusal>
    ensures { reading result ≡ figures_call first.now second.now }
{
    let s = outline_totals(first)?;
    let t = outline_totals(second)?;
    let first = AcceptedWalk { points: first };
    let second = AcceptedWalk { points: second };
    Ok(Figures {
        differences: subtract(s, t),
        forward: first.squared_hausdorff(second),
        backward: second.squared_hausdorff(first),
    })
}
