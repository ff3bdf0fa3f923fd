// The four sums over the edges of an outline. The brackets are factored: an edge takes fewer products so.
ghost use Rattle.std.specs.Prelude.{◌≡◌, false, ◌+ℤ◌, ◌*ℤ◌};
ghost use Rattle.outline.specs.EdgeSums.{over};
ghost use Rattle.outline.specs.ListCall.{points as points_of, wrong_length, beyond, any_beyond};
ghost use Rattle.third_order.specs.ThirdTerms.{cubic, mixed, four, third_totals, plus_thirds};
ghost use Rattle.third_order.specs.ThirdLaws.{SmallThirds};

use outline::Position;
use point_list::position_at;
use third_order::{NO_THIRDS, ThirdTotals};

// Where an edge begins and ends along one axis, within the limit of third moments.
#[derive(Clone, Copy)]
struct Span {
    from: i64,
    to: i64,
    ghost from_inside: { over 500 from ≡ false },
    ghost to_inside: { over 500 to ≡ false },
}

// The sum with c times the bracket for x³ added; for y³, of the span along y.
fn plus_cubic(sum: i64, x: Span, c: i64) -> i64
    requires sum_value { over 256000000000000000 sum ≡ false }
    requires c_value { over 500000 c ≡ false }
    ensures { result ≡ sum +ℤ c *ℤ cubic x.from x.to }
{
    sum + c * ((x.from + x.to) * (x.from * x.from + x.to * x.to))
}

// The sum with c times the bracket for x²y added; for xy², with the two spans in each other's place.
fn plus_mixed(sum: i64, x: Span, y: Span, c: i64) -> i64
    requires sum_value { over 768000000000000000 sum ≡ false }
    requires c_value { over 500000 c ≡ false }
    ensures { result ≡ sum +ℤ c *ℤ mixed x.from y.from x.to y.to }
{
    let s = x.from + x.to;
    sum + c * (s * s * (y.from + y.to) + 2 * (x.from * x.from * y.from + x.to * x.to * y.to))
}

// The four sums with the edge from a to b added.
fn add_edge(sum: ThirdTotals, a: Position, b: Position) -> ThirdTotals
    requires small_thirds { SmallThirds sum }
    requires a_value { beyond 500 a ≡ false }
    requires b_value { beyond 500 b ≡ false }
    ensures { result ≡ plus_thirds sum (four (λ t. t a b)) }
{
    let x = Span {
        from: a.x as i64,
        to: b.x as i64,
    };
    let y = Span {
        from: a.y as i64,
        to: b.y as i64,
    };
    let c = x.from * y.to - x.to * y.from;
    ThirdTotals {
        xxx20: plus_cubic(sum.xxx20, x, c),
        xxy60: plus_mixed(sum.xxy60, x, y, c),
        xyy60: plus_mixed(sum.xyy60, y, x, c),
        yyy20: plus_cubic(sum.yyy20, y, c),
    }
}

// The totals of an outline: each edge from one point to the next, and the closing edge.
pub(crate) fn sum_edges(points: &[i32]) -> ThirdTotals
    requires length_value { wrong_length points.now ≡ false }
    requires limit_value { any_beyond 500 (points_of points.now) ≡ false }
    ensures { result ≡ third_totals (points_of points.now) }
{
    let n = points.len() / 2;
    let mut sum = NO_THIRDS;
    for k in 1..n {
        sum = add_edge(sum, position_at(points, k - 1), position_at(points, k));
    }
    add_edge(sum, position_at(points, n - 1), position_at(points, 0))
}
