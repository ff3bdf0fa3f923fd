// The code on outlines. Here is what the call on a whole list and the calls of a walk share: the terms of an edge, and sums of totals.
#![tactic(auto)]

ghost use Rattle.std.specs.Prelude.{◌≡◌, false};
ghost use Rattle.outline.specs.EdgeSums.{over, exceed, plus};
ghost use Rattle.outline.specs.ListCall.{outside};
ghost use Rattle.outline.specs.MapCall.{total_limits};
ghost use Rattle.outline.specs.WalkCalls.{edge_totals};
ghost use Rattle.outline_calls.specs.private.Terms.{first_term, second_term, mixed_term};

mod list;
mod walk;

pub use list::outline_totals;
use outline::{Position, Totals};
pub use walk::{end, point, with_point};

fn first_term(s: i64, t: i64, c: i64) -> i64
    requires s_value { over 2000 s ≡ false }
    requires t_value { over 2000 t ≡ false }
    requires c_value { over 8000000 c ≡ false }
    ensures { result ≡ first_term s t c }
{
    (s + t) * c
}

fn second_term(s: i64, t: i64, c: i64) -> i64
    requires s_value { over 2000 s ≡ false }
    requires t_value { over 2000 t ≡ false }
    requires c_value { over 8000000 c ≡ false }
    ensures { result ≡ second_term s t c }
{
    (s * s + s * t + t * t) * c
}

fn mixed_term(x: i64, y: i64, p: i64, q: i64, c: i64) -> i64
    requires x_value { over 2000 x ≡ false }
    requires y_value { over 2000 y ≡ false }
    requires p_value { over 2000 p ≡ false }
    requires q_value { over 2000 q ≡ false }
    requires c_value { over 8000000 c ≡ false }
    ensures { result ≡ mixed_term x y p q c }
{
    (2 * x * y + x * q + p * y + 2 * p * q) * c
}

// The six terms of the edge from a to b.
fn edge_between(a: Position, b: Position) -> Totals
    requires a_value { outside a ≡ false }
    requires b_value { outside b ≡ false }
    ensures { result ≡ edge_totals a b }
{
    let x = a.x as i64;
    let y = a.y as i64;
    let p = b.x as i64;
    let q = b.y as i64;
    let c = x * q - p * y;
    Totals {
        a2: c,
        x6: first_term(x, p, c),
        y6: first_term(y, q, c),
        xx12: second_term(x, p, c),
        xy24: mixed_term(x, y, p, q, c),
        yy12: second_term(y, q, c),
    }
}

// Each of the six by itself.
fn add(s: Totals, t: Totals) -> Totals
    requires s_value { exceed total_limits s ≡ false }
    requires t_value { exceed total_limits t ≡ false }
    ensures { result ≡ plus s t }
{
    Totals {
        a2: s.a2 + t.a2,
        x6: s.x6 + t.x6,
        y6: s.y6 + t.y6,
        xx12: s.xx12 + t.xx12,
        xy24: s.xy24 + t.xy24,
        yy12: s.yy12 + t.yy12,
    }
}

// The sums with the edge from a to b added.
fn add_edge(sum: Totals, a: Position, b: Position) -> Totals
    requires sum_value { exceed total_limits sum ≡ false }
    requires a_value { outside a ≡ false }
    requires b_value { outside b ≡ false }
    ensures { result ≡ plus sum (edge_totals a b) }
{
    let edge = edge_between(a, b);
    add(sum, edge)
}
