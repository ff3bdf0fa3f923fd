// Rings of document 02, CR 3, each a row: a triangle walked as an island or as a hole, its end on a sheet of one outline, and what the end leaves.
ghost use Rattle.std.specs.Prelude.{◌≡◌};
ghost use Rattle.outline.specs.WalkCalls.{sheet_of, point_call, end_call};
ghost use Rattle.outline_answers.specs.WalkAnswers.{end_reading};
ghost use Rattle.worked_plots.specs.Plots.{area_alone, walked_triangle};

use crate::plots::point_at;
use crate::show::{end_row, show, show_kind, show_label, show_position, show_totals};
use outline::{Kind, ORIGIN, Position, Sheet, Totals, Walk, ZEROS};
use outline_answers::EndReply;
use outline_replies::ended_of;
use refusals::Answer;

// The corners of a triangle, as they are walked.
#[derive(Clone, Copy)]
struct Triangle {
    one: Position,
    two: Position,
    three: Position,
}

impl Triangle {
    // The same, walked the other way.
    fn reversed(self) -> Triangle {
        Triangle {
            one: self.three,
            three: self.one,
            ..self
        }
    }
}

fn walk_to(w: Walk, p: Position) -> Walk
    ensures { result ≡ (point_call w p).walk }
{
    point_at(w, p).walk
}

// Begin and three points.
#[tactic(auto, unfolding(crate::specs::Plots::after_points))]
fn walk_triangle(kind: Kind, t: Triangle) -> Walk
    ensures { result ≡ walked_triangle kind t.one t.two t.three }
{
    let begun = walk_state::begin(walk_state::new_walk(), kind);
    let first = walk_to(begun.walk, t.one);
    let second = walk_to(first, t.two);
    walk_to(second, t.three)
}

// The end of a walk on a sheet of one outline, which has this A2.
fn end_on(walk: Walk, a2: i64) -> EndReply
    ensures { end_reading result ≡ end_call walk (sheet_of 1 (area_alone a2)) }
{
    let totals = Totals { a2, ..ZEROS };
    outline_calls::end(walk, Sheet { count: 1, totals })
}

// Asked: kind, three points, the sheet's A2. Answered: number and totals of the end, how many points the walk then has, the sheet.
fn ring_row(rt: &impl Print, kind: Kind, t: Triangle, a2: i64) {
    let reply = end_on(walk_triangle(kind, t), a2);
    show_label(rt, "ring");
    show_kind(rt, kind);
    show_position(rt, t.one);
    show_position(rt, t.two);
    show_position(rt, t.three);
    show(rt, a2);
    show(rt, reply.answer.number());
    show_totals(rt, ended_of(reply.answer).totals);
    show(rt, reply.walk.count);
    show(rt, reply.sheet.count);
    show_totals(rt, reply.sheet.totals);
    end_row(rt);
}

// A triangle as it is listed and walked the other way, as an island and as a hole.
fn four_rows(rt: &impl Print, t: Triangle, a2: i64) {
    for kind in [Kind::Island, Kind::Hole] {
        ring_row(rt, kind, t, a2);
        ring_row(rt, kind, t.reversed(), a2);
    }
}

// The pond of document 02; three points on a line; and a triangle whose A2 is 2, on sheets with room for 1 more and for 1 less.
pub(crate) fn ring_rows(rt: &impl Print) {
    let pond = Triangle {
        one: Position { x: 4, y: 2 },
        two: Position { x: 6, y: 3 },
        three: Position { x: 5, y: 5 },
    };
    let on_a_line = Triangle {
        one: ORIGIN,
        two: Position { x: 6, y: 3 },
        three: Position { x: 2, y: 1 },
    };
    let small = Triangle {
        one: ORIGIN,
        two: Position { x: 1, y: 0 },
        three: Position { x: 0, y: 2 },
    };
    four_rows(rt, pond, 80);
    four_rows(rt, on_a_line, 80);
    four_rows(rt, small, 999_999_999_999_999_999);
    four_rows(rt, small, -999_999_999_999_999_999);
}
