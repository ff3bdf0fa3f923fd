// Document 01, "Plots worked by hand": the plots that carry no ✱, and rings, masks, compared walks, square sums, moves, mended runs and third moments of document 02, run through the proved functions. Each
// prints a row: label, what was asked, number of the refusal (0 where accepted) and values, separated by tabs, as second/worked.py prints them too. To read a square sum
// refuses nothing, so its row has no number. The plots marked ✱ are rows of worked_rows/specs/Rows.antt.
#![tactic(auto)]

ghost use Rattle.std.specs.Prelude.{◌≤◌};

mod annex_rows;
mod compare_rows;
mod mask_rows;
mod move_rows;
mod plots;
mod ring_rows;
mod run_rows;
mod show;
mod third_rows;

use outline::{ORIGIN, Position};
use outline_answers::totals_of;
use outline_replies::ended_of;
use refusals::Answer;
use show::{end_row, show, show_label, show_position, show_totals};

// A triangle with a corner at the limit or past it. Asked: its x. Answered: number, six totals.
fn limit_row(rt: &impl Print, x: i32) {
    let answer = plots::triangle_totals(x);
    show_label(rt, "limit");
    show(rt, x);
    show(rt, answer.number());
    show_totals(rt, totals_of(answer));
    end_row(rt);
}

// A point for a walk that has 1,024, within the limits or outside them. Asked: its coordinates. Answered: number, count and six totals of the walk.
fn point_row(rt: &impl Print, p: Position) {
    let reply = plots::point_1025(p);
    show_label(rt, "point-1025");
    show_position(rt, p);
    show(rt, reply.answer.number());
    show(rt, reply.walk.count);
    show_totals(rt, reply.walk.totals);
    end_row(rt);
}

// The square doubled by a map. Asked: rounds. Answered: number, six totals.
fn double_row(rt: &impl Print, rounds: usize)
    requires { rounds ≤ 256 }
{
    let answer = plots::doubled_square(rounds);
    show_label(rt, "double");
    show(rt, rounds);
    show(rt, answer.number());
    show_totals(rt, totals_of(answer));
    end_row(rt);
}

// An outline of 256 rounds on a sheet. Asked: how many such came earlier. Answered: number and totals of its end, then the sheet.
fn sheet_row(rt: &impl Print, earlier: u32) {
    let reply = plots::sheet_of_squares(earlier);
    show_label(rt, "sheet");
    show(rt, earlier);
    show(rt, reply.answer.number());
    show_totals(rt, ended_of(reply.answer).totals);
    show(rt, reply.sheet.count);
    show_totals(rt, reply.sheet.totals);
    end_row(rt);
}

// One run. Asked: first column, length. Answered: number, index, six totals.
fn run_row(rt: &impl Print, first: u32, length: u32) {
    let answer = plots::run_totals(first, length);
    show_label(rt, "run");
    show(rt, first);
    show(rt, length);
    run_rows::show_region(rt, answer);
}

// An open walk handed in. Asked: points, A2. Answered: number, six totals of its end, the sheet's count.
fn walk_row(rt: &impl Print, count: u32, a2: i64) {
    let reply = plots::handed_in(count, a2);
    show_label(rt, "walk");
    show(rt, count);
    show(rt, a2);
    show(rt, reply.answer.number());
    show_totals(rt, ended_of(reply.answer).totals);
    show(rt, reply.sheet.count);
    end_row(rt);
}

fn main(rt: HostRuntime) {
    limit_row(&rt, 2000);
    limit_row(&rt, 2001);
    point_row(&rt, ORIGIN);
    point_row(&rt, Position { x: 2001, y: 0 });
    double_row(&rt, 244);
    double_row(&rt, 245);
    sheet_row(&rt, 14);
    sheet_row(&rt, 15);
    run_row(&rt, 1023, 1);
    run_row(&rt, 1023, 2);
    walk_row(&rt, 3, 24_000_000);
    walk_row(&rt, 3, 24_000_001);
    ring_rows::ring_rows(&rt);
    mask_rows::mask_rows(&rt);
    compare_rows::compare_rows(&rt);
    annex_rows::annex_rows(&rt);
    // Runs whose sums of x² are taken at the ends of the annex.
    run_row(&rt, 0, 1);
    run_row(&rt, 0, 1024);
    move_rows::move_rows(&rt);
    run_rows::run_rows(&rt);
    third_rows::third_rows(&rt);
}
