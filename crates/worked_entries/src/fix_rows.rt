// Fixes as points, each a row.
ghost use Rattle.std.specs.Prelude.{◌≡◌};
ghost use Rattle.fixes.specs.FixAnswers.{reading};

use crate::floats::{INFINITY, TOO_FAR, fix_of, float_of, no_number};
use crate::show::{end_row, show, show_label};
use fixes::{FixRefusal, fix_point};
use outline::{ORIGIN, Position};
use receiver::Fix;
use refusals::Answer;

// The bits of 1 and of -1.
const NORTH: u32 = 0x3F80_0000;

const EAST: u32 = 0xBF80_0000;

// The bits of -2001, past the limits.
const FAR_EAST: u32 = 0xC4FA_2000;

// Where rounding or a refusal turns, each with its neighbours: the limits, halves, the two zeros, the largest, the infinities.
const FLOATS: [u32; 28] = [
    0xC4FA0000, 0xC4FA0FFF, 0xC4FA1000, 0xC4FA1001, 0x44FA0000, 0x44FA0FFF, 0x44FA1000, 0x44FA1001,
    0x3EFFFFFF, 0x3F000000, 0x3F000001, 0xBEFFFFFF, 0xBF000000, 0xBF000001, 0x3FBFFFFF, 0x3FC00000,
    0x3FC00001, 0xBFBFFFFF, 0xBFC00000, 0xBFC00001, 0x00000000, 0x80000000, 0x00000001, 0x80000001,
    0x7F7FFFFF, 0xFF7FFFFF, 0x7F800000, 0xFF800000,
];

// The point that an answer tells.
fn point_told(answer: Result<Position, FixRefusal>) -> Position
    ensures { result ≡ (reading answer).point }
{
    answer.unwrap_or(ORIGIN)
}

// Number, x and y; then the row ends.
fn show_answer(rt: &impl Print, fix: Fix) {
    let answer = fix_point(fix);
    let point = point_told(answer);
    show(rt, answer.number());
    show(rt, point.x);
    show(rt, point.y);
    end_row(rt);
}

// Asked: the bits of east and of north. Answered: number, x, y.
fn fix_row(rt: &impl Print, east: u32, north: u32) {
    show_label(rt, "fix");
    show(rt, east);
    show(rt, north);
    show_answer(rt, fix_of(east, north));
}

// A fix of which one float is not a number. Asked: the bits of the other. Answered: the same.
fn no_number_row(rt: &impl Print, other: u32, fix: Fix) {
    show_label(rt, "fix-nan");
    show(rt, other);
    show_answer(rt, fix);
}

fn no_east_row(rt: &impl Print, north: u32) {
    let fix = Fix {
        east: no_number(),
        north: float_of(north),
    };
    no_number_row(rt, north, fix);
}

fn no_north_row(rt: &impl Print, east: u32) {
    let fix = Fix {
        east: float_of(east),
        north: no_number(),
    };
    no_number_row(rt, east, fix);
}

pub(crate) fn fix_rows(rt: &impl Print) {
    // One float as east, then as north.
    for bits in &FLOATS {
        fix_row(rt, *bits, NORTH);
        fix_row(rt, EAST, *bits);
    }
    fix_row(rt, INFINITY, TOO_FAR);
    fix_row(rt, FAR_EAST, INFINITY);
    no_east_row(rt, NORTH);
    no_east_row(rt, TOO_FAR);
    no_north_row(rt, EAST);
    no_north_row(rt, FAR_EAST);
}
