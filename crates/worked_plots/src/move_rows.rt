// The rectangle moved, document 02, CR 7, each move a row: a shift alone; then a shift and a quarter turn in both orders, and doubling twice, each in two calls and at once by
// the composition.
use crate::plots::DOUBLING;
use crate::show::{end_row, show, show_each, show_label, show_totals};
use affine::map_totals;
use outline::{AffineMap, Totals};
use outline_answers::totals_of;
use outline_replies::outline_centroid_reply;
use refusals::Answer;

// Every point stays where it is.
const UNMOVED: AffineMap = AffineMap {
    a: 1,
    b: 0,
    g: 0,
    h: 1,
    e: 0,
    f: 0,
};

fn show_map(rt: &impl Print, m: AffineMap) {
    for coefficient in [m.a, m.b, m.g, m.h, m.e, m.f] {
        show(rt, coefficient);
    }
}

// Asked: two maps. Answered: number and six totals of the second call, which is given what the first answers.
fn move_twice_row(rt: &impl Print, t: Totals, first: AffineMap, second: AffineMap) {
    let once = map_totals(first, t);
    let twice = map_totals(second, totals_of(once));
    show_label(rt, "move-twice");
    show_map(rt, first);
    show_map(rt, second);
    show(rt, twice.number());
    show_totals(rt, totals_of(twice));
    end_row(rt);
}

// Asked: a map. Answered: number, six totals; number, x and y of their centre. The zeros of a refusal have none: 27.
fn move_once_row(rt: &impl Print, t: Totals, m: AffineMap) {
    let answer = map_totals(m, t);
    let totals = totals_of(answer);
    let mut centre = [0; 2];
    let number = outline_centroid_reply(totals, &mut centre);
    show_label(rt, "move-once");
    show_map(rt, m);
    show(rt, answer.number());
    show_totals(rt, totals);
    show(rt, number);
    show_each(rt, &centre);
    end_row(rt);
}

pub(crate) fn move_rows(rt: &impl Print) {
    let rectangle = totals_of(outline_calls::outline_totals(&[2, 0, 10, 4, 8, 8, 0, 4]));
    let shift = AffineMap {
        e: 3,
        f: -2,
        ..UNMOVED
    };
    let turn = AffineMap {
        a: 0,
        b: -1,
        g: 1,
        h: 0,
        ..UNMOVED
    };
    let shifted_turned = AffineMap { e: 2, f: 3, ..turn };
    let turned_shifted = AffineMap {
        e: 3,
        f: -2,
        ..turn
    };
    let quadrupling = AffineMap {
        a: 4,
        h: 4,
        ..UNMOVED
    };
    move_once_row(rt, rectangle, shift);
    move_twice_row(rt, rectangle, shift, turn);
    move_once_row(rt, rectangle, shifted_turned);
    move_twice_row(rt, rectangle, turn, shift);
    move_once_row(rt, rectangle, turned_shifted);
    move_twice_row(rt, rectangle, DOUBLING, DOUBLING);
    move_once_row(rt, rectangle, quadrupling);
}
