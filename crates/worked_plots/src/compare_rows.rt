// Two walks of one plot compared, document 02, CR 5, each pair a row: both orders, one list twice, and what is refused first.
use crate::show::{end_row, show, show_each, show_label, show_word};
use comparison_replies::compare_walks_reply;

// Two lists. Asked: their names. Answered: number, six differences, the distances from the first's points to the second and from the second's to the first, which list is
// handed back, and how many numbers of it.
fn compare_row<'a>(
    rt: &impl Print,
    first_name: &str,
    first: &'a [i32],
    second_name: &str,
    second: &'a [i32],
) {
    let mut values = [0; 10];
    let number = compare_walks_reply(first, second, &mut values);
    show_label(rt, "compare");
    show_word(rt, first_name);
    show_word(rt, second_name);
    show(rt, number);
    show_each(rt, &values);
    end_row(rt);
}

pub(crate) fn compare_rows(rt: &impl Print) {
    // The rectangle by two walkers.
    let rectangle = [2, 0, 10, 4, 8, 8, 0, 4];
    let other_walk = [2, 0, 10, 4, 9, 8, 1, 5, 0, 4];
    // Refused alone with 1, with 2 and with 1.
    let outside = [0, 0, 2001, 0, 0, 5];
    let odd = [0, 0, 1, 0, 1, 1, 0];
    let far = [0, 0, 5000, 0, 0, 5];
    compare_row(rt, "rectangle", &rectangle, "other-walk", &other_walk);
    compare_row(rt, "other-walk", &other_walk, "rectangle", &rectangle);
    compare_row(rt, "rectangle", &rectangle, "rectangle", &rectangle);
    compare_row(rt, "outside", &outside, "odd", &odd);
    compare_row(rt, "odd", &odd, "far", &far);
    compare_row(rt, "rectangle", &rectangle, "outside", &outside);
    compare_row(rt, "other-walk", &other_walk, "odd", &odd);
}
