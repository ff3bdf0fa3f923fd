// Third moments of outlines, document 02, CR 10, each a row: the plots worked by hand, both sides of the limit of 35, and what is refused first.
ghost use Rattle.std.specs.Prelude.{◌≡◌};
ghost use Rattle.third_moments.specs.ThirdAnswers.{reading};

use crate::show::{end_row, show, show_each, show_label, show_word};
use refusals::Answer;
use third_moments::{ThirdRefusal, third_moments};
use third_order::{NO_THIRDS, ThirdTotals};

// The totals that an answer tells.
fn thirds_told(answer: Result<ThirdTotals, ThirdRefusal>) -> ThirdTotals
    ensures { result ≡ (reading answer).totals }
{
    answer.unwrap_or(NO_THIRDS)
}

// A list. Asked: its name. Answered: number, four totals by falling power of x.
fn third_row(rt: &impl Print, name: &str, points: &[i32]) {
    let answer = third_moments(points);
    let totals = thirds_told(answer);
    show_label(rt, "third");
    show_word(rt, name);
    show(rt, answer.number());
    show_each(
        rt,
        &[totals.xxx20, totals.xxy60, totals.xyy60, totals.yyy20],
    );
    end_row(rt);
}

pub(crate) fn third_rows(rt: &impl Print) {
    third_row(rt, "unit-square", &[0, 0, 1, 0, 1, 1, 0, 1]);
    third_row(rt, "rectangle", &[2, 0, 10, 4, 8, 8, 0, 4]);
    third_row(rt, "figure-eight", &[0, 0, 2, 2, 2, 0, 0, 2]);
    third_row(rt, "square-west", &[-1, 0, 0, 0, 0, 1, -1, 1]);
    third_row(rt, "at-the-limit", &[500, -500, 0, 500, -500, 0]);
    third_row(rt, "past-the-limit", &[500, -500, 0, 501, -500, 0]);
    // Refused with 1 and 2: the number 600 alone would be 35.
    third_row(rt, "outside", &[600, 0, 0, 0, 0, 2001]);
    third_row(rt, "odd", &[600, 0, 0, 0, 0, 5, 0]);
}
