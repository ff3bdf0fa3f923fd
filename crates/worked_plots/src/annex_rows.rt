// Entries of the annex of square sums, document 02, CR 6, each a row: those at both its ends, and past them.
ghost use Rattle.std.specs.Prelude.{◌≡◌, pos, get_or};
ghost use Rattle.column_sums.specs.Annex.{square_sums};

use crate::show::{end_row, show, show_label};
use square_table::{entry_at, square_sums};

// Entry k, 0 past the end.
fn annex_entry(k: usize) -> i64
    ensures { result ≡ pos (get_or square_sums k 0) }
{
    let squares = square_sums();
    entry_at(&squares, k)
}

// Asked: k. Answered: the entry.
fn square_sum_row(rt: &impl Print, k: usize) {
    show_label(rt, "square-sum");
    show(rt, k);
    show(rt, annex_entry(k));
    end_row(rt);
}

pub(crate) fn annex_rows(rt: &impl Print) {
    for k in [0, 1, 2, 3, 4, 5, 1023, 1024, 1025] {
        square_sum_row(rt, k);
    }
}
