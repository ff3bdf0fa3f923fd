// A row of a mask: the sums over its marked cells, word by word, and from them the totals of its ground. Of a word, the cells are counted by its ones,
// and their columns are summed run by run. The sums of squares are read from the annex's table, which a call builds once and lends on (document 02, CR 6).
ghost use Rattle.std.specs.Prelude.{◌≡◌, ◌*◌, ◌≤◌, ◌<◌, length, get_or};
ghost use Rattle.cell_ground.specs.CellSums.{sums_over};
ghost use Rattle.mask_cells.specs.private.WordCells.{word_cells, row_cells};
ghost use Rattle.masks.specs.private.Rows.{three_of, with_span, with_columns, with_cells, row_ground, RowWithin};

use cell_ground::row_totals;
use column_sums::index_sum;
use outline::Totals;
use square_table::{SquareSums, entry_at};
use word_runs::{filled, first_clear, first_set};

// Over cells of one row: how many they are, and the sums of x and of x².
#[derive(Clone, Copy)]
struct RowSums {
    count: i64,
    x: i64,
    xx: i64,
}

impl RowSums {
    const NONE: RowSums = RowSums {
        count: 0,
        x: 0,
        xx: 0,
    };

    // With the columns from `first` up to `end`: the sums below `end` less those below `first`. The sums of squares are those of the table, whatever it has.
    fn with_span(self, first: u32, end: u32, squares: &[u32]) -> RowSums
        requires sums { RowWithin 2048 self }
        requires first_bound { first ≤ 1024 }
        requires end_bound { end ≤ 1024 }
        ensures { result ≡ with_span (λ k. get_or squares.now k 0) self first end }
    {
        let x = index_sum(end as u16) - index_sum(first as u16);
        let xx = entry_at(squares, end as usize) - entry_at(squares, first as usize);
        RowSums {
            x: self.x + x,
            xx: self.xx + xx,
            ..self
        }
    }

    // With the columns of word k of the row. Each run of the word begins at the next set bit and ends at the next clear one, or with the word.
    fn with_columns(self, word: u64, k: usize, squares: &SquareSums) -> RowSums
        requires sums { RowWithin 1088 self }
        requires k_bound { k < 16 }
        ensures { result ≡ with_columns self (sums_over (word_cells word k 64)) }
    {
        let base = k as u32 * 64;
        let table = squares.table();
        let mut sums = self;
        let mut end = 0;
        while let Some(start) = first_set(word, end) {
            end = first_clear(word, start).unwrap_or(64);
            sums = sums.with_span(base + start, base + end, table);
        }
        sums
    }

    // With the cells of word k of the row.
    #[tactic(auto, using(crate::proofs::RunsOfWord::zero_word))]
    fn with_word(self, word: u64, k: usize, squares: &SquareSums) -> RowSums
        requires sums { RowWithin 1024 self }
        requires k_bound { k < 16 }
        ensures { result ≡ with_cells self (sums_over (word_cells word k 64)) }
    {
        if word == 0 {
            return self;
        }
        let counted = RowSums {
            count: self.count + filled(word) as i64,
            ..self
        };
        counted.with_columns(word, k, squares)
    }

    // Over the marked cells of a row, by its 16 words.
    fn of_row(words: &[u64], squares: &SquareSums) -> RowSums
        requires { length words.now ≡ 16 }
        ensures { result ≡ three_of (sums_over (row_cells words.now 0)) }
    {
        let mut sums = RowSums::NONE;
        for (k, word) in words.iter().enumerate() {
            sums = sums.with_word(*word, k, squares);
        }
        sums
    }
}

// The totals of the ground under the marked cells of row y, by its 16 words.
pub(crate) fn totals_of_row(words: &[u64], y: usize, squares: &SquareSums) -> Totals
    requires words_bound { length words.now ≡ 16 }
    requires y_bound { y < 1024 }
    ensures { result ≡ row_ground y (row_cells words.now 0) }
{
    let sums = RowSums::of_row(words, squares);
    row_totals(y as u16, sums.count as u16, sums.x as i32, sums.xx as i32)
}
