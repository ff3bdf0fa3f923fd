// Document 02, CR 6: the square sums of the annex as a constant table, from which the sum of x² over a run is taken.
#![tactic(auto)]

ghost use Rattle.std.specs.Prelude.{◌≡◌, pos, get_or};
ghost use Rattle.column_sums.specs.Annex.{square_sums};

mod annex;

use annex::SQUARE_SUMS;

// The annex, for a call that reads many entries: a constant array is built anew wherever it is named, so such a call makes one of these and lends it on.
#[derive(Drop)]
pub struct SquareSums {
    table: [u32; 1025],
    ghost annex: { table ≡ square_sums },
}

impl SquareSums {
    pub fn new() -> SquareSums {
        SquareSums {
            table: square_sums(),
        }
    }

    // The table, for `entry_at`.
    pub fn table(&self) -> &[u32]
        ensures { result.now ≡ square_sums }
    {
        &self.table
    }
}

// The table of the annex.
pub fn square_sums() -> [u32; 1025]
    ensures { result ≡ square_sums }
{
    SQUARE_SUMS
}

// Entry k of a table, 0 where it has none.
pub fn entry_at(table: &[u32], k: usize) -> i64
    ensures { result ≡ pos (get_or table.now k 0) }
{
    i64::from(table.get(k).copied().unwrap_or(0))
}
