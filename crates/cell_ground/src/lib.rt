// Document 02, CR 2: the totals of the ground under cells of one row. Those of a mask are added up of them.
#![tactic(auto)]

ghost use Rattle.std.specs.Prelude.{◌≡◌, pos};
ghost use Rattle.cell_ground.specs.Ground.{ground_totals, row_sums};

use outline::Totals;

// `count` cells of a row, `x` the sum of their columns and `xx` that of the squares. With h = 2 y + 1, the row's middle doubled, the sums over y come
// out in one product each: 6 Sy + 3 A = 3 A h, and so on. Every step fits, whatever the numbers.
pub fn row_totals(row: u16, count: u16, x: i32, xx: i32) -> Totals
    ensures { result ≡ ground_totals (row_sums (pos row) (pos count) x xx) }
{
    let n = count as i64;
    let h = 2 * row as i64 + 1;
    let sx = x as i64;
    let x6 = 6 * sx + 3 * n;
    let y6 = 3 * n * h;
    Totals {
        a2: 2 * n,
        x6,
        y6,
        xx12: 12 * (xx as i64 + sx) + 4 * n,
        xy24: 2 * x6 * h,
        yy12: y6 * h + n,
    }
}
