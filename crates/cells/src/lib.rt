// Document 01, "Cells", and document 02, CR 2: the totals of the ground under a region, over the runs that a caller lends. Time goes by the number of runs, not of cells.
#![tactic(auto)]

ghost use Rattle.std.specs.Prelude.{◌≡◌, ◌+◌, ◌^◌, get_or};
ghost use Rattle.cell_ground.specs.CellSums.{plus_sums};
ghost use Rattle.cell_ground.specs.Ground.{ground_totals};
ghost use Rattle.cell_ground.specs.private.SumBounds.{SumsWithin};
ghost use Rattle.cells.specs.RegionCall.{bad_run, lies_after, region_call, region_number, reading};
ghost use Rattle.cells.specs.private.Scan.{held, sums_of, sums_by, no_runs, refusal_with, found_with, add_run, answer_of, RunInGrid, SumsSmall, HasRoom};

use column_sums::index_sum;
use outline::Totals;
use refusals::Refusal;
use square_table::{SquareSums, entry_at};

// As many cells of a row as `length`, from the column `first` on. Laid out as in C, whose callers lend lists of them.
#[repr(C)]
#[derive(Clone, Copy, Debug, PartialEq, Eq)]
pub struct Run {
    pub row: u32,
    pub first: u32,
    pub length: u32,
}

impl Run {
    // The column past the last cell. The sum of two 32-bit numbers cannot wrap at 64 bits.
    fn end(self) -> u64
        ensures { result ≡ self.first + self.length }
    {
        u64::from(self.first) + u64::from(self.length)
    }

    // Refusal 6.
    #[tactic(auto, unfolding(crate::specs::RegionCall::bad_run))]
    fn is_bad(self) -> bool
        ensures { result ≡ bad_run self }
    {
        1023 < self.row || self.length == 0 || 1024 < self.end()
    }

    // Refusal 7 is of a run that does not lie after the one before it.
    #[tactic(auto, unfolding(crate::specs::RegionCall::lies_after))]
    fn lies_after(self, earlier: Run) -> bool
        ensures { result ≡ lies_after earlier self }
    {
        earlier.row < self.row || earlier.row == self.row && earlier.end() <= u64::from(self.first)
    }

    // The sums over the cells: those of x and x² are differences of the sums below the run's ends, which are at most 1,024. The sums of squares are those of the
    // table, whatever it has (document 02, CR 6).
    fn sums(self, squares: &[u32]) -> CellSums
        requires { RunInGrid self }
        ensures { result ≡ held (sums_by (λ k. get_or squares.now k 0) self) }
    {
        let first = self.first as u16;
        let end = self.end() as u16;
        let n = i64::from(self.length);
        let y = i64::from(self.row);
        let x = index_sum(end) - index_sum(first);
        let xx = entry_at(squares, usize::from(end)) - entry_at(squares, usize::from(first));
        CellSums {
            count: n,
            x,
            y: n * y,
            xx,
            xy: x * y,
            yy: n * y * y,
        }
    }
}

// Why a region has no totals: refusal 6 or 7 with the lowest index of a run that breaks it (document 02, CR 8), or 8.
#[derive(Clone, Copy, Debug, PartialEq, Eq)]
pub enum RegionRefusal {
    BadRun(usize),
    OutOfOrder(usize),
    TooManyRuns,
}

impl RegionRefusal {
    // With one run more, which has this index: what was found first stays, but for a 7, which gives way to the first 6.
    fn with(self, run: Run, index: usize) -> RegionRefusal
        ensures { result ≡ refusal_with self index run }
    {
        match self {
            RegionRefusal::OutOfOrder(_) if run.is_bad() => RegionRefusal::BadRun(index),
            first => first,
        }
    }
}

impl Refusal for RegionRefusal {
    ghost numbered = { region_number };

    fn number(self) -> u32 {
        match self {
            RegionRefusal::BadRun(_) => 6,
            RegionRefusal::OutOfOrder(_) => 7,
            RegionRefusal::TooManyRuns => 8,
        }
    }
}

// The sums over cells: how many they are, then the sums of x, y, x², xy and y². No caller sees them.
#[derive(Clone, Copy)]
struct CellSums {
    count: i64,
    x: i64,
    y: i64,
    xx: i64,
    xy: i64,
    yy: i64,
}

impl CellSums {
    const NONE: CellSums = CellSums {
        count: 0,
        x: 0,
        y: 0,
        xx: 0,
        xy: 0,
        yy: 0,
    };

    // The bounds are those of 4,096 runs and of one run.
    fn plus(self, more: CellSums) -> CellSums
        requires sums { SumsWithin (2 ^ 22) (sums_of self) }
        requires more { SumsWithin (2 ^ 10) (sums_of more) }
        ensures { result ≡ held (plus_sums (sums_of self) (sums_of more)) }
    {
        CellSums {
            count: self.count + more.count,
            x: self.x + more.x,
            y: self.y + more.y,
            xx: self.xx + more.xx,
            xy: self.xy + more.xy,
            yy: self.yy + more.yy,
        }
    }

    // Document 02, CR 2: the totals of the ground under cells, by the sums over them.
    fn ground(self) -> Totals
        requires { SumsWithin (2 ^ 22) (sums_of self) }
        ensures { result ≡ ground_totals (sums_of self) }
    {
        Totals {
            a2: 2 * self.count,
            x6: 6 * self.x + 3 * self.count,
            y6: 6 * self.y + 3 * self.count,
            xx12: 12 * self.xx + 12 * self.x + 4 * self.count,
            xy24: 24 * self.xy + 12 * self.x + 12 * self.y + 6 * self.count,
            yy12: 12 * self.yy + 12 * self.y + 4 * self.count,
        }
    }
}

// The runs read so far: their number, the last of them, and what they have come to: the sums over their cells; or the index of the first run that breaks 6, or of
// the first that breaks 7 where none breaks 6.
#[derive(Clone, Copy)]
struct Scan {
    count: usize,
    last: Run,
    found: Result<CellSums, RegionRefusal>,
}

impl Scan {
    // Before the first run. Every run lies after an empty one at row 0, column 0, so the first needs no test of its own.
    fn of_no_runs() -> Scan
        ensures { result ≡ no_runs }
    {
        Scan {
            count: 0,
            last: Run {
                row: 0,
                first: 0,
                length: 0,
            },
            found: Ok(CellSums::NONE),
        }
    }

    // What all have come to with one run more.
    fn found_with(self, run: Run, squares: &SquareSums) -> Result<CellSums, RegionRefusal>
        requires { HasRoom self }
        ensures { result ≡ found_with self.found self.count self.last run }
    {
        match self.found {
            Ok(sums) => {
                if run.is_bad() {
                    return Err(RegionRefusal::BadRun(self.count));
                }
                if !run.lies_after(self.last) {
                    return Err(RegionRefusal::OutOfOrder(self.count));
                }
                Ok(sums.plus(run.sums(squares.table())))
            }
            Err(refusal) => Err(refusal.with(run, self.count)),
        }
    }

    fn with(self, run: Run, squares: &SquareSums) -> Scan
        requires { HasRoom self }
        ensures { result ≡ add_run self run }
    {
        Scan {
            count: self.count + 1,
            last: run,
            found: self.found_with(run, squares),
        }
    }

    // The answer, once all runs are read.
    fn answer(self) -> Result<Totals, RegionRefusal>
        requires { SumsSmall self.found }
        ensures { result ≡ answer_of self.found }
    {
        Ok(self.found?.ground())
    }
}

// The six totals of the ground under the region that the runs make up, or why it has none. The annex is made once and lent.
pub fn region_totals(runs: &[Run]) -> Result<Totals, RegionRefusal>
    ensures { reading result ≡ region_call runs.now }
{
    if 4096 < runs.len() {
        return Err(RegionRefusal::TooManyRuns);
    }
    let squares = SquareSums::new();
    let mut scan = Scan::of_no_runs();
    for run in runs {
        scan = scan.with(*run, &squares);
    }
    scan.answer()
}
