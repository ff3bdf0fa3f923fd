// Document 02, CR 1 and CR 2: masks of 64-bit words, 16 to a row. `mask_totals` answers the totals of the ground under the marked cells, `mask_runs` writes the
// longest runs. Time goes by the number of words and of runs, not of cells.
#![tactic(auto)]

ghost use Rattle.std.specs.Prelude.{◌≡◌, false};
ghost use Rattle.outline.specs.EdgeSums.{plus, exceed, outline_bounds};
ghost use Rattle.cell_ground.specs.Ground.{ground_of};
ghost use Rattle.mask_cells.specs.MaskCells.{marked_cells};
ghost use Rattle.mask_cells.specs.MaskCalls.{mask_totals_call, mask_runs_call};
ghost use Rattle.masks.specs.MaskAnswers.{length_number, runs_number, totals_reading, runs_reading};
ghost use Rattle.masks.specs.private.Scan.{to_write};

mod mask;
mod rows;
mod scan;

use cells::Run;
use mask::Mask;
use outline::{Totals, ZEROS};
use refusals::Refusal;
use square_table::SquareSums;

// The mask is no whole number of rows, or has more than 1,024.
#[derive(Clone, Copy, Debug, PartialEq, Eq)]
pub struct WrongLength;

impl Refusal for WrongLength {
    ghost numbered = { length_number };

    fn number(self) -> u32 {
        31
    }
}

// Why no run of a mask is written.
#[derive(Clone, Copy, Debug, PartialEq, Eq)]
pub enum MaskRunsRefusal {
    WrongLength,
    TooManyRuns,
}

impl Refusal for MaskRunsRefusal {
    ghost numbered = { runs_number };

    fn number(self) -> u32 {
        match self {
            MaskRunsRefusal::WrongLength => 31,
            MaskRunsRefusal::TooManyRuns => 8,
        }
    }
}

impl From<WrongLength> for MaskRunsRefusal {
    ghost from_gives = { λ _ refusal. runs_number refusal ≡ 31 };

    fn from(_refusal: WrongLength) -> MaskRunsRefusal {
        MaskRunsRefusal::WrongLength
    }
}

// Within the bounds every sum fits.
fn add_totals(s: Totals, t: Totals) -> Totals
    requires s_value { exceed outline_bounds s ≡ false }
    requires t_value { exceed outline_bounds t ≡ false }
    ensures { result ≡ plus s t }
{
    Totals {
        a2: s.a2 + t.a2,
        x6: s.x6 + t.x6,
        y6: s.y6 + t.y6,
        xx12: s.xx12 + t.xx12,
        xy24: s.xy24 + t.xy24,
        yy12: s.yy12 + t.yy12,
    }
}

// The totals of the ground under the marked cells, row by row. The table of square sums is built once.
fn ground(mask: Mask) -> Totals
    ensures { result ≡ ground_of (marked_cells mask.entry.words.now) }
{
    let squares = SquareSums::new();
    let mut totals = ZEROS;
    for y in 0..mask.words.len() / 16 {
        let row = &mask.words[y * 16..y * 16 + 16];
        totals = add_totals(totals, rows::totals_of_row(row, y, &squares));
    }
    totals
}

// The six totals of the ground under the marked cells.
pub fn mask_totals(words: &[u64]) -> Result<Totals, WrongLength>
    ensures { totals_reading result ≡ mask_totals_call words.now }
{
    let mask = Mask::new(words)?;
    Ok(ground(mask))
}

// How many runs are to be written to a list that holds `held`: all are counted before the first is written.
#[tactic(auto, using(crate::proofs::Written::too_many_runs, crate::proofs::Written::all_runs))]
fn runs_to_write(mask: Mask, held: usize) -> Result<usize, MaskRunsRefusal>
    ensures { result ≡ to_write mask.entry.words.now held }
{
    let most = held.min(4096);
    let count = scan::count_runs(mask, most);
    if most < count {
        return Err(MaskRunsRefusal::TooManyRuns);
    }
    Ok(count)
}

// The longest runs of the marked cells, written to the front of the caller's list.
pub fn mask_runs(words: &[u64], runs: &mut [Run]) -> Result<usize, MaskRunsRefusal>
    ensures { runs_reading result runs.new ≡ mask_runs_call words.now runs.old }
{
    let mask = Mask::new(words)?;
    let count = runs_to_write(mask, runs.len())?;
    scan::write_runs(mask, &mut runs[..count]);
    Ok(count)
}
