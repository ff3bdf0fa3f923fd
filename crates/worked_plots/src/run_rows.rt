// A list of five runs that is mended run by run, each time at the index answered (document 02, CR 8), each state of it a row; then the whole array of 4,097 runs.
ghost use Rattle.std.specs.Prelude.{◌≡◌, replicate};
ghost use Rattle.cells.specs.RegionCall.{region_call, reading};

use crate::show::{end_row, show, show_label, show_run, show_totals};
use cells::{RegionRefusal, Run};
use outline::Totals;
use outline_answers::totals_of;
use refusals::Answer;
use region_array::region_totals_of;
use region_replies::index_of_region;

// The answer for five runs, out of an array for 4,097.
fn region_of_five(five: [Run; 5]) -> Result<Totals, RegionRefusal>
    ensures { reading result ≡ region_call five }
{
    let mut runs = [five[0]; 4097];
    runs[..5].copy_from_slice(&five);
    region_totals_of(runs, 5)
}

// One run more than is allowed, all the same: the whole array.
fn region_of_array(run: Run) -> Result<Totals, RegionRefusal>
    ensures { reading result ≡ region_call (replicate 4097 run) }
{
    region_totals_of([run; 4097], 4097)
}

// What the call on runs answers, to the end of a row: number, index, six totals.
pub(crate) fn show_region(rt: &impl Print, answer: Result<Totals, RegionRefusal>) {
    show(rt, answer.number());
    show(rt, index_of_region(answer));
    show_totals(rt, totals_of(answer));
    end_row(rt);
}

// Asked: the five runs. Answered: number, index, six totals.
fn runs_row(rt: &impl Print, five: [Run; 5]) {
    show_label(rt, "runs");
    for run in &five {
        show_run(rt, *run);
    }
    show_region(rt, region_of_five(five));
}

// Asked: a run, which is listed 4,097 times. Answered: number, index, six totals.
fn array_row(rt: &impl Print, run: Run) {
    let answer = region_of_array(run);
    show_label(rt, "runs-4097");
    show_run(rt, run);
    show_region(rt, answer);
}

fn run_of(row: u32, first: u32, length: u32) -> Run
    ensures { result ≡ record { row = row; first = first; length = length } }
{
    Run { row, first, length }
}

// At first runs 1 and 2 break 7, and runs 3 and 4 break 6 (run 4 breaks 7 too).
pub(crate) fn run_rows(rt: &impl Print) {
    let empty = run_of(6, 0, 0);
    let mut runs = [
        run_of(5, 0, 3),
        run_of(5, 2, 1),
        run_of(4, 0, 1),
        run_of(1024, 0, 1),
        empty,
    ];
    runs_row(rt, runs);
    runs[3] = run_of(7, 4, 1);
    runs_row(rt, runs);
    runs[4] = run_of(8, 0, 2);
    runs_row(rt, runs);
    runs[1] = run_of(5, 3, 1);
    runs_row(rt, runs);
    runs[2] = run_of(6, 0, 1);
    runs_row(rt, runs);
    array_row(rt, empty);
}
