// Masks of document 02, each a row: the totals of the ground under the marked cells, and the caller's list once its longest runs are written. Every record of the list is
// row 7, first column 8, length 9 before.
ghost use Rattle.std.specs.Prelude.{◌≡◌, ◌≤◌, []};
ghost use Rattle.masks.specs.MaskAnswers.{runs_reading};
ghost use Rattle.worked_plots.specs.Masks.{four_runs, one_run_more};

use crate::show::{end_row, show, show_label, show_run, show_totals};
use cells::Run;
use mask_array::mask_runs_of;
use masks::{MaskRunsRefusal, mask_totals};
use outline_answers::totals_of;
use refusals::Answer;

const RECORD_BEFORE: Run = Run {
    row: 7,
    first: 8,
    length: 9,
};

// Every other cell, from column 0 on.
const EVERY_OTHER: u64 = 0x5555_5555_5555_5555;

const TOP_BIT: u64 = 1 << 63;

// Four runs in two rows, one of them over the border of two words.
fn four_runs() -> [u64; 32]
    ensures { result ≡ four_runs }
{
    let mut words = [0; 32];
    words[0] = TOP_BIT + 1;
    words[1] = 3;
    words[15] = TOP_BIT;
    words[16] = 1;
    words
}

// Every other cell of eight rows, then one cell of row 8.
fn one_run_more() -> [u64; 144]
    ensures { result ≡ one_run_more }
{
    let mut words = [EVERY_OTHER; 144];
    words[128..].fill(0);
    words[128] = 1;
    words
}

fn show_records(rt: &impl Print, runs: &[Run]) {
    for run in runs {
        show_run(rt, *run);
    }
}

// How many runs an answer tells.
fn count_told(answer: Result<usize, MaskRunsRefusal>) -> usize
    ensures { result ≡ (runs_reading answer []).count }
{
    answer.unwrap_or(0)
}

// Asked: words. Answered: number, six totals.
fn totals_row(rt: &impl Print, words: &[u64]) {
    let answer = mask_totals(words);
    show_label(rt, "mask-totals");
    show(rt, words.len());
    show(rt, answer.number());
    show_totals(rt, totals_of(answer));
    end_row(rt);
}

// The writer and a list of `records`. Asked: words, records. Answered: number, how many were written, the records from `shown` on.
fn written_row(rt: &impl Print, label: &str, words: &[u64], records: usize, shown: usize)
    requires le_shown { shown ≤ records }
    requires records_bound { records ≤ 4097 }
{
    let reply = mask_runs_of(words, [RECORD_BEFORE; 4097], records);
    show_label(rt, label);
    show(rt, words.len());
    show(rt, records);
    show(rt, reply.answer.number());
    show(rt, count_told(reply.answer));
    show_records(rt, &reply.runs[shown..records]);
    end_row(rt);
}

// All records of a short list.
fn runs_row(rt: &impl Print, words: &[u64], records: usize)
    requires { records ≤ 4097 }
{
    written_row(rt, "mask-runs", words, records, 0);
}

// The last two records of a long list.
fn last_row(rt: &impl Print, words: &[u64], records: usize)
    requires le_records { 2 ≤ records }
    requires records_bound { records ≤ 4097 }
{
    written_row(rt, "mask-last", words, records, records - 2);
}

fn all_totals_rows(rt: &impl Print) {
    let four = four_runs();
    let more = one_run_more();
    let full = [u64::MAX; 16400];
    totals_row(rt, &four);
    totals_row(rt, &more[..128]);
    totals_row(rt, &more);
    totals_row(rt, &full[..0]);
    totals_row(rt, &full[..16384]);
    totals_row(rt, &full[..15]);
    totals_row(rt, &full[..17]);
    totals_row(rt, &full);
}

fn all_runs_rows(rt: &impl Print) {
    let four = four_runs();
    let more = one_run_more();
    let full = [u64::MAX; 16400];
    runs_row(rt, &four, 3);
    runs_row(rt, &four, 4);
    runs_row(rt, &four, 5);
    runs_row(rt, &full[..0], 0);
    runs_row(rt, &full[..15], 1);
    runs_row(rt, &full[..17], 0);
    last_row(rt, &more[..128], 4097);
    last_row(rt, &more, 4097);
    last_row(rt, &full[..16384], 1025);
    last_row(rt, &full, 1025);
}

pub(crate) fn mask_rows(rt: &impl Print) {
    all_totals_rows(rt);
    all_runs_rows(rt);
}
