// The longest runs of a mask one after another, by positions: bit i of word k is position 64 k + i, so a row has 1,024 positions.
ghost use Rattle.std.specs.Prelude.{◌≡◌, ◌*◌, ◌-◌, ◌≤◌, ◌++◌, length, take, drop};
ghost use Rattle.word_runs.specs.Bits.{wanted};
ghost use Rattle.word_runs.specs.private.WordList.{first_bit};
ghost use Rattle.mask_cells.specs.MaskCells.{longest_runs};
ghost use Rattle.masks.specs.private.Scan.{next_run, counted_runs};

use crate::mask::Mask;
use cells::Run;
use word_runs::first_bit;

// A run, and the position behind it, where the search for the next one begins.
#[derive(Clone, Copy)]
pub(crate) struct Found {
    pub(crate) run: Run,
    pub(crate) next: usize,
}

// The first set or clear bit of whole words, from word `first` on; the position behind the last word where there is none.
fn next_of_words(words: &[u64], first: usize, set: bool) -> usize
    requires words_bound { length words.now ≤ 16384 }
    requires first_bound { first ≤ length words.now }
    ensures { result ≡ first_bit (wanted set) words.now (64 * length words.now - 64 * first) (64 * first) }
{
    for k in first..words.len() {
        if let Some(place) = first_bit(words[k], 0, set) {
            return k * 64 + place as usize;
        }
    }
    words.len() * 64
}

// The same from a position within a word: the rest of that word first. Time goes by the number of words.
fn next_bit(words: &[u64], from: usize, set: bool) -> usize
    requires { length words.now ≤ 16384 }
    ensures { result ≡ first_bit (wanted set) words.now (64 * length words.now - from) from }
{
    let k = from / 64;
    if words.len() <= k {
        return from;
    }
    if let Some(place) = first_bit(words[k], (from % 64) as u32, set) {
        return k * 64 + place as usize;
    }
    next_of_words(words, k + 1, set)
}

// The first longest run from `at` on, a position that does not lie inside a run.
pub(crate) fn next_run(mask: Mask, at: usize) -> Option<Found>
    ensures { result ≡ next_run mask.entry.words.now at }
{
    let words = mask.words;
    let start = next_bit(words, at, true);
    if words.len() * 64 <= start {
        return None;
    }
    let row = start / 1024;
    let next = next_bit(&words[..row * 16 + 16], start, false);
    let run = Run {
        row: row as u32,
        first: (start % 1024) as u32,
        length: (next - start) as u32,
    };
    Some(Found { run, next })
}

// How many runs there are; the count ends at one more than `most`.
pub(crate) fn count_runs(mask: Mask, most: usize) -> usize
    requires { most ≤ 4096 }
    ensures { result ≡ counted_runs mask.entry.words.now most }
{
    let mut at = 0;
    for count in 0..most + 1 {
        match next_run(mask, at) {
            Some(found) => at = found.next,
            None => return count,
        }
    }
    most + 1
}

// The first of the runs, as many as the list has places; past the last run it stays.
pub(crate) fn write_runs(mask: Mask, runs: &mut [Run])
    ensures { runs.new ≡ take (length runs.old) (longest_runs mask.entry.words.now) ++ drop (length (longest_runs mask.entry.words.now)) runs.old }
{
    let mut at = 0;
    for run in runs.iter_mut() {
        let Some(found) = next_run(mask, at) else {
            return;
        };
        *run = found.run;
        at = found.next;
    }
}
