// A row: its label, then fields, each after a tab. What cannot be written is left out.
use cells::Run;
use outline::{Kind, Position, Totals};
use std::fmt::Display;

pub(crate) fn show_label(rt: &impl Print, label: &str) {
    let _ = print!(rt; "{label}");
}

pub(crate) fn show<T: Display + Copy>(rt: &impl Print, field: T) {
    let _ = print!(rt; "\t{field}");
}

pub(crate) fn show_word(rt: &impl Print, word: &str) {
    let _ = print!(rt; "\t");
    let _ = print!(rt; "{word}");
}

pub(crate) fn show_each(rt: &impl Print, fields: &[i64]) {
    for field in fields {
        show(rt, *field);
    }
}

// Its row, first column and length.
pub(crate) fn show_run(rt: &impl Print, run: Run) {
    show(rt, run.row);
    show(rt, run.first);
    show(rt, run.length);
}

pub(crate) fn show_position(rt: &impl Print, p: Position) {
    show(rt, p.x);
    show(rt, p.y);
}

pub(crate) fn show_kind(rt: &impl Print, kind: Kind) {
    match kind {
        Kind::Island => show_word(rt, "island"),
        Kind::Hole => show_word(rt, "hole"),
    }
}

pub(crate) fn show_totals(rt: &impl Print, t: Totals) {
    show_each(rt, &[t.a2, t.x6, t.y6, t.xx12, t.xy24, t.yy12]);
}

pub(crate) fn end_row(rt: &impl Print) {
    let _ = print!(rt; "\n");
}
