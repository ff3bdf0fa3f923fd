// A row: its label, then fields, each after a tab. What cannot be written is left out.
use std::fmt::Display;

pub(crate) fn show_label(rt: &impl Print, label: &str) {
    let _ = rt.write_all(label.as_bytes());
}

pub(crate) fn show_word<T: Display + Copy>(rt: &impl Print, word: T) {
    let _ = rt.write_all(b"\t");
    let _ = print!(rt; "{word}");
}

pub(crate) fn show<T: Display + Copy>(rt: &impl Print, field: T) {
    let _ = print!(rt; "\t{field}");
}

pub(crate) fn end_row(rt: &impl Print) {
    let _ = rt.write_all(b"\n");
}
