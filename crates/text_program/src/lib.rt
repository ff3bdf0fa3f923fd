// What is carried from one chunk of the input to the next: whole lines and their bytes so far, bytes of the present line that are
// gone because it is too long for any form, whether reading has ended (10), whether the S line is written, and the walk.
#![tactic(auto)]

#[derive(Clone, Copy)]
pub struct State {
    pub lines: u32,
    pub bytes: u32,
    pub gone: u32,
    pub ended: bool,
    pub written: bool,
    pub walk: outline::Walk,
}
