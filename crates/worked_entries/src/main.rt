// Entries of a receiver's file (document 02, CR 9), run through the proved functions: fixes as points, a walk told call by call, and a walk that is full. Each prints a row:
// label, what was asked, number of the refusal (0 where accepted) and values, separated by tabs, as second/worked_entries.py prints them too.
#![tactic(auto)]

mod calls;
mod draws;
mod fix_rows;
mod floats;
mod full_walk;
mod show;
mod walk_rows;

fn main(rt: HostRuntime) {
    fix_rows::fix_rows(&rt);
    walk_rows::call_rows(&rt);
    walk_rows::full_rows(&rt);
}
