// Cases that solve a bench once.
use crate::calls::{Edit, make_edits};
use crate::games::bench_on;
use crate::replies::print_replies;
use crate::verdicts::print_solved;
use bench::bench::Bench;
use game::source::Source;
use std::io;

// A name, a record, and the edits that are made before the bench is solved.
pub struct Case(pub &'static str, pub &'static [u8], pub &'static [Edit]);

// Makes the edits, solves, prints all verdicts, and tries all replies.
pub fn solve<S: Source>(
    rt: &impl Print,
    name: &str,
    bench: &mut Bench<S>,
    edits: &[Edit],
) -> io::Result<()> {
    make_edits(rt, name, bench, edits)?;
    print_solved(rt, name, bench)?;
    print_replies(rt, name, bench)
}

pub fn solve_all(rt: &impl Print, cases: &[Case]) -> io::Result<()> {
    for Case(name, record, edits) in cases {
        let mut bench = bench_on(record);
        solve(rt, name, &mut bench, edits)?;
    }
    Ok(())
}
