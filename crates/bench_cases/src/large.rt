// Games of 256 states.
use crate::calls::{Edit, Question, ask, make_edits};
use crate::games::{bench_on, line, stairs};
use crate::replies::print_replies;
use crate::verdicts::print_tally;
use game::mode::Mode;
use std::io;

const QUESTIONS: [Question; 13] = [
    Question::Verdict(Mode::Sure, 0),
    Question::Verdict(Mode::Sure, 1),
    Question::Verdict(Mode::Sure, 255),
    Question::Verdict(Mode::Almost, 2),
    Question::Verdict(Mode::Almost, 255),
    Question::Verdict(Mode::Sure, 256),
    Question::Moves(Mode::Sure, 255),
    Question::Moves(Mode::Almost, 255),
    Question::Moves(Mode::Almost, 256),
    Question::Reply(255, 0),
    Question::Reply(256, 0),
    Question::Begin(255),
    Question::Begin(256),
];

// Makes the edits on a new bench, solves, and asks about some states.
fn solve(rt: &impl Print, name: &str, record: &[u8], edits: &[Edit]) -> io::Result<()> {
    let mut bench = bench_on(record);
    make_edits(rt, name, &mut bench, edits)?;
    print_tally(rt, name, &mut bench)?;
    ask(rt, name, &bench, &QUESTIONS)?;
    print_replies(rt, name, &bench)
}

pub fn games(rt: &HostRuntime) -> io::Result<()> {
    let record = line(rt.alloc())?;
    let ends = [Edit::Mark(256), Edit::Mark(255)];
    solve(rt, "line to 0", record.as_slice(), &[Edit::Mark(0)])?;
    solve(rt, "line to 255", record.as_slice(), &ends)?;
    let record = stairs(rt.alloc())?;
    solve(rt, "stairs", record.as_slice(), &[Edit::Mark(0)])
}
