// Known cases of the bench and of plays. Each prints a line or a few; the file `stdout` has what is expected.
#![tactic(auto)]

use std::io;

mod calls;
mod cases;
mod edits;
mod games;
mod guided;
mod held;
mod known;
mod large;
mod monitored;
mod plays;
mod questions;
mod replies;
mod rounds;
mod show;
mod verdicts;

fn main(rt: HostRuntime) -> io::Result<()> {
    known::games(&rt)?;
    known::targets(&rt)?;
    known::bars(&rt)?;
    large::games(&rt)?;
    questions::unsolved(&rt)?;
    questions::solved(&rt)?;
    edits::refused(&rt)?;
    edits::accepted(&rt)?;
    monitored::once(&rt)?;
    monitored::twice(&rt)?;
    plays::scripts(&rt)?;
    plays::edited(&rt)?;
    plays::other_bench(&rt)?;
    plays::full(&rt)?;
    guided::plays(&rt)
}
