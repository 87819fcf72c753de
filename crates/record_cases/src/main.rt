// Known cases of reading, writing and monitoring. Each prints a line; the file `stdout` has what is expected.
#![tactic(auto)]

use std::io;

mod ask;
mod build;
mod compare;
mod damage;
mod games;
mod large;
mod monitors;
mod open;
mod products;
mod show;
mod small;
mod targets;
mod writing;

fn main(rt: HostRuntime) -> io::Result<()> {
    small::one_state(&rt)?;
    small::hide(&rt)?;
    damage::faults(&rt)?;
    large::lengths(&rt)?;
    large::limit_game(&rt)?;
    large::wide_game(&rt)?;
    targets::targets(&rt)?;
    writing::tables(&rt)?;
    writing::crowds(&rt)?;
    monitors::ring_85(&rt)?;
    monitors::rings(&rt)?;
    products::hide(&rt)?;
    products::monitored_twice(&rt)
}
