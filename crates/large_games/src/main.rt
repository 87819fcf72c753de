// Builds large games in memory as records, opens and solves them, and prints a digest of the verdicts.
// The arguments name the games to run, in order; without any, all of them are run.
#![tactic(auto)]

use games::{Large, NoGame};
use report::print_game;
use std::alloc::Global;
use std::env;

mod build;
mod games;
mod report;
mod wide;

fn print_named(rt: &HostRuntime, name: &str) -> anyhow::Result<()> {
    match name.parse() {
        Ok(large) => print_game(rt, large)?,
        Err(NoGame) => println!(rt; "no game {name}")?,
    }
    Ok(())
}

fn run(rt: &HostRuntime) -> anyhow::Result<()> {
    let mut names = env::args(rt)?.skip(1).peekable();
    if names.peek().is_none() {
        for large in [Large::Chain, Large::Rounds, Large::Wide] {
            print_game(rt, large)?;
        }
    }
    for name in names {
        print_named(rt, name.as_str())?;
    }
    Ok(())
}

fn main(rt: HostRuntime) -> anyhow::Result<()> {
    run(&rt)
}
