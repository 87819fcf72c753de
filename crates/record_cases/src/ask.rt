// Questions to sources.
// Label and source are no struct: a source is printed under several labels, and some calls take two sources.
use game::player::Player;
use game::source::Source;
use std::io;

// Prints all four questions on a state, two moves and a member.
pub fn ask<S: Source>(
    rt: &impl Print,
    label: &str,
    source: &S,
    (state, a, b, k): (u16, u8, u8, u16),
) -> io::Result<()> {
    let first = source.moves(Player::One, state);
    let second = source.moves(Player::Two, state);
    let size = source.support_size(state, a, b);
    let member = source.member(state, a, b, k);
    print!(rt; "{label}, asked {state} {a} {b} {k}: ")?;
    println!(rt; "moves {first} {second}, size {size}, member {member}")
}

// Prints a line for each of some questions.
pub fn ask_all<S: Source>(
    rt: &impl Print,
    label: &str,
    source: &S,
    questions: &[(u16, u8, u8, u16)],
) -> io::Result<()> {
    for question in questions {
        ask(rt, label, source, *question)?;
    }
    Ok(())
}

// Prints the members of the support of two moves, if it has any.
fn print_support<S: Source>(
    rt: &impl Print,
    source: &S,
    state: u16,
    a: u8,
    b: u8,
) -> io::Result<()> {
    let size = source.support_size(state, a, b);
    if size == 0 {
        return Ok(());
    }
    print!(rt; "; {a} {b} to {{")?;
    for k in 0..size {
        let member = source.member(state, a, b, k);
        let gap = if k > 0 { " " } else { "" };
        print!(rt; "{gap}{member}")?;
    }
    print!(rt; "}}")
}

// Prints the row of a state.
fn print_row<S: Source>(rt: &impl Print, label: &str, source: &S, state: u16) -> io::Result<()> {
    let first = source.moves(Player::One, state);
    let second = source.moves(Player::Two, state);
    print!(rt; "{label}, state {state}: moves {first} {second}")?;
    for a in 0..8 {
        for b in 0..8 {
            print_support(rt, source, state, a, b)?;
        }
    }
    println!(rt; "")
}

// Prints a line for each state.
pub fn print_rows<S: Source>(rt: &impl Print, label: &str, source: &S) -> io::Result<()> {
    for state in 0..source.states() {
        print_row(rt, label, source, state)?;
    }
    Ok(())
}
