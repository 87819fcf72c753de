// Edits of a bench and questions to it, each printed with what came.
// Name and bench are no struct: a bench is printed under several names, and a round takes two benches.
use crate::show::AtRest;
use bench::bench::{Bench, Reply};
use bench::play::Play;
use game::mode::Mode;
use game::player::Player;
use game::refusal::Refusal;
use game::source::Source;
use std::{fmt, io};

// The enum `Call` of the crate `runs` holds the same edits and questions: with it, making an edit would have to refuse a question, and the
// other way round.
#[derive(Clone, Copy)]
pub enum Edit {
    Mark(u16),
    Unmark(u16),
    Bar(Player, u16, u8),
    Allow(Player, u16, u8),
}

impl Edit {
    fn make<S: Source>(&self, bench: &mut Bench<S>) -> Result<(), Refusal> {
        match *self {
            Edit::Mark(state) => bench.mark(state),
            Edit::Unmark(state) => bench.unmark(state),
            Edit::Bar(player, state, m) => bench.bar(player, state, m),
            Edit::Allow(player, state, m) => bench.allow(player, state, m),
        }
    }
}

impl fmt::Display for Edit {
    fn fmt<W: fmt::Write>(&self, f: &mut fmt::Formatter<W>) -> fmt::Result {
        match *self {
            Edit::Mark(state) => write!(f, "mark {state}"),
            Edit::Unmark(state) => write!(f, "unmark {state}"),
            Edit::Bar(player, state, m) => write!(f, "bar {player} {state} {m}"),
            Edit::Allow(player, state, m) => write!(f, "allow {player} {state} {m}"),
        }
    }
}

#[derive(Clone, Copy)]
pub enum Question {
    Verdict(Mode, u16),
    Moves(Mode, u16),
    Reply(u16, u8),
    Begin(u16),
}

// What a question is answered.
#[derive(Drop)]
enum Told {
    Rank(Option<u8>),
    Moves(u8),
    Countered(Reply),
    Begun(Play),
}

impl Question {
    fn put<S: Source>(&self, bench: &Bench<S>) -> Result<Told, Refusal> {
        match *self {
            Question::Verdict(mode, state) => bench.verdict(mode, state).map(Told::Rank),
            Question::Moves(mode, state) => bench.moves(mode, state).map(Told::Moves),
            Question::Reply(state, a) => bench.reply(state, a).map(Told::Countered),
            Question::Begin(state) => bench.begin(state).map(Told::Begun),
        }
    }
}

impl fmt::Display for Question {
    fn fmt<W: fmt::Write>(&self, f: &mut fmt::Formatter<W>) -> fmt::Result {
        match *self {
            Question::Verdict(mode, state) => write!(f, "verdict {mode} {state}"),
            Question::Moves(mode, state) => write!(f, "moves {mode} {state}"),
            Question::Reply(state, a) => write!(f, "reply {state} {a}"),
            Question::Begin(state) => write!(f, "begin {state}"),
        }
    }
}

impl fmt::Display for Told {
    fn fmt<W: fmt::Write>(&self, f: &mut fmt::Formatter<W>) -> fmt::Result {
        match self {
            Told::Rank(Some(rank)) => write!(f, "rank {rank}"),
            Told::Rank(None) => write!(f, "not winning"),
            Told::Moves(moves) => write!(f, "set {moves:02x}"),
            Told::Countered(reply) => write!(f, "{reply}"),
            Told::Begun(play) => write!(f, "{}", AtRest(play)),
        }
    }
}

// Whether a bench gives verdicts, as it is printed.
fn solved<S: Source>(bench: &Bench<S>) -> &'static str {
    if bench.verdict(Mode::Sure, 0).is_ok() {
        "solved"
    } else {
        "unsolved"
    }
}

// Makes an edit, and prints what came and whether the bench is solved then.
pub fn make_edit<S: Source>(
    rt: &impl Print,
    name: &str,
    bench: &mut Bench<S>,
    edit: Edit,
) -> io::Result<()> {
    print!(rt; "{name}: {edit}: ")?;
    match edit.make(bench) {
        Ok(()) => print!(rt; "done")?,
        Err(refusal) => print!(rt; "{refusal}")?,
    }
    println!(rt; "; {}", solved(bench))
}

// Makes some edits.
pub fn make_edits<S: Source>(
    rt: &impl Print,
    name: &str,
    bench: &mut Bench<S>,
    edits: &[Edit],
) -> io::Result<()> {
    for edit in edits {
        make_edit(rt, name, bench, *edit)?;
    }
    Ok(())
}

// Puts some questions, and prints what came.
pub fn ask<S: Source>(
    rt: &impl Print,
    name: &str,
    bench: &Bench<S>,
    questions: &[Question],
) -> io::Result<()> {
    for question in questions {
        match question.put(bench) {
            Ok(told) => println!(rt; "{name}: {question}: {told}")?,
            Err(refusal) => println!(rt; "{name}: {question}: {refusal}")?,
        }
    }
    Ok(())
}
