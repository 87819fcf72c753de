// Sets of states by themselves.
use crate::build::edited;
use records::target::StateSet;
use std::io;

// A label, the bytes of a set of states, and how many states the game has.
struct Case(&'static str, &'static [u8], u16);

const CASES: [Case; 25] = [
    Case("empty", &[0, 0, 0, 0], 4),
    Case("of 3", &[1, 0, 0, 0, 8], 4),
    Case("of all", &[1, 0, 0, 0, 15], 4),
    Case("of 4", &[1, 0, 0, 0, 16], 4),
    Case("of 0 and 4", &[1, 0, 0, 0, 17], 4),
    Case("of 4 among 5", &[1, 0, 0, 0, 16], 5),
    Case("of 8", &[2, 0, 0, 0, 1], 4),
    Case("of 248", &[0, 0, 0, 128, 1], 4),
    Case("with a zero group", &[1, 0, 0, 0, 0], 4),
    Case("with a zero group past the states", &[2, 0, 0, 0, 0], 4),
    Case("of 3 and a byte", &[1, 0, 0, 0, 8, 0], 4),
    Case("of 3 twice", &[1, 0, 0, 0, 8, 1, 0, 0, 0, 8], 4),
    Case("empty and a byte", &[0, 0, 0, 0, 0], 4),
    Case("of no bytes", &[], 4),
    Case("cut to 1", &[1], 4),
    Case("cut to 2", &[1, 0], 4),
    Case("cut to 3", &[0, 0, 0], 4),
    Case("cut to 4", &[1, 0, 0, 0], 4),
    Case("with two groups cut to 5", &[3, 0, 0, 0, 8], 12),
    Case("with a zero group and a byte", &[1, 0, 0, 0, 0, 8], 4),
    Case("with a zero group and one outside", &[3, 0, 0, 0, 0, 8], 4),
    Case("with one outside and a zero group", &[3, 0, 0, 0, 16, 0], 4),
    Case("of some of 256", &[1, 2, 0, 128, 32, 2, 129], 256),
    Case("of 0 among 1", &[1, 0, 0, 0, 1], 1),
    Case("of 1 among 1", &[1, 0, 0, 0, 2], 1),
];

// Prints the states of a set.
fn print_set(rt: &impl Print, set: &StateSet) -> io::Result<()> {
    print!(rt; "{{")?;
    for (k, state) in (0..260).filter(|state| set.contains(*state)).enumerate() {
        let gap = if k > 0 { " " } else { "" };
        print!(rt; "{gap}{state}")?;
    }
    print!(rt; "}}")
}

// Reads a set, and prints what came.
fn read(rt: &impl Print, label: &str, bytes: &[u8], states: u16) -> io::Result<()> {
    print!(rt; "target {label}: ")?;
    match StateSet::read(bytes, states) {
        Ok(set) => {
            print!(rt; "ok ")?;
            print_set(rt, &set)?;
        }
        Err(refusal) => print!(rt; "{refusal}")?,
    }
    println!(rt; "")
}

// Reads a set from so many zero bytes.
fn read_zeros(rt: &HostRuntime, label: &str, length: usize) -> io::Result<()> {
    let bytes = edited(rt.alloc(), &[], length, &[])?;
    read(rt, label, bytes.as_slice(), 4)
}

// How many states a set has.
fn size(set: &StateSet) -> usize {
    (0..260).filter(|state| set.contains(*state)).count()
}

// The set of all of 256 states.
fn read_full(rt: &impl Print) -> io::Result<()> {
    print!(rt; "target of 256: ")?;
    match StateSet::read(&[255; 36], 256) {
        Ok(set) => {
            let size = size(&set);
            let last = set.contains(255);
            let past = set.contains(256);
            let far = set.contains(65535);
            println!(rt; "ok, size {size}, 255 {last}, 256 {past}, 65535 {far}")
        }
        Err(refusal) => println!(rt; "{refusal}"),
    }
}

pub fn targets(rt: &HostRuntime) -> io::Result<()> {
    for Case(label, bytes, states) in &CASES {
        read(rt, label, bytes, *states)?;
    }
    read_zeros(rt, "of 60000 zero bytes", 60000)?;
    read_zeros(rt, "of 60001 zero bytes", 60001)?;
    read_full(rt)?;
    read(rt, "of 256 among 255", &[255; 36], 255)
}
