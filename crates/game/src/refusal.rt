// Why a call is refused.
ghost use Rattle.std.specs.Prelude.{◌≡◌, Some};
ghost use Rattle.game.specs.Refusals.{told, number, place};
ghost use Rattle.game.specs.Texts.{layer_text, fault_text, refusal_text};

use std::error::Error;
use std::fmt;

// The part of a record in which a fault stands.
#[derive(Clone, Copy, PartialEq, Eq, Debug)]
pub enum Layer {
    Set,
    Row,
    Record,
}

impl fmt::Display for Layer {
    ghost output = { λ layer. Some (layer_text layer) };

    fn fmt<W: fmt::Write>(&self, f: &mut fmt::Formatter<W>) -> fmt::Result {
        f.write_str(match self {
            Layer::Set => "set",
            Layer::Row => "row",
            Layer::Record => "record",
        })
    }
}

// Where a fault stands: its place in the bytes, its layer, and the state in whose row it stands, if it stands in a row.
#[derive(Clone, Copy, PartialEq, Eq, Debug)]
pub struct Fault {
    pub place: usize,
    pub layer: Layer,
    pub state: Option<u16>,
}

impl fmt::Display for Fault {
    ghost output = { λ fault. Some (fault_text fault) };

    fn fmt<W: fmt::Write>(&self, f: &mut fmt::Formatter<W>) -> fmt::Result {
        write!(f, "at {} in {}", self.place, self.layer)?;
        match self.state {
            Some(state) => write!(f, " state {state}"),
            None => Ok(()),
        }
    }
}

// The twenty-one causes, in the order of their numbers.
#[derive(Clone, Copy, PartialEq, Eq, Debug)]
pub enum Refusal {
    NoState(u16),
    NoMove(u8),
    AlreadySo,
    OnlyMove,
    Unsolved,
    NotWinning,
    SureState,
    NotKept(u8),
    NotSuccessor(u16),
    PlayFull,
    EndsEarly(Fault),
    ZeroGroup(Fault),
    EmptySupport(Fault),
    MemberOutside(Fault),
    ZeroMoves(Fault),
    BytesRemain(Fault),
    TooLong(Fault),
    MonitorStates,
    TooManyStates,
    MonitorTable(usize),
    ShortBuffer,
}

impl Refusal {
    // the number of the cause, 1 to 21; `From<Refusal> for u8` would be the same match under a name that says less
    pub fn number(&self) -> u8
        ensures { result ≡ number (told self.now) }
    {
        match self {
            Refusal::NoState(_) => 1,
            Refusal::NoMove(_) => 2,
            Refusal::AlreadySo => 3,
            Refusal::OnlyMove => 4,
            Refusal::Unsolved => 5,
            Refusal::NotWinning => 6,
            Refusal::SureState => 7,
            Refusal::NotKept(_) => 8,
            Refusal::NotSuccessor(_) => 9,
            Refusal::PlayFull => 10,
            Refusal::EndsEarly(_) => 11,
            Refusal::ZeroGroup(_) => 12,
            Refusal::EmptySupport(_) => 13,
            Refusal::MemberOutside(_) => 14,
            Refusal::ZeroMoves(_) => 15,
            Refusal::BytesRemain(_) => 16,
            Refusal::TooLong(_) => 17,
            Refusal::MonitorStates => 18,
            Refusal::TooManyStates => 19,
            Refusal::MonitorTable(_) => 20,
            Refusal::ShortBuffer => 21,
        }
    }

    // where the fault stands, of the causes 11 to 17
    pub fn fault(&self) -> Option<Fault>
        ensures { result ≡ place (told self.now) }
    {
        match self {
            Refusal::EndsEarly(f)
            | Refusal::ZeroGroup(f)
            | Refusal::EmptySupport(f)
            | Refusal::MemberOutside(f)
            | Refusal::ZeroMoves(f)
            | Refusal::BytesRemain(f)
            | Refusal::TooLong(f) => Some(*f),
            _ => None,
        }
    }
}

impl fmt::Display for Refusal {
    ghost output = { λ refusal. Some (refusal_text refusal) };

    fn fmt<W: fmt::Write>(&self, f: &mut fmt::Formatter<W>) -> fmt::Result {
        write!(f, "refused {}", self.number())?;
        match self {
            Refusal::NoState(state) | Refusal::NotSuccessor(state) => write!(f, " state {state}"),
            Refusal::NoMove(m) | Refusal::NotKept(m) => write!(f, " move {m}"),
            Refusal::MonitorTable(place) => write!(f, " at {place}"),
            _ => match self.fault() {
                Some(fault) => write!(f, " {fault}"),
                None => Ok(()),
            },
        }
    }
}

impl Error for Refusal {}
