// Layer 2, terms: what the later layers speak in: ranks, refusals, stop reasons, the two kinds of tree, the test of a signature's length, and the writing of a
// result into lent room.
#![tactic(auto)]

ghost use Rattle.std.specs.Prelude.{◌≡◌};
ghost use Rattle.trees.specs.Signature.{width};
ghost use Rattle.terms.specs.Faults.{number_of, refusal_at, tested};
ghost use Rattle.terms.specs.Kinds.{any_name, kind_of, most};
ghost use Rattle.terms.specs.Length.{length_fault};
ghost use Rattle.terms.specs.Room.{room_for};
ghost use Rattle.terms.specs.Stops.{refused_first};

// A rank in the order in which elements open, counted from 1; 0 stands for none.
#[derive(Clone, Copy)]
pub struct PreRank(pub u16);

// A rank in the order in which elements close, counted from 1; 0 stands for none.
#[derive(Clone, Copy)]
pub struct PostRank(pub u16);

// Document 01's faults, in the order of their numbers. Only `number` looks at all of them, so that a later one breaks no other match.
#[derive(Clone, Copy)]
pub enum Fault {
    Cut,
    UnknownMark,
    Nameless,
    NotOpen,
    WrongPost,
    WrongFf,
    TooMany,
    BadArgument,
    BadState,
    NoRoom,
    BadPointer,
    BadNesting,
}

impl Fault {
    // The number that document 01 gives it.
    pub fn number(self) -> u16
        ensures { result ≡ number_of self }
    {
        match self {
            Fault::Cut => 1,
            Fault::UnknownMark => 2,
            Fault::Nameless => 3,
            Fault::NotOpen => 4,
            Fault::WrongPost => 5,
            Fault::WrongFf => 6,
            Fault::TooMany => 7,
            Fault::BadArgument => 8,
            Fault::BadState => 9,
            Fault::NoRoom => 10,
            Fault::BadPointer => 11,
            Fault::BadNesting => 12,
        }
    }

    // The refusal with this fault that names this entry.
    pub fn at(self, entry: u16) -> Refusal
        ensures { result ≡ refusal_at self entry }
    {
        Refusal {
            number: self.number(),
            entry: PreRank(entry),
        }
    }
}

// A refusal as it is told: its number, and the entry that it names, or 0. The number is no `Fault`: `told_stop` of checked/specs/Apart speaks of every
// number, and the demands over any call must rule out a program that invents one.
#[derive(Clone, Copy)]
pub struct Refusal {
    pub number: u16,
    pub entry: PreRank,
}

impl From<Fault> for Refusal {
    ghost from_gives = { λ f r. r ≡ refusal_at f 0 };

    // A refusal that names no entry.
    fn from(fault: Fault) -> Refusal {
        fault.at(0)
    }
}

// What stopped a turn.
#[derive(Clone, Copy)]
pub enum Stop {
    Answer,
    End,
    Budget,
    Refused(Refusal),
}

// What a turn hands back: the saved state after its last step, how many steps it took, and what stopped it.
#[derive(Clone, Copy)]
pub struct Turn<S> {
    pub state: S,
    pub steps: u64,
    pub stop: Stop,
}

impl<S> Turn<S> {
    // A turn that was refused before its first step: the state is as it was given.
    pub fn refused(state: S, refusal: Refusal) -> Self
        ensures { result ≡ refused_first state refusal }
    {
        Turn {
            state,
            steps: 0,
            stop: Stop::Refused(refusal),
        }
    }
}

// The two kinds of tree: they differ in their greatest size and in whether name 0 is allowed.
#[derive(Clone, Copy)]
pub enum Kind {
    Data,
    Twig,
}

impl Kind {
    // Whether name 0 is allowed.
    pub fn any_name(self) -> bool
        ensures { result ≡ any_name self }
    {
        match self {
            Kind::Data => false,
            Kind::Twig => true,
        }
    }

    // The greatest number of elements.
    pub fn most(self) -> u16
        ensures { result ≡ most self }
    {
        match self {
            Kind::Data => 4096,
            Kind::Twig => 16,
        }
    }
}

impl From<u16> for Kind {
    ghost from_gives = { λ number kind. kind ≡ kind_of number };

    // The kind that a number names: 0 a data tree, any other number a twig.
    fn from(number: u16) -> Kind {
        if number == 0 { Kind::Data } else { Kind::Twig }
    }
}

// Copies numbers to the front of the room. A room that is too short for them is left alone.
#[tactic(auto, unfolding(crate::specs::Room::room_for))]
pub fn give(numbers: &[u16], room: &mut [u16]) -> Result<(), Fault>
    ensures answer { tested result ≡ (room_for room.old numbers.now).answer.number }
    ensures room { room.new ≡ (room_for room.old numbers.now).room }
{
    if room.len() < numbers.len() {
        return Err(Fault::NoRoom);
    }
    room[..numbers.len()].copy_from_slice(numbers);
    Ok(())
}

// The refusal of a signature of len numbers by its length alone.
pub fn test_length(kind: Kind, len: usize) -> Result<(), Fault>
    ensures { tested result ≡ length_fault (most kind) width len }
{
    if (len == 0) | (len % 4 != 0) {
        Err(Fault::Cut)
    } else if (kind.most() as usize) < len / 4 {
        Err(Fault::TooMany)
    } else {
        Ok(())
    }
}
