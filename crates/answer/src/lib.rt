// The answers, and what is handed back under each. No other crate ties a number to its meaning.
#![tactic(auto)]

ghost use Rattle.std.specs.Prelude.{◌≡◌};
ghost use Rattle.answer.specs.Handed.{handed};

use bounds::Count;

// A case for each row of the table "Numbers handed back", in its order, with what its count or place is.
#[derive(Clone, Copy, Debug, PartialEq, Eq)]
pub enum Answer {
    Solved(Count),
    EndsEarly(usize),
    WrongMark,
    WrongVersion,
    OverBound(usize),
    NotAllowed(usize),
    BytesAfter(usize),
    OutputShort(usize),
    Nothing(Count),
    Budget(Count),
}

#[derive(Clone, Copy, Debug, PartialEq, Eq)]
pub struct Handed {
    pub number: u32,
    pub count: Count,
    pub place: usize,
}

impl From<Answer> for Handed {
    ghost from_gives = { λ a r. r ≡ handed a };

    fn from(a: Answer) -> Handed {
        let (number, count, place) = match a {
            Answer::Solved(nodes) => (0, nodes, 0),
            Answer::EndsEarly(at) => (1, 0, at),
            Answer::WrongMark => (2, 0, 0),
            Answer::WrongVersion => (3, 0, 3),
            Answer::OverBound(at) => (4, 0, at),
            Answer::NotAllowed(at) => (5, 0, at),
            Answer::BytesAfter(at) => (6, 0, at),
            Answer::OutputShort(room) => (7, 0, room),
            Answer::Nothing(nodes) => (8, nodes, 0),
            Answer::Budget(nodes) => (9, nodes, 0),
        };
        Handed {
            number,
            count,
            place,
        }
    }
}
