// A refusal: why a card, a table, a line or a set of spans gets no answer, and where. Each has a number and a place, by which users
// know it (docs/CARDS.md, "When the reader refuses"). No loop, no stack to speak of.
#![tactic(auto)]

ghost use Rattle.std.specs.Prelude.{◌≡◌};
ghost use Rattle.refusal.specs.declared.Refusal.TheVariants.{WrongCard};
ghost use Rattle.refusal.specs.Numbers.{number_of, line_of, place_of};

// One of the two lines of a card, by its place.
#[derive(Clone, Copy)]
pub enum CardLine {
    First = 1,
    Second = 2,
}

#[derive(Clone, Copy)]
pub enum Refusal {
    // More variables than a card may have.
    Variables,
    // A pattern of more bytes than a card may have.
    LongPattern,
    // A text that is no pattern. place: the bytes before the first that cannot stand there.
    NoPattern { place: u32 },
    // Brackets that are too deep.
    Nesting,
    // Too many steps.
    Steps,
    // A room that is too short for the table. needed: the words of the table.
    ShortRoom { needed: u32 },
    // Words that are no table.
    WrongTable,
    // A line of more bytes than are read.
    LongLine,
    // Six numbers that are no set of spans of the line.
    NoSpans,
    // A card of the wrong form. line: the first line that is wrong.
    WrongCard { line: CardLine },
}

// So that `?` makes the refusal of a card of the line that is wrong.
impl From<CardLine> for Refusal {
    ghost from_gives = { λ line refusal. refusal ≡ WrongCard line };

    fn from(line: CardLine) -> Refusal {
        Self::WrongCard { line }
    }
}

impl CardLine {
    pub fn place(self) -> u32
        ensures { result ≡ line_of self }
    {
        self as u32
    }
}

impl Refusal {
    pub fn number(self) -> u32
        ensures { result ≡ number_of self }
    {
        match self {
            Refusal::Variables => 1,
            Refusal::LongPattern => 2,
            Refusal::NoPattern { place: _ } => 3,
            Refusal::Nesting => 4,
            Refusal::Steps => 5,
            Refusal::ShortRoom { needed: _ } => 6,
            Refusal::WrongTable => 7,
            Refusal::LongLine => 8,
            Refusal::NoSpans => 9,
            Refusal::WrongCard { line: _ } => 10,
        }
    }

    // 0 where the number says all.
    pub fn place(self) -> u32
        ensures { result ≡ place_of self }
    {
        match self {
            Refusal::NoPattern { place } => place,
            Refusal::ShortRoom { needed } => needed,
            Refusal::WrongCard { line } => line.place(),
            _ => 0,
        }
    }
}
