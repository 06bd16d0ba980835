// The card's parser (01, "The pattern on the card"; number 3 of "Numbers, places and order of checks"). It builds the arcs as it goes:
// pattern, term, factor and atom call one another, the bytes left falling. A byte is looked at a few times, and each join of two parts
// passes twice over the 1,024 cells. Stack: 432 bytes for each open bracket, 320 for each factor of a term; 110 KB for 255 `(`.
#![tactic(auto)]

ghost use Rattle.std.specs.Prelude.{◌≡◌, ◌+◌, ◌-◌, ◌*◌, ◌≤◌, ◌<◌, max, length, get_or, true, false, MatchResult};
ghost use Rattle.pattern.specs.Bytes.{shown};
ghost use Rattle.pattern.specs.Grammar.{Pattern, Term, Factor, Atom};
ghost use Rattle.pattern.specs.Machine.{starts, digit};
ghost use Rattle.pattern.specs.Found.{AtomStop, FactorStop, TermStop, PatternStop};
ghost use Rattle.refusal.specs.declared.Refusal.TheVariants.{NoPattern};
ghost use Rattle.parser.specs.Brackets.{closed_by};
ghost use Rattle.parser.specs.Result.{Opens, Marks, Posted, Parses, Answers};
ghost use Rattle.parser.specs.Parts.{level, postfixed, beside, between};
ghost use Rattle.parser.specs.Grown.{numbered, Stepped, Entered, Left};

use grid::{CELLS, NO_ARC, STATES, STEPS};
use pattern::Class;
use refusal::Refusal;

// The words of the labels: two for each state, though the first takes no step.
pub const LABELS: usize = 2 * STATES;

// How many bytes there are: a label of a range has its two ends in one word, as the two digits of a number to this base.
const BYTES: u32 = 256;

// What a step does, numbered as in the words of a table, which this crate does not know.
#[derive(Clone, Copy)]
enum Kind {
    Reads = 0,
    Opens = 1,
    Closes = 2,
}

// A part of the text: the place after it, its steps, its nesting, and what is charged where it takes no step; the mark, a
// weight like any other and no flag, if it must take one.
#[derive(Clone, Copy)]
pub struct Part {
    pub next: usize,
    pub steps: usize,
    pub deep: usize,
    pub nul: u32,
}

impl Part {
    // A part with no bracket.
    fn level(next: usize, steps: usize, nul: u32) -> Part
        ensures { result ≡ level next steps nul }
    {
        Part {
            next,
            steps,
            deep: 0,
            nul,
        }
    }

    // The part goes on up to next, with another weight for no step.
    fn postfixed(self, next: usize, nul: u32) -> Part
        ensures { result ≡ postfixed self next nul }
    {
        Part { next, nul, ..self }
    }

    // Two parts side by side, with the weight of both for no step.
    fn beside(self, second: Part, nul: u32) -> Part
        requires { self.steps + second.steps ≤ 255 }
        ensures { result ≡ beside self second nul }
    {
        Part {
            next: second.next,
            steps: self.steps + second.steps,
            deep: self.deep.max(second.deep),
            nul,
        }
    }

    // What stands in a bracket, with the bracket's own step at each end.
    fn between(self, own: usize, nul: u32) -> Part
        requires { (self.next ≤ 255) × (self.steps ≤ 255) × (self.deep ≤ 255) × (own ≤ 1) }
        ensures { result ≡ between self own nul }
    {
        Part {
            next: self.next + 1,
            steps: own + self.steps + own,
            deep: 1 + self.deep,
            nul,
        }
    }
}

// A bracket, of a group or of a variable's capture.
#[derive(Clone, Copy)]
enum Bracket {
    Group,
    Capture { variable: u32 },
}

impl Bracket {
    fn close(self) -> u8
        ensures { result ≡ closed_by self }
    {
        match self {
            Bracket::Group => b')',
            Bracket::Capture { variable: _ } => b'}',
        }
    }
}

// What the first bytes of an atom are.
#[derive(Clone, Copy)]
enum Head {
    Byte { next: usize, argument: u32 },
    Empty { next: usize },
    Open { inside: usize, bracket: Bracket },
}

// The only refusal here.
fn no_pattern(place: usize) -> Refusal
    requires { place < 512 }
    ensures { result ≡ NoPattern place }
{
    Refusal::NoPattern {
        place: place as u32,
    }
}

// What has to hold at that place.
fn demand(holds: bool, place: usize) -> Result<(), Refusal>
    requires { place < 512 }
    ensures { MatchResult result (λ _. holds ≡ true) (λ e. (holds ≡ false) × (e ≡ NoPattern place)) }
{
    if holds {
        Ok(())
    } else {
        Err(no_pattern(place))
    }
}

// A byte that is shown, reserved or not. Its class would not be plainer: that tells twelve reserved bytes apart before the same range.
fn printable(b: u8) -> bool
    ensures { result ≡ shown b }
{
    matches!(b, 0x20..=0x7E)
}

// The bytes from lo to hi as a label has them.
fn bytes(lo: u8, hi: u8) -> u32
    ensures { result ≡ lo * 256 + hi }
{
    u32::from(lo) * BYTES + u32::from(hi)
}

// The arcs and the labels go side by side. In a struct that held both, each contract promised besides that it holds the same two still,
// and `parse` did not prove: how long an array is that lies behind a field was not known there, and a field whose struct says it in a
// ghost field cannot be lent.
// Step o, where there is room for it: its arcs and its label. A part that is one step must take it.
fn step(
    cells: &mut [u32; CELLS],
    labels: &mut [u32; LABELS],
    o: usize,
    kind: Kind,
    argument: u32,
) -> u32
    ensures { Stepped o (numbered kind) argument cells.old cells.new labels.old labels.new result }
{
    if o < STEPS {
        labels[2 * o] = kind as u32;
        labels[2 * o + 1] = argument;
        return grid::leaf(cells, o);
    }
    NO_ARC
}

// The step of an opening bracket, and how many that is: a group has none.
fn enter(cells: &mut [u32; CELLS], labels: &mut [u32; LABELS], o: usize, bracket: Bracket) -> usize
    ensures few { result ≤ 1 }
    ensures by { Entered o bracket cells.old cells.new labels.old labels.new result }
{
    match bracket {
        Bracket::Group => 0,
        Bracket::Capture { variable } => {
            step(cells, labels, o, Kind::Opens, variable);
            1
        }
    }
}

// The step of a closing bracket, and the inside joined between the two.
fn leave(
    cells: &mut [u32; CELLS],
    labels: &mut [u32; LABELS],
    o: usize,
    bracket: Bracket,
    part: &Part,
) -> u32
    requires { o + part.now.steps ≤ 255 }
    ensures { Left o bracket part.now.steps part.now.nul cells.old cells.new labels.old labels.new result }
{
    match bracket {
        Bracket::Group => part.nul,
        Bracket::Capture { variable } => {
            let mid = o + 1;
            let end = mid + part.steps;
            let shut = step(cells, labels, end, Kind::Closes, variable);
            let inner = grid::join(cells, mid, end, part.nul, shut);
            grid::join(cells, o, mid, NO_ARC, inner)
        }
    }
}

// A text to be read, with k variables. It is lent whole to each of its parts.
#[derive(Drop)]
struct Text<'a> {
    bytes: &'a [u8],
    k: u32,
    ghost short: { length bytes.now ≤ 255 },
}

// That a place is in the text or at its end stands in ten contracts, and that no more steps than bytes are before it in four: a type of
// such places would be no plainer, since it would be made, and its bounds proved, at each byte and each step that is passed.
impl Text<'_> {
    // Past the end as if a byte 0 stood there, which stands nowhere in a pattern: an `Option` would be taken apart at each use.
    fn byte_at(&self, at: usize) -> u8
        ensures { result ≡ get_or self.now.bytes.now at 0 }
    {
        self.bytes.get(at).copied().unwrap_or(0)
    }

    // At a `\`.
    fn escape(&self, at: usize) -> Result<Head, Refusal>
        requires { (at ≤ length self.now.bytes.now) × (get_or self.now.bytes.now at 0 ≡ 92) }
        ensures { Opens self.now.k self.now.bytes.now at result }
    {
        let second = at + 1;
        let b = self.byte_at(second);
        demand(printable(b), second)?;
        Ok(Head::Byte {
            next: second + 1,
            argument: bytes(b, b),
        })
    }

    // At a `[`.
    fn ranged(&self, at: usize) -> Result<Head, Refusal>
        requires { (at ≤ length self.now.bytes.now) × (get_or self.now.bytes.now at 0 ≡ 91) }
        ensures { Opens self.now.k self.now.bytes.now at result }
    {
        let low = at + 1;
        let lo = self.byte_at(low);
        demand(printable(lo), low)?;
        let dash = low + 1;
        demand(self.byte_at(dash) == b'-', dash)?;
        let high = dash + 1;
        let hi = self.byte_at(high);
        demand(printable(hi), high)?;
        demand(lo <= hi, high)?;
        let end = high + 1;
        demand(self.byte_at(end) == b']', end)?;
        Ok(Head::Byte {
            next: end + 1,
            argument: bytes(lo, hi),
        })
    }

    // At a `{`.
    fn captured(&self, at: usize) -> Result<Head, Refusal>
        requires { (at ≤ length self.now.bytes.now) × (get_or self.now.bytes.now at 0 ≡ 123) × (0 < self.now.k) }
        ensures { Opens self.now.k self.now.bytes.now at result }
    {
        let which = at + 1;
        let d = self.byte_at(which);
        demand(b'1' <= d, which)?;
        let variable = u32::from(d - b'0');
        demand(variable <= self.k, which)?;
        let colon = which + 1;
        demand(self.byte_at(colon) == b':', colon)?;
        Ok(Head::Open {
            inside: colon + 1,
            bracket: Bracket::Capture { variable },
        })
    }

    fn opening(&self, at: usize) -> Result<Head, Refusal>
        requires { at ≤ length self.now.bytes.now }
        ensures { Opens self.now.k self.now.bytes.now at result }
    {
        let next = at + 1;
        let b = self.byte_at(at);
        match pattern::class_of(b) {
            Class::Plain => Ok(Head::Byte {
                next,
                argument: bytes(b, b),
            }),
            Class::Illegal => Err(no_pattern(at)),
            Class::Reserved => match b {
                b'\\' => self.escape(at),
                b'.' => Ok(Head::Byte {
                    next,
                    argument: bytes(0, 255),
                }),
                b'~' => Ok(Head::Empty { next }),
                b'[' => self.ranged(at),
                b'(' => Ok(Head::Open {
                    inside: next,
                    bracket: Bracket::Group,
                }),
                b'{' => {
                    demand(0 < self.k, at)?;
                    self.captured(at)
                }
                _ => Err(no_pattern(at)),
            },
        }
    }

    // Whether an atom begins with b.
    fn begins(&self, b: u8) -> bool
        ensures { result ≡ starts self.now.k b }
    {
        match pattern::class_of(b) {
            Class::Plain => true,
            Class::Illegal => false,
            Class::Reserved => match b {
                b'\\' | b'.' | b'~' | b'[' | b'(' => true,
                b'{' => 0 < self.k,
                _ => false,
            },
        }
    }

    // The digit that has to stand there.
    fn digit(&self, at: usize) -> Result<u32, Refusal>
        requires { at < 512 }
        ensures { MatchResult result (λ d. (digit (get_or self.now.bytes.now at 0) ≡ true) × (d ≡ get_or self.now.bytes.now at 0 - 48)) (λ e. (digit (get_or self.now.bytes.now at 0) ≡ false) × (e ≡ NoPattern at)) }
    {
        let b = self.byte_at(at);
        demand(b.is_ascii_digit(), at)?;
        Ok(u32::from(b - b'0'))
    }

    // At a `#`: the weight mark as a part with no step.
    fn mark(&self, at: usize) -> Result<Part, Refusal>
        requires { (at ≤ length self.now.bytes.now) × (get_or self.now.bytes.now at 0 ≡ 35) }
        ensures { Marks self.now.bytes.now at result }
    {
        let one = at + 1;
        let x = self.digit(one)?;
        let two = one + 1;
        let y = self.digit(two)?;
        let three = two + 1;
        let z = self.digit(three)?;
        let weight = x * 100 + y * 10 + z;
        Ok(Part::level(three + 1, 0, weight))
    }

    // The postfixes after a part whose steps are numbered from o on.
    fn postfixes(&self, part: Part, cells: &mut [u32; CELLS], o: usize) -> Result<Part, Refusal>
        requires { (part.next ≤ length self.now.bytes.now) × (o + part.steps ≤ 255) }
        ensures { Posted self.now.bytes.now o part cells.old cells.new result }
    {
        match self.byte_at(part.next) {
            b'*' => {
                let passes = grid::again(cells, o);
                self.postfixes(part.postfixed(part.next + 1, passes), cells, o)
            }
            b'#' => {
                let weight = self.mark(part.next)?;
                let charged = grid::join(cells, o, o + part.steps, part.nul, weight.nul);
                self.postfixes(part.postfixed(weight.next, charged), cells, o)
            }
            _ => Ok(part),
        }
    }

    // Four functions in a cycle, as the grammar has it: the form of docs/DECISIONS.md.
    #[cycle(atom_factor_pattern_term)]
    fn atom(
        &self,
        at: usize,
        cells: &mut [u32; CELLS],
        labels: &mut [u32; LABELS],
        o: usize,
    ) -> Result<Part, Refusal>
        requires { (at ≤ length self.now.bytes.now) × (o ≤ at) }
        ensures { Parses Atom AtomStop self.now.k self.now.bytes.now at o cells.old cells.new labels.old labels.new result }
    {
        // Taken apart here and not by `?`, which holds the head twice: 32 bytes of stack more for each factor.
        match self.opening(at) {
            Err(refusal) => Err(refusal),
            Ok(Head::Empty { next }) => Ok(Part::level(next, 0, 0)),
            Ok(Head::Byte { next, argument }) => {
                let nul = step(cells, labels, o, Kind::Reads, argument);
                Ok(Part::level(next, 1, nul))
            }
            Ok(Head::Open { inside, bracket }) => {
                let own = enter(cells, labels, o, bracket);
                let part = self.pattern(inside, cells, labels, o + own)?;
                demand(self.byte_at(part.next) == bracket.close(), part.next)?;
                let nul = leave(cells, labels, o, bracket, &part);
                Ok(part.between(own, nul))
            }
        }
    }

    #[cycle(atom_factor_pattern_term)]
    fn factor(
        &self,
        at: usize,
        cells: &mut [u32; CELLS],
        labels: &mut [u32; LABELS],
        o: usize,
    ) -> Result<Part, Refusal>
        requires { (at ≤ length self.now.bytes.now) × (o ≤ at) }
        ensures { Parses Factor FactorStop self.now.k self.now.bytes.now at o cells.old cells.new labels.old labels.new result }
    {
        let part = self.atom(at, cells, labels, o)?;
        self.postfixes(part, cells, o)
    }

    #[cycle(atom_factor_pattern_term)]
    fn term(
        &self,
        at: usize,
        cells: &mut [u32; CELLS],
        labels: &mut [u32; LABELS],
        o: usize,
    ) -> Result<Part, Refusal>
        requires { (at ≤ length self.now.bytes.now) × (o ≤ at) }
        ensures { Parses Term TermStop self.now.k self.now.bytes.now at o cells.old cells.new labels.old labels.new result }
    {
        let part = self.factor(at, cells, labels, o)?;
        if !self.begins(self.byte_at(part.next)) {
            return Ok(part);
        }
        let mid = o + part.steps;
        let rest = self.term(part.next, cells, labels, mid)?;
        let both = grid::join(cells, o, mid, part.nul, rest.nul);
        Ok(part.beside(rest, both))
    }

    #[cycle(atom_factor_pattern_term)]
    fn pattern(
        &self,
        at: usize,
        cells: &mut [u32; CELLS],
        labels: &mut [u32; LABELS],
        o: usize,
    ) -> Result<Part, Refusal>
        requires { (at ≤ length self.now.bytes.now) × (o ≤ at) }
        ensures { Parses Pattern PatternStop self.now.k self.now.bytes.now at o cells.old cells.new labels.old labels.new result }
    {
        let part = self.term(at, cells, labels, o)?;
        if self.byte_at(part.next) != b'|' {
            return Ok(part);
        }
        let rest = self.pattern(part.next + 1, cells, labels, o + part.steps)?;
        let either = grid::lighter(part.nul, rest.nul);
        Ok(part.beside(rest, either))
    }
}

// The whole text: a pattern and nothing after it, or number 3 and its place. The cells and the labels, two words for each, are lent as
// slices: so the clauses promise it, and an array type would ask more of callers.
pub fn parse(text: &[u8], k: u32, cells: &mut [u32], labels: &mut [u32]) -> Result<Part, Refusal>
    requires { (length text.now ≤ 255) × (1024 ≤ length cells.old) × (64 ≤ length labels.old) }
    ensures { Answers k text.now cells.new labels.new result }
{
    let cells = cells.first_chunk_mut().unwrap();
    let labels = labels.first_chunk_mut().unwrap();
    grid::clear(cells);
    let whole = Text { bytes: text, k };
    let part = whole.pattern(0, cells, labels, 0)?;
    demand(part.next == text.len(), part.next)?;
    // An array keeps its length: what it was lent from ends as it does.
    prove!(cells.len() == CELLS);
    prove!(labels.len() == LABELS);
    Ok(part)
}
