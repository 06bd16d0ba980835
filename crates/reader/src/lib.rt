// The two questions asked of a table (01, "The table"): the weight of a given set, and the best reading of a line.
// Both are one backward pass over the line; numbers 7, 8 and 9 are given here. Any words, any line, any six numbers.
#![tactic(auto)]

ghost use Rattle.std.specs.Prelude.{◌≡◌, ◌<◌};
ghost use Rattle.refusal.specs.Numbers.{number_of, place_of};
ghost use Rattle.best.specs.Decode.{key_digit, spans_of_key};
ghost use Rattle.reader.specs.Answers.{weighed, read, SetAnswer, BestAnswer};
ghost use Rattle.reader.specs.Cases.{Refuses};
ghost use Rattle.reader.specs.declared.Answer.TheVariants.{Refused};

use cell::BASE;
use refusal::Refusal;
use setting::MARKERS;
use spans::Spans;
use table::right::Table;
use weight::Weight;

// The longest line that is read.
pub const MOST_BYTES: usize = 1024;

// The last position: after the last byte of the longest line.
const LAST: u32 = MOST_BYTES as u32 + 1;

// What is said of a line, by name: a reading, no reading, or a refusal. An enum of three and not a Result, since the answer for a line
// is one of the forms in docs/DECISIONS.md ("Forms"). Its refusal keeps the number and the place themselves: `printing::answer`
// prints any two.
#[derive(Clone, Copy)]
pub enum Answer {
    Reading { weight: Weight, spans: Spans },
    NoReading,
    Refused { number: u32, place: u32 },
}

impl From<Refusal> for Answer {
    ghost from_gives = { λ r a. a ≡ Refused (number_of r) (place_of r) };

    fn from(r: Refusal) -> Answer {
        Answer::Refused {
            number: r.number(),
            place: r.place(),
        }
    }
}

// The table that the line can be read by.
#[tactic(auto, using(crate::specs::Cases::seven, crate::specs::Cases::eight, crate::specs::Cases::fits))]
fn readable<'a>(words: &'a [u32], line: &[u8]) -> Result<Table<'a>, Refusal>
    ensures { Refuses words.now line.now result }
{
    let Some(table) = Table::of(words) else {
        return Err(Refusal::WrongTable);
    };
    if MOST_BYTES < line.len() {
        return Err(Refusal::LongLine);
    }
    Ok(table)
}

// The weight of a set, the mark included.
#[tactic(auto, using(crate::specs::Cases::not_weighed_so))]
pub fn weight_of_set(table: &[u32], line: &[u8], set: Spans) -> Result<Weight, Refusal>
    ensures { SetAnswer table.now line.now set (weighed result) }
{
    let right = readable(table, line)?;
    if !set.is_set(right.vars(), line.len()) {
        return Err(Refusal::NoSpans);
    }
    let at: [u32; MARKERS] = set.into();
    let sum = layer::sweep(table, line, &at, &at);
    let weight = Weight { number: sum.weight };
    Ok(weight)
}

// The m-th position of a key.
fn digit(key: u64, m: u32) -> u32
    requires { m < 6 }
    ensures { result ≡ key_digit key m }
{
    (key / BASE.pow(5 - m) % BASE) as u32
}

// The set whose positions a key packs.
fn spans_of(key: u64) -> Spans
    ensures { result ≡ spans_of_key key }
{
    Spans::from(std::array::from_fn(|m| digit(key, m as u32)))
}

#[tactic(auto, using(crate::specs::Cases::not_read_so))]
pub fn best_reading(table: &[u32], line: &[u8]) -> Answer
    ensures { BestAnswer table.now line.now (read result) }
{
    if let Err(r) = readable(table, line) {
        return r.into();
    }
    let lo = [0; MARKERS];
    let hi = [LAST; MARKERS];
    let cell = layer::sweep(table, line, &lo, &hi);
    let weight = Weight {
        number: cell.weight,
    };
    if weight == Weight::MARK {
        return Answer::NoReading;
    }
    let spans = spans_of(cell.key);
    Answer::Reading { weight, spans }
}
