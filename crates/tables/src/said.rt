// What the library says of a question, in the form that its stored answer has: a value, no reading, or a refusal by its number and place.

use reader::Answer;
use refusal::Refusal;
use spans::Spans;
use weight::Weight;

// Kinds of stored answer. The value is a weight, a reading, or how many words were written.
const VALUE: u32 = 0;

const NO_READING: u32 = 1;

const REFUSED: u32 = 2;

// By its number and place, as it is stored: not every two numbers are those of a `Refusal`.
#[derive(Clone, Copy, PartialEq, Eq)]
pub struct Refused {
    number: u32,
    place: u32,
}

impl From<Refusal> for Refused {
    fn from(refusal: Refusal) -> Refused {
        Refused {
            number: refusal.number(),
            place: refusal.place(),
        }
    }
}

// None: no reading.
pub type Said<T> = Result<Option<T>, Refused>;

// A stored answer from its three numbers: its kind, and the number and place of a refusal; `value` says what it is where it is a value,
// of which the second number may be a part. None where its kind is none of the three: no answer is the same as that.
pub fn stored<T, F: Fn(u32) -> T>(head: [u32; 3], value: F) -> Option<Said<T>>
    requires { F.IsAlwaysCallable value }
{
    let [kind, number, place] = head;
    match kind {
        VALUE => Some(Ok(Some(value(number)))),
        NO_READING => Some(Ok(None)),
        REFUSED => Some(Err(Refused { number, place })),
        _ => None,
    }
}

// An answer that is a value wherever it is no refusal.
pub fn valued<T>(answer: Result<T, Refusal>) -> Said<T> {
    Ok(Some(answer?))
}

pub fn of_answer(answer: Answer) -> Said<(Weight, Spans)> {
    match answer {
        Answer::Reading { weight, spans } => Ok(Some((weight, spans))),
        Answer::NoReading => Ok(None),
        Answer::Refused { number, place } => Err(Refused { number, place }),
    }
}
