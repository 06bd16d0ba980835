// The form of a card: its two lines, with their fixed keys compared byte for byte (01, "The card and the program").
// Finds where the pattern stands and how many variables are asked for, or the line that is wrong (number 10).
// One pass over the card's text; no arrays.
#![tactic(auto)]

ghost use Rattle.std.specs.Prelude.{Err, MatchResult};
ghost use Rattle.card.specs.Form.{FormOf};
ghost use Rattle.card.specs.Bytes.{FirstRight};

use refusal::CardLine;

const VARS: [u8; 5] = *b"vars=";

const PATTERN: [u8; 8] = *b"pattern=";

// Where the digit stands, its LF, line 2 and the pattern.
const DIGIT: usize = VARS.len();

const DIGIT_LF: usize = DIGIT + 1;

const LINE_TWO: usize = DIGIT + 2;

const FROM: usize = LINE_TWO + PATTERN.len();

// vars: the number after `vars=`. The pattern stands from byte `from` up to but not `to`, counted from 0.
#[derive(Clone, Copy)]
pub struct Form {
    pub vars: u32,
    pub from: usize,
    pub to: usize,
}

// Line 1: the number after `vars=`.
fn first(text: &[u8]) -> Result<u32, CardLine>
    ensures { MatchResult result (λ vars. FirstRight text.now vars) (λ line. FormOf text.now (Err line)) }
{
    if text.len() < LINE_TWO || !text.starts_with(&VARS) {
        return Err(CardLine::First);
    }
    let d = text[DIGIT];
    if !d.is_ascii_digit() || text[DIGIT_LF] != lines::LF {
        return Err(CardLine::First);
    }
    Ok(u32::from(d - b'0'))
}

// Line 2, after a first line that is right.
fn second(text: &[u8], vars: u32) -> Result<Form, CardLine>
    requires { FirstRight text.now vars }
    ensures { FormOf text.now result }
{
    if !text[LINE_TWO..].starts_with(&PATTERN) {
        return Err(CardLine::Second);
    }
    let to = lines::line_end(text, FROM);
    if text.len() <= to {
        return Err(CardLine::Second);
    }
    Ok(Form {
        vars,
        from: FROM,
        to,
    })
}

// Err: the first line that is wrong.
pub fn form_of(text: &[u8]) -> Result<Form, CardLine>
    ensures { FormOf text.now result }
{
    second(text, first(text)?)
}
