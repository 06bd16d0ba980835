// Lines parted by LF, in a piece of input and across pieces (01, "The card and the program").
// `line_end` finds where a line ends, and `ended` takes the LF off one that has; `keep` holds the part of a line that the next piece
// will go on with, as far as there is room.
#![tactic(auto)]

ghost use Rattle.std.specs.Prelude.{◌≡◌, ◌==◌, ◌+◌, ◌-◌, ◌≤◌, List, ℕ, [], ◌∷◌, ◌++◌, MatchOption, min, length, drop};
ghost use Rattle.std.proofs.Math.Seq.{paste};
ghost use Rattle.std.specs.List.{position};
ghost use Rattle.lines.specs.Ends.{EndsAt, lf};

pub const LF: u8 = b'\n';

fn first_lf(text: &[u8]) -> Option<usize>
    ensures { result ≡ position (λ b. b == lf) text.now }
{
    text.iter().position(|b| *b == LF)
}

// Where the line that `at` stands in ends: its LF, or the end of the text. A text and a place apart, as for `keep` a buffer and its
// length: so the clauses promise it, and a type of the two would ask more of callers. A text with no LF gives its length and not None:
// so `EndsAt` says it, and `card`, the one caller, refuses a line 2 that ends so.
pub fn line_end(text: &[u8], at: usize) -> usize
    requires { at ≤ length text.now }
    ensures { EndsAt text.now at result }
{
    match first_lf(&text[at..]) {
        Some(n) => at + n,
        None => text.len(),
    }
}

// A line that has ended, without its LF; none where it goes on in the next piece.
pub fn ended(line: &[u8]) -> Option<&[u8]>
    ensures { MatchOption result ((before : List ℕ) → line.now ≡ before ++ (lf ∷ []) → ⊥) (λ before. line.now ≡ before.now ++ (lf ∷ [])) }
{
    line.strip_suffix(&[LF])
}

// Puts what stands in `piece` from `from` up to `to` after the first `len` bytes of `held`, as much of it as there is room for,
// and answers how many bytes `held` has then.
pub fn keep(held: &mut [u8], len: usize, piece: &[u8], from: usize, to: usize) -> usize
    requires { (len ≤ length held.old) × (from ≤ to) × (to ≤ length piece.now) }
    ensures value { result ≡ len + min (to - from) (length held.old - len) }
    ensures held_after { held.new ≡ paste held.old len (drop from piece.now) (min (to - from) (length held.old - len)) }
{
    let n = (to - from).min(held.len() - len);
    held[len..len + n].copy_from_slice(&piece[from..from + n]);
    len + n
}
