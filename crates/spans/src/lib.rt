// A set of spans: six numbers, a start and an end for each of up to three variables (01, "Lines, spans, weights").
// Decides number 9: whether six numbers are a set of spans of a line. A fixed number of comparisons.
#![tactic(auto)]

ghost use Rattle.std.specs.Prelude.{◌≡◌};
ghost use Rattle.basics.specs.Decides.{Decides};
ghost use Rattle.spans.specs.Spans.{SetOfSpans, Part, digits};

#[derive(Clone, Copy, PartialEq, Eq)]
pub struct Spans {
    pub s1: u32,
    pub e1: u32,
    pub s2: u32,
    pub e2: u32,
    pub s3: u32,
    pub e3: u32,
}

// The six numbers in the order of printing, and back.
impl From<Spans> for [u32; 6] {
    ghost from_gives = { λ set positions. positions ≡ digits set };

    fn from(set: Spans) -> [u32; 6] {
        [set.s1, set.e1, set.s2, set.e2, set.s3, set.e3]
    }
}

impl From<[u32; 6]> for Spans {
    ghost from_gives = { λ positions set. digits set ≡ positions };

    fn from([s1, e1, s2, e2, s3, e3]: [u32; 6]) -> Spans {
        Spans {
            s1,
            e1,
            s2,
            e2,
            s3,
            e3,
        }
    }
}

// One variable's part of a set.
fn part(k: u32, n: usize, v: u32, s: u32, e: u32) -> bool
    ensures { Decides (Part k n v s e) result }
{
    if k < v {
        s == 0 && e == 0
    } else {
        1 <= s && s <= e && (e - 1) as usize <= n
    }
}

impl Spans {
    // Whether this is a set of spans of a line of n bytes, with k variables.
    pub fn is_set(self, k: u32, n: usize) -> bool
        ensures { Decides (SetOfSpans k n self) result }
    {
        part(k, n, 1, self.s1, self.e1)
            && part(k, n, 2, self.s2, self.e2)
            && part(k, n, 3, self.s3, self.e3)
    }
}
