// The arcs of a pattern as 32 × 32 words, built in place while the text is read (01, "The pattern on the card"): from x to y at
// x × 32 + y, the mark where there is none. A part's weight for no step is handed on apart, so the word at 0 waits for the end.
// leaf writes two words; clear, link and raise pass over 1,024, whatever the text. No stack to speak of.
// The public functions promise the same of any slice of 1,024 words or more: an array type would ask more of their callers.
#![tactic(auto)]

ghost use Rattle.std.specs.Prelude.{◌≡◌, ◌+◌, ◌*◌, ◌≤◌, ◌<◌, length};
ghost use Rattle.weight.specs.Weight.{mark, lighter, joint};
ghost use Rattle.grid.specs.Cells.{bridge, extra, Cleared, Leafed, Linked, Raised, Joined};

use weight::Weight;

// The states, as many as a table may have, of which this crate does not know; the steps between them, which is also the last state; and the
// arcs from each to each.
pub const STATES: usize = 32;

pub const STEPS: usize = STATES - 1;

pub const CELLS: usize = STATES * STATES;

// The mark, which is a weight and no flag: `lighter` and `sum` go on with it.
pub const NO_ARC: u32 = Weight::MARK.number;

// Of two words: the cells are lent as words, and a `Weight` around each at every use would be no plainer.
pub fn lighter(a: u32, b: u32) -> u32
    ensures { result ≡ lighter a b }
{
    Weight { number: a }.lighter(Weight { number: b }).number
}

pub fn sum(a: u32, b: u32) -> u32
    ensures { result ≡ joint a b }
{
    Weight { number: a }.sum(Weight { number: b }).number
}

// No arcs.
pub fn clear(cells: &mut [u32])
    requires { 1024 ≤ length cells.old }
    ensures { Cleared cells.new }
{
    cells[..CELLS].fill(NO_ARC);
}

// Where one part meets the next: the steps after lo up to hi may be followed by those after next.
#[derive(Clone, Copy)]
struct Seam {
    lo: usize,
    hi: usize,
    next: usize,
}

impl Seam {
    // What the cell i gets by way of an end and a beginning. The cells are a slice, as `link` has them lent: an array would have to be cut
    // there from the slice, and its words proved to be the slice's own, which is no plainer than the length that is asked here.
    #[tactic(auto, using(std::proofs::lemmas::Bool::Decides::nat_tests), unfolding(crate::specs::Cells::bridge))]
    #[inline]
    fn bridge(self, cells: &[u32], i: usize) -> u32
        requires { (i < 1024) × (1024 ≤ length cells.now) }
        ensures { result ≡ bridge cells.now self.lo self.hi self.next i }
    {
        let x = i / STATES;
        let y = i % STATES;
        if x <= self.lo || self.hi < x || y <= self.next {
            return NO_ARC;
        }
        sum(cells[x * STATES], cells[y])
    }

    // What is charged more: at the ends of the steps after lo up to hi, and at the beginnings of those after next.
    #[tactic(auto, using(std::proofs::lemmas::Bool::Decides::nat_tests), unfolding(crate::specs::Cells::extra))]
    #[inline]
    fn extra(self, i: usize, ending: u32, beginning: u32) -> u32
        ensures { result ≡ extra self.lo self.hi ending self.next beginning i }
    {
        let x = i / STATES;
        let y = i % STATES;
        if y == 0 && self.lo < x && x <= self.hi {
            return ending;
        }
        if x == 0 && self.next < y {
            return beginning;
        }
        0
    }
}

// From each step after lo up to hi to each step after next. By the index, since a bridge reads cells other than its own.
pub fn link(cells: &mut [u32], lo: usize, hi: usize, next: usize)
    requires { 1024 ≤ length cells.old }
    ensures { Linked lo hi next cells.old cells.new }
{
    let seam = Seam { lo, hi, next };
    for i in 0..CELLS {
        cells[i] = lighter(cells[i], seam.bridge(cells, i));
    }
}

pub fn raise(cells: &mut [u32], lo: usize, hi: usize, ending: u32, next: usize, beginning: u32)
    requires { 1024 ≤ length cells.old }
    ensures { Raised lo hi ending next beginning cells.old cells.new }
{
    let seam = Seam { lo, hi, next };
    for (i, cell) in cells[..CELLS].iter_mut().enumerate() {
        *cell = sum(*cell, seam.extra(i, ending, beginning));
    }
}

// A part of the steps after o up to mid, and one of the steps after mid, with their weights for no step: the one after the other.
// Never inlined: within the parser's functions, which call themselves, it took 32 bytes of stack more for each factor and each bracket.
#[inline(never)]
pub fn join(cells: &mut [u32], o: usize, mid: usize, n: u32, m: u32) -> u32
    requires { 1024 ≤ length cells.old }
    ensures { (result ≡ joint n m) × Joined o mid n m cells.old cells.new }
{
    link(cells, o, mid, mid);
    raise(cells, o, mid, m, mid, n);
    sum(n, m)
}

// The steps after o, again and again, or not at all.
pub fn again(cells: &mut [u32], o: usize) -> u32
    requires { 1024 ≤ length cells.old }
    ensures { (result ≡ 0) × Linked o 31 o cells.old cells.new }
{
    link(cells, o, STEPS, o);
    0
}

// The step after o.
pub fn leaf(cells: &mut [u32], o: usize) -> u32
    requires { (o < 31) × (1024 ≤ length cells.old) }
    ensures { (result ≡ mark) × Leafed o cells.old cells.new }
{
    cells[(o + 1) * STATES] = 0;
    cells[o + 1] = 0;
    NO_ARC
}
