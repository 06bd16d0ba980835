// A cell: a weight, and among equal weights a key, which packs the positions of the markers (01, "The table": the lightest,
// and of several sets of that weight the one that stands first). Compared weight first, then key. No loop.
#![tactic(auto)]

ghost use Rattle.std.specs.Prelude.{◌≡◌};
ghost use Rattle.weight.specs.Weight.{lighter_to, joint_to};
ghost use Rattle.togo.specs.Price.{cap};
ghost use Rattle.cell.specs.Value.{value};

use weight::Weight;

// A position of a line of 1,024 bytes is below this, so six of them are the digits of a key.
pub const BASE: u64 = 1026;

// The weight is its number and no `Weight`: it is added and compared in parts, beside a carry, and `Layer` keeps the words in arrays of
// their own.
#[derive(Clone, Copy)]
pub struct Cell {
    pub weight: u32,
    pub key: u64,
}

impl Cell {
    // No run: the mark, which is a weight and no flag. `lighter` and `sum` go on with it.
    pub const NONE: Cell = Cell {
        weight: Weight::MARK.number,
        key: 0,
    };

    // The lighter of two; no run is the one cell NONE, whatever keys stand beside the mark. Compared by hand, since this is done for
    // each cell at each byte: with `self.min(other)` by a derived order a row took 3.9 ns a cell, this way 2.0, and the whole must take
    // at most 1.1 times as long as the same in Rust (docs/PERFORMANCE.md).
    #[tactic(auto, unfolding(weight::specs::Weight::lighter_to))]
    pub fn lighter(self, other: Cell) -> Cell
        ensures { value result ≡ lighter_to cap (value self) (value other) }
    {
        if self.weight < other.weight {
            return self;
        }
        if other.weight < self.weight {
            return other;
        }
        if self.weight == Weight::MARK.number {
            return Cell::NONE;
        }
        if self.key < other.key { self } else { other }
    }

    // The sum of two; a key that would pass 2^64 carries into the weight, so that a cell is one number.
    pub fn sum(self, other: Cell) -> Cell
        ensures { value result ≡ joint_to cap (value self) (value other) }
    {
        let (key, carried) = self.key.overflowing_add(other.key);
        let weight = u64::from(self.weight) + u64::from(other.weight) + u64::from(carried);
        if weight < u64::from(Weight::MARK.number) {
            let weight = weight as u32;
            Cell { weight, key }
        } else {
            Cell::NONE
        }
    }
}
