// A weight: a whole number, or the mark for "no run" (01, "Lines, spans, weights").
// The lighter of two and the sum of two belong to the weight, with its two fixed values. No loop, no stack to speak of.
#![tactic(auto)]

ghost use Rattle.std.specs.Prelude.{◌≡◌};
ghost use Rattle.weight.specs.Weight.{lighter, joint};

#[derive(Clone, Copy, PartialEq, Eq, PartialOrd, Ord)]
pub struct Weight {
    pub number: u32,
}

impl Weight {
    // No run.
    pub const MARK: Weight = Weight { number: u32::MAX };

    pub const ZERO: Weight = Weight { number: 0 };

    #[tactic(auto, unfolding(crate::specs::Weight::lighter_to))]
    pub fn lighter(self, other: Weight) -> Weight
        ensures { result.number ≡ lighter self.number other.number }
    {
        self.min(other)
    }

    // The mark, where the sum would be that or more: no number is larger.
    #[tactic(auto, unfolding(crate::specs::Weight::joint_to))]
    pub fn sum(self, other: Weight) -> Weight
        ensures { result.number ≡ joint self.number other.number }
    {
        Weight {
            number: self.number.saturating_add(other.number),
        }
    }
}
