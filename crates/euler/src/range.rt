// Colours in a row, of which there are a power of two.
ghost use Rattle.std.specs.Prelude.{◌≡◌, ℕ, ◌+◌, ◌^◌, ◌≤◌, IfSome, IfNone};

// The colours from `first` on, `count` in all, which can be split in two so many times.
#[derive(Clone, Copy)]
pub(crate) struct ColourRange {
    pub(crate) first: u8,
    pub(crate) count: u8,
    pub(crate) splits: u32,
    ghost power: { count ≡ 2 ^ splits },
    ghost six: { splits ≤ 6 },
    ghost top: { first + count ≤ 64 },
}

impl ColourRange {
    // The lower half of the colours and the upper half, where there is more than one colour.
    pub(crate) fn halves(self) -> Option<(ColourRange, ColourRange)>
        ensures one { IfNone result (self.count ≡ 1) }
        ensures first { IfSome result (λ h. (h.0.first ≡ self.first) × (h.1.first ≡ self.first + h.0.count)) }
        ensures count { IfSome result (λ h. (h.0.count + h.1.count ≡ self.count) × (h.0.count ≡ h.1.count)) }
        ensures splits { IfSome result (λ h. (h.0.splits + 1 ≡ self.splits) × (h.1.splits + 1 ≡ self.splits)) }
    {
        let splits = self.splits.checked_sub(1)?;
        let count = self.count / 2;
        let lower = ColourRange {
            first: self.first,
            count,
            splits,
        };
        let upper = ColourRange {
            first: self.first + count,
            count,
            splits,
        };
        Some((lower, upper))
    }
}
