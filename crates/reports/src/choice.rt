// The best of some records.
ghost use Rattle.std.specs.Prelude.{◌≡◌, Bool, false};
ghost use Rattle.std.specs.Cmp.{IsStrictWeakOrder};
ghost use Rattle.std.specs.Option.{option_copied};
ghost use Rattle.reports.specs.Choice.{best_due, IsBest};

// A kind of records with a total order: of two different ones, one ranks above the other. A record is any value of the kind.
pub trait Ranked {
    // whether the first of two records ranks above the second
    ghost above: { Self → Self → Bool };

    // Whether this record ranks above another.
    fn is_above(&self, other: &Self) -> bool
        ensures { result ≡ above self.now other.now };

    // ranking goes one way and carries over
    ghost ranks: { IsStrictWeakOrder above };

    // two records that rank the same are one
    ghost apart: { (a b : Self) → above a b ≡ false → above b a ≡ false → a ≡ b };
}

// The best of some records; none where there is none.
#[tactic(auto, using(crate::proofs::Choosing::choosing))]
pub fn best<R: Ranked>(records: &[R]) -> Option<&R>
    ensures answer { option_copied result ≡ best_due R.above records.now }
    ensures decided { IsBest R.above records.now (option_copied result) }
{
    let Some((first, rest)) = records.split_first() else {
        return None;
    };
    let mut best = first;
    for record in rest {
        if record.is_above(best) {
            best = record;
        }
    }
    Some(best)
}
