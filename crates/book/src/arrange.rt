// An arrangement that no arranger refuses.
ghost use Rattle.std.specs.Prelude.{◌≡◌, ◌≤◌, true, length};
ghost use Rattle.lines.specs.Lines.{ends, Inside, DegreesWithin};
ghost use Rattle.lines.specs.Arrangers.{Arranged, grown};

use lines::arranger::Arranger;
use lines::line::Line;

// Has lines coloured for which no refusal is due.
#[tactic(auto, using(crate::proofs::Crowding::accepted))]
pub(crate) fn arrange_accepted<A: Arranger>(arranger: &mut A, lines: &mut [Line], c: u8)
    requires served { A.served c ≡ true }
    requires few { length lines.old ≤ 1024 }
    requires inside { Inside (ends lines.old) }
    requires within { DegreesWithin c (ends lines.old) }
    ensures lines { Arranged c lines.old lines.new }
    ensures meter { A.shows arranger.new ≡ grown (A.shows arranger.old) (length lines.old) }
{
    let Ok(()) = arranger.arrange(lines, c) else {
        unreachable()
    };
}
