// The Euler arranger. It serves the powers of two from 1 to 64: it splits the lines into two halves that have at every
// end as many lines, or one more or less, and colours each half with half of the colours in the same way. The work is
// proportional to the lines at each of the splits, of which there are at most six in a row.
//
//   pairs      pairs of lines at the ends of either side
//   walk       where a walk from partner to partner stands
//   halves     halves of lines, such that partners are in different ones
//   split      the split of lines into two halves
//   range      the colours that are left for a part of the lines
//   pile       lines that are laid one after another in a room
//   colour     colours for lines by splitting them again and again
//   arranger   the arranger itself
#![tactic(auto)]

pub mod arranger;
mod colour;
mod halves;
mod pairs;
mod pile;
mod range;
pub mod split;
mod walk;
