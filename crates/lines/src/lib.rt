// Lines between left ends and right ends, and what an arranger does with them: it gives them colours so that lines with
// a common end differ. The lines are the edges of a bipartite multigraph, and what it gives is a proper edge colouring.
//
//   line       a line and its two sides
//   refusal    why lines are not arranged, by number
//   arranger   the interface of an arranger, its meaning and its laws
//   bounded    lines that are not too many, with no end too high
//   degrees    how many lines stand at each end, and the tests for refusals
//   theorem    how many colours suffice
#![tactic(auto)]

pub mod arranger;
pub mod bounded;
pub mod degrees;
pub mod line;
pub mod refusal;
pub mod theorem;
