// A header sent off for each spine, and the text that tells of it, over any cabinet kind.
//
//   delivery   a header sent off: its bytes, the wires that it crosses, the node that it reaches, and the line that tells it
//   lines      the tracer of a kind and sizes: the line of one spine, and the whole trace of a transfer
#![tactic(auto)]

pub mod delivery;
pub mod lines;
