// What a packet meets in a cabinet of crossbar switches, and what a caller is told when a route is refused.
//
//   wires      switches, wires named by where they begin, far ends, hops and routes
//   refusal    why a walk, a header or a route is refused, by number
//   digits     numbers in two decimal digits, bytes in two hexadecimal digits
//   text       switches, wires, far ends and refusals as text
#![tactic(auto)]

pub mod digits;
pub mod refusal;
pub mod text;
pub mod wires;
