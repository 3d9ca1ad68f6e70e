// What the program `records` prints of a job image.
//
//   quoted    bytes as text
//   lines     the lines of a listing
#![tactic(auto)]

pub mod lines;
mod quoted;
