// What the program `rounds` prints for a job image: the sheets of all rounds, or why there are none.
//
//   refusal    why an image gets no timetable
//   plan       the timetable of an image
//   printout   what is printed, and whether it is a refusal
//   printing   the sheets, or the line of the refusal
//   tests      a small image with a few bytes changed, and what is printed of each
#![tactic(auto)]

mod plan;
pub mod printing;
pub mod printout;
mod refusal;
#[cfg(test)]
mod tests;
