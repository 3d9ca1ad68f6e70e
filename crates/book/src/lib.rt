// The book: a draft takes bookings, a timetable has seats; over any cabinet kind and any two arrangers.
//
//   draft      a book that takes bookings
//   timetable  a book whose transfers have seats
//   desk       the memory in which a timetable is made
//   rounds     the first stage: a round for each transfer
//   spines     the second stage: a spine for each transfer
//   part       some of the live transfers, as lines
//   links      which transfers are of which round
//   arrange    an arrangement that no arranger refuses
#![tactic(auto)]

mod arrange;
mod desk;
pub mod draft;
mod links;
mod part;
mod rounds;
mod spines;
pub mod timetable;
