// Reports on a book: its most used node, the fullest round of a timetable, and whether two timetables are alike.
//
//   choice    the best of some records
//   loads     how many transfers name a node or have a round, and how these loads rank
//   heaviest  the most used node
//   fullest   the fullest round
//   likeness  whether two timetables are alike
#![tactic(auto)]

pub mod choice;
pub mod fullest;
pub mod heaviest;
pub mod likeness;
pub mod loads;
