// What a clash-free timetable of transfers is, over any cabinet kind, and when one exists.
//
//   ends       transfers as lines
//   seat       the round and the spine of a transfer
//   theorem    how many rounds some transfers need
#![tactic(auto)]

pub mod ends;
pub mod seat;
pub mod theorem;
