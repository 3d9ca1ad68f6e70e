// Sheets: the text of a round of a timetable.
//
//   digits     numbers and bytes in digits
//   refusal    why no sheet is written, by number
//   text       refusals as text
//   senders    which transfer of a round each node sends
//   sheet      the text of a round
#![tactic(auto)]

mod digits;
pub mod refusal;
mod senders;
pub mod sheet;
pub mod text;
