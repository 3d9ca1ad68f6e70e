// The live transfers of a book under their tickets: fitting, booking, loading and cancelling, with the refusals of each.
//
//   refusal    why a fit, a booking, a load or a call with a ticket is refused, by number
//   booking    a transfer under its ticket
//   loads      how many transfers each node sends and receives
//   text       refusals as text
//   table      the table of live transfers, and what is asked of it
#![tactic(auto)]

pub mod booking;
mod loads;
pub mod refusal;
pub mod table;
pub mod text;
