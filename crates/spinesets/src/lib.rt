// Transfers of one round shared out over the spines of a cabinet, by any arranger.
//
//   assigned   a transfer with its spine
//   share      the spines that an arranger gives to transfers
//   text       which transfers go by which spine, as text
//   example    a permutation of twelve nodes, which no arranger refuses
#![tactic(auto)]

pub mod assigned;
pub mod example;
pub mod share;
pub mod text;
