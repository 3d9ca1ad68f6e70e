// What the program `trace` answers to the words of its command line.
//
//   arguments   what the words ask for
//   reply       what is printed in answer to them
#![tactic(auto)]

pub mod arguments;
pub mod reply;
