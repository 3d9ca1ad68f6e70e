// Lists of calls, what a book answers to them, and the law that calls and answers keep.
//
//   call       the calls of a book, and their answers
//   states     a book in either state, and how a new one is made
//   asking     one call given to a book, and the law that it keeps
//   replaying  the calls of a list, given to a book one after the other
//   theorem    histories that the law refutes, and histories that it admits
#![tactic(auto)]

pub mod asking;
pub mod call;
pub mod replaying;
pub mod states;
pub mod theorem;

pub use crate::asking::ask;
pub use crate::call::{Answer, Call};
pub use crate::replaying::replay;
pub use crate::states::Book;
