// What the program `trace` answers to the words of its command line.
ghost use Rattle.std.specs.Prelude.{◌≡◌, map, Some, IfOk, string_bytes};
ghost use Rattle.crossbar.specs.Refusals.{Answers};
ghost use Rattle.replies.specs.Replies.{query_due, answer_due, reply_due, reply_told};

use crate::arguments::{KindName, Misuse, Query, read_query};
use crossbar::refusal::{RouteError, RouteRefusal};
use failure::Failure;
use kinds::folded::Folded;
use kinds::straight::Straight;
use std::alloc::{AllocError, Global};
use std::fmt;
use tracer::lines::Tracer;

// What to print: a trace, or why there is none.
#[derive(Drop)]
pub enum Reply {
    Trace(String),
    // the cabinet or the transfer is refused
    Refused(RouteRefusal),
    // the words ask for nothing that could be traced
    Usage(Misuse),
}

impl fmt::Display for Reply {
    ghost output = { λ a. Some (reply_told a).0 };

    fn fmt<W: fmt::Write>(&self, f: &mut fmt::Formatter<W>) -> fmt::Result {
        match self {
            Reply::Trace(text) => write!(f, "{text}"),
            Reply::Refused(refusal) => writeln!(f, "{refusal}"),
            Reply::Usage(misuse) => {
                writeln!(f, "{misuse}\nusage: trace KIND M N SENDER RECEIVER")
            }
        }
    }
}

// The trace of a query, over the kind that it names. A kind is a type, so each name has a call of its own.
fn trace_query(heap: Global, query: Query) -> Result<String, RouteError>
    ensures { Answers string_bytes result (query_due query) }
{
    let Query {
        kind,
        sizes,
        transfer,
    } = query;
    match kind {
        KindName::Folded => Tracer {
            heap,
            kind: &Folded,
            sizes,
        }
        .trace(transfer),
        KindName::Straight => Tracer {
            heap,
            kind: &Straight,
            sizes,
        }
        .trace(transfer),
    }
}

// The trace of a query, or its refusal.
fn answer(heap: Global, query: Query) -> Result<Reply, AllocError>
    ensures { IfOk result (λ a. reply_told a ≡ answer_due query) }
{
    match trace_query(heap, query) {
        Ok(text) => Ok(Reply::Trace(text)),
        Err(Failure::Refused(refusal)) => Ok(Reply::Refused(refusal)),
        Err(Failure::OutOfMemory) => Err(AllocError),
    }
}

// The answer to the words after the program's name.
pub fn reply_to(heap: Global, words: &[String]) -> Result<Reply, AllocError>
    ensures { IfOk result (λ a. reply_told a ≡ reply_due (map string_bytes words.now)) }
{
    match read_query(words) {
        Ok(query) => answer(heap, query),
        Err(misuse) => Ok(Reply::Usage(misuse)),
    }
}
