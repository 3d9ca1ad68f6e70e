// trace KIND M N SENDER RECEIVER: the header of a transfer for each spine, and the wires that the packet crosses.
// It ends with status 1 where there is nothing to trace.
#![tactic(auto)]

use replies::reply::{Reply, reply_to};
use std::env;
use std::process::ExitCode;

fn main(rt: HostRuntime) -> anyhow::Result<ExitCode> {
    let heap = rt.alloc();
    let words: Vec<String> = env::args(&rt)?.skip(1).collect(heap)?;
    let reply = reply_to(heap, &words)?;
    rt.print(&reply)?;
    Ok(match reply {
        Reply::Trace(_) => ExitCode::SUCCESS,
        Reply::Refused(_) | Reply::Usage(_) => ExitCode::FAILURE,
    })
}
