// rounds: gives rounds to the transfers of the job image that it reads from standard input, and prints the sheet of each round.
// Where the image gets none it prints why, and ends with status 1.
#![tactic(auto)]

use image::opened::MAX_LENGTH;
use printouts::printing::printout;
use std::io::{self, Read, Write};
use std::process::ExitCode;

// What stands on standard input, up to one byte more than the longest image has.
fn read_image(rt: &HostRuntime) -> anyhow::Result<Vec<u8>> {
    let mut bytes = Vec::new(rt.alloc());
    rt.reader()
        .take(MAX_LENGTH as u64 + 1)
        .read_to_end(&mut bytes)?;
    Ok(bytes)
}

fn main(rt: HostRuntime) -> anyhow::Result<ExitCode> {
    let image = read_image(&rt)?;
    let printed = printout(rt.alloc(), &image)?;
    io::writer(&rt).write_all(&printed.text)?;
    Ok(if printed.is_refusal {
        ExitCode::FAILURE
    } else {
        ExitCode::SUCCESS
    })
}
