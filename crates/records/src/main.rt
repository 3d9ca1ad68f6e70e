// records [JOB_TEXT [SITE_SHEET]]: lists the records of the job image that it reads from standard input, with the labels that
// their transfers have in the two texts. A text that is not given is empty. Where the image is refused it prints why, and
// ends with status 1; so it does where there are more words.
#![tactic(auto)]

use failure::Failure;
use image::labels::Texts;
use image::opened::MAX_LENGTH;
use listings::lines::listing;
use std::alloc::AllocError;
use std::env;
use std::io::Read;
use std::process::ExitCode;

// What stands on standard input, up to one byte more than the longest image has.
fn read_image(rt: &HostRuntime) -> anyhow::Result<Vec<u8>> {
    let mut bytes = Vec::new(rt.alloc());
    rt.reader()
        .take(MAX_LENGTH as u64 + 1)
        .read_to_end(&mut bytes)?;
    Ok(bytes)
}

fn main(rt: HostRuntime) -> anyhow::Result<ExitCode> {
    let heap = rt.alloc();
    let words: Vec<String> = env::args(&rt)?.skip(1).collect(heap)?;
    let (job, site) = match words.as_slice() {
        [] => ("", ""),
        [job] => (job.as_str(), ""),
        [job, site] => (job.as_str(), site.as_str()),
        _ => {
            println!(rt; "usage: records [JOB_TEXT [SITE_SHEET]] < IMAGE")?;
            return Ok(ExitCode::FAILURE);
        }
    };
    let image = read_image(&rt)?;
    let texts = Texts {
        job: job.as_bytes(),
        site: site.as_bytes(),
    };
    match listing(heap, &image, texts) {
        Ok(text) => {
            rt.print(&text)?;
            Ok(ExitCode::SUCCESS)
        }
        Err(Failure::Refused(refusal)) => {
            println!(rt; "{refusal}")?;
            Ok(ExitCode::FAILURE)
        }
        Err(Failure::OutOfMemory) => Err(AllocError.into()),
    }
}
