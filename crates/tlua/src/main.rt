//! The program: the words, the files, standard input, output and error, and the exit status.
#![tactic(auto)]

mod disk;
mod reading;
mod retry;
#[cfg(test)]
mod tests;
mod writing;

use disk::DiskFiles;
use reading::Reading;
use std::env;
use std::io::{ErrorKind, Input};
use std::process::ExitCode;
use std::rt::Env;
use tl_base::NoMemory;
use tlua_top::{Status, tlua};
use writing::Writing;

/// The words after the program's name. Where one of them isn't text, or the system doesn't give them, there are none.
fn words_of<R: Env + AllocGlobal>(rt: &R) -> Result<Vec<String>, NoMemory> {
    let mut words = Vec::new(rt.alloc());
    match env::args(rt) {
        Ok(given) => {
            for word in given.skip(1) {
                words.push(word)?;
            }
        }
        Err(error) => {
            if error.kind() == ErrorKind::OutOfMemory {
                return Err(NoMemory);
            }
        }
    }
    Ok(words)
}

fn main(rt: HostRuntime) -> ExitCode {
    let status = match words_of(&rt) {
        Ok(words) => {
            let mut files = DiskFiles::new(&rt);
            let mut input = Reading::new(rt.reader());
            let mut output = Writing::new(rt.stdout());
            let mut report = Writing::new(rt.stderr());
            tlua(
                rt.alloc(),
                &words,
                &mut files,
                &mut input,
                &mut output,
                &mut report,
            )
        }
        Err(NoMemory) => Status::NoMemory,
    };
    ExitCode::from(status.code())
}
