//! The program: it hands the system's ends and the command line's words to `ecam`, and ends with its status.
#![tactic(auto)]

use ecam_io::{OsErr, OsOut, OsShelf};
use replay_core::ecam;
use std::process::ExitCode;
use std::{env, io};

/// How the program ends where the command line's words can't be had; no status of `ecam` has this number.
const NO_WORDS: u8 = 9;

fn main(rt: HostRuntime) -> ExitCode {
    match words(&rt) {
        Ok(words) => {
            let mut files = OsShelf::new(rt);
            let mut out = OsOut::new(rt);
            let mut err = OsErr::new(rt);
            let status = ecam(rt.alloc(), &words, &mut files, &mut out, &mut err);
            ExitCode::from(status.code())
        }
        Err(_) => ExitCode::from(NO_WORDS),
    }
}

// The words of the command line, without the program's name.
fn words(rt: &HostRuntime) -> io::Result<Vec<String>> {
    let mut words = Vec::new(rt.alloc());
    for word in env::args(rt)?.skip(1) {
        words.push(word)?;
    }
    Ok(words)
}
