//! `omni`: answers questions about recorded runs of RISC-V programs.
#![tactic(auto)]

pub use om_command::omni;
use om_command::out_of_memory;
use om_io::{DirShelf, StdSink};
use std::alloc::AllocError;
use std::env;
use std::io::ErrorKind;
use std::process::ExitCode;

/// The words after the program's own name; none where the system can't give them, as where one isn't UTF-8.
fn words_of(rt: &HostRuntime) -> Result<Vec<String>, AllocError> {
    let mut words = Vec::new(rt.alloc());
    match env::args(rt) {
        Ok(mut args) => {
            let _ = args.next();
            for word in args {
                words.push(word)?;
            }
        }
        Err(error) => {
            if error.kind() == ErrorKind::OutOfMemory {
                return Err(AllocError);
            }
        }
    }
    Ok(words)
}

fn main(rt: HostRuntime) -> ExitCode {
    let mut shelf = DirShelf::new(&rt, ".");
    let mut out = StdSink::new(rt.stdout());
    let mut err = StdSink::new(rt.stderr());
    let status = match words_of(&rt) {
        Ok(words) => omni(rt.alloc(), words.as_slice(), &mut shelf, &mut out, &mut err),
        Err(AllocError) => out_of_memory(&mut err),
    };
    ExitCode::from(status)
}
