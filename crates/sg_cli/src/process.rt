//! The program over the process that it runs in: its words, the files of std and the two outputs.

use crate::program::run_program;
use sg_shelf::{FileShelf, OutSink};
use std::alloc::AllocError;
use std::env;
use std::io::ErrorKind;
use std::process::ExitCode;
use std::rt::Env;

/// The words after the program's name. Where the arguments are no text, there are none, and so no command.
fn words_of(rt: &HostRuntime) -> Result<Vec<String>, AllocError> {
    let alloc = rt.alloc();
    let mut words = Vec::new(alloc);
    match env::args(rt) {
        Ok(arguments) => {
            for word in arguments.skip(1) {
                words.push(word)?;
            }
        }
        Err(error) => {
            if error.kind() == ErrorKind::OutOfMemory {
                return Err(AllocError);
            }
        }
    }
    Ok(words)
}

/// Does what the words of the process ask for, over the files of std and the two outputs, and answers the status with
/// which the process is to end.
pub fn run_process(rt: &HostRuntime) -> ExitCode {
    let mut shelf = FileShelf::new(rt);
    let mut out = OutSink::new(rt.stdout());
    let mut err = OutSink::new(rt.stderr());
    run_program(rt.alloc(), words_of(rt), &mut shelf, &mut out, &mut err)
}
