// The words that a program is called with.
use run_parts::Code;
use std::env::{self, Env};
use std::io::ErrorKind;

/// The words after the program's name, or the code of a run that has none. A word that is no text is not accepted.
pub fn words<R: Env + AllocGlobal>(rt: &R) -> Result<Vec<String>, Code> {
    let arguments = match env::args(rt) {
        Ok(arguments) => arguments,
        Err(error) => {
            return Err(match error.kind() {
                ErrorKind::OutOfMemory => Code::Memory,
                _ => Code::Usage,
            });
        }
    };
    let mut words = Vec::new(rt.alloc());
    for word in arguments.skip(1) {
        if words.push(word).is_err() {
            return Err(Code::Memory);
        }
    }
    Ok(words)
}
