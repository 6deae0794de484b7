//! The words of the command line.
use std::env;
use std::io::ErrorKind;
use std::rt::Env;

/// The words of the command line after the program's own name.
///
/// # Errors
///
/// `InvalidData` if a word is no text, and another kind for want of memory.
pub fn words_after_name<R: Env + AllocGlobal>(rt: &R) -> Result<Vec<String>, ErrorKind> {
    let args = env::args(rt).map_err(|error| error.kind())?;
    let mut words = Vec::new(rt.alloc());
    for word in args.skip(1) {
        if words.push(word).is_err() {
            return Err(ErrorKind::OutOfMemory);
        }
    }
    Ok(words)
}
