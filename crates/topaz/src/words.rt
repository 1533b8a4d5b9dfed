//! The words of the command line.

use std::env;
use std::io::ErrorKind;
use std::rt::Env;

/// Why there are no words.
pub enum NoWords {
    // A word isn't UTF-8.
    Usage,
    NoMemory,
}

/// The words after the program's name.
pub fn words<R: Env + AllocGlobal>(rt: &R) -> Result<Vec<String>, NoWords> {
    let all = match env::args(rt) {
        Ok(all) => all,
        Err(error) if error.kind() == ErrorKind::OutOfMemory => return Err(NoWords::NoMemory),
        Err(_) => return Err(NoWords::Usage),
    };
    let mut words = Vec::new(rt.alloc());
    for word in all.skip(1) {
        if words.push(word).is_err() {
            return Err(NoWords::NoMemory);
        }
    }
    Ok(words)
}
