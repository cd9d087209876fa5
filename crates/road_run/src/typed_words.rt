//! The words that the system hands over.

ghost use Rattle.std.specs.Prelude.{◌≡◌, drop};

use std::alloc::AllocError;
use std::rt::Env;
use std::{env, io};

/// The words of the command line, without the program's name. Words that are no text make no command, as
/// none do. It answers an error only where memory runs out.
pub fn typed_words_of<R: Env + AllocGlobal>(rt: &R) -> Result<Vec<String>, AllocError> {
    match env::args(rt) {
        Ok(all) => Ok(without_name(all.collect(rt.alloc())?)),
        Err(error) if error.kind() == io::ErrorKind::OutOfMemory => Err(AllocError),
        Err(_) => Ok(Vec::new(rt.alloc())),
    }
}

// What stands behind the program's name.
fn without_name(mut words: Vec<String>) -> Vec<String>
    ensures { result.items ≡ drop 1 words.items }
{
    if !words.is_empty() {
        let _name = words.remove(0);
    }
    words
}
