//! The words that the program was called with.

use hm_edge::Memory;
use std::env;
use std::io::ErrorKind;
use std::rt::Env;

/// The words behind the program's name. Where one of them is not text there are none, which the replay refuses.
pub(crate) fn words_behind_name<R: Env + AllocGlobal>(rt: &R) -> Result<Vec<String>, Memory> {
    match env::args(rt) {
        Ok(words) => Ok(words.skip(1).collect(rt.alloc())?),
        Err(error) if error.kind() == ErrorKind::OutOfMemory => Err(Memory),
        Err(_) => Ok(Vec::new(rt.alloc())),
    }
}
