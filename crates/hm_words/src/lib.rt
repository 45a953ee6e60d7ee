//! The words behind the program's name, and what they ask for.
//!
//! ```text
//!   replay [--versions N] [--max-quantity N] [--low N] [--high N] FILE..
//!   generate NUMBER COUNT [--versions N]
//! ```
//!
//! The first word is compared by hand. The words after it are read by the kit's `clap`, by one simple command for each
//! of the two, without help, version flags, short names or abbreviations. [`read_words`] is the call; what it says of
//! its answer is `asked` of `specs/Asked.antt`, which is `clap`'s own account of the two commands of
//! `specs/Commands.antt`. Words of the plain form, as they stand above, are accepted, by the laws of `src/laws.rt`.
#![tactic(auto)]

mod asked;
mod commands;
mod laws;
mod read;
#[cfg(test)]
mod tests;

pub use asked::{Asked, Settings, WordsRefused};
pub use laws::{a_plain_generate_is_asked, a_plain_replay_is_asked, there_are_plain_words};
pub use read::read_words;
