//! What `clap` makes of words, in the plain form and outside it.
use crate::{Asked, WordsRefused, read_words};
use std::alloc::{AllocError, Global};
use std::fmt::Write;
use std::test::Fail;

/// Words with one space between them, where `~` stands for an empty word, and what they ask for.
const ROWS: [(&str, &str); 71] = [
    ("replay f", "replay 4096 4294967295 1 4294967295 f"),
    ("replay a b c", "replay 4096 4294967295 1 4294967295 a b c"),
    (
        "replay --versions 512 f",
        "replay 512 4294967295 1 4294967295 f",
    ),
    (
        "replay --high 20 --max-quantity 100 --versions 64 --low 5 a b",
        "replay 64 100 5 20 a b",
    ),
    ("replay --low 7 --high 7 f", "replay 4096 4294967295 7 7 f"),
    (
        "replay --versions 65536 f",
        "replay 65536 4294967295 1 4294967295 f",
    ),
    (
        "replay a b c d e f g h i",
        "replay 4096 4294967295 1 4294967295 a b c d e f g h i",
    ),
    (
        "replay generate",
        "replay 4096 4294967295 1 4294967295 generate",
    ),
    ("replay help", "replay 4096 4294967295 1 4294967295 help"),
    (
        "replay replay",
        "replay 4096 4294967295 1 4294967295 replay",
    ),
    ("generate 7 200", "generate 4096 7 200"),
    ("generate 7 200 --versions 512", "generate 512 7 200"),
    ("generate 0 0", "generate 4096 0 0"),
    (
        "generate 18446744073709551615 1000000",
        "generate 4096 18446744073709551615 1000000",
    ),
    ("generate --versions 512 7 200", "generate 512 7 200"),
    ("generate 7 --versions 512 200", "generate 512 7 200"),
    ("generate 7 --versions=512 200", "generate 512 7 200"),
    (
        "replay --versions=512 f",
        "replay 512 4294967295 1 4294967295 f",
    ),
    (
        "replay f --versions 512",
        "replay 512 4294967295 1 4294967295 f",
    ),
    (
        "replay a --low 5 b",
        "replay 4096 4294967295 5 4294967295 a b",
    ),
    (
        "replay --versions 0512 f",
        "replay 512 4294967295 1 4294967295 f",
    ),
    (
        "replay --versions +512 f",
        "replay 512 4294967295 1 4294967295 f",
    ),
    (
        "replay -- --versions",
        "replay 4096 4294967295 1 4294967295 --versions",
    ),
    ("replay -- f", "replay 4096 4294967295 1 4294967295 f"),
    ("replay -", "replay 4096 4294967295 1 4294967295 -"),
    ("replay ~", "replay 4096 4294967295 1 4294967295 "),
    ("generate +7 0200", "generate 4096 7 200"),
    ("~", "refused"),
    ("frob f", "refused"),
    ("Replay f", "refused"),
    ("replay", "refused"),
    ("replay --", "refused"),
    ("replay --versions", "refused"),
    ("replay f --versions", "refused"),
    ("replay --versions f", "refused"),
    ("replay --versions= f", "refused"),
    ("replay --versions ~ f", "refused"),
    ("replay --versions 64 --versions 64 f", "refused"),
    ("replay --versions 64 --versions=128 f", "refused"),
    ("replay --versions 63 f", "refused"),
    ("replay --versions 65537 f", "refused"),
    ("replay --versions -64 f", "refused"),
    ("replay --versions=-64 f", "refused"),
    ("replay --versions 0x40 f", "refused"),
    (
        "replay --versions 64 128",
        "replay 64 4294967295 1 4294967295 128",
    ),
    ("replay --vers 64 f", "refused"),
    ("replay --Versions 64 f", "refused"),
    ("replay -v f", "refused"),
    ("replay -versions 64 f", "refused"),
    ("replay --help", "refused"),
    ("replay -h", "refused"),
    ("replay --version", "refused"),
    ("replay -V", "refused"),
    ("replay --count 1 f", "refused"),
    ("replay --low 5 --high 4 f", "refused"),
    ("replay --high 4 --low 5 f", "refused"),
    ("replay --max-quantity 0 f", "refused"),
    ("replay --low 0 f", "refused"),
    (
        "replay --max-quantity 4294967295 f",
        "replay 4096 4294967295 1 4294967295 f",
    ),
    ("replay --max-quantity 4294967296 f", "refused"),
    ("replay --high 18446744073709551616 f", "refused"),
    ("generate", "refused"),
    ("generate 7", "refused"),
    ("generate 7 1000001", "refused"),
    ("generate 18446744073709551616 1", "refused"),
    ("generate 7 200 9", "refused"),
    ("generate 7 -200", "refused"),
    ("generate seven 200", "refused"),
    ("generate 7 200 --low 5", "refused"),
    ("generate 7 200 --versions 63", "refused"),
    ("generate --help", "refused"),
];

#[test]
fn words_ask_for_what_the_table_says(rt: HostRuntime) -> Result<(), Fail> {
    let alloc = rt.alloc();
    for (line, wanted) in ROWS.as_slice() {
        let words = words_of(alloc, line)?;
        let found = told(alloc, read_words(alloc, words.as_slice()))?;
        assert!(rt; found.as_str() == *wanted, "{line}: {found}");
    }
    Ok(())
}

#[test]
fn no_word_is_refused(rt: HostRuntime) {
    let none: [String; 0] = [];
    assert!(rt;
        matches!(
            read_words(rt.alloc(), none.as_slice()),
            Err(WordsRefused::Refused)
        )
    );
}

/// The words of a line.
fn words_of(alloc: Global, line: &str) -> Result<Vec<String>, AllocError> {
    let mut words = Vec::new(alloc);
    for word in line.split(' ') {
        let word = if word == "~" { "" } else { word };
        words.push(String::from_str(alloc, word)?)?;
    }
    Ok(words)
}

/// What was read, in the order of the words' own options.
fn told(alloc: Global, read: Result<Asked<'_>, WordsRefused>) -> Result<String, Fail> {
    let mut text = String::new(alloc);
    match read {
        Ok(Asked::Replay { settings, files }) => {
            let limits = settings.limits;
            write!(
                text,
                "replay {} {} {} {}",
                settings.versions, limits.max_quantity, limits.low, limits.high
            )?;
            for file in &files {
                write!(text, " {file}")?;
            }
        }
        Ok(
            Asked::Generate {
                versions,
                number,
                count,
            },
        ) => write!(text, "generate {versions} {number} {count}")?,
        Err(WordsRefused::Refused) => write!(text, "refused")?,
        Err(WordsRefused::Memory) => write!(text, "memory")?,
    }
    Ok(text)
}

/// How many files the words name.
fn files_named(alloc: Global, words: &[String]) -> Result<usize, WordsRefused> {
    match read_words(alloc, words)? {
        Asked::Replay { files, .. } => Ok(files.len()),
        Asked::Generate { .. } => Ok(0),
    }
}

#[test]
fn a_refusal_goes_up_by_a_question_mark(rt: HostRuntime) -> Result<(), Fail> {
    let alloc = rt.alloc();
    let words = words_of(alloc, "replay a b")?;
    assert!(rt; files_named(alloc, words.as_slice()) == Ok(2));
    let words = words_of(alloc, "replay")?;
    assert!(rt; files_named(alloc, words.as_slice()) == Err(WordsRefused::Refused));
    Ok(())
}
