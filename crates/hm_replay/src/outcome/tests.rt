//! The program's work over shelves and sinks in memory.
mod callers;

use crate::{Outcome, run};
use hm_desk::{Gate, NoGate};
use hm_edge::{MemoryShelf, MemorySink, SinkFail};
use std::alloc::{AllocError, Global};
use std::test::Fail;
use std::thread::Threads;

/// The names of files.
const NAMES: [&str; 8] = ["a", "b", "c", "d", "e", "f", "g", "h"];

/// The words of a replay.
fn words_of(alloc: Global, words: &[&str]) -> Result<Vec<String>, AllocError> {
    let mut texts = Vec::new(alloc);
    for word in words {
        texts.push(String::from_str(alloc, word)?)?;
    }
    Ok(texts)
}

/// A shelf with these files, which are named `a`, `b` and so on.
fn shelf_of(alloc: Global, texts: &[&str]) -> Result<MemoryShelf, AllocError> {
    let mut files = Vec::new(alloc);
    for (name, text) in NAMES.iter().zip(texts.iter()) {
        let name = String::from_str(alloc, name)?;
        files.push((name, text.as_bytes().to_vec(alloc)?))?;
    }
    Ok(MemoryShelf::new(files, Vec::new(alloc)))
}

/// What a run came to, and what it wrote.
#[derive(Drop)]
struct Ran {
    outcome: Outcome,
    out: MemorySink,
    err: MemorySink,
}

/// Runs the words over the files, into a sink that fails so.
fn run_into<R: Threads + Sync, G: Gate + Sync>(
    rt: &R,
    alloc: Global,
    words: &[&str],
    mut shelf: MemoryShelf,
    fails: Vec<SinkFail>,
    gate: &G,
) -> Result<Ran, Fail> {
    let words = words_of(alloc, words)?;
    let mut out = MemorySink::new(alloc, 1 << 17, fails)?;
    let mut err = MemorySink::new(alloc, 1024, Vec::new(alloc))?;
    let outcome = run(
        rt,
        alloc,
        words.as_slice(),
        &mut shelf,
        &mut out,
        &mut err,
        gate,
    );
    Ok(Ran { outcome, out, err })
}

/// Runs the words over the files, with nobody at the gate and sinks that do not fail.
fn run_words<R: Threads + Sync>(
    rt: &R,
    alloc: Global,
    words: &[&str],
    texts: &[&str],
) -> Result<Ran, Fail> {
    let shelf = shelf_of(alloc, texts)?;
    run_into(rt, alloc, words, shelf, Vec::new(alloc), &NoGate)
}

/// A file's text, the status, the report and the line of the refusal.
const FILES: [(&str, u8, &str, &str); 16] = [
    ("", 0, "board 0\nend 0 0 0\n", ""),
    (
        "L,1,B,10,5\nL,2,S,9,3\n",
        0,
        "order 1 1 1 rested\norder 2 1 2 filled\nfill 1 2 1 10 3\nboard 2\nend 2 1 1\n",
        "",
    ),
    (
        "L,1,B,10,4\nL,2,B,10,6\nL,3,S,10,10\n",
        0,
        "order 1 1 1 rested\norder 2 1 2 rested\norder 3 1 3 filled\nfill 1 3 1 10 4\nfill 2 3 2 10 6\nboard 3\nend 3 2 0\n",
        "",
    ),
    (
        "L,1,S,12,1\nL,2,S,11,1\nL,3,B,12,2\n",
        0,
        "order 1 1 1 rested\norder 2 1 2 rested\norder 3 1 3 filled\nfill 1 3 2 11 1\nfill 2 3 1 12 1\nboard 3\nend 3 2 0\n",
        "",
    ),
    (
        "L,1,S,10,2\nL,2,S,10,3\nL,3,B,11,9\n",
        0,
        "order 1 1 1 rested\norder 2 1 2 rested\norder 3 1 3 rested\nfill 1 3 1 10 2\nfill 2 3 2 10 3\nboard 3\nend 3 2 1\n",
        "",
    ),
    (
        "L,1,B,10,5\nL,1,B,11,2\nL,2,S,10,5\nL,1,B,9,1\n",
        0,
        "order 1 1 1 rested\norder 2 1 2 repeated\norder 3 1 3 filled\nfill 1 3 1 10 5\norder 4 1 4 rested\nboard 4\nend 4 1 1\n",
        "",
    ),
    (
        "L,1,B,4294967295,1\n",
        0,
        "order 1 1 1 rested\nboard 1\nend 1 0 1\n",
        "",
    ),
    ("L,1,B,4294967296,1\n", 3, "", "hm: text 1 1 price\n"),
    ("L,1,B,0,1\n", 3, "", "hm: text 1 1 price\n"),
    ("L,1,B,10,5\n\nL,2,S,9\n", 3, "", "hm: text 1 2 fields\n"),
    ("X,1,B,10,5", 3, "", "hm: text 1 1 kind\n"),
    ("M,1,B,10,5\n", 3, "", "hm: text 1 1 price\n"),
    ("C,1,B,,\n", 3, "", "hm: text 1 1 side\n"),
    (
        "L,1,B,10,5\nM,2,S,,9\n",
        0,
        "order 1 1 1 rested\norder 2 1 2 dropped\nfill 1 2 1 10 5\nboard 2\nend 2 1 0\n",
        "",
    ),
    (
        "L,1,B,10,5\nC,1,,,\nC,1,,,\n",
        0,
        "order 1 1 1 rested\norder 2 1 2 cancelled\norder 3 1 3 unknown\nboard 3\nend 3 0 0\n",
        "",
    ),
    (
        "L,1,B,10,5\r\n\n\"L\",2,S,9,3",
        0,
        "order 1 1 1 rested\norder 2 1 2 filled\nfill 1 2 1 10 3\nboard 2\nend 2 1 1\n",
        "",
    ),
];

#[test]
fn a_file_gives_its_report_or_the_first_refused_row(rt: HostRuntime) -> Result<(), Fail> {
    for (text, status, report, line) in FILES {
        let ran = run_words(&rt, rt.alloc(), &["replay", "a"], &[text])?;
        assert_eq!(rt; ran.outcome.status, status, "at {text}");
        assert_eq!(rt; ran.out.bytes(), report.as_bytes(), "at {text}");
        assert_eq!(rt; ran.err.bytes(), line.as_bytes(), "at {text}");
    }
    Ok(())
}

/// The words, the status and the line of the refusal, where `a` is the only file.
const WORDS: [(&[&str], u8, &str); 13] = [
    (&[], 2, "hm: words\n"),
    (&["replay"], 2, "hm: words\n"),
    (&["frob", "a"], 2, "hm: words\n"),
    (&["replay", "-a"], 2, "hm: words\n"),
    (&["replay", "--versions", "63", "a"], 2, "hm: words\n"),
    (
        &["replay", "--low", "5", "--high", "4", "a"],
        2,
        "hm: words\n",
    ),
    (&["replay", "--max-quantity", "0", "a"], 2, "hm: words\n"),
    (&["generate", "7"], 2, "hm: words\n"),
    (&["replay", "a", ""], 4, "hm: read 2\n"),
    (&["replay", "a", "-b"], 2, "hm: words\n"),
    (&["replay", "b"], 4, "hm: read 1\n"),
    (&["replay", "a", "b"], 4, "hm: read 2\n"),
    (
        &["replay", "a", "b", "c", "d", "e", "f", "g", "h", "i"],
        7,
        "hm: files 9\n",
    ),
];

#[test]
fn other_words_and_missing_files_are_refused(rt: HostRuntime) -> Result<(), Fail> {
    for (words, status, line) in WORDS {
        let ran = run_words(&rt, rt.alloc(), words, &[""])?;
        assert_eq!(rt; ran.outcome.status, status, "at {line}");
        assert!(rt; ran.out.bytes().is_empty(), "at {line}");
        assert_eq!(rt; ran.err.bytes(), line.as_bytes());
    }
    Ok(())
}

/// The words and what is written, where `a` is the only file.
const OPTIONS: [(&[&str], &str); 5] = [
    (
        &[
            "replay",
            "--max-quantity",
            "100",
            "--low",
            "5",
            "--high",
            "20",
            "a",
        ],
        "order 1 1 1 rested\norder 2 1 2 denied\norder 3 1 3 dropped\nfill 1 3 1 10 5\norder 4 1 4 dropped\norder 5 1 5 denied\norder 6 1 6 rested\norder 7 1 7 cancelled\nboard 7\nend 7 1 0\n",
    ),
    (
        &["generate", "7", "0"],
        "generated 7 0\nboard 0\nend 0 0 0\n",
    ),
    (
        &["generate", "7", "1"],
        "generated 7 1\nboard 1\nend 1 0 1\n",
    ),
    (
        &["generate", "7", "2"],
        "generated 7 2\nboard 2\nend 2 0 1\n",
    ),
    (
        &["generate", "7", "200", "--versions", "16384"],
        "generated 7 200\nboard 200\nend 200 65 17\n",
    ),
];

#[test]
fn options_and_made_orders_have_their_effect(rt: HostRuntime) -> Result<(), Fail> {
    let text = "L,1,B,10,5\nL,2,B,9,101\nI,3,S,9,8\nM,4,B,,2\nL,5,S,21,1\nL,6,S,12,4\nC,6,,,\n";
    for (words, written) in OPTIONS {
        let ran = run_words(&rt, rt.alloc(), words, &[text])?;
        assert_eq!(rt; ran.outcome.status, 0);
        assert_eq!(rt; ran.out.bytes(), written.as_bytes());
        assert!(rt; ran.err.bytes().is_empty());
    }
    Ok(())
}

#[test]
fn two_files_give_the_report_of_one_of_their_interleavings(rt: HostRuntime) -> Result<(), Fail> {
    let texts = ["L,1,B,10,5\n", "L,1,S,9,5\n"];
    let ran = run_words(&rt, rt.alloc(), &["replay", "a", "b"], &texts)?;
    assert_eq!(rt; ran.outcome.status, 0);
    let buy_first =
        b"order 1 1 1 rested\norder 2 2 1 filled\nfill 1 2 1 10 5\nboard 1 1\nend 2 1 0\n";
    let sell_first =
        b"order 1 2 1 rested\norder 2 1 1 filled\nfill 1 2 1 9 5\nboard 1 1\nend 2 1 0\n";
    let report = ran.out.bytes();
    assert!(rt; report == buy_first.as_slice() || report == sell_first.as_slice());
    assert!(rt; ran.err.bytes().is_empty());
    Ok(())
}

#[test]
fn a_cancel_takes_out_no_order_of_another_file(rt: HostRuntime) -> Result<(), Fail> {
    let texts = ["L,1,B,10,5\n", "C,1,,,\n"];
    let ran = run_words(&rt, rt.alloc(), &["replay", "a", "b"], &texts)?;
    assert_eq!(rt; ran.outcome.status, 0);
    let buy_first = b"order 1 1 1 rested\norder 2 2 1 unknown\nboard 1 1\nend 2 0 1\n";
    let cancel_first = b"order 1 2 1 unknown\norder 2 1 1 rested\nboard 1 1\nend 2 0 1\n";
    let report = ran.out.bytes();
    assert!(rt; report == buy_first.as_slice() || report == cancel_first.as_slice());
    Ok(())
}

#[test]
fn a_failed_write_leaves_a_front_of_the_report(rt: HostRuntime) -> Result<(), Fail> {
    let alloc = rt.alloc();
    let shelf = shelf_of(alloc, &["L,1,B,10,5\nL,2,S,9,3\n"])?;
    let fails = vec![in alloc; SinkFail { call: 2, wrote: 4 }]?;
    let ran = run_into(&rt, alloc, &["replay", "a"], shelf, fails, &NoGate)?;
    assert_eq!(rt; ran.outcome.status, 5);
    assert_eq!(rt; ran.out.bytes(), b"order 1 1 1 rested\norde".as_slice());
    assert_eq!(rt; ran.err.bytes(), b"hm: write\n".as_slice());
    Ok(())
}

/// How many rows the shortest file has that passes the room, where each order rests behind the others.
const ROWS_THAT_PASS: u32 = 18;

/// The rows of so many asks at rising prices, each of which makes all cells of both its lists anew.
fn rising_asks(alloc: Global, rows: u32) -> Result<String, AllocError> {
    let mut text = String::new(alloc);
    for row in 1..=rows {
        let line = format!(in alloc; "L,{row},S,{row},1\n")?;
        text.push_str(line.as_str())?;
    }
    Ok(text)
}

#[test]
fn a_file_that_passes_the_room_ends_with_six(rt: HostRuntime) -> Result<(), Fail> {
    for (rows, status, line) in [
        (ROWS_THAT_PASS - 1, 0, ""),
        (ROWS_THAT_PASS, 6, "hm: full 1\n"),
    ] {
        let text = rising_asks(rt.alloc(), rows)?;
        let words = ["replay", "a", "--versions", "64"];
        let ran = run_words(&rt, rt.alloc(), &words, &[text.as_str()])?;
        assert_eq!(rt; ran.outcome.status, status, "at {rows}");
        assert_eq!(rt; ran.out.bytes().is_empty(), status == 6, "at {rows}");
        assert_eq!(rt; ran.err.bytes(), line.as_bytes(), "at {rows}");
        let full = ran.outcome.full.map(|at| (at.caller, at.used));
        assert_eq!(rt; full, if status == 6 { Some((0, 64)) } else { None });
    }
    Ok(())
}

/// How many bytes a file has that is one too long.
const TOO_LONG: usize = 67_108_865;

#[test]
fn a_file_that_is_too_long_is_named(rt: HostRuntime) -> Result<(), Fail> {
    let alloc = rt.alloc();
    let bytes = vec![in alloc; b'\n'; TOO_LONG]?;
    let files = vec![in alloc; (String::from_str(alloc, "a")?, bytes)]?;
    let shelf = MemoryShelf::new(files, Vec::new(alloc));
    let ran = run_into(
        &rt,
        alloc,
        &["replay", "a"],
        shelf,
        Vec::new(alloc),
        &NoGate,
    )?;
    assert_eq!(rt; ran.outcome.status, 7);
    assert_eq!(rt; ran.err.bytes(), b"hm: long 1\n".as_slice());
    Ok(())
}
