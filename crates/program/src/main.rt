// The program: with no argument it runs the run file on standard input and prints its log, its counts and the judge's number; with `left` it prints
// the nodes left in each queue in place of the log; with `judge` it judges the log on standard input.
#![tactic(auto)]

use std::env::{Env, FillError};

mod print; // lines of more than one kind

// One byte more than the longest good run file, which has 3 + (1 + 8) + (2 + 3 × 256) + (2 + 4,096) = 4,880. The rest of a longer file is not
// read, and its reply is that of these bytes. For up to the first thing that is wrong each count is in its range, so a section that is reached
// starts, and if its count is right ends, within the first 4,880: number 1 does not arise, 2 to 6 are decided there, and if none of them is
// given, there is a byte after section 4 among the 4,881, which is 7.
const FILE_BYTES: usize = 4881;

// One byte more than the longest log. The rest of a longer one is not read, and its reply is that of these bytes: the first five decide 12, and
// if that is not given there are at most 256 entries, so that a byte stands after them, which is 13.
const JUDGED_BYTES: usize = call_log::LONGEST_LOG + 1;

// What is printed of a run before its counts: the entries of its log, or the nodes that they leave in each queue.
#[derive(Clone, Copy)]
enum Shows {
    Log,
    Left,
}

// Runs a file, and prints what is asked for, the counts and the judge's number.
fn run_file(rt: &impl Print, file: &[u8], shows: Shows) {
    let mut buffer = [0u8; call_log::LONGEST_LOG];
    let mut report = [0u16; 4];
    let mut table = [0u16; bench::TABLE_SIZE];
    let log = bench::run(file, &mut buffer, &mut report, &mut table);
    // four numbers, the first of them why a file is refused: the C interface hands out the same, and `HandsBack` says so of `bench::run`
    let [refused, entries, steps, gone] = report;
    if refused != 0 {
        let _ = println!(rt; "refused {refused}");
        return;
    }
    match shows {
        Shows::Log => print::entries(rt, log, entries),
        Shows::Left => print::left(rt, log, gone),
    }
    let (verdict, _) = rules::numbers(judge::judge(log));
    let _ = println!(rt; "entries {entries} steps {steps} gone-round {gone} judge {verdict}");
}

// Runs the file on standard input.
fn run(rt: &HostRuntime, shows: Shows) {
    let mut file = [0u8; FILE_BYTES];
    if let Some(n) = stdio::read(rt, &mut rt.stdin(), &mut file) {
        run_file(rt, &file[..n], shows);
    }
}

// Judges the log on standard input.
fn judge(rt: &HostRuntime) {
    let mut log = [0u8; JUDGED_BYTES];
    if let Some(n) = stdio::read(rt, &mut rt.stdin(), &mut log) {
        let (number, entry) = rules::numbers(judge::judge(&log[..n]));
        let _ = println!(rt; "judge {number} entry {entry}");
    }
}

// Does what one word asks.
fn asked(rt: &HostRuntime, word: &[u8]) {
    match word {
        b"left" => run(rt, Shows::Left),
        b"judge" => judge(rt),
        b"help" => print::usage(&rt.stdout()),
        _ => print::usage(&rt.stderr()),
    }
}

// Whether the command has a word i. Word 0 is its name.
fn has_word(rt: &impl Env, i: usize) -> bool {
    !matches!(rt.arg(i, &mut []), Err(FillError::NotPresent))
}

fn main(rt: HostRuntime) {
    let mut word = [0u8; 8];
    let n = rt.arg(1, &mut word).unwrap_or(0); // a longer word is none that is known
    if !has_word(&rt, 1) {
        run(&rt, Shows::Log);
    } else if !has_word(&rt, 2) {
        asked(&rt, &word[..n]);
    } else {
        print::usage(&rt.stderr());
    }
}
