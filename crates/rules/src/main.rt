//! The desk tool: reads a rule file, and prints what the rule is made of or why it is refused.
#![tactic(auto)]

use case_report::list_cases;
use report::{HELP, WRONG_USAGE, check_text, list_rows};
use std::{env, fs, io};

const DEFAULT_FILE: &str = "rule.txt";

/// A file that cannot be read counts as empty.
fn bytes_of(rt: &HostRuntime, file: &str) -> Vec<u8> {
    fs::read(rt, file).unwrap_or_else(|_| Vec::new(rt.alloc()))
}

fn obey(rt: &HostRuntime, command: &str, file: &str) -> io::Result<()> {
    let heap = rt.alloc();
    // A line a command: a table of closures would hold the same lines.
    match command {
        "check" => rt.print(check_text(heap, bytes_of(rt, file).as_slice())?.as_str()),
        "rows" => rt.print(list_rows(heap, bytes_of(rt, file).as_slice())?.as_str()),
        "cases" => rt.print(list_cases(heap)?.as_str()),
        "help" => rt.print(HELP),
        _ => rt.print(WRONG_USAGE),
    }
}

fn run(rt: &HostRuntime) -> io::Result<()> {
    let mut words = env::args(rt)?.skip(1);
    match (words.next(), words.next(), words.next()) {
        (Some(command), None, None) => obey(rt, command.as_str(), DEFAULT_FILE),
        (Some(command), Some(file), None) => obey(rt, command.as_str(), file.as_str()),
        _ => rt.print(WRONG_USAGE),
    }
}

fn main(rt: HostRuntime) {
    // The status is 0 whatever is said of the rule, and where nothing can be printed there is nobody to tell.
    let _ = run(&rt);
}
