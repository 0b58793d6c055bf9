//! Runs of commands.
use chk_test_engine::{Outside, shown};
use chukwa_run::run;
use std::alloc::Global;
use std::test::Fail;

fn words_of<'a>(alloc: Global, text: &'a str) -> Result<Vec<&'a str>, Fail> {
    let mut words = Vec::new(alloc);
    for word in text.split(' ') {
        if !word.is_empty() {
            words.push(word)?;
        }
    }
    Ok(words)
}

// The status, and what was printed. Each run is a process of its own, also behind a stop.
pub(crate) fn run_command(outside: &mut Outside, text: &str) -> Result<String, Fail> {
    let alloc = outside.alloc;
    outside.restart();
    outside.begin();
    let before = outside.site.printed(alloc)?.len();
    let words = words_of(alloc, text)?;
    let status = run(alloc, &mut outside.site, words.as_slice());
    let printed = outside.site.printed(alloc)?;
    let lines = shown(alloc, printed.as_slice().get(before..).unwrap_or(b""))?;
    let lines = lines.as_str();
    Ok(format!(in alloc; "{status} {lines}")?)
}

// How many bytes all runs printed.
pub(crate) fn printed_size(outside: &Outside) -> Result<String, Fail> {
    let size = outside.site.printed(outside.alloc)?.len();
    Ok(format!(in outside.alloc; "{size}")?)
}
