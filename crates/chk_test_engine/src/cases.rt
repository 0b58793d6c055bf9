//! Files of cases.
use crate::faults::play_case;
use crate::parts::Parts;
use crate::report::Report;
use crate::scene::Scene;
use std::alloc::Global;
use std::test::Fail;

// A case, and the parts that its lines may name. `middle` is empty, or has the harms and the work;
// `last` is what holds behind it.
#[derive(Clone, Copy)]
pub(crate) struct Case<'a> {
    pub(crate) alloc: Global,
    pub(crate) parts: &'a Parts,
    pub(crate) name: &'a str,
    pub(crate) setup: &'a str,
    pub(crate) middle: &'a str,
    pub(crate) last: &'a str,
}

// The text without comments, each of its lines joined with the one on which it goes on.
pub(crate) fn joined(alloc: Global, text: &str) -> Result<String, Fail> {
    let mut all = String::new(alloc);
    let mut goes_on = false;
    for line in text.lines() {
        if !goes_on && line.starts_with("#") {
            continue;
        }
        let line = if goes_on { line.trim_start() } else { line };
        goes_on = line.ends_with("\\");
        all.push_str(line.strip_suffix("\\").unwrap_or(line))?;
        if !goes_on {
            all.push('\n')?;
        }
    }
    Ok(all)
}

fn read_case<'a>(alloc: Global, parts: &'a Parts, text: &'a str) -> Case<'a> {
    let end = text.find("\n").unwrap_or(text.len());
    let lines = text.get(end..).unwrap_or("");
    let start = lines.find("\nharm ").unwrap_or(lines.len());
    let rest = lines.get(start..).unwrap_or("");
    let (middle, last) = rest.split_once("\nthen\n").unwrap_or((rest, ""));
    Case {
        alloc,
        parts,
        name: text.get(..end).unwrap_or(""),
        setup: lines.get(..start).unwrap_or(""),
        middle,
        last,
    }
}

// Plays the case, whose first line is its name, and adds a line if it fails.
fn play_named<S: Scene>(
    alloc: Global,
    parts: &Parts,
    text: &str,
    report: &mut Report,
    failed: &mut String,
) -> Result<(), Fail> {
    let case = read_case(alloc, parts, text);
    match play_case::<S>(case, report) {
        Ok(true) => Ok(()),
        Ok(false) => Ok(report.add_to(failed)?),
        Err(fail) => {
            let _ = report.add_to(failed);
            Err(fail)
        }
    }
}

/// Plays each case of a file on a scene of its own, and answers how many there are. For a case that
/// fails it adds the line `CASE: LINE: GIVEN`. In a case that can't be played it fails, with the line
/// `CASE: LINE` added.
pub fn play_file<S: Scene>(
    alloc: Global,
    parts: &Parts,
    text: &str,
    failed: &mut String,
) -> Result<u64, Fail> {
    let text = joined(alloc, text)?;
    let mut report = Report::new(alloc);
    let mut count: u64 = 0;
    for lines in text.as_str().split("\n\n") {
        let lines = lines.trim_start_matches('\n');
        if !lines.is_empty() {
            play_named::<S>(alloc, parts, lines, &mut report, failed)?;
            count = count.saturating_add(1);
        }
    }
    Ok(count)
}
