//! Lines of a case.
use crate::parts::Parts;
use crate::report::Report;
use crate::scene::Scene;
use std::test::Fail;

// What a line answers. Its verb is the scene's, or one that all scenes have.
pub(crate) fn answer<S: Scene>(scene: &mut S, parts: &Parts, line: &str) -> Result<String, Fail> {
    let (verb, text) = line.split_once(' ').unwrap_or((line, ""));
    if let Some(given) = scene.step(parts, verb, text)? {
        return Ok(given);
    }
    match scene.outside().step(parts, verb, text)? {
        Some(given) => Ok(given),
        None => Err(Fail::from("no such verb")),
    }
}

// Whether this is the answer that is wanted, in which `...` stands for any text.
pub(crate) fn fits(given: &str, wanted: &str) -> bool {
    let given = given.trim_end();
    match wanted.split_once("...") {
        Some((start, end)) => match given.strip_prefix(start) {
            Some(rest) => rest.ends_with(end),
            None => false,
        },
        None => given == wanted,
    }
}

// What is asked, and the answer that is wanted: this one, if the line has none.
pub(crate) fn split_answer<'a>(line: &'a str, other: &'a str) -> (&'a str, &'a str) {
    match line.split_once(" =>") {
        Some((asked, wanted)) => (asked, wanted.trim()),
        None => (line, other),
    }
}

// Whether the line is answered as it says.
pub(crate) fn play_line<S: Scene>(
    scene: &mut S,
    parts: &Parts,
    line: &str,
    report: &mut Report,
) -> Result<bool, Fail> {
    report.note(line)?;
    if let Some(asked) = line.strip_prefix("do ") {
        let _given = answer(scene, parts, asked)?;
        return Ok(true);
    }
    let (asked, wanted) = split_answer(line, "done");
    let given = answer(scene, parts, asked)?;
    if fits(given.as_str(), wanted) {
        return Ok(true);
    }
    report.answer(given.as_str())?;
    Ok(false)
}

// Plays lines up to the first one that isn't answered as it says.
pub(crate) fn play_lines<S: Scene>(
    scene: &mut S,
    parts: &Parts,
    lines: &str,
    report: &mut Report,
) -> Result<bool, Fail> {
    for line in lines.lines() {
        if !line.is_empty() && !play_line(scene, parts, line, report)? {
            return Ok(false);
        }
    }
    Ok(true)
}
