//! What is asked of acts.
use crate::texts::plain;
use chk_bytes::Bytes;
use chk_site::{Act, ActAnswer, Call};
use std::alloc::Global;
use std::test::Fail;

fn is_on(act: &Act, name: &str) -> bool {
    match act.words.as_slice() {
        [word, ..] => word.as_slice() == name.as_bytes(),
        [] => false,
    }
}

// How many bytes were appended to the file or log.
fn appended(acts: &[Act], name: &str) -> usize {
    let mut sum: usize = 0;
    for act in acts {
        let is_append = act.call == Call::Append || act.call == Call::LogAppend;
        if is_append && is_on(act, name) {
            let piece = act.words.as_slice().last();
            sum = sum.saturating_add(piece.map(Bytes::len).unwrap_or(0));
        }
    }
    sum
}

// `CALL [NAME]`: how many acts were this call, `-` being any, on this file or log.
fn count_of(acts: &[Act], text: &str) -> usize {
    let (call, name) = text.split_once(' ').unwrap_or((text, ""));
    let mut count: usize = 0;
    for act in acts {
        let is_call = call == "-" || act.call.name() == call;
        if is_call && (name.is_empty() || is_on(act, name)) {
            count = count.saturating_add(1);
        }
    }
    count
}

// How many of a call's words are text; the others are bytes.
fn texts_in(call: Call) -> usize {
    match call {
        Call::Append | Call::Send => 1,
        Call::Answer => 0,
        _ => usize::MAX,
    }
}

// Of bytes there is the length.
fn add_words(line: &mut String, words: &[Bytes], texts: usize) -> Result<(), Fail> {
    for (i, word) in words.iter().enumerate() {
        if i < texts {
            let text = std::str::from_utf8(word.as_slice())?.trim_end();
            write!(line, " {text}")?;
        } else {
            let length = word.len();
            write!(line, " {length}B")?;
        }
    }
    Ok(())
}

// By whom, the call's name, its words, its number and its answer. A listing gives names, each other
// call bytes.
fn add_act(line: &mut String, act: &Act) -> Result<(), Fail> {
    let (who, call, number) = (act.who.name.as_str(), act.call.name(), act.number);
    write!(line, "{who} {call}")?;
    add_words(line, act.words.as_slice(), texts_in(act.call))?;
    write!(line, " {number} ")?;
    match &act.answer {
        ActAnswer::Done { words, .. } => {
            line.push_str("done")?;
            let texts = if act.call == Call::List {
                usize::MAX
            } else {
                0
            };
            add_words(line, words.as_slice(), texts)?;
        }
        ActAnswer::Refused { fault } => write!(line, "{fault:?}")?,
        _ => line.push_str("no answer")?,
    }
    Ok(line.push('|')?)
}

fn acts_text(alloc: Global, acts: &[Act]) -> Result<String, Fail> {
    let mut text = String::new(alloc);
    for act in acts {
        add_act(&mut text, act)?;
    }
    Ok(text)
}

// The names of the calls that the agent and the program itself made.
fn names_text(alloc: Global, acts: &[Act]) -> Result<String, Fail> {
    let mut text = String::new(alloc);
    for act in acts {
        let who = act.who.name.as_str();
        if who == "h1" || who == "chukwa" {
            text.push_str(act.call.name())?;
            text.push(' ')?;
        }
    }
    Ok(text)
}

fn last_text(alloc: Global, acts: &[Act]) -> Result<String, Fail> {
    let Some(act) = acts.last() else {
        return plain(alloc, "none");
    };
    let (who, call) = (act.who.name.as_str(), act.call.name());
    let is_stopped = matches!(&act.answer, ActAnswer::Stopped { .. });
    let end = if is_stopped { "stopped" } else { "returned" };
    Ok(format!(in alloc; "{who} {call} {end}")?)
}

// - `appended NAME`: how many bytes were appended to the file or log.
// - `count CALL [NAME]`: how many acts were this call, on this file or log; `-` stands for any call.
// - `calls`: the names of the calls of h1 and of the program.
// - `last`: who acted last, by which call, and whether it was stopped.
// - `acts N`: all acts from this number on.
pub(crate) fn about_acts(
    alloc: Global,
    acts: &[Act],
    verb: &str,
    text: &str,
) -> Result<String, Fail> {
    let number = match verb {
        "appended" => appended(acts, text),
        "count" => count_of(acts, text),
        "calls" => return names_text(alloc, acts),
        "last" => return last_text(alloc, acts),
        _ => return acts_text(alloc, acts.get(text.parse()?..).unwrap_or(&[])),
    };
    Ok(format!(in alloc; "{number}")?)
}
