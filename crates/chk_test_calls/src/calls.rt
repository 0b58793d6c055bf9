// A line `CALL NAME TEXT AT MAX = ANSWER` of a program of calls; what a call doesn't take is left out or `-`.
use crate::answers::{bytes, done, names, number, piece, suffix, taking};
use chk_site::{CallFault, Part, Piece, Site, Suffix, Who};
use std::alloc::Global;
use std::test::Fail;

#[derive(Clone, Copy)]
struct Asked<'a> {
    call: &'a str,
    name: &'a str,
    text: &'a str,
    at: u64,
    max: u32,
}

fn read(asked: &str) -> Result<Asked<'_>, Fail> {
    let mut words = asked.split(' ');
    Ok(Asked {
        call: words.next().ok_or("no call")?,
        name: words.next().ok_or("no name")?,
        text: words.next().unwrap_or("-"),
        at: words.next().unwrap_or("0").parse()?,
        max: words.next().unwrap_or("0").parse()?,
    })
}

/// Makes the call of this line. Where it isn't answered so, what is refused is the line with its answer.
pub fn follows<S: Site>(alloc: Global, site: &mut S, who: &Who, line: &str) -> Result<(), Fail> {
    let mut told = String::new(alloc);
    answered(alloc, site, who, line, &mut told)?;
    if told.as_str() == line {
        Ok(())
    } else {
        Err(Fail::new(told.as_str()))
    }
}

// Makes the call of this line, and adds it to what is told, with its answer.
fn answered<S: Site>(
    alloc: Global,
    site: &mut S,
    who: &Who,
    line: &str,
    told: &mut String,
) -> Result<(), Fail> {
    let (asked, _) = line.split_once(" = ").ok_or("no answer")?;
    told.push_str(asked)?;
    told.push_str(" = ")?;
    let asked = read(asked)?;
    match asked.call {
        "start" | "pause" | "say" | "clock" => by_process(alloc, site, who, asked, told),
        "read" | "size" | "list" => asks_file(alloc, site, who, asked, told),
        "logread" | "lognewest" | "logappend" => on_log(alloc, site, who, asked, told),
        "send" | "got" | "take" | "more" | "answer" => on_message(alloc, site, who, asked, told),
        _ => changes_file(alloc, site, who, asked, told),
    }
}

// A pause stands in the place of AT.
fn by_process<S: Site>(
    alloc: Global,
    site: &mut S,
    who: &Who,
    asked: Asked<'_>,
    told: &mut String,
) -> Result<(), Fail> {
    match asked.call {
        "start" => done(site.start(alloc, who), told),
        "pause" => done(site.pause(alloc, who, asked.at), told),
        "say" => done(site.say(alloc, who, asked.text.as_bytes()), told),
        _ => number(site.clock(alloc, who), told),
    }
}

fn changes_file<S: Site>(
    alloc: Global,
    site: &mut S,
    who: &Who,
    asked: Asked<'_>,
    told: &mut String,
) -> Result<(), Fail> {
    let Asked { name, text, .. } = asked;
    match asked.call {
        "create" => done(site.create(alloc, who, name), told),
        "append" => done(site.append(alloc, who, name, text.as_bytes()), told),
        "sync" => done(site.sync(alloc, who, name), told),
        "rename" => done(site.rename(alloc, who, name, text), told),
        "remove" => done(site.remove(alloc, who, name), told),
        "cut" => done(site.cut(alloc, who, name, asked.at), told),
        _ => Err(Fail::new("no such call")),
    }
}

fn asks_file<S: Site>(
    alloc: Global,
    site: &mut S,
    who: &Who,
    asked: Asked<'_>,
    told: &mut String,
) -> Result<(), Fail> {
    let Asked { name, at, max, .. } = asked;
    match asked.call {
        "size" => number(site.size(alloc, who, name), told),
        "list" => names(site.list(alloc, who, name), told),
        _ => bytes(site.read(alloc, who, name, at, max), told),
    }
}

fn on_log<S: Site>(
    alloc: Global,
    site: &mut S,
    who: &Who,
    asked: Asked<'_>,
    told: &mut String,
) -> Result<(), Fail> {
    let Asked { name, text, .. } = asked;
    match asked.call {
        "logappend" => done(site.log_append(alloc, who, name, text.as_bytes()), told),
        "lognewest" => suffix(site.log_newest(alloc, who, name), told),
        _ => piece(log_read(alloc, site, who, asked)?, told),
    }
}

// TEXT is the part.
fn log_read<S: Site>(
    alloc: Global,
    site: &mut S,
    who: &Who,
    asked: Asked<'_>,
) -> Result<Result<Piece, CallFault>, Fail> {
    let Asked { name, at, max, .. } = asked;
    match asked.text {
        "base" => Ok(site.log_read(alloc, who, name, Part::Base, at, max)),
        "-" => Ok(site.log_read(alloc, who, name, Part::After(None), at, max)),
        text => {
            let suffix = Suffix::new(alloc, text.as_bytes())?;
            Ok(site.log_read(alloc, who, name, Part::After(Some(&suffix)), at, max))
        }
    }
}

// The number of a message or taking stands in the place of AT, and so does a wait.
fn on_message<S: Site>(
    alloc: Global,
    site: &mut S,
    who: &Who,
    asked: Asked<'_>,
    told: &mut String,
) -> Result<(), Fail> {
    let Asked { name, text, at, .. } = asked;
    match asked.call {
        "send" => number(site.send(alloc, who, name, text.as_bytes()), told),
        "take" => taking(site.take(alloc, who, name, at), told),
        "answer" => done(site.answer(alloc, who, at, text.as_bytes()), told),
        "more" => bytes(site.more(alloc, who, at), told),
        _ => bytes(site.got(alloc, who, at), told),
    }
}
