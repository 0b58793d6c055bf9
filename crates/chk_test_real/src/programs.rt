//! The real site, told line by line what to do; what `std` writes on the one side is read on the
//! other.
use chk_bytes::Word;
use chk_site::{Role, Site, Who};
use chk_site_real::SiteReal;
use chk_test_calls::{collector, follows};
use std::alloc::Global;
use std::test::Fail;
use std::{fs, io};

// Makes or changes files by `std`.
fn changes(rt: &HostRuntime, verb: &str, name: &str, text: &str) -> io::Result<()> {
    match verb {
        "write" => fs::write(rt, name, text),
        "dir" => fs::create_dir(rt, name),
        "rename" => fs::rename(rt, name, text),
        "remove" => fs::remove_file(rt, name),
        _ => fs::remove_dir(rt, name),
    }
}

fn is_file(rt: &HostRuntime, name: &str, text: &str) -> Result<(), Fail> {
    if fs::read(rt, name)?.as_slice() == text.as_bytes() {
        Ok(())
    } else {
        Err(Fail::new(name))
    }
}

// - `write NAME TEXT`, `empty NAME`, `dir NAME`, `rename NAME NAME`, `remove NAME`, `rmdir NAME`.
// - `is NAME TEXT`: the file has just this text.
fn by_std(rt: &HostRuntime, line: &str) -> Result<(), Fail> {
    let (verb, rest) = line.split_once(' ').ok_or("no name")?;
    let (name, text) = rest.split_once(' ').unwrap_or((rest, ""));
    match verb {
        "is" => is_file(rt, name, text),
        "empty" => Ok(fs::write(rt, rest, "")?),
        _ => Ok(changes(rt, verb, name, text)?),
    }
}

fn same(given: &str, wanted: &str) -> Result<(), Fail> {
    if given == wanted {
        Ok(())
    } else {
        Err(Fail::new(given))
    }
}

// How many calls failed.
fn counts(alloc: Global, site: &SiteReal<HostRuntime>, wanted: &str) -> Result<(), Fail> {
    let faults = site.faults();
    same(format!(in alloc; "{faults}")?.as_str(), wanted)
}

// What is told of the last call that failed.
pub(crate) fn tells(alloc: Global, site: &SiteReal<HostRuntime>, wanted: &str) -> Result<(), Fail> {
    match site.failure() {
        Some(failure) => same(failure.to_string(alloc)?.as_str(), wanted),
        None => same("", wanted),
    }
}

// - `std ..`: what `std` does.
// - `faults N`: so many calls have failed.
// - `failure TEXT`: what is told of the last one.
// - Each other line is a call with its answer.
fn plays(rt: &HostRuntime, site: &mut SiteReal<HostRuntime>, line: &str) -> Result<(), Fail> {
    let (verb, rest) = line.split_once(' ').unwrap_or((line, ""));
    match verb {
        "std" => by_std(rt, rest),
        "faults" => counts(rt.alloc(), site, rest),
        "failure" => tells(rt.alloc(), site, rest),
        _ => follows(rt.alloc(), site, &collector(rt.alloc())?, line),
    }
}

fn plays_each(
    rt: &HostRuntime,
    site: &mut SiteReal<HostRuntime>,
    program: &str,
) -> Result<(), Fail> {
    for line in program.lines() {
        plays(rt, site, line)?;
    }
    Ok(())
}

// At a new site.
pub(crate) fn on_machine(rt: HostRuntime, program: &str) -> Result<(), Fail> {
    let mut site = SiteReal::new(rt, rt.alloc());
    plays_each(&rt, &mut site, program)
}

// Whether a process of this name is started.
pub(crate) fn starts(
    alloc: Global,
    site: &mut SiteReal<HostRuntime>,
    role: Role,
    name: &str,
) -> Result<bool, Fail> {
    let name = Word::new(alloc, name.as_bytes())?;
    let who = Who { role, name };
    Ok(site.start(alloc, &who).is_ok())
}
