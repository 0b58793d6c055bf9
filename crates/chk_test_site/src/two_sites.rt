// One program of calls over the real site, in a folder without files, and over the site in memory: both answer as it
// says. What a writer does is done by std at the one, and by acts of the script at the other.
use chk_bytes::Bytes;
use chk_site::{ActAnswer, Call, Other, Script, Site, Words};
use chk_site_mem::SiteMem;
use chk_site_real::SiteReal;
use chk_test_calls::{collector, follows, quiet, written};
use std::alloc::Global;
use std::fs::OpenOptions;
use std::io::Write;
use std::test::Fail;
use std::{fs, io};

const FILES: &str = "\
create sinks/a = done
create sinks/a = Exists
size sinks/a = 0
append sinks/a hello = done
append sinks/a world = done
sync sinks/a = done
read sinks/a - 0 4 = [hell]
read sinks/a - 4 9 = [oworld]
read sinks/a - 10 1 = []
read sinks/a - 3 0 = []
read sinks/a - 11 1 = Short { size: 10 }
cut sinks/a - 11 = Short { size: 10 }
cut sinks/a - 10 = done
cut sinks/a - 3 = done
append sinks/a p = done
size sinks/a = 4
create sinks/b = done
append sinks/b new = done
rename sinks/b sinks/a = done
size sinks/b = Missing
read sinks/b - 0 1 = Missing
remove sinks/b = Missing
read sinks/a - 0 9 = [new]
remove sinks/a = done
size sinks/a = Missing
";

const LOGS: &str = "\
logread p.log base 0 4 = [] -
logread p.log base 1 4 = Short { size: 0 }
lognewest p.log = -
logappend p.log one = done
writer grows p.log two
logread p.log - 0 9 = [onetwo] -
logread p.log base 0 3 = [one] -
writer turns p.log .2010-11-08
logread p.log base 0 0 = [] -
pause - - 3000 = done
logread p.log base 3 9 = Short { size: 0 }
logread p.log base 0 9 = [] -
logread p.log - 0 3 = [one] -
logread p.log - 3 9 = [two] .2010-11-08
logread p.log - 6 9 = [] .2010-11-08
logread p.log - 7 9 = Short { size: 6 }
logread p.log .2010-11-08 0 9 = [] -
writer grows p.log three
lognewest p.log = .2010-11-08
writer turns p.log .2010-11-09
logread p.log base 0 0 = [] -
pause - - 3000 = done
writer grows p.log four
lognewest p.log = .2010-11-09
logread p.log - 0 6 = [onetwo] .2010-11-08
logread p.log .2010-11-08 0 5 = [three] .2010-11-09
logread p.log .2010-11-09 1 9 = [our] -
writer drops p.log .2010-11-08
logread p.log - 0 9 = [three] .2010-11-09
logread p.log .2010-11-07 0 2 = [th] -
writer drops p.log .2010-11-09
lognewest p.log = -
logread p.log - 0 9 = [four] -
";

const FOLDERS: &str = "\
list archive - = []
create archive/b = done
create archive/B = done
create archive/.a = done
create archive/aa = done
remove archive/b = done
list archive - = [.a B aa ]
list none - = []
";

const MAILBOX: &str = "\
start - = done
send self hello = 1
send self next = 2
got - - 1 = []
take self - 0 = 1 [hello]
more - - 1 = []
answer - taken 1 = done
got - - 1 = [taken]
take self - 0 = 2 [next]
take self - 0 = -
send self late = 3
start - = done
take self - 0 = -
";

// What a writer does to a log.
#[derive(Clone, Copy)]
struct Change<'a> {
    kind: &'a str,
    path: &'a str,
    text: &'a str,
}

// None where the line is a call.
fn change_in(line: &str) -> Option<Change<'_>> {
    let mut words = line.strip_prefix("writer ")?.split(' ');
    Some(Change {
        kind: words.next()?,
        path: words.next()?,
        text: words.next()?,
    })
}

fn change_file(rt: &HostRuntime, change: Change<'_>) -> io::Result<()> {
    let rotated = rotated(rt.alloc(), change)?;
    match change.kind {
        "turns" => fs::rename(rt, change.path, rotated.as_str()),
        "drops" => fs::remove_file(rt, rotated.as_str()),
        _ => grow_file(rt, change.path, change.text),
    }
}

fn rotated(alloc: Global, change: Change<'_>) -> io::Result<String> {
    let Change { path, text, .. } = change;
    Ok(format!(in alloc; "{path}{text}")?)
}

fn grow_file(rt: &HostRuntime, path: &str, text: &str) -> io::Result<()> {
    let mut file = OpenOptions::new().append(true).create(true).open(rt, path)?;
    file.write_all(text.as_bytes())
}

fn act_of(alloc: Global, before: u64, change: Change<'_>) -> Result<Other, Fail> {
    let Change { path, text, .. } = change;
    let answer = answer_of(alloc, change)?;
    let mut other = written(alloc, Call::LogAppend, &[path.as_bytes(), text.as_bytes()])?;
    other.before = before;
    other.act.answer = answer;
    Ok(other)
}

fn answer_of(alloc: Global, change: Change<'_>) -> Result<ActAnswer, Fail> {
    let suffix = Bytes::from_slice(alloc, change.text.as_bytes())?;
    match change.kind {
        "turns" => Ok(ActAnswer::Rotated { suffix }),
        "drops" => Ok(ActAnswer::Deleted { suffix }),
        _ => Ok(ActAnswer::Done {
            words: Words::new(alloc),
            number: 0,
            of: 0,
        }),
    }
}

// What writers do in the program, before the calls that stand behind it.
fn others_of(alloc: Global, program: &str) -> Result<Vec<Other>, Fail> {
    let mut others = Vec::new(alloc);
    let mut before = 1u64;
    for line in program.lines() {
        match change_in(line) {
            Some(change) => others.push(act_of(alloc, before, change)?)?,
            None => before = before.saturating_add(1),
        }
    }
    Ok(others)
}

fn script_of(alloc: Global, program: &str) -> Result<Script, Fail> {
    let others = others_of(alloc, program)?;
    let mut script = quiet(alloc);
    script.others = others;
    Ok(script)
}

// Where the machine is given, a writer's line is done on it.
fn play_line<S: Site>(
    machine: Option<&HostRuntime>,
    alloc: Global,
    site: &mut S,
    line: &str,
) -> Result<(), Fail> {
    match change_in(line) {
        None => follows(alloc, site, &collector(alloc)?, line),
        Some(change) => write_change(machine, change),
    }
}

fn write_change(machine: Option<&HostRuntime>, change: Change<'_>) -> Result<(), Fail> {
    match machine {
        Some(rt) => Ok(change_file(rt, change)?),
        None => Ok(()),
    }
}

// Each call is answered as its line says.
fn play<S: Site>(
    machine: Option<&HostRuntime>,
    alloc: Global,
    site: &mut S,
    program: &str,
) -> Result<(), Fail> {
    for line in program.lines() {
        play_line(machine, alloc, site, line)?;
    }
    Ok(())
}

fn in_memory(alloc: Global, program: &str) -> Result<(), Fail> {
    let mut site = SiteMem::new(alloc, script_of(alloc, program)?)?;
    play(None, alloc, &mut site, program)
}

// The same, and no call fails.
fn play_on<S: Site>(rt: &HostRuntime, site: &mut S, program: &str) -> Result<(), Fail> {
    play(Some(rt), rt.alloc(), site, program)?;
    match site.faults() {
        0 => Ok(()),
        _ => Err(Fail::new("a call failed")),
    }
}

fn on_machine(rt: HostRuntime, program: &str) -> Result<(), Fail> {
    let mut site = SiteReal::new(rt, rt.alloc());
    play_on(&rt, &mut site, program)
}

fn on_both(rt: HostRuntime, program: &str) -> Result<(), Fail> {
    in_memory(rt.alloc(), program)?;
    on_machine(rt, program)
}

#[test]
fn files_answer_alike(rt: HostRuntime) -> Result<(), Fail> {
    on_both(rt, FILES)
}

#[test]
fn logs_answer_alike(rt: HostRuntime) -> Result<(), Fail> {
    on_both(rt, LOGS)
}

#[test]
fn folders_answer_alike(rt: HostRuntime) -> Result<(), Fail> {
    on_both(rt, FOLDERS)
}

#[test]
fn mailboxes_answer_alike(rt: HostRuntime) -> Result<(), Fail> {
    on_both(rt, MAILBOX)
}
