//! Lines as they are typed, and answers as they are shown.
use crate::answers::{answers_each, plain, same};
use chk_bytes::{Bytes, Word, WordFault};
use chk_control::{Answer, Class, Command, LineFault, State, read_line, write_answer};
use std::alloc::Global;
use std::test::Fail;

fn word(alloc: Global, text: &str) -> Result<Word, WordFault> {
    Word::new(alloc, text.as_bytes())
}

fn name_text(name: &Option<Word>) -> &str {
    match name {
        Some(name) => name.as_str(),
        None => "-",
    }
}

// A command's own word and the name behind it.
fn verb_and_name(command: &Command) -> (&str, &str) {
    match command {
        Command::Blank => ("blank", ""),
        Command::Add { .. } => ("add", ""),
        Command::Close => ("close", ""),
        Command::Help => ("help", ""),
        Command::List => ("list", ""),
        Command::ReloadCollectors => ("reloadcollectors", ""),
        Command::Stop { name } => ("stop", name.as_str()),
        Command::StopAll => ("stopall", ""),
        Command::Shutdown { name } => ("shutdown", name.as_str()),
        Command::StopAgent => ("stopagent", ""),
    }
}

fn other_text(alloc: Global, command: &Command) -> Result<String, Fail> {
    let (verb, name) = verb_and_name(command);
    let text = format!(in alloc; "{verb} {name}")?;
    plain(alloc, text.as_str().trim_end())
}

fn command_text(alloc: Global, command: &Command) -> Result<String, Fail> {
    match command {
        Command::Add {
            name,
            class,
            kind,
            path,
            offset,
        } => {
            let (name, kind, path) = (name_text(name), kind.as_str(), path.as_str());
            Ok(format!(in alloc; "add {name} {class:?} {kind} {path} {offset}")?)
        }
        other => other_text(alloc, other),
    }
}

fn fault_text(alloc: Global, fault: LineFault) -> Result<String, Fail> {
    if fault == LineFault::NoMemory {
        return Err(Fail::from("no memory"));
    }
    let number = fault.number();
    Ok(format!(in alloc; "{fault:?} {number}")?)
}

// The command, or the fault and its number.
pub(crate) fn line(alloc: Global, bytes: &[u8]) -> Result<String, Fail> {
    match read_line(alloc, bytes) {
        Ok(command) => command_text(alloc, &command),
        Err(fault) => fault_text(alloc, fault),
    }
}

const LINES: &str = "\
add x = filetailer.LWFTAdaptor Log /a.log 0 => add x Plain Log /a.log 0
add y = filetailer.LWFTAdaptor Log /a.log 0%0D => add y Plain Log /a.log 0
add LWFTAdaptor Log /b.log 5 => add - Plain Log /b.log 5
%09add  FileTailingAdaptor%09Log /b.log 6  => add - Rotating Log /b.log 6
add org.apache.hadoop.chukwa.datacollection.adaptor.filetailer.CharFileTailingAdaptorUTF8 Log = 4611686018427387903 => add - Lines Log = 4611686018427387903
 => blank
close%0D => close
help => help
list => list
reloadcollectors => reloadcollectors
stop adaptor_1 => stop adaptor_1
stopall => stopall
shutdown x => shutdown x
stopagent => stopagent
lst => Unknown 1
stop => MissingWord 2
add LWFTAdaptor Log /b.log -5 => BadOffset 3
add LWFTAdaptor Log /b.log 05 => BadOffset 3
add LWFTAdaptor Log /b.log 4611686018427387904 => BadOffset 3
add SocketAdaptor Log /b.log -5 => BadClass 4
stop %FF => NotUtf8 5
close now => ExtraWord 7
add = LWFTAdaptor Log /b.log 0 => ExtraWord 7
add = = LWFTAdaptor Log /b.log 0 => BadWord 8
add SocketAdaptor Log /b%7F.log 0 => BadWord 8
";

#[test]
fn lines(rt: HostRuntime) -> Result<(), Fail> {
    answers_each(rt.alloc(), "line", LINES)
}

fn adaptor(alloc: Global, name: &str, path: &str, offset: u64) -> Result<Answer, WordFault> {
    let name = word(alloc, name)?;
    let kind = word(alloc, "Log")?;
    let path = word(alloc, path)?;
    Ok(Answer::Adaptor {
        name,
        class: Class::Plain,
        kind,
        path,
        read_to: offset,
        committed: offset,
        state: State::Live,
    })
}

fn named_answer(alloc: Global, form: &str, name: &str) -> Result<Answer, WordFault> {
    let name = word(alloc, name)?;
    match form {
        "added" => Ok(Answer::Added { name }),
        "stopped" => Ok(Answer::Stopped { name }),
        _ => Ok(Answer::Stopping { name }),
    }
}

/// The answer of this form: `text` is a name or a path, `number` a count, a refusal or an offset.
fn answer(alloc: Global, form: &str, text: &str, number: u32) -> Result<Answer, WordFault> {
    match form {
        "closed" => Ok(Answer::Closed),
        "help" => Ok(Answer::Help),
        "x" | "adaptor_1" => adaptor(alloc, form, text, u64::from(number)),
        "listed" => Ok(Answer::Listed { count: number }),
        "reloaded" => Ok(Answer::Reloaded { count: number }),
        "all stopped" => Ok(Answer::StoppedAll { count: number }),
        "agent stops" => Ok(Answer::AgentStops),
        "bad" => Ok(Answer::Bad {
            number: number.min(255) as u8,
        }),
        _ => named_answer(alloc, form, text),
    }
}

fn show(out: &mut Bytes, answer: &Answer) -> Result<(), WordFault> {
    if let Answer::Bad { number } = answer {
        if *number < 1 || *number > 14 {
            return Err(WordFault::Empty);
        }
    }
    match write_answer(out, answer) {
        Ok(()) => Ok(()),
        Err(_) => Err(WordFault::NoMemory),
    }
}

// `FORM|TEXT|NUMBER|LINE`.
const ANSWERS: &str = "\
added|x|0|OK add completed; new ID is x
added|adaptor_1|0|OK add completed; new ID is adaptor_1
bad||9|BAD 9 NameInUse
bad||10|BAD 10 StreamInUse
bad||3|BAD 3 BadOffset
bad||12|BAD 12 NoAdaptor
bad||14|BAD 14 OtherStart
bad||1|BAD 1 Unknown
x|/a.log|0|x LWFTAdaptor Log /a.log 0 0 live
adaptor_1|/b.log|5|adaptor_1 LWFTAdaptor Log /b.log 5 5 live
listed||2|OK 2 adaptors
stopped|x|0|OK adaptor x stopped
stopped|adaptor_1|0|OK adaptor adaptor_1 stopped
stopping|x|0|OK adaptor x stopping
closed||0|OK close
help||0|commands: add close help list reloadcollectors stop stopall shutdown stopagent
reloaded||3|OK 3 collectors
all stopped||4294967295|OK stopped 4294967295 adaptors
agent stops||0|OK agent stops
";

fn shown(alloc: Global, form: &str, text: &str, number: &str) -> Result<Bytes, Fail> {
    let answer = answer(alloc, form, text, number.parse()?)?;
    let mut out = Bytes::new(alloc);
    show(&mut out, &answer)?;
    Ok(out)
}

// The form, the text, the number and the line.
fn fields(row: &str) -> Result<(&str, &str, &str, &str), Fail> {
    let (form, rest) = row.split_once('|').ok_or("no text")?;
    let (text, rest) = rest.split_once('|').ok_or("no number")?;
    let (number, line) = rest.split_once('|').ok_or("no line")?;
    Ok((form, text, number, line))
}

fn shows(alloc: Global, row: &str) -> Result<(), Fail> {
    let (form, text, number, line) = fields(row)?;
    let out = shown(alloc, form, text, number)?;
    let given = std::str::from_utf8(out.as_slice())?;
    same(alloc, row, given.trim_end(), line)
}

#[test]
fn answers(rt: HostRuntime) -> Result<(), Fail> {
    for row in ANSWERS.lines() {
        shows(rt.alloc(), row)?;
    }
    Ok(())
}
