//! The lines that answer.

ghost use Rattle.std.specs.Prelude.{◌≡◌, ◌≤◌, ◌++◌, ◌∷◌, codes, decimal, OnOk, OnErr, IsTrue};
ghost use Rattle.chk_bytes.specs.Words.{BeginsWith};
ghost use Rattle.chk_control.specs.Answers.{answer_text, words_text, progress_text, refusal_text, bad_name, is_answer, state_name};
ghost use Rattle.chk_control.specs.Classes.{class_name};

use crate::Class;
use chk_bytes::{Bytes, NoMemory, Word, put_decimal};

/// How an adaptor stands.
#[derive(Clone, Copy, Debug, PartialEq, Eq)]
pub enum State {
    /// Its log is read.
    Live,
    /// It is to end once its log is sent.
    Stopping,
    /// Its log is shorter than what was read of it, and isn't read any more.
    Shrank,
}

impl State {
    /// The word that stands for it in a line of the list.
    pub fn name(&self) -> &'static str
        ensures { result.now ≡ state_name self.now }
    {
        match self {
            State::Live => "live",
            State::Stopping => "stopping",
            State::Shrank => "shrank",
        }
    }
}

/// What a line is answered with. A list is an `Adaptor` each and `Listed` behind them.
#[derive(Debug, Drop)]
pub enum Answer {
    Added {
        name: Word,
    },
    Closed,
    Help,
    /// `kind` is the type. `read_to` and `committed` are offsets.
    Adaptor {
        name: Word,
        class: Class,
        kind: Word,
        path: Word,
        read_to: u64,
        committed: u64,
        state: State,
    },
    Listed {
        count: u32,
    },
    Reloaded {
        count: u32,
    },
    Stopped {
        name: Word,
    },
    StoppedAll {
        count: u32,
    },
    Stopping {
        name: Word,
    },
    AgentStops,
    /// The number of a refusal: 1 to 8 is that of a `LineFault`. The agent's are 9 `NameInUse`,
    /// 10 `StreamInUse`, 11 `TooMany`, 12 `NoAdaptor`, 13 `OtherClass` and 14 `OtherStart`.
    Bad {
        number: u8,
    },
}

/// Appends the line that answers, with its newline, or without memory nothing.
pub fn write_answer(out: &mut Bytes, answer: &Answer) -> Result<(), NoMemory>
    requires { IsTrue (is_answer answer.now) }
    ensures ok { OnOk result (out.new ≡ out.old ++ answer_text answer.now) }
    ensures err { OnErr result (out.new ≡ out.old) }
{
    let before = out.len();
    let written = push_answer(out, answer);
    if written.is_err() {
        out.truncate(before);
    }
    written
}

fn push_answer(out: &mut Bytes, answer: &Answer) -> Result<(), NoMemory>
    requires { IsTrue (is_answer answer.now) }
    ensures ok { OnOk result (out.new ≡ out.old ++ answer_text answer.now) }
    ensures err { OnErr result (BeginsWith out.new out.old) }
{
    match answer {
        Answer::Added { name } => push_named(out, "OK add completed; new ID is ", name, "\n"),
        Answer::Closed => push_text(out, "OK close\n"),
        Answer::Help => push_text(
            out,
            "commands: add close help list reloadcollectors stop stopall shutdown stopagent\n",
        ),
        Answer::Adaptor {
            name,
            class,
            kind,
            path,
            read_to,
            committed,
            state,
        } => {
            push_words(out, name, *class, kind, path)?;
            push_progress(out, *read_to, *committed, *state)
        }
        Answer::Listed { count } => push_counted(out, "OK ", *count, " adaptors\n"),
        Answer::Reloaded { count } => push_counted(out, "OK ", *count, " collectors\n"),
        Answer::Stopped { name } => push_named(out, "OK adaptor ", name, " stopped\n"),
        Answer::StoppedAll { count } => push_counted(out, "OK stopped ", *count, " adaptors\n"),
        Answer::Stopping { name } => push_named(out, "OK adaptor ", name, " stopping\n"),
        Answer::AgentStops => push_text(out, "OK agent stops\n"),
        Answer::Bad { number } => push_refusal(out, *number),
    }
}

/// A text as it is.
fn push_text(out: &mut Bytes, text: &str) -> Result<(), NoMemory>
    ensures ok { OnOk result (out.new ≡ out.old ++ text.now) }
    ensures err { OnErr result (out.new ≡ out.old) }
{
    out.push_all(text.as_bytes())
}

/// A name between two texts.
fn push_named(out: &mut Bytes, before: &str, name: &Word, after: &str) -> Result<(), NoMemory>
    ensures ok { OnOk result (out.new ≡ out.old ++ (before.now ++ name.now ++ after.now)) }
    ensures err { OnErr result (BeginsWith out.new out.old) }
{
    push_text(out, before)?;
    push_text(out, name.as_str())?;
    push_text(out, after)
}

/// A number between two texts.
fn push_counted(out: &mut Bytes, before: &str, count: u32, after: &str) -> Result<(), NoMemory>
    ensures ok { OnOk result (out.new ≡ out.old ++ (before.now ++ decimal count ++ after.now)) }
    ensures err { OnErr result (BeginsWith out.new out.old) }
{
    push_text(out, before)?;
    put_decimal(out, u64::from(count))?;
    push_text(out, after)
}

/// The words of an adaptor, each with a space behind it.
fn push_words(
    out: &mut Bytes,
    name: &Word,
    class: Class,
    kind: &Word,
    path: &Word,
) -> Result<(), NoMemory>
    ensures ok { OnOk result (out.new ≡ out.old ++ words_text name.now class kind.now path.now) }
    ensures err { OnErr result (BeginsWith out.new out.old) }
{
    push_named(out, "", name, " ")?;
    push_text(out, class.name())?;
    push_named(out, " ", kind, " ")?;
    push_named(out, "", path, " ")
}

/// How far an adaptor is, up to the end of its line.
fn push_progress(
    out: &mut Bytes,
    read_to: u64,
    committed: u64,
    state: State,
) -> Result<(), NoMemory>
    ensures ok { OnOk result (out.new ≡ out.old ++ progress_text read_to committed state) }
    ensures err { OnErr result (BeginsWith out.new out.old) }
{
    put_decimal(out, read_to)?;
    push_text(out, " ")?;
    put_decimal(out, committed)?;
    push_text(out, " ")?;
    push_text(out, state.name())?;
    push_text(out, "\n")
}

/// A refusal, by its number and name.
fn push_refusal(out: &mut Bytes, number: u8) -> Result<(), NoMemory>
    requires some { 1 ≤ number }
    requires few { number ≤ 14 }
    ensures ok { OnOk result (out.new ≡ out.old ++ refusal_text number) }
    ensures err { OnErr result (BeginsWith out.new out.old) }
{
    push_counted(out, "BAD ", u32::from(number), " ")?;
    push_text(out, bad_name(number))?;
    push_text(out, "\n")
}

/// The name of a refusal's number.
fn bad_name(number: u8) -> &'static str
    requires some { 1 ≤ number }
    requires few { number ≤ 14 }
    ensures { result.now ≡ bad_name number }
{
    match number {
        1 => "Unknown",
        2 => "MissingWord",
        3 => "BadOffset",
        4 => "BadClass",
        5 => "NotUtf8",
        6 => "LongLine",
        7 => "ExtraWord",
        8 => "BadWord",
        9 => "NameInUse",
        10 => "StreamInUse",
        11 => "TooMany",
        12 => "NoAdaptor",
        13 => "OtherClass",
        _ => "OtherStart",
    }
}
