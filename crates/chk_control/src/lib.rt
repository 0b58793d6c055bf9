//! Lines at the agent's control door: what each of them asks for, and the lines that answer.
#![tactic(auto)]

ghost use Rattle.std.specs.Prelude.{◌≡◌};
ghost use Rattle.chk_control.specs.Classes.{class_name};

mod answers;
mod class_names;
mod commands;
mod line_words;
mod lines;

pub use answers::{Answer, State, write_answer};
pub use class_names::{class_named, class_of_name, law_class_names};
pub use commands::{Command, LineFault};
pub use lines::{
    is_name, is_word, law_commands, law_plain_words, law_spacing, law_spellings, read_line,
};

/// How an adaptor reads its log.
#[derive(Clone, Copy, Debug, PartialEq, Eq)]
pub enum Class {
    /// `LWFTAdaptor` reads the base file alone, in pieces of any bytes.
    Plain,
    /// `FileTailingAdaptor` reads through rotations, in pieces of any bytes.
    Rotating,
    /// `CharFileTailingAdaptorUTF8` reads through rotations, in pieces that end with a line.
    Lines,
}

impl Class {
    /// The bare name, as it stands in lines and checkpoints.
    pub fn name(&self) -> &'static str
        ensures { result.now ≡ class_name self.now }
    {
        match self {
            Class::Plain => "LWFTAdaptor",
            Class::Rotating => "FileTailingAdaptor",
            Class::Lines => "CharFileTailingAdaptorUTF8",
        }
    }
}
