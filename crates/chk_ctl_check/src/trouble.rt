//! What may be wrong with a line of an initial file.

ghost use Rattle.std.specs.Prelude.{◌≡◌};
ghost use Rattle.chk_ctl_check.specs.Troubles.{refused_name, trouble_name};

use chk_control::LineFault;

/// What is wrong with a line of an initial file.
#[derive(Clone, Copy, Debug, PartialEq, Eq)]
pub enum Trouble {
    /// It isn't a control line: a start refuses it.
    Refused(LineFault),
    /// It is a command, and not `add`: a start refuses it.
    NoAdd,
    /// An earlier line adds the same stream: a start skips it.
    StreamInUse,
    /// An earlier line gives its name to another stream: a start refuses it.
    NameInUse,
    /// The path of its log doesn't begin with `/`: another log is read where the agent starts in
    /// another folder. The log isn't looked at.
    RelativePath,
    /// The log isn't in its folder.
    NoLog,
    /// The log or its folder can't be read.
    Unreadable,
    /// Rotated files of the log stand beside it, and its class reads the base file alone: what is
    /// rotated away before it was read is lost.
    RotatedName,
    /// Files that are the log's name, a dot and up to 7 digits stand beside it: names that shift
    /// are no generations.
    NumberedName,
    /// Compressed files of the log stand beside it: they are no generations.
    CompressedName,
}

impl Trouble {
    /// Its name in a line.
    pub fn name(self) -> &'static str
        ensures { result.now ≡ trouble_name self }
    {
        match self {
            Trouble::Refused(fault) => fault_name(fault),
            Trouble::NoAdd => "NoAdd",
            Trouble::StreamInUse => "StreamInUse",
            Trouble::NameInUse => "NameInUse",
            Trouble::RelativePath => "RelativePath",
            Trouble::NoLog => "NoLog",
            Trouble::Unreadable => "Unreadable",
            Trouble::RotatedName => "RotatedName",
            Trouble::NumberedName => "NumberedName",
            Trouble::CompressedName => "CompressedName",
        }
    }
}

/// The name of a refusal, as at the control door.
fn fault_name(fault: LineFault) -> &'static str
    ensures { result.now ≡ refused_name fault }
{
    match fault {
        LineFault::Unknown => "Unknown",
        LineFault::MissingWord => "MissingWord",
        LineFault::BadOffset => "BadOffset",
        LineFault::BadClass => "BadClass",
        LineFault::NotUtf8 => "NotUtf8",
        LineFault::LongLine => "LongLine",
        LineFault::ExtraWord => "ExtraWord",
        LineFault::BadWord => "BadWord",
        LineFault::NoMemory => "NoMemory",
    }
}
