//! The machine, by what each call on it adds to the deeds that it tells.

ghost use Rattle.std.specs.Prelude.{◌≡◌, ℕ, List, Option, option_map, string_bytes};
ghost use Rattle.chk_ctl_machine.specs.Deeds.{after, Deed};
ghost use Rattle.chk_ctl_machine.specs.Deeds.{Stands, NamesPath, Enters, AsksStore, Lends, TakesBack};
ghost use Rattle.chk_ctl_machine.specs.Deeds.{AsksAge, AsksLocks, AsksNumbers, AsksFree, Sleeps};
ghost use Rattle.chk_ctl_machine.specs.Deeds.{Prints, Tells, TellsUsage};
ghost use Rattle.chk_ctl_machine.specs.Inspecting.{MayTakeBack};

use crate::extent::LongInspection;
use chk_ctl_run::{Outcome, Usage};
use chk_site::Site;

/// The numbers of a file: of its device, and its own on it.
#[derive(Clone, Copy, Debug, PartialEq, Eq)]
pub struct FileNumbers {
    pub device: u64,
    pub number: u64,
}

/// What an inspection may ask of the machine. Where the deeds are told, each call adds one.
pub trait Machine {
    /// The current folder as a site, which has to be given back.
    type Folder: Site;

    /// The deeds so far, the newest first, where the machine tells them.
    ghost told: { Self → Option (List Deed) };

    /// Finds the folder where the user stands, from which the others are named from here on; false
    /// if the system doesn't tell it, which is reported on standard error.
    fn stand(&mut self) -> bool
        ensures { told self.new ≡ after (Stands result) (told self.old) };

    /// The path from the root of a folder that is named from where the user stands; none if there is
    /// no memory.
    fn path_of(&mut self, folder: &str) -> Option<String>
        ensures { told self.new ≡ after (NamesPath folder.now (option_map string_bytes result))
            (told self.old) };

    /// Makes the folder the current one; false if that fails, which is reported on standard error.
    fn enter(&mut self, folder: &str) -> bool
        ensures { told self.new ≡ after (Enters folder.now result) (told self.old) };

    /// Whether the current folder has a folder `sinks`.
    fn is_store(&mut self) -> bool
        ensures { told self.new ≡ after (AsksStore result) (told self.old) };

    /// Lends the current folder as a site that changes nothing, and reports the progress of an
    /// inspection that may take long.
    fn lend(&mut self, long: Option<LongInspection>) -> Self::Folder
        ensures { told self.new
            ≡ after (Lends long (Self.Folder.told result) (Self.Folder.fault_count result))
            (told self.old) };

    /// Takes the site back, through which nothing but inspections were made. It reports on standard
    /// error which call failed last, if one did.
    fn take_back(&mut self, folder: Self::Folder)
        requires { MayTakeBack (told self.old) (Self.Folder.told folder) }
        ensures { told self.new
            ≡ after (TakesBack (Self.Folder.told folder) (Self.Folder.fault_count folder))
            (told self.old) };

    /// How many seconds ago the file of the current folder was changed, if that is known.
    fn age_of(&mut self, path: &str) -> Option<u64>
        ensures { told self.new ≡ after (AsksAge path.now result) (told self.old) };

    /// The system's list of the locks that are held, if it can be read.
    fn locks_held(&mut self) -> Option<String>
        ensures { told self.new ≡ after (AsksLocks (option_map string_bytes result))
            (told self.old) };

    /// The numbers of the file of the current folder, if it exists.
    fn numbers_of(&mut self, path: &str) -> Option<FileNumbers>
        ensures { told self.new ≡ after (AsksNumbers path.now result) (told self.old) };

    /// How many bytes are free where the current folder is, if that is known.
    fn free(&mut self) -> Option<u64>
        ensures { told self.new ≡ after (AsksFree result) (told self.old) };

    /// Waits so many seconds.
    fn sleep(&mut self, seconds: u64)
        ensures { told self.new ≡ after (Sleeps seconds) (told self.old) };

    /// Prints the text on standard output; false if that fails.
    fn print(&mut self, text: &str) -> bool
        ensures { told self.new ≡ after (Prints text.now result) (told self.old) };

    /// Reports the outcome on standard error, behind the program's name.
    fn tell(&mut self, outcome: &Outcome)
        ensures { told self.new ≡ after (Tells outcome.now) (told self.old) };

    /// Reports on standard error how a command is used.
    fn tell_usage(&mut self, usage: Usage)
        ensures { told self.new ≡ after (TellsUsage usage) (told self.old) };
}
