//! Which inspections may take long, and how their progress is reported.

ghost use Rattle.std.specs.Prelude.{◌≡◌, map};
ghost use Rattle.chk_ctl_machine.specs.Extents.{folders_of, prints_of, shown_as, times_of};

use chk_site_progress::Shows;

static RECORDS: [&str; 1] = ["demux"];

static ARCHIVE: [&str; 1] = ["archive"];

static STORE: [&str; 5] = ["agents", "archive", "demux", "sinks", "wahead"];

/// What an inspection that may take long reads.
#[derive(Clone, Copy, Debug, PartialEq, Eq)]
pub enum Extent {
    /// The archive, which is printed.
    Archive,
    /// The records, which are printed.
    Records,
    /// The archive, to compute its digests.
    Digests,
    /// All folders of a store.
    Store,
}

impl Extent {
    /// The folders whose files are read.
    pub fn folders(self) -> &'static [&'static str]
        ensures { map (λ f. f.now) result.now ≡ folders_of self }
    {
        match self {
            Extent::Archive | Extent::Digests => ARCHIVE.as_slice(),
            Extent::Records => RECORDS.as_slice(),
            Extent::Store => STORE.as_slice(),
        }
    }

    /// How often each file is read.
    pub fn times(self) -> u64
        ensures { result ≡ times_of self }
    {
        match self {
            Extent::Digests => 2,
            _ => 1,
        }
    }

    /// Whether it prints while it reads.
    fn prints(self) -> bool
        ensures { result ≡ prints_of self }
    {
        match self {
            Extent::Archive | Extent::Records => true,
            Extent::Digests | Extent::Store => false,
        }
    }
}

/// An inspection that may take long.
#[derive(Clone, Copy, Debug, PartialEq, Eq)]
pub struct LongInspection {
    pub extent: Extent,
    /// The command line asks for progress, also if standard error is no terminal.
    pub asked: bool,
}

/// How progress is reported: on a terminal in one line, unless the inspection prints on a terminal
/// meanwhile, and elsewhere in lines if the command line asks for them.
pub fn shows_of(long: LongInspection, output_is_terminal: bool, error_is_terminal: bool) -> Shows
    ensures { result ≡ shown_as long output_is_terminal error_is_terminal }
{
    if long.extent.prints() && output_is_terminal {
        Shows::Nothing
    } else if error_is_terminal {
        Shows::OneLine
    } else if long.asked {
        Shows::Lines
    } else {
        Shows::Nothing
    }
}
