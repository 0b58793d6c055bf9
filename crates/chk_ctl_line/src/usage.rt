//! How commands are used.

ghost use Rattle.std.specs.Prelude.{◌≡◌, map};
ghost use Rattle.chk_ctl_line.specs.Usages.{usage_of, usage_named, usage_text, option_names};
ghost use Rattle.chk_ctl_line.specs.Usages.{flag_names};

static AUDIT: [&str; 2] = ["agent", "store"];

static CAT: [&str; 1] = ["begin"];

static CHECK: [&str; 1] = ["initial"];

static CAT_FLAGS: [&str; 3] = ["follow", "records", "help"];

static FLAGS: [&str; 1] = ["help"];

static VERIFY_FLAGS: [&str; 2] = ["progress", "help"];

static NONE: [&str; 0] = [];

static PASSED: [&str; 1] = ["agent"];

const COMMANDS: &str = "usage: chukwactl audit|cat|check|held|passed|status|streams|sum|verify \
[--help], or --version\n";

const STATUS: &str =
    "usage: chukwactl status [--agent DIR].. [--store DIR].. [--control NAME=ADDRESS].. [-q|--metrics] [--watch S]\n";

/// Which command the first word names.
#[derive(Clone, Copy, Debug, PartialEq, Eq)]
pub enum Usage {
    /// None of them.
    Commands,
    /// `audit`.
    Audit,
    /// `cat`.
    Cat,
    /// `check`.
    Check,
    /// `status`, which `read_status` reads.
    Status,
    /// `streams`.
    Streams,
    /// `verify`.
    Verify,
    Sum,
    /// `held`.
    Held,
    /// `passed`.
    Passed,
}

impl Usage {
    /// The line that tells how the words should have been, with its newline.
    pub fn text(self) -> &'static str
        ensures { result.now ≡ usage_text self }
    {
        match self {
            Usage::Commands => COMMANDS,
            Usage::Audit => "usage: chukwactl audit --agent DIR --store DIR\n",
            Usage::Cat => {
                "usage: chukwactl cat [--begin N] [--follow] [--records] STORE SOURCE TYPE NAME\n"
            }
            Usage::Check => "usage: chukwactl check --initial FILE COLLECTOR...\n",
            Usage::Status => STATUS,
            Usage::Streams => "usage: chukwactl streams STORE\n",
            Usage::Verify => "usage: chukwactl verify [--progress] STORE\n",
            Usage::Sum => "usage: chukwactl sum STORE\n",
            Usage::Held => "usage: chukwactl held STORE [STORE]..\n",
            Usage::Passed => "usage: chukwactl passed --agent DIR LOG\n",
        }
    }

    /// The names of its options that take a value, without the hyphens.
    pub(crate) fn options<'a>(self) -> &'a [&'a str]
        ensures { map (λ name. name.now) result.now ≡ option_names self }
    {
        match self {
            Usage::Audit => AUDIT.as_slice(),
            Usage::Cat => CAT.as_slice(),
            Usage::Passed => PASSED.as_slice(),
            Usage::Check => CHECK.as_slice(),
            _ => NONE.as_slice(),
        }
    }

    /// The names of its options that take none.
    pub(crate) fn flags<'a>(self) -> &'a [&'a str]
        ensures { map (λ name. name.now) result.now ≡ flag_names self }
    {
        match self {
            Usage::Cat => CAT_FLAGS.as_slice(),
            Usage::Verify => VERIFY_FLAGS.as_slice(),
            _ => FLAGS.as_slice(),
        }
    }
}

/// The command that the first of these words names.
pub fn usage_of(words: &[&str]) -> Usage
    ensures { result ≡ usage_of (map (λ w. w.now) words.now) }
{
    match words {
        [first, ..] => usage_named(first),
        [] => Usage::Commands,
    }
}

fn usage_named(first: &str) -> Usage
    ensures { result ≡ usage_named first.now }
{
    match first {
        "audit" => Usage::Audit,
        "cat" => Usage::Cat,
        "check" => Usage::Check,
        "status" => Usage::Status,
        "streams" => Usage::Streams,
        "verify" => Usage::Verify,
        "sum" => Usage::Sum,
        "held" => Usage::Held,
        "passed" => Usage::Passed,
        _ => Usage::Commands,
    }
}
