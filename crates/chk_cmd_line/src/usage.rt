//! How commands are used.

ghost use Rattle.std.specs.Prelude.{◌≡◌, ◌++◌, List, ℕ, map, OnOk, OnErr};
ghost use Rattle.chk_cmd_line.specs.Usages.{usage_of, usage_named, usage_text, option_names};

use chk_bytes::{Bytes, NoMemory};

static ROUND: [&str; 3] = ["class", "reads", "cluster"];

static AGENT: [&str; 7] = [
    "initial", "control", "turns", "poll", "expire", "pause", "cluster",
];

static COLLECTOR: [&str; 4] = ["rotate", "turns", "messages", "tee"];

static DRAIN: [&str; 4] = ["initial", "reads", "polls", "cluster"];

static UDP: [&str; 3] = ["turns", "rotate", "messages"];

static SUBSCRIBE: [&str; 1] = ["turns"];

static NONE: [&str; 0] = [];

/// Which command the first word names.
#[derive(Clone, Copy, Debug, PartialEq, Eq)]
pub enum Usage {
    /// None of them.
    Commands,
    Round,
    Agent,
    Collector,
    Drain,
    Archive,
    Demux,
    Salvage,
    Load,
    Udp,
    Subscribe,
    Join,
}

impl Usage {
    /// The line that tells how the words should have been, with its newline.
    pub fn text(self) -> &'static str
        ensures { result.now ≡ usage_text self }
    {
        match self {
            Usage::Commands => {
                "usage: chukwa round|agent|collector|drain|archive|demux|salvage|load|udp|subscribe|join\n"
            }
            Usage::Round => {
                "usage: chukwa round [--class CLASS] [--reads N] [--cluster NAME] SOURCE TYPE LOG...\n"
            }
            Usage::Agent => {
                "usage: chukwa agent [--initial FILE] [--control ADDRESS] [--turns N] [--poll MS] [--expire MS] [--cluster NAME] SOURCE COLLECTOR...\n"
            }
            Usage::Collector => {
                "usage: chukwa collector [--rotate MS] [--turns N] [--tee FILE] NAME ADDRESS\n"
            }
            Usage::Drain => {
                "usage: chukwa drain [--initial FILE] [--reads N] [--polls N] [--cluster NAME] SOURCE COLLECTOR...\n"
            }
            Usage::Archive => "usage: chukwa archive\n",
            Usage::Demux => "usage: chukwa demux [TYPE...]\n",
            Usage::Salvage => "usage: chukwa salvage FILE\n",
            Usage::Load => "usage: chukwa load N\n",
            Usage::Udp => "usage: chukwa udp [--turns N] [--rotate BYTES] NAME ADDRESS\n",
            Usage::Subscribe => "usage: chukwa subscribe [--turns N] ADDRESS\n",
            Usage::Join => "usage: chukwa join LEFT RIGHT\n",
        }
    }

    /// The names of its options, without the hyphens.
    pub(crate) fn options<'a>(self) -> &'a [&'a str]
        ensures { map (λ name. name.now) result.now ≡ option_names self }
    {
        match self {
            Usage::Round => ROUND.as_slice(),
            Usage::Agent => AGENT.as_slice(),
            Usage::Collector => COLLECTOR.as_slice(),
            Usage::Drain => DRAIN.as_slice(),
            Usage::Udp => UDP.as_slice(),
            Usage::Subscribe => SUBSCRIBE.as_slice(),
            _ => NONE.as_slice(),
        }
    }
}

/// The command that the first of these words names.
pub fn usage_of(words: &[&str]) -> Usage
    ensures { result ≡ usage_of (map (λ w. w.now) words.now) }
{
    match words {
        [first, ..] => usage_named(first),
        [] => Usage::Commands,
    }
}

fn usage_named(first: &str) -> Usage
    ensures { result ≡ usage_named first.now }
{
    match first {
        "round" => Usage::Round,
        "agent" => Usage::Agent,
        "collector" => Usage::Collector,
        "drain" => Usage::Drain,
        "archive" => Usage::Archive,
        "demux" => Usage::Demux,
        "salvage" => Usage::Salvage,
        "load" => Usage::Load,
        "udp" => Usage::Udp,
        "subscribe" => Usage::Subscribe,
        "join" => Usage::Join,
        _ => Usage::Commands,
    }
}

/// Appends the line that tells how the words should have been, or without memory nothing.
pub fn put_usage(out: &mut Bytes, usage: Usage) -> Result<(), NoMemory>
    ensures ok { OnOk result (out.new ≡ out.old ++ usage_text usage) }
    ensures err { OnErr result (out.new ≡ out.old) }
{
    out.push_all(usage.text().as_bytes())
}
