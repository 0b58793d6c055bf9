//! What the program says as a writer.

ghost use Rattle.std.specs.Prelude.{◌≡◌, ◌≤◌, IfOk};
ghost use Rattle.chk_cmd_line.specs.Endings.{ending_line};
ghost use Rattle.chk_cmd_line.specs.Usages.{usage_text};
ghost use Rattle.chk_cmd_load.specs.Processes.{chukwa};
ghost use Rattle.chukwa_run.specs.Saying.{SaysOnce};

use chk_bytes::{Bytes, NoMemory};
use chk_cmd_line::{Ending, Usage, put_usage};
use chk_cmd_load::writer;
use chk_site::Site;
use std::alloc::Global;

/// Prints the line of the ending, where there is memory for it; whether it was printed isn't told.
pub fn say_ending<S: Site>(alloc: Global, site: &mut S, ending: &Ending)
    ensures says { SaysOnce (ending_line ending.now) (S.told site.old) (S.told site.new) }
    ensures count { S.fault_count site.old ≤ S.fault_count site.new }
{
    let Ok(line) = line_of(alloc, ending) else {
        return
    };
    say(alloc, site, line.as_slice());
}

/// Prints the usage line, where there is memory for it.
pub fn say_usage<S: Site>(alloc: Global, site: &mut S, usage: Usage)
    ensures says { SaysOnce (usage_text usage) (S.told site.old) (S.told site.new) }
{
    let Ok(line) = usage_line(alloc, usage) else {
        return
    };
    say(alloc, site, line.as_slice());
}

fn say<S: Site>(alloc: Global, site: &mut S, line: &[u8])
    ensures says { SaysOnce line.now (S.told site.old) (S.told site.new) }
    ensures count { S.fault_count site.old ≤ S.fault_count site.new }
{
    let Ok(writer) = writer(alloc) else { return };
    let _said = site.say(alloc, &writer, line);
}

fn line_of(alloc: Global, ending: &Ending) -> Result<Bytes, NoMemory>
    ensures { IfOk result (λ line. line ≡ ending_line ending.now) }
{
    let mut line = Bytes::new(alloc);
    ending.put_line(&mut line)?;
    Ok(line)
}

fn usage_line(alloc: Global, usage: Usage) -> Result<Bytes, NoMemory>
    ensures { IfOk result (λ line. line ≡ usage_text usage) }
{
    let mut line = Bytes::new(alloc);
    put_usage(&mut line, usage)?;
    Ok(line)
}
