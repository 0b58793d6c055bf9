//! The subscribers of a collector, which a file names.

ghost use Rattle.std.specs.Prelude.{◌≡◌, ◌⊎◌, [], IfSome, IsTrue, option_map};
ghost use Rattle.chk_bytes.specs.Words.{is_word};
ghost use Rattle.chk_site.specs.History.{Every};
ghost use Rattle.chk_site.specs.Site.{Adds};
ghost use Rattle.chk_agent_run.specs.Initial.{LooksAt};
ghost use Rattle.chk_cmd_load.specs.Processes.{chukwa};
ghost use Rattle.chukwa_run.specs.Teeing.{IsNamedIn, ReadCause, ReadFailsLast, TeesRead};

use chk_bytes::Word;
use chk_cmd_line::Ending;
use chk_cmd_load::writer;
use chk_replace::load;
use chk_site::{OutsideFault, Site};
use chk_tee_sender::{SubscribersFault, Tees, read_subscribers};
use std::alloc::Global;

/// The subscribers that the file names; nobody where no file is named, or where it isn't there. The
/// whole file is held in memory.
pub fn read_tees<S: Site>(alloc: Global, site: &mut S, file: Option<&str>) -> Result<Tees, Ending>
    requires word { IfSome (option_map (λ w. w.now) file) (λ text. IsTrue (is_word text)) }
    ensures read { TeesRead (option_map (λ w. w.now) file.entry) result (S.told site.old) (S.told site.new) }
    ensures looks { Adds (S.told site.old) (S.told site.new) (Every (LooksAt chukwa)) }
    ensures last { Adds (S.told site.old) (S.told site.new) (ReadFailsLast result) }
    ensures cause { ReadCause (S.fault_count site.old) (S.fault_count site.new) result }
{
    let Some(file) = file else {
        return Ok(nobody(alloc));
    };
    let Ok(writer) = writer(alloc) else {
        return Err(Ending::NoMemory);
    };
    match load(alloc, site, &writer, file) {
        Ok(Some(text)) => named_in(alloc, file, text.as_slice()),
        Ok(None) => named_in(alloc, file, b""),
        Err(OutsideFault::Outside { call }) => Err(Ending::Outside { call }),
        Err(OutsideFault::NoMemory) => Err(Ending::NoMemory),
    }
}

fn nobody(alloc: Global) -> Tees
    ensures { result ≡ [] }
{
    Tees::new(alloc, Vec::new(alloc))
}

// The subscribers that the text of the file names.
fn named_in(alloc: Global, file: &str, text: &[u8]) -> Result<Tees, Ending>
    requires word { IsTrue (is_word file.now) }
    ensures { IsNamedIn file.now text.now result }
{
    match read_subscribers(alloc, text) {
        Ok(subscribers) => Ok(Tees::new(alloc, subscribers)),
        Err(SubscribersFault::BadLine { at }) => Err(bad_line(alloc, file, at)),
        Err(SubscribersFault::NoMemory) => Err(Ending::NoMemory),
    }
}

// The file has a wrong line there.
fn bad_line(alloc: Global, file: &str, at: u64) -> Ending
    requires word { IsTrue (is_word file.now) }
    ensures { (result ≡ Ending.Damaged file.now at) ⊎ (result ≡ Ending.NoMemory) }
{
    match Word::from_text(alloc, file) {
        Ok(name) => Ending::Damaged { name, at },
        Err(_) => Ending::NoMemory,
    }
}
