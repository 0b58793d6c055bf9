//! How the scenes name a collector, and how its calls ended.
ghost use Rattle.std.specs.Prelude.{◌≡◌, IfOk, IsTrue};
ghost use Rattle.chk_bytes.specs.Stems.{is_collector};
ghost use Rattle.chk_site.specs.declared.acts.Role.TheVariants.{Collector as collector_role};

use chk_bytes::Word;
use chk_sink::SinkFault;
use chk_site::{Role, Who};
use chk_test_engine::plain;
use std::alloc::Global;
use std::test::Fail;

/// The collector of this name.
pub(crate) fn collector_of(alloc: Global, name: &[u8]) -> Result<Who, Fail>
    requires { IsTrue (is_collector name.now) }
    ensures role { IfOk result (λ who. who.role ≡ collector_role) }
    ensures name { IfOk result (λ who. IsTrue (is_collector who.name)) }
{
    let name = Word::new(alloc, name)?;
    Ok(Who {
        role: Role::Collector,
        name,
    })
}

pub(crate) fn fault_text(alloc: Global, fault: &SinkFault) -> Result<String, Fail> {
    match fault {
        SinkFault::Damaged { name, at } => {
            let name = name.as_str();
            Ok(format!(in alloc; "damaged {name} {at}")?)
        }
        SinkFault::Spent { born } => Ok(format!(in alloc; "spent {born}")?),
        SinkFault::Outside { call } => {
            let call = call.name();
            Ok(format!(in alloc; "outside {call}")?)
        }
        SinkFault::NoMemory => plain(alloc, "no memory"),
    }
}

pub(crate) fn end_text(alloc: Global, end: &Result<(), SinkFault>) -> Result<String, Fail> {
    match end {
        Ok(()) => plain(alloc, "done"),
        Err(fault) => fault_text(alloc, fault),
    }
}
