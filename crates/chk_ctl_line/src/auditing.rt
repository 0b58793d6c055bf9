//! The words of `audit`.

ghost use Rattle.std.specs.Prelude.{◌≡◌, option_map, IfSome};
ghost use Rattle.chk_ctl_line.specs.Auditing.{asked_audit};
ghost use Rattle.chk_ctl_line.specs.Commands.{asked_of, IsGood};
ghost use Rattle.chk_ctl_line.specs.Given.{rows_in};

use crate::commands::{AuditWords, Command};
use crate::names::{is_path, is_store};
use crate::options::Given;

/// What the options of `audit` ask for, where there are no other words.
pub(crate) fn read_audit<'a>(given: &Given<'a>) -> Option<Command<'a>>
    ensures asked { option_map asked_of result ≡ asked_audit (rows_in given.now) }
    ensures good { IfSome result (λ command. IsGood (asked_of command)) }
{
    let agent = given.value("agent")?;
    let store = given.value("store")?;
    match given.plain() {
        None if is_store(agent) && is_path(store) => {
            Some(Command::Audit(AuditWords { agent, store }))
        }
        _ => None,
    }
}
