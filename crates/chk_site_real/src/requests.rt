//! Requests of the web at a control door, which are no control lines.
ghost use Rattle.std.specs.Prelude.{◌≡◌};
ghost use Rattle.chk_site_errors.specs.Faults.{answer_of};
ghost use Rattle.chk_site.specs.Site.{MayFail};
ghost use Rattle.chk_site_real.specs.Requests.{given_to, is_request, without};

use chk_site::{Role, Taking};
use chk_site_errors::SystemFault;

/// What a process of this role is given of what came at its door: an agent no request of the web, so that no
/// web page gives control lines.
pub fn given_to(
    role: Role,
    given: Result<Option<Taking>, SystemFault>,
) -> Result<Option<Taking>, SystemFault>
    requires { MayFail (answer_of given) }
    ensures given { result ≡ given_to role given }
    ensures only { MayFail (answer_of result) }
{
    match role {
        Role::Agent => without_request(given),
        Role::Collector | Role::Job | Role::Writer => given,
    }
}

// A message that begins as a request of the web does isn't taken.
fn without_request(
    given: Result<Option<Taking>, SystemFault>,
) -> Result<Option<Taking>, SystemFault>
    requires { MayFail (answer_of given) }
    ensures left { result ≡ without given }
    ensures only { MayFail (answer_of result) }
{
    match given {
        Ok(Some(taking)) if is_request(taking.bytes.as_slice()) => Ok(None),
        other => other,
    }
}

// The message begins with a method of HTTP. No command of a control line is in capitals.
fn is_request(bytes: &[u8]) -> bool
    ensures { result ≡ is_request bytes.now }
{
    bytes.starts_with(b"GET ")
        || bytes.starts_with(b"HEAD ")
        || bytes.starts_with(b"POST ")
        || bytes.starts_with(b"PUT ")
        || bytes.starts_with(b"DELETE ")
        || bytes.starts_with(b"CONNECT ")
        || bytes.starts_with(b"OPTIONS ")
        || bytes.starts_with(b"TRACE ")
        || bytes.starts_with(b"PATCH ")
}
