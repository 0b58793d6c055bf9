//! Addresses: each of them an IP address or a host's name, and a port.
ghost use Rattle.std.specs.Prelude.{◌≡◌, [], None, position, IfNone, IfSome};
ghost use Rattle.chk_site.specs.Site.{MayFail};
ghost use Rattle.chk_site_sockets.specs.Addresses.{is_of, IsKept, IsTaken};
ghost use Rattle.chk_site_errors.specs.Faults.{answer_of};

use chk_site_errors::{SystemFault, push};
use std::alloc::Global;
use std::net::{Net, SocketAddr, ToSocketAddrs};

/// How many addresses of one host are tried.
pub const MOST_TRIED: usize = 4;

/// How many hosts' addresses are kept; then the oldest one goes.
pub const MOST_KEPT: usize = 64;

/// The addresses that this text stands for, up to the first four. A host's name is looked up by the
/// system, in its time. `Failed` where the text is no address, or there is no such host.
pub fn look_up<R: Net>(rt: &R, alloc: Global, text: &str) -> Result<Vec<SocketAddr>, SystemFault>
    ensures { MayFail (answer_of result) }
{
    let mut found = Vec::new(alloc);
    for address in text.to_socket_addrs(rt)?.take(MOST_TRIED) {
        push(&mut found, address)?;
    }
    Ok(found)
}

/// The address that a message to this text was last sent to.
#[derive(Drop)]
struct Route {
    text: String,
    address: SocketAddr,
}

/// What was found for the texts to which messages were sent.
#[derive(Drop)]
pub struct Routes {
    kept: Vec<Route>,
}

impl Routes {
    pub fn new(alloc: Global) -> Routes
        ensures { result.kept.items ≡ [] }
    {
        Routes {
            kept: Vec::new(alloc),
        }
    }

    /// What was found for the text, which is forgotten until it is kept again.
    pub fn take(&mut self, text: &str) -> Option<SocketAddr>
        ensures taken { IfSome result (IsTaken self.old.kept.items self.new.kept.items text.now) }
        ensures none { IfNone result (self.new.kept.items ≡ self.old.kept.items) }
        ensures absent { IfNone result (position (is_of text.now) self.old.kept.items ≡ None) }
    {
        let place = self.place_of(text)?;
        Some(self.kept.remove(place).address)
    }

    fn place_of(&self, text: &str) -> Option<usize>
        ensures { result ≡ position (is_of text.now) self.now.kept.items }
    {
        self.kept
            .iter()
            .position(|route| route.text.as_str() == text)
    }

    /// Want of memory is no fault: then the text is looked up again.
    pub fn keep(&mut self, text: String, address: SocketAddr)
        ensures { IsKept self.old.kept.items self.new.kept.items
            (record { text = text; address = address }) }
    {
        if self.kept.len() >= MOST_KEPT {
            let _oldest = self.kept.remove(0);
        }
        let _kept = self.kept.push(Route { text, address });
    }
}
