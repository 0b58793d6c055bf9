//! Two archives, `a` and `b`, that are joined.
ghost use Rattle.std.specs.Prelude.{IfSome, IsTrue};
ghost use Rattle.chk_join.specs.Joined.{can_join};

use crate::job::archiver;
use crate::telling::join_fault_text;
use chk_join::join;
use chk_site_mem::SiteMem;
use chk_test_engine::{Outside, Parts, Scene};
use std::alloc::Global;
use std::test::Fail;

/// Files of archives, and joins of them.
#[derive(Drop)]
pub struct JoinScene {
    outside: Outside,
}

fn folder(name: &str) -> Option<&'static str>
    ensures { IfSome result (λ folder. IsTrue (can_join folder.now)) }
{
    match name {
        "a" => Some("a"),
        "b" => Some("b"),
        _ => None,
    }
}

// `LEFT RIGHT`.
fn joins(alloc: Global, site: &mut SiteMem, text: &str) -> Result<String, Fail> {
    let (left, right) = text.split_once(' ').ok_or("no second folder")?;
    let left = folder(left).ok_or("no such folder")?;
    let right = folder(right).ok_or("no such folder")?;
    let who = archiver(alloc)?;
    match join(alloc, site, &who, left, right) {
        Ok(report) => {
            let (streams, bytes) = (report.streams, report.bytes);
            Ok(format!(in alloc; "streams {streams} bytes {bytes}")?)
        }
        Err(fault) => join_fault_text(alloc, fault),
    }
}

impl Scene for JoinScene {
    fn empty(alloc: Global) -> Result<Box<Self>, Fail> {
        let outside = Outside::new(alloc)?;
        Ok(Box::new(alloc, JoinScene { outside })?)
    }

    fn outside(&mut self) -> &mut Outside {
        &mut self.outside
    }

    // - `join LEFT RIGHT`: how many streams and bytes are joined, or why they aren't.
    fn step(&mut self, _: &Parts, verb: &str, text: &str) -> Result<Option<String>, Fail> {
        if verb != "join" {
            return Ok(None);
        }
        self.outside.begin();
        let alloc = self.outside.alloc;
        Ok(Some(joins(alloc, &mut self.outside.site, text)?))
    }
}
