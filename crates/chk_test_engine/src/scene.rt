//! What a case is played on.
use crate::outside::Outside;
use crate::parts::Parts;
use std::alloc::Global;
use std::test::Fail;

/// What the cases of a folder are played on. It is boxed, since owners of a large value are dear to
/// prove.
pub trait Scene: Drop {
    /// A scene in which nothing has happened.
    fn empty(alloc: Global) -> Result<Box<Self>, Fail>;

    /// Its site, its script and its acts.
    fn outside(&mut self) -> &mut Outside;

    /// What `VERB TEXT` answers, `done` if there is nothing to report. None: the scene has no such
    /// verb. The engine then asks its outside.
    fn step(&mut self, parts: &Parts, verb: &str, text: &str) -> Result<Option<String>, Fail>;
}
