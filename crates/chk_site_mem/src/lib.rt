//! The outside in memory: two sites that tell their history, for tests.
#![tactic(auto)]

mod fate;
mod others;
mod printing;
mod site_clean;
mod site_mem;

pub use site_clean::SiteClean;
pub use site_mem::SiteMem;
