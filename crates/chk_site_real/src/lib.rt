//! The outside as it is: files below the current folder, messages on TCP and UDP, standard output
//! and the clock.
#![tactic(auto)]

mod locks;
mod requests;
mod site_real;

pub use site_real::SiteReal;
