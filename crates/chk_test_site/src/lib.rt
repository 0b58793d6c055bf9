//! Tests of the site in memory: each call in each of its answers, and calls that it and the real site answer alike.
#![tactic(auto)]

#[cfg(test)]
mod clean;
#[cfg(test)]
mod each_call;
#[cfg(test)]
mod in_memory;
#[cfg(test)]
mod two_doors;
#[cfg(test)]
mod two_sites;
