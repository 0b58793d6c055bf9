//! Tests of the real outside: files, messages over loopback, and kept listings of folders.
#![tactic(auto)]

#[cfg(test)]
mod listed;
#[cfg(test)]
mod locks;
#[cfg(test)]
mod programs;
#[cfg(test)]
mod site;
#[cfg(test)]
mod sockets;
