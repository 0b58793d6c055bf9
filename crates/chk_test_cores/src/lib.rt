//! Tests of the queue, the table of answers, the ring of addresses and the splitter, and of the words of
//! commands and the lines that they print.
#![tactic(auto)]

#[cfg(test)]
mod acks;
#[cfg(test)]
mod failover;
#[cfg(test)]
mod lines;
#[cfg(test)]
mod queue;
#[cfg(test)]
mod splitter;
#[cfg(test)]
mod words;
