//! Tests of the formats: words, keys and posts, SequenceFiles, messages and control lines.
#![tactic(auto)]

#[cfg(test)]
mod answers;
#[cfg(test)]
mod control;
#[cfg(test)]
mod messages;
#[cfg(test)]
mod salvage;
#[cfg(test)]
mod seqfile;
#[cfg(test)]
mod tables;
#[cfg(test)]
mod texts;
#[cfg(test)]
mod written;
