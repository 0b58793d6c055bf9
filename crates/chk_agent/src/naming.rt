//! The default names of adaptors.

ghost use Rattle.std.specs.Prelude.{◌≡◌, ◌≤◌, IfOk, IsTrue, not, true, length, position, slice_set};
ghost use Rattle.chk_control.specs.Lines.{is_name};
ghost use Rattle.chk_world.specs.Checkpoints.{most_lines};
ghost use Rattle.chk_agent.specs.Adds.{default_name};
ghost use Rattle.chk_agent.specs.DefaultNames.{IsLeastFree, marked, name_number, number_in};
ghost use Rattle.chk_agent.specs.DefaultNames.{unmarked};

use chk_agent_adaptor::{Adaptor, Phase};
use chk_bytes::{NoMemory, Word, take_plain_decimal};
use std::alloc::Global;

/// The least number from 1 on whose default name no live adaptor has. It is one pass over the
/// adaptors, and takes a byte for each.
pub(crate) fn least_free(alloc: Global, adaptors: &[Adaptor]) -> Result<u64, NoMemory>
    requires few { length adaptors.now ≤ most_lines }
    ensures { IfOk result (IsLeastFree adaptors.now) }
{
    let taken = numbers_taken(alloc, adaptors)?;
    match first_free(taken.as_slice()) {
        Some(number) => Ok(number as u64),
        None => unreachable!(),
    }
}

/// The default name of this number.
pub(crate) fn name_of(alloc: Global, number: u64) -> Result<Word, NoMemory>
    ensures name { IfOk result (λ name. name ≡ default_name number) }
    ensures good { IfOk result (λ name. IsTrue (is_name name)) }
{
    let text = format!(in alloc; "adaptor_{number}")?;
    Word::from_text(alloc, text.as_str())
}

// Marks the numbers that live adaptors' default names take, and 0, which no default name has. One
// of the numbers up to that of the adaptors and one more is free.
fn numbers_taken(alloc: Global, adaptors: &[Adaptor]) -> Result<Vec<bool>, NoMemory>
    requires few { length adaptors.now ≤ most_lines }
    ensures { IfOk result (λ taken. taken.items ≡ marked (unmarked (length adaptors.now)) adaptors.now) }
{
    let mut taken = Vec::with_capacity(alloc, adaptors.len() + 2)?;
    taken.push(true)?;
    taken.resize(adaptors.len() + 2, false)?;
    for adaptor in adaptors {
        if let Some(number) = name_number(adaptor) {
            mark(&mut taken, number);
        }
    }
    Ok(taken)
}

// Marks the number, where it isn't past the last.
#[tactic(auto, using(crate::proofs::NamingFirst::set_past))]
fn mark(taken: &mut Vec<bool>, number: u64)
    ensures { taken.new.items ≡ slice_set taken.old.items number true }
{
    if number < taken.len() as u64 {
        taken[number as usize] = true;
    }
}

// The first number that isn't marked.
fn first_free(taken: &[bool]) -> Option<usize>
    ensures { result ≡ position not taken.now }
{
    taken.iter().position(|marked| !*marked)
}

// The number of the default name that the adaptor has, where it is live.
fn name_number(adaptor: &Adaptor) -> Option<u64>
    ensures { result ≡ name_number adaptor.now }
{
    match adaptor.phase() {
        Phase::Past => None,
        _ => number_in(adaptor.name().as_str()),
    }
}

// The number in a default name.
fn number_in(name: &str) -> Option<u64>
    ensures { result ≡ number_in name.now }
{
    match name.as_bytes().strip_prefix(b"adaptor_".as_slice()) {
        Some(digits) => take_plain_decimal(digits),
        None => None,
    }
}
