//! The committed lengths of sinks, by the files alone.
use chk_bytes::take_u64;
use chk_site_mem::SiteMem;
use std::alloc::Global;
use std::test::Fail;

// The most sinks of the first start.
const SINKS: u64 = 5;

// That of the done sink, or the number in the mark, or 0.
fn length(alloc: Global, site: &SiteMem, number: u64) -> Result<u64, Fail> {
    let closed = format!(in alloc; "sinks/c1.1.{number}.done")?;
    if let Some(bytes) = site.file(closed.as_str()) {
        return Ok(bytes.len() as u64);
    }
    let mark = format!(in alloc; "sinks/c1.1.{number}.mark")?;
    let bytes = site.file(mark.as_str()).unwrap_or(b"");
    Ok(take_u64(bytes, 0).unwrap_or(0))
}

/// The committed length of each sink of c1's first start.
pub(crate) fn lengths(alloc: Global, site: &SiteMem) -> Result<Vec<u64>, Fail> {
    let mut lengths = Vec::new(alloc);
    for number in 1..=SINKS {
        lengths.push(length(alloc, site, number)?)?;
    }
    Ok(lengths)
}

/// No length is less than before.
pub(crate) fn are_kept(before: &[u64], after: &[u64]) -> bool {
    before
        .iter()
        .zip(after.iter())
        .all(|(old, new)| *old <= *new)
}

/// No sink of c1's first start is under writing, and none has a mark.
pub(crate) fn are_settled(alloc: Global, site: &SiteMem) -> Result<bool, Fail> {
    for number in 1..=SINKS {
        let open = format!(in alloc; "sinks/c1.1.{number}.chukwa")?;
        let mark = format!(in alloc; "sinks/c1.1.{number}.mark")?;
        if site.file(open.as_str()).is_some() || site.file(mark.as_str()).is_some() {
            return Ok(false);
        }
    }
    Ok(true)
}
