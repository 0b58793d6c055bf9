//! What is asked of files besides their bytes.
use chk_site::{Act, ActAnswer, Call};
use chk_site_mem::SiteMem;
use md5::{Digest, Md5};
use std::alloc::Global;
use std::test::Fail;

// How many bytes the act gave, if it is a read of this file.
fn given(act: &Act, name: &str) -> Option<usize> {
    if act.call != Call::Read || act.words.as_slice().first()?.as_slice() != name.as_bytes() {
        return None;
    }
    match &act.answer {
        ActAnswer::Done { words, .. } => words.as_slice().first().map(|bytes| bytes.len()),
        _ => None,
    }
}

// How many reads of a file there were, and how many bytes they gave.
pub(crate) fn reads_text(alloc: Global, acts: &[Act], name: &str) -> Result<String, Fail> {
    let mut count: u64 = 0;
    let mut sum: usize = 0;
    for act in acts {
        if let Some(size) = given(act, name) {
            count = count.saturating_add(1);
            sum = sum.saturating_add(size);
        }
    }
    Ok(format!(in alloc; "{count} give {sum}")?)
}

// The MD5 of a file in digits of base 16.
pub(crate) fn md5_text(alloc: Global, site: &SiteMem, name: &str) -> Result<String, Fail> {
    let bytes = site.file(name).ok_or("no such file")?;
    let mut text = String::new(alloc);
    for byte in Md5::digest(bytes).as_slice() {
        write!(text, "{byte:02x}")?;
    }
    Ok(text)
}
