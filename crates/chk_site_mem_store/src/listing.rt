// The names in a folder.
ghost use Rattle.std.specs.Prelude.{◌≡◌, ◌++◌, OnOk, IfOk, Option, Some, None, option_to_list, if◌then◌else◌};
ghost use Rattle.chk_bytes.specs.Words.{behind_front, is_word, text_lt};
ghost use Rattle.chk_site.specs.Honest.{IsListing};
ghost use Rattle.chk_site_mem_store.specs.Listing.{name_in, names_of, past_slash};
ghost use Rattle.chk_site_mem_store.specs.Reads.{text_at};
ghost use Rattle.chk_site_mem_store.specs.Stored.{file_in};

use crate::files::MemFile;
use crate::named::Named;
use chk_bytes::{NoMemory, Word, WordFault};
use std::alloc::Global;

/// The names of the files directly in a folder, without the folder, in byte order: just the words without a slash.
pub fn list(alloc: Global, files: &[Named<MemFile>], folder: &[u8]) -> Result<Vec<Word>, NoMemory>
    ensures { IfOk result (λ names. IsListing (file_in files.now) folder.now names.items) }
{
    let mut names = names_of(alloc, files, folder)?;
    names.sort_by(|a, b| a.as_str().cmp(b.as_str()))?;
    names.dedup_by(|later, earlier| later.as_str() == earlier.as_str());
    Ok(names)
}

fn names_of(alloc: Global, files: &[Named<MemFile>], folder: &[u8]) -> Result<Vec<Word>, NoMemory>
    ensures { IfOk result (λ names. names.items ≡ names_of folder.now files.now) }
{
    let mut names = Vec::new(alloc);
    for entry in files {
        add(&mut names, name_in(alloc, folder, entry.name.as_slice())?)?;
    }
    Ok(names)
}

fn add(names: &mut Vec<Word>, name: Option<Word>) -> Result<(), NoMemory>
    ensures { OnOk result (names.new.items ≡ names.old.items ++ option_to_list name) }
{
    if let Some(name) = name {
        names.push(name)?;
    }
    Ok(())
}

// The name under which the path is listed in the folder.
fn name_in(alloc: Global, folder: &[u8], path: &[u8]) -> Result<Option<Word>, NoMemory>
    ensures { IfOk result (λ name. name ≡ name_in folder.now path.now) }
{
    match past_slash(path.strip_prefix(folder)) {
        Some(name) if !name.contains(&b'/') => word_of(alloc, name),
        _ => Ok(None),
    }
}

// The word of these bytes, where they are one.
fn word_of(alloc: Global, text: &[u8]) -> Result<Option<Word>, NoMemory>
    ensures { IfOk result (λ word. word ≡ (if is_word text.now then Some text.now else None)) }
{
    match Word::new(alloc, text) {
        Ok(word) => Ok(Some(word)),
        Err(fault) if fault != WordFault::NoMemory => Ok(None),
        Err(_) => Err(NoMemory),
    }
}

fn past_slash(rest: Option<&[u8]>) -> Option<&[u8]>
    ensures { text_at result ≡ past_slash (text_at rest.entry) }
{
    match rest {
        Some([b'/', name @ ..]) => Some(name),
        _ => None,
    }
}
