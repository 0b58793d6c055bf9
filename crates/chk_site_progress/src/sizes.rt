//! How many bytes the files of folders have.

use chk_site_listings::sorted_names;
use std::alloc::Global;
use std::fs;
use std::rt::Files;

/// The lengths of the files in these folders together. A folder or a file that isn't there, or that the
/// user can't read, counts as empty: it is about so many bytes that a look goes over.
pub fn bytes_in<R: Files>(rt: &R, alloc: Global, folders: &[&str]) -> u64 {
    let mut sum = 0u64;
    for folder in folders {
        sum = sum.saturating_add(bytes_of_folder(rt, alloc, folder));
    }
    sum
}

fn bytes_of_folder<R: Files>(rt: &R, alloc: Global, folder: &str) -> u64 {
    let Ok(names) = sorted_names(rt, alloc, folder) else {
        return 0;
    };
    let mut sum = 0u64;
    for name in &names {
        sum = sum.saturating_add(bytes_of_file(rt, alloc, folder, name.as_str()));
    }
    sum
}

fn bytes_of_file<R: Files>(rt: &R, alloc: Global, folder: &str, name: &str) -> u64 {
    let Ok(path) = format!(in alloc; "{folder}/{name}") else {
        return 0;
    };
    match fs::metadata(rt, path.as_str()) {
        Ok(found) => found.len(),
        Err(_) => 0,
    }
}
