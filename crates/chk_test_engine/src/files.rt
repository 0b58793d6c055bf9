//! What is asked of a site's files.
use crate::parts::Parts;
use crate::texts::{plain, shown};
use chk_site_mem::SiteMem;
use std::alloc::Global;
use std::test::Fail;

// - `size NAME`: how long the file is, or `none`.
// - `is NAME PARTS`: `done` if these are its bytes, or else its text. `is NAME`: there is no file.
// - `end NAME PARTS`: `done` if it ends with these bytes, or else its text.
// - `text NAME`: its text, or `none`.
pub(crate) fn about_file(
    alloc: Global,
    site: &SiteMem,
    parts: &Parts,
    verb: &str,
    asked: &str,
) -> Result<String, Fail> {
    let (name, words) = asked.split_once(' ').unwrap_or((asked, ""));
    let file = site.file(name);
    let bytes = parts.bytes(alloc, words)?;
    let is_so = match verb {
        "is" if words.is_empty() => file.is_none(),
        "is" => file == Some(bytes.as_slice()),
        "end" => file.unwrap_or(b"").ends_with(bytes.as_slice()),
        _ => false,
    };
    let Some(file) = file else {
        return plain(alloc, if is_so { "done" } else { "none" });
    };
    match verb {
        _ if is_so => plain(alloc, "done"),
        "size" => {
            let size = file.len();
            Ok(format!(in alloc; "{size}")?)
        }
        _ => shown(alloc, file),
    }
}
