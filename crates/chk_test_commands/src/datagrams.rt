//! What is in closed buffers of datagrams.
use chk_test_engine::{Outside, plain, shown};
use std::test::Fail;

// The closed buffers of the writer u1.
const CLOSED: [&str; 3] = [
    "wahead/u1-0000000000000000001",
    "wahead/u1-0000000000000000002",
    "wahead/u1-0000000000000000003",
];

// Their bytes, one behind the other.
pub(crate) fn closed(outside: &Outside) -> Result<String, Fail> {
    let mut text = String::new(outside.alloc);
    for name in CLOSED {
        let bytes = outside.site.file(name).unwrap_or(b"");
        let bytes = shown(outside.alloc, bytes)?;
        text.push_str(bytes.as_str())?;
    }
    Ok(text)
}

// `done` if they have each of the datagrams `ab` and `c|` once at most, in their order, and begin with
// these bytes.
pub(crate) fn keeps(outside: &Outside, marked: &str) -> Result<String, Fail> {
    let closed = closed(outside)?;
    let fits = matches!(closed.as_str(), "" | "ab" | "c|" | "abc|");
    if fits && closed.as_str().starts_with(marked) {
        return plain(outside.alloc, "done");
    }
    Ok(closed)
}
