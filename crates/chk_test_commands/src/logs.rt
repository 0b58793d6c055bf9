//! Logs and answers as text.
use chk_bytes::Word;
use chk_site::{Call, Part, Role, Site, Who};
use chk_test_engine::{Outside, plain, shown};
use std::test::Fail;

// The first hundred bytes of a log.
pub(crate) fn log_text(outside: &mut Outside, path: &str) -> Result<String, Fail> {
    let alloc = outside.alloc;
    let who = Who {
        role: Role::Writer,
        name: Word::new(alloc, b"chukwa")?,
    };
    match outside.site.log_read(alloc, &who, path, Part::Base, 0, 100) {
        Ok(piece) => shown(alloc, piece.bytes.as_slice()),
        Err(_) => plain(alloc, "refused"),
    }
}

// What the first answer was.
pub(crate) fn answer_text(outside: &Outside) -> Result<String, Fail> {
    for act in outside.site.acts() {
        if act.call == Call::Answer {
            let answer = act.words.as_slice().first().ok_or("no answer")?;
            return shown(outside.alloc, answer.as_slice());
        }
    }
    plain(outside.alloc, "none")
}
