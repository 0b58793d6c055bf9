//! A site in memory, with the script of what happens next.
use crate::acts::about_acts;
use crate::files::about_file;
use crate::parts::Parts;
use crate::script::{happens, is_quiet};
use crate::texts::{plain, shown};
use chk_bytes::Word;
use chk_site::{Act, Role, Script, Site, Who};
use chk_site_mem::SiteMem;
use chk_test_calls::quiet;
use std::alloc::Global;
use std::mem;
use std::test::Fail;

/// A site in memory with the script of what happens next. Scenes make calls on `site` after `begin`.
#[derive(Drop)]
pub struct Outside {
    pub alloc: Global,
    pub site: SiteMem,
    /// What others do, and which calls fail, from the next call on.
    pub next: Script,
    /// How many acts there were at the last `begin`.
    pub before: usize,
    restarts: bool,
}

// The agent h1.
fn agent(alloc: Global) -> Result<Who, Fail> {
    Ok(Who {
        role: Role::Agent,
        name: Word::new(alloc, b"h1")?,
    })
}

impl Outside {
    pub fn new(alloc: Global) -> Result<Outside, Fail> {
        Ok(Outside {
            alloc,
            site: SiteMem::new(alloc, quiet(alloc))?,
            next: quiet(alloc),
            before: 0,
            restarts: false,
        })
    }

    /// The next `begin` or sending begins a script, even if nothing was put into it.
    pub fn restart(&mut self) {
        self.restarts = true;
    }

    /// What was put into `next` holds from here on, if anything was, or a restart was asked for.
    pub fn begin(&mut self) {
        if self.restarts || !is_quiet(&self.next) {
            let script = mem::replace(&mut self.next, quiet(self.alloc));
            self.site.restart(script);
            self.restarts = false;
        }
        self.before = self.site.acts().len();
    }

    /// The acts since the last `begin`.
    pub fn acts(&self) -> &[Act] {
        self.site.acts().get(self.before..).unwrap_or(&[])
    }

    // The number of the message, `DOOR PARTS`.
    fn send(&mut self, parts: &Parts, text: &str) -> Result<String, Fail> {
        if self.restarts {
            self.begin();
        }
        let (door, words) = text.split_once(' ').unwrap_or((text, ""));
        let bytes = parts.bytes(self.alloc, words)?;
        let who = agent(self.alloc)?;
        match self.site.send(self.alloc, &who, door, bytes.as_slice()) {
            Ok(message) => Ok(format!(in self.alloc; "{message}")?),
            Err(_) => plain(self.alloc, "refused"),
        }
    }

    // What h1 gets for the message of this number.
    fn got(&mut self, message: u64) -> Result<String, Fail> {
        let who = agent(self.alloc)?;
        match self.site.got(self.alloc, &who, message) {
            Ok(got) => shown(self.alloc, got.as_slice()),
            Err(_) => plain(self.alloc, "refused"),
        }
    }

    /// What `VERB TEXT` answers. None: it is none of the verbs that all scenes have.
    pub fn step(&mut self, parts: &Parts, verb: &str, text: &str) -> Result<Option<String>, Fail> {
        let alloc = self.alloc;
        let given = match verb {
            "size" | "is" | "end" | "text" => about_file(alloc, &self.site, parts, verb, text),
            "count" | "calls" => about_acts(alloc, self.acts(), verb, text),
            "total" => about_acts(alloc, self.site.acts(), "count", "-"),
            "appended" | "last" | "acts" => about_acts(alloc, self.site.acts(), verb, text),
            "send" => self.send(parts, text),
            "got" => self.got(text.parse()?),
            "restart" => {
                self.restart();
                plain(alloc, "done")
            }
            _ => {
                if !happens(alloc, &mut self.next, parts, verb, text)? {
                    return Ok(None);
                }
                plain(alloc, "done")
            }
        };
        Ok(Some(given?))
    }
}
