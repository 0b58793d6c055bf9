//! Which line of which case is played, and what it answered.
use std::alloc::{AllocError, Global};
use std::test::Fail;

#[derive(Drop)]
pub(crate) struct Report {
    case: String,
    // How it goes wrong.
    harms: String,
    // The line, and what it answered.
    line: String,
}

impl Report {
    pub(crate) fn new(alloc: Global) -> Report {
        Report {
            case: String::new(alloc),
            harms: String::new(alloc),
            line: String::new(alloc),
        }
    }

    // The case begins, without harms.
    pub(crate) fn begin(&mut self, case: &str) -> Result<(), Fail> {
        self.case.clear();
        self.harms.clear();
        self.line.clear();
        Ok(self.case.push_str(case)?)
    }

    pub(crate) fn add_harm(&mut self, harm: &str, at: u64) -> Result<(), Fail> {
        Ok(write!(self.harms, ", {harm} {at}")?)
    }

    pub(crate) fn note(&mut self, line: &str) -> Result<(), Fail> {
        self.line.clear();
        Ok(self.line.push_str(line)?)
    }

    pub(crate) fn answer(&mut self, given: &str) -> Result<(), Fail> {
        self.line.push_str(": ")?;
        Ok(self.line.push_str(given)?)
    }

    // `CASE: LINE: GIVEN`.
    pub(crate) fn add_to(&self, failed: &mut String) -> Result<(), AllocError> {
        failed.push_str(self.case.as_str())?;
        failed.push_str(self.harms.as_str())?;
        failed.push_str(": ")?;
        failed.push_str(self.line.as_str())?;
        failed.push('\n')
    }
}
