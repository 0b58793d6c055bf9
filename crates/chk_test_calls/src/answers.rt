// How the answers of calls are told.
use chk_bytes::{Bytes, Word};
use chk_site::{CallFault, Piece, Suffix, Taking};
use std::test::Fail;

pub(crate) fn done(given: Result<(), CallFault>, told: &mut String) -> Result<(), Fail> {
    match given {
        Ok(()) => Ok(told.push_str("done")?),
        Err(fault) => refused(fault, told),
    }
}

pub(crate) fn number(given: Result<u64, CallFault>, told: &mut String) -> Result<(), Fail> {
    match given {
        Ok(number) => Ok(write!(told, "{number}")?),
        Err(fault) => refused(fault, told),
    }
}

pub(crate) fn bytes(given: Result<Bytes, CallFault>, told: &mut String) -> Result<(), Fail> {
    match given {
        Ok(bytes) => bracketed(&bytes, told),
        Err(fault) => refused(fault, told),
    }
}

pub(crate) fn names(given: Result<Vec<Word>, CallFault>, told: &mut String) -> Result<(), Fail> {
    match given {
        Ok(names) => listed(&names, told),
        Err(fault) => refused(fault, told),
    }
}

pub(crate) fn suffix(
    given: Result<Option<Suffix>, CallFault>,
    told: &mut String,
) -> Result<(), Fail> {
    match given {
        Ok(suffix) => Ok(told.push_str(suffix_text(&suffix))?),
        Err(fault) => refused(fault, told),
    }
}

pub(crate) fn piece(given: Result<Piece, CallFault>, told: &mut String) -> Result<(), Fail> {
    match given {
        Ok(piece) => {
            bracketed(&piece.bytes, told)?;
            told.push(' ')?;
            Ok(told.push_str(suffix_text(&piece.ended))?)
        }
        Err(fault) => refused(fault, told),
    }
}

pub(crate) fn taking(
    given: Result<Option<Taking>, CallFault>,
    told: &mut String,
) -> Result<(), Fail> {
    match given {
        Ok(Some(taking)) => {
            let number = taking.number;
            write!(told, "{number} ")?;
            bracketed(&taking.bytes, told)
        }
        Ok(None) => Ok(told.push('-')?),
        Err(fault) => refused(fault, told),
    }
}

fn suffix_text(suffix: &Option<Suffix>) -> &str {
    match suffix {
        Some(suffix) => suffix.as_str(),
        None => "-",
    }
}

fn listed(names: &[Word], told: &mut String) -> Result<(), Fail> {
    told.push('[')?;
    for name in names {
        told.push_str(name.as_str())?;
        told.push(' ')?;
    }
    Ok(told.push(']')?)
}

fn bracketed(bytes: &Bytes, told: &mut String) -> Result<(), Fail> {
    let text = std::str::from_utf8(bytes.as_slice())?;
    Ok(write!(told, "[{text}]")?)
}

fn refused(fault: CallFault, told: &mut String) -> Result<(), Fail> {
    Ok(write!(told, "{fault:?}")?)
}
