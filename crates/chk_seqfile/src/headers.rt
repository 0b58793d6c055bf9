ghost use Rattle.std.specs.Prelude.{◌≡◌, ◌≤◌, ◌↔◌, ℕ, List, ◌++◌, length, take, IfOk};
ghost use Rattle.chk_seqfile.specs.HeaderGrammar.{IsHeader, IsHeaderFront};
ghost use Rattle.chk_seqfile.specs.Headers.{header, marker_of, read_header};
ghost use Rattle.chk_seqfile.specs.HeaderSteps.{HasCome, NoStepLeft};

use crate::reading::{read_first_text, read_marker, read_texts};
use chk_bytes::{Bytes, NoMemory};
use md5::{Digest, Md5};
use std::alloc::Global;

/// The first 80 bytes of a header: `SEQ`, the version, the classes of keys and values, each behind
/// its length of 34, two zeros (neither compressed nor block compressed), and no metadata.
const FRONT: &[u8; 80] =
    b"SEQ\x06\x22org.apache.hadoop.io.BytesWritable\x22org.apache.hadoop.io.BytesWritable\0\0\0\0\0\0";

/// What a header says: the file's marker, and where the header ends.
#[derive(Clone, Copy, Debug, PartialEq, Eq)]
pub struct HeaderRef {
    /// The 16 bytes of each sync entry of the file.
    pub marker: [u8; 16],
    /// The place of the first entry: 96 in a file that this program wrote.
    pub end: u64,
}

/// How far a header was read: up to a text of its metadata.
#[derive(Clone, Copy, Debug, PartialEq, Eq)]
pub struct TextsLeft {
    /// The place of the next text, or of the marker where no text is left.
    pub place: u64,
    /// How many texts stand there before the marker.
    pub texts: u64,
}

/// Why bytes are not read as a header. The first field that is wrong decides.
#[derive(Clone, Copy, Debug, PartialEq, Eq)]
pub enum HeaderFault {
    /// The file does not begin with `SEQ`.
    NotSeq,
    /// Another version than 6.
    Version { found: u8 },
    /// The file is compressed.
    Compressed,
    /// The keys or the values are of another class.
    OtherClass,
    /// The bytes are the beginning of a header, but not all of it.
    Short,
    /// The field of the metadata that begins at this place is not a number from 0 to 2^31 - 1.
    BadMeta { at: u64 },
}

/// The marker of the file that is written under a stem: the MD5 of the stem.
pub(crate) fn marker_of(stem: &str) -> [u8; 16]
    ensures { result ≡ marker_of stem.now }
{
    Md5::digest(stem.as_bytes())
}

/// The 96 bytes with which the file of a stem begins.
pub fn header(alloc: Global, stem: &str) -> Result<Bytes, NoMemory>
    ensures { IfOk result (λ b. b ≡ header (marker_of stem.now)) }
{
    let mut bytes = Bytes::new(alloc);
    bytes.push_all(FRONT)?;
    bytes.push_all(&marker_of(stem))?;
    Ok(bytes)
}

/// Reads the header with which a file begins, without memory and without a copy. What follows it
/// doesn't matter.
///
/// The metadata may be any, and a length may have any of its spellings: so the header of another
/// maker's file may end elsewhere than at 96. A header of n texts of metadata takes n steps.
pub fn read_header(bytes: &[u8]) -> Result<HeaderRef, HeaderFault>
    // What is read is a header.
    ensures found { IfOk result (λ head. (head.end ≤ length bytes.now)
        × IsHeader head.marker (take head.end bytes.now)) }
    // A header is read, whatever follows.
    ensures only { (marker head rest : List ℕ) → IsHeader marker head → bytes.now ≡ head ++ rest
        → result ≡ Ok (record { marker = marker; end = length head }) }
    // Short are just the proper fronts of headers.
    ensures short { (result ≡ Err HeaderFault.Short) ↔ IsHeaderFront bytes.now }
    // Which fault it is.
    ensures exact { result ≡ read_header bytes.now }
{
    read_header_on(bytes, &mut None)
}

/// Reads the header with which a file begins, as `read_header` does, where its bytes come in pieces
/// and all that have come are given again at each call. `from` is `None` at the first call, and
/// keeps how far the header was read.
///
/// A call costs the number of texts that have become whole since the last one, and a constant beside;
/// the bytes of a text are not looked at. The next call begins at the text that isn't there whole.
pub fn read_header_on(bytes: &[u8], from: &mut Option<TextsLeft>) -> Result<HeaderRef, HeaderFault>
    requires come { HasCome from.old bytes.now }
    ensures found { IfOk result (λ head. (head.end ≤ length bytes.now)
        × IsHeader head.marker (take head.end bytes.now)) }
    ensures header { result ≡ read_header bytes.now }
    ensures come { HasCome from.new bytes.now }
    // It goes on as far as it can.
    ensures far { NoStepLeft from.new bytes.now }
{
    let mut left = match *from {
        Some(left) => left,
        None => read_first_text(bytes)?,
    };
    let texts = read_texts(bytes, &mut left);
    *from = Some(left);
    texts?;
    read_marker(bytes.len(), &bytes[left.place as usize..])
}
