//! Reads a header field after field: each function answers the bytes behind its field.

ghost use Rattle.std.specs.Prelude.{◌≡◌, ◌-◌, ◌<◌, ◌≤◌, ◌^◌, length, drop, slice_index, Err, OnOk, IfOk, IfErr};
ghost use Rattle.chk_seqfile.specs.Headers.{expect, read_version, spelled_34, read_class, read_front, read_digits, read_length, skip, read_text, read_marker};
ghost use Rattle.chk_seqfile.specs.HeaderSteps.{read_first_text, HasComeTo};
ghost use Rattle.chk_seqfile.specs.declared.headers.HeaderFault.TheVariants.{OtherClass};
ghost use Rattle.chk_seqfile.specs.Reading.{rest_of, number_and_rest};

use crate::headers::{HeaderFault, HeaderRef, TextsLeft};

/// The class of keys and of values, without its length.
const CLASS: &[u8; 34] = b"org.apache.hadoop.io.BytesWritable";

/// The number 34 in 8 bytes: a longer spelling of it has the last ones behind its first byte.
const DIGITS_OF_34: [u8; 8] = [0, 0, 0, 0, 0, 0, 0, 34];

/// The marker at the end of a header, of an input of `total` bytes.
pub(crate) fn read_marker(total: usize, bytes: &[u8]) -> Result<HeaderRef, HeaderFault>
    requires { length bytes.now ≤ total }
    ensures { result ≡ read_marker total bytes.now }
{
    match bytes.first_chunk() {
        Some(marker) => Ok(HeaderRef {
            marker: *marker,
            end: (total - bytes.len() + 16) as u64,
        }),
        None => Err(HeaderFault::Short),
    }
}

/// The place of the first text of the metadata, and how many texts there are.
#[tactic(auto, unfolding(crate::specs::HeaderSteps::read_first_text))]
pub(crate) fn read_first_text(bytes: &[u8]) -> Result<TextsLeft, HeaderFault>
    ensures { result ≡ read_first_text bytes.now }
{
    let rest = read_front(bytes)?;
    let (count, rest) = read_digits(place_of(bytes.len(), rest), 4, rest)?;
    Ok(TextsLeft {
        place: place_of(bytes.len(), rest),
        texts: 2 * count,
    })
}

/// The fields before the metadata.
#[tactic(auto, unfolding(crate::specs::Headers::read_front))]
fn read_front(bytes: &[u8]) -> Result<&[u8], HeaderFault>
    ensures { rest_of result ≡ read_front bytes.now }
{
    let rest = expect(bytes, b"SEQ", HeaderFault::NotSeq)?;
    let rest = read_version(rest)?;
    let rest = read_class(rest)?;
    let rest = read_class(rest)?;
    expect(rest, &[0, 0], HeaderFault::Compressed)
}

fn expect<'a>(bytes: &'a [u8], want: &[u8], fault: HeaderFault) -> Result<&'a [u8], HeaderFault>
    ensures { rest_of result ≡ expect want.now fault bytes.now }
{
    if bytes.starts_with(want) {
        Ok(&bytes[want.len()..])
    } else if want.starts_with(bytes) {
        Err(HeaderFault::Short)
    } else {
        Err(fault)
    }
}

fn read_version(bytes: &[u8]) -> Result<&[u8], HeaderFault>
    ensures { rest_of result ≡ read_version bytes.now }
{
    match bytes {
        [] => Err(HeaderFault::Short),
        [6, rest @ ..] => Ok(rest),
        [found, ..] => Err(HeaderFault::Version { found: *found }),
    }
}

#[tactic(auto, using(crate::proofs::ReadingLemmas::read_class_parts), unfolding(crate::specs::Headers::class_text))]
fn read_class(bytes: &[u8]) -> Result<&[u8], HeaderFault>
    ensures { rest_of result ≡ read_class bytes.now }
{
    let rest = read_34(bytes)?;
    expect(rest, CLASS, HeaderFault::OtherClass)
}

/// The number 34, in any of its spellings of variable length.
fn read_34(bytes: &[u8]) -> Result<&[u8], HeaderFault>
    ensures { rest_of result ≡ expect (spelled_34 (slice_index bytes.now 0)) OtherClass bytes.now }
{
    match bytes {
        [first, rest @ ..] if 136 <= *first && *first < 144 => {
            expect(
                rest,
                &DIGITS_OF_34[usize::from(*first) - 136..],
                HeaderFault::OtherClass,
            )
        }
        _ => expect(bytes, &[34], HeaderFault::OtherClass),
    }
}

/// Goes on over the texts that are whole. A text that can't be read stays the next one.
pub(crate) fn read_texts(bytes: &[u8], left: &mut TextsLeft) -> Result<(), HeaderFault>
    requires { HasComeTo left.old bytes.now }
    ensures come { HasComeTo left.new bytes.now }
    ensures all { OnOk result (left.new.texts ≡ 0) }
    ensures fault { IfErr result (λ fault. (0 < left.new.texts)
        × (read_text (length bytes.now) (drop left.new.place bytes.now) ≡ Err fault)) }
{
    while left.texts > 0 {
        let rest = read_text(bytes.len(), &bytes[left.place as usize..])?;
        left.place = place_of(bytes.len(), rest);
        left.texts -= 1;
    }
    Ok(())
}

fn read_text(total: usize, bytes: &[u8]) -> Result<&[u8], HeaderFault>
    ensures { rest_of result ≡ read_text total bytes.now }
{
    let (count, rest) = read_length(place_of(total, bytes), bytes)?;
    skip(count, rest)
}

/// A number of variable length.
fn read_length(place: u64, bytes: &[u8]) -> Result<(u64, &[u8]), HeaderFault>
    ensures { number_and_rest result ≡ read_length place bytes.now }
{
    match bytes {
        [] => Err(HeaderFault::Short),
        [first, rest @ ..] => {
            if *first < 128 {
                Ok((u64::from(*first), rest))
            } else if *first < 136 || *first >= 144 {
                Err(HeaderFault::BadMeta { at: place })
            } else {
                read_digits(place, 144 - usize::from(*first), rest)
            }
        }
    }
}

/// A number of `count` bytes.
fn read_digits(place: u64, count: usize, bytes: &[u8]) -> Result<(u64, &[u8]), HeaderFault>
    ensures exact { number_and_rest result ≡ read_digits place count bytes.now }
    ensures small { IfOk result (λ x. x.0 < 2 ^ 31) }
{
    let mut value: u64 = 0;
    for i in 0..count {
        let digit = bytes.get(i).copied().unwrap_or(0);
        value = value * 256 + u64::from(digit);
        if value >= 1 << 31 {
            return Err(HeaderFault::BadMeta { at: place });
        }
    }
    if count <= bytes.len() {
        Ok((value, &bytes[count..]))
    } else {
        Err(HeaderFault::Short)
    }
}

fn skip(count: u64, bytes: &[u8]) -> Result<&[u8], HeaderFault>
    ensures { rest_of result ≡ skip count bytes.now }
{
    if count <= bytes.len() as u64 {
        Ok(&bytes[count as usize..])
    } else {
        Err(HeaderFault::Short)
    }
}

/// The place at which the last bytes of an input of `total` bytes begin.
fn place_of(total: usize, rest: &[u8]) -> u64
    ensures { result ≡ total - length rest.now }
{
    total.saturating_sub(rest.len()) as u64
}
