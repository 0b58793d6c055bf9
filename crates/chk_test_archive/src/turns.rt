//! A sink in which short records of many streams take turns.
use chk_bytes::Bytes;
use chk_test_engine::Parts;
use std::alloc::Global;
use std::test::Fail;

// The lengths of a record of 200 bytes of data and of its key, the key's length and its version; the texts behind the
// source; and the length of the value. With the sequence id and the source these are 43 bytes, so a record has 243.
const LENGTHS: &[u8] = b"\0\0\0\xeb\0\0\0\x1f\0\0\0\x1b\x01";

const TEXTS: &[u8] = b"\0\x03Log\0\x06/a.log\0\0\0\xc8";

// The record of this number of a stream.
fn push_record(bytes: &mut Bytes, host: u64, number: u64) -> Result<(), Fail> {
    let end = number.saturating_add(1).saturating_mul(200);
    let filled = [(host.saturating_mul(7).saturating_add(number) % 251) as u8; 200];
    let digits = [b'0' + (host / 10 % 10) as u8, b'0' + (host % 10) as u8];
    bytes.push_all(LENGTHS)?;
    bytes.push_all(&end.to_be_bytes())?;
    bytes.push_all(b"\0\x03h")?;
    bytes.push_all(&digits)?;
    bytes.push_all(TEXTS)?;
    Ok(bytes.push_all(&filled)?)
}

// `HOSTS COUNT`: a sink of so many records of each of these streams, one of each, and then the next ones.
pub(crate) fn sink_of_turns(alloc: Global, parts: &Parts, text: &str) -> Result<Bytes, Fail> {
    let (hosts, count) = text.split_once(' ').ok_or("no count")?;
    let (hosts, count): (u64, u64) = (hosts.parse()?, count.parse()?);
    let mut bytes = parts.bytes(alloc, "SINK_C1_1_1")?;
    for place in 0..hosts.saturating_mul(count) {
        let number = place.checked_div(hosts).unwrap_or(0);
        push_record(&mut bytes, place.checked_rem(hosts).unwrap_or(0), number)?;
    }
    Ok(bytes)
}
