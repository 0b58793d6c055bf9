//! Memory that is taken before a call changes anything.
ghost use Rattle.std.specs.Prelude.{◌≡◌, ◌<◌, ◌≤◌, [], ◌∷◌, ◌++◌, length, string_bytes, take, vec_capacity, vec_len, IfOk, OnErr, OnOk};

use chk_bytes::{Bytes, NoMemory};
use chk_site::PIECE_BYTES;
use std::alloc::Global;
use std::mem;

/// A copy of the text.
pub fn text(alloc: Global, text: &str) -> Result<String, NoMemory>
    ensures { IfOk result (λ copy. string_bytes copy ≡ text.now) }
{
    Ok(String::from_str(alloc, text)?)
}

/// Makes the room that pieces are read into, where it isn't there yet.
pub fn make_room(buffer: &mut Vec<u8>) -> Result<(), NoMemory>
    ensures room { OnOk result (0 < vec_len buffer.new) }
    ensures made { OnOk result (vec_len buffer.old ≡ 0 → vec_len buffer.new ≡ PIECE_BYTES) }
    ensures there { 0 < vec_len buffer.old → buffer.new.items ≡ buffer.old.items }
    ensures err { OnErr result (buffer.new.items ≡ buffer.old.items) }
    ensures empty { OnErr result (vec_len buffer.old ≡ 0) }
    ensures full { OnErr result (vec_capacity buffer.old < PIECE_BYTES) }
{
    if buffer.is_empty() {
        buffer.resize(PIECE_BYTES, 0)?;
    }
    Ok(())
}

/// The bytes that were read into the front of the buffer. The buffer itself is handed out where they fill
/// half of it: new room costs less than a copy of them.
pub fn front_of(alloc: Global, buffer: &mut Vec<u8>, count: usize) -> Result<Bytes, NoMemory>
    requires { count ≤ length buffer.old.items }
    ensures { IfOk result (λ bytes. bytes ≡ take count buffer.old.items) }
{
    if count < buffer.len() / 2 {
        return Bytes::from_slice(alloc, &buffer[..count]);
    }
    let mut bytes = mem::replace(buffer, Vec::new(alloc));
    bytes.truncate(count);
    Ok(Bytes::from_vec(bytes))
}

/// Makes room for one more item.
pub fn make_place<T>(items: &mut Vec<T>) -> Result<(), NoMemory>
    ensures same { items.new.items ≡ items.old.items }
    ensures room { OnOk result (vec_len items.new < vec_capacity items.new) }
    ensures full { OnErr result (vec_capacity items.old ≤ vec_len items.old) }
{
    items.reserve(1)?;
    Ok(())
}

pub fn push<T: Drop>(items: &mut Vec<T>, item: T) -> Result<(), NoMemory>
    ensures ok { OnOk result (items.new.items ≡ items.old.items ++ item ∷ []) }
    ensures err { OnErr result (items.new.items ≡ items.old.items) }
    ensures full { OnErr result (vec_capacity items.old ≤ vec_len items.old) }
{
    items.push(item)?;
    Ok(())
}
