// Lists of what stands under a name.
ghost use Rattle.std.specs.Prelude.{◌≡◌, position};
ghost use Rattle.chk_site_mem_store.specs.Named.{is_named};

use chk_bytes::Bytes;

/// Something under its name.
#[derive(Drop)]
pub struct Named<T> {
    pub name: Bytes,
    pub value: T,
}

/// The place of the first of this name.
pub fn place<T>(entries: &[Named<T>], name: &[u8]) -> Option<usize>
    ensures { result ≡ position (is_named name.now) entries.now }
{
    entries
        .iter()
        .position(|entry| name == entry.name.as_slice())
}
