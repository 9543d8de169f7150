ghost use Rattle.std.specs.Prelude.{◌≡◌, ◌≤◌, ◌-◌, length, min};
ghost use Rattle.std.specs.Str.{chars, bytes_eq};
ghost use Rattle.mt_outside.specs.Files.{ReadsPart};
ghost use Rattle.mt_outside.specs.Entries.{place_in_names};

use crate::memory_files::FileEntry;

fn is_named(entry: &FileEntry, name: &str) -> bool
    ensures { result ≡ bytes_eq entry.now.name (chars name.now) }
{
    entry.name.is(name)
}

/// The place of the first entry of a name, or their number where there is none.
pub fn place_named(entries: &[FileEntry], name: &str) -> usize
    ensures { result ≡ place_in_names (chars name.now) entries.now }
{
    for (i, entry) in entries.iter().enumerate() {
        if is_named(entry, name) {
            return i;
        }
    }
    entries.len()
}

/// Copies the bytes from a place on.
pub fn read_part(bytes: &[u8], at: u64, into: &mut [u8]) -> usize
    ensures bound { result ≤ length into.new }
    ensures part { ReadsPart bytes.now at result into.new }
    ensures full { result ≡ min (length into.new) (length bytes.now - at) }
{
    if at >= bytes.len() as u64 {
        return 0;
    }
    let rest = &bytes[at as usize..];
    let count = rest.len().min(into.len());
    into[..count].copy_from_slice(&rest[..count]);
    count
}
