// Files in memory.
ghost use Rattle.std.specs.Prelude.{◌≡◌, ◌-◌, drop, length, min, option_map};
ghost use Rattle.lucid_ports.specs.Files.{bytes_named, bytes_at};

/// A file in memory: a name, and the bytes that the name holds.
#[derive(Drop)]
pub struct MemoryFile {
    pub name: String,
    pub bytes: Vec<u8>,
}

// The number of the first file of a name.
pub(crate) fn find_file(files: &[MemoryFile], name: &str) -> Option<usize>
    ensures { bytes_named files.now name.now ≡ option_map (bytes_at files.now) result }
{
    for (k, file) in files.iter().enumerate() {
        if file.name.as_str() == name {
            return Some(k);
        }
    }
    None
}

// The bytes of a file from a position on.
pub(crate) fn rest_of(files: &[MemoryFile], file: usize, position: usize) -> &[u8]
    ensures value { result.now ≡ drop position (bytes_at files.now file) }
    ensures len { length result.now ≡ length (bytes_at files.now file) - position }
{
    let bytes = bytes_of(files, file);
    if position < bytes.len() {
        &bytes[position..]
    } else {
        &[]
    }
}

// The position, or the end of the file where it lies past that.
pub(crate) fn position_in(files: &[MemoryFile], file: usize, position: usize) -> usize
    ensures { result ≡ min position (length (bytes_at files.now file)) }
{
    position.min(bytes_of(files, file).len())
}

pub(crate) fn bytes_of(files: &[MemoryFile], file: usize) -> &[u8]
    ensures { result.now ≡ bytes_at files.now file }
{
    match files.get(file) {
        Some(file) => &file.bytes,
        None => &[],
    }
}
