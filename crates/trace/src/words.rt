// Numbers of 32 bits in a file, low byte first: the library's calls, with their contracts in the words of a trace file.
ghost use Rattle.std.specs.Prelude.{◌≡◌, ◌+◌, ◌≤◌, length};
ghost use Rattle.model.specs.Traces.{word};
ghost use Rattle.umem.specs.Frames.{written};

// The number that four bytes write.
pub(crate) fn number_in(bytes: [u8; 4]) -> u32
    ensures { word result ≡ bytes }
{
    u32::from_le_bytes(bytes)
}

// The four bytes of a number.
pub(crate) fn word_of(n: u32) -> [u8; 4]
    ensures { result ≡ word n }
{
    n.to_le_bytes()
}

// Writes bytes from a place on.
pub(crate) fn put(buffer: &mut [u8], at: usize, bytes: &[u8])
    requires { at + length bytes.now ≤ length buffer.old }
    ensures { buffer.new ≡ written buffer.old at bytes.now }
{
    buffer[at..at + bytes.len()].copy_from_slice(bytes);
}
