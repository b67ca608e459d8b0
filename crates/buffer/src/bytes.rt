// Parts of byte buffers, and their two-byte fields.
ghost use Rattle.std.specs.Prelude.{◌≡◌, ◌+◌, ◌*◌, ◌/◌, ◌%◌, ◌≤◌, length};
ghost use Rattle.buffer.specs.Buffer.{four_at, overwrite, part, word_at, zeros};
ghost use Rattle.buffer.specs.Laid.{Laid};
ghost use Rattle.buffer.specs.Lists.{same};

// Document 01: "Two-byte fields of both buffers are low byte first."
pub fn word(lo: u8, hi: u8) -> u16
    ensures { result ≡ lo + hi * 256 }
{
    u16::from_le_bytes([lo, hi])
}

pub fn word_at(bytes: &[u8], at: usize) -> u16
    requires { at + 2 ≤ length bytes.now }
    ensures { result ≡ word_at bytes.now at }
{
    word(bytes[at], bytes[at + 1])
}

// Four bytes as one number, so that they are compared at once.
pub fn four_at(bytes: &[u8], at: usize) -> u32
    requires { at + 4 ≤ length bytes.now }
    ensures { result ≡ four_at bytes.now at }
{
    u32::from_le_bytes([bytes[at], bytes[at + 1], bytes[at + 2], bytes[at + 3]])
}

// The two bytes of a field by name: records lay them one by one among others.
pub fn low(word: u16) -> u8
    ensures { result ≡ word % 256 }
{
    word.to_le_bytes()[0]
}

pub fn high(word: u16) -> u8
    ensures { result ≡ word / 256 }
{
    word.to_le_bytes()[1]
}

// Fills dst with the bytes of src from place at. Byte by byte, as the next one: the library's `copy_from_slice`
// compares addresses, of which the code for every machine may make no numbers (tools/ports/lint.py).
pub fn copy_part(dst: &mut [u8], src: &[u8], at: usize)
    requires { at + length dst.old ≤ length src.now }
    ensures { dst.new ≡ part src.now at (length dst.old) }
{
    for i in 0..dst.len() {
        dst[i] = src[at + i];
    }
}

// Lays src over dst from place at.
pub fn overwrite_at(dst: &mut [u8], at: usize, src: &[u8])
    requires { at + length src.now ≤ length dst.old }
    ensures { dst.new ≡ overwrite dst.old at src.now }
{
    for i in 0..src.len() {
        dst[at + i] = src[i];
    }
}

// The same, answering the place behind: a text is written piece after piece.
pub fn put_bytes(dst: &mut [u8], at: usize, src: &[u8]) -> usize
    requires { at + length src.now ≤ length dst.old }
    ensures { Laid dst.old at src.now dst.new result }
{
    overwrite_at(dst, at, src);
    at + src.len()
}

// Lays n zeros over dst from place at.
pub fn zero_at(dst: &mut [u8], at: usize, n: usize)
    requires { at + n ≤ length dst.old }
    ensures { dst.new ≡ overwrite dst.old at (zeros n) }
{
    dst[at..at + n].fill(0);
}

// `==`, in the word of the definitions.
pub fn same_bytes(a: &[u8], b: &[u8]) -> bool
    ensures { result ≡ same a.now b.now }
{
    a == b
}
