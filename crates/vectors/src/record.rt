// A record of a file of vectors: a head of numbers, then four strings of bytes. tests/second/src/bin/vectors.rs has the format.
// Nothing is taken on trust: what stands outside the bytes at hand reads as 0 or as an empty string, and `whole` says if a record is as long as it says.
ghost use Rattle.std.specs.Prelude.{◌≤◌, ◌<◌, length};

// The bytes of a record before its strings.
const HEAD: usize = 23;

// Room for every buffer that a record lends, and for P1's file.
pub const ROOM: usize = 1024;

// N bytes from a place on.
fn bytes_at<const N: usize>(s: &[u8], at: usize) -> [u8; N] {
    let mut bytes = [0; N];
    for (to, from) in bytes.iter_mut().zip(s.iter().skip(at)) {
        *to = *from;
    }
    bytes
}

// A byte, and numbers of two, four and eight bytes, low byte first.
pub fn byte(s: &[u8], at: usize) -> u8 {
    s.get(at).copied().unwrap_or(0)
}

pub fn two(s: &[u8], at: usize) -> usize
    ensures { result < 65536 }
{
    usize::from(u16::from_le_bytes(bytes_at(s, at)))
}

pub fn four(s: &[u8], at: usize) -> u32 {
    u32::from_le_bytes(bytes_at(s, at))
}

pub fn eight(s: &[u8], at: usize) -> usize {
    u64::from_le_bytes(bytes_at(s, at)) as usize
}

// The bytes from a place up to another.
fn between(s: &[u8], from: usize, to: usize) -> &[u8] {
    s.get(from..to).unwrap_or(&[])
}

// The four strings.
pub fn first(s: &[u8]) -> &[u8] {
    between(s, HEAD, two(s, 15))
}

pub fn second(s: &[u8]) -> &[u8] {
    between(s, two(s, 15), two(s, 17))
}

pub fn before(s: &[u8]) -> &[u8] {
    between(s, two(s, 17), two(s, 19))
}

pub fn after(s: &[u8]) -> &[u8] {
    between(s, two(s, 19), two(s, 21))
}

// Whether a record is as long as it says: its last string ends where it does.
pub fn whole(s: &[u8]) -> bool {
    s.len() == two(s, 21)
}

// How long the record is that begins the bytes. Bytes that are no record go to the end of the file.
pub fn size(bytes: &[u8]) -> usize
    requires { 0 < length bytes.now }
    ensures { (0 < result) × (result ≤ length bytes.now) }
{
    let told = two(bytes, 21);
    if HEAD <= told && told <= bytes.len() {
        return told;
    }
    bytes.len()
}
