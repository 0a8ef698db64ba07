// What both files and every engine need: bytes, and numbers of two bytes, high byte first.
#![tactic(auto)]

ghost use Rattle.std.specs.Prelude.{◌≡◌, ◌/◌, ◌%◌, ◌<◌};
ghost use Rattle.base.specs.Bytes.{joined as joined_of, byte_at, number_at, put_at};

// The number of two bytes.
pub fn joined(high: u8, low: u8) -> u16
    ensures { result ≡ joined_of high low }
{
    u16::from_be_bytes([high, low])
}

// The two bytes of a number.
pub fn high(x: u16) -> u8
    ensures { result ≡ x / 256 }
{
    let [high, _] = x.to_be_bytes();
    high
}

pub fn low(x: u16) -> u8
    ensures { result ≡ x % 256 }
{
    let [_, low] = x.to_be_bytes();
    low
}

// The byte at a place, and 0 past the end.
pub fn byte_at(bytes: &[u8], at: usize) -> u8
    ensures { result ≡ byte_at bytes.now at }
{
    bytes.get(at).copied().unwrap_or(0)
}

// The number of two bytes at a place; bytes past the end read as 0.
pub fn number_at(bytes: &[u8], at: usize) -> u16
    ensures { result ≡ number_at bytes.now at }
{
    let next = at.saturating_add(1);
    joined(byte_at(bytes, at), byte_at(bytes, next))
}

// Puts items into a buffer at a place, and nothing where there is no room for all of them.
pub fn put<T: Copy>(buffer: &mut [T], at: usize, items: &[T])
    ensures { buffer.new ≡ put_at at items.now buffer.old }
{
    if buffer.len() < at || buffer.len() - at < items.len() {
        return;
    }
    let end = at + items.len();
    buffer[at..end].copy_from_slice(items);
}
