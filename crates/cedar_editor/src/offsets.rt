//! Units of UTF-16, by which editors count, in texts of UTF-8.
ghost use Rattle.std.specs.Prelude.{◌≡◌, ℕ, ◌≤◌, length, take};
ghost use Rattle.cedar_editor.specs.Units.{weight, units, IsBoundary};

/// The number of units of UTF-16 of the character that begins with this byte; none for a byte inside a character.
fn weight_of(byte: u8) -> usize
    ensures { result ≡ weight byte }
{
    if byte < 0x80 {
        1
    } else if byte < 0xc0 {
        0
    } else if byte < 0xf0 {
        1
    } else {
        2
    }
}

/// The number of units of UTF-16 of the characters of these bytes.
pub fn units_of(bytes: &[u8]) -> usize
    ensures { result ≡ units bytes.now }
{
    let mut count = 0;
    for byte in bytes {
        count += weight_of(*byte);
    }
    count
}

/// The number of bytes before `count` units of UTF-16: up to the beginning of the character if the units end inside of one, and
/// all bytes if there are fewer units. For the number of units before a boundary, the answer is the boundary (clause `back`).
pub fn bytes_before(bytes: &[u8], count: usize) -> usize
    ensures within { result ≤ length bytes.now }
    ensures back { (n : ℕ) → IsBoundary bytes.now n → units (take n bytes.now) ≡ count
        → result ≡ n }
{
    let mut left = count;
    for (at, byte) in bytes.iter().enumerate() {
        let weight = weight_of(*byte);
        if left < weight {
            return at;
        }
        left -= weight;
    }
    bytes.len()
}
