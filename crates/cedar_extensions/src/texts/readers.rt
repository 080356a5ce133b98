// Readers of the front of a text: each answers the part that it read and the rest.
ghost use Rattle.std.specs.Prelude.{◌≡◌, ◌<◌, IfSome};
ghost use Rattle.cedar_extensions.specs.Texts.Readers.{read_in, left_in, begins_with_digit};
ghost use Rattle.cedar_extensions.specs.Texts.Readers as Reader;

/// The rest behind this byte.
pub(crate) fn read_byte(s: &[u8], byte: u8) -> Option<&[u8]>
    ensures { left_in result ≡ Reader.read_byte byte s.now }
{
    match s {
        [first, rest @ ..] if *first == byte => Some(rest),
        _ => None,
    }
}

/// Whether a part was read, and nothing follows it.
pub(crate) fn is_all(left: Option<&[u8]>) -> bool
    ensures { result ≡ Reader.is_all (left_in left.entry) }
{
    match left {
        Some(rest) => rest.is_empty(),
        None => false,
    }
}

/// The value of a digit.
fn digit(byte: u8) -> u64
    ensures value { result ≡ Reader.digit byte }
    ensures bound { result < 208 }
{
    u64::from(byte.saturating_sub(b'0'))
}

fn begins_with_digit(s: &[u8]) -> bool
    ensures { result ≡ begins_with_digit s.now }
{
    match s {
        [first, ..] => first.is_ascii_digit(),
        [] => false,
    }
}

/// A number of one digit or more, and the rest. The greatest number of 64 bits stands for all that
/// are greater.
#[tactic(auto, unfolding(crate::specs::Texts::Readers::read_number))]
pub(crate) fn read_number(s: &[u8]) -> Option<(u64, &[u8])>
    ensures { read_in result ≡ Reader.read_number s.now }
{
    if !begins_with_digit(s) {
        return None;
    }
    let mut value = 0u64;
    let mut rest = s;
    while let [first, behind @ ..] = rest {
        if !first.is_ascii_digit() {
            break;
        }
        value = value.saturating_mul(10).saturating_add(digit(*first));
        rest = behind;
    }
    Some((value, rest))
}

/// A number of two digits, and the rest.
pub(crate) fn read_two_digits(s: &[u8]) -> Option<(u64, &[u8])>
    ensures value { read_in result ≡ Reader.read_two_digits s.now }
    ensures bound { IfSome result (λ r. r.0 < 2300) }
{
    match s {
        [first, second, rest @ ..] if first.is_ascii_digit() && second.is_ascii_digit() => {
            Some((10 * digit(*first) + digit(*second), rest))
        }
        _ => None,
    }
}

/// Whether a text begins with a minus, and the rest behind it, or the whole text without one.
pub(crate) fn without_minus(s: &[u8]) -> (bool, &[u8])
    ensures { (result.0, result.1.now) ≡ Reader.without_minus s.now }
{
    match s {
        [first, rest @ ..] if *first == b'-' => (true, rest),
        _ => (false, s),
    }
}
