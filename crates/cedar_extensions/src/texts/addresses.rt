// The texts of addresses and of ranges of them.
ghost use Rattle.std.specs.Prelude.{◌≡◌, ◌≤◌};
ghost use Rattle.cedar_extensions.specs.Texts.Readers.{left_in};
ghost use Rattle.cedar_extensions.specs.Texts.Addresses as Address;

use super::readers::{is_all, read_byte, read_number};

fn has_leading_zero(s: &[u8]) -> bool
    ensures { result ≡ Address.has_leading_zero s.now }
{
    match s {
        [first, second, ..] => *first == b'0' && second.is_ascii_digit(),
        _ => false,
    }
}

/// The rest behind a number up to this one, without a leading zero.
#[tactic(auto, unfolding(crate::specs::Texts::Addresses::read_count))]
fn read_count(greatest: u64, s: &[u8]) -> Option<&[u8]>
    ensures { left_in result ≡ Address.read_count greatest s.now }
{
    if has_leading_zero(s) {
        return None;
    }
    let (number, rest) = read_number(s)?;
    if number <= greatest { Some(rest) } else { None }
}

/// The rest behind four numbers of 8 bits with dots between them.
#[tactic(auto, unfolding(crate::specs::Texts::Addresses::read_ipv4))]
fn read_ipv4(s: &[u8]) -> Option<&[u8]>
    ensures { left_in result ≡ Address.read_ipv4 s.now }
{
    let s = read_byte(read_count(255, s)?, b'.')?;
    let s = read_byte(read_count(255, s)?, b'.')?;
    let s = read_byte(read_count(255, s)?, b'.')?;
    read_count(255, s)
}

/// The rest behind one hex digit, or the whole text if it does not begin with one.
fn skip_hex(s: &[u8]) -> &[u8]
    ensures { result.now ≡ Address.skip_hex s.now }
{
    match s {
        [first, rest @ ..] if first.is_ascii_hexdigit() => rest,
        _ => s,
    }
}

/// The rest behind one to four hex digits.
fn read_group(s: &[u8]) -> Option<&[u8]>
    ensures { left_in result ≡ Address.read_group s.now }
{
    match s {
        [first, rest @ ..] if first.is_ascii_hexdigit() => Some(skip_hex(skip_hex(skip_hex(rest)))),
        _ => None,
    }
}

/// The rest behind a group, which has a colon before it unless it is the first.
fn read_next_group(is_first: bool, s: &[u8]) -> Option<&[u8]>
    ensures { left_in result ≡ Address.read_next_group is_first s.now }
{
    if is_first {
        read_group(s)
    } else {
        read_group(read_byte(s, b':')?)
    }
}

/// The number of groups at the front, up to so many, and the rest behind them.
#[tactic(auto, unfolding(crate::specs::Texts::Addresses::read_groups))]
fn read_groups(room: u32, is_first: bool, s: &[u8]) -> (u32, &[u8])
    ensures value { (result.0, result.1.now) ≡ Address.read_groups room is_first s.now }
    ensures bound { result.0 ≤ room }
{
    if room == 0 {
        return (0, s);
    }
    let Some(rest) = read_next_group(is_first, s) else {
        return (0, s);
    };
    let (more, rest) = read_groups(room - 1, false, rest);
    (more + 1, rest)
}

/// The rest behind two colons, which stand for at least one group, and the groups behind them.
#[tactic(auto, unfolding(crate::specs::Texts::Addresses::read_tail))]
fn read_tail(head: u32, s: &[u8]) -> Option<&[u8]>
    ensures { left_in result ≡ Address.read_tail head s.now }
{
    let s = read_byte(read_byte(s, b':')?, b':')?;
    let (_count, rest) = read_groups(7u32.saturating_sub(head), true, s);
    Some(rest)
}

/// The rest behind eight groups, or behind fewer with two colons among them.
#[tactic(auto, unfolding(crate::specs::Texts::Addresses::read_ipv6))]
fn read_ipv6(s: &[u8]) -> Option<&[u8]>
    ensures { left_in result ≡ Address.read_ipv6 s.now }
{
    let (head, rest) = read_groups(8, true, s);
    if head == 8 {
        Some(rest)
    } else {
        read_tail(head, rest)
    }
}

/// Whether the text ends, or has `/` and the number of bits of an address that a range keeps.
fn is_range_end(greatest: u64, s: &[u8]) -> bool
    ensures { result ≡ Address.is_range_end greatest s.now }
{
    match s {
        [] => true,
        [first, bits @ ..] => *first == b'/' && is_all(read_count(greatest, bits)),
    }
}

fn ends_range(greatest: u64, left: Option<&[u8]>) -> bool
    ensures { result ≡ Address.ends_range greatest (left_in left.entry) }
{
    match left {
        Some(rest) => is_range_end(greatest, rest),
        None => false,
    }
}

/// Whether the text is an address, or one with `/` and the number of its bits that a range keeps.
pub fn is_address_or_range(s: &[u8]) -> bool
    ensures { result ≡ Address.is_address_or_range s.now }
{
    ends_range(32, read_ipv4(s)) || ends_range(128, read_ipv6(s))
}
