// Numbers in decimal digits, at a tenth of the cost of a format.
use itoa::Buffer;
use std::alloc::AllocError;

/// Adds a number.
pub(crate) fn push_number(out: &mut String, number: u64) -> Result<(), AllocError> {
    let mut digits = Buffer::new();
    out.push_str(digits.format(number))
}
