// Answers in the buffer of a caller.
ghost use Rattle.std.specs.Prelude.{◌≡◌, ◌≢◌, ◌↔◌, ◌<◌, ◌≤◌, ◌++◌, length, drop, string_bytes, None, IfSome};
ghost use Rattle.cedar_c.specs.Buffers.{IsHandedOver, IsKept, IsLeft};

use std::alloc::AllocError;

/// The status if the answer stands in the buffer.
pub const ANSWERED: u32 = 0;
/// The status if the buffer is too small.
pub const TOO_SMALL: u32 = 1;
/// The status if memory was refused.
pub const NO_MEMORY: u32 = 2;
/// The status if no answer is kept.
pub const NO_ANSWER: u32 = 6;

/// Hands an answer over, if there is one: it stands in the buffer if the buffer is large enough.
/// The result is the status.
pub fn hand_over(said: Result<String, AllocError>, answer: &mut [u8], needed: &mut usize) -> u32
    ensures handed { IsHandedOver answer.old answer.new needed.new result }
    ensures status { result < 3 }
{
    let Ok(said) = said else {
        *needed = 0;
        return NO_MEMORY;
    };
    put(said.as_str(), answer, needed)
}

/// Hands an answer over, as [`hand_over`] does, and keeps an answer for which the buffer is too
/// small (clause `too_small`). An answer in the buffer ends what was kept before (clause
/// `answered`), and refused memory leaves it (clause `refused`).
pub fn hand_over_or_keep(
    said: Result<String, AllocError>,
    kept: &mut Option<String>,
    answer: &mut [u8],
    needed: &mut usize,
) -> u32
    ensures handed { IsHandedOver answer.old answer.new needed.new result }
    ensures status { result < 3 }
    ensures answered { result ≡ 0 → kept.new ≡ None }
    ensures too_small { result ≡ 1 → IsKept kept.new needed.new }
    ensures refused { result ≡ 2 → kept.new ≡ kept.old }
{
    let Ok(said) = said else {
        *needed = 0;
        return NO_MEMORY;
    };
    let status = put(said.as_str(), answer, needed);
    if status == TOO_SMALL {
        *kept = Some(said);
    } else {
        *kept = None;
    }
    status
}

/// Hands over the answer that is kept, which ends once it stands in the buffer (clauses `answered`
/// and `unchanged`). If no answer is kept, the status is 6, and the buffer stays as it is (clauses
/// `none` and `left`).
pub fn hand_over_kept(kept: &mut Option<String>, answer: &mut [u8], needed: &mut usize) -> u32
    ensures none { result ≡ 6 ↔ kept.old ≡ None }
    ensures left { result ≡ 6 → IsLeft answer.old answer.new needed.new }
    ensures handed { result ≢ 6 → IsHandedOver answer.old answer.new needed.new result }
    ensures status { result ≢ 6 → result < 2 }
    ensures size { IfSome kept.old (λ s. needed.new ≡ length (string_bytes s)) }
    ensures text { IfSome kept.old (λ s. result ≡ 0
        → answer.new ≡ string_bytes s ++ drop (length (string_bytes s)) answer.old) }
    ensures answered { result ≡ 0 → kept.new ≡ None }
    ensures unchanged { 1 ≤ result → kept.new ≡ kept.old }
{
    let Some(text) = kept.take() else {
        *needed = 0;
        return NO_ANSWER;
    };
    let status = put(text.as_str(), answer, needed);
    if status == TOO_SMALL {
        *kept = Some(text);
    }
    status
}

/// Puts a text into the buffer, if the buffer is large enough. The result is the status.
fn put(text: &str, answer: &mut [u8], needed: &mut usize) -> u32
    ensures handed { IsHandedOver answer.old answer.new needed.new result }
    ensures status { result < 2 }
    ensures size { needed.new ≡ length text.now }
    ensures text { result ≡ 0 → answer.new ≡ text.now ++ drop (length text.now) answer.old }
{
    let bytes = text.as_bytes();
    let size = bytes.len();
    *needed = size;
    if size > answer.len() {
        return TOO_SMALL;
    }
    answer[..size].copy_from_slice(bytes);
    ANSWERED
}
