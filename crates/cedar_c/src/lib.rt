//! The validator for programs in other languages: the calls that `cedar.h` declares. Each takes the
//! text of a call and a buffer for the answer. Only an open handle keeps something between calls,
//! and nothing is printed.
#![tactic(auto)]

ghost use Rattle.std.specs.Prelude.{◌≡◌, ◌≢◌, ◌≤◌, ◌<◌, ◌↔◌, ◌++◌, length, drop, string_bytes, true, false, None, IfSome};
ghost use Rattle.std.specs.Str.{IsUtf8};
ghost use Rattle.cedar_c.specs.Buffers.{IsHandedOver, IsKept, IsLeft};
ghost use Rattle.cedar_c.specs.Slots.{opened_in, kept_in};

mod buffers;
mod by_schema;
pub mod handles;

use buffers::{hand_over, hand_over_kept};
use by_schema::{Asked, CLOSED, NO_TEXT, answer_by, read_schema};
use cedar_calls::conditions::conditions_call;
use cedar_calls::data::check_data_call;
use cedar_calls::validation::validate_call;
use handles::{Schema, fill, put, take};
use std::alloc::Global;

/// The number of these calls: it grows if the signature or a status of one of them changes its
/// meaning.
const ABI: u32 = 2;

/// The status if a handle is open with a schema that was read.
const OPENED: u32 = 4;

/// The number of the calls that this library has.
#[unsafe(no_mangle)]
pub extern "C" fn cedar_abi() -> u32
    ensures { result ≡ 2 }
{
    ABI
}

/// Validates policies by a schema, as a `ValidationCall` asks, whose answer is a
/// `ValidationAnswer`. The status is 3 exactly if the call is no text in UTF-8 (clause `text`), and
/// then the buffer stays as it is (clause `kept`). Otherwise the call hands over the answer, a text
/// in UTF-8, or memory was refused (clause `handed`): at status 0, the answer stands at the
/// beginning of the buffer, whose rest stays as it is; at status 1, the buffer is too small for the
/// `needed` bytes, and stays as it is; at status 2, memory was refused, `needed` is 0, and the
/// buffer stays as it is.
#[unsafe(no_mangle)]
pub extern "C" fn cedar_validate(
    alloc: Global,
    call: &[u8],
    answer: &mut [u8],
    needed: &mut usize,
) -> u32
    ensures text { result ≡ 3 ↔ ¬ (IsUtf8 call.now) }
    ensures kept { result ≡ 3 → IsLeft answer.old answer.new needed.new }
    ensures handed { result ≢ 3 → IsHandedOver answer.old answer.new needed.new result }
{
    let Ok(call) = std::str::from_utf8(call) else {
        *needed = 0;
        return NO_TEXT;
    };
    let said = validate_call(alloc, call);
    hand_over(said, answer, needed)
}

/// Checks entities and a request by a schema. Statuses and clauses are those of [`cedar_validate`].
#[unsafe(no_mangle)]
pub extern "C" fn cedar_check_data(
    alloc: Global,
    call: &[u8],
    answer: &mut [u8],
    needed: &mut usize,
) -> u32
    ensures text { result ≡ 3 ↔ ¬ (IsUtf8 call.now) }
    ensures kept { result ≡ 3 → IsLeft answer.old answer.new needed.new }
    ensures handed { result ≢ 3 → IsHandedOver answer.old answer.new needed.new result }
{
    let Ok(call) = std::str::from_utf8(call) else {
        *needed = 0;
        return NO_TEXT;
    };
    let said = check_data_call(alloc, call);
    hand_over(said, answer, needed)
}

/// Answers the condition of a policy in each of its environments. Statuses and clauses are those of
/// [`cedar_validate`].
#[unsafe(no_mangle)]
pub extern "C" fn cedar_typed_conditions(
    alloc: Global,
    call: &[u8],
    answer: &mut [u8],
    needed: &mut usize,
) -> u32
    ensures text { result ≡ 3 ↔ ¬ (IsUtf8 call.now) }
    ensures kept { result ≡ 3 → IsLeft answer.old answer.new needed.new }
    ensures handed { result ≢ 3 → IsHandedOver answer.old answer.new needed.new result }
{
    let Ok(call) = std::str::from_utf8(call) else {
        *needed = 0;
        return NO_TEXT;
    };
    let said = conditions_call(alloc, call);
    hand_over(said, answer, needed)
}

/// Reads the schema of a call, an object of `schema` alone, for calls by this handle. At status 4
/// the handle is open with this schema, and what it held before is freed (clause `opened`).
/// Otherwise the handle stays as it is (clause `same`): at status 3, the call is no text in UTF-8
/// (clauses `text` and `left`); at the others, the schema cannot be read, and the answer says why,
/// or memory was refused (clause `handed`).
#[unsafe(no_mangle)]
pub extern "C" fn cedar_schema_open(
    alloc: Global,
    schema: &mut Schema,
    call: &[u8],
    answer: &mut [u8],
    needed: &mut usize,
) -> u32
    ensures text { result ≡ 3 ↔ ¬ (IsUtf8 call.now) }
    ensures opened { result ≡ 4 → schema.new.is_open ≡ true }
    ensures same { result ≢ 4 → schema.new ≡ schema.old }
    ensures left { 3 ≤ result → IsLeft answer.old answer.new needed.new }
    ensures handed { result < 3 → IsHandedOver answer.old answer.new needed.new result }
{
    let Ok(call) = std::str::from_utf8(call) else {
        *needed = 0;
        return NO_TEXT;
    };
    let opened = match read_schema(alloc, call) {
        Ok(Ok(opened)) => opened,
        Ok(Err(failure)) => return hand_over(Ok(failure), answer, needed),
        Err(refused) => return hand_over(Err(refused), answer, needed),
    };
    fill(alloc, schema, opened);
    *needed = 0;
    OPENED
}

/// Validates policies by the schema of a handle, as [`cedar_validate`] does, but that the call has
/// no `schema`. The status is 3 exactly if the call is no text in UTF-8 (clause `text`), and else 5
/// exactly if the handle is closed (clause `closed`); the buffer then stays as it is (clause
/// `left`). Otherwise the call hands over the answer, or memory was refused (clause `handed`). The
/// handle stays open with its schema (clauses `open` and `schema`). It keeps the answer exactly if
/// the buffer is too small (clauses `too_small` and `answered`), and a call without an answer
/// leaves what it keeps (clause `unchanged`).
#[unsafe(no_mangle)]
pub extern "C" fn cedar_schema_validate(
    alloc: Global,
    schema: &mut Schema,
    call: &[u8],
    answer: &mut [u8],
    needed: &mut usize,
) -> u32
    ensures text { result ≡ 3 ↔ ¬ (IsUtf8 call.now) }
    ensures closed { IsUtf8 call.now → (result ≡ 5 ↔ schema.old.is_open ≡ false) }
    ensures left { 3 ≤ result → IsLeft answer.old answer.new needed.new }
    ensures handed { result < 3 → IsHandedOver answer.old answer.new needed.new result }
    ensures open { schema.new.is_open ≡ schema.old.is_open }
    ensures schema { result ≢ 5
        → opened_in schema.new.held.value ≡ opened_in schema.old.held.value }
    ensures answered { result ≡ 0 → kept_in schema.new.held.value ≡ None }
    ensures too_small { result ≡ 1 → IsKept (kept_in schema.new.held.value) needed.new }
    ensures unchanged { 2 ≤ result → result ≢ 5
        → schema.new.held.value ≡ schema.old.held.value }
{
    answer_by(alloc, schema, Asked::Validation, call, answer, needed)
}

/// Checks entities and a request by the schema of a handle, as [`cedar_check_data`] does. Statuses
/// and clauses are those of [`cedar_schema_validate`].
#[unsafe(no_mangle)]
pub extern "C" fn cedar_schema_check_data(
    alloc: Global,
    schema: &mut Schema,
    call: &[u8],
    answer: &mut [u8],
    needed: &mut usize,
) -> u32
    ensures text { result ≡ 3 ↔ ¬ (IsUtf8 call.now) }
    ensures closed { IsUtf8 call.now → (result ≡ 5 ↔ schema.old.is_open ≡ false) }
    ensures left { 3 ≤ result → IsLeft answer.old answer.new needed.new }
    ensures handed { result < 3 → IsHandedOver answer.old answer.new needed.new result }
    ensures open { schema.new.is_open ≡ schema.old.is_open }
    ensures schema { result ≢ 5
        → opened_in schema.new.held.value ≡ opened_in schema.old.held.value }
    ensures answered { result ≡ 0 → kept_in schema.new.held.value ≡ None }
    ensures too_small { result ≡ 1 → IsKept (kept_in schema.new.held.value) needed.new }
    ensures unchanged { 2 ≤ result → result ≢ 5
        → schema.new.held.value ≡ schema.old.held.value }
{
    answer_by(alloc, schema, Asked::Data, call, answer, needed)
}

/// Answers the condition of a policy in each of its environments by the schema of a handle, as
/// [`cedar_typed_conditions`] does. Statuses and clauses are those of [`cedar_schema_validate`].
#[unsafe(no_mangle)]
pub extern "C" fn cedar_schema_typed_conditions(
    alloc: Global,
    schema: &mut Schema,
    call: &[u8],
    answer: &mut [u8],
    needed: &mut usize,
) -> u32
    ensures text { result ≡ 3 ↔ ¬ (IsUtf8 call.now) }
    ensures closed { IsUtf8 call.now → (result ≡ 5 ↔ schema.old.is_open ≡ false) }
    ensures left { 3 ≤ result → IsLeft answer.old answer.new needed.new }
    ensures handed { result < 3 → IsHandedOver answer.old answer.new needed.new result }
    ensures open { schema.new.is_open ≡ schema.old.is_open }
    ensures schema { result ≢ 5
        → opened_in schema.new.held.value ≡ opened_in schema.old.held.value }
    ensures answered { result ≡ 0 → kept_in schema.new.held.value ≡ None }
    ensures too_small { result ≡ 1 → IsKept (kept_in schema.new.held.value) needed.new }
    ensures unchanged { 2 ≤ result → result ≢ 5
        → schema.new.held.value ≡ schema.old.held.value }
{
    answer_by(alloc, schema, Asked::Conditions, call, answer, needed)
}

/// Hands over the answer that a handle keeps. The status is 5 exactly if the handle is closed
/// (clause `closed`), and 6 if it keeps no answer; the buffer then stays as it is (clause `left`).
/// Otherwise the call hands over this answer (clauses `handed`, `size` and `text`). The handle
/// keeps it until it stands in a buffer (clauses `answered` and `unchanged`), and stays open with
/// its schema (clauses `open` and `schema`).
#[unsafe(no_mangle)]
pub extern "C" fn cedar_schema_answer(
    alloc: Global,
    schema: &mut Schema,
    answer: &mut [u8],
    needed: &mut usize,
) -> u32
    ensures closed { result ≡ 5 ↔ schema.old.is_open ≡ false }
    ensures left { 3 ≤ result → IsLeft answer.old answer.new needed.new }
    ensures handed { result < 3 → IsHandedOver answer.old answer.new needed.new result }
    ensures size { result < 3 → IsKept (kept_in schema.old.held.value) needed.new }
    ensures text { result ≡ 0 → IfSome (kept_in schema.old.held.value) (λ s.
        answer.new ≡ string_bytes s ++ drop (length (string_bytes s)) answer.old) }
    ensures answered { result ≡ 0 → kept_in schema.new.held.value ≡ None }
    ensures unchanged { 1 ≤ result → result ≢ 5
        → schema.new.held.value ≡ schema.old.held.value }
    ensures open { schema.new.is_open ≡ schema.old.is_open }
    ensures schema { result ≢ 5
        → opened_in schema.new.held.value ≡ opened_in schema.old.held.value }
{
    let Some(mut held) = take(alloc, schema) else {
        *needed = 0;
        return CLOSED;
    };
    let status = hand_over_kept(&mut held.kept, answer, needed);
    put(schema, held);
    status
}

/// Closes a handle, and frees what it holds. A closed handle stays closed.
#[unsafe(no_mangle)]
pub extern "C" fn cedar_schema_close(alloc: Global, schema: &mut Schema)
    ensures { schema.new.is_open ≡ false }
{
    drop(take(alloc, schema));
}
