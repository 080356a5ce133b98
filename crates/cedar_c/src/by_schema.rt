// Calls by a schema that was opened.
ghost use Rattle.std.specs.Prelude.{◌≡◌, ◌≢◌, ◌≤◌, ◌<◌, ◌↔◌, false, None};
ghost use Rattle.std.specs.Str.{IsUtf8};
ghost use Rattle.cedar_c.specs.Buffers.{IsHandedOver, IsKept, IsLeft};
ghost use Rattle.cedar_c.specs.Slots.{opened_in, kept_in};

use crate::buffers::hand_over_or_keep;
use crate::handles::held::Held;
use crate::handles::{Schema, put, take};
use cedar_calls::conditions::conditions_call_by;
use cedar_calls::data::check_data_call_by;
use cedar_calls::opened::{Opened, open_call};
use cedar_calls::validation::validate_call_by;
use std::alloc::{AllocError, Global};

/// The status if the call is no text in UTF-8.
pub const NO_TEXT: u32 = 3;
/// The status if the handle is closed.
pub const CLOSED: u32 = 5;

/// What a call by a schema asks for.
#[derive(Clone, Copy)]
pub enum Asked {
    Validation,
    Data,
    Conditions,
}

impl Asked {
    /// The answer. It fails if memory is refused.
    fn answer(self, alloc: Global, opened: &Opened, call: &str) -> Result<String, AllocError> {
        match self {
            Asked::Validation => validate_call_by(alloc, opened, call),
            Asked::Data => check_data_call_by(alloc, opened, call),
            Asked::Conditions => conditions_call_by(alloc, opened, call),
        }
    }
}

/// Reads the schema of a call, for a handle, or gives a `failure`. It fails if memory is refused.
pub fn read_schema(alloc: Global, call: &str) -> Result<Result<Box<Held>, String>, AllocError> {
    match open_call(alloc, call)? {
        Ok(opened) => Ok(Ok(Box::new(alloc, Held { opened, kept: None })?)),
        Err(failure) => Ok(Err(failure)),
    }
}

/// Answers a call by the schema of a handle. The status is 3 exactly if the call is no text in
/// UTF-8 (clause `text`), and else 5 exactly if the handle is closed (clause `closed`); the buffer
/// then stays as it is (clause `left`). Otherwise the call hands over the answer, or memory was
/// refused (clause `handed`). The handle stays open with its schema (clauses `open` and `schema`).
/// It keeps the answer exactly if the buffer is too small (clauses `too_small` and `answered`), and
/// a call without an answer leaves what it keeps (clause `unchanged`).
pub fn answer_by(
    alloc: Global,
    schema: &mut Schema,
    asked: Asked,
    call: &[u8],
    answer: &mut [u8],
    needed: &mut usize,
) -> u32
    ensures text { result ≡ 3 ↔ ¬ (IsUtf8 call.now) }
    ensures closed { IsUtf8 call.now → (result ≡ 5 ↔ schema.old.is_open ≡ false) }
    ensures left { 3 ≤ result → IsLeft answer.old answer.new needed.new }
    ensures handed { result < 3 → IsHandedOver answer.old answer.new needed.new result }
    ensures open { schema.new.is_open ≡ schema.old.is_open }
    ensures schema { result ≢ 5
        → opened_in schema.new.held.value ≡ opened_in schema.old.held.value }
    ensures answered { result ≡ 0 → kept_in schema.new.held.value ≡ None }
    ensures too_small { result ≡ 1 → IsKept (kept_in schema.new.held.value) needed.new }
    ensures unchanged { 2 ≤ result → result ≢ 5
        → schema.new.held.value ≡ schema.old.held.value }
{
    let Ok(call) = std::str::from_utf8(call) else {
        *needed = 0;
        return NO_TEXT;
    };
    let Some(mut held) = take(alloc, schema) else {
        *needed = 0;
        return CLOSED;
    };
    let said = asked.answer(alloc, &held.opened, call);
    let status = hand_over_or_keep(said, &mut held.kept, answer, needed);
    put(schema, held);
    status
}
