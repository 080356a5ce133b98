// Handles of schemas that were opened.
ghost use Rattle.std.specs.Prelude.{◌≡◌, ◌≢◌, true, false};
ghost use Rattle.std.specs.Option.{MatchOption};
ghost use Rattle.std.specs.declared.option.Option.TheVariants.{None, Some};

pub mod held;
mod parts;
mod slot;

use held::Held;
use parts::Parts;
use slot::Slot;
use std::alloc::Global;
use std::mem::replace;

/// A handle: the `cedar_schema` of `cedar.h`. C makes a closed one of zeros. A drop of an open
/// handle frees nothing, so a function takes out what it holds.
#[repr(C)]
#[derive(Drop)]
pub struct Schema {
    pub held: Slot,
    pub is_open: bool,
    ghost tied: { is_open ≡ true → held.value ≢ None },
}

impl Schema {
    /// A closed handle.
    pub fn closed(alloc: Global) -> Schema
        ensures { result.is_open ≡ false }
    {
        Schema {
            held: Slot::empty(alloc),
            is_open: false,
        }
    }
}

/// Takes out what a handle holds, which is then closed. A closed handle holds nothing.
pub fn take(alloc: Global, schema: &mut Schema) -> Option<Box<Held>>
    ensures closed { schema.new.is_open ≡ false }
    ensures taken { MatchOption result (schema.old.is_open ≡ false)
        (λ b. (schema.old.is_open ≡ true) × (schema.old.held.value ≡ Some b.value)) }
{
    let Schema { held, is_open } = replace(schema, Schema::closed(alloc));
    if !is_open {
        return None;
    }
    Some(held.into_parts().into_box())
}

/// Opens a closed handle with what it shall hold.
pub fn put(schema: &mut Schema, held: Box<Held>)
    requires { schema.old.is_open ≡ false }
    ensures open { schema.new.is_open ≡ true }
    ensures held { schema.new.held.value ≡ Some held.value }
{
    *schema = Schema {
        held: Slot::of_parts(Parts::of(held)),
        is_open: true,
    };
}

/// Opens a handle with what it shall hold, and frees what it held.
pub fn fill(alloc: Global, schema: &mut Schema, held: Box<Held>)
    ensures open { schema.new.is_open ≡ true }
    ensures held { schema.new.held.value ≡ Some held.value }
{
    drop(take(alloc, schema));
    put(schema, held);
}
