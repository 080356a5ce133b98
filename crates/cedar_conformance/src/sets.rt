// Sets of types, sets of ids and records: their lookups.
ghost use Rattle.std.specs.Prelude.{◌≡◌, option_map};
ghost use Rattle.cedar_types.specs.Names.{text_of, type_of, uid_of};
ghost use Rattle.cedar_types.specs.Schemas.Declarations.{uids_of};
ghost use Rattle.cedar_types.specs.Schemas.{is_among, uid_is_among};
ghost use Rattle.cedar_types.specs.Types.{types_of};
ghost use Rattle.cedar_types.specs.Values.{entry_at};
ghost use Rattle.cedar_conformance.specs.StoreTests.{is_empty_record};
ghost use Rattle.cedar_conformance.specs.Values.{value_of, record_of};

use crate::values::{Record, Value};
use cedar_types::base::{EntityType, EntityUID};
use std::collections::BTreeSet;
use std::rc::RcStr;

/// Returns whether a set of types has this type.
pub(crate) fn is_among_types(types: &BTreeSet<EntityType>, name: &EntityType) -> bool
    ensures { result ≡ is_among (types_of types.now) (type_of name.now) }
{
    types.contains(name)
}

/// Returns whether a set of ids has this id.
pub(crate) fn has_id(ids: &BTreeSet<EntityUID>, id: &EntityUID) -> bool
    ensures { result ≡ uid_is_among (uids_of ids.now) (uid_of id.now) }
{
    ids.contains(id)
}

/// Returns the value at a key.
pub(crate) fn value_at<'a>(entries: &'a Record, name: &RcStr) -> Option<&'a Value>
    ensures { option_map (λ v. value_of v.now) result
        ≡ entry_at (text_of name.now) (record_of entries.now) }
{
    entries.get(name)
}

/// Returns whether a record has no values.
pub(crate) fn is_empty(entries: &Record) -> bool
    ensures { result ≡ is_empty_record (record_of entries.now) }
{
    entries.is_empty()
}
