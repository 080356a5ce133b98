// The cost of a chain of attributes, as extended `has` tests it.
ghost use Rattle.std.specs.Prelude.{◌≡◌, ◌∷◌, IfOk, map, option_map, take};
ghost use Rattle.cedar_types.specs.Names.{text_of};
ghost use Rattle.cedar_types.specs.Schemas.Contents.{schema_of};
ghost use Rattle.cedar_types.specs.Types.{ty_of};
ghost use Rattle.cedar_typechecker.specs.Levels.Costs.{root_cost, entity_cost, chain_cost, attributes_cost, keys_to_entity};
ghost use Rattle.cedar_typechecker.specs.Levels.Demands.{entity_after};
ghost use Rattle.cedar_typechecker.specs.Levels.Views.{base_seen};

use crate::level_validate::bases::{Base, base_of_type};
use cedar_types::base::{CedarType, ValidatorSchema};
use std::alloc::{AllocError, Global};
use std::rc::RcStr;

/// The number of entities that are dereferenced by the test that a value of this type has a chain of attributes. It is 0 for
/// no attributes. Otherwise a root that is an entity, of some types or of any, counts one, and so does each attribute but
/// the last that is an entity of some types. For example, `has owner.team.name` from a photo, with entities `owner` and
/// `team`, costs 3. The chain ends before the first attribute that is not declared. Where memory is refused, the answer is
/// an `AllocError`.
pub fn attr_chain_cost_from_root(
    alloc: Global,
    schema: &ValidatorSchema,
    root: &CedarType,
    attrs: &[RcStr],
) -> Result<u64, AllocError>
    ensures { IfOk result (λ n. n
        ≡ attributes_cost (schema_of schema.now) (ty_of root.now) (map text_of attrs.now)) }
{
    match attrs.split_first() {
        Some((first, rest)) => chain_cost(alloc, schema, root, first, rest),
        None => Ok(0),
    }
}

/// The cost of a chain with a first attribute.
pub(crate) fn chain_cost(
    alloc: Global,
    schema: &ValidatorSchema,
    root: &CedarType,
    first: &RcStr,
    rest: &[RcStr],
) -> Result<u64, AllocError>
    ensures { IfOk result (λ n. n
        ≡ chain_cost (schema_of schema.now) (ty_of root.now) (text_of first.now)
        (map text_of rest.now)) }
{
    let mut cost = root_cost(root);
    let mut reached = root.clone()?;
    let mut attr = first;
    // the last attribute is only tested to be there, so its own entry does not count
    for next in rest {
        let found = CedarType::lookup_attribute_type(alloc, schema, &reached, attr)?;
        let Some(found) = found else {
            return Ok(cost);
        };
        reached = found.attr_type;
        cost += entity_cost(base_of_type(&reached));
        attr = next;
    }
    Ok(cost)
}

fn root_cost(ty: &CedarType) -> u64
    ensures { result ≡ root_cost (ty_of ty.now) }
{
    match ty {
        // the attributes of an entity, of any type too, are in its entry
        CedarType::Entity(_) => 1,
        CedarType::Record {
            attributes: _attributes,
            is_open: _open,
        } => 0,
        CedarType::Never => 0,
        CedarType::Bool(_) => 0,
        CedarType::Long => 0,
        CedarType::String => 0,
        CedarType::Set(_) => 0,
        CedarType::AnySet => 0,
        CedarType::Extension(_) => 0,
    }
}

fn entity_cost(base: Base) -> u64
    ensures { result ≡ entity_cost (base_seen base) }
{
    match base {
        Base::Entity => 1,
        Base::Record => 0,
        Base::Other => 0,
    }
}

/// The attributes after the first that lead to the first entity; `None` if none before the last attribute of the chain is an
/// entity.
pub(crate) fn keys_to_entity<'c>(
    alloc: Global,
    schema: &ValidatorSchema,
    root: &CedarType,
    first: &RcStr,
    rest: &'c [RcStr],
) -> Result<Option<&'c [RcStr]>, AllocError>
    ensures { IfOk result (λ found.
        option_map (λ ks. text_of first.now ∷ map text_of ks.now) found
        ≡ keys_to_entity (schema_of schema.now) (ty_of root.now) (text_of first.now)
        (map text_of rest.now)) }
{
    match first_entity(alloc, schema, root, first, rest)? {
        Some(count) => Ok(Some(first_keys(rest, count))),
        None => Ok(None),
    }
}

/// The first `count` of these keys, or all if there are fewer.
#[tactic(auto, using(crate::proofs::Levels::Keys::keys_taken, crate::proofs::Levels::Keys::all_taken))]
fn first_keys(keys: &[RcStr], count: usize) -> &[RcStr]
    ensures { map text_of result.now ≡ take count (map text_of keys.now) }
{
    if count < keys.len() {
        &keys[..count]
    } else {
        keys
    }
}

/// The number of attributes after the first that lead to the first entity; `None` if there is none before the last
/// attribute.
fn first_entity(
    alloc: Global,
    schema: &ValidatorSchema,
    root: &CedarType,
    first: &RcStr,
    rest: &[RcStr],
) -> Result<Option<usize>, AllocError>
    ensures { IfOk result (λ found. found
        ≡ entity_after (schema_of schema.now) 0 (ty_of root.now) (text_of first.now)
        (map text_of rest.now)) }
{
    let mut reached = root.clone()?;
    let mut attr = first;
    for (count, next) in rest.iter().enumerate() {
        let found = CedarType::lookup_attribute_type(alloc, schema, &reached, attr)?;
        let Some(found) = found else {
            return Ok(None);
        };
        reached = found.attr_type;
        match base_of_type(&reached) {
            Base::Entity => return Ok(Some(count)),
            Base::Record => {}
            Base::Other => {}
        }
        attr = next;
    }
    Ok(None)
}
