// Bounds of lists of types, subtypes, and disjointness of types.
ghost use Rattle.std.specs.Prelude.{◌≡◌, IfOk, IfSome, option_map, map};
ghost use Rattle.cedar_types.specs.Types.{ty_of, lub_of, TEntity};
ghost use Rattle.cedar_types.specs.Types.Bounds.{lub, fold_lub, list_lub, is_subtype, are_disjoint};

use crate::base::types::entity_sets::EntityLUB;
use crate::base::types::flat_bounds::{is_same, is_strict};
use crate::base::types::{CedarType, EntityKind, ValidationMode};
use std::alloc::{AllocError, Global};
use std::rc::Rc;

impl CedarType {
    /// The bound of some types, folded from the first in the order given: Never if there are none.
    pub fn reduce_to_least_upper_bound(
        alloc: Global,
        tys: &[&CedarType],
        mode: ValidationMode,
    ) -> Result<Option<CedarType>, AllocError>
        ensures { IfOk result (λ o.
            option_map ty_of o ≡ list_lub mode (map (λ t. ty_of t.now) tys.now)) }
    {
        match tys {
            [] => Ok(Some(CedarType::Never)),
            [first, rest @ ..] => fold_bound(alloc, first, rest, mode),
        }
    }

    /// Whether the first type is a subtype of the second in a mode: whether their bound is the
    /// second.
    pub fn is_subtype(
        alloc: Global,
        ty0: &CedarType,
        ty1: &CedarType,
        mode: ValidationMode,
    ) -> Result<bool, AllocError>
        ensures { IfOk result (λ r. r ≡ is_subtype mode (ty_of ty0.now) (ty_of ty1.now)) }
    {
        match CedarType::least_upper_bound(alloc, ty0, ty1, mode)? {
            Some(bound) => Ok(is_same(&bound, ty1)),
            None => Ok(false),
        }
    }

    /// Whether no value can have both types, as far as entity types tell.
    pub fn are_types_disjoint(ty0: &CedarType, ty1: &CedarType) -> bool
        ensures { result ≡ are_disjoint (ty_of ty0.now) (ty_of ty1.now) }
    {
        match ty0 {
            CedarType::Entity(EntityKind::Entity(xs)) => match ty1 {
                CedarType::Entity(EntityKind::Entity(ys)) => xs.is_disjoint(ys),
                CedarType::Entity(EntityKind::AnyEntity) => false,
                CedarType::Never | CedarType::Bool(_) => false,
                CedarType::Long | CedarType::String | CedarType::Extension(_) => false,
                CedarType::Set(_) | CedarType::AnySet | CedarType::Record { .. } => false,
            },
            CedarType::Entity(EntityKind::AnyEntity) => false,
            CedarType::Never | CedarType::Bool(_) => false,
            CedarType::Long | CedarType::String | CedarType::Extension(_) => false,
            CedarType::Set(_) | CedarType::AnySet | CedarType::Record { .. } => false,
        }
    }
}

/// The bound of a type with others, one after another.
fn fold_bound(
    alloc: Global,
    first: &CedarType,
    rest: &[&CedarType],
    mode: ValidationMode,
) -> Result<Option<CedarType>, AllocError>
    ensures { IfOk result (λ o.
        option_map ty_of o ≡ fold_lub mode (ty_of first.now) (map (λ t. ty_of t.now) rest.now)) }
{
    let mut bound = first.clone()?;
    for ty in rest {
        let Some(next) = bound_with(alloc, ty, bound, mode)? else {
            return Ok(None);
        };
        bound = next;
    }
    Ok(Some(bound))
}

/// The bound of two types, which consumes the owned one: a set of entity types with no other holder
/// takes the other set in, and so does the set of entity types of a set's members. The other type
/// comes first, because the recursion goes down it.
fn bound_with(
    alloc: Global,
    ty: &CedarType,
    bound: CedarType,
    mode: ValidationMode,
) -> Result<Option<CedarType>, AllocError>
    ensures { IfOk result (λ o. option_map ty_of o ≡ lub mode (ty_of bound) (ty_of ty.now)) }
{
    match ty {
        CedarType::Set(other) => match bound.into_element() {
            Ok(element) => {
                let mine = Rc::unwrap_or_clone(element)?;
                match bound_with(alloc, other, mine, mode)? {
                    Some(both) => Ok(Some(CedarType::set(alloc, both)?)),
                    None => Ok(None),
                }
            }
            Err(bound) => bound.flat_bound_with(alloc, ty, mode),
        },
        _ => bound.flat_bound_with(alloc, ty, mode),
    }
}

impl CedarType {
    /// The answer of `bound_with` for types that are not two sets.
    fn flat_bound_with(
        self,
        alloc: Global,
        ty: &CedarType,
        mode: ValidationMode,
    ) -> Result<Option<CedarType>, AllocError>
        ensures { IfOk result (λ o. option_map ty_of o ≡ lub mode (ty_of self) (ty_of ty.now)) }
    {
        if is_strict(mode) {
            let next = CedarType::least_upper_bound(alloc, &self, ty, mode)?;
            return Ok(next);
        }
        let Some(others) = entity_types(ty) else {
            let next = CedarType::least_upper_bound(alloc, &self, ty, mode)?;
            return Ok(next);
        };
        match self.into_entity_types() {
            Ok(types) => {
                let all = types.into_union(alloc, others)?;
                Ok(Some(CedarType::of_entity_types(all)))
            }
            Err(bound) => { CedarType::least_upper_bound(alloc, &bound, ty, mode) }
        }
    }
}

/// The entity types whose entities have this type, if it names some.
fn entity_types(ty: &CedarType) -> Option<&EntityLUB>
    ensures { IfSome result (λ s. ty_of ty.now ≡ TEntity (lub_of s.now)) }
{
    match ty {
        CedarType::Entity(EntityKind::Entity(types)) => Some(types),
        _ => None,
    }
}
