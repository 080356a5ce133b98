//! Laws of types, each the contract of a function: bounds and subtypes, equality and order, form.
ghost use Rattle.std.specs.Prelude.{◌≡◌, IsTrue, ◌↔◌, true};
ghost use Rattle.std.specs.declared.cmp.Ordering.TheVariants.{Equal};
ghost use Rattle.cedar_types.specs.Types.{ty_of, lub_of, attributes_of, attr_names, is_well_formed, are_well_formed};
ghost use Rattle.cedar_types.specs.Names.Ascending.{has_members, texts_ascending, paths_ascending};
ghost use Rattle.cedar_types.specs.Types.Order.{ty_cmp};
ghost use Rattle.cedar_types.specs.Types.BoundLaws.{BoundIsIdempotent, BoundIsSymmetric, BoundIsUpper, BoundKeepsForm, SubtypingIsReflexive, SubtypingIsTransitive, SubtypeIsByBound};
ghost use Rattle.cedar_types.specs.Types.Lookups.{AttributesAreLookedUp};
ghost use Rattle.cedar_types.specs.declared.base.types.entity_sets.EntityLUB.{EntityLUB};

use crate::base::types::{Attributes, CedarType};
use std::cmp::Ordering;

/// The bound of a type with itself is the type, in each mode.
pub fn bound_is_idempotent()
    ensures { BoundIsIdempotent }
{}

/// The bound of two types does not depend on their order, in each mode.
pub fn bound_is_symmetric()
    ensures { BoundIsSymmetric }
{}

/// Two types are subtypes of their bound, in each mode.
pub fn bound_is_an_upper_bound()
    ensures { BoundIsUpper }
{}

/// The bound of well-formed types is well-formed, in each mode.
pub fn bound_keeps_form()
    ensures { BoundKeepsForm }
{}

/// A type is a subtype of itself, in each mode.
pub fn subtyping_is_reflexive()
    ensures { SubtypingIsReflexive }
{}

/// A subtype of a subtype is a subtype, in each mode.
pub fn subtyping_is_transitive()
    ensures { SubtypingIsTransitive }
{}

/// A type is a subtype of another exactly if their bound is the other, in each mode.
pub fn subtype_is_by_bound()
    ensures { SubtypeIsByBound }
{}

/// Whether two types are equal: exactly if they are one plain type.
pub fn equal_types(ty0: &CedarType, ty1: &CedarType) -> bool
    ensures { IsTrue result ↔ (ty_of ty0.now ≡ ty_of ty1.now) }
{
    *ty0 == *ty1
}

/// The order of two types: by their kind and then by their parts. The answer is `Equal` exactly if
/// they are one plain type.
pub fn compare_types(ty0: &CedarType, ty1: &CedarType) -> Ordering
    ensures order { result ≡ ty_cmp (ty_of ty0.now) (ty_of ty1.now) }
    ensures equality { (result ≡ Equal) ↔ (ty_of ty0.now ≡ ty_of ty1.now) }
{
    ty0.cmp(ty1)
}

/// Every type is well-formed: the function walks a type to prove it, and does nothing else.
#[cycle(form)]
#[tactic(auto, unfolding(crate::specs::Types::lub_of))]
pub fn types_are_well_formed(ty: &CedarType)
    ensures { is_well_formed (ty_of ty.now) ≡ true }
{
    match ty {
        CedarType::Set(element) => types_are_well_formed(element),
        CedarType::Record { attributes, .. } => attributes_are_well_formed(attributes),
        CedarType::Entity(_)
        | CedarType::Never
        | CedarType::Bool(_)
        | CedarType::Long
        | CedarType::String
        | CedarType::AnySet
        | CedarType::Extension(_) => (),
    }
}

/// The attributes of every record ascend, and their types are well-formed.
#[cycle(form)]
pub fn attributes_are_well_formed(attributes: &Attributes)
    ensures ascend { texts_ascending (attr_names (attributes_of attributes.now)) ≡ true }
    ensures types { are_well_formed (attributes_of attributes.now) ≡ true }
{
    for (_, attribute) in attributes.attrs.iter() {
        types_are_well_formed(&attribute.attr_type);
    }
}

/// Every set of entity types has a member, and its types ascend.
pub fn entity_sets_are_well_formed()
    ensures members { (s : EntityLUB) → has_members (lub_of s) ≡ true }
    ensures ascend { (s : EntityLUB) → paths_ascending (lub_of s) ≡ true }
{}

/// The listed attributes of a type hold, for each name, the attribute that a lookup of this name
/// finds, by a schema whose types are well-formed, as the types of every schema of the program are.
pub fn listed_attributes()
    ensures { AttributesAreLookedUp }
{}
