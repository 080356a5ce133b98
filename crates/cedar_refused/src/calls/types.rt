// Types: their makers, and questions about them.
use crate::calls::lines::{Probe, Trial};
use crate::outcomes::{Outcome, finish};
use crate::refusals::refuse;
use crate::samples::texts::{entity_type, only, two_types};
use cedar_types::base::{
    AttributeType, Attributes, CedarType, EntityLUB, Name, ValidationMode, types_in_order,
};
use std::alloc::{AllocError, Global};
use std::collections::BTreeMap;
use std::rc::RcStr;

/// The kinds of values that are made.
#[derive(Clone, Copy)]
pub enum TypeMaker {
    Set,
    AnyRecord,
    Entity,
    Extension,
    AttributesOfMap,
    AttributesOfList,
    SingleEntity,
    EntitiesOfSet,
    InOrder,
}

impl Probe for TypeMaker {
    fn run(self, alloc: Global, trial: Trial<'_>) -> Result<Outcome, AllocError> {
        let name = Name::unqualified_name(alloc, "ipaddr")?;
        let (user, users) = (entity_type(alloc, "User")?, only(alloc, "User")?);
        let mut map = BTreeMap::new(alloc);
        let number_attribute = AttributeType::required_attribute(CedarType::Long);
        drop(map.insert(RcStr::from_str(alloc, "a")?, number_attribute)?);
        let listed = AttributeType::optional_attribute(CedarType::String);
        let list = vec![in alloc; ("a", listed)]?;
        let types = vec![in alloc; CedarType::String, CedarType::Long]?;
        refuse(alloc, trial.number);
        match self {
            TypeMaker::Set => finish(alloc, CedarType::set(alloc, CedarType::Long), &()),
            TypeMaker::AnyRecord => finish(alloc, CedarType::any_record(alloc), &()),
            TypeMaker::Entity => {
                finish(alloc, CedarType::named_entity_reference(alloc, user), &())
            }
            TypeMaker::Extension => finish(alloc, CedarType::extension(alloc, name), &()),
            TypeMaker::AttributesOfMap => {
                finish(alloc, Attributes::with_attributes(alloc, map), &())
            }
            TypeMaker::AttributesOfList => finish(alloc, Attributes::from_list(alloc, list), &()),
            TypeMaker::SingleEntity => finish(alloc, EntityLUB::single_entity(alloc, user), &()),
            TypeMaker::EntitiesOfSet => finish(alloc, EntityLUB::from_types(alloc, users), &()),
            TypeMaker::InOrder => finish(alloc, types_in_order(alloc, types), &()),
        }
    }
}

/// Questions about two types.
#[derive(Clone, Copy)]
pub enum OfTypes {
    Bound(ValidationMode),
    BoundOfAll(ValidationMode),
    Subtype(ValidationMode),
}

impl Probe for OfTypes {
    fn run(self, alloc: Global, trial: Trial<'_>) -> Result<Outcome, AllocError> {
        let types = two_types(alloc, trial.text)?;
        let (left, right) = (&types.0, &types.1);
        refuse(alloc, trial.number);
        match self {
            OfTypes::Bound(mode) => {
                let bound = CedarType::least_upper_bound(alloc, left, right, mode);
                finish(alloc, bound, &types)
            }
            OfTypes::BoundOfAll(mode) => {
                let bound = CedarType::reduce_to_least_upper_bound(alloc, &[left, right], mode);
                finish(alloc, bound, &types)
            }
            OfTypes::Subtype(mode) => {
                finish(
                    alloc,
                    CedarType::is_subtype(alloc, left, right, mode),
                    &types,
                )
            }
        }
    }
}

/// Makers of types and of their parts.
pub const TYPES: [(TypeMaker, &str); 9] = [
    (TypeMaker::Set, "CedarType::set | Set"),
    (TypeMaker::AnyRecord, "CedarType::any_record | Record"),
    (
        TypeMaker::Entity,
        "CedarType::named_entity_reference | User",
    ),
    (TypeMaker::Extension, "CedarType::extension | ipaddr"),
    (
        TypeMaker::AttributesOfMap,
        "Attributes::with_attributes | Long",
    ),
    (
        TypeMaker::AttributesOfList,
        "Attributes::from_list | String",
    ),
    (TypeMaker::SingleEntity, "EntityLUB::single_entity | User"),
    (TypeMaker::EntitiesOfSet, "EntityLUB::from_types | User"),
    (TypeMaker::InOrder, "types_in_order | Long"),
];

pub const STRICT: ValidationMode = ValidationMode::Strict;

pub const PERMISSIVE: ValidationMode = ValidationMode::Permissive;

pub const PARTIAL: ValidationMode = ValidationMode::Partial;

/// Questions about two types.
pub const BOUNDS: [(OfTypes, &str); 6] = [
    (
        OfTypes::Bound(PERMISSIVE),
        r#"
CedarType::least_upper_bound, of entities | Photo | User & Photo
CedarType::least_upper_bound, of records | Photo | {a: User, b: Long, c: {d: Set<User>}} & {a: Photo, c?: {d: Set<Photo>}}
"#,
    ),
    (
        OfTypes::Bound(STRICT),
        r#"
CedarType::least_upper_bound, of records in Strict | AnyBool | {a: Set<True>, c: {d: False}} & {a: Set<False>, c: {d: True}}
- CedarType::least_upper_bound, of equal types | User | Set<{a: User}> & Set<{a: User}>
- CedarType::least_upper_bound, of any set | AnySet | Set & Set<User>
"#,
    ),
    (
        OfTypes::Bound(PARTIAL),
        "CedarType::least_upper_bound, of sets | Group | Set<Group> & Set<User>",
    ),
    (
        OfTypes::BoundOfAll(PERMISSIVE),
        "CedarType::reduce_to_least_upper_bound | Photo | {a: User} & {a: Photo, b: Long}",
    ),
    (
        OfTypes::Subtype(PERMISSIVE),
        "CedarType::is_subtype | true | {a: User} & {a: User|Photo}",
    ),
    (
        OfTypes::Subtype(STRICT),
        "- CedarType::is_subtype, of entities | true | User & entity",
    ),
];
