// The host's report on a policy that names an id which its enumerated type does not list.
use crate::embedding::policies::permit_when;
use crate::wanted::{IMPOSSIBLE, REFUSED, Want, alone, are_said};
use cedar_host::policy_sets::validate_set;
use cedar_host::safety::SoundMode;
use cedar_typechecker::rbac::Validator;
use cedar_types::base::{
    EntityType, EntityUID, EnumChoices, Expr, ExtensionSchemas, Literal, Name, SchemaError,
    Template, ValidatorEntityType, ValidatorEntityTypeKind, ValidatorSchema,
};
use std::alloc::{AllocError, Global};
use std::collections::BTreeSet;
use std::process::Abort;
use std::rc::RcStr;
use std::test::Fail;

const WARNINGS: &[&str] = &[
    "for policy `policy0`, policy is impossible: it evaluates to false for every valid request",
    "for policy `policy0`, \
     unable to find an applicable action given the policy scope constraints",
];

const OF_A_MEMBER: Want = Want {
    warnings: WARNINGS,
    ..IMPOSSIBLE
};

const OF_ANOTHER_ID: Want = Want {
    is_impossible: true,
    errors: &[
        "for policy `policy0`, entity `Status::\"lost\"` is not a member of its enumerated type",
    ],
    warnings: WARNINGS,
    ..REFUSED
};

fn status(alloc: Global) -> Result<EntityType, AllocError> {
    Ok(EntityType::from(Name::unqualified_name(alloc, "Status")?))
}

/// The type `Status` with the one member `draft`.
fn types(alloc: Global) -> Result<Vec<ValidatorEntityType>, AllocError> {
    let members = vec![in alloc; RcStr::from_str(alloc, "draft")?]?;
    let status = ValidatorEntityType {
        name: status(alloc)?,
        descendants: BTreeSet::new(alloc),
        kind: ValidatorEntityTypeKind::Enum(EnumChoices::new(alloc, members)?),
    };
    Ok(vec![in alloc; status]?)
}

/// The schema with this type, and no action.
fn statuses(alloc: Global) -> Result<ValidatorSchema, SchemaError> {
    ValidatorSchema::new(alloc, types(alloc)?, Vec::new(alloc))
}

/// `Status::".." is Status`, of this id
fn is_a_status(alloc: Global, eid: &str) -> Result<Template, AllocError> {
    let uid = EntityUID::from_components(alloc, status(alloc)?, eid, None)?;
    let named = Expr::val(Literal::from(uid));
    permit_when(
        alloc,
        "",
        Expr::is_entity_type(alloc, named, status(alloc)?)?,
    )
}

/// Checks that the report on the policy with only this id is this one. Without an action no environment refuses it.
fn is_said_of(rt: &impl Abort, alloc: Global, eid: &str, want: Want) -> Result<(), SchemaError> {
    let policies = alone(alloc, is_a_status(alloc, eid)?, "")?;
    let extensions = ExtensionSchemas::default(alloc);
    let validator = Validator::new(statuses(alloc)?, &extensions);
    let reports = validate_set(alloc, &validator, SoundMode::Strict, &policies)?;
    are_said(rt, &reports, &[want]);
    Ok(())
}

#[test]
fn a_member_is_accepted_and_another_id_is_not(rt: HostRuntime) -> Result<(), Fail> {
    is_said_of(&rt, rt.alloc(), "draft", OF_A_MEMBER)?;
    Ok(is_said_of(&rt, rt.alloc(), "lost", OF_ANOTHER_ID)?)
}
