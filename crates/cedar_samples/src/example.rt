// A host that validates two policies and prints a report on each. Its end is shown in docs/EMBEDDING.md.
use cedar_host::policy_sets::WrittenPolicy;
use cedar_host::safety::SoundMode;
use cedar_host::slices::validate_for_slices;
use cedar_typechecker::base::*;
use cedar_typechecker::rbac::Validator;
use std::alloc::{AllocError, Global};
use std::collections::BTreeSet;
use std::io;
use std::rc::{Rc, RcStr};
use thiserror::Error;

/// The reason why the report is not printed whole.
#[derive(Debug, Drop, Error)]
pub enum ReportError {
    #[error(transparent)]
    Memory(#[from(alloc)] AllocError),
    #[error("the schema is refused: {0}")]
    Schema(#[from] SchemaError),
    #[error(transparent)]
    Output(#[from] io::Error),
}

/// `entity User { vip?: Bool };`
fn types(alloc: Global) -> Result<Vec<ValidatorEntityType>, AllocError> {
    let vip = AttributeType::optional_attribute(CedarType::primitive_boolean());
    let attributes = Attributes::from_list(alloc, vec![in alloc; ("vip", vip)]?)?;
    let name = EntityType::from(Name::unqualified_name(alloc, "User")?);
    let tags = None;
    let standard = StandardValidatorEntityType { attributes, tags };
    let user = ValidatorEntityType {
        name,
        descendants: BTreeSet::new(alloc),
        kind: ValidatorEntityTypeKind::Standard(standard),
    };
    Ok(vec![in alloc; user]?)
}

/// `action view appliesTo { principal: User, resource: User };`
fn actions(alloc: Global) -> Result<Vec<ValidatorActionId>, AllocError> {
    let no_attributes = Attributes::from_list(alloc, Vec::new(alloc))?;
    let context = CedarType::record_with_attributes(no_attributes, OpenTag::ClosedAttributes);
    let mut users = BTreeSet::new(alloc);
    users.insert(EntityType::from(Name::unqualified_name(alloc, "User")?))?;
    let applies_to = ValidatorApplySpec {
        principal_apply_spec: users.clone()?,
        resource_apply_spec: users,
        context: Rc::new(alloc, context)?,
    };
    let action_type = EntityType::from(Name::unqualified_name(alloc, "Action")?);
    let view = ValidatorActionId {
        name: EntityUID::from_components(alloc, action_type, "view", None)?,
        descendants: BTreeSet::new(alloc),
        kind: ValidatorActionKind::Defined(applies_to),
    };
    Ok(vec![in alloc; view]?)
}

fn schema(alloc: Global) -> Result<ValidatorSchema, SchemaError> {
    ValidatorSchema::new(alloc, types(alloc)?, actions(alloc)?)
}

/// `permit(principal, action, resource) when { CONDITION };`
fn policy(alloc: Global, id: &str, condition: Expr) -> Result<WrittenPolicy, AllocError> {
    let template = Template::new(
        PolicyID::from_string(alloc, id)?,
        None,
        PrincipalConstraint::any(),
        ActionConstraint::any(),
        ResourceConstraint::any(),
        Some(condition),
    );
    Ok(WrittenPolicy {
        effect: Effect::Permit,
        template,
        text: RcStr::from_str(alloc, "")?,
    })
}

/// The policy of `principal has vip && principal.vip`, and the policy of its second half.
fn policies(alloc: Global) -> Result<Vec<WrittenPolicy>, AllocError> {
    let test = Expr::has_attr(alloc, Expr::var(Var::Principal), "vip")?;
    let access = Expr::get_attr(alloc, Expr::var(Var::Principal), "vip")?;
    let both = Expr::and(alloc, test, access.try_clone(alloc)?)?;
    let guarded = policy(alloc, "guarded", both)?;
    let unguarded = policy(alloc, "unguarded", access)?;
    Ok(vec![in alloc; guarded, unguarded]?)
}

/// Prints a report on each policy.
pub fn run(rt: &HostRuntime) -> Result<(), ReportError> {
    let alloc = rt.alloc();
    let policies = policies(alloc)?;
    let extensions = ExtensionSchemas::default(alloc);
    let validator = Validator::new(schema(alloc)?, &extensions);
    let steps = 1;
    for answer in &validate_for_slices(alloc, &validator, SoundMode::Strict, steps, &policies)? {
        let id = &answer.report.policy.template.id;
        println!(rt; "{id} is accepted: {}", answer.report.is_accepted)?;
        for error in &answer.report.errors {
            println!(rt; "    {error}")?;
        }
    }
    Ok(())
}
