// Copies of values.
use crate::calls::lines::{Probe, Trial};
use crate::outcomes::{Outcome, finish};
use crate::refusals::refuse;
use crate::samples::texts::{cedar_type, entities, expression, template, uid};
use cedar_types::base::{
    AttrChain, AttributeType, Attributes, CedarType, EntityKind, EntityLUB, EntityReference,
    EntityUID, Expr, ExprShapeOnly, Literal, PrincipalOrResourceConstraint, Template,
};
use std::alloc::{AllocError, Global};

/// The values that are copied.
#[derive(Clone, Copy)]
pub enum Copied {
    Expr,
    OwnedShape,
    BorrowedShape,
    Template,
    Name,
    EntityType,
    Uid,
    PolicyId,
    Literal,
    Chain,
    Reference,
    Constraint,
    Actions,
    EntitySet,
    Entities,
    Attributes,
    AttributeType,
    Type,
}

/// An original of each kind.
#[derive(Debug, Drop)]
struct Originals {
    expr: Expr,
    shape: ExprShapeOnly<'static>,
    template: Template,
    uid: EntityUID,
    literal: Literal,
    chain: AttrChain,
    reference: EntityReference,
    constraint: PrincipalOrResourceConstraint,
    entities: EntityLUB,
    kind: EntityKind,
    attributes: Attributes,
    attribute: AttributeType,
    record: CedarType,
}

const EXPRESSION: &str = r#"if principal has boss.vip && [1, -2].contains(3) then ip("a") == ip("b")
    else {a: principal, b: "text" like "t*"} has a || principal is User"#;

const POLICY: &str =
    r#"permit(principal is A::User in ?principal, action in [Action::"a", Action::"b"],
    resource in A::User::"a") when { principal.getTag("a") == principal };"#;

fn all_originals(alloc: Global) -> Result<Originals, AllocError> {
    let user = r#"A::User::"a""#;
    let attributes = Attributes::from_list(
        alloc,
        vec![in alloc; ("a", AttributeType::optional_attribute(CedarType::Long))]?,
    )?;
    let policy = template(alloc, POLICY)?;
    Ok(Originals {
        expr: expression(alloc, EXPRESSION)?,
        shape: ExprShapeOnly::Owned(expression(alloc, EXPRESSION)?),
        constraint: policy.resource_constraint.constraint.clone()?,
        template: policy,
        uid: uid(alloc, user)?,
        literal: Literal::from(uid(alloc, user)?),
        chain: AttrChain::new(alloc, "a", &["b"])?,
        reference: EntityReference::EUID(uid(alloc, user)?),
        entities: entities(alloc, "User")?,
        kind: EntityKind::Entity(entities(alloc, "User")?),
        attributes,
        attribute: AttributeType::optional_attribute(cedar_type(alloc, "Set<A::User>")?),
        record: cedar_type(alloc, "{a: Set<A::User>, b?: ipaddr}")?,
    })
}

impl Probe for Copied {
    fn run(self, alloc: Global, trial: Trial<'_>) -> Result<Outcome, AllocError> {
        let all = all_originals(alloc)?;
        refuse(alloc, trial.number);
        match self {
            Copied::Expr => finish(alloc, all.expr.try_clone(alloc), &all),
            Copied::OwnedShape => finish(alloc, all.shape.try_clone(alloc), &all),
            Copied::BorrowedShape => {
                let shape = ExprShapeOnly::Borrowed(&all.expr);
                finish(alloc, shape.try_clone(alloc), &all)
            }
            Copied::Template => finish(alloc, all.template.try_clone(alloc), &all),
            Copied::Name => finish(alloc, all.uid.entity_type.name.clone(), &all),
            Copied::EntityType => finish(alloc, all.uid.entity_type.clone(), &all),
            Copied::Uid => finish(alloc, all.uid.clone(), &all),
            Copied::PolicyId => finish(alloc, all.template.id.clone(), &all),
            Copied::Literal => finish(alloc, all.literal.clone(), &all),
            Copied::Chain => finish(alloc, all.chain.clone(), &all),
            Copied::Reference => finish(alloc, all.reference.clone(), &all),
            Copied::Constraint => finish(alloc, all.constraint.clone(), &all),
            Copied::Actions => {
                let actions = &all.template.action_constraint;
                finish(alloc, actions.try_clone(alloc), &all)
            }
            Copied::EntitySet => finish(alloc, all.entities.clone(), &all),
            Copied::Entities => finish(alloc, all.kind.clone(), &all),
            Copied::Attributes => finish(alloc, all.attributes.clone(), &all),
            Copied::AttributeType => finish(alloc, all.attribute.clone(), &all),
            Copied::Type => finish(alloc, all.record.clone(), &all),
        }
    }
}

/// The values that are copied, with their lines.
pub const COPIES: [(Copied, &str); 18] = [
    (Copied::Expr, "Expr::try_clone | If"),
    (Copied::OwnedShape, "ExprShapeOnly::try_clone | Owned"),
    (Copied::Template, "Template::try_clone | GetTag"),
    (Copied::Name, "Name::clone | User"),
    (Copied::EntityType, "EntityType::clone | User"),
    (Copied::Uid, "EntityUID::clone | User"),
    (Copied::Literal, "Literal::clone | User"),
    (Copied::Chain, "AttrChain::clone | AttrChain"),
    (Copied::Reference, "EntityReference::clone | User"),
    (
        Copied::Constraint,
        "PrincipalOrResourceConstraint::clone | User",
    ),
    (Copied::Actions, "ActionConstraint::try_clone | In"),
    (
        Copied::BorrowedShape,
        "- ExprShapeOnly::try_clone, of a borrowed one | Borrowed",
    ),
    (Copied::PolicyId, "- PolicyID::clone | policy0"),
    (Copied::EntitySet, "- EntityLUB::clone | User"),
    (Copied::Entities, "- EntityKind::clone | User"),
    (Copied::Attributes, "- Attributes::clone | Long"),
    (Copied::AttributeType, "- AttributeType::clone | User"),
    (Copied::Type, "- CedarType::clone | ipaddr"),
];
