//! Data that typing uses, one module for each subject.
mod errors;
mod escapes;
mod expressions;
pub mod laws;
mod levels;
mod location;
mod names;
mod schema;
mod templates;
pub mod type_laws;
mod types;

pub use errors::{
    EmptySetForbidden, FunctionArgumentValidation, ImpossiblePolicy, IncompatibleTypes,
    InternalInvariantViolation, InvalidActionApplication, InvalidEnumEntity,
    LiteralDereferenceTarget, LubContext, MaximumLevelExceeded, Message, NoTagsAllowed,
    NonLitExtConstructor, UndefinedFunction, UnexpectedType, UnrecognizedActionId,
    UnrecognizedEntityType, UnsafeAttributeAccess, UnsafeOptionalAttributeAccess, UnsafeTagAccess,
    ValidationError, ValidationWarning, WrongNumberArguments,
};
pub use escapes::{Escaped, OneLine};
pub use expressions::attr_chains::AttrChain;
pub use expressions::extensions::{
    ArgumentCheck, ArgumentError, ExtensionFunctionType, ExtensionSchemas, ExtensionTableError,
};
pub use expressions::literals::Literal;
pub use expressions::operators::{BinaryOp, UnaryOp, Var};
pub use expressions::patterns::PatternElem;
pub use expressions::shapes::ExprShapeOnly;
pub use expressions::subexpressions::ExprIterator;
pub use expressions::{Expr, ExprKind};
pub use levels::EntityDerefLevel;
pub use location::Loc;
pub use names::Name;
pub use names::entities::{EntityType, EntityUID};
pub use names::policy_ids::PolicyID;
pub use names::slots::{SlotEnv, SlotId};
pub use schema::ValidatorSchema;
pub use schema::actions::{ValidatorActionId, ValidatorActionKind, ValidatorApplySpec};
pub use schema::choices::EnumChoices;
pub use schema::entity_types::{
    StandardValidatorEntityType, ValidatorEntityType, ValidatorEntityTypeKind,
};
pub use schema::errors::SchemaError;
pub use schema::memberships::memberships_are_allowed;
pub use schema::request_environments::UnlinkedRequestEnv;
pub use templates::constraints::{
    ActionConstraint, EntityReference, PrincipalConstraint, PrincipalOrResourceConstraint,
    ResourceConstraint,
};
pub use templates::effects::Effect;
pub use templates::mentions::{Mention, Mentions};
pub use templates::{Policy, Template};
pub use types::entity_sets::EntityLUB;
pub use types::type_sets::types_in_order;
pub use types::{
    AttributeType, Attributes, BoolType, CedarType, EntityKind, OpenTag, RequestType, Type,
    ValidationMode,
};
