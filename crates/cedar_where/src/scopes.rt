// Scopes in which a condition is compiled.
use cedar_types::base::{CedarType, EntityType, EntityUID, Expr, ValidatorSchema};

/// An expression with the types that typing found.
pub(crate) type Typed = Expr<Option<CedarType>>;

/// A schema, and the environment of the requests.
#[derive(Clone, Copy)]
pub(crate) struct Scope<'a> {
    pub(crate) schema: &'a ValidatorSchema,
    pub(crate) principal: &'a EntityType,
    pub(crate) action: &'a EntityUID,
    pub(crate) resource: &'a EntityType,
    /// The type of the entities of the principal's type alone.
    pub(crate) principal_type: &'a CedarType,
    /// The type of the entities of the resource's type alone.
    pub(crate) resource_type: &'a CedarType,
    /// The type of the context, a record.
    pub(crate) context: &'a CedarType,
}
