// Schemas: their makers, and questions about them.
use crate::calls::lines::{Probe, Trial};
use crate::outcomes::{Outcome, finish};
use crate::refusals::refuse;
use crate::samples::texts::{entities, entity_type, uid};
use cedar_reading::declarations_as_given;
use cedar_types::base::{EntityKind, EnumChoices, SchemaError, ValidatorSchema};
use std::alloc::{AllocError, Global};
use std::rc::RcStr;

/// Makes the schema of these declarations. The answer is the schema, or its fault.
fn make_schema(alloc: Global, trial: Trial<'_>) -> Result<Outcome, AllocError> {
    let text = match trial.text {
        "DECLARATIONS" => DECLARATIONS,
        text => text,
    };
    let Ok(declared) = declarations_as_given(alloc, text) else {
        return Err(AllocError);
    };
    refuse(alloc, trial.number);
    let made = match ValidatorSchema::new(alloc, declared.entity_types, declared.actions) {
        Err(SchemaError::Memory(error)) => Err(error),
        other => Ok(other),
    };
    finish(alloc, made, &())
}

/// Makes the ids of an enumerated type that has only this one.
fn make_choices(alloc: Global, trial: Trial<'_>) -> Result<Outcome, AllocError> {
    let id = RcStr::from_str(alloc, trial.text)?;
    let ids = vec![in alloc; id]?;
    refuse(alloc, trial.number);
    finish(alloc, EnumChoices::new(alloc, ids), &())
}

/// The makers of a schema, and questions about it.
#[derive(Clone, Copy)]
pub enum OfSchema {
    New,
    Choices,
    Asked(OfMade),
}

/// Questions about a schema that is made.
#[derive(Clone, Copy)]
pub enum OfMade {
    Types,
    TypeNames,
    Actions,
    TypesIn,
    ActionsIn,
    Tags,
    TagsOfAny,
}

/// Asks the question about the schema. The text is an action's.
fn of_schema(alloc: Global, trial: Trial<'_>, asked: OfMade) -> Result<Outcome, AllocError> {
    let schema = trial.validator.schema();
    let group = entity_type(alloc, "Group")?;
    let tagged = EntityKind::Entity(entities(alloc, "User")?);
    let actions = vec![in alloc; uid(alloc, trial.text)?]?;
    refuse(alloc, trial.number);
    match asked {
        OfMade::Types => finish(alloc, schema.entity_types(alloc), schema),
        OfMade::TypeNames => finish(alloc, schema.entity_type_names(alloc), schema),
        OfMade::Actions => finish(alloc, schema.action_ids(alloc), schema),
        OfMade::TypesIn => finish(alloc, schema.get_entity_types_in(alloc, &group), schema),
        OfMade::ActionsIn => { finish(alloc, schema.get_actions_in_set(alloc, &actions), schema) }
        OfMade::Tags => finish(alloc, schema.tag_types(alloc, &tagged), schema),
        OfMade::TagsOfAny => {
            finish(
                alloc,
                schema.tag_types(alloc, &EntityKind::AnyEntity),
                schema,
            )
        }
    }
}

impl Probe for OfSchema {
    fn run(self, alloc: Global, trial: Trial<'_>) -> Result<Outcome, AllocError> {
        match self {
            OfSchema::New => make_schema(alloc, trial),
            OfSchema::Choices => make_choices(alloc, trial),
            OfSchema::Asked(asked) => of_schema(alloc, trial, asked),
        }
    }
}

/// Declarations of each kind.
const DECLARATIONS: &str = r#"
entity User above [User] { vip: Bool, boss: User } tags User;
entity Photo { owner: User };
entity Color enum ["red"];
external entity Out;
external action out;
action all above [some];
action some;
action view appliesTo { principal: User, resource: [Photo, User], context: { since?: Long } };
"#;

/// The makers from declarations, and questions about a schema.
pub const SCHEMAS: [(OfSchema, &str); 9] = [
    (
        OfSchema::New,
        r#"
ValidatorSchema::new | Photo | DECLARATIONS
ValidatorSchema::new, of a type twice | DuplicateEntityType | entity A; entity B; entity A;
ValidatorSchema::new, of an unknown type | UnknownType | entity A { x: Set<Gone> };
ValidatorSchema::new, of open descendants | DescendantsNotClosed | entity A above [B]; entity B above [C]; entity C;
ValidatorSchema::new, of an empty type | NotAnActionType | entity A enum []; action User::"a";
"#,
    ),
    (OfSchema::Choices, "EnumChoices::new | red | red"),
    (
        OfSchema::Asked(OfMade::Types),
        r#"ValidatorSchema::entity_types | Color | Action::"all""#,
    ),
    (
        OfSchema::Asked(OfMade::TypeNames),
        r#"ValidatorSchema::entity_type_names | Color | Action::"all""#,
    ),
    (
        OfSchema::Asked(OfMade::Actions),
        r#"ValidatorSchema::action_ids | view | Action::"all""#,
    ),
    (
        OfSchema::Asked(OfMade::TypesIn),
        r#"ValidatorSchema::get_entity_types_in | Photo | Action::"all""#,
    ),
    (
        OfSchema::Asked(OfMade::ActionsIn),
        r#"
ValidatorSchema::get_actions_in_set | some | Action::"all"
- ValidatorSchema::get_actions_in_set, of an unknown one | None | Action::"gone"
"#,
    ),
    (
        OfSchema::Asked(OfMade::Tags),
        r#"ValidatorSchema::tag_types | User | Action::"all""#,
    ),
    (
        OfSchema::Asked(OfMade::TagsOfAny),
        r#"ValidatorSchema::tag_types, of any entity | String | Action::"all""#,
    ),
];
