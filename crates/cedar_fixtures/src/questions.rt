// Questions of steps, as their first lines have them.
use crate::schemas::schema_by_name;
use cedar_types::base::ValidationMode;

/// The question of a step, as its first line has it: `S1 Strict check: principal.bool`.
#[derive(Clone, Copy)]
pub struct Question<'a> {
    /// The text of the schema.
    pub schema: &'static str,
    pub table: Table,
    pub subject: Subject,
    /// The entity to which `?principal` is bound.
    pub bound: Option<&'a str>,
    /// The subject of the question: a policy, or its condition alone, or functions, or a chain.
    pub text: &'a str,
}

/// The table of extension functions by which a policy is typed.
#[derive(Clone, Copy)]
pub enum Table {
    X1,
    X2,
}

/// The subject of a question.
#[derive(Clone, Copy)]
pub enum Subject {
    /// The check in the first environment of the schema.
    Check(ValidationMode),
    /// The checks in all environments.
    Environments(ValidationMode),
    /// The findings that the check of the policy adds to empty sets.
    Policy(ValidationMode),
    /// The findings of the validation with levels if this is the greatest level.
    Level(ValidationMode, u32),
    /// The least level that is enough.
    RequiredLevel(ValidationMode),
    /// The cost of a chain of attributes, behind its root: `User.user.bool`.
    ChainCost,
    /// The entity types that the schema does not know.
    EntityTypes,
    /// The actions that the schema does not declare.
    ActionIds,
    /// The ids that are no members of their enumerated type.
    EnumeratedIds,
    /// The entity types to which slots are bound, in a policy of the id `0`.
    SlotTypes,
    /// Whether an action applies to a principal and a resource that the scope admits.
    Application,
    /// Whether an action applies to a principal and a resource that the scope admits, with the
    /// slots bound.
    LinkedApplication,
    /// The principal types that the scope admits.
    PrincipalTypes,
    /// The reason why these functions have no table.
    Refusal,
    /// The reason why these declarations, which are as given, have no schema.
    SchemaRefusal,
}

impl<'a> Question<'a> {
    /// Reads a question; `None` if the line is none.
    pub fn read(line: &'a str) -> Option<Question<'a>> {
        let (head, text) = line.split_once(": ")?;
        let (schema, subject) = head.split_once(' ')?;
        let (table, subject) = match subject.strip_prefix("X2 ") {
            Some(subject) => (Table::X2, subject),
            None => (Table::X1, subject),
        };
        let (subject, bound) = match subject.split_once(" with ") {
            Some((subject, bound)) => (subject, Some(bound)),
            None => (subject, None),
        };
        Some(Question {
            schema: schema_by_name(schema)?,
            table,
            subject: Subject::by_name(subject)?,
            bound,
            text,
        })
    }
}

impl Subject {
    fn by_name(name: &str) -> Option<Subject> {
        if let Some((mode, level)) = name.split_once(" level ") {
            let level = level.parse::<u32>().ok()?;
            return Some(Subject::Level(mode_by_name(mode)?, level));
        }
        if let Some(mode) = name.strip_suffix(" required level") {
            return Some(Subject::RequiredLevel(mode_by_name(mode)?));
        }
        match name {
            "Strict check" => Some(Subject::Check(ValidationMode::Strict)),
            "Permissive check" => Some(Subject::Check(ValidationMode::Permissive)),
            "Strict environments" => Some(Subject::Environments(ValidationMode::Strict)),
            "Partial environments" => Some(Subject::Environments(ValidationMode::Partial)),
            "Strict policy" => Some(Subject::Policy(ValidationMode::Strict)),
            "Partial policy" => Some(Subject::Policy(ValidationMode::Partial)),
            "chain cost" => Some(Subject::ChainCost),
            "entity types" => Some(Subject::EntityTypes),
            "action ids" => Some(Subject::ActionIds),
            "enumerated ids" => Some(Subject::EnumeratedIds),
            "slot types" => Some(Subject::SlotTypes),
            "applies" => Some(Subject::Application),
            "applies linked" => Some(Subject::LinkedApplication),
            "principal types" => Some(Subject::PrincipalTypes),
            "table" => Some(Subject::Refusal),
            "schema" => Some(Subject::SchemaRefusal),
            _ => None,
        }
    }
}

fn mode_by_name(name: &str) -> Option<ValidationMode> {
    match name {
        "Strict" => Some(ValidationMode::Strict),
        "Permissive" => Some(ValidationMode::Permissive),
        "Partial" => Some(ValidationMode::Partial),
        _ => None,
    }
}
