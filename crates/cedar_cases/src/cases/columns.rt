// Columns of a case file.
use cedar_types::base::{SlotId, ValidationMode};

/// The content of a column.
#[derive(Clone, Copy, PartialEq, Eq, Debug)]
pub enum Column {
    /// A description of a case, in words.
    About,
    /// A whole policy.
    Policy,
    /// The scope of the policy.
    Scope,
    /// The condition of the policy; nothing if it has none.
    Condition,
    /// The entity that a slot is bound to.
    Slot(SlotId),
    /// The type at which a chain of attributes begins.
    Root,
    /// The attributes of the chain.
    Attributes,
    /// The wanted cost of the chain.
    Cost,
    /// The answer that is wanted for the policy.
    Wanted(Wanted),
}

/// A question about a policy.
#[derive(Clone, Copy, PartialEq, Eq, Debug)]
pub enum Wanted {
    /// A question about its checks in a mode.
    Checks(ValidationMode, Subject),
    /// A question about its validation with levels in a mode, for this maximum.
    Levels(ValidationMode, u32),
    /// The question for the level that it requires in a mode.
    RequiredLevel(ValidationMode),
    /// A question about its names and its scope.
    Names(Question),
}

/// The part of a check that is shown.
#[derive(Clone, Copy, PartialEq, Eq, Debug)]
pub enum Subject {
    /// The outcome of the check, with the errors.
    Outcome,
    /// The typed condition.
    Typed,
    /// The outcome of the whole policy.
    Policy,
    /// Each environment that the policy is checked in, with its outcome.
    Environments,
}

/// The questions about a policy without its types.
#[derive(Clone, Copy, PartialEq, Eq, Debug)]
pub enum Question {
    /// The entity types that the schema does not know.
    EntityTypes,
    /// The actions that the schema does not declare.
    ActionIds,
    /// The ids that their enumerated type does not have.
    EnumEntities,
    /// The entity types to which slots are bound and that the schema does not know.
    SlotTypes,
    /// Whether an action applies to a principal and a resource that the scope admits.
    Application,
    /// Whether an action applies with the slots bound.
    LinkedApplication,
}

impl Column {
    /// The column of this name; `None` if there is none.
    pub fn by_name(name: &str) -> Option<Column> {
        match name {
            "about" => Some(Column::About),
            "policy" => Some(Column::Policy),
            "scope" => Some(Column::Scope),
            "condition" => Some(Column::Condition),
            "?principal" => Some(Column::Slot(SlotId::Principal)),
            "?resource" => Some(Column::Slot(SlotId::Resource)),
            "root" => Some(Column::Root),
            "attributes" => Some(Column::Attributes),
            "cost" => Some(Column::Cost),
            _ => Some(Column::Wanted(Wanted::by_name(name)?)),
        }
    }

    /// Whether the column is about a chain of attributes, and not about a policy.
    pub fn is_of_chain(self) -> bool {
        matches!(self, Column::Root | Column::Attributes | Column::Cost)
    }
}

impl Wanted {
    fn by_name(name: &str) -> Option<Wanted> {
        match Question::by_name(name) {
            Some(question) => Some(Wanted::Names(question)),
            None => Wanted::in_mode(name),
        }
    }

    /// The question in the mode that the name begins with. A name without more asks for the outcome.
    fn in_mode(name: &str) -> Option<Wanted> {
        let Some((mode, asked)) = name.split_once(' ') else {
            return Some(Wanted::Checks(mode_by_name(name)?, Subject::Outcome));
        };
        let mode = mode_by_name(mode)?;
        if asked == "required" {
            return Some(Wanted::RequiredLevel(mode));
        }
        match Subject::by_name(asked) {
            Some(subject) => Some(Wanted::Checks(mode, subject)),
            None => Some(Wanted::Levels(mode, maximum_in(asked)?)),
        }
    }
}

impl Subject {
    fn by_name(name: &str) -> Option<Subject> {
        match name {
            "typed" => Some(Subject::Typed),
            "policy" => Some(Subject::Policy),
            "environments" => Some(Subject::Environments),
            _ => None,
        }
    }
}

fn mode_by_name(name: &str) -> Option<ValidationMode> {
    match name {
        "strict" => Some(ValidationMode::Strict),
        "permissive" => Some(ValidationMode::Permissive),
        "partial" => Some(ValidationMode::Partial),
        _ => None,
    }
}

/// The number behind `level `, in digits: 0 to 4294967295.
fn maximum_in(asked: &str) -> Option<u32> {
    let digits = asked.strip_prefix("level ")?;
    if !digits.chars().all(|c| c.is_ascii_digit()) {
        return None;
    }
    digits.parse::<u32>().ok()
}

impl Question {
    fn by_name(name: &str) -> Option<Question> {
        match name {
            "entity types" => Some(Question::EntityTypes),
            "actions" => Some(Question::ActionIds),
            "enumerated" => Some(Question::EnumEntities),
            "slots" => Some(Question::SlotTypes),
            "application" => Some(Question::Application),
            "linked application" => Some(Question::LinkedApplication),
            _ => None,
        }
    }
}
