// Reasons why a condition has no where-clause.
use cedar_types::base::Loc;
use std::fmt;

/// The part of a condition that has no clause, with the reason.
#[derive(Clone, Copy, PartialEq, Eq, Debug)]
pub struct Refusal {
    /// The place of the part in the policy's text, if it was read from one.
    pub loc: Option<Loc>,
    pub reason: Reason,
}

/// The reason why a part of a condition has no clause.
#[derive(Clone, Copy, PartialEq, Eq, Debug)]
pub enum Reason {
    /// Nothing is known of the requests of an undeclared action.
    UndeclaredAction,
    /// A row has no context.
    Context,
    /// A slot is bound by a link, which a clause does not know.
    Slot,
    /// An unknown has no value.
    Unknown,
    /// `if` of entities: a test of `in` writes an id more than once, so its clause could be exponentially
    /// long.
    Conditional,
    /// Sums, differences and products fail in Cedar in cases in which SQL's do not.
    Arithmetic,
    /// No column has a set, and no set has a clause.
    Set,
    /// No column has a record.
    Record,
    /// No column has a tag.
    Tag,
    /// No function of SQL is an extension function.
    ExtensionFunction,
    /// The part is no path of attributes that the schema declares, from a variable or an entity, or a name
    /// in it cannot stand in the name of a column or of a parameter.
    NoPath,
    /// No column and no parameter holds a set, a record, a value of an extension type or an entity of
    /// several types.
    NoColumn,
    /// A text, an id or a name with NUL, which no driver takes, or with a backslash, which begins an
    /// escape in some dialects.
    Text,
    /// A pattern with NUL or a backslash, or with U+FFFD, U+FFFE or U+FFFF, which SQLite's GLOB takes
    /// for each other.
    Pattern,
    /// `!`, `&&` and `||` need truth values.
    NotBoolean,
    /// `<` and `<=` need numbers here.
    NotNumber,
    /// `like` needs a text.
    NotText,
    /// `in` and `is` need an entity of one known type.
    NotEntity,
}

impl Refusal {
    pub(crate) fn new(loc: Option<Loc>, reason: Reason) -> Refusal {
        Refusal { loc, reason }
    }
}

impl fmt::Display for Reason {
    fn fmt<W: fmt::Write>(&self, f: &mut fmt::Formatter<W>) -> fmt::Result {
        match self {
            Reason::UndeclaredAction => write!(f, "the action is not declared"),
            Reason::Context => write!(f, "a row has no context"),
            Reason::Slot => write!(f, "a slot is bound by a link alone"),
            Reason::Unknown => write!(f, "an unknown has no value"),
            Reason::Conditional => write!(
                f,
                "`if` has a clause only of truth values, numbers or texts"
            ),
            Reason::Arithmetic => write!(f, "SQL's arithmetic does not fail as Cedar's does"),
            Reason::Set => write!(f, "a set has no clause"),
            Reason::Record => write!(f, "a record has no clause"),
            Reason::Tag => write!(f, "no column has a tag"),
            Reason::ExtensionFunction => write!(f, "an extension function has no clause"),
            Reason::NoPath => write!(f, "no path of declared attributes leads here"),
            Reason::NoColumn => write!(f, "no column and no parameter has this value"),
            Reason::Text => write!(f, "a text with NUL or a backslash has no clause"),
            Reason::Pattern => write!(
                f,
                "a pattern with NUL, a backslash, U+FFFD, U+FFFE or U+FFFF has no clause"
            ),
            Reason::NotBoolean => write!(f, "this is no truth value"),
            Reason::NotNumber => write!(f, "only numbers are compared by order"),
            Reason::NotText => write!(f, "`like` needs a text"),
            Reason::NotEntity => write!(f, "`in` and `is` need an entity of one type"),
        }
    }
}

impl fmt::Display for Refusal {
    fn fmt<W: fmt::Write>(&self, f: &mut fmt::Formatter<W>) -> fmt::Result {
        write!(f, "{}", self.reason)
    }
}
