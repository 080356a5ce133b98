// Roles of tokens: what each one is where it stands.

/// The strength with which the parts of an expression bind, the weakest first.
#[derive(Clone, Copy, PartialEq, Eq, PartialOrd, Ord, Debug)]
pub enum Level {
    /// A whole expression: an `if`.
    Whole,
    Or,
    And,
    /// Comparisons, `has`, `like` and `is`, none of which goes on with another.
    Relation,
    Sum,
    Product,
    /// `!` or `-` before an operand.
    Prefix,
    /// An operand with its accesses and calls.
    Member,
}

/// The brackets of a text.
#[derive(Clone, Copy, PartialEq, Eq, Debug)]
pub enum Bracket {
    /// The parentheses of a scope.
    Scope,
    /// The braces of a condition.
    Condition,
    /// The parentheses of a call's arguments, or of an annotation's value.
    Call,
    /// Parentheses around an expression.
    Group,
    Set,
    Record,
    /// The brackets of an attribute in quotes.
    Index,
}

/// The role of a token.
#[derive(Clone, Copy, PartialEq, Eq, Debug)]
pub enum Role {
    /// A value or a name, or a part of one.
    Operand,
    /// An operator between two operands.
    Between(Level),
    /// `!` or `-` before its operand.
    Prefix,
    Open(Bracket),
    Close(Bracket),
    Comma,
    Colon,
    /// The end of a policy.
    Semicolon,
    /// `.` or `::`.
    Joint,
    /// The `?` of a slot.
    Slot,
    /// The `@` of an annotation.
    Annotation,
    If,
    Then,
    Else,
    Effect,
    /// `when` or `unless`.
    Condition,
}

impl Role {
    /// Whether an operand ends with this token.
    pub fn ends_operand(self) -> bool {
        matches!(self, Role::Operand | Role::Close(_))
    }
}

/// Marks that always play one role.
const MARKS: [(&str, Role); 8] = [
    (",", Role::Comma),
    (":", Role::Colon),
    (";", Role::Semicolon),
    (".", Role::Joint),
    ("::", Role::Joint),
    ("?", Role::Slot),
    ("@", Role::Annotation),
    ("!", Role::Prefix),
];

/// Operators between two operands. A `-` may also stand before an operand.
const OPERATORS: [(&str, Level); 15] = [
    ("||", Level::Or),
    ("&&", Level::And),
    ("==", Level::Relation),
    ("!=", Level::Relation),
    ("<", Level::Relation),
    ("<=", Level::Relation),
    (">", Level::Relation),
    (">=", Level::Relation),
    ("in", Level::Relation),
    ("has", Level::Relation),
    ("like", Level::Relation),
    ("is", Level::Relation),
    ("+", Level::Sum),
    ("-", Level::Sum),
    ("*", Level::Product),
];

/// Words of an expression that are no names.
const WORDS: [(&str, Role); 3] = [("if", Role::If), ("then", Role::Then), ("else", Role::Else)];

/// Words of a policy outside of all brackets.
const OUTER_WORDS: [(&str, Role); 4] = [
    ("permit", Role::Effect),
    ("forbid", Role::Effect),
    ("when", Role::Condition),
    ("unless", Role::Condition),
];

/// The role of a token behind one with the role `before`, inside the bracket `inside` if there is
/// one.
pub fn role_of(text: &str, before: Role, inside: Option<Bracket>) -> Role {
    if before == Role::Annotation || before == Role::Joint || before == Role::Slot {
        return Role::Operand;
    }
    match text {
        "(" => return Role::Open(parenthesis(before)),
        "[" if before.ends_operand() => return Role::Open(Bracket::Index),
        "[" => return Role::Open(Bracket::Set),
        "{" if before == Role::Condition => return Role::Open(Bracket::Condition),
        "{" => return Role::Open(Bracket::Record),
        ")" | "]" | "}" => return Role::Close(inside.unwrap_or(Bracket::Group)),
        "-" if !before.ends_operand() => return Role::Prefix,
        _ => {}
    }
    if inside.is_none() {
        if let Some(role) = found(&OUTER_WORDS, text) {
            return role;
        }
    }
    if let Some(level) = level_of(text) {
        return Role::Between(level);
    }
    match found(&MARKS, text) {
        Some(role) => role,
        None => found(&WORDS, text).unwrap_or(Role::Operand),
    }
}

fn found(table: &[(&str, Role)], text: &str) -> Option<Role> {
    for (own, role) in table {
        if *own == text {
            return Some(*role);
        }
    }
    None
}

/// The strength of an operator between two operands.
pub fn level_of(text: &str) -> Option<Level> {
    for (own, level) in &OPERATORS {
        if *own == text {
            return Some(*level);
        }
    }
    None
}

/// The bracket that a parenthesis opens behind a token of the role `before`.
fn parenthesis(before: Role) -> Bracket {
    match before {
        Role::Effect => Bracket::Scope,
        Role::Operand | Role::Close(_) => Bracket::Call,
        _ => Bracket::Group,
    }
}

/// Whether a blank stands between two tokens of one line.
pub fn is_spaced(before: Role, role: Role) -> bool {
    let is_joined_behind = match role {
        Role::Comma | Role::Colon | Role::Semicolon | Role::Joint => true,
        Role::Open(bracket) => matches!(bracket, Bracket::Call | Bracket::Index),
        Role::Close(bracket) => bracket != Bracket::Condition,
        _ => false,
    };
    let is_joined_before = match before {
        Role::Annotation | Role::Joint | Role::Prefix | Role::Slot => true,
        Role::Open(bracket) => bracket != Bracket::Condition,
        _ => false,
    };
    !is_joined_behind && !is_joined_before
}
