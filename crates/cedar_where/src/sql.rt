// Expressions of SQL as trees.
use cedar_types::base::{EntityType, EntityUID, PatternElem, Var};
use std::rc::RcStr;

/// An expression of SQL over a row of the table of the resources, with parameters that a request gives and a table of
/// ancestors. `Table::text_of` writes its text, with 1 and 0 for TRUE and FALSE. A recursion as deep as the tree drops it.
#[derive(Debug)]
pub enum SqlExpr {
    /// `NULL`.
    Null,
    /// `TRUE` or `FALSE`.
    Truth(bool),
    /// A whole number of 64 bits.
    Number(i64),
    /// A text.
    Text(RcStr),
    /// The column that holds the value at the end of a path of attributes from the resource: an attribute of a record behind
    /// the record's own name.
    Column(Vec<RcStr>),
    /// The column that holds the resource's own id.
    OwnId,
    /// The parameter that holds the principal's id.
    Principal,
    /// The parameter that holds the value at the end of a path of attributes from a variable of the
    /// request, and NULL if there is none.
    Parameter {
        variable: Var,
        path: Vec<RcStr>,
    },
    /// The column at the end of a path, in the row of the entity of this type with this id, and NULL if there is none.
    Attribute {
        entity_type: EntityType,
        eid: Box<SqlExpr>,
        path: Vec<RcStr>,
    },
    /// `NOT a`.
    Not(Box<SqlExpr>),
    /// `a AND b`.
    And(Box<SqlExpr>, Box<SqlExpr>),
    /// `a OR b`.
    Or(Box<SqlExpr>, Box<SqlExpr>),
    /// `CASE test WHEN TRUE THEN a WHEN FALSE THEN b END`: NULL if the test is NULL.
    Case {
        test: Box<SqlExpr>,
        then: Box<SqlExpr>,
        otherwise: Box<SqlExpr>,
    },
    /// `a = b`.
    Equal(Box<SqlExpr>, Box<SqlExpr>),
    /// `a < b`.
    Less(Box<SqlExpr>, Box<SqlExpr>),
    /// `a <= b`.
    LessOrEqual(Box<SqlExpr>, Box<SqlExpr>),
    /// `a IS NOT NULL`.
    IsNotNull(Box<SqlExpr>),
    /// `a IS TRUE`: FALSE if `a` is NULL.
    IsTrue(Box<SqlExpr>),
    /// Whether a text matches a pattern.
    Matches(Box<SqlExpr>, Vec<PatternElem>),
    /// Whether a text is one of these: `a IN (..)`.
    IsAmong(Box<SqlExpr>, Vec<RcStr>),
    /// Whether the first entity is the second, or the table of ancestors has the second as an ancestor of the first; NULL if an
    /// id is.
    IsIn {
        entity_type: EntityType,
        eid: Box<SqlExpr>,
        ancestor_type: EntityType,
        ancestor_eid: Box<SqlExpr>,
    },
    /// Whether the entity is one of these, or the table of ancestors has one of these as its ancestor; NULL if its id is.
    IsInAny {
        entity_type: EntityType,
        eid: Box<SqlExpr>,
        entities: Vec<EntityUID>,
    },
}

// Dropped by hand, so that a proof has one call for the drop of an expression.
impl Drop for SqlExpr {
    fn drop(self) {
        match self {
            SqlExpr::Null => {}
            SqlExpr::Truth(_) => {}
            SqlExpr::Number(_) => {}
            SqlExpr::Text(_) => {}
            SqlExpr::Column(_) => {}
            SqlExpr::OwnId => {}
            SqlExpr::Principal => {}
            SqlExpr::Parameter {
                variable: _,
                path: _,
            } => {}
            SqlExpr::Attribute {
                entity_type: _,
                eid: _,
                path: _,
            } => {}
            SqlExpr::Not(_) => {}
            SqlExpr::And(_, _) => {}
            SqlExpr::Or(_, _) => {}
            SqlExpr::Case {
                test: _,
                then: _,
                otherwise: _,
            } => {}
            SqlExpr::Equal(_, _) => {}
            SqlExpr::Less(_, _) => {}
            SqlExpr::LessOrEqual(_, _) => {}
            SqlExpr::IsNotNull(_) => {}
            SqlExpr::IsTrue(_) => {}
            SqlExpr::Matches(_, _) => {}
            SqlExpr::IsAmong(_, _) => {}
            SqlExpr::IsIn {
                entity_type: _,
                eid: _,
                ancestor_type: _,
                ancestor_eid: _,
            } => {}
            SqlExpr::IsInAny {
                entity_type: _,
                eid: _,
                entities: _,
            } => {}
        }
    }
}
