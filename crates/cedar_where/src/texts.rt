// Texts of expressions, for SQLite. No contract says that a text has the meaning of its tree: that is only tested.
//
// A truth value is 1 or 0, because SQLite takes the words TRUE and FALSE for columns of these names.
use crate::chains::{Chain, Kept, Place, Turn};
use crate::quotes::{
    write_ancestor, write_ancestor_among, write_ancestor_query, write_column, write_entity_query,
    write_ids_of_type, write_parameter, write_path, write_pattern, write_quoted, write_texts,
};
use crate::sql::SqlExpr;
use crate::tables::{ID_COLUMN, Table};
use cedar_types::base::EntityType;
use std::fmt;

/// A text that SQL reads back.
#[derive(Clone, Copy)]
pub struct SqlText<'a> {
    table: &'a Table,
    expr: &'a SqlExpr,
}

/// The query of the ids of the rows that a clause chooses.
#[derive(Clone, Copy)]
pub struct SqlQuery<'a> {
    table: &'a Table,
    clause: &'a SqlExpr,
}

impl Table {
    /// An expression over this table, as a text. It has parentheses, if it is no single name, number or text.
    pub fn text_of<'a>(&'a self, expr: &'a SqlExpr) -> SqlText<'a> {
        SqlText { table: self, expr }
    }

    /// The query of the ids of the rows that a clause over this table chooses.
    pub fn query<'a>(&'a self, clause: &'a SqlExpr) -> SqlQuery<'a> {
        SqlQuery {
            table: self,
            clause,
        }
    }
}

impl fmt::Display for SqlText<'_> {
    fn fmt<W: fmt::Write>(&self, f: &mut fmt::Formatter<W>) -> fmt::Result {
        let mut whole = Chain::new(Place::Operand, Kept::Value);
        write_expr(f, self.table.name.as_str(), &mut whole, self.expr)
    }
}

impl fmt::Display for SqlQuery<'_> {
    fn fmt<W: fmt::Write>(&self, f: &mut fmt::Formatter<W>) -> fmt::Result {
        let table = self.table.name.as_str();
        write!(f, "SELECT ")?;
        write_column(f, table, ID_COLUMN)?;
        write!(f, " FROM ")?;
        write_quoted(f, '"', table)?;
        write!(f, " WHERE ")?;
        let mut whole = Chain::new(Place::Alone, Kept::Truth);
        write_expr(f, table, &mut whole, self.clause)
    }
}

/// Writes an expression as a part of a chain.
fn write_expr<W: fmt::Write>(
    f: &mut fmt::Formatter<W>,
    table: &str,
    chain: &mut Chain,
    e: &SqlExpr,
) -> fmt::Result {
    if chain.goes_on(e) {
        return match e {
            SqlExpr::And(a, b)
            | SqlExpr::Or(a, b)
            | SqlExpr::Case {
                test: a,
                then: b,
                ..
            } => {
                write_expr(f, table, chain, a)?;
                write_expr(f, table, chain, b)
            }
            SqlExpr::IsTrue(a) => write_expr(f, table, chain, a),
            _ => Ok(()),
        };
    }
    if !chain.takes(e) {
        return Ok(());
    }
    chain.begin_part(f, e)?;
    let mut parts = chain.within(e);
    match e {
        SqlExpr::And(a, b)
        | SqlExpr::Or(a, b)
        | SqlExpr::Case {
            test: a,
            then: b,
            ..
        } if parts.is_chain() => {
            parts.turn = Turn::Deep;
            write_expr(f, table, &mut parts, a)?;
            write_expr(f, table, &mut parts, b)?;
            parts.turn = Turn::Others;
            write_expr(f, table, &mut parts, a)?;
            write_expr(f, table, &mut parts, b)?;
            parts.end(f)?;
        }
        SqlExpr::Not(a) | SqlExpr::IsNotNull(a) | SqlExpr::IsTrue(a) => {
            write!(f, "{}", word_before(e))?;
            write_expr(f, table, &mut parts, a)?;
            write!(f, "{}", word_behind(e))?;
        }
        SqlExpr::Equal(a, b) | SqlExpr::Less(a, b) | SqlExpr::LessOrEqual(a, b) => {
            write_expr(f, table, &mut parts, a)?;
            write!(f, " {} ", word_between(e))?;
            write_expr(f, table, &mut parts, b)?;
        }
        SqlExpr::Case {
            test,
            then,
            otherwise,
        } => {
            let mut branch = chain.branch();
            write!(f, "CASE ")?;
            write_expr(f, table, &mut parts, test)?;
            write!(f, " WHEN 1 THEN ")?;
            write_expr(f, table, &mut branch, then)?;
            write!(f, " WHEN 0 THEN ")?;
            write_expr(f, table, &mut branch, otherwise)?;
            write!(f, " END")?;
        }
        SqlExpr::Attribute {
            entity_type,
            eid,
            path,
        } => {
            write_entity_query(f, entity_type, path)?;
            write_expr(f, table, &mut parts, eid)?;
            write!(f, ")")?;
        }
        SqlExpr::Matches(a, pattern) => {
            write_expr(f, table, &mut parts, a)?;
            write_pattern(f, pattern)?;
        }
        SqlExpr::IsAmong(a, texts) => {
            write_expr(f, table, &mut parts, a)?;
            write_texts(f, texts)?;
        }
        SqlExpr::IsIn {
            entity_type,
            eid,
            ancestor_type,
            ancestor_eid,
        } => {
            write!(f, "CASE ")?;
            write_expr(f, table, &mut parts, eid)?;
            write!(f, " = ")?;
            write_expr(f, table, &mut parts, ancestor_eid)?;
            write!(f, "{}", word_before_query(entity_type, ancestor_type))?;
            write_ancestor_query(f, entity_type)?;
            write_expr(f, table, &mut parts, eid)?;
            write_ancestor(f, ancestor_type)?;
            write_expr(f, table, &mut parts, ancestor_eid)?;
            write!(f, ") END")?;
        }
        SqlExpr::IsInAny {
            entity_type,
            eid,
            entities,
        } => {
            write!(f, "CASE WHEN ")?;
            write_expr(f, table, &mut parts, eid)?;
            write!(f, " IS NOT NULL THEN ")?;
            write_expr(f, table, &mut parts, eid)?;
            write_ids_of_type(f, entity_type, entities)?;
            write_ancestor_query(f, entity_type)?;
            write_expr(f, table, &mut parts, eid)?;
            write_ancestor_among(f, entities)?;
        }
        _ => write_leaf(f, table, e)?,
    }
    chain.end_part(f, e)
}

/// Writes an expression without operands.
fn write_leaf<W: fmt::Write>(f: &mut fmt::Formatter<W>, table: &str, e: &SqlExpr) -> fmt::Result {
    match e {
        SqlExpr::Truth(true) => write!(f, "1"),
        SqlExpr::Truth(false) => write!(f, "0"),
        SqlExpr::Number(n) => write!(f, "{n}"),
        SqlExpr::Text(text) => write_quoted(f, '\'', text),
        SqlExpr::Column(path) => write_path(f, table, path),
        SqlExpr::OwnId => write_column(f, table, ID_COLUMN),
        SqlExpr::Principal => write!(f, ":principal"),
        SqlExpr::Parameter { variable, path } => write_parameter(f, *variable, path),
        _ => write!(f, "NULL"),
    }
}

fn word_before(e: &SqlExpr) -> &'static str {
    match e {
        SqlExpr::Not(_) => "NOT ",
        _ => "",
    }
}

fn word_behind(e: &SqlExpr) -> &'static str {
    match e {
        SqlExpr::IsNotNull(_) => " IS NOT NULL",
        SqlExpr::IsTrue(_) => " IS 1",
        _ => "",
    }
}

/// The words between the comparison of two ids and the query for an ancestor, which is NULL if the comparison is. Equal ids are
/// those of one entity only if their types are equal.
fn word_before_query(entity_type: &EntityType, ancestor_type: &EntityType) -> &'static str {
    if entity_type == ancestor_type {
        " WHEN 1 THEN 1 WHEN 0 THEN "
    } else {
        " IS NOT NULL WHEN 1 THEN "
    }
}

fn word_between(e: &SqlExpr) -> &'static str {
    match e {
        SqlExpr::Less(_, _) => "<",
        SqlExpr::LessOrEqual(_, _) => "<=",
        _ => "=",
    }
}
