// Names, texts, patterns and lists of ids, as SQLite reads them.
use cedar_types::base::{EntityType, EntityUID, PatternElem, Var};
use std::fmt;
use std::rc::RcStr;

/// The name of the table of ancestors. It has a blank, because no entity type does.
pub(crate) const ANCESTORS: &str = "entity ancestors";

/// The name for the row of an entity behind the resource, in the query for it: a column of the resource's own table keeps its
/// name there, also if the two tables are one. It has a blank, because no entity type does.
const OTHER: &str = "other entity";

/// Writes a text in these marks. A mark within it is doubled.
pub(crate) fn write_quoted<W: fmt::Write>(
    f: &mut fmt::Formatter<W>,
    mark: char,
    text: &str,
) -> fmt::Result {
    write!(f, "{mark}")?;
    write_doubled(f, mark, text)?;
    write!(f, "{mark}")
}

/// Writes a text, and each mark within it twice.
fn write_doubled<W: fmt::Write>(f: &mut fmt::Formatter<W>, mark: char, text: &str) -> fmt::Result {
    for c in text.chars() {
        if c == mark {
            write!(f, "{mark}")?;
        }
        write!(f, "{c}")?;
    }
    Ok(())
}

/// Writes a column with its table, because SQLite takes a quoted name that the table lacks for a text.
pub(crate) fn write_column<W: fmt::Write>(
    f: &mut fmt::Formatter<W>,
    table: &str,
    column: &str,
) -> fmt::Result {
    write_quoted(f, '"', table)?;
    write!(f, ".")?;
    write_quoted(f, '"', column)
}

/// Writes the column at the end of a path, with its table. Its name has points between the attributes.
pub(crate) fn write_path<W: fmt::Write>(
    f: &mut fmt::Formatter<W>,
    table: &str,
    path: &[RcStr],
) -> fmt::Result {
    write_quoted(f, '"', table)?;
    let mut mark = ".\"";
    for attribute in path {
        write!(f, "{mark}")?;
        write_doubled(f, '"', attribute)?;
        mark = ".";
    }
    write!(f, "\"")
}

/// Writes the beginning of the query of a column in an entity's row, up to the entity's id.
pub(crate) fn write_entity_query<W: fmt::Write>(
    f: &mut fmt::Formatter<W>,
    entity_type: &EntityType,
    path: &[RcStr],
) -> fmt::Result {
    write!(f, "(SELECT ")?;
    write_path(f, OTHER, path)?;
    write!(
        f,
        " FROM \"{entity_type}\" AS \"{OTHER}\" WHERE \"{OTHER}\".\"eid\" = "
    )
}

/// Writes the parameter of a path: the variable, and each attribute behind `$`, which no name of a parameter's attribute has.
pub(crate) fn write_parameter<W: fmt::Write>(
    f: &mut fmt::Formatter<W>,
    variable: Var,
    path: &[RcStr],
) -> fmt::Result {
    let name = match variable {
        Var::Principal => "principal",
        Var::Action => "action",
        Var::Resource => "resource",
        Var::Context => "context",
    };
    write!(f, ":{name}")?;
    for attribute in path {
        write!(f, "${}", attribute.as_str())?;
    }
    Ok(())
}

/// Writes GLOB and its pattern, in which `*`, `?` and `[` stand for themselves within brackets.
pub(crate) fn write_pattern<W: fmt::Write>(
    f: &mut fmt::Formatter<W>,
    pattern: &[PatternElem],
) -> fmt::Result {
    write!(f, " GLOB '")?;
    for elem in pattern {
        match elem {
            PatternElem::Wildcard => write!(f, "*")?,
            PatternElem::Char('\'') => write!(f, "''")?,
            PatternElem::Char(c) if *c == '*' || *c == '?' || *c == '[' => write!(f, "[{c}]")?,
            PatternElem::Char(c) => write!(f, "{c}")?,
        }
    }
    write!(f, "'")
}

/// Writes IN and a list of texts. No text is less than the empty one, and NULL stays NULL: of an empty list SQLite says FALSE even
/// beside NULL.
pub(crate) fn write_texts<W: fmt::Write>(
    f: &mut fmt::Formatter<W>,
    texts: &[RcStr],
) -> fmt::Result {
    if texts.is_empty() {
        return write!(f, " < ''");
    }
    let mut mark = " IN (";
    for text in texts {
        write!(f, "{mark}")?;
        write_quoted(f, '\'', text)?;
        mark = ", ";
    }
    write!(f, ")")
}

/// Writes the test whether an id before it is one of the ids of the entities of a type, up to another test.
pub(crate) fn write_ids_of_type<W: fmt::Write>(
    f: &mut fmt::Formatter<W>,
    entity_type: &EntityType,
    entities: &[EntityUID],
) -> fmt::Result {
    let mut mark = "";
    write!(f, " IN (")?;
    for entity in entities {
        if entity.entity_type == *entity_type {
            write!(f, "{mark}")?;
            write_quoted(f, '\'', &entity.eid)?;
            mark = ", ";
        }
    }
    write!(f, ") OR ")
}

/// Writes the beginning of a query for an ancestor of an entity of this type, up to the entity's id.
pub(crate) fn write_ancestor_query<W: fmt::Write>(
    f: &mut fmt::Formatter<W>,
    entity_type: &EntityType,
) -> fmt::Result {
    write!(f, "EXISTS (SELECT 1 FROM \"{ANCESTORS}\" WHERE ")?;
    write!(f, "\"{ANCESTORS}\".\"type\" = '{entity_type}' AND ")?;
    write!(f, "\"{ANCESTORS}\".\"eid\" = ")
}

/// Writes the condition that the ancestor is of this type and has an id, up to the id.
pub(crate) fn write_ancestor<W: fmt::Write>(
    f: &mut fmt::Formatter<W>,
    ancestor_type: &EntityType,
) -> fmt::Result {
    write!(
        f,
        " AND \"{ANCESTORS}\".\"ancestor_type\" = '{ancestor_type}' AND "
    )?;
    write!(f, "\"{ANCESTORS}\".\"ancestor_eid\" = ")
}

/// Writes the condition that the ancestor is one of these entities. They are rows of a table, because SQLite seeks each id of a
/// list by itself, and a chain of OR for 1,000 entities is too high. The query and its case end here.
pub(crate) fn write_ancestor_among<W: fmt::Write>(
    f: &mut fmt::Formatter<W>,
    entities: &[EntityUID],
) -> fmt::Result {
    write!(f, " AND (\"{ANCESTORS}\".\"ancestor_type\", ")?;
    write!(f, "\"{ANCESTORS}\".\"ancestor_eid\") IN (")?;
    let mut mark = "VALUES ";
    for entity in entities {
        write!(f, "{mark}('{}', ", entity.entity_type)?;
        write_quoted(f, '\'', &entity.eid)?;
        write!(f, ")")?;
        mark = ", ";
    }
    write!(f, ")) END")
}
