// Texts of tables, for SQLite. No contract says that a text has the meaning of its table: that is only tested.
use crate::quotes::{ANCESTORS, write_quoted};
use crate::tables::{Column, ColumnType, ID_COLUMN, Table};
use std::fmt;

impl fmt::Display for Table {
    /// Writes `CREATE TABLE`. A clause chooses the right rows only of this table.
    fn fmt<W: fmt::Write>(&self, f: &mut fmt::Formatter<W>) -> fmt::Result {
        write!(f, "CREATE TABLE ")?;
        write_quoted(f, '"', self.name.as_str())?;
        write!(f, " (\"{ID_COLUMN}\" TEXT NOT NULL PRIMARY KEY")?;
        for column in &self.columns {
            write!(f, ", {column}")?;
        }
        write!(f, ") STRICT")
    }
}

impl fmt::Display for Column {
    fn fmt<W: fmt::Write>(&self, f: &mut fmt::Formatter<W>) -> fmt::Result {
        let name = self.name.as_str();
        write_quoted(f, '"', name)?;
        match self.column_type {
            ColumnType::Bool | ColumnType::Long => write!(f, " INTEGER")?,
            ColumnType::Text | ColumnType::Entity => write!(f, " TEXT")?,
        }
        if self.is_required {
            write!(f, " NOT NULL")?;
        }
        match self.column_type {
            ColumnType::Bool => {
                write!(f, " CHECK (")?;
                write_quoted(f, '"', name)?;
                write!(f, " IN (0, 1))")
            }
            ColumnType::Text => {
                write!(f, " CHECK (instr(")?;
                write_quoted(f, '"', name)?;
                write!(f, ", char(0)) = 0)")
            }
            ColumnType::Long | ColumnType::Entity => Ok(()),
        }
    }
}

/// The table of ancestors as a text: a row for each entity and each of its ancestors, for all entities that a clause names, and
/// for those that an attribute or the parameter may be.
#[derive(Clone, Copy)]
pub struct AncestorTable;

impl fmt::Display for AncestorTable {
    fn fmt<W: fmt::Write>(&self, f: &mut fmt::Formatter<W>) -> fmt::Result {
        write!(
            f,
            "CREATE TABLE \"{ANCESTORS}\" (\"type\" TEXT NOT NULL, \"eid\" TEXT NOT NULL, "
        )?;
        write!(
            f,
            "\"ancestor_type\" TEXT NOT NULL, \"ancestor_eid\" TEXT NOT NULL, "
        )?;
        write!(
            f,
            "PRIMARY KEY (\"type\", \"eid\", \"ancestor_type\", \"ancestor_eid\")) "
        )?;
        write!(f, "STRICT, WITHOUT ROWID")
    }
}
