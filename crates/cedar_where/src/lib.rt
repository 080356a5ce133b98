//! Where-clauses of SQL for typed conditions: a row of a table is chosen exactly if the condition is true for the resource in
//! the row.
//!
//! Proved: the meaning of a clause as a tree (`SqlExpr`, `specs/Sql.antt`). Only tested, against SQLite: the text of a tree and
//! of a table, and that SQLite evaluates the text as the tree says.
#![tactic(auto)]

mod chains;
mod clauses;
mod columns;
mod comparisons;
mod compile;
mod connectives;
mod leaves;
mod membership;
mod operators;
mod plain;
mod quotes;
mod reads;
mod refusals;
mod routes;
mod scopes;
mod sets;
mod sql;
mod table_texts;
mod tables;
mod terms;
mod text_sets;
mod texts;
mod type_tests;

pub use clauses::where_clause;
pub use refusals::{Reason, Refusal};
pub use sets::joined;
pub use sql::SqlExpr;
pub use table_texts::AncestorTable;
pub use tables::{Column, ColumnType, Table, TableFault};
pub use texts::{SqlQuery, SqlText};
