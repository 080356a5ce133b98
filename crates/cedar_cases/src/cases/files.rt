// Lines of a case file.
use crate::cases::columns::{Column, Wanted};
use cedar_reading::{Expected, Fault};
use cedar_types::base::SlotId;
use std::alloc::{AllocError, Global};

/// A piece of a line, and the byte of the line at which it begins.
#[derive(Clone, Copy, Debug)]
pub struct Field<'a> {
    pub text: &'a str,
    pub start: usize,
}

/// A case: a policy or a chain of attributes, and the answers that it wants.
#[derive(Drop)]
pub struct Case<'a> {
    /// The number of the case's line in the file, from 1 on.
    pub number: usize,
    pub line: &'a str,
    /// The whole policy; empty if the case has a scope and a condition.
    pub policy: Field<'a>,
    pub scope: Field<'a>,
    pub condition: Field<'a>,
    /// The slots that are bound, each to an id.
    pub slots: Vec<(SlotId, Field<'a>)>,
    /// The answers that are wanted for the policy.
    pub wanted: Vec<Expectation<'a>>,
    /// The type at which a chain begins.
    pub root: Field<'a>,
    /// The attributes of the chain, with points between them.
    pub attributes: &'a str,
    /// The cost that is wanted for the chain, if there is one.
    pub cost: Option<&'a str>,
}

/// The answer that a column wants for a case.
#[derive(Clone, Copy, Debug)]
pub struct Expectation<'a> {
    /// The name of the column.
    pub column: &'a str,
    pub asked: Wanted,
    pub text: &'a str,
}

/// A case file.
#[derive(Drop)]
pub struct CaseFile<'a> {
    /// The name of the schema's file, which lies beside it.
    pub schema: &'a str,
    /// Whether `<` and `<=` compare addresses.
    pub has_ordered_addresses: bool,
    /// The columns, with their names.
    pub columns: Vec<(&'a str, Column)>,
    text: &'a str,
}

/// A fault of the first two lines of a case file.
#[derive(Clone, Copy, Debug, PartialEq, Eq)]
pub enum FileFault {
    /// The first line does not begin with `schema`, a tab and a name.
    NoSchema,
    /// The first line has a third field other than `ordered ipaddr`.
    NoOrder,
    /// The field of this number in the second line, from 1 on, is no column's name, or no name that may stand beside the first.
    NoColumn(usize),
    /// The field of this number has the name of a column before it.
    SameColumn(usize),
}

/// The third field of the first line, if addresses are ordered.
const ORDERED: &str = "ordered ipaddr";

/// The word of a field that asks nothing.
const NOT_ASKED: &str = "?";

/// The word of a field for a slot that is not bound.
const UNBOUND: &str = "-";

/// The number of lines before the cases.
const HEAD: usize = 2;

impl<'a> Case<'a> {
    /// Adds the content of the column of this name.
    fn add(&mut self, name: &'a str, column: Column, field: Field<'a>) -> Result<(), AllocError> {
        match column {
            Column::About => {}
            Column::Policy => self.policy = field,
            Column::Scope => self.scope = field,
            Column::Condition => self.condition = field,
            Column::Slot(_) if field.text == UNBOUND => {}
            Column::Slot(slot) => self.slots.push((slot, field))?,
            Column::Wanted(_) if field.text == NOT_ASKED => {}
            Column::Wanted(asked) => self.wanted.push(Expectation {
                column: name,
                asked,
                text: field.text,
            })?,
            Column::Root => self.root = field,
            Column::Attributes => self.attributes = field.text,
            Column::Cost if field.text == NOT_ASKED => {}
            Column::Cost => self.cost = Some(field.text),
        }
        Ok(())
    }
}

impl<'a> CaseFile<'a> {
    /// Reads the first two lines: the schema and the columns' order, and the names of the columns.
    pub fn new(
        alloc: Global,
        text: &'a str,
    ) -> Result<Result<CaseFile<'a>, FileFault>, AllocError> {
        let mut lines = text.lines();
        let first = lines.next().unwrap_or("");
        let names = lines.next().unwrap_or("");
        let Some(named) = first.strip_prefix("schema\t") else {
            return Ok(Err(FileFault::NoSchema));
        };
        let (schema, has_ordered_addresses) = match named.split_once('\t') {
            None => (named, false),
            Some((schema, ORDERED)) => (schema, true),
            Some(_) => return Ok(Err(FileFault::NoOrder)),
        };
        let columns = columns_by_name(alloc, names)?;
        Ok(columns.map(|columns| CaseFile {
            schema,
            has_ordered_addresses,
            columns,
            text,
        }))
    }

    /// Whether the cases are chains of attributes.
    pub fn is_about_chains(&self) -> bool {
        self.columns.iter().all(|(_, column)| column.is_of_chain())
    }

    /// The byte at which a field is missing or one too many begins, and the expected field; `None` if the line has a field for
    /// each column.
    pub fn fault_of_fields(&self, line: &str) -> Option<(usize, Fault)> {
        let (wanted, count) = (self.columns.len(), line.split('\t').count());
        if count < wanted {
            return Some((
                line.len(),
                Fault::Expected(Expected::Other("another field")),
            ));
        }
        if count > wanted {
            let end = end_of_fields(line, wanted);
            return Some((end, Fault::Expected(Expected::Other("the end of the line"))));
        }
        None
    }

    /// The cases: the lines that neither are empty nor begin with `#`.
    pub fn cases(&self, alloc: Global) -> Result<Vec<Case<'a>>, AllocError> {
        let mut cases = Vec::new(alloc);
        let mut number: usize = 0;
        for line in self.text.lines() {
            number = number.saturating_add(1);
            if number > HEAD && !line.is_empty() && !line.starts_with('#') {
                cases.push(self.case(alloc, number, line)?)?;
            }
        }
        Ok(cases)
    }

    fn case(&self, alloc: Global, number: usize, line: &'a str) -> Result<Case<'a>, AllocError> {
        let nothing = Field { text: "", start: 0 };
        let mut case = Case {
            number,
            line,
            policy: nothing,
            scope: nothing,
            condition: nothing,
            slots: Vec::new(alloc),
            wanted: Vec::new(alloc),
            root: nothing,
            attributes: "",
            cost: None,
        };
        let mut start: usize = 0;
        for ((name, column), text) in self.columns.iter().zip(line.split('\t')) {
            case.add(name, *column, Field { text, start })?;
            start = start.saturating_add(text.len()).saturating_add(1);
        }
        Ok(case)
    }
}

/// The columns of these names, each with its own.
fn columns_by_name<'a>(
    alloc: Global,
    names: &'a str,
) -> Result<Result<Vec<(&'a str, Column)>, FileFault>, AllocError> {
    let mut columns: Vec<(&'a str, Column)> = Vec::new(alloc);
    for name in names.split('\t') {
        let number = columns.len().saturating_add(1);
        let Some(column) = column_beside(name, columns.as_slice()) else {
            return Ok(Err(FileFault::NoColumn(number)));
        };
        if columns.iter().any(|(before, _)| *before == name) {
            return Ok(Err(FileFault::SameColumn(number)));
        }
        columns.push((name, column))?;
    }
    Ok(Ok(columns))
}

/// The column of this name, if it may stand behind these: a file is about policies, or about chains.
fn column_beside(name: &str, before: &[(&str, Column)]) -> Option<Column> {
    let column = Column::by_name(name)?;
    match before.first() {
        Some((_, first)) if first.is_of_chain() != column.is_of_chain() => None,
        _ => Some(column),
    }
}

/// The byte behind the first `count` fields of a line.
fn end_of_fields(line: &str, count: usize) -> usize {
    let mut next: usize = 0;
    for field in line.split('\t').take(count) {
        next = next.saturating_add(field.len()).saturating_add(1);
    }
    next.saturating_sub(1)
}
