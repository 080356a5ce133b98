// Tables of entity types.
ghost use Rattle.std.specs.Prelude.{◌≡◌, IfOk, true, [], ◌∷◌, ◌++◌, map, option_map};
ghost use Rattle.cedar_types.specs.Names.{text_of, type_of};
ghost use Rattle.cedar_types.specs.Schemas.Contents.{schema_of};
ghost use Rattle.cedar_types.specs.Types.{TEntity, attributes_of, ty_of};
ghost use Rattle.cedar_types.specs.Types.Lookups.{attributes_in};
ghost use Rattle.cedar_where.specs.Tables.{Adds, column_if, column_type, columns, columns_at, holder_of, left_out, left_out_at, left_out_if, texts_of};
ghost use Rattle.cedar_where.specs.Views.{kind_of};

use crate::columns::column_kind;
use crate::plain::is_plain;
use crate::terms::Kind;
use cedar_types::base::{Attributes, CedarType, EntityType, ValidatorSchema};
use std::alloc::{AllocError, Global};
use std::fmt;
use std::rc::RcStr;

/// The column that holds an entity's own id.
pub(crate) const ID_COLUMN: &str = "eid";

/// The beginning of the names of SQLite's own tables.
const RESERVED: &str = "sqlite_";

/// The kind of the values that a column holds.
#[derive(Clone, Copy, PartialEq, Eq, Debug)]
pub enum ColumnType {
    /// A truth value: 0 or 1.
    Bool,
    /// A whole number of 64 bits.
    Long,
    /// A text.
    Text,
    /// The id of an entity of the attribute's type.
    Entity,
}

/// A column with the path of its attribute. A required column is never NULL.
#[derive(Debug, Drop)]
pub struct Column {
    /// The attributes of the path, with points between.
    pub name: RcStr,
    /// The name of an attribute, or those of records around it and its own.
    pub path: Vec<RcStr>,
    pub column_type: ColumnType,
    pub is_required: bool,
}

/// The table of the entities of a type, a row for each: the column `eid` holds its id, and each
/// other column an attribute.
#[derive(Debug, Drop)]
pub struct Table {
    pub name: String,
    pub columns: Vec<Column>,
    /// The paths of the attributes that have no column: sets, and values of extension types or of
    /// several entity types.
    pub left_out: Vec<Vec<RcStr>>,
}

/// The reason why an entity type has no table.
#[derive(Clone, PartialEq, Eq, Debug, Drop)]
pub enum TableFault {
    /// The name of a column has NUL or a backslash.
    Text(RcStr),
    /// The name of a column equals another's, or `eid`, in all but upper and lower case, which SQL
    /// does not tell apart.
    SameName(RcStr),
    /// The name of the entity type begins with `sqlite_`, in any case: SQLite keeps such names.
    ReservedName,
    /// The name of the entity type equals that of this other in all but upper and lower case.
    SameTable(EntityType),
}

impl fmt::Display for TableFault {
    fn fmt<W: fmt::Write>(&self, f: &mut fmt::Formatter<W>) -> fmt::Result {
        match self {
            TableFault::Text(name) => write!(f, "the name of attribute {name:?} has no column"),
            TableFault::SameName(name) => {
                write!(
                    f,
                    "attribute {name:?} would have the same column as another"
                )
            }
            TableFault::ReservedName => write!(f, "SQLite keeps names that begin with `sqlite_`"),
            TableFault::SameTable(other) => {
                write!(f, "entity type `{other}` would have the same table")
            }
        }
    }
}

/// The columns of a table that is made, and the attributes without one.
#[derive(Drop)]
struct Columns {
    columns: Vec<Column>,
    left_out: Vec<Vec<RcStr>>,
}

impl Table {
    /// The table of the entities of this type, or the reason why there is none. It has a column for
    /// each attribute that is a truth value, a number, a text or an entity of one type, in the
    /// order of their names; an attribute that is a record has a column for each of its attributes.
    /// A column is required if its attribute is, and each record before it (clause `columns`). The
    /// other attributes are left out (clause `left_out`). No clause tells which types have no
    /// table. If memory is refused, the answer is an `AllocError`.
    pub fn of_type(
        alloc: Global,
        schema: &ValidatorSchema,
        entity_type: &EntityType,
    ) -> Result<Result<Table, TableFault>, AllocError>
        ensures columns { IfOk result (λ t. IfOk t (λ table. map holder_of table.columns.items
            ≡ columns (attributes_in (schema_of schema.now)
            (TEntity (type_of entity_type.now ∷ []))) [] true)) }
        ensures left_out { IfOk result (λ t. IfOk t (λ table. map texts_of table.left_out.items
            ≡ left_out (attributes_in (schema_of schema.now)
            (TEntity (type_of entity_type.now ∷ []))) [])) }
    {
        let name = entity_type.to_string(alloc)?;
        if let Some(fault) = name_fault(alloc, schema, entity_type, name.as_str())? {
            return Ok(Err(fault));
        }
        let ty = CedarType::entity_reference(alloc, entity_type, schema)?;
        let attributes = ty.attributes(alloc, schema)?;
        let mut all = Columns {
            columns: Vec::new(alloc),
            left_out: Vec::new(alloc),
        };
        if let Err(fault) = add_columns(alloc, &attributes, &[], true, &mut all)? {
            return Ok(Err(fault));
        }
        let Columns { columns, left_out } = all;
        Ok(Ok(Table {
            name,
            columns,
            left_out,
        }))
    }
}

/// Adds the columns of some attributes behind a path, or finds the reason why there is no table.
#[cycle(columns)]
fn add_columns(
    alloc: Global,
    attributes: &Attributes,
    before: &[RcStr],
    is_required: bool,
    all: &mut Columns,
) -> Result<Result<(), TableFault>, AllocError>
    ensures { IfOk result (λ r. IfOk r (λ u.
        Adds all.old all.new (columns (attributes_of attributes.now) (map text_of before.now)
        is_required) (left_out (attributes_of attributes.now) (map text_of before.now)))) }
{
    for (name, attribute) in attributes.attrs.iter() {
        let path = longer_path(alloc, before, name)?;
        let is_here = is_required && attribute.is_required;
        if let Err(fault) = add_columns_at(alloc, &attribute.attr_type, path, is_here, all)? {
            return Ok(Err(fault));
        }
    }
    Ok(Ok(()))
}

/// Adds the columns for the value at the end of a path.
#[cycle(columns)]
fn add_columns_at(
    alloc: Global,
    ty: &CedarType,
    path: Vec<RcStr>,
    is_required: bool,
    all: &mut Columns,
) -> Result<Result<(), TableFault>, AllocError>
    ensures { IfOk result (λ r. IfOk r (λ u.
        Adds all.old all.new (columns_at (ty_of ty.now) (map text_of path.items) is_required)
        (left_out_at (ty_of ty.now) (map text_of path.items)))) }
{
    match ty {
        CedarType::Record {
            attributes,
            is_open: _open,
        } => add_columns(alloc, attributes, &path, is_required, all),
        CedarType::Never => add_column(alloc, column_kind(ty)?, path, is_required, all),
        CedarType::Bool(_) => add_column(alloc, column_kind(ty)?, path, is_required, all),
        CedarType::Long => add_column(alloc, column_kind(ty)?, path, is_required, all),
        CedarType::String => add_column(alloc, column_kind(ty)?, path, is_required, all),
        CedarType::Set(_) => add_column(alloc, column_kind(ty)?, path, is_required, all),
        CedarType::AnySet => add_column(alloc, column_kind(ty)?, path, is_required, all),
        CedarType::Entity(_) => add_column(alloc, column_kind(ty)?, path, is_required, all),
        CedarType::Extension(_) => add_column(alloc, column_kind(ty)?, path, is_required, all),
    }
}

/// Adds the column for the values of a kind at the end of a path, or leaves the path out.
fn add_column(
    alloc: Global,
    kind: Option<Kind>,
    path: Vec<RcStr>,
    is_required: bool,
    all: &mut Columns,
) -> Result<Result<(), TableFault>, AllocError>
    ensures { IfOk result (λ r. IfOk r (λ u. Adds all.old all.new
        (column_if (map text_of path.items) is_required (option_map kind_of kind))
        (left_out_if (map text_of path.items) (option_map kind_of kind)))) }
{
    let Some(kind) = kind else {
        all.left_out.push(path)?;
        return Ok(Ok(()));
    };
    let name = column_name(alloc, &path)?;
    if !is_plain(&name) {
        return Ok(Err(TableFault::Text(name)));
    }
    if is_taken(&all.columns, &name) {
        return Ok(Err(TableFault::SameName(name)));
    }
    all.columns.push(Column {
        name,
        path,
        column_type: column_type(&kind),
        is_required,
    })?;
    Ok(Ok(()))
}

fn longer_path(alloc: Global, before: &[RcStr], name: &RcStr) -> Result<Vec<RcStr>, AllocError>
    ensures { IfOk result (λ path.
        map text_of path.items ≡ map text_of before.now ++ text_of name.now ∷ []) }
{
    let mut path = Vec::new(alloc);
    for one in before {
        path.push(one.clone()?)?;
    }
    path.push(name.clone()?)?;
    Ok(path)
}

/// The name of the column at the end of a path: its attributes, with points between.
fn column_name(alloc: Global, path: &[RcStr]) -> Result<RcStr, AllocError> {
    let mut name = String::new(alloc);
    let mut mark = "";
    for attribute in path {
        name.push_str(mark)?;
        name.push_str(attribute)?;
        mark = ".";
    }
    RcStr::from_str(alloc, name.as_str())
}

/// The reason why no table can have the name of an entity type, if there is one.
fn name_fault(
    alloc: Global,
    schema: &ValidatorSchema,
    entity_type: &EntityType,
    name: &str,
) -> Result<Option<TableFault>, AllocError> {
    if is_reserved(name) {
        return Ok(Some(TableFault::ReservedName));
    }
    let declared = schema.entity_type_names(alloc)?;
    for other in &declared {
        let text = other.to_string(alloc)?;
        if *other != entity_type && text.as_str().eq_ignore_ascii_case(name) {
            return Ok(Some(TableFault::SameTable(EntityType::clone(other)?)));
        }
    }
    Ok(None)
}

fn is_reserved(name: &str) -> bool {
    match name.get(0..RESERVED.len()) {
        Some(start) => start.eq_ignore_ascii_case(RESERVED),
        None => false,
    }
}

fn column_type(kind: &Kind) -> ColumnType
    ensures { result ≡ column_type (kind_of kind.now) }
{
    match kind {
        Kind::Bool => ColumnType::Bool,
        Kind::Long => ColumnType::Long,
        Kind::Text => ColumnType::Text,
        Kind::Entity(_) => ColumnType::Entity,
    }
}

/// Whether a column has the name, in all but upper and lower case.
fn is_taken(columns: &[Column], name: &str) -> bool {
    name.eq_ignore_ascii_case(ID_COLUMN)
        || columns
            .iter()
            .any(|column| column.name.as_str().eq_ignore_ascii_case(name))
}
