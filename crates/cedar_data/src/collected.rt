// Collected findings of the reading and the checks of data.
ghost use Rattle.std.specs.Prelude.{◌≡◌, true, false, OnOk};
ghost use Rattle.cedar_data.specs.Faults.{has_more_in, has_none, listed_in};

use crate::faults::{DataFault, Problem};
use cedar_extensions::checks::Constructor;
use cedar_json::FormError;
use cedar_types::base::{EntityUID, Loc, ValidatorEntityTypeKind, ValidatorSchema};
use std::alloc::{AllocError, Global};
use std::fmt;
use std::rc::RcStr;

/// The number of mistakes of a text that are listed.
pub const MAX_FAULTS: usize = 100;

/// The mistakes of a text: the first ones found, and whether there are more. They display on one
/// line.
#[derive(Debug, Drop)]
pub struct Faults {
    listed: Vec<DataFault>,
    has_more: bool,
}

impl Faults {
    /// Makes the empty list.
    pub fn new(alloc: Global) -> Faults
        ensures none { has_none result ≡ true }
        ensures no_more { has_more_in result ≡ false }
    {
        Faults {
            listed: Vec::new(alloc),
            has_more: false,
        }
    }

    /// Returns the mistakes, at most `MAX_FAULTS`, in the order of their places once all are found.
    pub fn listed(&self) -> &[DataFault]
        ensures { result.now ≡ listed_in self.now }
    {
        self.listed.as_slice()
    }

    /// Returns whether there are more mistakes than are listed.
    pub fn has_more(&self) -> bool
        ensures { result ≡ has_more_in self.now }
    {
        self.has_more
    }

    /// Returns whether there is no mistake.
    pub fn is_empty(&self) -> bool
        ensures { result ≡ has_none self.now }
    {
        self.listed.is_empty()
    }

    /// Adds a mistake, if there is no other.
    pub(crate) fn add_if_none(&mut self, place: Loc, problem: Problem) -> Result<(), AllocError>
        ensures { OnOk result (has_none self.new ≡ false) }
    {
        if !self.is_empty() {
            return Ok(());
        }
        self.add(place, problem)
    }

    /// Adds a mistake. If memory is refused, nothing changes.
    pub(crate) fn add(&mut self, place: Loc, problem: Problem) -> Result<(), AllocError>
        ensures { OnOk result (has_none self.new ≡ false) }
    {
        if self.listed.len() >= MAX_FAULTS {
            self.has_more = true;
            return Ok(());
        }
        self.listed.push(DataFault { place, problem })?;
        Ok(())
    }

    /// Orders the mistakes by their places.
    pub(crate) fn sort(&mut self) -> Result<(), AllocError>
        ensures { OnOk result (has_none self.new ≡ has_none self.old) }
    {
        self.listed.sort_by_key(|it| (it.place.start, it.place.end))
    }
}

impl fmt::Display for Faults {
    fn fmt<W: fmt::Write>(&self, f: &mut fmt::Formatter<W>) -> fmt::Result {
        for (count, fault) in self.listed.iter().enumerate() {
            let before = if count == 0 { "" } else { "; " };
            write!(
                f,
                "{before}at byte {}: {}",
                fault.place.start, fault.problem
            )?;
        }
        Ok(())
    }
}

/// A text that goes to a constructor of extension values, and its place.
#[derive(Debug, Drop)]
pub struct ExtensionText {
    pub place: Loc,
    pub constructor: Constructor,
    pub text: RcStr,
}

/// The schema that data is read by, and the findings so far.
#[derive(Drop)]
pub(crate) struct Collected<'a> {
    pub(crate) alloc: Global,
    pub(crate) schema: &'a ValidatorSchema,
    pub(crate) faults: Faults,
    pub(crate) texts: Vec<ExtensionText>,
}

impl<'a> Collected<'a> {
    /// Starts without findings.
    pub(crate) fn new(alloc: Global, schema: &'a ValidatorSchema) -> Collected<'a> {
        Collected {
            alloc,
            schema,
            faults: Faults::new(alloc),
            texts: Vec::new(alloc),
        }
    }

    /// Returns the value that was read. It lists a value of another form as a mistake, and returns
    /// `None` for it.
    pub(crate) fn keep<T: Drop>(
        &mut self,
        read: Result<T, FormError>,
    ) -> Result<Option<T>, AllocError> {
        match read {
            Ok(value) => Ok(Some(value)),
            Err(FormError::Memory(error)) => Err(error),
            Err(FormError::At(start, fault)) => {
                self.faults
                    .add(Loc { start, end: start }, Problem::Form(fault))?;
                Ok(None)
            }
        }
    }

    /// Lists an id that its enumerated type does not have.
    pub(crate) fn check_id(&mut self, place: Loc, id: &EntityUID) -> Result<(), AllocError> {
        if is_unknown_id(self.schema, id) {
            self.faults.add(place, Problem::UnknownId(id.clone()?))?;
        }
        Ok(())
    }
}

/// Returns whether the type of an id is enumerated and does not have the id.
fn is_unknown_id(schema: &ValidatorSchema, id: &EntityUID) -> bool {
    let Some(declared) = schema.get_entity_type(&id.entity_type) else {
        return false;
    };
    match &declared.kind {
        ValidatorEntityTypeKind::Enum(ids) => !ids.contains(&id.eid),
        ValidatorEntityTypeKind::Standard(_) => false,
        ValidatorEntityTypeKind::External => false,
    }
}
