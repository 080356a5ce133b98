//! Schemas while they are written: their declarations, their faults, and the validator by the last text without a fault.
ghost use Rattle.std.specs.Prelude.{◌≡◌, false, true, is_some, OnErr, OnOk};

use crate::lines::{Lines, Range};
use crate::outlines::{Declared, outline};
use cedar_findings::faults::TextFault;
use cedar_findings::schema_texts::SchemaTexts;
use cedar_findings::syntaxes::Syntax;
use cedar_typechecker::rbac::Validator;
use cedar_types::base::{ArgumentCheck, ExtensionSchemas, Loc, ValidatorSchema};
use cedar_verdicts::schemas::{SchemaFault, json_schema_or_faults, schema_or_faults};
use std::alloc::{AllocError, Global};
use std::rc::Rc;

/// The message for a schema in JSON that is not the only file of the schema.
const NOT_ALONE: &str = "a schema in JSON has to be the only file of the schema";

/// The text of a file of a schema.
#[derive(Clone, Copy)]
pub struct SchemaSource<'a> {
    pub syntax: Syntax,
    pub text: &'a str,
}

/// The text of a file of a schema, with its declarations and its faults. A schema in JSON has no declarations here.
#[derive(Drop)]
pub struct SchemaText {
    pub text: String,
    pub lines: Lines,
    pub declared: Vec<Declared>,
    pub faults: Vec<TextFault>,
}

impl SchemaText {
    /// The range of a place of the text.
    pub fn range(&self, place: Loc) -> Range {
        self.lines.range(self.text.as_str(), place)
    }
}

/// A schema while it is written: the texts of its files, which are read as one. Documents share its validator.
#[derive(Drop)]
pub struct SchemaDocument<'e, C> {
    texts: Vec<SchemaText>,
    has_fault: bool,
    validator: Option<Rc<Validator<'e, C>>>,
}

impl<'e, C: ArgumentCheck> SchemaDocument<'e, C> {
    /// A schema of one text, in this syntax. If memory is refused, the answer is an `AllocError`.
    pub fn new(
        alloc: Global,
        extensions: &'e ExtensionSchemas<C>,
        syntax: Syntax,
        text: &str,
    ) -> Result<SchemaDocument<'e, C>, AllocError> {
        SchemaDocument::of_texts(alloc, extensions, &[SchemaSource { syntax, text }])
    }

    /// A schema of these texts. If memory is refused, the answer is an `AllocError`.
    pub fn of_texts(
        alloc: Global,
        extensions: &'e ExtensionSchemas<C>,
        sources: &[SchemaSource<'_>],
    ) -> Result<SchemaDocument<'e, C>, AllocError> {
        let mut schema = SchemaDocument {
            texts: Vec::new(alloc),
            has_fault: false,
            validator: None,
        };
        schema.replace(alloc, extensions, sources)?;
        Ok(schema)
    }

    /// The texts of the schema, with their declarations and their faults.
    pub fn texts(&self) -> &[SchemaText] {
        self.texts.as_slice()
    }

    /// Whether the texts have a fault, so that they are no schema.
    pub fn has_fault(&self) -> bool {
        self.has_fault
    }

    /// The validator by the last texts without a fault, if there were some.
    pub fn validator(&self) -> Option<&Rc<Validator<'e, C>>> {
        self.validator.as_ref()
    }

    /// Replaces all texts. If the new texts have a fault, the validator by the last ones without a fault stays (clause `last`),
    /// else there is a validator (clause `good`). If memory is refused, the answer is an `AllocError`, and nothing has changed
    /// (clause `kept`).
    pub fn replace(
        &mut self,
        alloc: Global,
        extensions: &'e ExtensionSchemas<C>,
        sources: &[SchemaSource<'_>],
    ) -> Result<(), AllocError>
        ensures last { OnOk result (self.new.has_fault ≡ true
            → self.new.validator ≡ self.old.validator) }
        ensures good { OnOk result (self.new.has_fault ≡ false
            → is_some self.new.validator ≡ true) }
        ensures kept { OnErr result (self.new ≡ self.old) }
    {
        let mut texts = Vec::with_capacity(alloc, sources.len())?;
        for source in sources {
            texts.push(schema_text(alloc, *source)?)?;
        }
        match read_schema(alloc, sources)? {
            Ok(schema) => {
                let validator = Rc::new(alloc, Validator::new(schema, extensions))?;
                self.validator = Some(validator);
                self.has_fault = false;
            }
            Err(faults) => {
                add_faults(faults, &mut texts)?;
                self.has_fault = true;
            }
        }
        self.texts = texts;
        Ok(())
    }
}

/// A text with its lines and its declarations, and without its faults.
fn schema_text(alloc: Global, source: SchemaSource<'_>) -> Result<SchemaText, AllocError> {
    let declared = match source.syntax {
        Syntax::Cedar => outline(alloc, source.text)?,
        Syntax::Json => Vec::new(alloc),
    };
    Ok(SchemaText {
        text: String::from_str(alloc, source.text)?,
        lines: Lines::new(alloc, source.text)?,
        declared,
        faults: Vec::new(alloc),
    })
}

/// Adds each fault to the text that it is in.
fn add_faults(faults: Vec<SchemaFault>, texts: &mut Vec<SchemaText>) -> Result<(), AllocError> {
    for SchemaFault { number, fault } in faults {
        if let Some(text) = texts.get_mut(number) {
            text.faults.push(fault)?;
        }
    }
    Ok(())
}

/// The schema that texts declare together, or its faults. A text of JSON must be the only one.
fn read_schema(
    alloc: Global,
    sources: &[SchemaSource<'_>],
) -> Result<Result<ValidatorSchema, Vec<SchemaFault>>, AllocError> {
    let mut texts = SchemaTexts::new(alloc);
    for (number, source) in sources.iter().enumerate() {
        if source.syntax == Syntax::Cedar {
            texts.add(source.text)?;
        } else if sources.len() == 1 {
            return json_schema(alloc, source.text);
        } else {
            return Ok(Err(not_alone(alloc, number)?));
        }
    }
    schema_or_faults(alloc, &texts)
}

/// The schema of a text of JSON, or its faults.
fn json_schema(
    alloc: Global,
    text: &str,
) -> Result<Result<ValidatorSchema, Vec<SchemaFault>>, AllocError> {
    let own = match json_schema_or_faults(alloc, text)? {
        Ok(schema) => return Ok(Ok(schema)),
        Err(own) => own,
    };
    let mut faults = Vec::new(alloc);
    for fault in own {
        faults.push(SchemaFault { number: 0, fault })?;
    }
    Ok(Err(faults))
}

/// The fault of a text of JSON that is not the only one.
fn not_alone(alloc: Global, number: usize) -> Result<Vec<SchemaFault>, AllocError> {
    let fault = TextFault {
        place: Loc { start: 0, end: 0 },
        text: String::from_str(alloc, NOT_ALONE)?,
    };
    let mut faults = Vec::new(alloc);
    faults.push(SchemaFault { number, fault })?;
    Ok(faults)
}
