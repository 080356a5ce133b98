//! Schemas of files, or their faults as an output shows them.
use crate::schemas::{SchemaFault, json_schema_or_faults, schema_or_faults};
use cedar_findings::outputs::Output;
use cedar_findings::schema_texts::SchemaTexts;
use cedar_findings::sources::Source;
use cedar_findings::syntaxes::Syntax;
use cedar_types::base::ValidatorSchema;
use std::alloc::{AllocError, Global};

/// The message for a schema in JSON that is not the only file of the schema.
const NOT_ALONE: &str = "a schema in JSON has to be the only file of the schema";

/// The files of a schema, whose texts are taken in one after another.
#[derive(Drop)]
pub struct SchemaFiles<'a> {
    names: &'a [String],
    /// The syntax of all files; `None` if their first characters tell it.
    syntax: Option<Syntax>,
    texts: SchemaTexts,
}

/// The result of taking in a text.
#[derive(Drop)]
pub enum Taken {
    /// A text in Cedar's own syntax. The next file may follow.
    Text,
    /// A text of JSON, which no file follows: its schema, or none if its faults were shown.
    Whole(Option<ValidatorSchema>),
}

impl<'a> SchemaFiles<'a> {
    /// The files of these names, of which no text was taken in yet.
    pub fn new(alloc: Global, names: &'a [String], syntax: Option<Syntax>) -> SchemaFiles<'a> {
        SchemaFiles {
            names,
            syntax,
            texts: SchemaTexts::new(alloc),
        }
    }

    /// Takes in the text of the next file.
    pub fn take_in(
        &mut self,
        alloc: Global,
        source: Source<'_>,
        output: &mut Output,
    ) -> Result<Taken, AllocError> {
        if self.syntax.unwrap_or(Syntax::of(source.text)) == Syntax::Cedar {
            self.texts.add(source.text)?;
            return Ok(Taken::Text);
        }
        if self.names.len() > 1 {
            output.show_missing(alloc, source.name, NOT_ALONE)?;
            return Ok(Taken::Whole(None));
        }
        let faults = match json_schema_or_faults(alloc, source.text)? {
            Ok(schema) => return Ok(Taken::Whole(Some(schema))),
            Err(faults) => faults,
        };
        for fault in &faults {
            output.show_fault(alloc, source, fault)?;
        }
        Ok(Taken::Whole(None))
    }

    /// The schema of all texts, or `None` if their faults were shown.
    pub fn schema(
        self,
        alloc: Global,
        output: &mut Output,
    ) -> Result<Option<ValidatorSchema>, AllocError> {
        let faults = match schema_or_faults(alloc, &self.texts)? {
            Ok(schema) => return Ok(Some(schema)),
            Err(faults) => faults,
        };
        for SchemaFault { number, fault } in &faults {
            let name = match self.names.get(*number) {
                Some(name) => name.as_str(),
                None => "",
            };
            let text = self.texts.text_of(*number);
            output.show_fault(alloc, Source { name, text }, fault)?;
        }
        Ok(None)
    }
}
