// Questions of an editor about a schema.
use crate::messages::Call;
use crate::questions::{Outcome, Question, origin_of};
use crate::replies::Refusal;
use crate::workspaces::{OpenSchema, Schema, Workspace, key_of};
use crate::written::Written;
use cedar_editor::schema_names::{declaration_at, schema_hover_at};
use cedar_editor::schemas::SchemaText;
use cedar_editor::symbols::schema_symbols;
use cedar_types::base::ArgumentCheck;

/// An open schema file: the schema of which it is a part, its number there, and its text.
#[derive(Drop)]
struct OpenText<'a, 'e, C: ArgumentCheck> {
    open: &'a OpenSchema,
    schema: &'a Schema<'e, C>,
    number: usize,
    text: &'a SchemaText,
}

impl<'e, C: ArgumentCheck> Workspace<'e, C> {
    /// The outcome of a question about a schema.
    pub fn answer_of_schema(&self, question: Question, uri: &str, call: Call<'_>) -> Outcome {
        let key = key_of(self.alloc, uri)?;
        let Some(own) = self.open_text(key.as_str()) else {
            return Ok(Err(Refusal::BadParameters));
        };
        match question {
            Question::Symbols | Question::Folds => self.schema_parts(question, &own),
            Question::Hover | Question::Definition => {
                let Some(position) = call.position() else {
                    return Ok(Err(Refusal::BadParameters));
                };
                let byte = own.text.lines.byte(own.text.text.as_str(), position);
                if question == Question::Hover {
                    self.schema_hover(&own, byte)
                } else {
                    self.schema_definition(&own, byte)
                }
            }
            Question::Completion | Question::Fixes => self.nothing(question),
        }
    }

    /// The open schema file at a path.
    fn open_text(&self, path: &str) -> Option<OpenText<'_, 'e, C>> {
        let open = self.open_schemas.get(path)?;
        let schema = self.schemas.get(open.schema.as_str())?;
        for (number, text) in schema.document.texts().iter().enumerate() {
            if schema.paths.get(number)?.as_str() == path {
                return Some(OpenText {
                    open,
                    schema,
                    number,
                    text,
                });
            }
        }
        None
    }

    /// The symbols of a schema file, or the lines that they fold.
    fn schema_parts(&self, question: Question, own: &OpenText<'_, 'e, C>) -> Outcome {
        let symbols = schema_symbols(self.alloc, own.text.declared.as_slice())?;
        let origin = origin_of(own.open.uri.as_str(), own.text);
        let mut written = Written::new(self.alloc);
        if question == Question::Folds {
            written.folds(&origin, symbols.as_slice())?;
        } else {
            written.symbols(&origin, symbols.as_slice())?;
        }
        Ok(Ok(written.out))
    }

    fn schema_hover(&self, own: &OpenText<'_, 'e, C>, byte: usize) -> Outcome {
        let texts = own.schema.document.texts();
        let Some(hover) = schema_hover_at(self.alloc, texts, own.number, byte)? else {
            return self.nothing(Question::Hover);
        };
        let origin = origin_of(own.open.uri.as_str(), own.text);
        let mut written = Written::new(self.alloc);
        written.hover(&origin, hover.place, hover.text.as_str())?;
        Ok(Ok(written.out))
    }

    fn schema_definition(&self, own: &OpenText<'_, 'e, C>, byte: usize) -> Outcome {
        let schema = own.schema;
        let texts = schema.document.texts();
        let Some(named) = declaration_at(self.alloc, texts, own.number, byte)? else {
            return self.nothing(Question::Definition);
        };
        let (Some(path), Some(text)) = (schema.paths.get(named.number), texts.get(named.number))
        else {
            return self.nothing(Question::Definition);
        };
        let uri = self.uri_of_schema(path.as_str())?;
        let mut written = Written::new(self.alloc);
        written.json.begin_list(&mut written.out)?;
        written.location(uri.as_str(), text.range(named.declared.place))?;
        written.json.end_list(&mut written.out)?;
        Ok(Ok(written.out))
    }
}
