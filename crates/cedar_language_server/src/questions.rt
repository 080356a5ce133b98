// Questions of an editor about a document.
use crate::messages::Call;
use crate::replies::Refusal;
use crate::workspaces::{Document, Workspace};
use crate::written::{Origin, Written};
use cedar_editor::checks::place_of;
use cedar_editor::completions::completion_at;
use cedar_editor::definitions::definitions_at;
use cedar_editor::diagnostics::of_finding;
use cedar_editor::documents::PlacedPolicy;
use cedar_editor::fixes::{Fix, fix_of};
use cedar_editor::hovers::hover_at;
use cedar_editor::schemas::SchemaText;
use cedar_editor::symbols::policy_symbols;
use cedar_findings::findings::{Finding, Severity};
use cedar_types::base::{ArgumentCheck, Loc};
use std::alloc::AllocError;
use std::slice;

/// The outcome of a question: a value of JSON, or a refusal.
pub type Outcome = Result<Result<String, Refusal>, AllocError>;

/// A question that an editor may ask.
#[derive(Clone, Copy, PartialEq, Eq)]
pub enum Question {
    Hover,
    Completion,
    Definition,
    Symbols,
    /// The lines that an editor may fold: those of each symbol.
    Folds,
    Fixes,
}

impl Question {
    /// The question of this method, if it is one.
    pub fn of_method(method: &str) -> Option<Question> {
        match method {
            "textDocument/hover" => Some(Question::Hover),
            "textDocument/completion" => Some(Question::Completion),
            "textDocument/definition" => Some(Question::Definition),
            "textDocument/documentSymbol" => Some(Question::Symbols),
            "textDocument/foldingRange" => Some(Question::Folds),
            "textDocument/codeAction" => Some(Question::Fixes),
            _ => None,
        }
    }
}

/// A policy of a document, with the byte that is asked about.
#[derive(Drop)]
struct Asked<'a, 'e, C: ArgumentCheck> {
    uri: &'a str,
    document: &'a Document<'e, C>,
    placed: &'a PlacedPolicy,
    /// The byte that is asked about, in the policy's own text.
    byte: usize,
}

impl<'a, C: ArgumentCheck> Asked<'a, '_, C> {
    fn origin(&self) -> Origin<'a> {
        Origin {
            uri: self.uri,
            text: self.document.policies.text(),
            lines: self.document.policies.lines(),
        }
    }
}

impl<'e, C: ArgumentCheck> Workspace<'e, C> {
    /// The outcome of a question about a document of policies or about a schema.
    pub fn answer(&self, question: Question, call: Call<'_>) -> Outcome {
        let Some(uri) = call.uri() else {
            return Ok(Err(Refusal::BadParameters));
        };
        let Some(document) = self.document(uri) else {
            return self.answer_of_schema(question, uri, call);
        };
        if matches!(question, Question::Symbols | Question::Folds) {
            return self.symbols(question, uri, document);
        }
        let at = match question {
            Question::Fixes => call.range().map(|range| range.start),
            _ => call.position(),
        };
        let Some(at) = at else {
            return Ok(Err(Refusal::BadParameters));
        };
        let byte = document.policies.byte(at);
        let Some(placed) = document.policies.policy_at(byte) else {
            return self.nothing(question);
        };
        let asked = Asked {
            uri,
            document,
            placed,
            byte: byte.saturating_sub(placed.start),
        };
        match question {
            Question::Hover => self.hover(&asked),
            Question::Completion => self.completion(&asked),
            Question::Definition => self.definition(&asked),
            Question::Symbols | Question::Folds | Question::Fixes => {
                let end = call.range().map(|range| document.policies.byte(range.end));
                self.fixes(&asked, byte, end.unwrap_or(byte))
            }
        }
    }

    /// The answer if nothing is known: `null` to a hover, and an empty list to the other questions.
    pub fn nothing(&self, question: Question) -> Outcome {
        let nothing = match question {
            Question::Hover => "null",
            Question::Completion | Question::Definition => "[]",
            Question::Symbols | Question::Folds | Question::Fixes => "[]",
        };
        Ok(Ok(String::from_str(self.alloc, nothing)?))
    }

    /// The symbols of a document, or the lines that they fold.
    fn symbols(&self, question: Question, uri: &str, document: &Document<'_, C>) -> Outcome {
        let symbols = policy_symbols(self.alloc, document.policies.policies())?;
        let origin = Origin {
            uri,
            text: document.policies.text(),
            lines: document.policies.lines(),
        };
        let mut written = Written::new(self.alloc);
        if question == Question::Folds {
            written.folds(&origin, symbols.as_slice())?;
        } else {
            written.symbols(&origin, symbols.as_slice())?;
        }
        Ok(Ok(written.out))
    }

    fn hover(&self, asked: &Asked<'_, 'e, C>) -> Outcome {
        let Some(own) = self.declaring_text(asked)? else {
            return self.nothing(Question::Hover);
        };
        let settings = asked.document.policies.judge().settings();
        let policy = asked.placed.policy();
        let found = hover_at(self.alloc, settings.as_ref(), own, policy, asked.byte)?;
        let Some(hover) = found else {
            return self.nothing(Question::Hover);
        };
        let place = asked.placed.place(hover.place);
        let mut written = Written::new(self.alloc);
        written.hover(&asked.origin(), place, hover.text.as_str())?;
        Ok(Ok(written.out))
    }

    /// The text of the schema that declares the part at a byte of a policy, else the first one.
    fn declaring_text(&self, asked: &Asked<'_, 'e, C>) -> Result<Option<&SchemaText>, AllocError> {
        let Some(schema) = self.schema_at(asked.document.schema.as_ref()) else {
            return Ok(None);
        };
        let settings = asked.document.policies.judge().settings();
        let texts = schema.document.texts();
        for own in texts {
            let policy = asked.placed.policy();
            let places = definitions_at(self.alloc, settings.as_ref(), own, policy, asked.byte)?;
            if !places.is_empty() {
                return Ok(Some(own));
            }
        }
        Ok(texts.first())
    }

    fn completion(&self, asked: &Asked<'_, 'e, C>) -> Outcome {
        let Some(settings) = asked.document.policies.judge().settings() else {
            return self.nothing(Question::Completion);
        };
        let found = completion_at(self.alloc, &settings, asked.placed.policy(), asked.byte)?;
        let mut written = Written::new(self.alloc);
        written.completion(self.alloc, &asked.origin(), asked.placed, &found)?;
        Ok(Ok(written.out))
    }

    fn definition(&self, asked: &Asked<'_, 'e, C>) -> Outcome {
        let Some(schema) = self.schema_at(asked.document.schema.as_ref()) else {
            return self.nothing(Question::Definition);
        };
        let mut written = Written::new(self.alloc);
        written.json.begin_list(&mut written.out)?;
        for (path, own) in schema.paths.iter().zip(schema.document.texts()) {
            self.add_definitions(&mut written, asked, path.as_str(), own)?;
        }
        written.json.end_list(&mut written.out)?;
        Ok(Ok(written.out))
    }

    /// Adds the places of the definitions that stand in one file of a schema.
    fn add_definitions(
        &self,
        written: &mut Written,
        asked: &Asked<'_, 'e, C>,
        path: &str,
        own: &SchemaText,
    ) -> Result<(), AllocError> {
        let settings = asked.document.policies.judge().settings();
        let policy = asked.placed.policy();
        let places = definitions_at(self.alloc, settings.as_ref(), own, policy, asked.byte)?;
        let uri = self.uri_of_schema(path)?;
        for place in places {
            let range = own.range(place);
            written.location(uri.as_str(), range)?;
        }
        Ok(())
    }

    /// The fixes of the errors of one policy that touch a range, from one byte of its document to another.
    fn fixes(&self, asked: &Asked<'_, 'e, C>, start: usize, end: usize) -> Outcome {
        let Some(settings) = asked.document.policies.judge().settings() else {
            return self.nothing(Question::Fixes);
        };
        let policy = asked.placed.policy();
        let mut written = Written::new(self.alloc);
        written.json.begin_list(&mut written.out)?;
        if let Some(verdict) = &policy.verdict {
            for finding in &verdict.errors {
                let place = asked.placed.place(place_of(finding));
                if place.end < start || end < place.start {
                    continue;
                }
                if let Some(fix) = fix_of(self.alloc, &settings, policy, finding)? {
                    self.add_fix(&mut written, asked, finding, &fix)?;
                }
            }
        }
        written.json.end_list(&mut written.out)?;
        Ok(Ok(written.out))
    }

    /// Adds the fix of a finding.
    fn add_fix(
        &self,
        written: &mut Written,
        asked: &Asked<'_, 'e, C>,
        finding: &Finding,
        fix: &Fix,
    ) -> Result<(), AllocError> {
        let origin = asked.origin();
        let told = of_finding(self.alloc, asked.placed, Severity::Error, finding)?;
        written.begin_fix(fix.title.as_str())?;
        written.diagnostics(&origin, slice::from_ref(&told))?;
        let place: Loc = asked.placed.place(fix.place);
        written.end_fix(&origin, place, fix.text.as_str())
    }
}

/// The origin of a text of a schema.
pub fn origin_of<'a>(uri: &'a str, own: &'a SchemaText) -> Origin<'a> {
    Origin {
        uri,
        text: own.text.as_str(),
        lines: &own.lines,
    }
}
