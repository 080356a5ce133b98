// Values of the protocol, written as JSON for the editor.
use cedar_editor::diagnostics::Diagnostic;
use cedar_editor::lines::{Lines, Position, Range};
use cedar_editor::outlines::DeclaredKind;
use cedar_editor::symbols::{Symbol, SymbolKind};
use cedar_editor::walks::Walk;
use cedar_findings::findings::Severity;
use cedar_findings::json::JsonWriter;
use cedar_types::base::Loc;
use std::alloc::{AllocError, Global};

/// The protocol's number for the severity of a note.
const INFORMATION: u64 = 3;

/// The document that is written about: its URI, its text, and the lines of the text.
#[derive(Clone, Copy)]
pub struct Origin<'a> {
    pub uri: &'a str,
    pub text: &'a str,
    pub lines: &'a Lines,
}

impl Origin<'_> {
    /// The range of a place of the document.
    pub fn range(&self, place: Loc) -> Range {
        self.lines.range(self.text, place)
    }
}

impl<'a> Origin<'a> {
    /// A walk over the positions of the document.
    pub fn walk(self) -> Walk<'a> {
        Walk::new(self.lines, self.text)
    }
}

/// A writer of JSON values, one behind another, into one text.
#[derive(Drop)]
pub struct Written {
    pub out: String,
    pub json: JsonWriter,
}

impl Written {
    /// A writer that has written nothing yet.
    pub fn new(alloc: Global) -> Written {
        Written {
            out: String::new(alloc),
            json: JsonWriter::new(),
        }
    }

    /// Adds a range at a key.
    pub fn range_at(&mut self, key: &str, range: Range) -> Result<(), AllocError> {
        self.json.key(&mut self.out, key)?;
        self.json.begin_object(&mut self.out)?;
        self.position_at("start", range.start)?;
        self.position_at("end", range.end)?;
        self.json.end_object(&mut self.out)
    }

    fn position_at(&mut self, key: &str, position: Position) -> Result<(), AllocError> {
        let Position { line, unit } = position;
        self.json.key(&mut self.out, key)?;
        self.json.begin_object(&mut self.out)?;
        self.json.number_at(&mut self.out, "line", line as u64)?;
        self.json
            .number_at(&mut self.out, "character", unit as u64)?;
        self.json.end_object(&mut self.out)
    }

    /// Adds a range of a document as an object.
    pub fn location(&mut self, uri: &str, range: Range) -> Result<(), AllocError> {
        self.json.begin_object(&mut self.out)?;
        self.json.text_at(&mut self.out, "uri", uri)?;
        self.range_at("range", range)?;
        self.json.end_object(&mut self.out)
    }

    /// Begins the notification of a document's diagnostics, up to their list.
    pub fn begin_published(&mut self, uri: &str, version: Option<u64>) -> Result<(), AllocError> {
        self.json.begin_object(&mut self.out)?;
        self.json.text_at(&mut self.out, "jsonrpc", "2.0")?;
        self.json
            .text_at(&mut self.out, "method", "textDocument/publishDiagnostics")?;
        self.json.key(&mut self.out, "params")?;
        self.json.begin_object(&mut self.out)?;
        self.json.text_at(&mut self.out, "uri", uri)?;
        if let Some(version) = version {
            self.json.number_at(&mut self.out, "version", version)?;
        }
        self.json.key(&mut self.out, "diagnostics")?;
        self.json.begin_list(&mut self.out)
    }

    /// Ends the list of diagnostics, and the notification.
    pub fn end_published(&mut self) -> Result<(), AllocError> {
        self.json.end_list(&mut self.out)?;
        self.json.end_object(&mut self.out)?;
        self.json.end_object(&mut self.out)
    }

    /// Adds a note at the beginning of a document, with the severity of information.
    pub fn note(&mut self, origin: &Origin<'_>, note: &str) -> Result<(), AllocError> {
        let nowhere = Loc { start: 0, end: 0 };
        self.json.begin_object(&mut self.out)?;
        self.range_at("range", origin.range(nowhere))?;
        self.json.number_at(&mut self.out, "severity", INFORMATION)?;
        self.json.text_at(&mut self.out, "source", "cedar")?;
        self.json.text_at(&mut self.out, "code", "file")?;
        self.json.text_at(&mut self.out, "message", note)?;
        self.json.end_object(&mut self.out)
    }

    /// Adds diagnostics, each at its place. They come in the order of the text, and so do the places of the others.
    pub fn diagnostics(
        &mut self,
        origin: &Origin<'_>,
        told: &[Diagnostic],
    ) -> Result<(), AllocError> {
        let mut own = origin.walk();
        let mut others = origin.walk();
        for it in told {
            let range = own.range(it.place);
            let other = match it.other {
                Some(place) => Some(others.range(place)),
                None => None,
            };
            self.diagnostic(origin.uri, range, it, other)?;
        }
        Ok(())
    }

    /// Adds a diagnostic at a range, with the range that it is also about.
    fn diagnostic(
        &mut self,
        uri: &str,
        range: Range,
        told: &Diagnostic,
        other: Option<Range>,
    ) -> Result<(), AllocError> {
        self.json.begin_object(&mut self.out)?;
        self.range_at("range", range)?;
        let severity = severity_number(told.severity);
        self.json.number_at(&mut self.out, "severity", severity)?;
        self.json.text_at(&mut self.out, "source", "cedar")?;
        self.json.text_at(&mut self.out, "code", told.code.text())?;
        self.json
            .text_at(&mut self.out, "message", told.message.as_str())?;
        if let Some(range) = other {
            self.json.key(&mut self.out, "relatedInformation")?;
            self.json.begin_list(&mut self.out)?;
            self.json.begin_object(&mut self.out)?;
            self.json.key(&mut self.out, "location")?;
            self.location(uri, range)?;
            self.json
                .text_at(&mut self.out, "message", "the other policy")?;
            self.json.end_object(&mut self.out)?;
            self.json.end_list(&mut self.out)?;
        }
        self.json.end_object(&mut self.out)
    }

    /// Adds a text in Markdown at the range of a place.
    pub fn hover(&mut self, origin: &Origin<'_>, place: Loc, text: &str) -> Result<(), AllocError> {
        self.json.begin_object(&mut self.out)?;
        self.json.key(&mut self.out, "contents")?;
        self.json.begin_object(&mut self.out)?;
        self.json.text_at(&mut self.out, "kind", "markdown")?;
        self.json.text_at(&mut self.out, "value", text)?;
        self.json.end_object(&mut self.out)?;
        self.range_at("range", origin.range(place))?;
        self.json.end_object(&mut self.out)
    }

    /// Adds an edit at a key.
    pub fn edit_at(&mut self, key: &str, range: Range, text: &str) -> Result<(), AllocError> {
        self.json.key(&mut self.out, key)?;
        self.edit(range, text)
    }

    /// Adds an edit: a text that replaces a range.
    pub fn edit(&mut self, range: Range, text: &str) -> Result<(), AllocError> {
        self.json.begin_object(&mut self.out)?;
        self.range_at("range", range)?;
        self.json.text_at(&mut self.out, "newText", text)?;
        self.json.end_object(&mut self.out)
    }

    /// Begins a fix, up to the list of the diagnostics that it mends.
    pub fn begin_fix(&mut self, title: &str) -> Result<(), AllocError> {
        self.json.begin_object(&mut self.out)?;
        self.json.text_at(&mut self.out, "title", title)?;
        self.json.text_at(&mut self.out, "kind", "quickfix")?;
        self.json.key(&mut self.out, "isPreferred")?;
        self.json.boolean(&mut self.out, true)?;
        self.json.key(&mut self.out, "diagnostics")?;
        self.json.begin_list(&mut self.out)
    }

    /// Ends a fix, which puts a text into a place of a document.
    pub fn end_fix(
        &mut self,
        origin: &Origin<'_>,
        place: Loc,
        text: &str,
    ) -> Result<(), AllocError> {
        self.json.end_list(&mut self.out)?;
        self.json.key(&mut self.out, "edit")?;
        self.json.begin_object(&mut self.out)?;
        self.json.key(&mut self.out, "changes")?;
        self.json.begin_object(&mut self.out)?;
        self.json.key(&mut self.out, origin.uri)?;
        self.json.begin_list(&mut self.out)?;
        self.edit(origin.range(place), text)?;
        self.json.end_list(&mut self.out)?;
        self.json.end_object(&mut self.out)?;
        self.json.end_object(&mut self.out)?;
        self.json.end_object(&mut self.out)
    }

    /// Adds the lines that an editor may fold: those of each symbol that stands on several.
    pub fn folds(&mut self, origin: &Origin<'_>, symbols: &[Symbol]) -> Result<(), AllocError> {
        let mut walk = origin.walk();
        self.json.begin_list(&mut self.out)?;
        for symbol in symbols {
            let Range { start, end } = walk.range(symbol.whole);
            if start.line < end.line {
                self.json.begin_object(&mut self.out)?;
                let (first, last) = (start.line as u64, end.line as u64);
                self.json.number_at(&mut self.out, "startLine", first)?;
                self.json.number_at(&mut self.out, "endLine", last)?;
                self.json.end_object(&mut self.out)?;
            }
        }
        self.json.end_list(&mut self.out)
    }

    /// Adds the symbols of a document.
    pub fn symbols(&mut self, origin: &Origin<'_>, symbols: &[Symbol]) -> Result<(), AllocError> {
        let mut walk = origin.walk();
        self.json.begin_list(&mut self.out)?;
        for symbol in symbols {
            let name = symbol.name.as_str();
            let shown = if name.is_empty() { "(no id)" } else { name };
            self.json.begin_object(&mut self.out)?;
            self.json.text_at(&mut self.out, "name", shown)?;
            self.json
                .number_at(&mut self.out, "kind", symbol_number(symbol.kind))?;
            self.range_at("range", walk.range(symbol.whole))?;
            self.range_at("selectionRange", walk.range(symbol.own))?;
            self.json.end_object(&mut self.out)?;
        }
        self.json.end_list(&mut self.out)
    }
}

fn severity_number(severity: Severity) -> u64 {
    match severity {
        Severity::Error => 1,
        Severity::Warning => 2,
    }
}

/// The protocol's number for a kind of symbol.
fn symbol_number(kind: SymbolKind) -> u64 {
    match kind {
        SymbolKind::Declared(DeclaredKind::EntityType) => 5,
        SymbolKind::Policy => 12,
        SymbolKind::Declared(DeclaredKind::CommonType) => 23,
        SymbolKind::Declared(DeclaredKind::Action) => 24,
    }
}
