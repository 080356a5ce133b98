// Notifications of an editor: documents that are opened, changed, saved and closed, files that change, and settings.
use crate::messages::{Call, is_true_at, range_of, text_at};
use crate::published::{
    REGISTRATION, published, published_nothing, published_schema, shown_message,
};
use crate::schema_files::schema_syntax;
use crate::uris::path_of;
use crate::workspaces::Workspace;
use cedar_editor::edits::Edit;
use cedar_types::base::ArgumentCheck;
use serde_json::Value;
use std::alloc::{AllocError, Global};
use std::rt::Files;

/// The key of the server's settings among those of the editor.
const SECTION: &str = "cedar";

impl<C: ArgumentCheck> Workspace<'_, C> {
    /// Takes what the editor says at the beginning: its folder, whether it watches files, and its options.
    pub fn begin(&mut self, call: Call<'_>) -> Result<(), AllocError> {
        let root = match text_at(call.about, "rootUri") {
            Some(uri) => path_of(self.alloc, uri)?,
            None => None,
        };
        let watched = call
            .member("capabilities")
            .and_then(|it| it.get("workspace"))
            .and_then(|it| it.get("didChangeWatchedFiles"));
        self.watches = is_true_at(watched, "dynamicRegistration");
        self.root = root;
        if let Some(options) = call.member("initializationOptions") {
            self.take_options(options)?;
            self.first_options = self.options.copy(self.alloc)?;
        }
        Ok(())
    }

    /// Takes a notification. The messages that it leads to wait until `tell`.
    pub fn note<R: Files + AllocGlobal + Clone + Drop>(
        &mut self,
        rt: &R,
        call: Call<'_>,
    ) -> Result<(), AllocError> {
        match call.method {
            "initialized" => self.note_begun(rt),
            "workspace/didChangeWatchedFiles" => {
                self.is_stale = true;
                Ok(())
            }
            "workspace/didChangeConfiguration" => self.note_options(rt, call),
            _ => self.note_document(call),
        }
    }

    /// Asks an editor that watches files to watch schemas, and says which schema of the options cannot be read.
    fn note_begun<R: Files + AllocGlobal + Clone + Drop>(
        &mut self,
        rt: &R,
    ) -> Result<(), AllocError> {
        if self.watches {
            self.waiting
                .push(String::from_str(self.alloc, REGISTRATION)?)?;
        }
        self.say_unread(rt)
    }

    /// Takes the settings of the editor. A setting that it does not say is as at the beginning.
    fn note_options<R: Files + AllocGlobal + Clone + Drop>(
        &mut self,
        rt: &R,
        call: Call<'_>,
    ) -> Result<(), AllocError> {
        let Some(settings) = call.member("settings") else {
            return Ok(());
        };
        self.is_stale = true;
        self.options = self.first_options.copy(self.alloc)?;
        self.take_options(settings.get(SECTION).unwrap_or(settings))?;
        self.say_unread(rt)
    }

    /// Takes options, and says which of them cannot be read.
    fn take_options(&mut self, options: &Value) -> Result<(), AllocError> {
        let messages = self.options.take(self.alloc, self.root.as_ref(), options)?;
        for message in messages {
            self.waiting.push(shown_message(self.alloc, message)?)?;
        }
        Ok(())
    }

    /// Says which files of the schema that the options name cannot be read.
    fn say_unread<R: Files + AllocGlobal + Clone + Drop>(
        &mut self,
        rt: &R,
    ) -> Result<(), AllocError> {
        let Some(home) = self.named_home(rt)? else {
            return Ok(());
        };
        for path in home.paths {
            if self.text_at(rt, path.as_str())?.is_none() {
                let message = format!(in self.alloc;
                    "the schema of the settings cannot be read: {path}"
                )?;
                self.waiting
                    .push(shown_message(self.alloc, message.as_str())?)?;
            }
        }
        Ok(())
    }

    /// Takes a notification about a document.
    fn note_document(&mut self, call: Call<'_>) -> Result<(), AllocError> {
        let Some(uri) = call.uri() else {
            return Ok(());
        };
        let is_schema = schema_syntax(uri).is_some();
        match call.method {
            "textDocument/didOpen" => self.note_opened(uri, call),
            "textDocument/didChange" => {
                let edits = edits_in(self.alloc, call)?;
                if is_schema {
                    self.edit_schema(uri, edits.as_slice(), call.version())
                } else {
                    self.edit(uri, edits.as_slice(), call.version())
                }
            }
            "textDocument/didSave" => {
                self.is_stale = true;
                Ok(())
            }
            "textDocument/didClose" => self.note_closed(uri, is_schema),
            _ => Ok(()),
        }
    }

    fn note_opened(&mut self, uri: &str, call: Call<'_>) -> Result<(), AllocError> {
        let Some(text) = text_at(call.document(), "text") else {
            return Ok(());
        };
        if schema_syntax(uri).is_some() {
            self.open_schema(uri, text, call.version())
        } else {
            self.open(uri, text, call.version())
        }
    }

    fn note_closed(&mut self, uri: &str, is_schema: bool) -> Result<(), AllocError> {
        self.waiting.push(published_nothing(self.alloc, uri)?)?;
        if is_schema {
            return self.close_schema(uri);
        }
        self.close(uri);
        Ok(())
    }

    /// Takes all changes that wait. The answer is the messages that wait, and the diagnostics of each document that the editor
    /// was not told as they are now.
    pub fn tell<R: Files + AllocGlobal + Clone + Drop>(
        &mut self,
        rt: &R,
    ) -> Result<Vec<String>, AllocError> {
        self.settle(rt)?;
        let mut told = Vec::new(self.alloc);
        for message in &self.waiting {
            told.push(message.clone()?)?;
        }
        for (path, open) in self.open_schemas.iter() {
            if open.is_shown {
                continue;
            }
            if let Some(text) = self.text_in_schema(path.as_str(), open) {
                told.push(published_schema(self.alloc, open, text)?)?;
            }
        }
        for (uri, document) in self.documents.iter() {
            if !document.is_shown {
                let schema = self.schema_of(document);
                told.push(published(self.alloc, uri.as_str(), document, schema)?)?;
            }
        }
        self.waiting.clear();
        for open in self.open_schemas.values_mut() {
            open.is_shown = true;
        }
        for document in self.documents.values_mut() {
            document.is_shown = true;
        }
        Ok(told)
    }
}

/// The edits that a `didChange` tells. One that cannot be read is passed over; one without a range replaces the whole text.
fn edits_in<'a>(alloc: Global, call: Call<'a>) -> Result<Vec<Edit<'a>>, AllocError> {
    let mut edits = Vec::new(alloc);
    let Some(changes) = call.member("contentChanges").and_then(Value::as_array) else {
        return Ok(edits);
    };
    for change in changes {
        if let Some(edit) = edit_in(change) {
            edits.push(edit)?;
        }
    }
    Ok(edits)
}

/// The edit of a change: of the whole text, if the change has no range.
fn edit_in(change: &Value) -> Option<Edit<'_>> {
    let text = text_at(Some(change), "text")?;
    let range = match change.get("range") {
        None => None,
        range => Some(range_of(range)?),
    };
    Some(Edit { range, text })
}
