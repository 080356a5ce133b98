// Changes that wait: those that came behind one another are taken together, once somebody has to see the outcome.
use crate::workspaces::{Document, Workspace};
use cedar_editor::edits::Edit;
use cedar_editor::lines::Range;
use cedar_types::base::ArgumentCheck;
use std::alloc::{AllocError, Global};
use std::rt::Files;

/// An edit that the editor has told, and that its document does not have yet.
#[derive(Drop)]
pub struct WaitingEdit {
    range: Option<Range>,
    text: String,
}

impl<C: ArgumentCheck> Document<'_, C> {
    /// Keeps the edits of a change until they are taken. If memory is refused, the answer is an `AllocError`, and none is kept.
    pub fn keep(
        &mut self,
        alloc: Global,
        edits: &[Edit<'_>],
        version: Option<u64>,
    ) -> Result<(), AllocError> {
        let mut change = Vec::with_capacity(alloc, edits.len())?;
        for edit in edits {
            let text = String::from_str(alloc, edit.text)?;
            change.push(WaitingEdit {
                range: edit.range,
                text,
            })?;
        }
        self.waiting.push(change)?;
        self.version = version;
        self.is_shown = false;
        Ok(())
    }

    /// Takes all edits that wait, in their order. If memory is refused, the answer is an `AllocError`, and they go on waiting.
    fn take_waiting(&mut self, alloc: Global) -> Result<(), AllocError> {
        if self.waiting.is_empty() {
            return Ok(());
        }
        let edits = edits_of(alloc, &self.waiting)?;
        self.policies.edit(alloc, edits.as_slice())?;
        drop(edits);
        self.waiting.clear();
        Ok(())
    }
}

/// The edits of these changes, in their order.
fn edits_of<'a>(
    alloc: Global,
    changes: &'a Vec<Vec<WaitingEdit>>,
) -> Result<Vec<Edit<'a>>, AllocError> {
    let mut edits = Vec::new(alloc);
    for change in changes {
        for edit in change {
            let text = edit.text.as_str();
            edits.push(Edit {
                range: edit.range,
                text,
            })?;
        }
    }
    Ok(edits)
}

impl<C: ArgumentCheck> Workspace<'_, C> {
    /// Whether no change waits.
    pub fn is_settled(&self) -> bool {
        for document in self.documents.values() {
            if !document.waiting.is_empty() {
                return false;
            }
        }
        !self.is_stale
    }

    /// Takes all changes that wait: what may have changed a schema, and then the edits of policies. If memory is refused, the
    /// answer is an `AllocError`, and those that were not taken go on waiting.
    pub fn settle<R: Files + AllocGlobal + Clone + Drop>(
        &mut self,
        rt: &R,
    ) -> Result<(), AllocError> {
        if self.is_stale {
            self.refresh(rt)?;
            self.is_stale = false;
        }
        for document in self.documents.values_mut() {
            document.take_waiting(self.alloc)?;
        }
        Ok(())
    }
}
