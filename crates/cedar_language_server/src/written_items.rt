// The items of a completion, written as JSON for the editor.
use crate::written::{Origin, Written};
use cedar_editor::completions::Completion;
use cedar_editor::documents::PlacedPolicy;
use cedar_editor::items::ItemKind;
use std::alloc::{AllocError, Global};

/// The most items of a completion that are sent.
const MAX_ITEMS: usize = 1000;

impl Written {
    /// Adds the items of a completion in a policy, each with the edit that writes it.
    pub fn completion(
        &mut self,
        alloc: Global,
        origin: &Origin<'_>,
        placed: &PlacedPolicy,
        completion: &Completion,
    ) -> Result<(), AllocError> {
        let range = origin.range(placed.place(completion.place));
        let is_incomplete = completion.items.len() > MAX_ITEMS;
        self.json.begin_object(&mut self.out)?;
        self.json.key(&mut self.out, "isIncomplete")?;
        self.json.boolean(&mut self.out, is_incomplete)?;
        self.json.key(&mut self.out, "items")?;
        self.json.begin_list(&mut self.out)?;
        for item in completion.items.iter().take(MAX_ITEMS) {
            self.json.begin_object(&mut self.out)?;
            self.json
                .text_at(&mut self.out, "label", item.label.as_str())?;
            self.json
                .number_at(&mut self.out, "kind", item_number(item.kind))?;
            self.json
                .text_at(&mut self.out, "detail", item.detail.as_str())?;
            match &item.writing {
                // editors compare the replaced text, of which the `.` is the beginning, with `filterText`
                Some(writing) if writing.place != completion.place => {
                    let own = origin.range(placed.place(writing.place));
                    let label = item.label.as_str();
                    let filter = format!(in alloc; ".{label}")?;
                    self.json
                        .text_at(&mut self.out, "filterText", filter.as_str())?;
                    self.edit_at("textEdit", own, writing.text.as_str())?;
                }
                Some(writing) => self.edit_at("textEdit", range, writing.text.as_str())?,
                None => self.edit_at("textEdit", range, item.label.as_str())?,
            }
            self.json.end_object(&mut self.out)?;
        }
        self.json.end_list(&mut self.out)?;
        self.json.end_object(&mut self.out)
    }
}

/// The protocol's number for a kind of item.
fn item_number(kind: ItemKind) -> u64 {
    match kind {
        ItemKind::Method => 2,
        ItemKind::Attribute => 5,
        ItemKind::Operand => 6,
        ItemKind::EntityType => 7,
        ItemKind::Entity => 20,
        ItemKind::Action => 23,
    }
}
