// Small changes at each character of a text with faults: behind each, the document is that of the changed text.
use crate::editor_tests::judged::{Check, shown};
use cedar_editor::documents::PolicyDocument;
use cedar_editor::judges::Judge;
use cedar_types::base::{ExtensionSchemas, Loc};
use std::alloc::{AllocError, Global};
use std::test::Fail;

/// Three policies, of which only the second is ended, with each end of a line.
const TEXT: &str = "// é\r\npermit(principal, action, resource) when { (1\n\
     @id(\"b\") permit(principal, action, resource);\r// ; 𝒳\nforbid(principal,";

/// Texts that are put before a character; the empty one is put in its place.
const INSERTED: [&str; 6] = ["", "\n", "\"", "//", "@", "permit("];

/// The places of a document's policies, and the lines on them.
fn state_of(alloc: Global, document: &PolicyDocument<'_, Check>) -> Result<String, AllocError> {
    let mut state = shown(alloc, document)?;
    for placed in document.policies() {
        let place = Loc {
            start: placed.start,
            end: placed.end(),
        };
        let range = document.range(place);
        let (start, end) = (range.start, range.end);
        writeln!(state, "{place:?} {start:?} {end:?}")?;
    }
    Ok(state)
}

#[test]
fn small_changes(rt: HostRuntime) -> Result<(), Fail> {
    let alloc = rt.alloc();
    let functions: ExtensionSchemas<Check> = ExtensionSchemas::default(alloc);
    let mut document = PolicyDocument::new(alloc, Judge::Reading(&functions), TEXT)?;
    assert_eq!(rt; document.policies().len(), 3);
    let state = state_of(alloc, &document)?;
    for (start, c) in TEXT.char_indices() {
        for inserted in &INSERTED {
            let size = if inserted.is_empty() { c.len_utf8() } else { 0 };
            let place = Loc {
                start,
                end: start.saturating_add(size),
            };
            document.change(alloc, place, inserted)?;
            let fresh = PolicyDocument::new(alloc, Judge::Reading(&functions), document.text())?;
            let wanted = state_of(alloc, &fresh)?;
            let found = state_of(alloc, &document)?;
            assert_eq!(rt; found.as_str(), wanted.as_str(), "{place:?} {inserted:?}");
            document.replace(alloc, TEXT)?;
            let found = state_of(alloc, &document)?;
            assert_eq!(rt; found.as_str(), state.as_str(), "{place:?} {inserted:?}");
        }
    }
    Ok(())
}
