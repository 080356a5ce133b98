// Texts in an editor, and what is shown of them.
mod changes;
mod checks;
mod completions;
mod diagnostics;
mod documents;
mod edits;
mod fixes;
mod hovers;
mod judged;
mod outlines;
mod positions;
mod schema_names;
mod schemas;
mod small_changes;
mod writings;
