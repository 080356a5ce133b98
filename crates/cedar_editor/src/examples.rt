//! Lines of texts, and texts after edits: a law on a function that does nothing.
ghost use Rattle.cedar_editor.specs.EditExamples.{EditExamples};

/// Where lines begin, and which texts edits make.
pub fn examples_of_edits()
    ensures { EditExamples }
{}
