// Examples of small texts and of the trees that they write, and a law of parts.
ghost use Rattle.cedar_json.specs.ReadItems.{ItemsMakeTheArray};
ghost use Rattle.cedar_json.specs.TextExamples.{TextExamples};

/// States which trees some small texts write, and which they do not write.
pub fn examples_of_texts()
    ensures { TextExamples }
{}

/// States that a text whose items are read one after another up to its end says the array of these
/// items.
pub fn items_make_the_array()
    ensures { ItemsMakeTheArray }
{}
