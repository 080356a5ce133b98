//! The law that pins the definitions by which the items of an array in JSON are read.
ghost use Rattle.cedar_examples.specs.ArraysAreRead.{ArraysAreRead};

/// States that a text which says an array begins with one, and that its items can be read one after another.
pub fn arrays_are_read()
    ensures { ArraysAreRead }
{}
