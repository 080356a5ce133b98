// Translations of JSON texts into Cedar's own syntax.
use crate::forms::{FormError, FormFault, Object, PlacedFault, is_among};
use crate::steps::MAX_LENGTH;
use crate::values::{Key, Value};
use cedar_types::base::Loc;
use std::alloc::{AllocError, Global};
use std::mem;

/// A written text, with the part of the JSON text that each of its parts came from.
#[derive(Debug, Drop)]
pub struct Translation {
    text: String,
    marks: Vec<Mark>,
    /// The faults of the JSON text that were noted.
    faults: Vec<PlacedFault>,
    /// Why writing stopped, if it did: nothing is written from then on.
    stopped: Option<FormError>,
}

/// A mark: from byte `at` to the next mark, the text was written from the part `origin` of the JSON
/// text.
#[derive(Clone, Copy, PartialEq, Eq, Debug)]
pub struct Mark {
    pub at: usize,
    pub origin: Loc,
}

impl Translation {
    /// Makes the empty text.
    pub fn new(alloc: Global) -> Translation {
        Translation {
            text: String::new(alloc),
            marks: Vec::new(alloc),
            faults: Vec::new(alloc),
            stopped: None,
        }
    }

    /// Returns the text that was written.
    pub fn text(&self) -> &str {
        self.text.as_str()
    }

    /// Returns the part of the JSON text from which the byte `at` was written: that of the last
    /// mark up to there, or the beginning if there is none.
    pub fn origin_of(&self, at: usize) -> Loc {
        let mut origin = Loc { start: 0, end: 0 };
        for mark in &self.marks {
            if mark.at > at {
                break;
            }
            origin = mark.origin;
        }
        origin
    }

    /// Writes a text from the part of the last mark.
    pub fn put(&mut self, text: &str) {
        if self.stopped.is_none() && self.text.push_str(text).is_err() {
            self.stopped = Some(FormError::Memory(AllocError));
        }
    }

    /// Writes a text from this part. Stops if the whole is too long.
    pub fn put_from(&mut self, origin: Loc, text: &str) {
        self.mark(origin);
        self.put(text);
    }

    /// Writes a quoted text from this part.
    pub fn put_quoted(&mut self, origin: Loc, text: &str) {
        self.mark(origin);
        self.put("\"");
        for c in text.chars() {
            if self.stopped.is_none() && self.put_escaped(c).is_err() {
                self.stopped = Some(FormError::Memory(AllocError));
            }
        }
        self.put("\"");
    }

    /// Fails if writing stopped.
    pub fn check(&mut self) -> Result<(), FormError> {
        match self.stopped.take() {
            Some(error) => Err(error),
            None => Ok(()),
        }
    }

    /// Returns the value that was read. It notes a fault and returns `None`, so that reading goes
    /// on behind the fault.
    pub(crate) fn noted<T: Drop>(
        &mut self,
        read: Result<T, FormError>,
    ) -> Result<Option<T>, AllocError> {
        match read {
            Ok(value) => Ok(Some(value)),
            Err(FormError::Memory(error)) => Err(error),
            Err(FormError::At(start, fault)) => {
                self.faults.push(PlacedFault { start, fault })?;
                Ok(None)
            }
        }
    }

    /// Notes a fault at each key of an object that is not in `keys`.
    pub(crate) fn allow(&mut self, object: Object<'_>, keys: &[&str]) -> Result<(), AllocError> {
        for (own, _) in object.entries {
            if !is_among(keys, own.name.as_str()) {
                self.faults.push(PlacedFault {
                    start: own.place.start,
                    fault: FormFault::UnknownKey,
                })?;
            }
        }
        Ok(())
    }

    /// Returns the entries of the object at this key: none if the key is missing, or if something
    /// else stands there. The second is a fault, and is noted.
    pub(crate) fn entries_at<'a>(
        &mut self,
        object: Object<'a>,
        key: &str,
    ) -> Result<&'a [(Key, Value)], AllocError> {
        let Some(value) = object.get(key) else {
            return Ok(&[]);
        };
        match self.noted(Object::of(value))? {
            Some(inner) => Ok(inner.entries),
            None => Ok(&[]),
        }
    }

    /// Returns the noted faults and forgets them.
    pub(crate) fn take_faults(&mut self) -> Vec<PlacedFault> {
        let alloc = *self.faults.allocator();
        mem::replace(&mut self.faults, Vec::new(alloc))
    }

    /// Returns whether a fault was noted.
    pub(crate) fn has_faults(&self) -> bool {
        !self.faults.is_empty()
    }

    /// Begins a part that was written from `origin`. Stops if the whole is too long.
    fn mark(&mut self, origin: Loc) {
        if self.stopped.is_some() {
            return;
        }
        let at = self.text.len();
        if at > MAX_LENGTH {
            self.stopped = Some(FormError::At(origin.start, FormFault::TooLarge));
        } else if self.marks.push(Mark { at, origin }).is_err() {
            self.stopped = Some(FormError::Memory(AllocError));
        }
    }

    /// Writes a character as it stands in quotes.
    fn put_escaped(&mut self, c: char) -> Result<(), AllocError> {
        if c == '"' || c == '\\' {
            self.text.push('\\')?;
            self.text.push(c)?;
        } else if c.is_control() {
            let code = u32::from(c);
            write!(self.text, "\\u{{{code:x}}}")?;
        } else {
            self.text.push(c)?;
        }
        Ok(())
    }
}
