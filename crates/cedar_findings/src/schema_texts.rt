//! Texts of a schema in several files, which are read as one.
use crate::faults::TextFault;
use cedar_types::base::Loc;
use std::alloc::{AllocError, Global};

/// The text between two files: it declares nothing, and is a fault inside of a declaration, a text in quotes or a namespace.
const BETWEEN: &str = "\n@between(\"\\\"\") namespace between { }\n";

/// The fault of a text in which a declaration or a namespace does not end.
const OPEN: &str = "a declaration does not end in the file that it begins in";

/// The texts of some files, one behind another.
#[derive(Drop)]
pub struct SchemaTexts {
    text: String,
    /// The place of each file's text.
    places: Vec<Loc>,
}

impl SchemaTexts {
    /// No text.
    pub fn new(alloc: Global) -> SchemaTexts {
        SchemaTexts {
            text: String::new(alloc),
            places: Vec::new(alloc),
        }
    }

    /// Adds the text of a file.
    pub fn add(&mut self, text: &str) -> Result<(), AllocError> {
        if !self.places.is_empty() {
            self.text.push_str(BETWEEN)?;
        }
        let start = self.text.len();
        self.text.push_str(text)?;
        let end = self.text.len();
        self.places.push(Loc { start, end })?;
        Ok(())
    }

    /// All texts as one.
    pub fn text(&self) -> &str {
        self.text.as_str()
    }

    /// The text of the file of this number.
    pub fn text_of(&self, number: usize) -> &str {
        match self.places.get(number) {
            Some(place) => self.text.as_str().get(place.start..place.end).unwrap_or(""),
            None => "",
        }
    }

    /// The number of the file with a fault of all texts, and the fault as one of that file.
    pub fn own_fault(
        &self,
        alloc: Global,
        fault: TextFault,
    ) -> Result<(usize, TextFault), AllocError> {
        let mut number = 0usize;
        let mut own = Loc { start: 0, end: 0 };
        for (at, place) in self.places.iter().enumerate() {
            if place.start <= fault.place.start {
                number = at;
                own = *place;
            }
        }
        let is_last = number.saturating_add(1) == self.places.len();
        // a fault behind the end of a file is one of the text between two files
        if fault.place.start >= own.end && !is_last {
            return Ok((number, open_fault(alloc, own)?));
        }
        let TextFault { place, text } = fault;
        let place = Loc {
            start: place.start.saturating_sub(own.start),
            end: place.end.saturating_sub(own.start),
        };
        Ok((number, TextFault { place, text }))
    }
}

/// The fault at the end of a file.
fn open_fault(alloc: Global, own: Loc) -> Result<TextFault, AllocError> {
    let end = own.end.saturating_sub(own.start);
    Ok(TextFault {
        place: Loc { start: end, end },
        text: String::from_str(alloc, OPEN)?,
    })
}
