// A writer of answers in JSON.
use cedar_findings::json::JsonWriter;
use std::alloc::{AllocError, Global};

/// An answer as it is written.
#[derive(Drop)]
pub struct Answer {
    pub alloc: Global,
    json: JsonWriter,
    out: String,
}

impl Answer {
    /// An answer that says nothing yet, but whether the call succeeds.
    pub fn begin(alloc: Global, outcome: &str) -> Result<Answer, AllocError> {
        let mut answer = Answer {
            alloc,
            json: JsonWriter::new(),
            out: String::new(alloc),
        };
        answer.json.begin_object(&mut answer.out)?;
        answer.json.text_at(&mut answer.out, "type", outcome)?;
        Ok(answer)
    }

    /// The whole text.
    pub fn finish(self) -> Result<String, AllocError> {
        let Answer {
            alloc: _,
            mut json,
            mut out,
        } = self;
        json.end_object(&mut out)?;
        Ok(out)
    }

    pub fn key(&mut self, key: &str) -> Result<(), AllocError> {
        self.json.key(&mut self.out, key)
    }

    pub fn text_at(&mut self, key: &str, text: &str) -> Result<(), AllocError> {
        self.json.text_at(&mut self.out, key, text)
    }

    pub fn text(&mut self, text: &str) -> Result<(), AllocError> {
        self.json.text(&mut self.out, text)
    }

    pub fn number_at(&mut self, key: &str, number: usize) -> Result<(), AllocError> {
        self.json.number_at(&mut self.out, key, number as u64)
    }

    pub fn character_at(&mut self, key: &str, c: char) -> Result<(), AllocError> {
        self.json.key(&mut self.out, key)?;
        self.json.begin_text(&mut self.out)?;
        self.json.char_part(&mut self.out, c)?;
        self.json.end_text(&mut self.out)
    }

    pub fn boolean_at(&mut self, key: &str, truth: bool) -> Result<(), AllocError> {
        self.json.key(&mut self.out, key)?;
        self.json.boolean(&mut self.out, truth)
    }

    pub fn boolean(&mut self, truth: bool) -> Result<(), AllocError> {
        self.json.boolean(&mut self.out, truth)
    }

    pub fn null_at(&mut self, key: &str) -> Result<(), AllocError> {
        self.json.key(&mut self.out, key)?;
        self.json.null(&mut self.out)
    }

    /// Adds a whole number behind a key, also one below 0.
    pub fn long(&mut self, number: i64) -> Result<(), AllocError> {
        if number < 0 {
            self.out.push_str("-")?;
        }
        self.json.number(&mut self.out, number.unsigned_abs())
    }

    pub fn begin_object(&mut self) -> Result<(), AllocError> {
        self.json.begin_object(&mut self.out)
    }

    pub fn end_object(&mut self) -> Result<(), AllocError> {
        self.json.end_object(&mut self.out)
    }

    /// Begins a member of this key that is an object.
    pub fn begin_object_at(&mut self, key: &str) -> Result<(), AllocError> {
        self.json.key(&mut self.out, key)?;
        self.json.begin_object(&mut self.out)
    }

    /// Begins a member of this key that is a list.
    pub fn begin_list_at(&mut self, key: &str) -> Result<(), AllocError> {
        self.json.key(&mut self.out, key)?;
        self.json.begin_list(&mut self.out)
    }

    pub fn begin_list(&mut self) -> Result<(), AllocError> {
        self.json.begin_list(&mut self.out)
    }

    pub fn end_list(&mut self) -> Result<(), AllocError> {
        self.json.end_list(&mut self.out)
    }
}
