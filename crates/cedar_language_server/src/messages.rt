// Messages of an editor.
use cedar_editor::lines::{Position, Range};
use cedar_findings::json::JsonWriter;
use serde_json::Value;
use std::alloc::{AllocError, Global};

/// The id of a message, which its sender chose.
#[derive(Clone, Copy)]
pub enum Id<'a> {
    Number(i64),
    Text(&'a str),
    /// No id that a reply could name.
    Unknown,
}

impl Id<'_> {
    /// The id as JSON.
    pub fn written(self, alloc: Global) -> Result<String, AllocError> {
        match self {
            Id::Number(number) => format!(in alloc; "{number}"),
            Id::Text(text) => {
                let mut written = String::new(alloc);
                JsonWriter::new().text(&mut written, text)?;
                Ok(written)
            }
            Id::Unknown => String::from_str(alloc, "null"),
        }
    }
}

/// A call of a request or a notification: a method, and its parameters.
#[derive(Clone, Copy)]
pub struct Call<'a> {
    pub method: &'a str,
    pub about: Option<&'a Value>,
}

/// A message, by its kind.
#[derive(Clone, Copy)]
pub enum Message<'a> {
    /// A request, which must be answered.
    Request(Id<'a>, Call<'a>),
    Notification(Call<'a>),
    /// An answer to a request of the server.
    Answer,
    /// A message of none of these kinds.
    Odd(Id<'a>),
}

/// The message that a value of JSON is.
pub fn message_of(root: &Value) -> Message<'_> {
    let id = id_of(root);
    let about = root.get("params");
    match (root.get("method").and_then(Value::as_str), id) {
        (Some(_), Some(Id::Unknown)) => Message::Odd(Id::Unknown),
        (Some(method), Some(id)) => Message::Request(id, Call { method, about }),
        (Some(method), None) => Message::Notification(Call { method, about }),
        (None, Some(_)) if is_answer(root) => Message::Answer,
        (None, Some(id)) => Message::Odd(id),
        (None, None) => Message::Odd(Id::Unknown),
    }
}

fn is_answer(root: &Value) -> bool {
    root.get("method").is_none() && (root.get("result").is_some() || root.get("error").is_some())
}

/// The id of a message, if it has one.
fn id_of(root: &Value) -> Option<Id<'_>> {
    let id = root.get("id")?;
    if let Some(number) = id.as_i64() {
        return Some(Id::Number(number));
    }
    match id.as_str() {
        Some(text) => Some(Id::Text(text)),
        None => Some(Id::Unknown),
    }
}

impl<'a> Call<'a> {
    /// The parameter of this name, if there is one.
    pub fn member(self, key: &str) -> Option<&'a Value> {
        self.about?.get(key)
    }

    /// The document that the call is about.
    pub fn document(self) -> Option<&'a Value> {
        self.member("textDocument")
    }

    /// The URI of the document that the call is about.
    pub fn uri(self) -> Option<&'a str> {
        text_at(self.document(), "uri")
    }

    /// The version of the document that the call is about.
    pub fn version(self) -> Option<u64> {
        self.document()?.get("version")?.as_u64()
    }

    /// The position that the call is about.
    pub fn position(self) -> Option<Position> {
        position_of(self.member("position"))
    }

    /// The range that the call is about.
    pub fn range(self) -> Option<Range> {
        range_of(self.member("range"))
    }
}

/// The text at a key of a value, if there is one.
pub fn text_at<'a>(value: Option<&'a Value>, key: &str) -> Option<&'a str> {
    value?.get(key)?.as_str()
}

/// Whether the value at a key is `true`.
pub fn is_true_at(value: Option<&Value>, key: &str) -> bool {
    match value.and_then(|it| it.get(key)) {
        Some(it) => it.as_bool() == Some(true),
        None => false,
    }
}

/// The position that a value says, if it has this form.
fn position_of(value: Option<&Value>) -> Option<Position> {
    let value = value?;
    Some(Position {
        line: count_at(value, "line")?,
        unit: count_at(value, "character")?,
    })
}

fn count_at(value: &Value, key: &str) -> Option<usize> {
    usize::try_from(value.get(key)?.as_u64()?).ok()
}

/// The range that a value says, if it has this form.
pub fn range_of(value: Option<&Value>) -> Option<Range> {
    let value = value?;
    Some(Range {
        start: position_of(value.get("start"))?,
        end: position_of(value.get("end"))?,
    })
}
