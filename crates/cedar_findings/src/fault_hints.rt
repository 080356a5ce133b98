// Hints against faults of texts.
use crate::faults::{Trouble, Written, push_hint};
use crate::texts::{found_in, is_among};
use cedar_reading::{Expected, Fault};
use std::alloc::AllocError;

/// The hint for JSON that is read as Cedar's own syntax.
const JSON: &str = "JSON is read where a file begins with it, or by `--input json`";

/// The hint at a key with characters that a word cannot have.
const KEY: &str = "a key that is no word stands in quotes, as `\"a-b\"`";

/// Words and marks of other languages in policies, each with the hint at it.
const SLIPS: [(&[&str], &str); 8] = [
    (&["="], "`==` compares"),
    (
        &["&", "and", "AND"],
        "`&&` stands between conditions that both have to hold",
    ),
    (
        &["|", "or", "OR"],
        "`||` stands between conditions of which one has to hold",
    ),
    (&["not", "NOT"], "`!` negates"),
    (&["True", "TRUE"], "`true` is written small"),
    (&["False", "FALSE"], "`false` is written small"),
    (
        &["null", "nil", "None"],
        "nothing is null: `has` asks whether an attribute is there",
    ),
    (&[":"], "`::` stands between the parts of a name"),
];

/// Names for types in other languages, each with the hint at it.
const OTHER_TYPES: [(&[&str], &str); 9] = [
    (
        &["string", "str", "Str", "text", "Text"],
        "texts are of the type `String`",
    ),
    (
        &[
            "int", "Int", "integer", "Integer", "long", "number", "Number",
        ],
        "whole numbers are of the type `Long`",
    ),
    (&["bool", "boolean"], "truth values are of the type `Bool`"),
    (
        &["float", "Float", "double", "Double", "Decimal"],
        "numbers with a fraction are of the type `decimal`",
    ),
    (
        &[
            "date",
            "Date",
            "time",
            "Time",
            "timestamp",
            "Timestamp",
            "DateTime",
            "Datetime",
        ],
        "points in time are of the type `datetime`",
    ),
    (&["Duration"], "spans of time are of the type `duration`"),
    (
        &["ip", "Ip", "IP", "ipAddress", "IpAddress", "IPAddress"],
        "addresses are of the type `ipaddr`",
    ),
    (
        &["list", "List", "array", "Array", "set"],
        "a type of sets is `Set<..>`",
    ),
    (
        &["record", "object", "Object", "map", "Map"],
        "a type of records is `{ a: Long }`",
    ),
];

/// The number of digits that a decimal number may have behind its point.
const MOST_PLACES: usize = 4;

/// The hint at a fault, or an empty text.
pub(crate) fn hint(written: Written, trouble: Trouble, read: &str) -> &'static str {
    let is_expected = matches!(
        trouble,
        Trouble::Missing(_) | Trouble::Other(Fault::Expected(_))
    );
    match (written, read) {
        (_, "'") => "texts stand in double quotes",
        (Written::Schema, "permit" | "forbid") => {
            "the schema is the first file, and policies come behind it"
        }
        (Written::Schema, _) if is_expected => hint_in_schema(trouble, read),
        (Written::Policies, "entity" | "namespace" | "type") => {
            "the schema is the first file, and policies come behind it"
        }
        (Written::Policies, _) if is_expected => hint_in_policy(trouble, read),
        (Written::Policies, _) => hint_for_words(trouble),
        _ => "",
    }
}

/// The hint at a word that the language keeps, or at operators before an operand.
fn hint_for_words(trouble: Trouble) -> &'static str {
    match trouble {
        Trouble::Other(Fault::ReservedAttribute) => {
            "it stands as `a[\"b\"]`, `a has \"b\"` or `{\"b\": 1}`"
        }
        Trouble::Other(Fault::MixedSigns) => "a parenthesis stands between them, as in `!(-a < b)`",
        _ => "",
    }
}

/// The hint in a policy.
fn hint_in_policy(trouble: Trouble, read: &str) -> &'static str {
    let slip = found_in(&SLIPS, read);
    if !slip.is_empty() {
        return slip;
    }
    match read {
        "if" if is_for_expression(trouble) => {
            "an `if` that is a part of something else stands in parentheses"
        }
        _ if is_name(trouble, read) => {
            "there are `principal`, `action`, `resource`, `context`, and ids such as `User::\"ann\"`"
        }
        _ => hint_by_place(trouble, read),
    }
}

/// The hint for a text at a place that expects another part.
fn hint_by_place(trouble: Trouble, read: &str) -> &'static str {
    let is_text = read.starts_with('"');
    match (trouble, read) {
        (Trouble::Other(Fault::Expected(Expected::Id)), _) => {
            "ids stand as `User::\"ann\"`, attributes as `a.b`"
        }
        (Trouble::Other(Fault::Expected(Expected::ActionId)), _) => "as in `Action::\"view\"`",
        (Trouble::Other(Fault::Expected(Expected::Slot)), _) => {
            "there are the slots `?principal` and `?resource`, without a blank in them"
        }
        (Trouble::Missing("::"), _) => "an id stands as `User::\"ann\"`",
        (Trouble::Other(Fault::Expected(Expected::Effect)), "{" | "[") => JSON,
        (Trouble::Other(Fault::Expected(Expected::Name)), "[") => {
            "only behind `action in` may a list stand"
        }
        (Trouble::Other(Fault::Expected(Expected::Name)), _) if is_text => {
            "an id has its type before it, as `User::\"ann\"`"
        }
        (Trouble::Missing(":"), _) if is_in_key(read) => KEY,
        (Trouble::Missing(","), "is") => {
            "behind `action` stand `==` and `in` alone, and a condition may have `is`"
        }
        (Trouble::Missing("}" | ")"), "==" | "!=" | "<" | "<=" | ">" | ">=") => {
            "one comparison does not follow another: `&&` joins two"
        }
        _ => "",
    }
}

/// The hint in a schema.
fn hint_in_schema(trouble: Trouble, read: &str) -> &'static str {
    match (trouble, read) {
        (_, "{") => JSON,
        (_, "?") => "the `?` stands behind an attribute, as in `a?: Long`",
        (Trouble::Missing(":"), _) if is_in_key(read) => KEY,
        (Trouble::Other(Fault::Expected(Expected::Name)), "[") => "a type of sets is `Set<..>`",
        _ => "",
    }
}

/// Whether a mark seems to belong to a key without quotes.
fn is_in_key(read: &str) -> bool {
    read.starts_with('-') || is_among(&[".", "/", "+", "*", "$", "#", "@", "%"], read)
}

/// Adds the way to write a number with a fraction, if its places are read at this byte as the name
/// of an attribute.
pub(crate) fn push_fraction(
    message: &mut String,
    text: &str,
    start: usize,
    read: &str,
) -> Result<(), AllocError> {
    let is_number = !read.is_empty() && read.chars().all(|c: char| c.is_ascii_digit());
    match whole_before_point(text, start) {
        Some(whole) if is_number && read.len() <= MOST_PLACES => {
            write!(
                message,
                "; numbers are whole, and `decimal(\"{whole}.{read}\")` has a fraction"
            )
        }
        Some(_) if is_number => push_hint(message, "numbers are whole"),
        _ => Ok(()),
    }
}

/// The digits before the point that ends right before a byte.
fn whole_before_point(text: &str, start: usize) -> Option<&str> {
    let before = text.get(..start)?.strip_suffix('.')?;
    let front = before.trim_end_matches(|c: char| c.is_ascii_digit());
    let is_in_word = front.ends_with(|c: char| c.is_alphanumeric() || c == '_');
    let digits = before.get(front.len()..)?;
    (!digits.is_empty() && !is_in_word).then_some(digits)
}

/// The hint with Cedar's name for a type that has this name in other languages.
pub(crate) fn meant_type(name: &str) -> &'static str {
    found_in(&OTHER_TYPES, name)
}

/// Whether a name is read in place of an expression.
fn is_name(trouble: Trouble, read: &str) -> bool {
    let is_word = read.starts_with(|c: char| c.is_alphabetic());
    is_word
        && is_for_expression(trouble)
        && !is_among(&["then", "else", "in", "is", "has", "like"], read)
}

fn is_for_expression(trouble: Trouble) -> bool {
    matches!(
        trouble,
        Trouble::Other(Fault::Expected(Expected::Expression))
    )
}

/// Whether a schema seems to declare a common type of this name, in some namespace.
pub(crate) fn is_alias(schema: &str, name: &str) -> bool {
    let mut is_behind_type = false;
    let name = match name.rsplit_once("::") {
        Some((_, name)) => name,
        None => name,
    };
    for word in schema.split_whitespace() {
        let own = match word.split_once('=') {
            Some((own, _)) => own,
            None => word,
        };
        if is_behind_type && own == name {
            return true;
        }
        is_behind_type = word == "type";
    }
    false
}
