// Nesting of texts in Cedar's own syntax, before they are read: reading takes stack for it.
use cedar_json::{Object, Value, ValueKind};
use std::alloc::{AllocError, Global};

/// The nesting of a text that fits a thread of 1 MiB of stack while it is read.
const MOST: u32 = 400;

/// The number of conditions of a policy that fits such a thread.
const MOST_CONDITIONS: u32 = 200;

/// The objects and lists of a policy in JSON that stand around each condition or behind the last
/// of its expressions.
const AROUND: u32 = 16;

/// The nesting of a text that is read, if conditions may have this depth. Each node of a condition
/// nests at most twice, by an operator and by parentheses, and as many parentheses more may stand
/// in a text, as far as they fit a thread of 1 MiB.
fn most_nesting(depth: u32) -> u32 {
    let twice = depth.saturating_mul(2);
    MOST.max(twice).min(twice.saturating_mul(2))
}

/// Whether a text nests too deep to be read, if conditions may have this depth.
pub fn is_too_nested(alloc: Global, text: &str, depth: u32) -> Result<bool, AllocError> {
    Ok(nesting_of(alloc, text)? > most_nesting(depth))
}

/// Whether a policy in Cedar's form of JSON nests too deep to be read, if conditions may have this
/// depth. Each node of a condition nests by at most two objects or lists. The walk goes down by one
/// generation of values after another, so the nesting takes no stack.
pub fn is_value_too_nested(alloc: Global, policy: &Value, depth: u32) -> Result<bool, AllocError> {
    let mut generation = Vec::new(alloc);
    generation.push(policy)?;
    for _ in 0..depth.saturating_mul(2).saturating_add(AROUND) {
        generation = values_in(alloc, &generation)?;
        if generation.is_empty() {
            return Ok(false);
        }
    }
    Ok(true)
}

/// The values that stand in these.
fn values_in<'a>(alloc: Global, values: &Vec<&'a Value>) -> Result<Vec<&'a Value>, AllocError> {
    let mut found = Vec::new(alloc);
    for value in values {
        add_values(&mut found, *value)?;
    }
    Ok(found)
}

fn add_values<'a>(found: &mut Vec<&'a Value>, value: &'a Value) -> Result<(), AllocError> {
    match &value.kind {
        ValueKind::Array(items) => {
            for item in items {
                found.push(item)?;
            }
        }
        ValueKind::Object(entries) => {
            for (_key, entry) in entries {
                found.push(entry)?;
            }
        }
        _ => {}
    }
    Ok(())
}

/// Whether a policy in Cedar's form of JSON has too many conditions to be read, if conditions may
/// have this depth: each nests those before it one deeper. Within a condition JSON itself nests no
/// deeper than is read.
pub fn has_too_many_conditions(policy: Object<'_>, depth: u32) -> bool {
    match policy.get("conditions") {
        Some(
            Value {
                kind: ValueKind::Array(items),
                ..
            },
        ) => items.len() as u64 > u64::from(most_conditions(depth)),
        _ => false,
    }
}

fn most_conditions(depth: u32) -> u32 {
    MOST_CONDITIONS.max(depth).min(depth.saturating_mul(2))
}

/// The kind of text in which a character stands.
#[derive(Clone, Copy, PartialEq, Eq)]
enum Place {
    Code,
    Comment,
    Quotes,
    /// In quotes, behind a backslash.
    Escape,
}

/// The nesting of an expression so far, in one pair of brackets: the number of operators that chain
/// its operands, and the depth of the deepest operand. Each operator and each pair of brackets
/// counts at least once, so the tree is no deeper.
#[derive(Clone, Copy)]
struct Group {
    /// The words `if`, and the operators `||`.
    alternatives: u32,
    /// The operators `&&` since the last of `alternatives`.
    conjunctions: u32,
    /// Other operators, and brackets, since the last `&&`.
    operators: u32,
    /// The deepest part in brackets since the last `&&`.
    inside: u32,
    /// The deepest operand of `&&` that has ended, since the last of `alternatives`.
    conjunct: u32,
    /// The deepest operand of `||`, or part of an `if`, that has ended.
    alternative: u32,
    /// The deepest part between commas that has ended.
    part: u32,
}

impl Group {
    fn new() -> Group {
        Group {
            alternatives: 0,
            conjunctions: 0,
            operators: 0,
            inside: 0,
            conjunct: 0,
            alternative: 0,
            part: 0,
        }
    }

    fn end_conjunct(&mut self) {
        let depth = self.operators.saturating_add(self.inside);
        self.conjunct = self.conjunct.max(depth);
        self.operators = 0;
        self.inside = 0;
    }

    fn end_alternative(&mut self) {
        self.end_conjunct();
        let depth = self.conjunctions.saturating_add(self.conjunct);
        self.alternative = self.alternative.max(depth);
        self.conjunctions = 0;
        self.conjunct = 0;
    }

    fn end_part(&mut self) {
        self.end_alternative();
        let depth = self.alternatives.saturating_add(self.alternative);
        self.part = self.part.max(depth);
        self.alternatives = 0;
        self.alternative = 0;
    }

    /// Takes in a word of code.
    fn take_word(&mut self, word: &str) {
        match word {
            "if" => self.alternatives = self.alternatives.saturating_add(1),
            "then" | "else" => self.end_alternative(),
            "in" | "has" | "like" | "is" | "when" | "unless" => {
                self.operators = self.operators.saturating_add(1);
            }
            _ => {}
        }
    }

    /// Takes in a character of code that is of no word, no quote and no bracket, and stands behind
    /// another.
    fn take_sign(&mut self, before: char, c: char) {
        match c {
            '&' if before == '&' => {
                self.end_conjunct();
                self.conjunctions = self.conjunctions.saturating_add(1);
            }
            '|' if before == '|' => {
                self.end_alternative();
                self.alternatives = self.alternatives.saturating_add(1);
            }
            ',' | ';' => self.end_part(),
            '.' | '!' | '-' | '+' | '*' | '<' | '>' | '=' => {
                self.operators = self.operators.saturating_add(1);
            }
            _ => {}
        }
    }
}

/// Reads characters, and keeps the groups of brackets that are open.
#[derive(Drop)]
struct Scan {
    /// The groups around the innermost one.
    around: Vec<Group>,
    group: Group,
    place: Place,
    before: char,
}

impl Scan {
    /// Takes in a word.
    fn take_word(&mut self, word: &str) {
        if self.place == Place::Code {
            self.group.take_word(word);
        }
        // (neither `&` nor `/` behind a word goes on with one before it)
        self.before = ' ';
        if self.place == Place::Escape {
            self.place = Place::Quotes;
        }
    }

    /// Takes in a character outside of words.
    fn take(&mut self, c: char) -> Result<(), AllocError> {
        match self.place {
            Place::Code => self.take_code(c)?,
            Place::Comment if c == '\n' => self.place = Place::Code,
            Place::Comment => {}
            Place::Escape => self.place = Place::Quotes,
            Place::Quotes if c == '"' => self.place = Place::Code,
            Place::Quotes if c == '\\' => self.place = Place::Escape,
            Place::Quotes => {}
        }
        self.before = c;
        Ok(())
    }

    fn take_code(&mut self, c: char) -> Result<(), AllocError> {
        match c {
            '"' => self.place = Place::Quotes,
            '/' if self.before == '/' => self.place = Place::Comment,
            '(' | '[' | '{' => {
                self.group.operators = self.group.operators.saturating_add(1);
                self.around.push(self.group)?;
                self.group = Group::new();
            }
            ')' | ']' | '}' => self.close(),
            _ => self.group.take_sign(self.before, c),
        }
        Ok(())
    }

    /// Ends the innermost group, if one is open.
    fn close(&mut self) {
        let Some(mut outer) = self.around.pop() else {
            return;
        };
        self.group.end_part();
        outer.inside = outer.inside.max(self.group.part);
        self.group = outer;
    }

    /// The nesting of the whole text.
    fn finish(mut self) -> u32 {
        for _ in 0..self.around.len() {
            self.close();
        }
        self.group.end_part();
        self.group.part
    }
}

/// The most that a text of policies nests: no tree that is read of it is deeper. It fails if memory
/// is refused.
fn nesting_of(alloc: Global, text: &str) -> Result<u32, AllocError> {
    let mut scan = Scan {
        around: Vec::new(alloc),
        group: Group::new(),
        place: Place::Code,
        before: ' ',
    };
    let mut start = None;
    for (at, c) in text.char_indices() {
        if c.is_ascii_alphanumeric() || c == '_' {
            start = Some(start.unwrap_or(at));
            continue;
        }
        if let Some(start) = start {
            scan.take_word(text.get(start..at).unwrap_or(""));
        }
        start = None;
        scan.take(c)?;
    }
    Ok(scan.finish())
}
