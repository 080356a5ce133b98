// Policies of a text, one after another.
use crate::cursor::Cursor;
use crate::faults::ReadError;
use crate::policy_parts::{PolicyParts, read_parts};
use cedar_types::base::{Effect, Template};
use std::alloc::Global;

/// A policy that was read: its effect and its template.
#[derive(Debug, Drop)]
pub struct ReadPolicy {
    pub effect: Effect,
    pub template: Template,
}

/// Reader of the policies of a text, one after another.
#[derive(Drop)]
pub struct Policies<'a> {
    cursor: Cursor<'a>,
    count: usize,
}

impl<'a> Policies<'a> {
    /// The policies of this text. It fails if the text is too long.
    pub fn new(alloc: Global, text: &'a str) -> Result<Policies<'a>, ReadError> {
        let cursor = Cursor::new(alloc, text)?;
        Ok(Policies { cursor, count: 0 })
    }

    /// The next policy, or its first fault; `None` if the text has ended. After a fault reading
    /// goes on behind the policy's `;`, or at the byte at which the next one seems to begin.
    ///
    /// The place of a policy is its own text, annotations included. Its id is the value of `@id`,
    /// or `policy` and the number of policies before it in the text, faulty ones included.
    pub fn next_policy(&mut self) -> Option<Result<ReadPolicy, ReadError>> {
        if self.cursor.is_at_end() {
            return None;
        }
        let start = self.cursor.start();
        let read = policy(&mut self.cursor, self.count);
        self.count = self.count.saturating_add(1);
        if read.is_err() {
            self.cursor = next_policy_from(&self.cursor, start);
        }
        Some(read)
    }
}

/// Reads a policy with `number` policies before it.
fn policy(cursor: &mut Cursor<'_>, number: usize) -> Result<ReadPolicy, ReadError> {
    let mut parts = PolicyParts::new(cursor.alloc);
    let place = read_parts(cursor, &mut parts)?;
    parts.whole(cursor.alloc, place, number)
}

/// A cursor at the byte at which the next policy seems to begin, after a fault in the policy that
/// began at the byte `start`. Tokens that were read of that policy are passed again.
pub fn next_policy_from<'a>(read: &Cursor<'a>, start: usize) -> Cursor<'a> {
    let mut cursor = read.at(start);
    let mut passed = Passed {
        has_effect: false,
        depth: 0,
        is_behind_at: false,
    };
    for _ in 0..read.most_left() {
        let is_read = cursor.start() < read.start();
        if cursor.is_at_end() || (!is_read && passed.ends_before(&cursor)) {
            break;
        }
        let is_over = !is_read && passed.depth == 0 && cursor.is_at(";");
        passed.pass(&mut cursor, is_read);
        if is_over {
            break;
        }
    }
    cursor
}

/// The state of passing over a faulty policy.
#[derive(Drop)]
struct Passed {
    /// Whether its own `permit` or `forbid` is passed.
    has_effect: bool,
    /// The number of open brackets, without those before its own `permit` or `forbid`.
    depth: usize,
    /// Whether the last token was the `@` of an annotation.
    is_behind_at: bool,
}

impl Passed {
    /// Whether another policy seems to begin here: if a bracket is open, then only at the beginning
    /// of a line.
    fn ends_before(&self, cursor: &Cursor<'_>) -> bool {
        let is_at_annotation = cursor.is_at("@");
        if !self.has_effect || !(is_at_annotation || is_at_effect(cursor)) {
            return false;
        }
        let is_plain = is_at_annotation || is_before_scope(cursor);
        self.depth == 0 || (is_plain && cursor.begins_line())
    }

    /// Passes the next token; `was_read` says whether reading had passed it before.
    fn pass(&mut self, cursor: &mut Cursor<'_>, was_read: bool) {
        let is_effect = is_at_effect(cursor) && !self.is_behind_at;
        if is_effect && !self.has_effect && (was_read || is_before_scope(cursor)) {
            self.has_effect = true;
            self.depth = 0;
        }
        let token = cursor.take();
        self.is_behind_at = token.text == "@";
        match token.text {
            "(" | "[" | "{" => self.depth = self.depth.saturating_add(1),
            ")" | "]" | "}" => self.depth = self.depth.saturating_sub(1),
            _ => {}
        }
    }
}

fn is_at_effect(cursor: &Cursor<'_>) -> bool {
    cursor.is_at("permit") || cursor.is_at("forbid")
}

/// Whether a `(` stands behind the next token.
fn is_before_scope(cursor: &Cursor<'_>) -> bool {
    cursor.at(cursor.peek().place.end).is_at("(")
}
