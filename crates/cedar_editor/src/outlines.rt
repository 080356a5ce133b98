//! Declarations in the text of a schema, with their places. They are found by words and marks
//! alone, so a fault elsewhere in the text hides none of them.
use crate::tokens::{Token, TokenKind, token_from};
use cedar_types::base::Loc;
use std::alloc::{AllocError, Global};

/// The kind of a declaration.
#[derive(Clone, Copy, PartialEq, Eq, Debug)]
pub enum DeclaredKind {
    EntityType,
    Action,
    CommonType,
}

/// A name that is declared.
#[derive(Drop)]
pub struct Declared {
    pub kind: DeclaredKind,
    /// The name with its namespace, as it is shown elsewhere: `Shop::User`, `Shop::Action::"view"`.
    pub name: String,
    /// The place of the name.
    pub place: Loc,
    /// The place of the declaration, up to its `;`.
    pub whole: Loc,
    /// The byte at which the type with the attributes begins; for an action, the type of its
    /// context.
    pub body: Option<usize>,
}

/// A reader of declarations, one after another.
#[derive(Drop)]
struct Reader<'a> {
    text: &'a str,
    at: usize,
    namespace: String,
    declared: Vec<Declared>,
}

/// The names that a text declares, in its order. If memory is refused, the answer is an
/// `AllocError`.
pub fn outline(alloc: Global, text: &str) -> Result<Vec<Declared>, AllocError> {
    let mut reader = Reader {
        text,
        at: 0,
        namespace: String::new(alloc),
        declared: Vec::new(alloc),
    };
    for _ in 0..text.len() {
        if !reader.step(alloc)? {
            break;
        }
    }
    Ok(reader.declared)
}

impl<'a> Reader<'a> {
    /// Takes the next token.
    fn take(&mut self) -> Token<'a> {
        let token = token_from(self.text, self.at);
        self.at = token.place.end;
        token
    }

    /// Reads a declaration, or passes over a token. The answer is false at the end of the text.
    fn step(&mut self, alloc: Global) -> Result<bool, AllocError> {
        let token = self.take();
        match (token.kind, token.text) {
            (TokenKind::End, _) => return Ok(false),
            (TokenKind::Word, "namespace") => self.read_namespace()?,
            (TokenKind::Word, "entity") => {
                self.read_declaration(alloc, token, DeclaredKind::EntityType)?;
            }
            (TokenKind::Word, "action") => {
                self.read_declaration(alloc, token, DeclaredKind::Action)?;
            }
            (TokenKind::Word, "type") => {
                self.read_declaration(alloc, token, DeclaredKind::CommonType)?;
            }
            (_, "}") => self.namespace.clear(),
            (_, "@") => self.at = behind_annotation(self.text, self.at),
            _ => {}
        }
        Ok(true)
    }

    /// Reads the name of a namespace, up to its brace.
    fn read_namespace(&mut self) -> Result<(), AllocError> {
        self.namespace.clear();
        for _ in self.at..self.text.len() {
            let token = self.take();
            if token.kind == TokenKind::End || token.is("{") || token.is(";") {
                break;
            }
            self.namespace.push_str(token.text)?;
        }
        Ok(())
    }

    /// Reads a declaration, which begins with this word, and adds its names.
    fn read_declaration(
        &mut self,
        alloc: Global,
        word: Token<'a>,
        kind: DeclaredKind,
    ) -> Result<(), AllocError> {
        let names = self.read_names(alloc)?;
        let scan = scan_declaration(self.text, self.at, kind);
        self.at = scan.end;
        for token in &names {
            let name = full_name(alloc, self.namespace.as_str(), kind, token.text)?;
            self.declared.push(Declared {
                kind,
                name,
                place: token.place,
                whole: Loc {
                    start: word.place.start,
                    end: scan.end,
                },
                body: scan.body,
            })?;
        }
        Ok(())
    }

    /// Reads the names with which a declaration begins.
    fn read_names(&mut self, alloc: Global) -> Result<Vec<Token<'a>>, AllocError> {
        let mut names = Vec::new(alloc);
        for _ in self.at..self.text.len() {
            let token = token_from(self.text, self.at);
            if !is_own_name(token) {
                break;
            }
            names.push(token)?;
            self.at = token.place.end;
            let mark = token_from(self.text, self.at);
            if !mark.is(",") {
                break;
            }
            self.at = mark.place.end;
        }
        Ok(names)
    }
}

fn is_own_name(token: Token<'_>) -> bool {
    let is_key = matches!(token.text, "in" | "enum" | "tags" | "appliesTo");
    matches!(token.kind, TokenKind::Word | TokenKind::Text) && !is_key
}

/// The byte behind an annotation, at which reading goes on. `from` stands behind its `@`.
pub(crate) fn behind_annotation(text: &str, from: usize) -> usize {
    let key = token_from(text, from);
    let open = token_from(text, key.place.end);
    if !open.is("(") {
        return key.place.end;
    }
    let value = token_from(text, open.place.end);
    token_from(text, value.place.end).place.end
}

/// The end of a declaration, and the byte at which its attributes stand.
#[derive(Clone, Copy)]
struct Scan {
    end: usize,
    body: Option<usize>,
}

/// The scan of a declaration behind its names, up to its `;`, or to its end without one.
fn scan_declaration(text: &str, from: usize, kind: DeclaredKind) -> Scan {
    let mut scan = Scan {
        end: from,
        body: None,
    };
    let mut depth = 0usize;
    for _ in from..text.len() {
        let token = token_from(text, scan.end);
        if begins_declaration(text, token) || (depth == 0 && token.is("}")) {
            break;
        }
        scan.end = token.place.end;
        if token.kind == TokenKind::End || token.is(";") {
            break;
        }
        if scan.body.is_none() {
            scan.body = body_at(text, kind, depth, token);
        }
        match token.text {
            "{" | "[" => depth = depth.saturating_add(1),
            "}" | "]" => depth = depth.saturating_sub(1),
            _ => {}
        }
    }
    scan
}

/// Whether a token begins a declaration or a namespace: a word for one, and a name behind it.
fn begins_declaration(text: &str, token: Token<'_>) -> bool {
    let is_word = matches!(token.text, "namespace" | "entity" | "action" | "type");
    is_word && is_own_name(token_from(text, token.place.end))
}

/// The byte at which the type with the attributes begins, if this token leads to it. `depth`
/// brackets are open around the token.
fn body_at(text: &str, kind: DeclaredKind, depth: usize, token: Token<'_>) -> Option<usize> {
    match (kind, depth, token.text) {
        (DeclaredKind::EntityType, 0, "{") => Some(token.place.start),
        (DeclaredKind::CommonType, 0, "=") => Some(token.place.end),
        (DeclaredKind::Action, 1, "context") => Some(token_from(text, token.place.end).place.end),
        _ => None,
    }
}

/// The full name of a declaration: its own name with the namespace.
fn full_name(
    alloc: Global,
    namespace: &str,
    kind: DeclaredKind,
    own: &str,
) -> Result<String, AllocError> {
    let mut name = String::from_str(alloc, namespace)?;
    if !namespace.is_empty() {
        name.push_str("::")?;
    }
    if kind != DeclaredKind::Action {
        name.push_str(own)?;
        return Ok(name);
    }
    let inside = own.trim_matches('"');
    write!(name, "Action::\"{inside}\"")?;
    Ok(name)
}

/// The declaration of this name, if there is one.
pub fn find_declared<'a>(
    declared: &'a [Declared],
    kind: DeclaredKind,
    name: &str,
) -> Option<&'a Declared> {
    declared
        .iter()
        .find(|it| it.kind == kind && it.name.as_str() == name)
}
