// Parentheses that precedence does not ask for, and commas behind the last member of a list.
use crate::roles::{Bracket, Level, Role, level_of};
use crate::tokens::Token;
use std::alloc::{AllocError, Global};

/// An open bracket.
#[derive(Clone, Copy)]
struct Open {
    /// The number of its token.
    at: usize,
    bracket: Bracket,
    /// The role of the token before it.
    before: Role,
    /// The weakest operator in it so far, outside of brackets in it that stay.
    weakest: Level,
}

/// The open brackets at a token, the innermost one last.
#[derive(Drop)]
pub struct Parentheses {
    open: Vec<Open>,
}

impl Parentheses {
    pub fn new(alloc: Global) -> Parentheses {
        Parentheses {
            open: Vec::new(alloc),
        }
    }

    /// The innermost open bracket.
    pub fn innermost(&self) -> Option<Bracket> {
        match self.open.last() {
            Some(open) => Some(open.bracket),
            None => None,
        }
    }

    /// Passes the token of number `at`, behind one of the role `before`. At the end of parentheses
    /// that precedence does not ask for, both are left out.
    pub fn pass(
        &mut self,
        tokens: &mut Vec<Token<'_>>,
        at: usize,
        before: Role,
    ) -> Result<(), AllocError> {
        let Some(token) = tokens.get(at) else {
            return Ok(());
        };
        match token.role {
            Role::Open(bracket) => {
                let weakest = Level::Member;
                self.open.push(Open {
                    at,
                    bracket,
                    before,
                    weakest,
                })?;
            }
            Role::Close(_) => self.close(tokens, at),
            Role::Comma if ends_list(text_at(tokens, at.saturating_add(1))) => {
                leave_out(tokens, at);
            }
            Role::Between(level) => self.weaken(level),
            Role::Prefix => self.weaken(Level::Prefix),
            Role::If => self.weaken(Level::Whole),
            _ => {}
        }
        Ok(())
    }

    /// Notes an operator in the innermost bracket.
    fn weaken(&mut self, level: Level) {
        if let Some(open) = self.open.last_mut() {
            open.weakest = open.weakest.min(level);
        }
    }

    /// Closes the innermost bracket with the token of number `at`.
    fn close(&mut self, tokens: &mut Vec<Token<'_>>, at: usize) {
        let Some(open) = self.open.pop() else {
            return;
        };
        if open.bracket != Bracket::Group {
            return;
        }
        let is_number = open.before == Role::Prefix && begins_with_number(tokens, open.at);
        let behind = level_behind(text_at(tokens, at.saturating_add(1)));
        if !is_number && is_redundant(open.before, open.weakest, behind) {
            leave_out(tokens, open.at);
            leave_out(tokens, at);
            self.weaken(open.weakest);
        }
    }
}

/// Whether parentheses around an expression need not stand: what is in them binds stronger than the
/// operator before them, and at least as strongly as the one behind them.
fn is_redundant(before: Role, inside: Level, behind: Option<Level>) -> bool {
    let is_free_before = match before {
        Role::Prefix => inside == Level::Member,
        Role::Between(level) => level < inside,
        Role::Open(_) | Role::Comma | Role::Colon | Role::If | Role::Then | Role::Else => true,
        _ => false,
    };
    let is_free_behind = match behind {
        None => true,
        // no relation goes on with another
        Some(Level::Relation) => Level::Relation < inside,
        Some(level) => level <= inside,
    };
    is_free_before && is_free_behind
}

/// The strength of the operator that a token is behind an operand, if it is one.
fn level_behind(text: &str) -> Option<Level> {
    if text == "." || text == "[" {
        return Some(Level::Member);
    }
    level_of(text)
}

/// Whether a number is the first token that stays behind the one of number `at`. A minus before the
/// number would belong to it.
fn begins_with_number(tokens: &[Token<'_>], at: usize) -> bool {
    for token in tokens.iter().skip(at.saturating_add(1)) {
        if !token.is_left_out {
            return token
                .text
                .bytes()
                .next()
                .is_some_and(|byte| byte.is_ascii_digit());
        }
    }
    false
}

fn ends_list(text: &str) -> bool {
    text == ")" || text == "]" || text == "}"
}

/// The text of the token of number `at`, empty if there is none.
fn text_at<'a>(tokens: &[Token<'a>], at: usize) -> &'a str {
    match tokens.get(at) {
        Some(token) => token.text,
        None => "",
    }
}

fn leave_out(tokens: &mut Vec<Token<'_>>, at: usize) {
    if let Some(token) = tokens.get_mut(at) {
        token.is_left_out = true;
    }
}
