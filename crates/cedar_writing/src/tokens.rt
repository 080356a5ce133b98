// Tokens of a text with their roles, and the comments between them.
use crate::faults::FormatFault;
use crate::parentheses::Parentheses;
use crate::pieces::{Piece, pieces};
use crate::roles::{Bracket, Role, is_spaced, role_of};
use std::alloc::{AllocError, Global};

/// A token of a text.
#[derive(Clone, Copy)]
pub struct Token<'a> {
    pub text: &'a str,
    pub role: Role,
    /// The number of comments before the token, from the beginning of the text on.
    pub comments: usize,
    /// The number of ends of lines right before the token.
    pub breaks: usize,
    /// Whether the token is left out: a parenthesis that precedence does not ask for, or a comma
    /// behind a last member.
    pub is_left_out: bool,
    /// The number of the token that closes this bracket, if the token is an opening bracket.
    pub partner: usize,
    /// The first column and the last one of the token if the whole text were one line.
    pub start: usize,
    pub end: usize,
    /// Whether a blank stands before the token if both are on one line.
    pub is_spaced: bool,
}

/// The tokens and the comments of a text.
#[derive(Drop)]
pub struct Tokens<'a> {
    pub tokens: Vec<Token<'a>>,
    pub comments: Vec<Piece<'a>>,
}

/// The tokens of a text that stay, and its comments.
pub fn tokens_of<'a>(alloc: Global, text: &'a str) -> Result<Tokens<'a>, FormatFault> {
    let mut tokens = Vec::new(alloc);
    let mut comments = Vec::new(alloc);
    for piece in pieces(alloc, text)? {
        if piece.is_comment() {
            comments.push(piece)?;
        } else {
            tokens.push(unplaced(piece, comments.len()))?;
        }
    }
    set_roles(alloc, &mut tokens)?;
    place(alloc, &mut tokens)?;
    Ok(Tokens { tokens, comments })
}

fn unplaced(piece: Piece<'_>, comments: usize) -> Token<'_> {
    Token {
        text: piece.text,
        role: Role::Operand,
        comments,
        breaks: piece.breaks,
        is_left_out: false,
        partner: 0,
        start: 0,
        end: 0,
        is_spaced: false,
    }
}

/// Sets the role of each token, and leaves out those that need not stand.
fn set_roles(alloc: Global, tokens: &mut Vec<Token<'_>>) -> Result<(), AllocError> {
    let mut open = Parentheses::new(alloc);
    let mut before = Role::Semicolon;
    for at in 0..tokens.len() {
        let Some(token) = tokens.get(at) else {
            break;
        };
        let role = role_of(token.text, before, open.innermost());
        if let Some(token) = tokens.get_mut(at) {
            token.role = role;
        }
        open.pass(tokens, at, before)?;
        before = role;
    }
    Ok(())
}

/// Leaves the tokens that stay, and sets their columns and partners.
fn place(alloc: Global, tokens: &mut Vec<Token<'_>>) -> Result<(), AllocError> {
    let mut open = Vec::new(alloc);
    let mut before = Role::Open(Bracket::Group);
    let mut end = 0usize;
    let mut comments = 0;
    let mut count = 0usize;
    for at in 0..tokens.len() {
        let Some(token) = tokens.get(at).copied() else {
            break;
        };
        if token.is_left_out {
            continue;
        }
        let is_spaced = is_spaced(before, token.role);
        let start = end.saturating_add(usize::from(is_spaced));
        end = start.saturating_add(token.text.chars().count());
        // comments before a comma go behind it
        if token.role != Role::Comma {
            comments = token.comments;
        }
        match token.role {
            Role::Open(_) => open.push(count)?,
            Role::Close(_) => join(tokens, open.pop(), count),
            _ => {}
        }
        if let Some(place) = tokens.get_mut(count) {
            *place = Token {
                comments,
                start,
                end,
                is_spaced,
                ..token
            };
        }
        before = token.role;
        count = count.saturating_add(1);
    }
    tokens.truncate(count);
    Ok(())
}

/// Sets the partner of the bracket that was opened last, which the token of number `last` closes.
fn join(tokens: &mut Vec<Token<'_>>, opened: Option<usize>, last: usize) {
    if let Some(token) = opened.and_then(|at| tokens.get_mut(at)) {
        token.partner = last;
    }
}
