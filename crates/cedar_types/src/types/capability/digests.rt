// Digests of shapes. A digest takes no memory and covers the whole expression.
ghost use Rattle.std.specs.Prelude.{◌≡◌, map};
ghost use Rattle.cedar_types.specs.Capability.Digest.{joined, with_text, with_texts, with_digest, with_path, with_uid, var_digest, lit_digest, shape_digest, trees_digest, fields_digest};
ghost use Rattle.cedar_types.specs.Names.{text_of, path_of, type_of, uid_of};
ghost use Rattle.cedar_types.specs.Expressions.View.{lit_of, chain_of, shape, trees_of, fields_of};

use crate::base::{AttrChain, EntityType, EntityUID, Expr, ExprKind, Literal, Name, Var};
use std::collections::BTreeMap;
use std::hash::{FoldHasher, Hash, Hasher};
use std::rc::RcStr;

/// A digest joined with the input that `part` feeds a hasher.
#[tactic(auto, unfolding(crate::specs::Capability::Digest::joined))]
fn joined<T: Hash>(digest: u64, part: &T) -> u64
    ensures { result ≡ joined digest (T.hash_input part.now) }
{
    let mut state = FoldHasher::default();
    state.write_u64(digest);
    part.hash(&mut state);
    state.finish()
}

/// A digest joined with a text.
pub(crate) fn with_text(digest: u64, text: &RcStr) -> u64
    ensures { result ≡ with_text digest (text_of text.now) }
{
    joined(digest, text)
}

/// A digest joined with another digest.
pub(crate) fn with_digest(digest: u64, other: u64) -> u64
    ensures { result ≡ with_digest digest other }
{
    joined(digest, &other)
}

fn with_name(digest: u64, name: &Name) -> u64
    ensures { result ≡ with_path digest (path_of name.now) }
{
    joined(digest, name)
}

fn with_uid(digest: u64, uid: &EntityUID) -> u64
    ensures { result ≡ with_uid digest (uid_of uid.now) }
{
    joined(digest, uid)
}

fn with_attrs(digest: u64, attrs: &AttrChain) -> u64
    ensures { result
        ≡ with_texts (with_text digest (chain_of attrs.now).0) (chain_of attrs.now).1 }
{
    joined(with_text(digest, &attrs.first), &attrs.rest)
}

fn var_digest(var: Var) -> u64
    ensures { result ≡ var_digest var }
{
    match var {
        Var::Principal => 1,
        Var::Action => 2,
        Var::Resource => 3,
        Var::Context => 4,
    }
}

fn literal_digest(literal: &Literal) -> u64
    ensures { result ≡ lit_digest (lit_of literal.now) }
{
    match literal {
        Literal::Bool(b) => joined(5, b),
        Literal::Long(z) => joined(6, z),
        Literal::String(text) => with_text(7, text),
        Literal::EntityUID(uid) => with_uid(8, uid),
    }
}

/// The digest of an expression's shape.
#[cycle(digest)]
pub(crate) fn shape_digest(e: &Expr) -> u64
    ensures { result ≡ shape_digest (shape e.now) }
{
    match &e.kind {
        ExprKind::Lit(literal) => literal_digest(literal),
        ExprKind::Var(var) => var_digest(*var),
        ExprKind::Slot(slot) => joined(9, slot),
        ExprKind::Unknown(name) => with_name(10, name),
        ExprKind::If {
            test_expr,
            then_expr,
            else_expr,
        } => {
            let digest = with_digest(
                with_digest(11, shape_digest(test_expr)),
                shape_digest(then_expr),
            );
            with_digest(digest, shape_digest(else_expr))
        }
        ExprKind::And(left, right) => {
            with_digest(with_digest(12, shape_digest(left)), shape_digest(right))
        }
        ExprKind::Or(left, right) => {
            with_digest(with_digest(13, shape_digest(left)), shape_digest(right))
        }
        ExprKind::UnaryApp(op, operand) => joined(with_digest(14, shape_digest(operand)), op),
        ExprKind::BinaryApp(op, left, right) => {
            joined(with_digest(shape_digest(left), shape_digest(right)), op)
        }
        ExprKind::ExtensionFunctionApp(name, args) => list_digest(with_name(15, name), args),
        ExprKind::GetAttr(owner, attr) => with_text(shape_digest(owner), attr),
        ExprKind::HasAttr(owner, attr) => with_text(with_digest(16, shape_digest(owner)), attr),
        ExprKind::ExtHasAttr(owner, attrs) => {
            with_attrs(with_digest(17, shape_digest(owner)), attrs)
        }
        ExprKind::Like(operand, pattern) => {
            joined(with_digest(18, shape_digest(operand)), pattern)
        }
        ExprKind::Is(operand, entity_type) => {
            with_name(with_digest(19, shape_digest(operand)), &entity_type.name)
        }
        ExprKind::Set(elements) => list_digest(20, elements),
        ExprKind::Record(fields) => fields_digest(21, fields),
    }
}

/// A digest joined with those of the expressions `es`, in order.
#[cycle(digest)]
fn list_digest(before: u64, es: &Vec<Expr>) -> u64
    ensures { result ≡ trees_digest before (trees_of (map shape es.now.items)) }
{
    let mut digest = before;
    for e in es {
        digest = with_digest(digest, shape_digest(e));
    }
    digest
}

/// A digest joined with the key and the digest of each field, in the order of the keys.
#[cycle(digest)]
fn fields_digest(before: u64, fields: &BTreeMap<RcStr, Expr>) -> u64
    ensures { result ≡ fields_digest before
        (fields_of (map (λ f. (f.0, shape f.1)) fields.now.entries)) }
{
    let mut digest = before;
    for (key, e) in fields.iter() {
        digest = with_digest(with_text(digest, key), shape_digest(e));
    }
    digest
}
