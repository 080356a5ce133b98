// Attributes that a condition names, and the expressions that have them.
use cedar_types::base::{CedarType, Expr, ExprKind, ValidatorSchema};
use std::alloc::{AllocError, Global};
use std::rc::RcStr;

/// An attribute that is read or tested at a spot.
#[derive(Clone, Copy)]
pub struct Member<'a> {
    pub base: &'a Expr,
    /// The attributes behind `first` that lead to the named one, if an extended `has` names several.
    pub before: &'a [RcStr],
    pub first: Option<&'a RcStr>,
    pub attr: &'a RcStr,
    /// The attribute is read here, and not tested for.
    pub is_access: bool,
}

/// The attribute that a part names: the last one of an extended `has`.
pub fn member_of(part: &Expr) -> Option<Member<'_>> {
    match &part.kind {
        ExprKind::GetAttr(base, attr) => Some(Member {
            base,
            before: &[],
            first: None,
            attr,
            is_access: true,
        }),
        ExprKind::HasAttr(base, attr) => Some(Member {
            base,
            before: &[],
            first: None,
            attr,
            is_access: false,
        }),
        ExprKind::ExtHasAttr(base, chain) => match chain.rest.as_slice().split_last() {
            None => Some(Member {
                base,
                before: &[],
                first: None,
                attr: &chain.first,
                is_access: false,
            }),
            Some((attr, before)) => Some(Member {
                base,
                before,
                first: Some(&chain.first),
                attr,
                is_access: false,
            }),
        },
        _ => None,
    }
}

/// The type that has the attribute, if the base has this type; none if an attribute that leads to it is unknown.
pub fn owner_type(
    alloc: Global,
    schema: &ValidatorSchema,
    base: &CedarType,
    member: Member<'_>,
) -> Result<Option<CedarType>, AllocError> {
    let mut ty = base.clone()?;
    if let Some(first) = member.first {
        match CedarType::lookup_attribute_type(alloc, schema, &ty, first)? {
            Some(found) => ty = found.attr_type.clone()?,
            None => return Ok(None),
        }
    }
    for attr in member.before {
        match CedarType::lookup_attribute_type(alloc, schema, &ty, attr)? {
            Some(found) => ty = found.attr_type.clone()?,
            None => return Ok(None),
        }
    }
    Ok(Some(ty))
}
