// Least upper bounds of types.
ghost use Rattle.std.specs.Prelude.{◌≡◌, IfOk, option_map};
ghost use Rattle.cedar_types.specs.Types.{ty_of, attributes_of, entries_of, TRecord, is_open_tag};
ghost use Rattle.cedar_types.specs.Types.Bounds.{lub, lub_by, apart_lub, set_lub, both_attrs, common_attrs, record_lub};
ghost use Rattle.cedar_types.specs.declared.base.types.ValidationMode.TheVariants.{Permissive};

use crate::base::types::flat_bounds::{
    any_entity_bound, any_set_bound, bool_bound, entity_bound, is_never, is_same, is_strict,
};
use crate::base::types::record_parts::{
    both, is_open, is_same_attribute, push_attribute, record_type, wide_tag,
};
use crate::base::types::{
    AttributeType, Attributes, CedarType, EntityKind, OpenTag, ValidationMode,
};
use std::alloc::{AllocError, Global};
use std::collections::BTreeMap;
use std::rc::{Rc, RcStr};

impl CedarType {
    /// The least upper bound of two types in a mode, if they have one.
    pub fn least_upper_bound(
        alloc: Global,
        ty0: &CedarType,
        ty1: &CedarType,
        mode: ValidationMode,
    ) -> Result<Option<CedarType>, AllocError>
        ensures { IfOk result (λ o. option_map ty_of o ≡ lub mode (ty_of ty0.now) (ty_of ty1.now)) }
    {
        bound(alloc, ty0, ty1, mode)
    }
}

/// The bound of two types: if they differ and the second is not Never, by the form of the first.
#[cycle(bound)]
fn bound(
    alloc: Global,
    ty0: &CedarType,
    ty1: &CedarType,
    mode: ValidationMode,
) -> Result<Option<CedarType>, AllocError>
    ensures { IfOk result (λ o. option_map ty_of o ≡ lub mode (ty_of ty0.now) (ty_of ty1.now)) }
{
    if is_same(ty0, ty1) || is_never(ty1) {
        return Ok(Some(ty0.clone()?));
    }
    match ty0 {
        CedarType::Never => Ok(Some(ty1.clone()?)),
        CedarType::Bool(_) => Ok(bool_bound(ty1)),
        CedarType::Set(element) => set_bound(alloc, element, ty1, mode),
        CedarType::AnySet => Ok(any_set_bound(ty1)),
        CedarType::Record {
            attributes,
            is_open,
        } => record_bound(alloc, attributes, *is_open, ty1, mode),
        CedarType::Entity(EntityKind::Entity(types)) => entity_bound(alloc, types, ty1, mode),
        CedarType::Entity(EntityKind::AnyEntity) => Ok(any_entity_bound(ty1)),
        CedarType::Long | CedarType::String | CedarType::Extension(_) => Ok(None),
    }
}

/// The bound of a set with a type that differs from it and is not Never.
#[cycle(bound)]
fn set_bound(
    alloc: Global,
    element: &CedarType,
    ty: &CedarType,
    mode: ValidationMode,
) -> Result<Option<CedarType>, AllocError>
    ensures { IfOk result (λ o. option_map ty_of o
        ≡ set_lub (lub_by (apart_lub mode (ty_of element.now)) (ty_of element.now)) (ty_of ty.now)) }
{
    match ty {
        CedarType::Set(other) => match bound(alloc, element, other, mode)? {
            Some(u) => Ok(Some(CedarType::Set(Rc::new(alloc, u)?))),
            None => Ok(None),
        },
        CedarType::AnySet => Ok(Some(CedarType::AnySet)),
        CedarType::Never | CedarType::Bool(_) => Ok(None),
        CedarType::Long | CedarType::String | CedarType::Extension(_) => Ok(None),
        CedarType::Record { .. } | CedarType::Entity(_) => Ok(None),
    }
}

/// The bound of a record with a type that differs from it and is not Never.
#[cycle(bound)]
fn record_bound(
    alloc: Global,
    xs: &Attributes,
    o: OpenTag,
    ty: &CedarType,
    mode: ValidationMode,
) -> Result<Option<CedarType>, AllocError>
    ensures { IfOk result (λ r. option_map ty_of r
        ≡ record_lub mode (attributes_of xs.now) (is_open_tag o)
        (both_attrs mode (attributes_of xs.now)) (common_attrs mode (attributes_of xs.now))
        (ty_of ty.now)) }
{
    match ty {
        CedarType::Record {
            attributes: ys,
            is_open: p,
        } => records_bound(alloc, xs, o, ys, *p, mode),
        CedarType::Never | CedarType::Bool(_) => Ok(None),
        CedarType::Long | CedarType::String | CedarType::Extension(_) => Ok(None),
        CedarType::Set(_) | CedarType::AnySet | CedarType::Entity(_) => Ok(None),
    }
}

/// The bound of two different records.
#[cycle(bound)]
fn records_bound(
    alloc: Global,
    xs: &Attributes,
    o: OpenTag,
    ys: &Attributes,
    p: OpenTag,
    mode: ValidationMode,
) -> Result<Option<CedarType>, AllocError>
    ensures { IfOk result (λ r. option_map ty_of r
        ≡ record_lub mode (attributes_of xs.now) (is_open_tag o)
        (both_attrs mode (attributes_of xs.now)) (common_attrs mode (attributes_of xs.now))
        (TRecord (attributes_of ys.now) (is_open_tag p))) }
{
    if is_strict(mode) {
        if is_open(o) || is_open(p) {
            return Ok(None);
        }
        match both_attributes(alloc, xs, ys, mode)? {
            Some(all) => Ok(Some(record_type(alloc, all, OpenTag::ClosedAttributes)?)),
            None => Ok(None),
        }
    } else {
        let all = common_attributes(alloc, xs, ys, mode)?;
        let tag = wide_tag(o, p, xs.attrs.len(), ys.attrs.len(), all.len());
        Ok(Some(record_type(alloc, all, tag)?))
    }
}

/// The attributes of the bound of two closed records in Strict, if both have the same names and
/// marks, and each attribute has a bound.
#[cycle(bound)]
fn both_attributes(
    alloc: Global,
    xs: &Attributes,
    ys: &Attributes,
    mode: ValidationMode,
) -> Result<Option<BTreeMap<RcStr, AttributeType>>, AllocError>
    ensures { IfOk result (λ o. option_map (λ all. entries_of all.entries) o
        ≡ both_attrs mode (attributes_of xs.now) (attributes_of ys.now)) }
{
    let mut all = BTreeMap::new(alloc);
    let mut right = ys.attrs.iter();
    for (key, x) in xs.attrs.iter() {
        let Some((other, y)) = right.next() else {
            return Ok(None);
        };
        if !is_same_attribute(key, x.is_required, other, y.is_required) {
            return Ok(None);
        }
        let Some(ty) = bound(alloc, &x.attr_type, &y.attr_type, mode)? else {
            return Ok(None);
        };
        push_attribute(&mut all, key, ty, x.is_required)?;
    }
    if right.next().is_some() {
        return Ok(None);
    }
    Ok(Some(all))
}

/// The attributes that two records share and whose types have a bound.
#[cycle(bound)]
fn common_attributes(
    alloc: Global,
    xs: &Attributes,
    ys: &Attributes,
    mode: ValidationMode,
) -> Result<BTreeMap<RcStr, AttributeType>, AllocError>
    ensures { IfOk result (λ all.
        entries_of all.entries ≡ common_attrs mode (attributes_of xs.now) (attributes_of ys.now)) }
{
    let mut all = BTreeMap::new(alloc);
    for (key, x) in xs.attrs.iter() {
        if let Some(y) = ys.attrs.get(key) {
            if let Some(ty) = bound(alloc, &x.attr_type, &y.attr_type, mode)? {
                push_attribute(&mut all, key, ty, both(x.is_required, y.is_required))?;
            }
        }
    }
    Ok(all)
}

impl Attributes {
    /// The attributes that both share and whose types have a bound in Permissive, each required if
    /// both require it.
    pub(crate) fn in_common(
        alloc: Global,
        xs: &Attributes,
        ys: &Attributes,
    ) -> Result<Attributes, AllocError>
        ensures { IfOk result (λ zs. attributes_of zs
            ≡ common_attrs Permissive (attributes_of xs.now) (attributes_of ys.now)) }
    {
        let all = common_attributes(alloc, xs, ys, ValidationMode::Permissive)?;
        Attributes::with_attributes(alloc, all)
    }
}
