// Parts of the bounds of records: tags, marks and attributes.
ghost use Rattle.std.specs.Prelude.{◌≡◌, ◌++◌, ◌∷◌, [], ◌&&◌, ◌||◌, not, nat_eq, IfOk, OnOk};
ghost use Rattle.std.specs.declared.cmp.Ordering.TheVariants.{Less};
ghost use Rattle.std.specs.List.{AllByRecursion};
ghost use Rattle.cedar_types.specs.Names.{text_of, text_cmp, text_eq};
ghost use Rattle.cedar_types.specs.Types.{ty_of, entries_of, texts_of, join_attrs, attr, no_attrs, TRecord, is_open_tag};
ghost use Rattle.cedar_types.specs.Types.Bounds.{mark_eq};

use crate::base::types::{AttributeType, Attributes, CedarType, OpenTag};
use std::alloc::{AllocError, Global};
use std::collections::BTreeMap;
use std::rc::{Rc, RcStr};

/// Whether a record may have other attributes.
pub(crate) fn is_open(tag: OpenTag) -> bool
    ensures { result ≡ is_open_tag tag }
{
    match tag {
        OpenTag::OpenAttributes => true,
        OpenTag::ClosedAttributes => false,
    }
}

fn open_tag(is_open: bool) -> OpenTag
    ensures { is_open_tag result ≡ is_open }
{
    if is_open {
        OpenTag::OpenAttributes
    } else {
        OpenTag::ClosedAttributes
    }
}

/// The tag of the bound of two records: open if one of them is open, or if the number of its
/// attributes is not that of both.
pub(crate) fn wide_tag(o: OpenTag, p: OpenTag, xs: usize, ys: usize, all: usize) -> OpenTag
    ensures { is_open_tag result
        ≡ (is_open_tag o || is_open_tag p || not (nat_eq all xs && nat_eq all ys)) }
{
    open_tag(is_open(o) || is_open(p) || !(all == xs && all == ys))
}

/// Whether two attributes have one name and one mark.
pub(crate) fn is_same_attribute(k: &RcStr, r: bool, l: &RcStr, q: bool) -> bool
    ensures { result ≡ (text_eq (text_of k.now) (text_of l.now) && mark_eq r q) }
{
    *k == *l && r == q
}

/// Whether both flags hold.
pub(crate) fn both(a: bool, b: bool) -> bool
    ensures { result ≡ (a && b) }
{
    a && b
}

/// The type of records with these attributes.
pub(crate) fn record_type(
    alloc: Global,
    all: BTreeMap<RcStr, AttributeType>,
    is_open: OpenTag,
) -> Result<CedarType, AllocError>
    ensures { IfOk result (λ t. ty_of t ≡ TRecord (entries_of all.entries) (is_open_tag is_open)) }
{
    let attributes = Attributes {
        attrs: Rc::new(alloc, all)?,
    };
    Ok(CedarType::Record {
        attributes,
        is_open,
    })
}

/// Adds an attribute whose name is above all names in the map.
pub(crate) fn push_attribute(
    all: &mut BTreeMap<RcStr, AttributeType>,
    key: &RcStr,
    attr_type: CedarType,
    is_required: bool,
) -> Result<(), AllocError>
    requires { AllByRecursion (λ k. text_cmp k (text_of key.now) ≡ Less)
        (texts_of all.old.entries) }
    ensures attributes { OnOk result (entries_of all.new.entries
        ≡ join_attrs (entries_of all.old.entries)
        (attr (text_of key.now) (ty_of attr_type) is_required no_attrs)) }
    ensures names { OnOk result (texts_of all.new.entries
        ≡ texts_of all.old.entries ++ text_of key.now ∷ []) }
{
    all.insert(
        key.clone()?,
        AttributeType {
            attr_type,
            is_required,
        },
    )?;
    Ok(())
}
