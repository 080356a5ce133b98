// Attributes of record types: their makers and their lookup.
ghost use Rattle.std.specs.Prelude.{◌≡◌, IfOk, map, option_map};
ghost use Rattle.cedar_types.specs.Names.{text_of};
ghost use Rattle.cedar_types.specs.Types.{ty_of, attributes_of, entries_of, no_attrs};
ghost use Rattle.cedar_types.specs.Types.Bounds.{find_attr};
ghost use Rattle.cedar_types.specs.Expressions.Makers.{with_attrs};

use crate::base::types::{AttributeType, Attributes};
use std::alloc::{AllocError, Global};
use std::collections::BTreeMap;
use std::rc::{Rc, RcStr};

impl Attributes {
    /// The attributes of this map.
    pub fn with_attributes(
        alloc: Global,
        attrs: BTreeMap<RcStr, AttributeType>,
    ) -> Result<Attributes, AllocError>
        ensures { IfOk result (λ a. attributes_of a ≡ entries_of attrs.entries) }
    {
        Ok(Attributes {
            attrs: Rc::new(alloc, attrs)?,
        })
    }

    /// The attributes of this list. A later entry replaces an earlier one of its name.
    pub fn from_list(
        alloc: Global,
        listed: Vec<(&str, AttributeType)>,
    ) -> Result<Attributes, AllocError>
        ensures { IfOk result (λ a. attributes_of a ≡ with_attrs
            (map (λ e. (e.0.now, (ty_of e.1.attr_type, e.1.is_required))) listed.entry.items)
            no_attrs) }
    {
        let mut attrs = BTreeMap::new(alloc);
        for (key, attribute) in listed {
            drop(attrs.insert(RcStr::from_str(alloc, key)?, attribute)?);
        }
        Attributes::with_attributes(alloc, attrs)
    }

    /// The attribute of this name, if there is one.
    pub fn get_attr(&self, attr: &RcStr) -> Option<&AttributeType>
        ensures { option_map (λ a. (ty_of a.now.attr_type, a.now.is_required)) result
            ≡ find_attr (text_of attr.now) (attributes_of self.now) }
    {
        self.attrs.get(attr)
    }
}
