// Ids of an enumerated type.
ghost use Rattle.std.specs.Prelude.{IfOk};
ghost use Rattle.cedar_types.specs.Schemas.Choices.Same.{AreSameTexts};

use std::alloc::{AllocError, Global};
use std::collections::BTreeSet;
use std::rc::RcStr;

/// The ids that the entities of an enumerated type have, in the order in which they were given.
#[derive(Debug, Drop)]
pub struct EnumChoices {
    pub(crate) listed: Vec<RcStr>,
    known: BTreeSet<RcStr>,
    ghost same: { AreSameTexts known.keys listed.items },
}

impl EnumChoices {
    ghost use Rattle.std.specs.Prelude.{◌≡◌, map};
    ghost use Rattle.std.specs.List.{list_any};
    ghost use Rattle.cedar_types.specs.Names.{text_of, text_eq};
    ghost use Rattle.cedar_types.specs.Schemas.Choices.{choices_of};

    /// The choices of these ids. If memory is refused, the answer is an `AllocError`.
    pub fn new(alloc: Global, ids: Vec<RcStr>) -> Result<EnumChoices, AllocError>
        ensures { IfOk result (λ c. choices_of c ≡ map text_of ids.items) }
    {
        let known = texts_among(alloc, &ids)?;
        Ok(EnumChoices { listed: ids, known })
    }

    /// The ids, in the order in which they were given.
    pub fn as_slice(&self) -> &[RcStr]
        ensures { map text_of result.now ≡ choices_of self.now }
    {
        self.listed.as_slice()
    }

    /// Whether this is one of the ids. The time is logarithmic in their number.
    pub fn contains(&self, id: &RcStr) -> bool
        ensures { result ≡ list_any (text_eq (text_of id.now)) (choices_of self.now) }
    {
        self.known.contains(id)
    }
}

/// The set of these texts.
fn texts_among(alloc: Global, texts: &[RcStr]) -> Result<BTreeSet<RcStr>, AllocError>
    ensures { IfOk result (λ s. AreSameTexts s.keys texts.now) }
{
    let mut known = BTreeSet::new(alloc);
    for text in texts {
        known.insert(text.clone()?)?;
    }
    Ok(known)
}
