// Ids of the policies of a set.
ghost use Rattle.std.specs.Prelude.{◌≡◌, ◌||◌, false, is_some, IfOk, OnOk};
ghost use Rattle.cedar_types.specs.Names.{Text, text_eq, text_of};
ghost use Rattle.cedar_verdicts.specs.Ids.{has_id};

use cedar_types::base::PolicyID;
use std::alloc::{AllocError, Global};
use std::collections::BTreeMap;
use std::rc::RcStr;

/// The ids that policies of a set have so far, each with the first byte of the first policy that has it.
#[derive(Drop)]
pub struct Ids {
    starts: BTreeMap<RcStr, usize>,
}

impl Ids {
    /// An empty collection of ids.
    pub fn new(alloc: Global) -> Ids
        ensures { (t : Text) → has_id result t ≡ false }
    {
        Ids {
            starts: BTreeMap::new(alloc),
        }
    }

    /// Takes note of the id of a policy that begins at this byte. If an earlier policy has that id, the answer is that policy's
    /// first byte.
    pub fn take(&mut self, id: &PolicyID, start: usize) -> Result<Option<usize>, AllocError>
        ensures known { IfOk result (λ first.
            is_some first ≡ has_id self.old (text_of id.now.text)) }
        ensures taken { OnOk result ((t : Text)
            → has_id self.new t ≡ (text_eq t (text_of id.now.text) || has_id self.old t)) }
    {
        let id = id.text.clone()?;
        if let Some(first) = self.starts.get(&id) {
            return Ok(Some(*first));
        }
        self.starts.insert(id, start)?;
        Ok(None)
    }
}
