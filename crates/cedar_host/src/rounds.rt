//! Rounds that find the ids of a slice, for a host that asks a database of its own, by any call and with any error: it asks
//! once a round.
ghost use Rattle.std.specs.Prelude.{◌≡◌, ◌-◌, ◌↔◌, IsTrue, IfOk, map, List, [], ℕ};
ghost use Rattle.cedar_types.specs.Names.{Uid, uid_of};
ghost use Rattle.cedar_types.specs.Schemas.Declarations.{uids_of};
ghost use Rattle.cedar_host.specs.Distinct.{AreDistinct};
ghost use Rattle.cedar_host.specs.Loading.{AreAmong, AreNew};
ghost use Rattle.cedar_host.specs.Rounds.{Round, AreAfter, FindSlices, ids_in, left_in, wanted_in, with_round};

use crate::loading::add_new;
use cedar_types::base::EntityUID;
use std::alloc::{AllocError, Global};
use std::collections::BTreeSet;

/// The ids of a slice, found in rounds. In each round you must load the entries of the ids that are `wanted`, and hand in the
/// ids inside them, until none is wanted.
///
/// There are at most as many rounds as steps. For example, a slice of two steps wants the request's own ids in its first round,
/// and the ids inside their entries in its second. The loaded part has the slice of every store whose entries hold no id beyond
/// those that were handed in for them (clause `slices` of `into_ids`).
#[derive(Debug, Drop)]
pub struct Rounds {
    ids: BTreeSet<EntityUID>,
    wanted: Vec<EntityUID>,
    left: u32,
}

impl Rounds {
    /// The first round of a slice of `steps` steps, of each request whose own ids are among `start`: its principal, its action,
    /// its resource, and the ids inside its context. A slice of no steps wants no entries. If memory is refused, the answer is
    /// an `AllocError`.
    pub fn begin(alloc: Global, start: &[EntityUID], steps: u32) -> Result<Rounds, AllocError>
        ensures after { IfOk result (λ rounds. AreAfter (map uid_of start.now) steps [] rounds) }
        ensures distinct { IfOk result (λ rounds. AreDistinct (wanted_in rounds)) }
        ensures left { IfOk result (λ rounds. left_in rounds ≡ steps - 1) }
        ensures none { IfOk result (λ rounds. steps ≡ 0 → wanted_in rounds ≡ []) }
        ensures found { IfOk result (λ rounds. AreAmong (wanted_in rounds) (ids_in rounds)) }
    {
        let mut ids = BTreeSet::new(alloc);
        if steps == 0 {
            let wanted = Vec::new(alloc);
            return Ok(Rounds {
                ids,
                wanted,
                left: 0,
            });
        }
        let wanted = add_new(alloc, &mut ids, start)?;
        Ok(Rounds {
            ids,
            wanted,
            left: steps - 1,
        })
    }

    /// The ids whose entries you must load in this round: none twice, and none that an earlier round had. At the end there are
    /// none.
    pub fn wanted(&self) -> &[EntityUID]
        ensures { map uid_of result.now ≡ wanted_in self.now }
    {
        &self.wanted
    }

    /// Whether no step is left behind this round: its entries are loaded, but the ids inside them are not followed.
    pub fn is_last(&self) -> bool
        ensures { IsTrue result ↔ (left_in self.now ≡ 0) }
    {
        self.left == 0
    }

    /// The next round, if the entries of all wanted ids hold these ids, in their attributes and in their tags, at any depth and
    /// in any order. You may hand in more ids than they hold, and these are then found too. The last round ignores the ids. If
    /// memory is refused, the answer is an `AllocError`, and the rounds are gone.
    pub fn hand_in(self, alloc: Global, held: &[EntityUID]) -> Result<Rounds, AllocError>
        ensures after { IfOk result (λ next. (start : List Uid) (steps : ℕ) (done : List Round)
            → AreAfter start steps done self
            → AreAfter start steps (with_round self (map uid_of held.now) done) next) }
        ensures wanted { IfOk result (λ next. AreAmong (wanted_in next) (map uid_of held.now)) }
        ensures fresh { IfOk result (λ next. AreNew (wanted_in next) (ids_in self)) }
        ensures found { IfOk result (λ next. AreAmong (wanted_in next) (ids_in next)) }
        ensures kept { IfOk result (λ next. AreAmong (ids_in self) (ids_in next)) }
        ensures distinct { IfOk result (λ next. AreDistinct (wanted_in next)) }
        ensures left { IfOk result (λ next. left_in next ≡ left_in self - 1) }
        ensures ends { IfOk result (λ next. left_in self ≡ 0 → wanted_in next ≡ []) }
    {
        let Rounds {
            ids,
            wanted: _wanted,
            left,
        } = self;
        if left == 0 {
            let wanted = Vec::new(alloc);
            return Ok(Rounds { ids, wanted, left });
        }
        let mut ids = ids;
        let wanted = add_new(alloc, &mut ids, held)?;
        Ok(Rounds {
            ids,
            wanted,
            left: left - 1,
        })
    }

    /// All ids that were wanted. If none is wanted now, a store with their entries has the slice.
    pub fn into_ids(self) -> BTreeSet<EntityUID>
        ensures ids { uids_of result ≡ ids_in self }
        ensures slices { FindSlices self (uids_of result) }
    {
        self.ids
    }
}
