//! Verdicts on the policies of a set, in which no two may have one id.
ghost use Rattle.std.specs.Prelude.{◌≡◌, ◌||◌, false, is_some, map, IfOk, OnOk};
ghost use Rattle.cedar_types.specs.Names.{Text, text_eq, text_of};
ghost use Rattle.cedar_types.specs.Templates.{template_of};
ghost use Rattle.cedar_verdicts.specs.Ids.{has_id};
ghost use Rattle.cedar_verdicts.specs.Sets.{AreVerdictsOn};
ghost use Rattle.cedar_verdicts.specs.Verdicts.{basis_of, IsRightVerdict, IsWholeVerdict};

use crate::causes::place_of;
use crate::ids::Ids;
use crate::settings::Settings;
use crate::verdicts::judge_in_set;
use cedar_findings::columns::Columns;
use cedar_findings::findings::Verdict;
use cedar_findings::marks::{Marked, marked_parts};
use cedar_findings::places::Places;
use cedar_findings::search_room::SearchRoom;
use cedar_reading::Position;
use cedar_types::base::{ArgumentCheck, Template};
use std::alloc::{AllocError, Global};

/// A judge of the policies of a set, one after another: it knows the ids of the policies so far.
#[derive(Drop)]
pub struct SetJudge<'a> {
    ids: Ids,
    /// The text that hints take their examples from.
    examples: &'a str,
    /// The places of the set's text. They get an index at the first repeated id, because two policies that share an id can
    /// stand anywhere.
    places: Places<'a>,
    has_index: bool,
    /// The room of the set for searches of near names.
    room: SearchRoom,
}

impl<'a> SetJudge<'a> {
    /// A judge of a set without policies so far. Places are in the first text, and hints take their examples from the second.
    pub fn new(alloc: Global, text: &'a str, examples: &'a str) -> SetJudge<'a>
        ensures { (t : Text) → has_id result.ids t ≡ false }
    {
        SetJudge {
            ids: Ids::new(alloc),
            examples,
            places: Places::new(alloc, text, Columns::Characters),
            has_index: false,
            room: SearchRoom::new(),
        }
    }

    /// The verdict on the next policy of the set, which is refused if an earlier policy has its id.
    pub fn judge_next<C: ArgumentCheck>(
        &mut self,
        alloc: Global,
        settings: &Settings<'_, C>,
        policy: &Template,
    ) -> Result<Verdict, AllocError>
        ensures right { IfOk result (IsRightVerdict (basis_of C.refusal settings.now)
            settings.now.level (template_of policy.now)) }
        ensures whole { IfOk result (IsWholeVerdict (basis_of C.refusal settings.now)
            settings.now.level (template_of policy.now)
            (has_id self.old.ids (text_of policy.now.id.text))) }
        ensures taken { OnOk result ((t : Text) → has_id self.new.ids t
            ≡ (text_eq t (text_of policy.now.id.text) || has_id self.old.ids t)) }
    {
        let marks = marked_parts(alloc, policy)?;
        self.judge_marked(alloc, settings, policy, marks.as_slice())
    }

    /// The verdict on the next policy of the set, in which these texts have marks of direction.
    pub(crate) fn judge_marked<C: ArgumentCheck>(
        &mut self,
        alloc: Global,
        settings: &Settings<'_, C>,
        policy: &Template,
        marks: &[Marked],
    ) -> Result<Verdict, AllocError>
        ensures right { IfOk result (IsRightVerdict (basis_of C.refusal settings.now)
            settings.now.level (template_of policy.now)) }
        ensures whole { IfOk result (IsWholeVerdict (basis_of C.refusal settings.now)
            settings.now.level (template_of policy.now)
            (has_id self.old.ids (text_of policy.now.id.text))) }
        ensures taken { OnOk result ((t : Text) → has_id self.new.ids t
            ≡ (text_eq t (text_of policy.now.id.text) || has_id self.old.ids t)) }
    {
        let first = self.ids.take(&policy.id, place_of(policy).start)?;
        let same_id = self.position_of(first)?;
        let (examples, room) = (self.examples, &mut self.room);
        let verdict = judge_in_set(alloc, settings, examples, policy, marks, same_id, room)?;
        Ok(verdict)
    }

    /// The position of the first policy of an id, if there is one, from its first byte.
    fn position_of(&mut self, first: Option<usize>) -> Result<Option<Position>, AllocError>
        ensures same { IfOk result (λ position. is_some position ≡ is_some first) }
        ensures kept { self.new.ids ≡ self.old.ids }
    {
        let Some(start) = first else {
            return Ok(None);
        };
        if !self.has_index {
            self.places.index()?;
            self.has_index = true;
        }
        Ok(Some(self.places.position(start)))
    }
}

/// The verdicts on the policies of a set, whose places are in this text, and whose hints take their examples from it. Each
/// verdict is as `judge` gives it, but a policy is refused if an earlier one has its id. If memory is refused, the answer is an
/// `AllocError`.
pub fn judge_set<C: ArgumentCheck>(
    alloc: Global,
    settings: &Settings<'_, C>,
    text: &str,
    policies: &[Template],
) -> Result<Vec<Verdict>, AllocError>
    ensures { IfOk result (λ verdicts. AreVerdictsOn (basis_of C.refusal settings.now)
        settings.now.level (map template_of policies.now) verdicts.items) }
{
    let mut judge = SetJudge::new(alloc, text, text);
    let mut verdicts = Vec::with_capacity(alloc, policies.len())?;
    for policy in policies {
        verdicts.push(judge.judge_next(alloc, settings, policy)?)?;
    }
    Ok(verdicts)
}
