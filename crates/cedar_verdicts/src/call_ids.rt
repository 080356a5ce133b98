//! Ids of the policies of several files, because no two policies of a call may have one id.
ghost use Rattle.std.specs.Prelude.{◌≡◌, ◌+◌, ◌-◌, ◌^◌, ◌&&◌, min, true, false, not, None, OnOk};
ghost use Rattle.cedar_types.specs.Names.{Text, text_of};
ghost use Rattle.cedar_verdicts.specs.CallIds.{file_of, has_other, number_after};

use crate::causes::place_of;
use cedar_findings::codes::Code;
use cedar_findings::escapes::Shown;
use cedar_findings::findings::{Finding, Verdict};
use cedar_types::base::Template;
use std::alloc::{AllocError, Global};
use std::collections::BTreeMap;
use std::rc::RcStr;

/// The ids so far, each with the first file that has it. A file is known by its number, because one name may be given twice.
#[derive(Drop)]
pub struct CallIds {
    files: BTreeMap<RcStr, FirstFile>,
    /// The number of the file whose policies come next.
    number: usize,
}

/// The first file with an id.
#[derive(Drop)]
struct FirstFile {
    number: usize,
    name: RcStr,
}

impl CallIds {
    /// An empty collection of ids.
    pub fn new(alloc: Global) -> CallIds
        ensures { (t : Text) → file_of result t ≡ None }
    {
        CallIds {
            files: BTreeMap::new(alloc),
            number: 0,
        }
    }

    /// Begins the next file of the call, whose number no id has (clause `next`), unless that is the
    /// greatest one.
    pub fn begin_file(&mut self)
        ensures next { self.new.number ≡ min (self.old.number + 1) (2 ^ 64 - 1) }
        ensures kept { self.new.files ≡ self.old.files }
    {
        self.number = self.number.saturating_add(1);
    }

    /// Takes note of the id of a policy of this file, unless a file has it already (clause `noted`).
    /// If another file has the id, the policy is refused, and an error says so (clause `exact`): a
    /// verdict that accepts is the one that was given (clause `strict`), and the level and the
    /// warnings stay (clauses `level` and `warnings`). It fails if memory is refused.
    pub fn take(
        &mut self,
        alloc: Global,
        file: &str,
        policy: &Template,
        verdict: &mut Verdict,
    ) -> Result<(), AllocError>
        ensures exact { OnOk result (verdict.new.is_accepted
            ≡ (verdict.old.is_accepted && not (has_other self.old (text_of policy.now.id.text)))) }
        ensures noted { OnOk result ((t : Text) → file_of self.new t
            ≡ number_after self.old (text_of policy.now.id.text) t) }
        ensures same_file { self.new.number ≡ self.old.number }
        ensures strict { OnOk result
            (verdict.new.is_accepted ≡ true → verdict.new ≡ verdict.old) }
        ensures level { OnOk result (verdict.new.requirement ≡ verdict.old.requirement) }
        ensures warnings { OnOk result (verdict.new.warnings ≡ verdict.old.warnings) }
    {
        let id = policy.id.text.clone()?;
        if let Some(first) = self.files.get(&id) {
            // the set of one file has refused its own repeats already
            if first.number == self.number {
                return Ok(());
            }
            let other = Shown(first.name.as_str());
            let text = format!(in alloc; "a policy of {other} has the same id")?;
            return refuse(alloc, policy, text.as_str(), verdict);
        }
        let first = FirstFile {
            number: self.number,
            name: RcStr::from_str(alloc, file)?,
        };
        self.files.insert(id, first)?;
        Ok(())
    }
}

/// Turns a verdict into a refusal, with an error of this text.
fn refuse(
    alloc: Global,
    policy: &Template,
    why: &str,
    verdict: &mut Verdict,
) -> Result<(), AllocError>
    ensures refused { OnOk result (verdict.new.is_accepted ≡ false) }
    ensures level { OnOk result (verdict.new.requirement ≡ verdict.old.requirement) }
    ensures warnings { OnOk result (verdict.new.warnings ≡ verdict.old.warnings) }
{
    let place = Some(place_of(policy));
    let error = Finding::new(alloc, policy, Code::SameId, place, why)?;
    verdict.errors.push(error)?;
    verdict.errors.sort()?;
    verdict.is_accepted = false;
    Ok(())
}
