//! Examples of the promises to a host, on a function that does nothing, and conclusions from laws
//! of responses.
ghost use Rattle.cedar_examples.specs.ResponseConclusions.{ImpossibleForbidsAreNotSatisfied, LoadedPartsAgree, LoadedPartsRespondAlike, NoTypeFailures};
ghost use Rattle.cedar_examples.specs.LeftOut.{LeftOutPremises};
ghost use Rattle.cedar_examples.specs.LoadedData.{LoadedDataExamples};
ghost use Rattle.cedar_examples.specs.Places.{PlaceExamples};
ghost use Rattle.cedar_examples.specs.Promises.{ConditionPromises, EvaluationExamples, FirstUnmetExamples, ResponsePromises};

use cedar_host::loaded_outcomes::loaded_is_enough;
use cedar_host::responses::responses_need_slice_alone;

/// Policies, reports and typed conditions that break a promise to a host; and the premise that is
/// looked at first.
pub fn examples_of_promises()
    ensures evaluation { EvaluationExamples }
    ensures responses { ResponsePromises }
    ensures conditions { ConditionPromises }
    ensures unmet { FirstUnmetExamples }
{}

/// Examples of laws: each premise is needed for an impossible policy to be left out; entries that
/// need to conform if a part of a store was loaded; and places that stand in the order of a report.
pub fn examples_of_laws()
    ensures left_out { LeftOutPremises }
    ensures loaded { LoadedDataExamples }
    ensures places { PlaceExamples }
{}

/// Conclusions from the laws of responses, and of entities that were loaded.
pub fn conclusions_of_laws()
    ensures failures { NoTypeFailures }
    ensures forbids { ImpossibleForbidsAreNotSatisfied }
    ensures parts { LoadedPartsAgree }
    ensures responses { LoadedPartsRespondAlike }
{
    responses_need_slice_alone();
    loaded_is_enough();
}
