//! The response of an authoriser over a store and over parts of it: laws, each on a function that does nothing.
ghost use Rattle.cedar_host.specs.ResponseExamples.{ResponseExamples};
ghost use Rattle.cedar_host.specs.ResponseLaws.{ImpossibleDecidesNothing, OrderDecidesNothing};
ghost use Rattle.cedar_host.specs.Responses.{AcceptedNeedSliceAlone, ErrorsAreAllowed, ImpossibleIsNeverSatisfied, ResponsesNeedSliceAlone, TypedResponsesAreTheSame};

/// Policies that are accepted for slices of n steps get the same response over each part of the store that holds such a slice:
/// the same decision, determining policies and errors. An error is a missing entity, an overflow or a failed extension call. A
/// policy that is reported as impossible is never satisfied. Typed conditions in place of conditions change no response.
pub fn responses_need_slice_alone()
    ensures same { ResponsesNeedSliceAlone }
    ensures errors { ErrorsAreAllowed }
    ensures accepted { AcceptedNeedSliceAlone }
    ensures impossible { ImpossibleIsNeverSatisfied }
    ensures typed { TypedResponsesAreTheSame }
{}

/// Responses to some policies, by the outcome of each.
pub fn examples_of_responses()
    ensures { ResponseExamples }
{}

/// A response is the same in each order of the policies, as far as its lists have an order. And it has the same decision and the
/// same determining policies where an impossible policy is left out.
pub fn nothing_else_decides()
    ensures order { OrderDecidesNothing }
    ensures impossible { ImpossibleDecidesNothing }
{}
