// Operands of any number, typed one after another: the elements of a set, the arguments of a call.
ghost use Rattle.std.specs.Prelude.{◌≡◌, ◌≤◌, ◌+◌, true, [], IfOk, map, option_map};
ghost use Rattle.cedar_types.specs.Types.{ty_of};
ghost use Rattle.cedar_types.specs.Expressions.View.{trees_of, written};
ghost use Rattle.cedar_typing.specs.Infer.{infer_all};
ghost use Rattle.cedar_typing.specs.Infer.Eager.{all_typed};
ghost use Rattle.cedar_typing.specs.Judgments.{max_nesting};
ghost use Rattle.cedar_typing.specs.Rules.Calls.{expected_arguments};
ghost use Rattle.cedar_typing.specs.Views.Settings.{setting_at};
ghost use Rattle.cedar_typing.specs.Views.{expected_types, findings, first_wanted, later_types, operands_of, part_of, with_element};
ghost use Rattle.cedar_typing.specs.Capabilities.Priors.{known_in};

use crate::typecheck::answer::Part;
use crate::typecheck::operands::Expected;
use crate::typecheck::prior::Prior;
use crate::typecheck::single_env::SingleEnvTypechecker;
use cedar_types::base::{ArgumentCheck, CedarType, Expr, ValidationError};
use std::alloc::{AllocError, Global};

/// The result of typing operands one after another.
#[derive(Drop)]
pub(crate) struct OperandList {
    /// The typed copies of the operands before the first that is too deep.
    pub typed: Vec<Expr<Option<CedarType>>>,
    /// Whether all operands with a copy succeeded.
    pub succeeded: bool,
    /// Whether an operand is too deep.
    pub is_cut: bool,
}

impl OperandList {
    /// The result for no operand.
    fn none(alloc: Global) -> OperandList
        ensures { operands_of result ≡ all_typed true [] }
    {
        OperandList {
            typed: Vec::new(alloc),
            succeeded: true,
            is_cut: false,
        }
    }

    /// The result with one more operand, which is too deep if it has no part. After such an operand
    /// no copy is kept, because the whole has none.
    #[inline(never)]
    fn with(self, operand: Option<Part<'_>>) -> Result<OperandList, AllocError>
        ensures { IfOk result (λ r. operands_of r
            ≡ with_element (operands_of self) (option_map part_of operand.entry)) }
    {
        if self.is_cut {
            return Ok(self);
        }
        let mut typed = self.typed;
        match operand {
            Some(part) => {
                typed.push(Box::into_inner(part.typed))?;
                Ok(OperandList {
                    typed,
                    succeeded: part.succeeded & self.succeeded,
                    is_cut: false,
                })
            }
            None => Ok(OperandList {
                typed,
                succeeded: self.succeeded,
                is_cut: true,
            }),
        }
    }
}

impl<C: ArgumentCheck> SingleEnvTypechecker<'_, '_, '_, '_, C> {
    /// Types operands, each one deeper than the whole. Each must be of the type at its place in
    /// `types`, those beyond the last type of the last one; without types they may be anything. If
    /// `goes_on`, the operands after one that is too deep are typed too, so that their errors
    /// count.
    #[cycle(typing)]
    pub(crate) fn type_operands<'a>(
        &self,
        prior: &Prior<'_, 'a>,
        depth: usize,
        goes_on: bool,
        types: &[CedarType],
        operands: &'a Vec<Expr>,
        errors: &mut Vec<ValidationError>,
    ) -> Result<OperandList, AllocError>
        requires { depth ≤ max_nesting }
        ensures { IfOk result (λ r.
            infer_all (setting_at C.refusal self.now) goes_on
            (expected_arguments (map ty_of types.now) (map written operands.now.items))
            (trees_of (map written operands.now.items))
            (known_in prior.now) (depth + 1) (findings errors.old.items)
            ≡ (operands_of r, findings errors.new.items)) }
    {
        let mut all = OperandList::none(self.env.alloc);
        let mut left = types;
        for operand in operands {
            let answer = self.typecheck(prior, depth + 1, operand, errors)?;
            let expected = first_of(left);
            let part = self.env.operand(expected, operand.loc, answer, errors)?;
            if part.is_none() & !goes_on {
                let cut = all.with(part)?;
                return Ok(cut);
            }
            all = all.with(part)?;
            left = later_types(left);
        }
        Ok(all)
    }
}

/// The expected type of the first operand: the first type, if there is one.
fn first_of(types: &[CedarType]) -> Option<Expected<'_>>
    ensures { option_map expected_types result ≡ first_wanted (map ty_of types.now) }
{
    match types.first() {
        Some(ty) => Some(Expected::Exactly(ty)),
        None => None,
    }
}

/// The types of the operands after the first. The last type stays, because operands beyond it must
/// be of it.
fn later_types(types: &[CedarType]) -> &[CedarType]
    ensures { map ty_of result.now ≡ later_types (map ty_of types.now) }
{
    if types.len() < 2 {
        return types;
    }
    &types[1..]
}
