// The rule of calls of extension functions.
ghost use Rattle.std.specs.Prelude.{◌≡◌, ◌≤◌, ◌+◌, ◌∷◌, ◌++◌, length, is_some, IfOk, Some, map, option_map};
ghost use Rattle.cedar_types.specs.Errors.{finding_of, wrong_number_arguments};
ghost use Rattle.cedar_types.specs.Extensions.Functions.{function_of};
ghost use Rattle.cedar_types.specs.Names.{path_of};
ghost use Rattle.cedar_types.specs.Types.{ty_of};
ghost use Rattle.cedar_types.specs.Expressions.Tree.{call};
ghost use Rattle.cedar_types.specs.Expressions.View.{trees_of, written};
ghost use Rattle.cedar_typing.specs.Views.Calls.{IsCallOf, added_at, shape_of};
ghost use Rattle.cedar_typing.specs.Infer.{infer_within};
ghost use Rattle.cedar_typing.specs.Infer.Eager.{infer_form};
ghost use Rattle.cedar_typing.specs.Judgments.{max_nesting};
ghost use Rattle.cedar_typing.specs.Capabilities.Priors.{known_in};
ghost use Rattle.cedar_typing.specs.Rules.Calls.{call_decides, call_errors, check_faults, literal_faults, number_faults, takes, types_wanted};
ghost use Rattle.cedar_typing.specs.Views.Settings.{setting_at};
ghost use Rattle.cedar_typing.specs.TypeEnv.{finding};
ghost use Rattle.cedar_typing.specs.Views.{answer_of, at, decision_of, env_at, findings, operands_of};

use crate::typecheck::answer::TypecheckAnswer;
use crate::typecheck::prior::Prior;
use crate::typecheck::rules::eager::{Decision, add_errors, gives_unless};
use crate::typecheck::rules::literals::all_literals;
use crate::typecheck::rules::operand_list::OperandList;
use crate::typecheck::single_env::SingleEnvTypechecker;
use crate::typecheck::type_env::TypeEnv;
use crate::typecheck::typed_nodes::{call_node, with_capabilities};
use cedar_types::base::{
    ArgumentCheck, CedarType, Expr, ExtensionFunctionType, Loc, Name, ValidationError,
    ValidationMode,
};
use std::alloc::{AllocError, Global};

/// A call, as far as it is known before its arguments are typed.
#[derive(Drop)]
pub(crate) struct Call<'f> {
    /// The return type, if a function has the name.
    return_type: Option<&'f CedarType>,
    /// The types that the arguments must have: none beside an error of the call.
    pub argument_types: &'f [CedarType],
    /// The errors of the call itself, which its arguments' types do not decide.
    errors: Vec<ValidationError>,
}

impl<C: ArgumentCheck> SingleEnvTypechecker<'_, '_, '_, '_, C> {
    /// Types a call of an extension function, at `loc`.
    #[cycle(typing)]
    #[inline(never)]
    pub(crate) fn type_call<'a>(
        &self,
        prior: &Prior<'_, 'a>,
        depth: usize,
        loc: Option<Loc>,
        name: &Name,
        arguments: &'a Vec<Expr>,
        errors: &mut Vec<ValidationError>,
    ) -> Result<TypecheckAnswer<'a>, AllocError>
        requires { depth ≤ max_nesting }
        ensures { IfOk result (λ r.
            infer_within (setting_at C.refusal self.now)
            (call (at loc) (path_of name.now) (trees_of (map written arguments.now.items)))
            (known_in prior.now) depth (findings errors.old.items)
            ≡ (answer_of r, findings errors.new.items)) }
    {
        let call = self.call_of(loc, name, arguments)?;
        let types = call.argument_types;
        // the arguments after one that is too deep are not typed, in contrast to the elements of a
        // set
        let typed = self.type_operands(prior, depth, false, types, arguments, errors)?;
        let answer = self.env.call_answer(loc, name, call, typed, errors)?;
        Ok(answer)
    }

    /// The call of the function with this name at `loc`, or the error that no function has it.
    #[inline(never)]
    pub(crate) fn call_of(
        &self,
        loc: Option<Loc>,
        name: &Name,
        arguments: &[Expr],
    ) -> Result<Call<'_>, AllocError>
        ensures { IfOk result (λ c.
            IsCallOf (setting_at C.refusal self.now) loc (path_of name.now)
            (map written arguments.now) c) }
    {
        let Some(function) = self.extensions.func_type(name) else {
            // without a function nothing is expected of the arguments, but their own errors count
            let errors = self.env.unknown_function(loc, name)?;
            return Ok(Call {
                return_type: None,
                argument_types: &[],
                errors,
            });
        };
        let errors = self.env.call_errors(loc, function, arguments)?;
        // one mistake is one error, so beside an error of the call its arguments may have any type
        let argument_types = types_wanted(function, &errors);
        Ok(Call {
            return_type: Some(&function.return_type),
            argument_types,
            errors,
        })
    }
}

impl TypeEnv<'_, '_, '_, '_> {
    /// The error that no function has this name.
    fn unknown_function(
        &self,
        loc: Option<Loc>,
        name: &Name,
    ) -> Result<Vec<ValidationError>, AllocError>
        ensures { (xs : _) → IfOk result (λ v.
            findings v.items ≡ call_errors (env_at self.now) loc None (path_of name.now) xs) }
    {
        let policy_id = self.policy_id.clone()?;
        let mut errors = Vec::new(self.alloc);
        errors.push(ValidationError::undefined_extension(loc, policy_id, name.clone()?))?;
        Ok(errors)
    }

    /// The errors of the call itself, each that applies: a wrong number of arguments, a refusal by
    /// the function's check, and in Strict an argument of a checked function that is not a literal.
    fn call_errors<C: ArgumentCheck>(
        &self,
        loc: Option<Loc>,
        function: &ExtensionFunctionType<C>,
        arguments: &[Expr],
    ) -> Result<Vec<ValidationError>, AllocError>
        ensures { (n : _) → IfOk result (λ v.
            findings v.items
            ≡ call_errors (env_at self.now) loc (Some (function_of C.refusal function.now)) n
            (map written arguments.now)) }
    {
        let mut errors = Vec::new(self.alloc);
        // the errors do not depend on one another, so each that applies is told
        self.add_number_error(loc, function, arguments.len(), &mut errors)?;
        self.add_refusal(loc, &function.check_arguments, arguments, &mut errors)?;
        self.add_literal_error(
            loc,
            function.check_arguments.is_some(),
            arguments,
            &mut errors,
        )?;
        Ok(errors)
    }

    fn add_number_error<C>(
        &self,
        loc: Option<Loc>,
        function: &ExtensionFunctionType<C>,
        count: usize,
        errors: &mut Vec<ValidationError>,
    ) -> Result<(), AllocError>
        ensures { (meaning : _) (xs : _) → length xs ≡ count → IfOk result (λ u.
            findings errors.new.items
            ≡ findings errors.old.items
            ++ added_at (env_at self.now) loc
            (number_faults (function_of meaning function.now) xs)) }
    {
        if takes(function, count) {
            return Ok(());
        }
        errors.push(self.number_error(loc, function.argument_types.len(), count)?)?;
        Ok(())
    }

    fn number_error(
        &self,
        loc: Option<Loc>,
        expected: usize,
        actual: usize,
    ) -> Result<ValidationError, AllocError>
        ensures { IfOk result (λ e.
            finding_of e
            ≡ finding (env_at self.now) loc (wrong_number_arguments expected actual)) }
    {
        let policy_id = self.policy_id.clone()?;
        Ok(ValidationError::wrong_number_args(loc, policy_id, expected, actual))
    }

    /// Adds the refusal of the function's check, if it has a check, and this refuses the arguments.
    fn add_refusal<C: ArgumentCheck>(
        &self,
        loc: Option<Loc>,
        check: &Option<C>,
        arguments: &[Expr],
        errors: &mut Vec<ValidationError>,
    ) -> Result<(), AllocError>
        ensures { IfOk result (λ u.
            findings errors.new.items
            ≡ findings errors.old.items
            ++ added_at (env_at self.now) loc
            (check_faults (option_map C.refusal check.now) (map written arguments.now))) }
    {
        let Some(check) = check else {
            return Ok(());
        };
        // the check sees the arguments as they stand in the policy, before they are typed
        if let Err(refused) = check.check(arguments)? {
            let policy_id = self.policy_id.clone()?;
            let error = ValidationError::function_argument_validation(loc, policy_id, refused.msg);
            errors.push(error)?;
        }
        Ok(())
    }

    /// Adds the error of Strict if a function with a check has an argument that is not a literal.
    fn add_literal_error(
        &self,
        loc: Option<Loc>,
        is_checked: bool,
        arguments: &[Expr],
        errors: &mut Vec<ValidationError>,
    ) -> Result<(), AllocError>
        ensures { (check : _) → is_some check ≡ is_checked → IfOk result (λ u.
            findings errors.new.items
            ≡ findings errors.old.items
            ++ added_at (env_at self.now) loc
            (literal_faults self.now.mode check (map written arguments.now))) }
    {
        let is_strict = self.mode == ValidationMode::Strict;
        // the check can read only a text that stands in the policy, so Strict asks for literals
        if !(is_strict & is_checked) || all_literals(arguments) {
            return Ok(());
        }
        let policy_id = self.policy_id.clone()?;
        errors.push(ValidationError::non_lit_ext_constructor(loc, policy_id))?;
        Ok(())
    }

    /// The answer for a call at `loc` whose arguments are typed, or one of which is too deep. The
    /// call's own errors are kept beside the limit too, because they are found before the arguments
    /// are typed.
    #[inline(never)]
    pub(crate) fn call_answer<'a>(
        &self,
        loc: Option<Loc>,
        name: &Name,
        call: Call<'_>,
        arguments: OperandList,
        errors: &mut Vec<ValidationError>,
    ) -> Result<TypecheckAnswer<'a>, AllocError>
        ensures { (qs : _) → IfOk result (λ r.
            infer_form (shape_of (at loc) (path_of name.now) qs call.entry) (operands_of arguments)
            (findings errors.old.items)
            ≡ (answer_of r, findings errors.new.items)) }
    {
        if arguments.is_cut {
            add_errors(errors, call.errors)?;
            return Ok(TypecheckAnswer::RecursionLimit);
        }
        match decide_call(self.alloc, call)? {
            Decision::Gives(ty, capabilities) => {
                let typed = call_node(self.alloc, loc, name, Some(ty), arguments.typed)?;
                Ok(with_capabilities(arguments.succeeded, typed, capabilities))
            }
            Decision::Refuses(ty, found) => {
                let typed = call_node(self.alloc, loc, name, ty, arguments.typed)?;
                add_errors(errors, found)?;
                Ok(TypecheckAnswer::fail(typed))
            }
        }
    }
}

/// The types that the arguments must have if the call has these errors: none beside an error.
fn types_wanted<'f, C>(
    function: &'f ExtensionFunctionType<C>,
    errors: &[ValidationError],
) -> &'f [CedarType]
    ensures { (meaning : _) → map ty_of result.now
        ≡ types_wanted (Some (function_of meaning function.now)) (findings errors.now) }
{
    match errors {
        [] => &function.argument_types,
        [_, ..] => &[],
    }
}

/// Whether the function takes this number of arguments. A variadic function takes more too.
fn takes<C>(function: &ExtensionFunctionType<C>, count: usize) -> bool
    ensures { (meaning : _) → result ≡ takes (function_of meaning function.now) count }
{
    if function.is_variadic {
        count >= function.argument_types.len()
    } else {
        count == function.argument_types.len()
    }
}

/// The return type of the call, or its errors.
fn decide_call<'a>(alloc: Global, call: Call<'_>) -> Result<Decision<'a>, AllocError>
    ensures { IfOk result (λ d. decision_of d
        ≡ call_decides (option_map (λ t. ty_of t.now) call.entry.return_type)
        (findings call.entry.errors.items)) }
{
    match call.return_type {
        Some(ty) => Ok(gives_unless(alloc, call.errors, ty.clone()?)),
        None => Ok(Decision::Refuses(None, call.errors)),
    }
}
