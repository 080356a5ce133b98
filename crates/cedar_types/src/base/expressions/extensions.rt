// Extension functions, and the table of those that a policy may call.
ghost use Rattle.std.specs.Prelude.{◌≡◌, false, List, Option, None, map, IfOk};
ghost use Rattle.std.specs.Option.{is_some};
ghost use Rattle.std.specs.Ordering.{is_lt};
ghost use Rattle.std.specs.List.Sorted.{IsSortedBy};
ghost use Rattle.cedar_types.specs.Expressions.Tree.{Tree};
ghost use Rattle.cedar_types.specs.Expressions.View.{Written, written};
ghost use Rattle.cedar_types.specs.Extensions.ArgumentChecks.{refusal_of};
ghost use Rattle.cedar_types.specs.Names.{Text, path_of, path_cmp};
ghost use Rattle.cedar_types.specs.Extensions.Functions.{function_of, table_fault};

mod faults;

use crate::base::expressions::Expr;
use crate::base::expressions::extensions::faults::{
    has_bad_return, has_variadic_without_arguments, neighbours_differ,
};
use crate::base::names::Name;
use crate::base::types::CedarType;
use std::alloc::{AllocError, Global};
use std::cmp::Ordering;
use std::collections::BTreeSet;
use std::rc::RcStr;
use thiserror::Error;

/// The reason for which a check refused the arguments of a call.
#[derive(PartialEq, Eq, Debug, Drop, Error)]
#[error("{msg}")]
pub struct ArgumentError {
    pub msg: RcStr,
}

/// A check of the arguments of a call, as they stand in the policy.
///
/// The caller of `check` passes an `AllocError` on.
pub trait ArgumentCheck: Drop {
    // the meaning of the check: the message with which it refuses these arguments, if it does
    ghost refusal: { Self → List (Tree Written) → Option Text };

    fn check(&self, args: &[Expr]) -> Result<Result<(), ArgumentError>, AllocError>
        ensures { IfOk result (λ r. refusal_of r ≡ refusal self.now (map written args.now)) };
}

impl ArgumentCheck for Box<dyn ArgumentCheck> {
    ghost refusal = { λ b. (ArgumentCheck-box b).refusal b.value };

    fn check(&self, args: &[Expr]) -> Result<Result<(), ArgumentError>, AllocError> {
        (**self).check(args)
    }
}

/// An extension function: its name, the types of its arguments and of its answer, and a check of
/// its arguments.
///
/// A variadic function takes its last argument type any further number of times.
#[derive(Drop)]
pub struct ExtensionFunctionType<C = Box<dyn ArgumentCheck>> {
    pub name: Name,
    pub argument_types: Vec<CedarType>,
    pub is_variadic: bool,
    pub return_type: CedarType,
    pub check_arguments: Option<C>,
}

/// The extension functions that a policy may call, and the extension types that `<` and `<=`
/// compare. Like a function, the table has boxed checks unless `C` says otherwise.
#[derive(Drop)]
pub struct ExtensionSchemas<C = Box<dyn ArgumentCheck>> {
    // ascending by name
    pub(crate) functions: Vec<ExtensionFunctionType<C>>,
    pub(crate) overloaded_types: BTreeSet<Name>,
    pub ghost ascending: { IsSortedBy
        (λ f g. is_lt (path_cmp (path_of f.name) (path_of g.name))) functions.items },
    pub ghost faultless: { is_some
        (table_fault (map (function_of (λ check args. None)) functions.items)) ≡ false },
}

#[tactic(auto, unfolding(crate::specs::Extensions::functions_of, crate::specs::Extensions::overloaded_types_of))]
impl ExtensionSchemas {
    ghost use Rattle.std.specs.Prelude.{[], Some, option_map, IfErr};
    ghost use Rattle.cedar_types.specs.Names.Comparisons.{name_cmp};
    ghost use Rattle.cedar_types.specs.Extensions.Functions.{function_named};
    ghost use Rattle.cedar_types.specs.Extensions.{functions_of, overloaded_types_of};

    /// The table without functions and without overloaded types. The call allocates no memory.
    pub fn default(alloc: Global) -> ExtensionSchemas
        ensures functions { (meaning : _) → functions_of meaning result ≡ [] }
        ensures overloaded_types { overloaded_types_of result ≡ [] }
    {
        ExtensionSchemas {
            functions: Vec::new(alloc),
            overloaded_types: BTreeSet::new(alloc),
        }
    }

    /// The table of these functions and overloaded types, or the reason for its refusal. The call
    /// allocates no memory.
    ///
    /// - `BadReturnType`: a function has a return type that no function may have.
    /// - `VariadicWithoutArguments`: no return type is at fault, and a variadic function has no
    ///   argument types.
    /// - `DuplicateFunction`: neither of these holds, and two functions have one name.
    pub fn new(
        mut functions: Vec<ExtensionFunctionType>,
        overloaded_types: BTreeSet<Name>,
    ) -> Result<ExtensionSchemas, ExtensionTableError>
        ensures faultless { IfOk result (λ s. (meaning : _) →
            table_fault (map (function_of meaning) functions.items) ≡ None) }
        ensures functions { IfOk result (λ s. (meaning : _) (n : _) →
            function_named n (functions_of meaning s)
            ≡ function_named n (map (function_of meaning) functions.items)) }
        ensures overloaded_types { IfOk result (λ s.
            overloaded_types_of s ≡ map path_of overloaded_types.keys) }
        ensures refused { IfErr result (λ e. (meaning : _) →
            table_fault (map (function_of meaning) functions.items) ≡ Some e) }
    {
        if has_bad_return(&functions) {
            return Err(ExtensionTableError::BadReturnType);
        }
        if has_variadic_without_arguments(&functions) {
            return Err(ExtensionTableError::VariadicWithoutArguments);
        }
        functions.sort_unstable_by(
            |f: &ExtensionFunctionType, g: &ExtensionFunctionType| -> Ordering
                ensures { result ≡ name_cmp f.now.name g.now.name }
            { f.name.cmp(&g.name) },
        );
        if !neighbours_differ(&functions) {
            return Err(ExtensionTableError::DuplicateFunction);
        }
        Ok(ExtensionSchemas {
            functions,
            overloaded_types,
        })
    }
}

#[tactic(auto, unfolding(crate::specs::Extensions::functions_of, crate::specs::Extensions::overloaded_types_of))]
impl<C> ExtensionSchemas<C> {
    ghost use Rattle.std.specs.Prelude.{option_map};
    ghost use Rattle.cedar_types.specs.Extensions.Functions.{function_named};
    ghost use Rattle.cedar_types.specs.Extensions.{functions_of, overloaded_types_of};

    /// The function of this name, if there is one. The call allocates no memory, and each
    /// comparison of two names halves the functions that are left.
    pub fn func_type(&self, name: &Name) -> Option<&ExtensionFunctionType<C>>
        ensures { (meaning : _) →
            option_map (λ f. function_of meaning f.now) result
            ≡ function_named (path_of name.now) (functions_of meaning self.now) }
    {
        let mut low = 0;
        let mut high = self.functions.len();
        while low < high {
            let middle = low + (high - low) / 2;
            let function = &self.functions[middle];
            match function.name.cmp(name) {
                Ordering::Less => low = middle + 1,
                Ordering::Equal => return Some(function),
                Ordering::Greater => high = middle,
            }
        }
        None
    }

    /// The extension types that `<` and `<=` compare.
    pub fn overloaded_types(&self) -> &BTreeSet<Name>
        ensures { map path_of result.now.keys ≡ overloaded_types_of self.now }
    {
        &self.overloaded_types
    }
}

/// The reason for which a table of extension functions is refused.
#[derive(Clone, Copy, PartialEq, Eq, Debug, Error)]
pub enum ExtensionTableError {
    /// A return type is none of: a Boolean, a long, a string, an extension value, or a set of one
    /// of these.
    #[error("BadReturnType")]
    BadReturnType,
    /// A variadic function has no argument types.
    #[error("VariadicWithoutArguments")]
    VariadicWithoutArguments,
    /// Two functions have one name.
    #[error("DuplicateFunction")]
    DuplicateFunction,
}
