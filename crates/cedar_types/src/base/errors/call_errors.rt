// Errors on calls of extension functions.
use crate::base::errors::messages::Message;
use crate::base::errors::validation_errors::ValidationError;
use crate::base::location::Loc;
use crate::base::names::Name;
use crate::base::names::policy_ids::PolicyID;
use std::rc::RcStr;
use thiserror::Error;

/// A policy calls a function that the table of extension functions does not have.
#[derive(PartialEq, Eq, PartialOrd, Ord, Hash, Debug, Drop, Error)]
#[error("for policy `{policy_id}`, {0}", Message(self))]
pub struct UndefinedFunction {
    pub source_loc: Option<Loc>,
    pub policy_id: PolicyID,
    pub name: Name,
}

/// A policy calls a function with too few or too many arguments.
#[derive(PartialEq, Eq, PartialOrd, Ord, Hash, Debug, Drop, Error)]
#[error("for policy `{policy_id}`, {0}", Message(self))]
pub struct WrongNumberArguments {
    pub source_loc: Option<Loc>,
    pub policy_id: PolicyID,
    pub expected: usize,
    pub actual: usize,
}

/// The check of a function refused its arguments.
#[derive(PartialEq, Eq, PartialOrd, Ord, Hash, Debug, Drop, Error)]
#[error("for policy `{policy_id}`, {0}", Message(self))]
pub struct FunctionArgumentValidation {
    pub source_loc: Option<Loc>,
    pub policy_id: PolicyID,
    pub msg: RcStr,
}

/// A policy calls a checked function with an argument that is no literal, in Strict.
#[derive(PartialEq, Eq, PartialOrd, Ord, Hash, Debug, Drop, Error)]
#[error("for policy `{policy_id}`, {0}", Message(self))]
pub struct NonLitExtConstructor {
    pub source_loc: Option<Loc>,
    pub policy_id: PolicyID,
}

impl ValidationError {
    ghost use Rattle.std.specs.Prelude.{◌≡◌};
    ghost use Rattle.cedar_types.specs.Names.{text_of, path_of};
    ghost use Rattle.cedar_types.specs.Errors.{finding_of, found, undefined_function, wrong_number_arguments, function_argument_validation, non_lit_ext_constructor};

    /// The error on a call of an unknown function.
    pub fn undefined_extension(
        source_loc: Option<Loc>,
        policy_id: PolicyID,
        name: Name,
    ) -> ValidationError
        ensures { finding_of result
            ≡ found source_loc policy_id (undefined_function (path_of name)) }
    {
        ValidationError::UndefinedFunction(UndefinedFunction {
            source_loc,
            policy_id,
            name,
        })
    }

    /// The error on a wrong number of arguments.
    pub fn wrong_number_args(
        source_loc: Option<Loc>,
        policy_id: PolicyID,
        expected: usize,
        actual: usize,
    ) -> ValidationError
        ensures { finding_of result
            ≡ found source_loc policy_id (wrong_number_arguments expected actual) }
    {
        ValidationError::WrongNumberArguments(WrongNumberArguments {
            source_loc,
            policy_id,
            expected,
            actual,
        })
    }

    /// The error on arguments that a check refused with this message.
    pub fn function_argument_validation(
        source_loc: Option<Loc>,
        policy_id: PolicyID,
        msg: RcStr,
    ) -> ValidationError
        ensures { finding_of result
            ≡ found source_loc policy_id (function_argument_validation (text_of msg)) }
    {
        ValidationError::FunctionArgumentValidation(FunctionArgumentValidation {
            source_loc,
            policy_id,
            msg,
        })
    }

    /// The error on an argument that is no literal.
    pub fn non_lit_ext_constructor(source_loc: Option<Loc>, policy_id: PolicyID) -> ValidationError
        ensures { finding_of result ≡ found source_loc policy_id non_lit_ext_constructor }
    {
        ValidationError::NonLitExtConstructor(NonLitExtConstructor {
            source_loc,
            policy_id,
        })
    }
}
