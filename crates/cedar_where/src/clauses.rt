// Where-clauses of typed conditions.
ghost use Rattle.std.specs.Prelude.{◌≡◌, IfOk};
ghost use Rattle.cedar_types.specs.Environments.RequestEnvs.{env_of};
ghost use Rattle.cedar_types.specs.Schemas.Contents.{schema_of};
ghost use Rattle.cedar_typing.specs.TypedExpr.{typed_tree};
ghost use Rattle.cedar_where.specs.Compiled.{clause_at, clause_of};
ghost use Rattle.cedar_where.specs.Meaning.{MeansTheCondition, ChoosesTheTrue};
ghost use Rattle.cedar_where.specs.Views.{clause_in, sql_of, term_in};

use crate::compile::compile;
use crate::refusals::{Reason, Refusal};
use crate::scopes::{Scope, Typed};
use crate::sql::SqlExpr;
use crate::terms::Compiled;
use cedar_types::base::{CedarType, Loc, ValidatorSchema};
use cedar_types::types::request_env::RequestEnv;
use std::alloc::{AllocError, Global};

/// The where-clause of a typed condition over the table of its environment's resource type, or the part of the condition that
/// has none, with the reason.
///
/// Over a row that holds the resource of a request of the environment (`IsRowOf`), with the parameters of the request, the
/// clause is TRUE if the condition is true, FALSE if it is false, and NULL if its evaluation fails (clause `means`). So a row is
/// chosen exactly if the condition is true (clause `chosen`). `clause_at` tells which conditions have a clause, and which one it
/// is (clause `exact`). If memory is refused, the answer is an `AllocError`.
pub fn where_clause(
    alloc: Global,
    schema: &ValidatorSchema,
    env: &RequestEnv<'_>,
    condition: &Typed,
) -> Result<Result<SqlExpr, Refusal>, AllocError>
    ensures means { IfOk result (λ c. IfOk c (λ sql.
        MeansTheCondition (schema_of schema.now) (env_of env.now) (typed_tree condition.now)
        (sql_of sql))) }
    ensures chosen { IfOk result (λ c. IfOk c (λ sql.
        ChoosesTheTrue (schema_of schema.now) (env_of env.now) (typed_tree condition.now)
        (sql_of sql))) }
    ensures exact { IfOk result (λ c.
        clause_at (schema_of schema.now) (env_of env.now) (typed_tree condition.now)
        ≡ clause_in c) }
{
    clause_in_env(alloc, schema, env, condition)
}

fn clause_in_env(
    alloc: Global,
    schema: &ValidatorSchema,
    env: &RequestEnv<'_>,
    condition: &Typed,
) -> Result<Result<SqlExpr, Refusal>, AllocError>
    ensures { IfOk result (λ c.
        clause_at (schema_of schema.now) (env_of env.now) (typed_tree condition.now)
        ≡ clause_in c) }
{
    match env {
        RequestEnv::DeclaredAction {
            principal,
            action,
            resource,
            context,
            ..
        } => {
            let principal_type = CedarType::entity_reference(alloc, principal, schema)?;
            let resource_type = CedarType::entity_reference(alloc, resource, schema)?;
            let scope = Scope {
                schema,
                principal,
                action,
                resource,
                principal_type: &principal_type,
                resource_type: &resource_type,
                context,
            };
            let compiled = compile(alloc, &scope, condition)?;
            Ok(clause(condition.loc, compiled))
        }
        RequestEnv::UndeclaredAction => {
            Ok(Err(Refusal::new(condition.loc, Reason::UndeclaredAction)))
        }
    }
}

/// The clause, if it is a truth value.
fn clause(loc: Option<Loc>, compiled: Compiled) -> Result<SqlExpr, Refusal>
    ensures { clause_in result ≡ clause_of (term_in compiled) }
{
    match compiled {
        Err(refusal) => Err(refusal),
        Ok(term) => {
            if term.kind.is_bool() {
                Ok(Box::into_inner(term.sql))
            } else {
                Err(Refusal::new(loc, Reason::NotBoolean))
            }
        }
    }
}
