// Cases for where-clauses: the tables of a schema, and the clause of each policy in each environment, or the reason why it has
// none. A failed check leaves its clause too, so that clauses of conditions that fail in evaluation are run.
// scripts/where_cases.py runs it.
use crate::texts::*;
use cedar_types::base::{CedarType, EntityType, Expr, ValidatorSchema};
use cedar_types::types::request_env::RequestEnv;
use cedar_typing::typecheck::ConditionCheck;
use cedar_where::{AncestorTable, Refusal, SqlExpr, Table, where_clause};
use std::{fs, io};

/// Prints the tables of the schema of a file, and the clauses of the policies of another file.
pub fn run(rt: &HostRuntime, files: Files<'_>) -> Result<(), HostError> {
    let alloc = rt.alloc();
    let schema = whole_schema(alloc, &fs::read_to_string(rt, files.schema)?)?;
    let policies = written_policies(alloc, &fs::read_to_string(rt, files.policies)?)?;
    let extensions = ExtensionSchemas::default(alloc);
    let checker = Typechecker::new(&schema, &extensions, ValidationMode::Strict);
    let ancestors = AncestorTable.to_string(alloc)?;
    print_text(rt, ancestors.as_str())?;
    for entity_type in &schema.entity_type_names(alloc)? {
        print_type(rt, &schema, entity_type)?;
    }
    for policy in &policies {
        for env in schema.unlinked_request_envs(ValidationMode::Strict) {
            print_policy(rt, &schema, &checker, policy, &env)?;
        }
    }
    Ok(())
}

/// The clause of a policy in an environment, or the reason why it has none.
fn print_policy<C: ArgumentCheck>(
    rt: &HostRuntime,
    schema: &ValidatorSchema,
    checker: &Typechecker<'_, C>,
    policy: &WrittenPolicy,
    env: &RequestEnv<'_>,
) -> Result<(), HostError> {
    let alloc = rt.alloc();
    let checked = checker.typecheck_condition(alloc, &policy.template, env)?;
    match typed_condition(checked) {
        Some(typed) => {
            let clause = where_clause(alloc, schema, env, &typed)?;
            print_clause(rt, schema, env, policy, clause)
        }
        None => {
            let id = &policy.template.id;
            println!(rt; "{id} {} - no tree", policy.effect)?;
            Ok(())
        }
    }
}

/// The condition with its types, even if its check fails. A part that is nested too deep leaves none.
fn typed_condition(checked: ConditionCheck) -> Option<Expr<Option<CedarType>>> {
    match checked {
        ConditionCheck::Success(typed) => Some(typed),
        ConditionCheck::Irrelevant(_errors, typed) => Some(typed),
        ConditionCheck::Fail(_errors, typed) => typed,
    }
}

/// A text behind its length in bytes, because it may have line breaks.
fn print_text(rt: &HostRuntime, text: &str) -> io::Result<()> {
    println!(rt; "{} {text}", text.len())
}

/// The table of an entity type.
fn print_type(
    rt: &HostRuntime,
    schema: &ValidatorSchema,
    entity_type: &EntityType,
) -> Result<(), HostError> {
    let alloc = rt.alloc();
    match Table::of_type(alloc, schema, entity_type)? {
        Ok(table) => {
            let text = table.to_string(alloc)?;
            print_text(rt, text.as_str())?;
        }
        Err(fault) => println!(rt; "- {fault}")?,
    }
    Ok(())
}

fn print_clause(
    rt: &HostRuntime,
    schema: &ValidatorSchema,
    env: &RequestEnv<'_>,
    policy: &WrittenPolicy,
    clause: Result<SqlExpr, Refusal>,
) -> Result<(), HostError> {
    let alloc = rt.alloc();
    let id = &policy.template.id;
    print!(rt; "{id} {} ", policy.effect)?;
    let Some(resource) = env.resource_entity_type() else {
        return Ok(());
    };
    match (clause, Table::of_type(alloc, schema, resource)?) {
        (Ok(clause), Ok(table)) => {
            let text = table.text_of(&clause).to_string(alloc)?;
            print_text(rt, text.as_str())?;
        }
        (Err(refusal), _) => println!(rt; "- {refusal}")?,
        (_, Err(fault)) => println!(rt; "- {fault}")?,
    }
    Ok(())
}
