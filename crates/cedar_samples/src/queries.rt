// A compiler of policies to queries: for each environment of a schema, the table of its resources, and the query of the resources
// that a set of policies allows.
use crate::texts::*;
use cedar_types::base::{Effect, EntityType, OneLine, ValidatorSchema};
use cedar_types::types::request_env::RequestEnv;
use cedar_typing::typecheck::PolicyCheck;
use cedar_where::{AncestorTable, Refusal, SqlExpr, Table, joined, where_clause};
use std::fs;

/// Prints, for each environment of the schema of a file, the query of the resources that the policies of another file allow,
/// and each table before the first query that needs it. A set with two policies of one id, or with one that validation does not
/// accept, has no query; nor has an environment in which some policy has no clause, or a query reads a type without a table.
pub fn run(rt: &HostRuntime, files: Files<'_>) -> Result<(), HostError> {
    let alloc = rt.alloc();
    let schema = whole_schema(alloc, &fs::read_to_string(rt, files.schema)?)?;
    let extensions = ExtensionSchemas::default(alloc);
    let validator = Validator::new(schema, &extensions);
    let policies = written_policies(alloc, &fs::read_to_string(rt, files.policies)?)?;
    for id in repeated_ids(alloc, &policies)? {
        return Err(HostError::RepeatedId(id));
    }
    if are_accepted(rt, &validator, &policies)? {
        println!(rt; "{AncestorTable};")?;
        print_queries(rt, &validator, &policies)?;
    }
    Ok(())
}

/// Whether each policy is accepted in Strict. The findings against a refused one are printed.
fn are_accepted<C: ArgumentCheck>(
    rt: &HostRuntime,
    validator: &Validator<'_, C>,
    policies: &[WrittenPolicy],
) -> Result<bool, HostError> {
    let mut all = true;
    for report in &validate_set(rt.alloc(), validator, SoundMode::Strict, policies)? {
        if !report.is_accepted {
            all = false;
            let id = &report.policy.template.id.text;
            println!(rt; "-- not accepted: {}", OneLine(id))?;
            for error in &report.errors {
                println!(rt; "--   {error}")?;
            }
        }
    }
    Ok(all)
}

/// The query of each environment, behind the table of its resources where no environment before it has this table.
fn print_queries<C: ArgumentCheck>(
    rt: &HostRuntime,
    validator: &Validator<'_, C>,
    policies: &[WrittenPolicy],
) -> Result<(), HostError> {
    let schema = validator.schema();
    let mut printed = Vec::new(rt.alloc());
    let checker = Typechecker::new(schema, validator.extensions(), ValidationMode::Strict);
    for env in schema.unlinked_request_envs(ValidationMode::Strict) {
        if let RequestEnv::DeclaredAction {
            principal,
            action,
            resource,
            ..
        } = &env
        {
            println!(rt; "\n-- {principal}, {action}, {resource}")?;
            print_new_table(rt, schema, &mut printed, resource)?;
            print_query(rt, schema, &checker, policies, &env, resource, &mut printed)?;
        }
    }
    Ok(())
}

fn is_among(types: &[EntityType], one: &EntityType) -> bool {
    for entity_type in types {
        if entity_type == one {
            return true;
        }
    }
    false
}

/// The table of an entity type, or the reason why there is none, if no line before has it.
fn print_new_table(
    rt: &HostRuntime,
    schema: &ValidatorSchema,
    printed: &mut Vec<EntityType>,
    entity_type: &EntityType,
) -> Result<(), HostError> {
    if is_among(printed, entity_type) {
        return Ok(());
    }
    match Table::of_type(rt.alloc(), schema, entity_type)? {
        Ok(table) => println!(rt; "{table};")?,
        Err(fault) => println!(rt; "-- no table of {entity_type}: {fault}")?,
    }
    printed.push(EntityType::clone(entity_type)?)?;
    Ok(())
}

/// The clauses of a set's policies in an environment: one for each that may apply there, or the reason why some have none.
#[derive(Drop)]
struct Clauses {
    permits: Vec<SqlExpr>,
    forbids: Vec<SqlExpr>,
    has_refusal: bool,
}

/// The query of an environment's resources that the policies allow.
fn print_query<C: ArgumentCheck>(
    rt: &HostRuntime,
    schema: &ValidatorSchema,
    checker: &Typechecker<'_, C>,
    policies: &[WrittenPolicy],
    env: &RequestEnv<'_>,
    resource: &EntityType,
    printed: &mut Vec<EntityType>,
) -> Result<(), HostError> {
    let alloc = rt.alloc();
    let Ok(table) = Table::of_type(alloc, schema, resource)? else {
        println!(rt; "-- no query")?;
        return Ok(());
    };
    let Clauses {
        permits,
        forbids,
        has_refusal,
    } = clauses_in(rt, schema, checker, policies, env)?;
    if has_refusal {
        println!(rt; "-- no query")?;
        return Ok(());
    }
    let query = joined(alloc, permits, forbids)?;
    let types = query.types_read(alloc)?;
    for entity_type in &types {
        print_new_table(rt, schema, printed, entity_type)?;
    }
    if have_tables(rt, schema, &types)? {
        println!(rt; "{};", table.query(&query))?;
    } else {
        println!(rt; "-- no query")?;
    }
    Ok(())
}

/// Whether each of these entity types has a table.
fn have_tables(
    rt: &HostRuntime,
    schema: &ValidatorSchema,
    types: &[EntityType],
) -> Result<bool, HostError> {
    for entity_type in types {
        if Table::of_type(rt.alloc(), schema, entity_type)?.is_err() {
            return Ok(false);
        }
    }
    Ok(true)
}

/// The clauses of the policies in an environment. If a policy has none, the reason is printed.
fn clauses_in<C: ArgumentCheck>(
    rt: &HostRuntime,
    schema: &ValidatorSchema,
    checker: &Typechecker<'_, C>,
    policies: &[WrittenPolicy],
    env: &RequestEnv<'_>,
) -> Result<Clauses, HostError> {
    let alloc = rt.alloc();
    let mut clauses = Clauses {
        permits: Vec::new(alloc),
        forbids: Vec::new(alloc),
        has_refusal: false,
    };
    for policy in policies {
        match checker.typecheck_by_single_request_env(alloc, &policy.template, env)? {
            PolicyCheck::Success(typed) => {
                let clause = where_clause(alloc, schema, env, &typed)?;
                add_clause(rt, &mut clauses, policy, clause)?;
            }
            // the policy is never true here
            PolicyCheck::Irrelevant(_errors, _typed) => {}
            // no accepted policy fails
            PolicyCheck::Fail(_errors) => clauses.has_refusal = true,
        }
    }
    Ok(clauses)
}

/// Adds the clause of a policy, or prints the reason why it has none.
fn add_clause(
    rt: &HostRuntime,
    clauses: &mut Clauses,
    policy: &WrittenPolicy,
    clause: Result<SqlExpr, Refusal>,
) -> Result<(), HostError> {
    match clause {
        Ok(clause) => match policy.effect {
            Effect::Permit => clauses.permits.push(clause)?,
            Effect::Forbid => clauses.forbids.push(clause)?,
        },
        Err(refusal) => {
            clauses.has_refusal = true;
            let id = &policy.template.id.text;
            let part = part_of(&policy.text, &refusal);
            let reason = refusal.reason;
            println!(rt;
                "-- no clause of {}: {reason}: {}",
                OneLine(id),
                OneLine(part)
            )?;
        }
    }
    Ok(())
}

/// The part of a policy that has no clause.
fn part_of<'a>(text: &'a str, refusal: &Refusal) -> &'a str {
    match refusal.loc {
        Some(loc) => text.get(loc.start..loc.end).unwrap_or(""),
        None => "",
    }
}
