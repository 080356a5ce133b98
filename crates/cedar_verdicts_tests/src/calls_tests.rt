// Answers of calls in Cedar's own protocol, without findings.
use cedar_calls::conditions::{conditions_call, conditions_call_by};
use cedar_calls::data::{check_data_call, check_data_call_by};
use cedar_calls::opened::open_call;
use cedar_calls::validation::{validate_call, validate_call_by};
use std::process::Abort;
use std::test::Fail;

/// The text of a call before its policies.
const SCHEMA: &str = "{\"schema\":\"entity U; action v appliesTo { principal: U, resource: U };\",";

#[test]
fn policies(rt: HostRuntime) -> Result<(), Fail> {
    let alloc = rt.alloc();
    let call = format!(in alloc;
        "{SCHEMA}\"policies\":\"permit(principal, action, resource);\"}}"
    )?;
    let answer = validate_call(alloc, call.as_str())?;
    let wanted =
        "{\"type\":\"success\",\"validationErrors\":[],\"validationWarnings\":[],\"otherWarnings\":[]}";
    assert_eq!(rt; answer.as_str(), wanted);
    Ok(())
}

#[test]
fn entities(rt: HostRuntime) -> Result<(), Fail> {
    let alloc = rt.alloc();
    let call = format!(in alloc; "{SCHEMA}\"entities\":[]}}")?;
    let answer = check_data_call(alloc, call.as_str())?;
    let wanted =
        "{\"type\":\"success\",\"entities\":{\"conforms\":true,\"count\":0,\"errors\":[]}}";
    assert_eq!(rt; answer.as_str(), wanted);
    Ok(())
}

#[test]
fn conditions(rt: HostRuntime) -> Result<(), Fail> {
    let alloc = rt.alloc();
    let policy = "permit(principal, action, resource) when { principal == resource };";
    let call = format!(in alloc; "{SCHEMA}\"policy\":\"{policy}\"}}")?;
    let answer = conditions_call(alloc, call.as_str())?;
    let wanted = "{\"==\":{\"left\":{\"Var\":\"principal\"},\"right\":{\"Var\":\"resource\"}}}";
    assert!(rt; answer.contains(wanted), "{answer}");
    Ok(())
}

#[test]
fn schemas_that_are_read_once(rt: HostRuntime) -> Result<(), Fail> {
    let alloc = rt.alloc();
    let schema = "{\"schema\":\"entity U; action v appliesTo { principal: U, resource: U };\"}";
    let Ok(opened) = open_call(alloc, schema)? else {
        return Err(Fail::from("the schema is not opened"));
    };
    let policies = "\"policies\":\"permit(principal, action, resource) when { principal.a };\"}";
    let wanted = validate_call(alloc, format!(in alloc; "{SCHEMA}{policies}")?.as_str())?;
    assert!(rt; wanted.contains("unknown-attribute"), "{wanted}");
    for _ in 0..2 {
        let answer = validate_call_by(alloc, &opened, format!(in alloc; "{{{policies}")?.as_str())?;
        assert_eq!(rt; answer.as_str(), wanted.as_str());
    }
    let entities = "\"entities\":[]}";
    let wanted = check_data_call(alloc, format!(in alloc; "{SCHEMA}{entities}")?.as_str())?;
    let answer = check_data_call_by(alloc, &opened, format!(in alloc; "{{{entities}")?.as_str())?;
    assert_eq!(rt; answer.as_str(), wanted.as_str());
    let policy = "\"policy\":\"permit(principal, action, resource);\"}";
    let wanted = conditions_call(alloc, format!(in alloc; "{SCHEMA}{policy}")?.as_str())?;
    let answer = conditions_call_by(alloc, &opened, format!(in alloc; "{{{policy}")?.as_str())?;
    assert_eq!(rt; answer.as_str(), wanted.as_str());
    Ok(())
}

#[test]
fn a_schema_that_cannot_be_opened(rt: HostRuntime) -> Result<(), Fail> {
    let alloc = rt.alloc();
    let Err(failure) = open_call(alloc, "{\"schema\":\"entity\"}")? else {
        return Err(Fail::from("a faulty schema is opened"));
    };
    assert!(rt; failure.starts_with("{\"type\":\"failure\""), "{failure}");
    assert!(rt; failure.contains("\"of\":\"schema\""), "{failure}");
    Ok(())
}
