// Requests, and their mistakes.
use crate::data_tests::shown::request_shown;
use std::test::Fail;

#[test]
fn good_requests(rt: HostRuntime) -> Result<(), Fail> {
    let texts = [
        r#"{"principal": {"type": "User", "id": "a"}, "action": {"type": "Action", "id": "view"}, "resource": {"type": "Group", "id": "g"}, "context": {"ip": "::1"}}"#,
        r#"{"principal": "User::\"a\"", "action": "Action::\"view\"", "resource": "Group::\"g\"", "context": {"ip": {"fn": "ip", "arg": "::1"}}}"#,
        r#"{"context": {"ip": "::1", "color": {"type": "Color", "id": "green"}, "ways": [{"cost": "1.0"}]}, "resource": {"__entity": {"type": "Group", "id": "g"}}, "action": "Action::\"view\"", "principal": "User :: \"a\""}"#,
    ];
    for text in &texts {
        let shown = request_shown(rt.alloc(), text)?;
        assert_eq!(&rt; shown.as_str(), "", "{text}");
    }
    Ok(())
}

#[test]
fn other_requests(rt: HostRuntime) -> Result<(), Fail> {
    let cases = [
        ("{", "1 a key in quotes is expected\n"),
        ("3", " | an object is expected\n"),
        (
            "{}",
            " | the key `principal` is missing\n | the key `action` is missing\n | the key `resource` is missing\n | the key `context` is missing\n",
        ),
        (
            r#"{"principal": "User", "action": "Action::\"view\"", "resource": "Group::\"g\"", "context": {"ip": "::1"}, "contxt": 1}"#,
            "\"User\" | an id, as `User::\"alice\"`, is expected\n\"contxt\" | a key that has no meaning here\n",
        ),
        (
            r#"{"principal": "User::\"a\"", "action": "Action::\"vew\"", "resource": "Group::\"g\"", "context": {"ip": "::1"}}"#,
            "\"Action::\\\"vew\\\"\" | action: Action::\"vew\" is not declared\n",
        ),
        (
            r#"{"principal": "Org::\"a\"", "action": "Action::\"view\"", "resource": "User::\"g\"", "context": {"ip": 3}}"#,
            "\"Org::\\\"a\\\"\" | principal: the action does not apply to Org\n\"User::\\\"g\\\"\" | resource: the action does not apply to User\n3 | context.ip: expected ipaddr, found Long\n",
        ),
        (
            r#"{"principal": "User::\"a\"", "action": "Action::\"write\"", "resource": "Group::\"g\"", "context": {}}"#,
            "\"User::\\\"a\\\"\" | principal: the action does not apply to User\n\"Group::\\\"g\\\"\" | resource: the action does not apply to Group\n",
        ),
        (
            r#"{"principal": "User::\"a\"", "action": "Action::\"view\"", "resource": "Group::\"g\"", "context": {}}"#,
            "{} | context.ip: expected ipaddr, found nothing\n",
        ),
        (
            r#"{"principal": "User::\"a\"", "action": "Action::\"view\"", "resource": "Group::\"g\"", "context": {"ip": "::1", "color": {"type": "Color", "id": "blue"}, "ways": [{"cost": "1.0"}, {"cost": 2}, {}]}}"#,
            "{\"type\": \"Color\", \"id\": \"blue\"} | Color::\"blue\": the type `Color` does not have this id\n2 | context.ways[1].cost: expected decimal, found Long\n{} | context.ways[2].cost: expected decimal, found nothing\n",
        ),
    ];
    for (text, wanted) in &cases {
        let shown = request_shown(rt.alloc(), text)?;
        assert_eq!(&rt; shown.as_str(), *wanted, "{text}");
    }
    Ok(())
}
