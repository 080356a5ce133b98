// Schemas of a small team, in JSON and in Cedar's own syntax.

/// A namespace, common types, an enumerated type, tags, and actions in others.
pub const TEAM: &str = r#"{
  "Team": {
    "annotations": {"doc": "who works on what"},
    "commonTypes": {
      "Address": {"type": "Record", "attributes": {"city": {"type": "String"}, "zip": {"type": "String", "required": false}}},
      "Nets": {"type": "Set", "element": {"type": "Extension", "name": "ipaddr"}}
    },
    "entityTypes": {
      "Grade": {"enum": ["junior", "senior"]},
      "Group": {"memberOfTypes": ["Group"]},
      "User": {
        "memberOfTypes": ["Group"],
        "shape": {"type": "Record", "attributes": {
          "grade": {"type": "Entity", "name": "Grade"},
          "boss": {"type": "EntityOrCommon", "name": "User", "required": false},
          "home": {"type": "Address"},
          "age": {"type": "EntityOrCommon", "name": "Long"},
          "nets": {"type": "Nets"}
        }},
        "tags": {"type": "String"}
      },
      "Doc": {"shape": {"type": "Record", "attributes": {
        "owner": {"type": "Entity", "name": "Team::User"},
        "isPublic": {"type": "Boolean"}
      }}}
    },
    "actions": {
      "read": {},
      "view": {
        "memberOf": [{"id": "read"}],
        "appliesTo": {"principalTypes": ["User"], "resourceTypes": ["Doc"], "context": {"type": "Record", "attributes": {
          "ip": {"type": "Extension", "name": "ipaddr"}
        }}}
      },
      "edit": {"appliesTo": {"principalTypes": ["User"], "resourceTypes": ["Doc"]}}
    }
  }
}
"#;

/// The schema in Cedar's own syntax.
pub const TEAM_TEXT: &str = r#"namespace Team {
  type Address = { city: String, zip?: String };
  type Nets = Set<ipaddr>;
  entity Grade enum ["junior", "senior"];
  entity Group in [Group];
  entity User in [Group] { grade: Grade, boss?: User, home: Address, age: Long, nets: Nets } tags String;
  entity Doc { owner: User, isPublic: Bool };
  action read;
  action view in [read] appliesTo { principal: User, resource: Doc, context: { ip: ipaddr } };
  action edit appliesTo { principal: User, resource: Doc };
}
"#;

/// The text before a condition of a policy in JSON.
pub const JSON_BEFORE: &str =
    "{\"effect\": \"permit\", \"principal\": {\"op\": \"All\"}, \"action\": {\"op\": \
     \"==\", \"entity\": {\"type\": \"Team::Action\", \"id\": \"view\"}}, \"resource\": \
     {\"op\": \"All\"}, \"conditions\": [{\"kind\": \"when\", \"body\": ";

/// The text behind the condition.
pub const JSON_BEHIND: &str = "}]}";
