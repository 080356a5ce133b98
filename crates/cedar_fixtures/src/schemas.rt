// The schemas of the rows.

/// The text of the schema of this name; `None` if there is none.
pub fn schema_by_name(name: &str) -> Option<&'static str> {
    match name {
        "S0" => Some(""),
        "S1" => Some(PHOTOS),
        "S2" => Some(PHOTOS_WITH_OPTIONS),
        "S3" => Some(GROUPS),
        "S4" => Some("entity User;"),
        "S5" => Some(r#"entity Color enum ["red", "green"];"#),
        _ => None,
    }
}

/// Users and their photos, with one action.
const PHOTOS: &str = "
    entity User in User {
        user: User, bool: Bool, other: String, ip: ipaddr, nested: {user: User}
    } tags User;
    entity Photo { user: User };
    action view appliesTo {
        principal: User, resource: Photo, context: {user: User, nested: {user: User}}
    };
";

/// Users, who may have a nickname and a mark, and their photos, with one action.
const PHOTOS_WITH_OPTIONS: &str = "
    entity User in User {
        user: User, bool: Bool, other: String, ip: ipaddr, nested: {user: User},
        nick?: String, vip?: Bool
    } tags User;
    entity Photo { user: User };
    action view appliesTo {
        principal: User, resource: Photo, context: {user: User, nested: {user: User}}
    };
";

/// Users and widgets, the groups that they may be in, and one action.
const GROUPS: &str = "
    entity admins, bin;
    entity user in admins;
    entity widget in bin;
    action act appliesTo { principal: user, resource: widget };
";
