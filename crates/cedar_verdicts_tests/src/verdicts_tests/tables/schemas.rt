// Schemas in Cedar's own syntax, and the answers.

/// The schema of these policies.
pub const SCHEMA: &str =
    "entity User in [User] { boss: User, age: Long, name: String } tags Long;\n\
     entity File { owner: User };\n\
     action view appliesTo { principal: User, resource: File, context: { n: Long } };\n";

/// A policy that `SCHEMA` accepts.
pub const GOOD: &str = "permit(principal, action, resource) when { principal.age > 3 };\n";

/// Schemas, each with the status and the beginning of a line on the schema or on `GOOD`.
pub const SCHEMAS: [(&str, u8, &str); 16] = [
    (
        "namespace A::__cedar { entity B; }",
        2,
        "s:1:14: fault: a name that the language keeps for itself, where `__cedar` is read",
    ),
    (
        "entity User in [User] { boss: User, age: [Long], name: String } tags Long;\n\
         entity File { owner: User };\n\
         action view appliesTo { principal: User, resource: File, context: { n: Long } };\n",
        2,
        "s:1:42: fault: a type such as `Set<Long>` is expected, where `[` is read",
    ),
    (
        "action a in A::Action \"x\";",
        2,
        "s:1:23: fault: `::` is expected, where `\"x\"` is read",
    ),
    (
        "type has = Long;",
        2,
        "s:1:6: fault: a name that the language keeps for itself, where `has` is read",
    ),
    (
        "entity A { a: Long\n b: Long };",
        2,
        "s:2:2: fault: `,` or `}` is expected, where `b` is read",
    ),
    (
        "// a\rentity A { a: Long? };",
        2,
        "s:1:24: fault: `?` before the `:` is expected, where `?` is read",
    ),
    (
        "entity A { a: Long? };",
        2,
        "s:1:19: fault: `?` before the `:` is expected, where `?` is read",
    ),
    (
        "entity A; action a appliesTo { principals: A };",
        2,
        "s:1:32: fault: `principal`, `resource` or `context` is expected, where",
    ),
    (
        "entity User;\naction view appliesTo { principal: User resource: User };",
        2,
        "s:2:41: fault: `,` is expected, where `resource` is read",
    ),
    (
        "entity User;\naction view appliesTo { resource: User principal: User };",
        2,
        "s:2:40: fault: `,` is expected, where `principal` is read",
    ),
    (
        "entity A { a-b: Long };",
        2,
        "s:1:13: fault: `:` is expected, where `-` is read; a key that is no word stands in \
         quotes, as `\"a-b\"`",
    ),
    (
        "entity A { a: string };",
        2,
        "s:1:15: fault: a type that is not declared: `string`; texts are of the type `String`",
    ),
    (
        "entity A { a: Int };",
        2,
        "s:1:15: fault: a type that is not declared: `Int`; whole numbers are of the type \
         `Long`",
    ),
    (
        "entity A { a: bool };",
        2,
        "s:1:15: fault: a type that is not declared: `bool`; truth values are of the type \
         `Bool`",
    ),
    (
        "entity A; type T = A; action a appliesTo { principal: T, resource: A };",
        2,
        "s:1:55: fault: a type that is not declared: `T`; it is the name of a common type, \
         and of no entity type",
    ),
    (
        "type T = Set<U>; type U = T;",
        2,
        "s:1:14: fault: nested too deep, as a type that contains itself is",
    ),
];

/// Texts before `SCHEMA` and behind it, with the status and the beginning of a line.
pub const AROUND: [(&str, &str, u8, &str); 13] = [
    (
        "type Long = String; ",
        "",
        2,
        "s:1:6: fault: a name that the language keeps for itself, where `Long` is read",
    ),
    (
        "entity A, if; ",
        "",
        2,
        "s:1:11: fault: a name that the language keeps for itself, where `if` is read",
    ),
    (
        "action a in [b]; action b in [a]; namespace N { } namespace N { }\n",
        "",
        0,
        "p:1:1: policy `policy0`: accepted",
    ),
    (
        "action a in [a];\n",
        "",
        0,
        "p:1:1: policy `policy0`: accepted",
    ),
    (
        "entity A { if: Long, has?: Bool, __cedar: Long }; action in in if; action if;\n",
        "",
        0,
        "p:1:1: policy `policy0`: accepted",
    ),
    (
        "",
        r#"entity A in [User,]; entity B enum ["a", "b",]; action a in [view,] appliesTo { principal: [User,], resource: [File,] };"#,
        0,
        "p:1:1:",
    ),
    (
        "",
        "action a appliesTo { principal: [], resource: File };",
        2,
        "s:4:33: fault: at least one type is expected, where `[` is read",
    ),
    (
        "",
        "namespace N { entity User; }",
        2,
        "s:4:22: fault: a name of a namespace that hides one outside of namespaces: `N::User`",
    ),
    (
        "",
        "namespace N { type File = Long; }",
        2,
        "s:4:20: fault: a name of a namespace that hides one outside of namespaces: `N::File`",
    ),
    (
        "",
        "namespace N { action a, view; }",
        2,
        "s:4:25: fault: a name of a namespace that hides one outside of namespaces: \
         `N::Action",
    ),
    (
        "",
        "entity A { b: B }; entity B; type B = Long;",
        0,
        "p:1:1: policy `policy0`: accepted, level 1",
    ),
    (
        "namespace N { entity Long; }\n",
        "",
        0,
        "p:1:1: policy `policy0`: accepted, level 1",
    ),
    (
        "namespace N { entity String; entity A { a: String, b: __cedar::String }; }\n",
        "",
        0,
        "p:1:1: policy `policy0`: accepted",
    ),
];
