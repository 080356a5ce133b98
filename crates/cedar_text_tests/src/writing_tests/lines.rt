// Where lines break: a part stands on one line if it fits into 80 characters.
use crate::writing_tests::formatting::{shown, shown_in};
use cedar_writing::Layout;
use std::test::Fail;

/// Texts, and how they are formatted.
const CASES: [(&str, &str); 18] = [
    ("", ""),
    (
        "permit(principal,action,resource);",
        "permit (principal, action, resource);\n",
    ),
    // a comma behind the last part goes
    (
        "forbid(principal==User::\"alice\",action in[Action::\"view\",Action::\"edit\",],resource,);",
        "forbid (
  principal == User::\"alice\",
  action in [Action::\"view\", Action::\"edit\"],
  resource
);
",
    ),
    // a scope of 80 characters with its `;`, and one of 81
    (
        "permit(principal == User::\"0123456789012345678901234567890\",action,resource);",
        "permit (principal == User::\"0123456789012345678901234567890\", action, resource);\n",
    ),
    (
        "permit(principal == User::\"01234567890123456789012345678901\",action,resource);",
        "permit (
  principal == User::\"01234567890123456789012345678901\",
  action,
  resource
);
",
    ),
    (
        "permit(principal==?principal,action in Action::\"a\",resource in ?resource)when{true};",
        "permit (principal == ?principal, action in Action::\"a\", resource in ?resource)
when { true };
",
    ),
    (
        "permit(principal is N::User in Team::\"\",action,resource is Photo);",
        "permit (principal is N::User in Team::\"\", action, resource is Photo);\n",
    ),
    // two policies
    (
        "@id(\"a\") @note permit(principal,action,resource);forbid(principal,action,resource);",
        "@id(\"a\")
@note
permit (principal, action, resource);

forbid (principal, action, resource);
",
    ),
    (
        "permit(principal,action,resource) when{principal.a.b[\"c d\"]} unless{!resource.x}when{1<2};",
        "permit (principal, action, resource)
when { principal.a.b[\"c d\"] }
unless { !resource.x }
when { 1 < 2 };
",
    ),
    // a chain breaks behind each of its weakest operators, and those inside stay where they fit
    (
        "permit(principal,action,resource) when{principal.department==resource.department&&principal.level>=5||resource.isPublic};",
        "permit (principal, action, resource)
when {
  principal.department == resource.department && principal.level >= 5 ||
  resource.isPublic
};
",
    ),
    (
        "permit(principal,action,resource) when{principal has a&&principal.a has b&&principal.a.b has c&&principal.a.b.c==1};",
        "permit (principal, action, resource)
when {
  principal has a &&
  principal.a has b &&
  principal.a.b has c &&
  principal.a.b.c == 1
};
",
    ),
    (
        "permit(principal,action,resource) when{principal has a.b.c && context.name like \"a*b\\*\" && resource is N::Photo};",
        "permit (principal, action, resource)
when {
  principal has a.b.c && context.name like \"a*b\\*\" && resource is N::Photo
};
",
    ),
    // a set behind `in`, of which each element has a line
    (
        "permit(principal,action,resource) when{principal in[Group::\"the first long group\",Group::\"the second and longer group\"]};",
        "permit (principal, action, resource)
when {
  principal in [
    Group::\"the first long group\",
    Group::\"the second and longer group\"
  ]
};
",
    ),
    (
        "permit(principal,action,resource) when{context=={\"name of a key\":\"a long value of it\",b:[1,2,3],c:{d:principal.name}}};",
        "permit (principal, action, resource)
when {
  context == {
    \"name of a key\": \"a long value of it\",
    b: [1, 2, 3],
    c: {d: principal.name}
  }
};
",
    ),
    (
        "permit(principal,action,resource) when{if principal.level>5 then resource.tags.contains(\"a\") else resource has \"b c\"&&resource.x};",
        "permit (principal, action, resource)
when {
  if principal.level > 5
  then resource.tags.contains(\"a\")
  else resource has \"b c\" && resource.x
};
",
    ),
    (
        "permit(principal,action,resource) when{if principal.a then 1==1 else if principal.bbbbbbbbbbbb then 2==2 else principal.ccccc};",
        "permit (principal, action, resource)
when {
  if principal.a
  then 1 == 1
  else if principal.bbbbbbbbbbbb
  then 2 == 2
  else principal.ccccc
};
",
    ),
    (
        "permit(principal,action,resource) when{ip(\"10.0.0.1\").isInRange(ip(\"10.0.0.0/8\"))&&-5<- - x::\"a\".n&&!!true};",
        "permit (principal, action, resource)
when {
  ip(\"10.0.0.1\").isInRange(ip(\"10.0.0.0/8\")) && -5 < --x::\"a\".n && !!true
};
",
    ),
    // escapes, numbers and texts stay as they are written
    (
        "permit(principal,action,resource)when{\"\\u{1F600}\\x41\\\"\\n\\\\\"==\"a  b\"&&007==7};",
        "permit (principal, action, resource)
when { \"\\u{1F600}\\x41\\\"\\n\\\\\" == \"a  b\" && 007 == 7 };
",
    ),
];

#[test]
fn lines_of_cedars_layout(rt: HostRuntime) -> Result<(), Fail> {
    let alloc = rt.alloc();
    for (text, wanted) in &CASES {
        assert_eq!(rt; shown(alloc, text)?.as_str(), *wanted, "{text}");
    }
    Ok(())
}

/// A policy of which the scope has 54 characters on one line, and the condition 26 with its `;`.
const NARROW: &str = "permit(principal,action==A::Action::\"v\",resource)when{a::\"b\".c&&true};";

#[test]
fn width_and_indent(rt: HostRuntime) -> Result<(), Fail> {
    let alloc = rt.alloc();
    let wide = Layout {
        width: 58,
        indent: 4,
    };
    let wanted =
        "permit (principal, action == A::Action::\"v\", resource)\nwhen { a::\"b\".c && true };\n";
    assert_eq!(rt; shown_in(alloc, NARROW, wide)?.as_str(), wanted);
    let narrow = Layout {
        width: 26,
        indent: 4,
    };
    let wanted = "permit (
    principal,
    action
    == A::Action::\"v\",
    resource
)
when { a::\"b\".c && true };
";
    assert_eq!(rt; shown_in(alloc, NARROW, narrow)?.as_str(), wanted);
    let none = Layout {
        width: 0,
        indent: 0,
    };
    let wanted =
        "permit (\nprincipal,\naction\n== A::Action::\"v\",\nresource\n)\nwhen {\na::\"b\".c &&\ntrue\n};\n";
    assert_eq!(rt; shown_in(alloc, NARROW, none)?.as_str(), wanted);
    Ok(())
}
