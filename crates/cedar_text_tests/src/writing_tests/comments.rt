// Comments stay with what they stand beside.
use crate::writing_tests::formatting::shown;
use std::test::Fail;

/// Texts, and how they are formatted.
const CASES: [(&str, &str); 12] = [
    ("// alone", "// alone\n"),
    ("\n\n//a\n//b", "//a\n//b\n"),
    // empty lines between policies stay as one
    (
        "// head\n\n\n// of the policy\npermit(principal,action,resource); // behind\n// end",
        "// head

// of the policy
permit (principal, action, resource); // behind

// end
",
    ),
    // an empty line inside a policy goes
    (
        "@id(\"a\")\n\n// effect\n\npermit(principal,action,resource);",
        "@id(\"a\")
// effect
permit (principal, action, resource);
",
    ),
    (
        "permit(principal,// first\naction // second\n, // third\nresource// last\n);",
        "permit (
  principal, // first
  action, // second
  // third
  resource // last
);
",
    ),
    (
        "permit(principal,action,resource\n// at the end\n);",
        "permit (
  principal,
  action,
  resource
  // at the end
);
",
    ),
    (
        "permit(principal,action,resource)// scope\nwhen // word\n{ // brace\ntrue // true\n} // after\n;",
        "permit (principal, action, resource) // scope
when // word
{ // brace
  true // true
} // after
;
",
    ),
    (
        "permit(principal,action,resource) when{principal.a // one\n&& // two\nprincipal.b\n// three\n&& principal.c};",
        "permit (principal, action, resource)
when {
  principal.a // one
  && // two
  principal.b
  // three
  &&
  principal.c
};
",
    ),
    (
        "permit(principal,action,resource) when{[1, // one\n2\n// two\n,].isEmpty()};",
        "permit (principal, action, resource)
when {
  [
    1, // one
    2
    // two
  ].isEmpty()
};
",
    ),
    // the parentheses go, and the comments in them stay
    (
        "permit(principal,action,resource) when{( // open\nprincipal.a // close\n) // after\n&& true};",
        "permit (principal, action, resource)
when { // open
  principal.a // close
  // after
  &&
  true
};
",
    ),
    // a comment in a text is none, and a comment ends at a carriage return
    (
        "permit(principal,action,resource) when{\"// text\" == // note\r\"a\"};",
        "permit (principal, action, resource)
when {
  \"// text\"
  == // note
  \"a\"
};
",
    ),
    (
        "permit(principal,action,resource)\r\n// own\r\n\r\nwhen {true}; // end\r\n",
        "permit (principal, action, resource)
// own
when { true }; // end
",
    ),
];

#[test]
fn comments_beside_parts(rt: HostRuntime) -> Result<(), Fail> {
    let alloc = rt.alloc();
    for (text, wanted) in &CASES {
        assert_eq!(rt; shown(alloc, text)?.as_str(), *wanted, "{text}");
    }
    Ok(())
}
