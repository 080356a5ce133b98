// Policies that are nested deep or have many findings, and the answers.

/// Policies by their pieces, each with its number of repetitions; with the status and the beginning of a line.
pub const NESTED: [(&[(&str, usize)], u8, &str); 10] = [
    (
        &[
            ("permit(principal, action, resource) when { ", 1),
            ("(", 799),
            ("true", 1),
            (")", 799),
            (" };\n", 1),
        ],
        0,
        "p:1:1: policy `policy0`: accepted, level 0",
    ),
    (
        &[
            ("permit(principal, action, resource) when { ", 1),
            ("(", 395),
            ("true", 1),
            (" || true)", 395),
            (" };\n", 1),
        ],
        0,
        "p:1:1: policy `policy0`: accepted, level 0",
    ),
    (
        &[
            ("permit(principal, action, resource) when { ", 1),
            ("(true || ", 395),
            ("true", 1),
            (")", 395),
            (" };\n", 1),
        ],
        0,
        "p:1:1: policy `policy0`: accepted, level 0",
    ),
    (
        &[
            ("permit(principal, action, resource) when { ", 1),
            ("(", 700),
            ("principal", 1),
            (".boss", 450),
            (")", 700),
            (".boss", 450),
            (" };\n", 1),
        ],
        2,
        "p:1:5453: fault: nested too deep: 800",
    ),
    (
        &[
            (
                "permit(principal, action, resource) when { principal has ",
                1,
            ),
            ("boss.", 99999),
            ("boss };\n", 1),
        ],
        2,
        "p:1:4062: fault: nested too deep: 800 brackets and operators are read",
    ),
    (
        &[
            ("permit(principal, action, resource) when { principal", 1),
            (".boss", 350),
            (".age > 1 };\n", 1),
        ],
        0,
        "p:1:1: policy `policy0`: accepted, level 351",
    ),
    (
        &[
            ("permit(principal, action, resource) when { principal", 1),
            (".boss", 450),
            (".age > 1 };\n", 1),
        ],
        1,
        "p:1:1: error: nested too deep to be checked: fewer than 400 parts may stand inside \
         each other",
    ),
    (
        &[
            ("permit(principal, action, resource) when { ", 1),
            ("true && ", 99999),
            ("true };\n", 1),
        ],
        2,
        "p:1:6449: fault: nested too deep: 800 brackets and operators are read",
    ),
    (
        &[
            ("permit(principal, action, resource)", 1),
            (" when { true }", 801),
            (";", 1),
        ],
        2,
        "p:1:11237: fault: nested too deep: 800 brackets and operators are read",
    ),
    (
        &[
            ("permit(principal, action, resource) when { [", 1),
            ("principal.x, ", 150),
            ("1].isEmpty() };\n", 1),
        ],
        1,
        "p:1:1: 50 more findings",
    ),
];
