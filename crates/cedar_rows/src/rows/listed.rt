// The rows that are built, by their names.
use crate::rows::{NamedRow, Nested, Steps, conditions, dereferences, policies};

/// `true` under negations, at the limit of depth and beyond it. The parentheses make no node: at
/// most four negations may stand side by side.
const NEGATIONS: [Nested; 3] = [
    Nested {
        word: "TRUE_UNDER_398",
        around: ["!!(", ")"],
        times: 199,
        inner: "true",
    },
    Nested {
        word: "TRUE_UNDER_399",
        around: ["!!(", ")"],
        times: 199,
        inner: "!true",
    },
    Nested {
        word: "TRUE_UNDER_450",
        around: ["!!(", ")"],
        times: 225,
        inner: "true",
    },
];

/// A chain of attributes, with its root and without.
const USERS: [Nested; 2] = [
    Nested {
        word: "USER_AND_10000",
        around: ["", ".user"],
        times: 10_000,
        inner: "User",
    },
    Nested {
        word: "ATTRIBUTES_300",
        around: ["user.", ""],
        times: 299,
        inner: "user",
    },
];

/// An access under conditionals. Parentheses would make the same tree, but reading them is too
/// deep.
const CONDITIONALS: [Nested; 1] = [Nested {
    word: "ACCESS_UNDER_64",
    around: ["if true then ", " else false"],
    times: 64,
    inner: "principal.bool",
}];

/// The rows, in the order in which they run.
pub const WORKED: [NamedRow<Steps<'static>>; 55] = [
    NamedRow {
        name: "1",
        row: Steps(dereferences::NO_DEREFERENCE, &[]),
    },
    NamedRow {
        name: "2",
        row: Steps(dereferences::ONE_ACCESS, &[]),
    },
    NamedRow {
        name: "3",
        row: Steps(dereferences::ACTION_LITERAL, &[]),
    },
    NamedRow {
        name: "4",
        row: Steps(dereferences::OTHER_KEY, &[]),
    },
    NamedRow {
        name: "5",
        row: Steps(dereferences::CONDITIONAL_TARGET, &[]),
    },
    NamedRow {
        name: "6",
        row: Steps(dereferences::ENTITY_LITERALS, &[]),
    },
    NamedRow {
        name: "7",
        row: Steps(dereferences::DROPPED_ACCESS, &[]),
    },
    NamedRow {
        name: "8",
        row: Steps(dereferences::CHAIN_OF_TESTS, &[]),
    },
    NamedRow {
        name: "9",
        row: Steps(policies::UNKNOWN_TYPE, &[]),
    },
    NamedRow {
        name: "10",
        row: Steps(conditions::GUARDED_ACCESS, &[]),
    },
    NamedRow {
        name: "11",
        row: Steps(policies::NO_ENVIRONMENT, &[]),
    },
    NamedRow {
        name: "12",
        row: Steps(conditions::TEST_BESIDE_EQUALITY, &[]),
    },
    NamedRow {
        name: "13",
        row: Steps(policies::REPEATED_ENVIRONMENTS, &[]),
    },
    NamedRow {
        name: "14",
        row: Steps(policies::GROUPS_IN_SCOPE, &[]),
    },
    NamedRow {
        name: "15",
        row: Steps(policies::NESTING, &NEGATIONS),
    },
    NamedRow {
        name: "16",
        row: Steps(dereferences::CHAIN_COSTS, &[]),
    },
    NamedRow {
        name: "17",
        row: Steps(conditions::SIDES_WITHOUT_BOUND, &[]),
    },
    NamedRow {
        name: "18",
        row: Steps(dereferences::GREATEST_LEVEL, &[]),
    },
    NamedRow {
        name: "19",
        row: Steps(policies::UNKNOWN_TYPE_IN_SLOT, &[]),
    },
    NamedRow {
        name: "20",
        row: Steps(policies::ANY_TYPE, &[]),
    },
    NamedRow {
        name: "21",
        row: Steps(policies::UNKNOWN_TYPE_IN_SCOPE, &[]),
    },
    NamedRow {
        name: "22",
        row: Steps(policies::UNKNOWN_ACTION_IN_SCOPE, &[]),
    },
    NamedRow {
        name: "23",
        row: Steps(dereferences::LEFT_OF_TRUE, &[]),
    },
    NamedRow {
        name: "24",
        row: Steps(dereferences::THROUGH_RECORD, &[]),
    },
    NamedRow {
        name: "25",
        row: Steps(dereferences::CHAINS_FROM_RECORDS, &[]),
    },
    NamedRow {
        name: "26",
        row: Steps(dereferences::ARGUMENT, &[]),
    },
    NamedRow {
        name: "27",
        row: Steps(conditions::WRONG_CALLS, &[]),
    },
    NamedRow {
        name: "28",
        row: Steps(conditions::TAGS, &[]),
    },
    NamedRow {
        name: "29",
        row: Steps(policies::UNDECLARED_ACTIONS, &[]),
    },
    NamedRow {
        name: "30",
        row: Steps(policies::UNKNOWN_ACTION, &[]),
    },
    NamedRow {
        name: "31",
        row: Steps(conditions::GUARDING_FORMS, &[]),
    },
    NamedRow {
        name: "32",
        row: Steps(conditions::CONDITIONAL_GUARDS, &[]),
    },
    NamedRow {
        name: "33",
        row: Steps(conditions::OPERATORS, &[]),
    },
    NamedRow {
        name: "34",
        row: Steps(conditions::MEMBERSHIPS, &[]),
    },
    NamedRow {
        name: "35",
        row: Steps(conditions::CHAINS, &[]),
    },
    NamedRow {
        name: "36",
        row: Steps(policies::FAULTY_TABLES, &[]),
    },
    NamedRow {
        name: "37",
        row: Steps(conditions::VARIADIC_CALLS, &[]),
    },
    NamedRow {
        name: "38",
        row: Steps(policies::LINKED_SLOTS, &[]),
    },
    NamedRow {
        name: "39",
        row: Steps(policies::FALSE_WITH_ERROR, &[]),
    },
    NamedRow {
        name: "40",
        row: Steps(policies::NO_MEMBERS, &[]),
    },
    NamedRow {
        name: "41",
        row: Steps(policies::APPLICATIONS, &[]),
    },
    NamedRow {
        name: "42",
        row: Steps(policies::LINKED_APPLICATIONS, &[]),
    },
    NamedRow {
        name: "43",
        row: Steps(dereferences::IMPOSSIBLE, &[]),
    },
    NamedRow {
        name: "44",
        row: Steps(dereferences::EQUAL_ENVIRONMENTS, &[]),
    },
    NamedRow {
        name: "45",
        row: Steps(conditions::DEEP_UNVISITED, &NEGATIONS),
    },
    NamedRow {
        name: "46",
        row: Steps(conditions::DEEP_BESIDE_ERRORS, &NEGATIONS),
    },
    NamedRow {
        name: "47",
        row: Steps(dereferences::LONG_CHAIN, &USERS),
    },
    NamedRow {
        name: "48",
        row: Steps(dereferences::LONG_CHAIN_OF_TESTS, &USERS),
    },
    NamedRow {
        name: "49",
        row: Steps(policies::FAULTY_SCHEMAS, &[]),
    },
    NamedRow {
        name: "50",
        row: Steps(policies::UNKNOWN_TYPE_AS_OPERAND, &[]),
    },
    NamedRow {
        name: "51",
        row: Steps(dereferences::SLOT_IN_CONDITION, &[]),
    },
    NamedRow {
        name: "52",
        row: Steps(conditions::PERMISSIVE_BOUNDS, &[]),
    },
    NamedRow {
        name: "53",
        row: Steps(dereferences::REQUIRED_LEVELS, &[]),
    },
    NamedRow {
        name: "54",
        row: Steps(dereferences::SHARED_BRANCHES, &CONDITIONALS),
    },
    NamedRow {
        name: "55",
        row: Steps(dereferences::UNITED_TYPES, &[]),
    },
];
