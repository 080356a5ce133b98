// Runs of the frame, over sample rows and over writers in memory.
use crate::tests::tables::{x1, x2};
use cedar_rows::rows::{NamedRow, Report, Row};
use cedar_rows::run::{run, run_among};
use cedar_types::base::ExtensionSchemas;
use std::alloc::{AllocError, Global};
use std::io;
use std::io::{ErrorKind, Write};
use std::process::Abort;
use std::test::Fail;

const USAGE: &[u8] = b"usage: cedar-check [ROW]\n";

/// The line of each row that is built, in order.
const BUILT: &str = "\
row 1: errors=0 warnings=0; ok\n\
row 2: errors=1 warnings=0; errors=0 warnings=0; ok\n\
row 3: errors=1 warnings=0; errors=0 warnings=0; ok\n\
row 4: errors=1 warnings=0; errors=0 warnings=0; ok\n\
row 5: errors=1 warnings=0; errors=0 warnings=0; ok\n\
row 6: errors=1 warnings=0; ok\n\
row 7: errors=0 warnings=1; ok\n\
row 8: errors=1 warnings=0; errors=0 warnings=0; ok\n\
row 9: true errors=0 warnings=1; errors=1; ok\n\
row 10: Success; Fail errors=1; ok\n\
row 11: true errors=0 warnings=1; ok\n\
row 12: Fail errors=1; ok\n\
row 13: Success; Success; ok\n\
row 14: warning principal=true resource=true; ok\n\
row 15: Success; Fail errors=0; false errors=0 warnings=0; ok\n\
row 16: 1; 0; 2; 0; 1; ok\n\
row 17: Irrelevant errors=0; Fail errors=1; Fail errors=1; ok\n\
row 18: errors=1 warnings=0; errors=0 warnings=0; ok\n\
row 19: BadReturnType; errors=1; ok\n\
row 20: User; ok\n\
row 21: errors=1; ok\n\
row 22: errors=1; ok\n\
row 23: errors=1 warnings=0; errors=0 warnings=0; ok\n\
row 24: errors=1 warnings=0; ok\n\
row 25: errors=0 warnings=0; errors=1 warnings=0; errors=0 warnings=0; ok\n\
row 26: errors=1 warnings=0; errors=0 warnings=0; ok\n\
row 27: Fail errors=1; Fail errors=1; Fail errors=1; Fail errors=1; ok\n\
row 28: Success; Fail errors=1; Irrelevant errors=0; ok\n\
row 29: Fail errors=1; Success; false errors=1 warnings=0; ok\n\
row 30: Success; Irrelevant errors=0; true errors=0 warnings=1; errors=1; ok\n\
row 31: Fail errors=1; Success; Fail errors=1; Fail errors=1; Success; ok\n\
row 32: Success; Success; Fail errors=1; ok\n\
row 33: Success; Fail errors=1; Fail errors=2; Fail errors=1; Irrelevant errors=0; Success; \
    Fail errors=1; ok\n\
row 34: Success; Irrelevant errors=0; Success; Irrelevant errors=0; Fail errors=0; \
    Fail errors=1; ok\n\
row 35: Success; Fail errors=1; Success; Irrelevant errors=0; Irrelevant errors=0; \
    Fail errors=1; ok\n\
row 36: BadReturnType; VariadicWithoutArguments; DuplicateFunction; \
    VariadicWithoutArguments; ok\n\
row 37: Success; Success; Fail errors=1; Fail errors=1; Success; Fail errors=2; ok\n\
row 38: Success; Success; ok\n\
row 39: false errors=1 warnings=1; ok\n\
row 40: errors=1; errors=2; ok\n\
row 41: applies; warning principal=true resource=false; warning principal=false resource=false; \
    warning principal=false resource=false; ok\n\
row 42: warning principal=true resource=false; applies; ok\n\
row 43: errors=1 warnings=1; errors=0 warnings=1; ok\n\
row 44: errors=1 warnings=0; errors=0 warnings=0; ok\n\
row 45: Irrelevant errors=0; Success; Success; ok\n\
row 46: Fail errors=1; Fail errors=0; Fail errors=2; Fail errors=0; Fail errors=1; \
    Fail errors=1; ok\n\
row 47: 10000; ok\n\
row 48: errors=1 warnings=0; errors=0 warnings=0; ok\n\
row 49: DuplicateEntityType; DuplicateAction; ActionTypeDeclared; NotAnActionType; EmptyEnum; \
    UnknownType; UnknownActionDescendant; VagueType; DescendantsNotClosed; DuplicateEntityType; ok\n\
row 50: Fail errors=0; Irrelevant errors=0; Fail errors=0; false errors=0 warnings=0; errors=1; ok\n\
row 51: Success; Fail errors=1; Success; errors=1 warnings=0; ok\n\
row 52: Success; Fail errors=1; Success; Success; Success; Fail errors=1; ok\n\
row 53: 0; 4; 3; none; 2; 6; 0; 0; 1; ok\n\
row 54: errors=1 warnings=0; errors=0 warnings=0; ok\n\
row 55: errors=1 warnings=0; errors=0 warnings=0; errors=1 warnings=0; errors=0 warnings=0; ok\n\
";

/// The ways in which a row can end.
enum Sample {
    Expected,
    Other,
    Refused,
}

const SAMPLES: [NamedRow<Sample>; 3] = [
    NamedRow {
        name: "2",
        row: Sample::Other,
    },
    NamedRow {
        name: "7",
        row: Sample::Refused,
    },
    NamedRow {
        name: "10",
        row: Sample::Expected,
    },
];

impl Row for Sample {
    fn report(
        &self,
        alloc: Global,
        _x1: &ExtensionSchemas,
        _x2: &ExtensionSchemas,
    ) -> Result<Report, AllocError> {
        let (outcomes, is_expected) = match self {
            Sample::Expected => (["Success", "Fail errors=1"], true),
            Sample::Other => (["errors=1 warnings=0", "errors=0 warnings=0"], false),
            Sample::Refused => return Err(AllocError),
        };
        Ok(Report {
            outcomes: texts(alloc, &outcomes)?,
            is_expected,
        })
    }
}

/// A writer that takes some writes and fails from then on.
#[derive(Drop)]
struct Failing {
    writes: u8,
}

impl Write for Failing {
    fn write(&mut self, buf: &[u8]) -> io::Result<usize> {
        if self.writes == 0 {
            return Err(io::Error::from(ErrorKind::BrokenPipe));
        }
        self.writes -= 1;
        Ok(buf.len())
    }

    fn flush(&mut self) -> io::Result<()> {
        Ok(())
    }
}

fn texts(alloc: Global, all: &[&str]) -> Result<Vec<String>, AllocError> {
    let mut copies = Vec::new(alloc);
    for text in all {
        copies.push(String::from_str(alloc, text)?)?;
    }
    Ok(copies)
}

/// The status that a run answered, and the texts of its two writers.
#[derive(Drop)]
struct Answer {
    status: u8,
    out: Vec<u8>,
    err: Vec<u8>,
}

/// The output of the rows that are built for these words.
fn answer_to(alloc: Global, words: &[&str]) -> Result<Answer, Fail> {
    let words = texts(alloc, words)?;
    let (x1, x2) = (x1(alloc)?, x2(alloc)?);
    let mut out = Vec::new(alloc);
    let mut err = Vec::new(alloc);
    let status = run(alloc, words.as_slice(), &x1, &x2, &mut out, &mut err);
    Ok(Answer { status, out, err })
}

/// The status of the samples, on writers of any kind.
fn run_samples<O: Write, E: Write>(
    alloc: Global,
    words: &[&str],
    out: &mut O,
    err: &mut E,
) -> Result<u8, AllocError> {
    let words = texts(alloc, words)?;
    let x1 = ExtensionSchemas::default(alloc);
    let x2 = ExtensionSchemas::default(alloc);
    Ok(run_among(alloc, &SAMPLES, words.as_slice(), &x1, &x2, out, err))
}

/// The output of the samples for these words.
fn sample_answer(alloc: Global, words: &[&str]) -> Result<Answer, AllocError> {
    let mut out = Vec::new(alloc);
    let mut err = Vec::new(alloc);
    let status = run_samples(alloc, words, &mut out, &mut err)?;
    Ok(Answer { status, out, err })
}

/// Checks that the answer has this status and output, and that the usage stands beside it only with status two.
fn check(rt: &impl Abort, words: &[&str], answer: Answer, status: u8, out: &[u8]) {
    let err = if status == 2 { USAGE } else { b"" };
    assert_eq!(rt; answer.status, status, "{words:?}");
    assert_eq!(rt; answer.out.as_slice(), out, "{words:?}");
    assert_eq!(rt; answer.err.as_slice(), err, "{words:?}");
}

/// The name of the row of this line.
fn name_in(line: &str) -> &str {
    let (name, _) = line.split_once(':').unwrap_or((line, ""));
    name.strip_prefix("row ").unwrap_or(name)
}

#[test]
fn each_row_that_is_built_is_as_expected(rt: HostRuntime) -> Result<(), Fail> {
    check(&rt, &[], answer_to(rt.alloc(), &[])?, 0, BUILT.as_bytes());
    for line in BUILT.split_inclusive('\n') {
        let word = name_in(line);
        check(
            &rt,
            &[word],
            answer_to(rt.alloc(), &[word])?,
            0,
            line.as_bytes(),
        );
    }
    Ok(())
}

#[test]
fn a_word_that_is_no_row_and_a_second_word_get_the_usage(rt: HostRuntime) -> Result<(), Fail> {
    for words in [
        ["x"].as_slice(),
        ["07"].as_slice(),
        ["56"].as_slice(),
        ["310"].as_slice(),
        ["1", "2"].as_slice(),
    ] {
        check(&rt, words, answer_to(rt.alloc(), words)?, 2, b"");
    }
    Ok(())
}

#[test]
fn rows_run_in_order_past_refused_memory_or_alone(rt: HostRuntime) -> Result<(), Fail> {
    let cases = [
        (
            [].as_slice(),
            1,
            b"row 2: errors=1 warnings=0; errors=0 warnings=0; differs\nrow 7: no memory\nrow 10: Success; Fail errors=1; ok\n".as_slice(),
        ),
        (
            ["10"].as_slice(),
            0,
            b"row 10: Success; Fail errors=1; ok\n".as_slice(),
        ),
        (
            ["2"].as_slice(),
            1,
            b"row 2: errors=1 warnings=0; errors=0 warnings=0; differs\n".as_slice(),
        ),
        (["7"].as_slice(), 1, b"row 7: no memory\n".as_slice()),
        (["1"].as_slice(), 2, b"".as_slice()),
        (["010"].as_slice(), 2, b"".as_slice()),
    ];
    for (words, status, out) in cases {
        check(&rt, words, sample_answer(rt.alloc(), words)?, status, out);
    }
    Ok(())
}

#[test]
fn a_failed_write_is_status_one(rt: HostRuntime) -> Result<(), Fail> {
    for (words, writes) in [
        ([].as_slice(), 0),
        ([].as_slice(), 1),
        (["10"].as_slice(), 0),
        (["10"].as_slice(), 1),
        (["x"].as_slice(), 1),
    ] {
        let mut out = Failing { writes };
        let mut err = Failing { writes: 0 };
        assert_eq!(rt; run_samples(rt.alloc(), words, &mut out, &mut err)?, 1);
    }
    Ok(())
}
