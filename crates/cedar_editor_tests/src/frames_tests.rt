// Messages in their frames, and the outcomes of taking them from streams.
use cedar_frames::{Broken, Incoming, MAX_MESSAGE, Taken, framed};
use std::alloc::{AllocError, Global};
use std::process::Abort;
use std::str;
use std::test::Fail;

/// The most bytes that a head may have.
const MAX_HEAD: usize = 8192;

/// The number of bytes of a piece.
const PIECE: usize = 65536;

/// Messages, and their frames.
const MESSAGES: [(&str, &str); 5] = [
    ("", "Content-Length: 0\r\n\r\n"),
    ("{}", "Content-Length: 2\r\n\r\n{}"),
    ("\r\n\r\n", "Content-Length: 4\r\n\r\n\r\n\r\n"),
    ("é𝒳", "Content-Length: 6\r\n\r\né𝒳"),
    (
        "Content-Length: 9\r\n\r\n",
        "Content-Length: 21\r\n\r\nContent-Length: 9\r\n\r\n",
    ),
];

/// Streams, and the outcomes of taking one frame after another, up to the one that is nothing.
const STREAMS: [(&str, &[&str]); 14] = [
    (
        "Content-Length: 2\r\n\r\nabContent-Length: 0\r\n\r\nContent-Length: 1\r\n\r\nc",
        &["message ab", "message ", "message c"],
    ),
    ("Content-Length: 2\r\n\r\na", &[]),
    ("Content-Length: 2\r\n", &[]),
    (
        "Content-Type: x\r\n\r\nContent-Length: 1\r\n\r\na",
        &["no length", "message a"],
    ),
    ("\r\n\r\n", &["no length"]),
    ("content-LENGTH:1\r\nX-Y: z\r\n\r\na", &["message a"]),
    // the last length counts
    (
        "Content-Length: 3\r\nContent-Length: 1\r\n\r\na",
        &["message a"],
    ),
    (
        "Content-Length: 1\r\nContent-Length: x\r\n\r\n",
        &["no length"],
    ),
    ("Content-Length: -5\r\n\r\n", &["no length"]),
    ("Content-Length: 1x\r\n\r\n", &["no length"]),
    ("Content-Length: \r\n\r\n", &["no length"]),
    (
        "Content-Length: 99999999999999999999\r\n\r\n",
        &["no length"],
    ),
    // 64 MiB, and a byte more
    ("Content-Length: 67108864\r\n\r\n", &[]),
    ("Content-Length: 67108865\r\n\r\n", &["too long"]),
];

/// The outcome of taking the next frame, in words.
fn taken(alloc: Global, incoming: &mut Incoming) -> Result<String, AllocError> {
    match incoming.take(alloc)? {
        Taken::Nothing => String::from_str(alloc, "nothing"),
        Taken::Broken(Broken::NoLength) => String::from_str(alloc, "no length"),
        Taken::Broken(Broken::TooLong) => String::from_str(alloc, "too long"),
        Taken::Message(bytes) => match str::from_utf8(bytes.as_slice()) {
            Ok(text) => format!(in alloc; "message {text}"),
            Err(_) => String::from_str(alloc, "no text"),
        },
    }
}

/// Adds the outcomes of taking one frame after another, a line for each, up to the one that is nothing.
fn push_outcomes(
    alloc: Global,
    incoming: &mut Incoming,
    lines: &mut String,
) -> Result<(), AllocError> {
    for _ in 0..9 {
        let said = taken(alloc, incoming)?;
        if said.as_str() == "nothing" {
            break;
        }
        writeln!(lines, "{said}")?;
    }
    Ok(())
}

/// Checks that a stream has these outcomes, a line for each, if it comes in one piece and if it comes byte by byte.
fn check_outcomes(
    rt: &(impl Abort + AllocGlobal),
    stream: &str,
    wanted: &str,
) -> Result<(), AllocError> {
    let alloc = rt.alloc();
    let mut whole = Incoming::new(alloc);
    let mut lines = String::new(alloc);
    whole.add(stream.as_bytes())?;
    push_outcomes(alloc, &mut whole, &mut lines)?;
    assert_eq!(rt; lines.as_str(), wanted, "{stream:?}");
    let mut slow = Incoming::new(alloc);
    let mut lines = String::new(alloc);
    for byte in stream.bytes() {
        assert!(rt;
            lines.len() < wanted.len() || wanted.is_empty(),
            "{stream:?}"
        );
        slow.add(&[byte])?;
        push_outcomes(alloc, &mut slow, &mut lines)?;
    }
    assert_eq!(rt; lines.as_str(), wanted, "{stream:?}");
    Ok(())
}

#[test]
fn frames_of_streams(rt: HostRuntime) -> Result<(), Fail> {
    let alloc = rt.alloc();
    for (message, frame) in &MESSAGES {
        let sent = framed(alloc, message)?;
        assert_eq!(rt; sent.as_str(), *frame);
        let wanted = format!(in alloc; "message {message}\n")?;
        check_outcomes(&rt, frame, wanted.as_str())?;
    }
    for (stream, outcomes) in &STREAMS {
        let mut wanted = String::new(alloc);
        for outcome in *outcomes {
            writeln!(wanted, "{outcome}")?;
        }
        check_outcomes(&rt, stream, wanted.as_str())?;
    }
    Ok(())
}

/// A head of this many bytes, 26 or more, which says the length 1 behind a long line.
fn long_head(alloc: Global, size: usize) -> Result<String, AllocError> {
    let mut head = String::from_str(alloc, "X: ")?;
    for _ in 26..size {
        head.push_str("y")?;
    }
    head.push_str("\r\nContent-Length: 1\r\n\r\n")?;
    Ok(head)
}

/// Sizes of heads, and the outcomes of taking one with a message behind it.
const HEADS: [(usize, &str); 4] = [
    (26, "message a"),
    (MAX_HEAD - 1, "message a"),
    (MAX_HEAD, "message a"),
    (MAX_HEAD + 1, "no length"),
];

#[test]
fn long_heads(rt: HostRuntime) -> Result<(), Fail> {
    let alloc = rt.alloc();
    for (size, wanted) in &HEADS {
        let head = long_head(alloc, *size)?;
        assert_eq!(rt; head.len(), *size);
        let mut incoming = Incoming::new(alloc);
        incoming.add(head.as_bytes())?;
        incoming.add(b"a")?;
        let said = taken(alloc, &mut incoming)?;
        assert_eq!(rt; said.as_str(), *wanted, "{size}");
    }
    // so many bytes of a head have come that it cannot end in time any more
    let mut incoming = Incoming::new(alloc);
    for _ in 1..MAX_HEAD {
        incoming.add(b"y")?;
    }
    let said = taken(alloc, &mut incoming)?;
    assert_eq!(rt; said.as_str(), "nothing");
    incoming.add(b"y")?;
    let said = taken(alloc, &mut incoming)?;
    assert_eq!(rt; said.as_str(), "no length");
    incoming.add(b"Content-Length: 1\r\n\r\nb")?;
    let said = taken(alloc, &mut incoming)?;
    assert_eq!(rt; said.as_str(), "message b");
    Ok(())
}

/// A message that is too long is refused by its head alone, and passed over piece by piece. The message behind it is taken.
#[test]
fn a_long_message(rt: HostRuntime) -> Result<(), Fail> {
    let alloc = rt.alloc();
    let mut incoming = Incoming::new(alloc);
    let size = MAX_MESSAGE + 1;
    let head = format!(in alloc; "Content-Length: {size}\r\n\r\n")?;
    incoming.add(head.as_bytes())?;
    let said = taken(alloc, &mut incoming)?;
    assert_eq!(rt; said.as_str(), "too long");
    let piece = vec![in alloc; b'x'; PIECE]?;
    for _ in 0..MAX_MESSAGE / PIECE {
        incoming.add(piece.as_slice())?;
        let said = taken(alloc, &mut incoming)?;
        assert_eq!(rt; said.as_str(), "nothing");
    }
    incoming.add(b"xContent-Length: 1\r\n\r\nd")?;
    let said = taken(alloc, &mut incoming)?;
    assert_eq!(rt; said.as_str(), "message d");
    Ok(())
}
