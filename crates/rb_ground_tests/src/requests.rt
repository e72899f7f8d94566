//! Requests in their bytes, and a reply.
use rb_causes::{Items, Line, MemLine, SteadyLine, Text};
use rb_wire::{DoorBuffer, Heard, next_turn, read_request, write_response};
use std::alloc::{AllocError, Global};
use std::str;
use std::test::Fail;

/// An input and what is heard of it, one after another.
struct Case {
    input: &'static [u8],
    heard: &'static [&'static str],
}

const CASES: [Case; 9] = [
    Case {
        input: b"POST /a?b?c HTTP/1.1\r\nContent-Length: 5\r\nX-Rundeck-Auth-Token: t\r\nx-rundeck-auth-token: u\r\n\r\nhello\n\r\nGET /d HTTP/1.1\n\nget ? HTTP/1.0\n\nGET / HTTP/1.1\n\n",
        heard: &[
            "POST /a b?c t open hello",
            "GET /d  - open ",
            "get   - close ",
        ],
    },
    Case {
        input: b"GET /a HTTP/1.1\nCONNECTION:\tCLOSE \n\nGET",
        heard: &["GET /a  - close "],
    },
    Case {
        input: b"",
        heard: &["End"],
    },
    Case {
        input: b"\r\n",
        heard: &["BadHead"],
    },
    Case {
        input: b"GET /\xff HTTP/1.1\r\n\r\n",
        heard: &["BadHead"],
    },
    Case {
        input: b"P / HTTP/1.1\nContent-Length: x\nTransfer-Encoding:\n\n",
        heard: &["TransferEncoding"],
    },
    Case {
        input: b"P / HTTP/1.1\nContent-Length: 5\ncontent-length: 6\n\nhello",
        heard: &["BadLength"],
    },
    Case {
        input: b"P / HTTP/1.1\nContent-Length: 1048577\n\n",
        heard: &["TooLong"],
    },
    Case {
        input: b"GET / HTTP/1.1\n\nP / HTTP/1.1\nContent-Length: 6\n\nhello",
        heard: &["GET /  - open ", "Cut"],
    },
];

/// A line of one caller with this input, whose reads give at most so many bytes.
fn line_of(alloc: Global, input: &[u8], piece: usize) -> Result<SteadyLine, AllocError> {
    let callers = vec![in alloc; bytes_of(alloc, input)?]?;
    let mut line = SteadyLine::new(alloc, callers, piece.max(1));
    let _served = line.next_caller();
    Ok(line)
}

/// Whether this is heard of the line, one after another.
fn is_heard(
    alloc: Global,
    line: &mut SteadyLine,
    buffer: &mut DoorBuffer,
    wanted: &[&str],
) -> Result<bool, AllocError> {
    for heard in wanted {
        let told = told(alloc, read_request(alloc, line, buffer))?;
        if told.as_str() != *heard {
            return Ok(false);
        }
    }
    Ok(true)
}

#[test]
fn requests_come_in_pieces_of_any_size(rt: HostRuntime) -> Result<(), Fail> {
    let alloc = rt.alloc();
    let mut buffer = DoorBuffer::new(alloc)?;
    for case in &CASES {
        for piece in &[1, 7, 1_000usize] {
            let mut line = line_of(alloc, case.input, *piece)?;
            next_turn(&mut buffer);
            let is_heard = is_heard(alloc, &mut line, &mut buffer, case.heard)?;
            assert!(rt; is_heard, "piece {piece}");
        }
    }
    Ok(())
}

/// So many bytes of a body, and in how many writes the reply goes out.
const BODIES: [(usize, u64); 4] = [(0, 1), (2, 1), (3_999, 1), (4_000, 2)];

#[test]
fn a_reply_is_one_write_or_two_and_a_fault_leaves_a_prefix(rt: HostRuntime) -> Result<(), Fail> {
    let alloc = rt.alloc();
    let blanks = [b' '; 4_000];
    for (size, writes) in &BODIES {
        let body = blanks.get(..*size).unwrap_or(b"");
        let mut whole = one_caller(alloc, Vec::new(alloc))?;
        assert!(rt; write_response(&mut whole, 200, body, false).is_ok());
        assert_eq!(rt; whole.planned.calls, *writes + 1);
        let mut cut = one_caller(alloc, vec![in alloc; *writes + 1]?)?;
        assert!(rt; write_response(&mut cut, 200, body, false).is_err());
        let (Some(reply), Some(prefix)) = (whole.taken(0), cut.taken(0)) else {
            return Err(Fail::new("a caller who is served"));
        };
        assert!(rt; reply.starts_with(prefix) && reply.ends_with(body));
        assert!(rt; prefix.len() < reply.len());
    }
    Ok(())
}

/// A line whose one caller is served; these of its calls fail.
fn one_caller(alloc: Global, failing: Vec<u64>) -> Result<MemLine, AllocError> {
    let callers = vec![in alloc; bytes_of(alloc, b"")?]?;
    let mut line = MemLine::new(alloc, callers, 1, failing);
    let _served = line.next_caller();
    Ok(line)
}

fn bytes_of(alloc: Global, bytes: &[u8]) -> Result<Items<u8>, AllocError> {
    let mut copy = Vec::new(alloc);
    copy.extend_from_slice(bytes)?;
    Ok(Items::of(copy))
}

/// A request's method, path, query, token, close and body, or the name of what else was heard.
fn told(alloc: Global, heard: Heard) -> Result<String, AllocError> {
    match heard {
        Heard::Asked(request) => {
            let method = request.method.as_str();
            let path = request.path.as_str();
            let query = request.query.as_str();
            let token = token_of(&request.token);
            let close = word_of(request.close);
            let body = str::from_utf8(request.body.as_slice()).unwrap_or("no text");
            format!(in alloc; "{method} {path} {query} {token} {close} {body}")
        }
        Heard::End => format!(in alloc; "End"),
        Heard::Broken(fault) => format!(in alloc; "{fault:?}"),
        Heard::LineFault => format!(in alloc; "LineFault"),
        Heard::NoMemory => format!(in alloc; "NoMemory"),
    }
}

fn token_of(token: &Option<Text>) -> &str {
    match token {
        Some(text) => text.as_str(),
        None => "-",
    }
}

fn word_of(close: bool) -> &'static str {
    if close { "close" } else { "open" }
}
