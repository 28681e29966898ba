//! Streams in pieces, and the limits of lines and blocks.

use crate::tell::{is_told, tell_piece};
use dialect::{MOST_LINE_BYTES, Reader};
use std::alloc::{AllocError, Global};
use std::test::Fail;

const SESSION: &[u8] =
    b"set k 0 0 4\r\n\r\n\r\n\r\nset b x 0 3\r\nabc\r\ngat 5 a b\r\ndelete k 0 noreply\r\nincr n 2\nquit\r\nget a\r\n";

const OF_SESSION: &[u8] =
    b"set k 0 0 \r\n\r\n\nCLIENT_ERROR bad command line format\r\ngat 5 a b\ndelete k (quiet)\nincr n 2\nclosed\n";

/// Whether a session is read alike wherever it is cut in two.
fn is_told_where_cut(alloc: Global) -> Result<bool, AllocError> {
    for at in 0..SESSION.len() + 1 {
        let (front, back) = SESSION.split_at(at);
        if !is_told(alloc, &[front, back], OF_SESSION)? {
            return Ok(false);
        }
    }
    Ok(true)
}

/// Whether a session is read byte by byte.
fn is_told_in_bytes(alloc: Global) -> Result<bool, AllocError> {
    let mut out = Vec::new(alloc);
    let mut reader = Reader::new(alloc);
    for byte in SESSION {
        tell_piece(alloc, &mut reader, &[*byte], &mut out)?;
    }
    Ok(out.as_slice() == OF_SESSION)
}

/// So many words of some letters each, behind a space.
fn add_words(count: usize, letters: usize, out: &mut Vec<u8>) -> Result<(), AllocError> {
    for _ in 0..count {
        out.push(b' ')?;
        for _ in 0..letters.min(250) {
            out.push(b'k')?;
        }
    }
    Ok(())
}

/// What is told of a `get` of so many keys.
fn told_of_get(alloc: Global, count: usize, letters: usize) -> Result<Vec<u8>, AllocError> {
    let mut line = b"get".to_vec(alloc)?;
    add_words(count, letters, &mut line)?;
    line.extend_from_slice(b"\r\n")?;
    let mut out = Vec::new(alloc);
    tell_piece(alloc, &mut Reader::new(alloc), line.as_slice(), &mut out)?;
    Ok(out)
}

/// Adds what is told of a piece of so many keys.
fn add_piece(
    count: usize,
    letters: usize,
    end: &[u8],
    out: &mut Vec<u8>,
) -> Result<(), AllocError> {
    out.extend_from_slice(b"get")?;
    add_words(count, letters, out)?;
    out.extend_from_slice(end)
}

/// Whether a `get` of so many keys is asked in three pieces of these numbers of keys.
fn is_in_pieces(alloc: Global, letters: usize, counts: [usize; 3]) -> Result<bool, AllocError> {
    let [first, second, third] = counts;
    let mut expected = Vec::new(alloc);
    add_piece(first, letters, b" (items)\n", &mut expected)?;
    add_piece(second, letters, b" (items)\n", &mut expected)?;
    add_piece(third, letters, b"\n", &mut expected)?;
    let all = first.min(1000) + second.min(1000) + third.min(1000);
    Ok(told_of_get(alloc, all, letters)?.as_slice() == expected.as_slice())
}

fn some_zeros(alloc: Global, count: usize) -> Result<Vec<u8>, AllocError> {
    Ok(vec![in alloc; 0; count]?)
}

/// Whether a line of so many bytes with its newline is told so.
fn is_line_told(alloc: Global, count: usize, expected: &[u8]) -> Result<bool, AllocError> {
    let mut line = b"get ".to_vec(alloc)?;
    for _ in 4..count {
        line.push(b'k')?;
    }
    is_told(alloc, &[line.as_slice(), b"\nmn\r\n"], expected)
}

fn are_lines_told(alloc: Global) -> Result<bool, AllocError> {
    Ok(
        is_line_told(
            alloc,
            MOST_LINE_BYTES - 1,
            b"CLIENT_ERROR bad command line format\r\nMN\r\n",
        )? && is_line_told(
            alloc,
            MOST_LINE_BYTES,
            b"CLIENT_ERROR line too long\r\nclosed\n",
        )?,
    )
}

/// Whether a storage line whose block is one byte above the limit is told so.
fn is_large_told(
    alloc: Global,
    line: &[u8],
    zeros: &[u8],
    expected: &[u8],
) -> Result<bool, AllocError> {
    is_told(alloc, &[line, zeros, b"\0\r\nmn\r\n"], expected)
}

fn are_large_told(alloc: Global, zeros: &[u8]) -> Result<bool, AllocError> {
    Ok(
        is_large_told(
            alloc,
            b"set k 0 0 1048577\r\n",
            zeros,
            b"delete k -> SERVER_ERROR object too large for cache\r\nMN\r\n",
        )? && is_large_told(
            alloc,
            b"set k 0 0 1048577 noreply\r\n",
            zeros,
            b"delete k (quiet)\nMN\r\n",
        )? && is_large_told(
            alloc,
            b"add k 0 0 1048577\r\n",
            zeros,
            b"SERVER_ERROR object too large for cache\r\nMN\r\n",
        )? && is_large_told(
            alloc,
            b"append k 0 x 1048577\r\n",
            zeros,
            b"CLIENT_ERROR bad command line format\r\nMN\r\n",
        )?,
    )
}

/// Whether a block of the greatest size is stored: its bytes come behind the words of the command.
fn is_greatest_told(alloc: Global, zeros: &[u8]) -> Result<bool, AllocError> {
    let mut out = Vec::new(alloc);
    let mut reader = Reader::new(alloc);
    tell_piece(alloc, &mut reader, b"set k 0 0 1048576\r\n", &mut out)?;
    tell_piece(alloc, &mut reader, zeros, &mut out)?;
    tell_piece(alloc, &mut reader, b"\r\n", &mut out)?;
    Ok(out.len() == 1048576 + 11)
}

/// How many letters each key of a `get` has, and how many keys it has in each of three pieces.
const PIECES: [(usize, [usize; 3]); 4] = [
    (1, [64, 64, 1]),
    (1, [64, 64, 64]),
    // Eight keys of 250 bytes fit on a line of 2,048.
    (250, [8, 8, 3]),
    // 28 keys of 72 bytes and their spaces are 2,044 bytes, with `get` and the line end 2,049.
    (72, [27, 27, 5]),
];

/// Whether each `get` of many keys is asked in its pieces.
fn gets_of_many_keys(alloc: Global) -> Result<bool, AllocError> {
    for (letters, counts) in &PIECES {
        if !is_in_pieces(alloc, *letters, *counts)? {
            return Ok(false);
        }
    }
    Ok(true)
}

fn limits(alloc: Global) -> Result<bool, AllocError> {
    let zeros = some_zeros(alloc, 1048576)?;
    Ok(are_large_told(alloc, zeros.as_slice())? && is_greatest_told(alloc, zeros.as_slice())?)
}

#[test]
fn streams_are_told_so(rt: HostRuntime) -> Result<(), Fail> {
    let alloc = rt.alloc();
    let told = [
        ("cuts: in two", is_told_where_cut(alloc)?),
        ("cuts: byte by byte", is_told_in_bytes(alloc)?),
        ("gets_of_many_keys", gets_of_many_keys(alloc)?),
        ("limits: of lines", are_lines_told(alloc)?),
        ("limits: of blocks", limits(alloc)?),
    ];
    for (name, is_so) in &told {
        assert!(rt; *is_so, "{name}");
    }
    Ok(())
}
