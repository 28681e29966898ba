//! Whole rows of the protocol over a connection, in pieces of so many bytes, or each in one piece at 0.

use crate::talking::{hears, is_at_end, says, talks};
use std::alloc::Global;
use std::net::TcpStream;

type Row = (&'static [u8], &'static [u8]);

/// What a batch stores has a unique that its place gives.
const UNIQUES: Row = (
    b"set a 0 0 1\r\n5\r\ngets a\r\ncas a 0 0 1 63\r\n6\r\ncas a 0 0 1 64\r\n7\r\ncas b 0 0 1 64\r\n8\r\ngets a\r\n",
    b"STORED\r\nVALUE a 0 1 64\r\n5\r\nEND\r\nEXISTS\r\nSTORED\r\nNOT_FOUND\r\nVALUE a 0 1 256\r\n7\r\nEND\r\n",
);

/// Counters wrap at 2^64 and stop at 0, and what is written is shortest. Leading zeros are a number, letters
/// are none.
const NUMBERS: Row = (
    b"set n 0 0 20\r\n18446744073709551615\r\nincr n 1\r\nset n 0 0 1\r\n3\r\ndecr n 5\r\nset n 0 0 2\r\n10\r\ndecr n 1\r\nget n\r\nset n 0 0 3\r\n007\r\nincr n 1\r\nset n 0 0 3\r\nabc\r\nincr n 1\r\nincr n x\r\n",
    b"STORED\r\n0\r\nSTORED\r\n0\r\nSTORED\r\n9\r\nVALUE n 0 1\r\n9\r\nEND\r\nSTORED\r\n8\r\nSTORED\r\nCLIENT_ERROR cannot increment or decrement non-numeric value\r\nCLIENT_ERROR invalid numeric delta argument\r\n",
);

const OTHERS: Row = (
    b"set g 3 0 1\r\n5\r\ngat 10 g h\r\nset q 0 0 1 noreply\r\nz\r\nget q\r\nversion\r\nGET a\r\nquit\r\n",
    b"STORED\r\nVALUE g 3 1\r\n5\r\nEND\r\nVALUE q 0 1\r\nz\r\nEND\r\nVERSION eve-1\r\nERROR\r\n",
);

/// A line without its byte 13 takes no block: what follows is a line.
const NO_BLOCK: Row = (
    b"set a 0 0 1\n5\r\n",
    b"CLIENT_ERROR bad command line format\r\nERROR\r\n",
);

/// All rows of one client, the last of which ends with `quit`.
pub fn session(alloc: Global, stream: &TcpStream, piece: usize) -> bool {
    talks(alloc, stream, UNIQUES, piece)
        && talks(alloc, stream, NUMBERS, piece)
        && talks(alloc, stream, NO_BLOCK, piece)
        && talks(alloc, stream, OTHERS, piece)
        && is_at_end(stream)
}

/// A bad end of a block closes the connection, and what follows is not read: it may not even go out.
pub fn bad_chunk(alloc: Global, stream: &TcpStream, piece: usize) -> bool {
    let _said = says(stream, b"set a 0 0 1\r\n5xxget a\r\n", piece);
    hears(alloc, stream, b"CLIENT_ERROR bad data chunk\r\n") && is_at_end(stream)
}
