//! What the tests do over a connection.

use std::alloc::Global;
use std::io::{Read, Write};
use std::net::{Net, SocketAddr, TcpStream};

/// A connection, if there is one.
pub fn connected<R: Net<Stream = TcpStream>>(rt: &R, address: SocketAddr) -> Option<TcpStream> {
    TcpStream::connect(rt, address).ok()
}

/// Writes the text, in pieces of so many bytes: whether all went out.
pub fn says(stream: &TcpStream, text: &[u8], piece: usize) -> bool {
    let mut output = stream;
    if piece == 0 {
        return output.write_all(text).is_ok();
    }
    for part in text.chunks(piece) {
        if output.write_all(part).is_err() {
            return false;
        }
    }
    true
}

/// Whether the next bytes are these.
pub fn hears(alloc: Global, stream: &TcpStream, expected: &[u8]) -> bool {
    let Ok(mut got) = vec![in alloc; 0u8; expected.len()] else {
        return false;
    };
    let mut input = stream;
    input.read_exact(got.as_mut_slice()).is_ok() && got.as_slice() == expected
}

/// Whether the connection is at its end.
pub fn is_at_end(stream: &TcpStream) -> bool {
    let mut input = stream;
    let mut rest = [0u8; 1];
    matches!(&input.read(&mut rest), Ok(0) | Err(_))
}

/// Says the one and hears the other.
pub fn talks(alloc: Global, stream: &TcpStream, row: (&[u8], &[u8]), piece: usize) -> bool {
    says(stream, row.0, piece) && hears(alloc, stream, row.1)
}
