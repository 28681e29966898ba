//! Listeners and connections, of the network or of Unix sockets.

use mio::net::{TcpListener, TcpStream, UnixListener, UnixStream};
use mio::{Interest, Poll, Token};
use std::io;
use std::io::{Read, Write};
use std::net::Shutdown;

/// Where connections come.
#[derive(Drop)]
pub enum Listener {
    /// At an address of the network.
    Tcp(TcpListener),
    /// At a Unix socket.
    Unix(UnixListener),
}

/// A connection. None of its calls waits.
#[derive(Drop)]
pub enum Stream {
    Tcp(TcpStream),
    Unix(UnixStream),
}

impl Listener {
    /// Makes the listener known to the poll.
    pub fn register(&mut self, poll: &Poll, token: Token) -> io::Result<()> {
        match self {
            Listener::Tcp(listener) => {
                poll.registry()
                    .register(listener, token, Interest::READABLE)
            }
            Listener::Unix(listener) => {
                poll.registry()
                    .register(listener, token, Interest::READABLE)
            }
        }
    }

    /// The next connection, or `WouldBlock` if none waits.
    pub fn accept(&self) -> io::Result<Stream> {
        match self {
            Listener::Tcp(listener) => {
                let (stream, _) = listener.accept()?;
                Ok(Stream::Tcp(stream))
            }
            Listener::Unix(listener) => {
                let (stream, _) = listener.accept()?;
                Ok(Stream::Unix(stream))
            }
        }
    }
}

impl Stream {
    /// Makes the connection known to the poll.
    pub fn register(&mut self, poll: &Poll, token: Token) -> io::Result<()> {
        let both = Interest::READABLE | Interest::WRITABLE;
        match self {
            Stream::Tcp(stream) => poll.registry().register(stream, token, both),
            Stream::Unix(stream) => poll.registry().register(stream, token, both),
        }
    }

    /// Small replies leave at once.
    pub fn send_at_once(&self) {
        if let Stream::Tcp(stream) = self {
            // A system that does not do so sends them a little later.
            let _ = stream.set_nodelay(true);
        }
    }

    /// Tells the other side that nothing more is written.
    pub fn end_writing(&self) -> io::Result<()> {
        match self {
            Stream::Tcp(stream) => stream.shutdown(Shutdown::Write),
            Stream::Unix(stream) => stream.shutdown(Shutdown::Write),
        }
    }
}

impl Read for Stream {
    fn read(&mut self, buffer: &mut [u8]) -> io::Result<usize> {
        match self {
            Stream::Tcp(stream) => stream.read(buffer),
            Stream::Unix(stream) => stream.read(buffer),
        }
    }
}

impl Write for Stream {
    fn write(&mut self, bytes: &[u8]) -> io::Result<usize> {
        match self {
            Stream::Tcp(stream) => stream.write(bytes),
            Stream::Unix(stream) => stream.write(bytes),
        }
    }

    fn flush(&mut self) -> io::Result<()> {
        Ok(())
    }
}
