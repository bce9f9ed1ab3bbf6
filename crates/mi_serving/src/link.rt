//! The stream of a connection, through whichever of the service's sockets it has come.
use mi_clients::Duplex;
use mio::net::{TcpStream, UnixStream};
use mio::{Interest, Registry, Token};
use std::io;
use std::io::{Read, Write};

/// A connection's stream.
#[derive(Drop)]
pub enum Link {
    /// It has come through the port.
    Tcp(TcpStream),
    /// It has come through the path's socket.
    Unix(UnixStream),
}

impl Link {
    ghost use Rattle.std.specs.Prelude.{◌≡◌};

    /// Has a poll report under this number when it is ready.
    pub(crate) fn register(&mut self, registry: &Registry, conn: u64) -> io::Result<()>
        ensures same { self.new ≡ self.old }
    {
        let token = Token(conn as usize);
        let both = Interest::READABLE | Interest::WRITABLE;
        match self {
            Link::Tcp(stream) => registry.register(stream, token, both),
            Link::Unix(stream) => registry.register(stream, token, both),
        }
    }
}

/// No clause can say what a socket gives or takes, so it tells nothing of its bytes, and not whether it has failed. Its descriptor stays.
impl Duplex for Link {
    ghost use Rattle.mi_serving.specs.Link.{link_fd};

    ghost handle = { λ s. link_fd s };

    fn read(&mut self, buffer: &mut [u8]) -> io::Result<usize> {
        match self {
            Link::Tcp(stream) => Read::read(stream, buffer),
            Link::Unix(stream) => Read::read(stream, buffer),
        }
    }

    fn write(&mut self, bytes: &[u8]) -> io::Result<usize> {
        match self {
            Link::Tcp(stream) => Write::write(stream, bytes),
            Link::Unix(stream) => Write::write(stream, bytes),
        }
    }
}
