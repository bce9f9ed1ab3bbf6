//! What the system tells of sockets: which connections come, and which are ready. It reads and writes none of their bytes.
ghost use Rattle.std.specs.Prelude.{◌≡◌, ◌<◌, ◌||◌, ◌⊎◌, true, false, not, is_some, None, Err, IfSome, IfOk, IfErr, OnOk, OnErr};
ghost use Rattle.mio.specs.Events.{items as events_of};
ghost use Rattle.mi_replay.specs.Replayed.{replayer};
ghost use Rattle.mi_clients.specs.Clients.{ids, EachWoken};
ghost use Rattle.mi_serving.specs.Link.{is_unix};
ghost use Rattle.mi_serving.specs.Events.{told_by, told_by_all, called_by, called_by_all, callers_behind, is_path_asked};

use crate::failure::{Failure, Fault};
use crate::link::Link;
use crate::words::Addresses;
use mi_clients::{Client, wake_one};
use mi_durable::REPLAYER;
use mio::event::Event;
use mio::net::{TcpListener, UnixListener, UnixStream};
use mio::{Events, Interest, Poll, Token};
use std::io::ErrorKind;
use std::net::{Ipv4Addr, Net, SocketAddr};
use std::os::unix::fs::FileTypeExt;
use std::rt::Files;
use std::time::Duration;
use std::{fs, io};

/// The token of the port's listener; a connection's is its number.
const PORT: Token = Token(0);

/// The token of the path's listener. It is the number of the connection that replays a journal, and each that comes has a higher one.
const PATH: Token = Token(REPLAYER as usize);

/// The events of one wait, at most.
const MOST_EVENTS: usize = 128;

/// At which listeners a connection may be there to be accepted.
#[derive(Clone, Copy, Drop)]
pub struct Callers {
    port: bool,
    path: bool,
}

/// A listener on a port of 127.0.0.1, one at a path, or both, and the readiness of their connections.
#[derive(Drop)]
pub struct Acceptor {
    poll: Poll,
    events: Events,
    port: Option<TcpListener>,
    path: Option<UnixListener>,
    callers: Callers,
    path_is_next: bool,
    is_tired: bool,
}

/// Listens on a port, and on no other address than 127.0.0.1.
fn listen_on<R: Net>(rt: &R, poll: &Poll, port: u16) -> io::Result<TcpListener> {
    let mut listener = TcpListener::bind(rt, SocketAddr::from((Ipv4Addr::LOCALHOST, port)))?;
    poll.registry()
        .register(&mut listener, PORT, Interest::READABLE)?;
    Ok(listener)
}

/// Whether a socket's file stands at a path, and the system says that nobody listens there.
fn is_left<R: Files + Net>(rt: &R, path: &str) -> bool {
    let Ok(found) = fs::symlink_metadata(rt, path) else {
        return false;
    };
    if !found.file_type().is_socket() {
        return false;
    }
    match UnixStream::connect(rt, path) {
        Ok(_stream) => false,
        Err(error) => error.kind() == ErrorKind::ConnectionRefused,
    }
}

/// A socket at a path. A file that a socket has left there, as that of a service that was killed, is removed first.
fn bind_at<R: Files + Net>(rt: &R, path: &str) -> io::Result<UnixListener> {
    if path.is_empty() {
        return Err(io::Error::from(ErrorKind::NotFound));
    }
    if is_left(rt, path) {
        fs::remove_file(rt, path)?;
    }
    UnixListener::bind(rt, path)
}

/// Listens at a path.
fn listen_at<R: Files + Net>(rt: &R, poll: &Poll, path: &str) -> io::Result<UnixListener> {
    let mut listener = bind_at(rt, path)?;
    poll.registry()
        .register(&mut listener, PATH, Interest::READABLE)?;
    Ok(listener)
}

/// Notes what is reported: of a listener that a connection may be there, of a connection what it is ready for.
fn tell(event: &Event, callers: &mut Callers, clients: &mut Vec<Client<Link>>)
    ensures told { clients.new.items ≡ told_by event.now clients.old.items }
    ensures called { callers.new ≡ called_by event.now callers.old }
    ensures ids { ids clients.new.items ≡ ids clients.old.items }
    ensures woken { EachWoken clients.old.items clients.new.items }
{
    let token = event.token();
    if token == PORT {
        callers.port = true;
    } else if token == PATH {
        callers.path = true;
    } else {
        let closing = event.is_read_closed() || event.is_write_closed() || event.is_error();
        let conn = token.0 as u64;
        wake_one(
            clients,
            conn,
            event.is_readable(),
            event.is_writable(),
            closing,
        );
    }
}

impl Acceptor {
    /// An acceptor without a listener.
    fn new<R: Net + AllocGlobal>(rt: &R) -> io::Result<Acceptor>
        ensures closed { IfOk result (λ acceptor. (acceptor.port ≡ None) × (acceptor.path ≡ None)) }
    {
        Ok(Acceptor {
            poll: Poll::new(rt)?,
            events: Events::with_capacity(rt.alloc(), MOST_EVENTS)?,
            port: None,
            path: None,
            callers: Callers {
                port: false,
                path: false,
            },
            path_is_next: false,
            is_tired: false,
        })
    }

    /// Opens the port, where one is asked for.
    fn open_port<R: Net>(&mut self, rt: &R, port: Option<u16>) -> io::Result<()>
        requires closed { self.old.port ≡ None }
        ensures opens { OnOk result (is_some self.new.port ≡ is_some port) }
        ensures path { self.new.path ≡ self.old.path }
    {
        if let Some(port) = port {
            self.port = Some(listen_on(rt, &self.poll, port)?);
            self.callers.port = true;
        }
        Ok(())
    }

    /// Opens the path, where one is asked for.
    fn open_path<R: Files + Net>(&mut self, rt: &R, path: Option<&str>) -> io::Result<()>
        requires closed { self.old.path ≡ None }
        ensures opens { OnOk result (is_some self.new.path ≡ is_some path.entry) }
        ensures fails { OnErr result (is_some path.entry ≡ true) }
        ensures port { self.new.port ≡ self.old.port }
    {
        if let Some(path) = path {
            self.path = Some(listen_at(rt, &self.poll, path)?);
            self.callers.path = true;
        }
        Ok(())
    }

    /// Listens on a port of 127.0.0.1, on one that is free where it is 0, and at a path, as is asked for.
    ///
    /// A file that a socket has left at the path is removed. Where somebody listens there, or the file is no socket, that is the fault. It is
    /// of the path only where one is asked for.
    pub fn open<R: Files + Net + AllocGlobal>(
        rt: &R,
        addresses: &Addresses,
    ) -> Result<Acceptor, Fault>
        ensures opens { IfOk result (λ acceptor. (is_some acceptor.port ≡ is_some addresses.now.port) × (is_some acceptor.path ≡ is_some addresses.now.unix)) }
        ensures fails { IfErr result (λ fault. (fault.failure ≡ Failure.Listen) × (fault.is_of_path ≡ true → is_some addresses.now.unix ≡ true)) }
    {
        let mut acceptor = match Acceptor::new(rt) {
            Ok(acceptor) => acceptor,
            Err(error) => return Err(Fault::of(Failure::Listen, error)),
        };
        if let Err(error) = acceptor.open_port(rt, addresses.port) {
            return Err(Fault::of(Failure::Listen, error));
        }
        if let Err(error) = acceptor.open_path(rt, addresses.unix.as_deref()) {
            return Err(Fault::of_path(error));
        }
        Ok(acceptor)
    }

    /// The port that is listened on, where one is.
    pub fn port(&self) -> Result<Option<u16>, Fault>
        ensures tells { IfOk result (λ port. is_some port ≡ is_some self.now.port) }
        ensures fails { IfErr result (λ fault. fault.failure ≡ Failure.Listen) }
    {
        let Some(listener) = &self.port else {
            return Ok(None);
        };
        match listener.local_addr() {
            Ok(address) => Ok(Some(address.port())),
            Err(error) => Err(Fault::of(Failure::Listen, error)),
        }
    }

    /// Whether a connection may be there to be accepted.
    pub fn may_accept(&self) -> bool
        ensures { result ≡ (self.now.callers.port || self.now.callers.path) }
    {
        self.callers.port || self.callers.path
    }

    /// Waits so long at most. A wait that a signal ends tells of nothing that is ready, so behind one that does it looks once more.
    fn look(&mut self, timeout: Option<Duration>) -> Result<(), Failure>
        ensures poll { OnErr result (result ≡ Err Failure.Poll) }
        ensures same { self.new ≡ record self.old { poll = self.new.poll; events = self.new.events } }
    {
        let at_once = Some(Duration::from_millis(0));
        if self.poll.poll(&mut self.events, timeout).is_err()
            || self.events.is_empty() && self.poll.poll(&mut self.events, at_once).is_err()
        {
            return Err(Failure::Poll);
        }
        Ok(())
    }

    /// Waits until something is ready, or for the longest time that is given, or only looks. Where the system gave no connection before, one
    /// may be there behind this, at each listener.
    pub fn wait(&mut self, at_once: bool, longest: Option<Duration>) -> Result<(), Failure>
        ensures poll { OnErr result (result ≡ Err Failure.Poll) }
        ensures rested { OnOk result (self.new.callers ≡ callers_behind self.old.is_tired (is_some self.old.port) (is_some self.old.path) self.old.callers) }
        ensures fresh { OnOk result (self.new.is_tired ≡ false) }
    {
        let timeout = if at_once {
            Some(Duration::from_millis(0))
        } else if self.is_tired {
            Some(Duration::from_millis(100))
        } else {
            longest
        };
        self.look(timeout)?;
        if self.is_tired {
            self.callers = Callers {
                port: self.port.is_some(),
                path: self.path.is_some(),
            };
            self.is_tired = false;
        }
        Ok(())
    }

    /// Tells the connections what was reported of them, and notes at which listeners one may be there to be accepted.
    pub fn wake(&mut self, clients: &mut Vec<Client<Link>>)
        ensures told { clients.new.items ≡ told_by_all (events_of self.old.events) clients.old.items }
        ensures called { self.new.callers ≡ called_by_all (events_of self.old.events) self.old.callers }
        ensures ids { ids clients.new.items ≡ ids clients.old.items }
        ensures woken { EachWoken clients.old.items clients.new.items }
    {
        let reported = self.events.iter().as_slice();
        let mut callers = self.callers;
        'events: for event in reported {
            tell(event, &mut callers, clients);
        }
        self.callers = callers;
    }

    /// A connection that has come, where one has: its readiness is told under this number, which is no listener's. Where one may be there at
    /// both listeners they take turns.
    pub fn accept(&mut self, conn: u64) -> Option<Link>
        requires own { replayer < conn }
        ensures through { IfSome result (λ link. is_unix link ≡ is_path_asked self.old.callers self.old.path_is_next) }
        ensures turns { self.new.path_is_next ≡ not (is_path_asked self.old.callers self.old.path_is_next) }
    {
        let at_path = self.callers.path && (self.path_is_next || !self.callers.port);
        self.path_is_next = !at_path;
        let came = if at_path {
            self.accept_at_path()
        } else {
            self.accept_on_port()
        };
        let mut link = came?;
        let registered = link.register(self.poll.registry(), conn);
        registered.ok()?;
        Some(link)
    }

    /// A connection that has come on the port, where one has. What is written to it is sent at once.
    fn accept_on_port(&mut self) -> Option<Link>
        ensures through { IfSome result (λ link. is_unix link ≡ false) }
        ensures turns { self.new.path_is_next ≡ self.old.path_is_next }
    {
        let Some(listener) = &self.port else {
            self.callers.port = false;
            return None;
        };
        match listener.accept() {
            Ok((stream, _address)) => {
                let _ = stream.set_nodelay(true);
                Some(Link::Tcp(stream))
            }
            Err(error) => {
                self.callers.port = self.goes_on(error.kind());
                None
            }
        }
    }

    /// A connection that has come at the path, where one has.
    fn accept_at_path(&mut self) -> Option<Link>
        ensures through { IfSome result (λ link. is_unix link ≡ true) }
        ensures turns { self.new.path_is_next ≡ self.old.path_is_next }
    {
        let Some(listener) = &self.path else {
            self.callers.path = false;
            return None;
        };
        match listener.accept() {
            Ok((stream, _address)) => Some(Link::Unix(stream)),
            Err(error) => {
                self.callers.path = self.goes_on(error.kind());
                None
            }
        }
    }

    /// No connection was accepted: none is there, or the system gives none for now. Whether one may be there still.
    fn goes_on(&mut self, kind: ErrorKind) -> bool
        ensures passes { result ≡ true → (kind ≡ ErrorKind.Interrupted) ⊎ (kind ≡ ErrorKind.ConnectionAborted) }
        ensures waits { result ≡ false → (kind ≡ ErrorKind.WouldBlock) ⊎ (self.new.is_tired ≡ true) }
        ensures turns { self.new ≡ record self.old { is_tired = self.new.is_tired } }
    {
        match kind {
            ErrorKind::WouldBlock => false,
            ErrorKind::Interrupted | ErrorKind::ConnectionAborted => true,
            _ => {
                self.is_tired = true;
                false
            }
        }
    }
}
