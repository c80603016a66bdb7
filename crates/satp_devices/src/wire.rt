ghost use Rattle.std.specs.Prelude.{◌≡◌, ◌≤◌, ◌<◌, None, true, false, is_some, length, IfOk, OnOk, OnErr};
ghost use Rattle.std.specs.Io.KnownBytes.{ReadConsumes, WriteAppends};
ghost use Rattle.satp_base.specs.Streams.{HasCause};
ghost use Rattle.satp_devices.specs.Counting.{Counts};
ghost use Rattle.satp_devices.specs.OpenStreams.{OnStream};
ghost use Rattle.satp_devices.specs.Untold.{untold_is_open};

use crate::connection::{Connection, Patience};
use crate::faults::counted;
use satp_base::{Address, Wire, WireFault};
use std::io::{self, ErrorKind};
use std::net::{Net, OpenListener, TcpListener, ToSocketAddrs};
use std::time::Clock;

/// A wire over TCP. It tells nothing of what is said, and counts each fault once. What it gives and takes are the bytes that its stream gives and takes.
///
/// A peer that is silent or slow is a fault: [`Patience`] says how long each call waits. [`Wire::accept`] waits without limit, and passes over a connection that was aborted before it
/// was taken. [`Wire::connect`] tries each address of a name.
#[derive(Drop)]
pub struct TcpWire<R: Net + Clock + Copy> {
    net: R,
    patience: Patience,
    listener: Option<R::Listener>,
    connection: Option<Connection<R::Stream>>,
    faults: u64,
}

impl<R: Net + Clock + Copy> TcpWire<R> {
    /// A wire that doesn't listen, and has no connection.
    pub fn new(net: R, patience: Patience) -> TcpWire<R>
        ensures listener { is_some result.listener ≡ false }
        ensures connection { is_some result.connection ≡ false }
        ensures faults { result.faults ≡ 0 }
    {
        TcpWire {
            net,
            patience,
            listener: None,
            connection: None,
            faults: 0,
        }
    }

    /// Whether it listens.
    pub fn listens(&self) -> bool
        ensures { result ≡ is_some self.now.listener }
    {
        self.listener.is_some()
    }

    /// Whether a connection is open.
    pub fn is_open(&self) -> bool
        ensures { result ≡ is_some self.now.connection }
    {
        self.connection.is_some()
    }
}

impl<R: Net + Clock + Copy> Wire for TcpWire<R> {
    ghost told = { λ _. None };

    ghost faults = { λ w. w.faults };

    ghost listens = { λ w. is_some w.listener };

    ghost is_open = { λ w. is_some w.connection };

    ghost one_open = { λ w t is held. untold_is_open t is };

    ghost beside_same = { λ w. tt };

    ghost beside_then = { λ a b c first then. tt };

    fn listen(&mut self, at: &Address) -> Result<(), WireFault>
        ensures ok { OnOk result (is_some self.new.listener ≡ true) }
        ensures err { OnErr result (is_some self.new.listener ≡ is_some self.old.listener) }
        ensures connection { is_some self.new.connection ≡ is_some self.old.connection }
        ensures cause { HasCause self.old.faults self.new.faults result }
        ensures counts { Counts self.old.faults self.new.faults result }
    {
        let answer = bind(&self.net, at);
        let listener = counted(&mut self.faults, answer.map_err(|_| WireFault))?;
        self.listener = Some(listener);
        Ok(())
    }

    fn accept(&mut self) -> Result<(), WireFault>
        requires listens { is_some self.old.listener ≡ true }
        requires free { is_some self.old.connection ≡ false }
        ensures ok { OnOk result (is_some self.new.connection ≡ true) }
        ensures err { OnErr result (is_some self.new.connection ≡ false) }
        ensures listener { is_some self.new.listener ≡ is_some self.old.listener }
        ensures cause { HasCause self.old.faults self.new.faults result }
        ensures counts { Counts self.old.faults self.new.faults result }
    {
        let answer = match &self.listener {
            Some(listener) => take_next(&self.net, listener),
            None => Err(ErrorKind::NotConnected.into()),
        };
        let connection = counted(&mut self.faults, answer.map_err(|_| WireFault))?;
        self.connection = Some(connection);
        Ok(())
    }

    fn connect(&mut self, at: &Address) -> Result<(), WireFault>
        requires free { is_some self.old.connection ≡ false }
        ensures ok { OnOk result (is_some self.new.connection ≡ true) }
        ensures err { OnErr result (is_some self.new.connection ≡ false) }
        ensures listener { is_some self.new.listener ≡ is_some self.old.listener }
        ensures cause { HasCause self.old.faults self.new.faults result }
        ensures counts { Counts self.old.faults self.new.faults result }
    {
        let answer = dial(&self.net, self.patience, at);
        let connection = counted(&mut self.faults, answer.map_err(|_| WireFault))?;
        self.connection = Some(connection);
        Ok(())
    }

    fn read(&mut self, into: &mut [u8]) -> Result<usize, WireFault>
        requires { is_some self.old.connection ≡ true }
        ensures within { IfOk result (λ n. n ≤ length into.new) }
        ensures stream { OnStream (λ b a. ReadConsumes (R.Stream.Read.remaining b) (R.Stream.Read.remaining a) result into.new) self.old.connection self.new.connection }
        ensures connection { is_some self.new.connection ≡ true }
        ensures listener { is_some self.new.listener ≡ is_some self.old.listener }
        ensures cause { HasCause self.old.faults self.new.faults result }
        ensures counts { Counts self.old.faults self.new.faults result }
    {
        let answer = match &mut self.connection {
            Some(connection) => connection.read(&self.net, self.patience, into),
            None => Err(ErrorKind::NotConnected.into()),
        };
        counted(&mut self.faults, answer.map_err(|_| WireFault))
    }

    fn write(&mut self, piece: &[u8]) -> Result<usize, WireFault>
        requires { is_some self.old.connection ≡ true }
        ensures within { IfOk result (λ n. n ≤ length piece.now) }
        ensures some { 0 < length piece.now → IfOk result (λ n. 0 < n) }
        ensures stream { OnStream (λ b a. WriteAppends (R.Stream.Write.contents b) (R.Stream.Write.contents a) result piece.now) self.old.connection self.new.connection }
        ensures connection { is_some self.new.connection ≡ true }
        ensures listener { is_some self.new.listener ≡ is_some self.old.listener }
        ensures cause { HasCause self.old.faults self.new.faults result }
        ensures counts { Counts self.old.faults self.new.faults result }
    {
        let answer = match &mut self.connection {
            Some(connection) => connection.write(&self.net, self.patience, piece),
            None => Err(ErrorKind::NotConnected.into()),
        };
        counted(&mut self.faults, answer.map_err(|_| WireFault))
    }

    fn shut(&mut self)
        ensures connection { is_some self.new.connection ≡ false }
        ensures listener { is_some self.new.listener ≡ is_some self.old.listener }
        ensures faults { self.new.faults ≡ self.old.faults }
    {
        if let Some(connection) = self.connection.take() {
            connection.end(&self.net, self.patience);
        }
    }
}

/// The text of an address, as the system takes it: `host:port`.
fn text_of(at: &Address) -> io::Result<&str> {
    match str::from_utf8(at.bytes()) {
        Ok(text) => Ok(text),
        Err(_) => Err(ErrorKind::InvalidInput.into()),
    }
}

/// Listens at the first address of the name that can be had.
fn bind<R: Net>(net: &R, at: &Address) -> io::Result<R::Listener> {
    TcpListener::bind(net, text_of(at)?)
}

/// Waits for the next connection. One that its peer has ended before it could be used is passed over.
fn take_next<R: Net + Clock>(net: &R, listener: &R::Listener) -> io::Result<Connection<R::Stream>> {
    for _ in 0..u64::MAX {
        match listener.accept() {
            Ok((stream, _)) => {
                let begun = net.monotonic()?;
                if let Ok(connection) = Connection::begin(stream, begun) {
                    return Ok(connection);
                }
            }
            Err(error) if is_of_the_peer(error.kind()) => {}
            Err(error) => return Err(error),
        }
    }
    Err(ErrorKind::TimedOut.into())
}

/// An accepting that failed because of the one connection alone.
fn is_of_the_peer(kind: ErrorKind) -> bool {
    matches!(
        kind,
        ErrorKind::ConnectionAborted | ErrorKind::ConnectionReset | ErrorKind::Interrupted
    )
}

/// Connects to the first address of the name that answers.
fn dial<R: Net + Clock>(
    net: &R,
    patience: Patience,
    at: &Address,
) -> io::Result<Connection<R::Stream>> {
    let mut last = ErrorKind::NotFound.into();
    for address in text_of(at)?.to_socket_addrs(net)? {
        match net.connect_timeout(address, patience.dial) {
            Ok(stream) => return Connection::begin(stream, net.monotonic()?),
            Err(error) => last = error,
        }
    }
    Err(last)
}
