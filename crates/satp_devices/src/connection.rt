ghost use Rattle.std.specs.Prelude.{◌≡◌, ◌≤◌, ◌<◌, length, IfOk};
ghost use Rattle.std.specs.Io.KnownBytes.{ReadConsumes, WriteAppends};

use std::io::{self, ErrorKind, Read, Write};
use std::net::{OpenStream, Shutdown};
use std::time::{Clock, Duration};

/// How much is dropped at the end of a connection.
const MOST_DROPPED: usize = 65_536;

/// How much is dropped at once.
const CHUNK: usize = 1024;

/// How long a wire waits for its peer.
#[derive(Clone, Copy)]
pub struct Patience {
    /// For an address of the peer to answer a connection.
    pub dial: Duration,
    /// For the next byte of a connection.
    pub silence: Duration,
    /// For a connection to be over.
    pub whole: Duration,
    /// For what still comes after this side has said its end.
    pub farewell: Duration,
}

impl Patience {
    /// 10 seconds for an address, 30 for a byte, 300 for a connection, and 1 at its end.
    pub fn usual() -> Patience {
        Patience {
            dial: Duration::from_secs(10),
            silence: Duration::from_secs(30),
            whole: Duration::from_secs(300),
            farewell: Duration::from_secs(1),
        }
    }
}

/// A stream to a peer, and the time at which it began.
#[derive(Drop)]
pub struct Connection<S: Drop> {
    stream: S,
    begun: Duration,
}

impl<S: Read + Write + OpenStream + Drop> Connection<S> {
    /// A connection over a stream that has just been opened, at this time. What is written goes out at once.
    pub fn begin(stream: S, begun: Duration) -> io::Result<Connection<S>> {
        stream.set_nodelay(true)?;
        Ok(Connection { stream, begun })
    }

    /// One read of the system, which is tried again where a signal interrupted it. 0 with room left is the end.
    ///
    /// It fails where no byte came for as long as the patience says, and where the connection has lasted too long.
    pub fn read<C: Clock>(
        &mut self,
        clock: &C,
        patience: Patience,
        into: &mut [u8],
    ) -> io::Result<usize>
        ensures within { IfOk result (λ n. n ≤ length into.new) }
        ensures bytes { ReadConsumes (S.remaining self.old.stream) (S.remaining self.new.stream) result into.new }
    {
        // The system would wait for a byte here too.
        if into.is_empty() {
            return Ok(0);
        }
        for _ in 0..u64::MAX {
            let wait = self.wait(clock, patience)?;
            self.stream.set_read_timeout(Some(wait))?;
            match self.stream.read(into) {
                Err(error) if error.kind() == ErrorKind::Interrupted => {}
                answer => return answer,
            }
        }
        Err(ErrorKind::TimedOut.into())
    }

    /// One write of the system, which is tried again where a signal interrupted it.
    ///
    /// It fails where nothing of the piece was taken, also for as long as the patience says, and where the connection has lasted too long.
    pub fn write<C: Clock>(
        &mut self,
        clock: &C,
        patience: Patience,
        piece: &[u8],
    ) -> io::Result<usize>
        ensures within { IfOk result (λ n. n ≤ length piece.now) }
        ensures some { 0 < length piece.now → IfOk result (λ n. 0 < n) }
        ensures bytes { WriteAppends (S.contents self.old.stream) (S.contents self.new.stream) result piece.now }
    {
        if piece.is_empty() {
            return Ok(0);
        }
        for _ in 0..u64::MAX {
            let wait = self.wait(clock, patience)?;
            self.stream.set_write_timeout(Some(wait))?;
            match self.stream.write(piece) {
                Ok(0) => return Err(ErrorKind::WriteZero.into()),
                Err(error) if error.kind() == ErrorKind::Interrupted => {}
                answer => return answer,
            }
        }
        Err(ErrorKind::TimedOut.into())
    }

    /// How long a call may wait: for a byte, and no longer than the connection may last.
    fn wait<C: Clock>(&self, clock: &C, patience: Patience) -> io::Result<Duration> {
        let left = left_of(clock, self.begun, patience.whole)?;
        if left < patience.silence {
            Ok(left)
        } else {
            Ok(patience.silence)
        }
    }

    /// Says the end, reads and drops what still comes, and closes.
    ///
    /// A stream that is closed with bytes unread is reset, and the peer may lose the last that was said to it (RFC 9112, section 9.6). No more than 65,536 bytes are dropped, and no
    /// longer than the patience says.
    pub fn end<C: Clock>(self, clock: &C, patience: Patience) {
        let mut stream = self.stream;
        if stream.shutdown(Shutdown::Write).is_ok() {
            let _ = drop_rest(&mut stream, clock, patience.farewell);
        }
    }
}

/// What is left of a time that has a beginning. It fails where nothing is.
fn left_of<C: Clock>(clock: &C, begun: Duration, whole: Duration) -> io::Result<Duration> {
    let left = whole.saturating_sub(clock.monotonic()?.saturating_sub(begun));
    if left.is_zero() {
        return Err(ErrorKind::TimedOut.into());
    }
    Ok(left)
}

/// Reads and drops what comes, up to the end or the most that is dropped. It fails where the time is over before that.
fn drop_rest<S: Read + OpenStream, C: Clock>(
    stream: &mut S,
    clock: &C,
    whole: Duration,
) -> io::Result<()> {
    let begun = clock.monotonic()?;
    let mut room = MOST_DROPPED;
    let mut chunk = [0u8; CHUNK];
    for _ in 0..u64::MAX {
        stream.set_read_timeout(Some(left_of(clock, begun, whole)?))?;
        let most = room.min(CHUNK);
        match stream.read(&mut chunk[..most]) {
            Ok(count) if count == 0 || count >= room => return Ok(()),
            Ok(count) => room = room.saturating_sub(count),
            Err(error) if error.kind() == ErrorKind::Interrupted => {}
            Err(error) => return Err(error),
        }
    }
    Ok(())
}
