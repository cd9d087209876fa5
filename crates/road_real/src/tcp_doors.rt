//! A door over TCP.

ghost use Rattle.std.specs.Prelude.{◌<◌, ◌≤◌};
ghost use Rattle.road_io.specs.DoorOpening.{IsNewDoor};

use crate::accepting::accept_retrying;
use crate::tcp_conns::TcpConn;
use road_io::{Door, Failed};
use std::io;
use std::net::{SocketAddr, TcpListener, TcpStream};
use std::sync::Arc;
use std::sync::atomic::{AtomicBool, Ordering};
use std::time::Duration;

/// A door over TCP: a listener, a flag that it shares with what closes it, and how long the clients of its
/// connections may be silent. It gives up to 18446744073709551615 connections, one after another; then it fails.
#[derive(Drop)]
pub struct TcpDoor {
    listener: TcpListener,
    close: Arc<AtomicBool>,
    silence: Duration,
    given: u64,
    finished: u64,
    closed: bool,
    ended: bool,
    faults: u64,
    ghost counted: { finished ≤ given },
}

impl TcpDoor {
    ghost use Rattle.road_real.specs.TcpStates.{door_view};

    /// A door at which this listener waits until the flag is raised. A client of its connections may be silent
    /// for so long at a time.
    pub fn of(listener: TcpListener, close: Arc<AtomicBool>, silence: Duration) -> TcpDoor
        ensures { IsNewDoor (door_view result) }
    {
        TcpDoor {
            listener,
            close,
            silence,
            given: 0,
            finished: 0,
            closed: false,
            ended: false,
            faults: 0,
        }
    }

    /// The address that the door listens at, with the port that the system chose where 0 was asked for.
    pub fn address(&self) -> io::Result<SocketAddr> {
        self.listener.local_addr()
    }

    /// How long a client of its connections may be silent at a time.
    pub fn silence(&self) -> Duration {
        self.silence
    }

    // The next stream; None where the flag was raised before one came. One that came later is let go: it is
    // the closer's, which wakes the door, or too late.
    fn arrival(&self) -> Result<Option<TcpStream>, Failed> {
        if self.close.load(Ordering::SeqCst) {
            return Ok(None);
        }
        let stream = accept_retrying(&self.listener)?;
        if self.close.load(Ordering::SeqCst) {
            return Ok(None);
        }
        Ok(Some(stream))
    }
}

impl Door for TcpDoor {
    ghost use Rattle.road_real.specs.TcpStates.{door_view};

    type Conn = TcpConn;

    ghost view = { door_view };

    fn next(&mut self) -> Result<Option<TcpConn>, Failed> {
        if self.ended {
            return Ok(None);
        }
        match self.arrival() {
            Ok(Some(stream)) if self.given < u64::MAX => {
                self.given += 1;
                Ok(Some(TcpConn::of(stream, self.silence)))
            }
            Ok(None) => {
                self.closed = true;
                self.ended = true;
                Ok(None)
            }
            _ => {
                self.faults = self.faults.saturating_add(1);
                self.ended = true;
                Err(Failed)
            }
        }
    }

    fn finish(&mut self, _conn: TcpConn) {
        self.finished += 1;
    }

    fn has_fault(&self) -> bool {
        self.faults > 0
    }
}
