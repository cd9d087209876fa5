//! Accepting, tried again where it fails.

use road_io::Failed;
use std::net::{TcpListener, TcpStream};

// How often an accept is tried in a row.
const TRIES: u32 = 16;

/// The next connection of a listener, tried up to sixteen times in a row. May wait.
pub fn accept_retrying(listener: &TcpListener) -> Result<TcpStream, Failed> {
    for _ in 0..TRIES {
        if let Ok((stream, _)) = listener.accept() {
            return Ok(stream);
        }
    }
    Err(Failed)
}
