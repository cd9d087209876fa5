//! Connections in memory whose input waits for a flag.

ghost use Rattle.std.specs.Prelude.{All, IfOk, OnOk};
ghost use Rattle.road_io.specs.MemoryStates.{conn_state};
ghost use Rattle.road_io.specs.Views.{IsFreshConn};

use crate::waiting_flags::TURNS;
use memory_doors::{Flag, FlagConn};
use road_io::{MemConn, MemSink, MemSource};
use std::alloc::{AllocError, Global};
use std::sync::Arc;

/// A connection with this input, and room for so much output.
pub fn connection(alloc: Global, input: &[u8], room: usize) -> Result<MemConn, AllocError>
    ensures { IfOk result (λ c. IsFreshConn (conn_state c)) }
{
    let input = Vec::from_slice(alloc, input)?;
    let source = MemSource::of(input, Vec::new(alloc), Vec::new(alloc));
    Ok(MemConn::of(source, MemSink::of(alloc, room, Vec::new(alloc))?))
}

/// A connection with this input, which it gives once one flag is set, and room for so much output, of which the first byte
/// sets another.
pub fn flag_conn(
    alloc: Global,
    input: &[u8],
    room: usize,
    wait: &Arc<Flag>,
    set: &Arc<Flag>,
) -> Result<FlagConn<MemConn>, AllocError>
    ensures { IfOk result (λ c. IsFreshConn (conn_state c.conn)) }
{
    let conn = connection(alloc, input, room)?;
    Ok(FlagConn::of(conn, Arc::try_clone(wait)?, TURNS, Arc::try_clone(set)?, 1))
}

/// Puts such a connection behind these.
pub fn push_conn(
    alloc: Global,
    connections: &mut Vec<FlagConn<MemConn>>,
    input: &[u8],
    room: usize,
    wait: &Arc<Flag>,
    set: &Arc<Flag>,
) -> Result<(), AllocError>
    requires { All (λ c. IsFreshConn (conn_state c.conn)) connections.old.items }
    ensures { OnOk result (All (λ c. IsFreshConn (conn_state c.conn)) connections.new.items) }
{
    connections.push(flag_conn(alloc, input, room, wait, set)?)?;
    Ok(())
}
