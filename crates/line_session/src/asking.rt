//! Answers lines, as their bytes come.

ghost use Rattle.std.specs.Prelude.{◌≡◌, ◌≤◌, ◌<◌, ◌∷◌, ◌++◌, [], length, take, OnErr, OnOk, IfErr, vec_capacity};
ghost use Rattle.std.specs.Io.KnownBytes.{Appends};
ghost use Rattle.std.specs.Str.Lines.{strip_carriage_return};
ghost use Rattle.road_io.specs.Faults.{OutputRose};
ghost use Rattle.road_io.specs.Outside.{outside};
ghost use Rattle.road_io.specs.Told.{AppendsFront};
ghost use Rattle.line_session.specs.Growing.{sides};
ghost use Rattle.line_session.specs.Leading.{Goes, GoesHalted, Puts, Steps, StopsAt, StopsWith};
ghost use Rattle.line_session.specs.Stopping.{Stopped, ToldAll};

use crate::published::Published;
use crate::replying::{Unanswered, reply};
use road_base::Text;
use road_io::{Files, Sink, Source, put_all};
use std::alloc::Global;
use std::thread::Threads;

/// Why the answering of lines stopped before the end of the input.
#[derive(Debug, Drop)]
pub enum Stop {
    /// The input failed.
    Input,
    /// The output failed.
    Output,
    /// The file of this name, which a traffic line names, could not be read.
    File(Text),
    /// 2^63 bytes of input or more were taken.
    TooLong,
    /// There was no memory to begin with. Nothing was taken, read or put.
    Memory,
}

/// What is put in place of a reply where there was no memory for it.
const BUSY: &[u8] = b"{\"code\":\"Busy\"}\n";

/// How many bytes of a line are held: those of the longest request, its carriage return, and one more,
/// with which it is no request, whatever follows.
const MOST_HELD: usize = 8194;

/// How many bytes are taken at once.
const PIECE: usize = 8192;

/// How many bytes of input are too many.
const TOO_MANY: u64 = 1 << 63;

/// The bytes of the line that has begun, as far as they make a difference.
#[derive(Drop)]
struct LineBuffer {
    held: Vec<u8>,
    ghost short: { length held.items ≤ 8194 },
    ghost room: { 8194 ≤ vec_capacity held },
}

// Puts a reply.
fn put<O: Sink>(output: &mut O, text: &[u8]) -> Result<(), Stop>
    ensures all { OnOk result (Appends (O.view output.old).written (O.view output.new).written text.now) }
    ensures kept { OnOk result ((O.view output.new).faults ≡ (O.view output.old).faults) }
    ensures part { OnErr result (AppendsFront (O.view output.old).written (O.view output.new).written text.now) }
    ensures rose { OnErr result (OutputRose (O.view output.old) (O.view output.new)) }
    ensures why { IfErr result (λ why. why ≡ Stop.Output) }
{
    match put_all(output, text) {
        Ok(()) => Ok(()),
        Err(_) => Err(Stop::Output),
    }
}

// Answers a line. Where it is empty, nothing is put.
fn answer_line<R: Threads + Sync, F: Files, O: Sink>(
    rt: &R,
    alloc: Global,
    published: &mut Published,
    files: &mut F,
    line: &[u8],
    output: &mut O,
) -> Result<(), Stop>
    ensures all { OnOk result (Puts published.old line.now (sides (F.view files.old) (O.view output.old)) (sides (F.view files.new) (O.view output.new)) published.new) }
    ensures stopped { IfErr result (λ why. StopsAt why published.old line.now (sides (F.view files.old) (O.view output.old)) (sides (F.view files.new) (O.view output.new)) published.new) }
{
    if line.is_empty() {
        return Ok(());
    }
    match reply(rt, alloc, published, files, line) {
        Ok(text) => put(output, text.as_bytes()),
        Err(Unanswered::Memory) => put(output, BUSY),
        Err(Unanswered::File(name)) => Err(Stop::File(name)),
    }
}

// The line without the carriage return at its end, if it has one.
fn without_return(line: &[u8]) -> &[u8]
    ensures { result.now ≡ strip_carriage_return line.now }
{
    if !line.is_empty() && line[line.len() - 1] == b'\r' {
        return &line[..line.len() - 1];
    }
    line
}

// Holds a byte of the line that has begun, or drops it where enough are held.
fn hold(buffer: &mut LineBuffer, byte: u8)
    ensures { buffer.new.held.items ≡ take 8194 (buffer.old.held.items ++ byte ∷ []) }
{
    if buffer.held.len() >= MOST_HELD {
        return;
    }
    match buffer.held.push(byte) {
        Ok(()) => {}
        Err(_) => unreachable!(),
    }
}

// Goes on by a byte: a newline ends the line that has begun, and it is answered.
fn take_byte<R: Threads + Sync, F: Files, O: Sink>(
    rt: &R,
    alloc: Global,
    published: &mut Published,
    files: &mut F,
    byte: u8,
    buffer: &mut LineBuffer,
    output: &mut O,
) -> Result<(), Stop>
    ensures all { OnOk result (Steps published.old published.new buffer.old.held.items byte buffer.new.held.items (sides (F.view files.old) (O.view output.old)) (sides (F.view files.new) (O.view output.new))) }
    ensures stopped { IfErr result (λ why. StopsWith why published.old published.new buffer.old.held.items byte (sides (F.view files.old) (O.view output.old)) (sides (F.view files.new) (O.view output.new))) }
{
    if byte == b'\n' {
        answer_line(
            rt,
            alloc,
            published,
            files,
            without_return(&buffer.held),
            output,
        )?;
        buffer.held.clear();
        return Ok(());
    }
    hold(buffer, byte);
    Ok(())
}

// Goes on by a piece of the input.
fn take_piece<R: Threads + Sync, F: Files, O: Sink>(
    rt: &R,
    alloc: Global,
    published: &mut Published,
    files: &mut F,
    piece: &[u8],
    buffer: &mut LineBuffer,
    output: &mut O,
) -> Result<(), Stop>
    ensures all { OnOk result (Goes published.old published.new buffer.old.held.items piece.now buffer.new.held.items (sides (F.view files.old) (O.view output.old)) (sides (F.view files.new) (O.view output.new))) }
    ensures stopped { IfErr result (λ why. GoesHalted why published.old published.new buffer.old.held.items piece.now (sides (F.view files.old) (O.view output.old)) (sides (F.view files.new) (O.view output.new))) }
{
    for byte in piece {
        match take_byte(rt, alloc, published, files, *byte, buffer, output) {
            Ok(()) => {}
            Err(why) => return Err(why),
        }
    }
    Ok(())
}

/// Answers the lines of the input, to its end. The last line may lack its newline. A traffic line reads the
/// files that it names, the speeds file first, and publishes their metric, or is told why not.
///
/// It stops at the first fault of the input, of the output or of a file, where 2^63 bytes of input or more
/// were taken, and where there is no memory to begin with, before anything was taken. Each line is answered
/// once its newline was taken: where the input failed or was too long, the replies to the whole lines among
/// the bytes taken were put, and nothing else; where the output failed, a proper front of them; where a file could
/// not be read, those to the lines before the one that names it. Want of memory for one reply is told in its
/// place, nothing is published, and the next line is answered.
pub fn answer_lines<R: Threads + Sync, F: Files, I: Source, O: Sink>(
    rt: &R,
    alloc: Global,
    published: &mut Published,
    files: &mut F,
    input: &mut I,
    output: &mut O,
) -> Result<(), Stop>
    ensures told { OnOk result (ToldAll published.old published.new (outside (F.view files.old) (I.view input.old) (O.view output.old)) (outside (F.view files.new) (I.view input.new) (O.view output.new))) }
    ensures stopped { IfErr result (λ why. Stopped why published.old published.new (outside (F.view files.old) (I.view input.old) (O.view output.old)) (outside (F.view files.new) (I.view input.new) (O.view output.new))) }
{
    let Ok(held) = Vec::with_capacity(alloc, MOST_HELD) else {
        return Err(Stop::Memory);
    };
    let mut buffer = LineBuffer { held };
    let mut piece = [0; PIECE];
    let mut taken: u64 = 0;
    while taken < TOO_MANY {
        let count = match input.take(&mut piece) {
            Ok(count) => count,
            Err(_) => return Err(Stop::Input),
        };
        if count == 0 {
            return answer_line(rt, alloc, published, files, &buffer.held, output);
        }
        match take_piece(
            rt,
            alloc,
            published,
            files,
            &piece[..count],
            &mut buffer,
            output,
        ) {
            Ok(()) => {}
            Err(why) => return Err(why),
        }
        taken += count as u64;
    }
    Err(Stop::TooLong)
}
