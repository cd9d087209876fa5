//! Replies to lines.

ghost use Rattle.std.specs.Prelude.{◌≡◌, Some, None, IfErr, IfOk, OnErr, OnOk};
ghost use Rattle.line_session.specs.Growing.{ReadsAll};
ghost use Rattle.line_session.specs.Leading.{AreLeft, AreRead, IsLeft, IsReplyTo, IsUnanswered};
ghost use Rattle.line_session.specs.Traffic.{StandsFor, files_named, traffic_names};

use crate::published::Published;
use crate::traffic_lines::{NO_FILE, traffic_names};
use road_base::Text;
use road_io::{FileFault, Files};
use std::alloc::Global;
use std::thread::Threads;

/// Why a line got no reply.
#[derive(Debug, Drop)]
pub enum Unanswered {
    /// The file of this name could not be read.
    File(Text),
    /// Memory ran out.
    Memory,
}

// The bytes that a name of a traffic line stands for.
fn read_named<F: Files>(alloc: Global, files: &mut F, name: &str) -> Result<Vec<u8>, Unanswered>
    ensures bytes { IfOk result (λ bytes. StandsFor (F.view files.old).content name.now bytes.items) }
    ensures read { OnOk result (ReadsAll (F.view files.old) (F.view files.new) (files_named name.now)) }
    ensures left { IfErr result (λ why. IsLeft why name.now (F.view files.old) (F.view files.new)) }
{
    if name == NO_FILE {
        return Ok(Vec::new(alloc));
    }
    // copied beforehand, so that it can be told where the file can't be read
    let Ok(copy) = Text::copy_of(alloc, name) else {
        return Err(Unanswered::Memory);
    };
    match files.read(alloc, name) {
        Ok(bytes) => Ok(bytes),
        Err(FileFault::Failed) => Err(Unanswered::File(copy)),
        Err(FileFault::Memory) => Err(Unanswered::Memory),
    }
}

// The bytes of both files of a traffic line: the speeds file is read first.
fn read_both<F: Files>(
    alloc: Global,
    files: &mut F,
    speeds: &str,
    turns: &str,
) -> Result<(Vec<u8>, Vec<u8>), Unanswered>
    ensures read { IfOk result (λ both. AreRead (speeds.now, turns.now) both.0.items both.1.items (F.view files.old) (F.view files.new)) }
    ensures left { IfErr result (λ why. AreLeft why (speeds.now, turns.now) (F.view files.old) (F.view files.new)) }
{
    let speeds_bytes = match read_named(alloc, files, speeds) {
        Ok(bytes) => bytes,
        Err(why) => return Err(why),
    };
    match read_named(alloc, files, turns) {
        Ok(turns_bytes) => Ok((speeds_bytes, turns_bytes)),
        Err(why) => Err(why),
    }
}

// The reply to a traffic line of these names, with a newline behind it.
fn reply_to_traffic<R: Threads + Sync, F: Files>(
    rt: &R,
    alloc: Global,
    published: &mut Published,
    files: &mut F,
    line: &[u8],
    speeds: &str,
    turns: &str,
) -> Result<Text, Unanswered>
    ensures reply { IfOk result (λ text. IsReplyTo published.old line.now (Some (speeds.now, turns.now)) text (F.view files.old) (F.view files.new) published.new) }
    ensures left { IfErr result (λ why. AreLeft why (speeds.now, turns.now) (F.view files.old) (F.view files.new)) }
    ensures stays { OnErr result (published.new ≡ published.old) }
{
    match read_both(alloc, files, speeds, turns) {
        Ok((speeds_bytes, turns_bytes)) => {
            match published.publish(rt, alloc, speeds_bytes.as_slice(), turns_bytes.as_slice()) {
                Ok(text) => Ok(text),
                Err(_) => Err(Unanswered::Memory),
            }
        }
        Err(why) => Err(why),
    }
}

/// The reply to a line that is not empty, with a newline behind it.
pub fn reply<R: Threads + Sync, F: Files>(
    rt: &R,
    alloc: Global,
    published: &mut Published,
    files: &mut F,
    line: &[u8],
) -> Result<Text, Unanswered>
    ensures reply { IfOk result (λ text. IsReplyTo published.old line.now (traffic_names line.now) text (F.view files.old) (F.view files.new) published.new) }
    ensures left { IfErr result (λ why. IsUnanswered why (traffic_names line.now) (F.view files.old) (F.view files.new)) }
    ensures stays { OnErr result (published.new ≡ published.old) }
{
    match traffic_names(line) {
        Some((speeds, turns)) => {
            reply_to_traffic(rt, alloc, published, files, line, speeds, turns)
        }
        None => match published.reply_line(rt, alloc, line) {
            Ok(text) => Ok(text),
            Err(_) => Err(Unanswered::Memory),
        },
    }
}
