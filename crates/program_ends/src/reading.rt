//! The files of the words, in their order.

ghost use Rattle.std.specs.Prelude.{◌≡◌, ◌∷◌, [], IfOk, IfErr, option_map};
ghost use Rattle.program_ends.specs.FileReads.{AreRead, IsBare, IsLeft, listed, named};

use road_io::{FileFault, Files};
use std::alloc::Global;

/// The file that was not read, and why.
#[derive(Clone, Copy, Debug)]
pub struct Unread<'a> {
    pub name: &'a str,
    pub fault: FileFault,
}

/// Reads the file of this name.
pub fn read_file<'a, F: Files>(
    alloc: Global,
    name: &'a str,
    files: &mut F,
) -> Result<Vec<u8>, Unread<'a>>
    ensures read { IfOk result (λ bytes. AreRead (F.view files.old) (F.view files.new) ((name.now, bytes.items) ∷ [])) }
    ensures unread { IfErr result (λ u. IsLeft (F.view files.old) (F.view files.new) (name.now ∷ []) u.name.now u.fault) }
{
    match files.read(alloc, name) {
        Ok(bytes) => Ok(bytes),
        Err(fault) => Err(Unread { name, fault }),
    }
}

/// Reads the file of this name, where one is named. Of none there are no bytes.
pub fn read_named<'a, F: Files>(
    alloc: Global,
    name: Option<&'a str>,
    files: &mut F,
) -> Result<Vec<u8>, Unread<'a>>
    ensures read { IfOk result (λ bytes. AreRead (F.view files.old) (F.view files.new) (named (option_map (λ n. n.now) name.entry) bytes.items)) }
    ensures bare { IfOk result (λ bytes. IsBare (option_map (λ n. n.now) name.entry) bytes.items) }
    ensures unread { IfErr result (λ u. IsLeft (F.view files.old) (F.view files.new) (listed (option_map (λ n. n.now) name.entry)) u.name.now u.fault) }
{
    match name {
        Some(name) => read_file(alloc, name, files),
        None => Ok(Vec::new(alloc)),
    }
}

/// Reads the files of a map and settings, in this order.
pub fn read_both<'a, F: Files>(
    alloc: Global,
    map: &'a str,
    settings: &'a str,
    files: &mut F,
) -> Result<(Vec<u8>, Vec<u8>), Unread<'a>>
    ensures read { IfOk result (λ both. AreRead (F.view files.old) (F.view files.new) ((map.now, both.0.items) ∷ (settings.now, both.1.items) ∷ [])) }
    ensures unread { IfErr result (λ u. IsLeft (F.view files.old) (F.view files.new) (map.now ∷ settings.now ∷ []) u.name.now u.fault) }
{
    match read_file(alloc, map, files) {
        Ok(map_bytes) => match read_file(alloc, settings, files) {
            Ok(settings_bytes) => Ok((map_bytes, settings_bytes)),
            Err(unread) => Err(unread),
        },
        Err(unread) => Err(unread),
    }
}
