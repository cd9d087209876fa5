//! The files of the system. They tell nothing of what they hold.

ghost use Rattle.std.specs.Prelude.{◌≡◌, ◌≢◌, IfErr, IfOk, Ok, IsErrOf};
ghost use Rattle.std.specs.IoError.{error_kind};

use road_io::{FileFault, Files};
use std::alloc::Global;
use std::io::ErrorKind;
use std::{fs, io};

/// Files by the paths of the system.
#[derive(Drop)]
pub struct SystemFiles<'a, R> {
    rt: &'a R,
    faults: u64,
}

impl<'a, R> SystemFiles<'a, R> {
    /// The files that this runtime reaches.
    pub fn of(rt: &'a R) -> SystemFiles<'a, R> {
        SystemFiles { rt, faults: 0 }
    }
}

// What a read of the system comes to: want of memory is no fault of the file.
fn file_answer(read: io::Result<Vec<u8>>) -> Result<Vec<u8>, FileFault>
    ensures bytes { IfOk read (λ bytes. result ≡ Ok bytes) }
    ensures failed { IfErr read (λ e. error_kind e ≢ ErrorKind.OutOfMemory → IsErrOf result FileFault.Failed) }
    ensures memory { IfErr read (λ e. error_kind e ≡ ErrorKind.OutOfMemory → IsErrOf result FileFault.Memory) }
{
    match read {
        Ok(bytes) => Ok(bytes),
        Err(error) if error.kind() == ErrorKind::OutOfMemory => Err(FileFault::Memory),
        Err(_) => Err(FileFault::Failed),
    }
}

impl<'a, R: std::rt::Files + AllocGlobal> Files for SystemFiles<'a, R> {
    ghost use Rattle.std.specs.Prelude.{None};

    ghost view = { λ files. record { content = λ name. None; reads = None; failed_names = None; faults = files.faults } };

    fn read(&mut self, _alloc: Global, name: &str) -> Result<Vec<u8>, FileFault> {
        let answer = file_answer(fs::read(self.rt, name));
        if let Err(FileFault::Failed) = answer {
            self.faults = self.faults.saturating_add(1);
        }
        answer
    }
}
