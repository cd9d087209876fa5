//! Files in memory.

ghost use Rattle.std.specs.Prelude.{◌≡◌, ◌↔◌, ◌⊎◌, [], ◌∷◌, ◌++◌, Contains, IsNone, IsErr, IsErrOf, IfOk, IfErr, IfSome, OnErr, OnOk, option_copied};
ghost use Rattle.road_io.specs.Faults.{HasFileCause};
ghost use Rattle.road_io.specs.FailedNames.{TellsFailed, TellsRead};
ghost use Rattle.road_io.specs.FileContent.{IsFileContent};
ghost use Rattle.road_io.specs.FileNamed.{file_of, named_files, told_of};
ghost use Rattle.road_io.specs.MemoryStates.{new_files, next_call, ReadFails};

use crate::failures::FileFault;
use crate::file_access::Files;
use road_base::Text;
use std::alloc::Global;
use std::marker::Model;

/// Files in memory. A name that none has is told to be missing, and its read fails; so does a read that is
/// told to.
#[derive(Debug)]
pub struct MemFiles {
    files: Vec<(Text, Vec<u8>)>,
    failing: Vec<u64>,
    calls: u64,
    reads: Vec<Text>,
    failed_names: Vec<Text>,
    faults: u64,
}

impl Drop for MemFiles {
    fn drop(self) {
        let MemFiles {
            files: _files,
            failing: _failing,
            calls: _calls,
            reads: _reads,
            failed_names: _failed_names,
            faults: _faults,
        } = self;
    }
}

impl Model for MemFiles {
    ghost use Rattle.road_io.specs.FileNamed.{named_files};
    ghost use Rattle.road_io.specs.MemoryStates.{FilesState};

    ghost Value = { FilesState };

    ghost view = { λ f. record { files = named_files f.files.items; failing = f.failing.items; calls = f.calls; reads = f.reads.items; failed_names = f.failed_names.items; faults = f.faults } };
}

impl MemFiles {
    /// Files of these names, of which the first of a name counts. The calls of `read` whose numbers are
    /// in `failing`, counted from 1, fail.
    pub fn of(alloc: Global, files: Vec<(Text, Vec<u8>)>, failing: Vec<u64>) -> MemFiles
        ensures { result ≡ new_files (named_files files.items) failing.items }
    {
        MemFiles {
            files,
            failing,
            calls: 0,
            reads: Vec::new(alloc),
            failed_names: Vec::new(alloc),
            faults: 0,
        }
    }

    /// The names of all reads, in order.
    pub fn reads(&self) -> &[Text]
        ensures { result.now ≡ self.now.reads }
    {
        self.reads.as_slice()
    }

    /// The names of the reads that failed, in order.
    pub fn failed_names(&self) -> &[Text]
        ensures { result.now ≡ self.now.failed_names }
    {
        self.failed_names.as_slice()
    }
}

impl Files for MemFiles {
    ghost use Rattle.std.specs.Prelude.{Some};
    ghost use Rattle.road_io.specs.FileNamed.{told_of};

    ghost view = { λ f. record { content = told_of f.files; reads = Some f.reads; failed_names = Some f.failed_names; faults = f.faults } };

    fn read(&mut self, alloc: Global, name: &str) -> Result<Vec<u8>, FileFault>
        ensures kept { told_of self.new.files ≡ told_of self.old.files }
        ensures bytes { IfOk result (λ v. IsFileContent (told_of self.old.files name.now) v.items) }
        ensures asked { TellsRead (Some self.old.reads) (Some self.new.reads) result name.now }
        ensures told { TellsFailed (Some self.old.failed_names) (Some self.new.failed_names) result name.now }
        ensures cause { HasFileCause self.old.faults self.new.faults result }
        ensures failed { IsErrOf result FileFault.Failed → ReadFails self.old name.now }
        ensures read { ReadFails self.old name.now → IsErr result }
        ensures calls { self.new.calls ≡ next_call self.old.calls }
        ensures failing { self.new.failing ≡ self.old.failing }
    {
        self.calls = self.calls.saturating_add(1);
        note(alloc, &mut self.reads, name)?;
        match readable(&self.files, &self.failing, self.calls, name) {
            Some(bytes) => Vec::from_slice(alloc, bytes).map_err(|_| FileFault::Memory),
            None => {
                note(alloc, &mut self.failed_names, name)?;
                self.faults = self.faults.saturating_add(1);
                Err(FileFault::Failed)
            }
        }
    }
}

// Puts a name behind these.
fn note(alloc: Global, names: &mut Vec<Text>, name: &str) -> Result<(), FileFault>
    ensures noted { OnOk result (names.new.items ≡ names.old.items ++ name.now ∷ []) }
    ensures memory { IfErr result (λ fault. fault ≡ FileFault.Memory) }
    ensures kept { OnErr result (names.new.items ≡ names.old.items) }
{
    let Ok(told) = Text::copy_of(alloc, name) else {
        return Err(FileFault::Memory);
    };
    match names.push(told) {
        Ok(()) => Ok(()),
        Err(_) => Err(FileFault::Memory),
    }
}

// The bytes of the file of this name, unless the call of this number is to fail or there is none.
fn readable<'a>(
    files: &'a [(Text, Vec<u8>)],
    failing: &[u64],
    call: u64,
    name: &str,
) -> Option<&'a [u8]>
    ensures none { IsNone result ↔ (Contains failing.now call ⊎ IsNone (file_of (named_files files.now) name.now)) }
    ensures some { IfSome result (λ bytes. file_of (named_files files.now) name.now ≡ Some bytes.now) }
{
    if failing.contains(&call) {
        None
    } else {
        file_in(files, name)
    }
}

/// The bytes of the first of these files with this name.
pub fn file_in<'a>(files: &'a [(Text, Vec<u8>)], name: &str) -> Option<&'a [u8]>
    ensures { option_copied result ≡ file_of (named_files files.now) name.now }
{
    for file in files {
        if file.0.as_str() == name {
            return Some(file.1.as_slice());
        }
    }
    None
}
