//! Files by name.

ghost use Rattle.std.specs.Prelude.{◌≡◌, IfOk};
ghost use Rattle.road_io.specs.Faults.{HasFileCause};
ghost use Rattle.road_io.specs.FailedNames.{TellsFailed, TellsRead};
ghost use Rattle.road_io.specs.FileContent.{IsFileContent};
ghost use Rattle.road_io.specs.Views.{FilesView};

use crate::failures::FileFault;
use std::alloc::Global;

/// Files that are read whole by name.
pub trait Files {
    /// What the object tells: the bytes of the file of a name or that it is missing, the names of all reads
    /// and of those that failed, and how many faults it has counted.
    ghost view: { Self → FilesView };

    /// Reads the file of this name to its end: what it answers are the bytes that are told, and where the file
    /// is told to be missing it never answers Ok. Failed where the count of faults rose, as for a file that is
    /// not there; Memory where there was none, which is no fault. May wait.
    fn read(&mut self, alloc: Global, name: &str) -> Result<Vec<u8>, FileFault>
        ensures kept { (view self.new).content ≡ (view self.old).content }
        ensures bytes { IfOk result (λ v. IsFileContent ((view self.old).content name.now) v.items) }
        ensures asked { TellsRead (view self.old).reads (view self.new).reads result name.now }
        ensures told { TellsFailed (view self.old).failed_names (view self.new).failed_names result name.now }
        ensures cause { HasFileCause (view self.old).faults (view self.new).faults result };
}
