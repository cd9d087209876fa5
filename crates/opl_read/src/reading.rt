//! A text to its objects.

ghost use Rattle.std.specs.Prelude.{◌≡◌, Ok, IfOk, IfErr};
ghost use Rattle.opl_read.specs.Faults.{IsFaultOf};
ghost use Rattle.opl_read.specs.Objects.{opl_objects, lines_of, AreDistinct};
ghost use Rattle.opl_read.specs.ReadLines.{AreObjectsOf, IsFirstFaultOf};
ghost use Rattle.opl_read.specs.declared.line_faults.ReadFault.TheVariants.{Line};

use crate::line_faults::{FaultKind, LineError, LineFault, ReadFault};
use crate::line_text::object_on;
use crate::lines::first_line;
use crate::seen_ids::SeenIds;
use road_base::Object;
use std::alloc::Global;

/// The objects of a text in OPL, "object per line" (https://osmcode.org/opl-file-format), in file order.
///
/// Lines end with a newline, which the last may lack, or with a carriage return and a newline. Comments,
/// which begin with `#`, empty lines and changesets (`c`) are passed over, and so are objects with `dD`,
/// once their lines are found to be of the right form. A node `n<id>` may have the fields
/// `v d c t i u T x y`, a way `w<id>` the fields `v d c t i u T N` and a relation `r<id>` the fields
/// `v d c t i u T M`, each once and in any order, parted by blanks or tabs. Coordinates are decimal degrees;
/// a node without both has no location. A member in `M` is `n`, `w` or `r`, an id, `@` and a role, which may
/// be empty. In keys, values and roles `%hex%` stands for the character of that number, written in 1 to 6
/// hexadecimal digits in either case: a blank is `%20%`.
///
/// The first faulty line is told, counted from 1, and what its first fault from the left is: `NotUtf8`
/// before all others, `BadKind` for a first field of another letter, `BadNumber` for an id out of its form
/// or range or a coordinate out of range, `BadEscape` for a `%` in a tag or a role that is no part of an escape,
/// `BadField` for a field or an entry that isn't of its form, doesn't belong to the object or stands twice,
/// and `Duplicate`, the last, for a second object of one kind and id. A tag without `=` and a member without
/// its letter or `@` are `BadField`, whatever else is wrong with them. Want of memory may come at any time.
///
/// Two clauses say it line by line, and two by the definition `opl_objects`, which callers cite.
pub fn read(alloc: Global, bytes: &[u8]) -> Result<Vec<Object>, ReadFault>
    ensures lines { IfOk result (λ objects. AreObjectsOf (lines_of bytes.now) objects.items) }
    ensures first_fault { IfErr result (IsFirstFaultOf (lines_of bytes.now)) }
    ensures objects { IfOk result (λ objects. opl_objects bytes.now ≡ Ok objects.items) }
    ensures distinct { IfOk result (λ objects. AreDistinct objects.items) }
    ensures fault { IfErr result (IsFaultOf (opl_objects bytes.now)) }
{
    read_lines(alloc, bytes)
}

// The objects of the lines, one line after the other.
fn read_lines(alloc: Global, bytes: &[u8]) -> Result<Vec<Object>, ReadFault>
    ensures objects { IfOk result (λ objects. opl_objects bytes.now ≡ Ok objects.items) }
    ensures distinct { IfOk result (λ objects. AreDistinct objects.items) }
    ensures fault { IfErr result (IsFaultOf (opl_objects bytes.now)) }
{
    let mut objects = Vec::new(alloc);
    let mut seen = SeenIds::new();
    let mut number = 0;
    let mut rest = bytes;
    while !rest.is_empty() {
        let (line, more) = first_line(rest);
        number += 1;
        let found = match object_on(alloc, line) {
            Ok(found) => found,
            Err(LineError::Fault(kind)) => return Err(fault(number, kind)),
            Err(LineError::OutOfMemory) => return Err(ReadFault::Memory),
        };
        rest = more;
        let Some(object) = found else {
            continue;
        };
        if !seen.insert(alloc, objects.as_slice(), &object)? {
            return Err(fault(number, FaultKind::Duplicate));
        }
        objects.push(object)?;
    }
    Ok(objects)
}

fn fault(line: u64, kind: FaultKind) -> ReadFault
    ensures { result ≡ Line (record { line = line; kind = kind }) }
{
    ReadFault::Line(LineFault { line, kind })
}
