//! Several pieces behind what stands in a text, or none of them.
ghost use Rattle.std.specs.Prelude.{◌≡◌, ◌++◌, OnOk, OnErr, flat_map, string_bytes};

use std::alloc::AllocError;

/// Puts a first piece and then the others, one after the other, behind what stands there. After an
/// `Err`, which is want of memory, nothing has changed.
pub fn append_all(out: &mut String, first: &str, pieces: &[&str]) -> Result<(), AllocError>
    ensures ok { OnOk result (string_bytes out.new ≡ string_bytes out.old ++ first.now ++ flat_map (λ piece. piece.now) pieces.now) }
    ensures err { OnErr result (string_bytes out.new ≡ string_bytes out.old) }
{
    let before = out.len();
    out.push_str(first)?;
    for piece in pieces {
        if out.push_str(piece).is_err() {
            out.truncate(before);
            return Err(AllocError);
        }
    }
    Ok(())
}
