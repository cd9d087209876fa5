//! What vertices are told as.

use std::alloc::{AllocError, Global};

/// Vertices, each with a blank behind it.
pub fn vertices_told(alloc: Global, vertices: &[u32]) -> Result<String, AllocError> {
    let mut text = String::new(alloc);
    for v in vertices {
        text.push_str(format!(in alloc; "{v} ")?.as_str())?;
    }
    Ok(text)
}
