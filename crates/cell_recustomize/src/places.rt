//! The places where weightings differ.

use search_graph::Numbers;

/// The vertices and the arcs whose costs two weightings of one graph do not share: 4 bytes for each of these,
/// and nothing for any other.
pub struct Changed {
    /// rising
    pub vertices: Numbers,
    /// rising
    pub arcs: Numbers,
}

impl Drop for Changed {
    fn drop(self) {
        let Changed {
            vertices: _vertices,
            arcs: _arcs,
        } = self;
    }
}
