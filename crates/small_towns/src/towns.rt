//! Small towns, as OPL texts. A proof takes time for each value of a list, and none for a text.

use std::alloc::{AllocError, Global};

/// A street that goes north from node 1 to node 2, which has these tags, and east from there to node 3.
pub fn bend(alloc: Global, at_bend: &str) -> Result<String, AllocError> {
    format!(in alloc;
        "n1 x0 y0\nn2 x0 y0.001 T{at_bend}\nn3 x0.001 y0.001\nw10 Thighway=residential Nn1,n2,n3"
    )
}

const AROUND: &str = "n1 x0.001 y0
n2 x0.002 y0.001
n3 x0.001 y0.002
n4 x0 y0.001 Thighway=traffic_signals
w1 Thighway=residential Nn1,n5
w2 Thighway=residential Nn5,n2
w3 Thighway=residential Nn5,n3
w4 Thighway=residential Nn4,n5";

/// A crossing at node 5, which has these tags: way 1 comes to it from node 1 in the south, way 2 leads to
/// node 2 in the east, way 3 to node 3 in the north, and way 4 comes from node 4 in the west. A traffic
/// signal stands at node 4. Behind these stand more lines.
pub fn crossing(alloc: Global, at_middle: &str, more: &str) -> Result<String, AllocError> {
    format!(in alloc; "{AROUND}\nn5 x0.001 y0.001 T{at_middle}\n{more}")
}

/// A way 1 that goes to and fro between nodes 1 and 2 so many times.
pub fn to_and_fro(alloc: Global, segments: usize) -> Result<String, AllocError> {
    let mut text = String::from_str(alloc, "n1 x0 y0\nn2 x0.001 y0\nw1 Thighway=residential Nn1")?;
    let twos = ",n2,n1".repeat(alloc, segments / 2)?;
    text.push_str(twos.as_str())?;
    if segments % 2 == 1 {
        text.push_str(",n2")?;
    }
    Ok(text)
}
