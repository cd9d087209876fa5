//! Vertices at their midpoints, and the axis along which they spread more.
ghost use Rattle.std.specs.Prelude.{◌≡◌};

use std::cmp::Ordering;

/// A vertex at its midpoint.
#[derive(Clone, Copy)]
pub struct Spot {
    pub vertex: u32,
    pub longitude: i32,
    pub latitude: i32,
}

/// One of the two coordinates.
#[derive(Clone, Copy)]
pub enum Axis {
    Longitude,
    Latitude,
}

impl Spot {
    ghost use Rattle.std.specs.Ordering.{int_cmp, nat_cmp, ordering_then};
    ghost use Rattle.cell_partition.specs.Orders.{rank};
    ghost use Rattle.cell_partition.specs.Spots.{along, comes_before};

    /// The coordinate along this axis.
    pub fn along(&self, axis: Axis) -> i32
        ensures { result ≡ along axis self.now }
    {
        match axis {
            Axis::Longitude => self.longitude,
            Axis::Latitude => self.latitude,
        }
    }

    // One number for a coordinate and a vertex, in their order, so that two are compared without a branch.
    fn rank(coordinate: i32, vertex: u32) -> u64
        ensures { result ≡ rank coordinate vertex }
    {
        let raised = (i64::from(coordinate) + 2_147_483_648) as u64;
        raised * 4_294_967_296 + u64::from(vertex)
    }

    /// Its order with another along this axis: by their coordinates, then by their vertices.
    pub fn compare(&self, other: &Spot, axis: Axis) -> Ordering
        ensures { result ≡ ordering_then (int_cmp (along axis self.now) (along axis other.now)) (nat_cmp self.now.vertex other.now.vertex) }
    {
        let one = Self::rank(self.along(axis), self.vertex);
        let two = Self::rank(other.along(axis), other.vertex);
        one.cmp(&two)
    }

    /// Whether it comes before another along this axis: by its coordinate, then by its vertex.
    pub fn comes_before(&self, other: &Spot, axis: Axis) -> bool
        ensures { result ≡ comes_before axis self.now other.now }
    {
        self.compare(other, axis).is_lt()
    }
}

impl Axis {
    ghost use Rattle.cell_partition.specs.Orders.{other_axis};

    /// The other axis.
    pub fn other(self) -> Axis
        ensures { result ≡ other_axis self }
    {
        match self {
            Axis::Longitude => Axis::Latitude,
            Axis::Latitude => Axis::Longitude,
        }
    }
}
