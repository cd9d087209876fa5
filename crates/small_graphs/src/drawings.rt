//! Small graphs as texts: a proof takes time for each value of a list, and none for a text.

/// A graph in the plane. Its texts are lists with a blank between each two.
#[derive(Drop)]
pub struct Drawing {
    /// where each vertex lies, as `longitude,latitude`
    pub vertices: &'static str,
    /// each arc as `tail-head`
    pub arcs: &'static str,
    /// what each vertex costs, as `weight/duration/length`, or `duration/length` at the weight of the duration; `-` where it
    /// is closed
    pub vertex_costs: &'static str,
    /// what each arc costs
    pub arc_costs: &'static str,
}

/// Two ways from 0 to 4, by 2 or straight; a ring 0, 1, 2; two arcs from 1 to 2; 3 is closed; nothing leads to 5 and 6.
pub const SMALL: Drawing = Drawing {
    vertices: "0,0 0,1000 1000,0 3000,0 3000,1000 4000,1000 0,2000",
    arcs: "0-1 1-2 2-0 0-3 3-4 2-4 1-4 5-4 6-0 1-2",
    vertex_costs: "10/100 5/50 20/30 - 7/10 1/1 3/3",
    arc_costs: "2/1 4/2 6/5 1/1 1/1 3/2 40/1 0/9 1/1 4/1",
};

/// Two streets that meet at a corner, each driven both ways; to turn back at an end costs 200.
pub const STREETS: Drawing = Drawing {
    vertices: "0,1000 0,1000 1000,2000 1000,2000",
    arcs: "0-2 3-1 1-0 2-3",
    vertex_costs: "99/1111 99/1111 99/1111 99/1111",
    arc_costs: "0/0 0/0 200/0 200/0",
};

/// A ring of eight vertices, of which 6 is closed; a way past 5 and 6, a dear one from 2 to the ring's end, and one back from
/// 5.
pub const RING_OF_EIGHT: Drawing = Drawing {
    vertices: "0,0 10,0 20,0 30,0 40,0 50,0 60,0 70,0",
    arcs: "0-1 1-2 2-3 3-4 4-5 5-6 6-7 7-0 4-7 2-0 5-2",
    vertex_costs: "10/1 10/1 10/1 10/1 10/1 10/1 - 10/1",
    arc_costs: "1/0 1/0 1/0 1/0 1/0 1/0 1/0 1/0 40/7 150/0 3/0",
};

/// A ring of ten vertices, of which 8 is closed; a way past 8, and two dear ones past 6 and past 1.
pub const RING_OF_TEN: Drawing = Drawing {
    vertices: "0,0 10,0 20,0 30,0 40,0 50,0 60,0 70,0 80,0 90,0",
    arcs: "0-1 1-2 2-3 3-4 4-5 5-6 6-7 7-8 8-9 9-0 7-9 5-7 0-2",
    vertex_costs: "10/1 10/1 10/1 10/1 10/1 10/1 10/1 10/1 - 10/1",
    arc_costs: "1/0 1/0 1/0 1/0 1/0 1/0 1/0 1/0 1/0 1/0 7/3 50/0 50/0",
};

/// Two ways from 0 to 3: by 1 quick and of much weight, by 2 slow and of little.
pub const WEIGHED: Drawing = Drawing {
    vertices: "0,0 1000,0 0,1000 1000,1000",
    arcs: "0-1 0-2 1-3 2-3",
    vertex_costs: "10/100 99/1111 1/199/1111 10/100",
    arc_costs: "0/0 0/0 0/0 0/0",
};

/// `RING_OF_TEN` where some weigh what they are long, and some weigh what is neither their duration nor their length.
pub const WEIGHED_RING: Drawing = Drawing {
    vertices: "0,0 10,0 20,0 30,0 40,0 50,0 60,0 70,0 80,0 90,0",
    arcs: "0-1 1-2 2-3 3-4 4-5 5-6 6-7 7-8 8-9 9-0 7-9 5-7 0-2",
    vertex_costs: "10/1 3/10/1 1/10/1 10/1 0/10/0 10/1 25/10/1 10/1 - 1/10/1",
    arc_costs: "1/0 0/1/0 1/0 1/0 1/0 0/7/0 1/0 1/0 1/0 1/0 2/7/3 30/50/0 7/50/9",
};
