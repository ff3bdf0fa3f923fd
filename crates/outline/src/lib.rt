// Plain types and values that the definitions and every function on outlines share.
#![tactic(auto)]

// A position in decimetres: x east, y north.
#[derive(Clone, Copy)]
pub struct Position {
    pub x: i32,
    pub y: i32,
}

// The six totals of an outline, in document 01's order: multiples of the area, the first and the second moments.
#[derive(Clone, Copy)]
pub struct Totals {
    pub a2: i64,
    pub x6: i64,
    pub y6: i64,
    pub xx12: i64,
    pub xy24: i64,
    pub yy12: i64,
}

pub const ORIGIN: Position = Position { x: 0, y: 0 };

// The totals of no edge.
pub const ZEROS: Totals = Totals {
    a2: 0,
    x6: 0,
    y6: 0,
    xx12: 0,
    xy24: 0,
    yy12: 0,
};

// A size for each of the six totals: how great it may be, either sign.
#[derive(Clone, Copy)]
pub struct Sizes {
    pub a2: u64,
    pub x6: u64,
    pub y6: u64,
    pub xx12: u64,
    pub xy24: u64,
    pub yy12: u64,
}

// An affine map: (x, y) goes to (a x + b y + e, g x + h y + f).
#[derive(Clone, Copy)]
pub struct AffineMap {
    pub a: i32,
    pub b: i32,
    pub g: i32,
    pub h: i32,
    pub e: i32,
    pub f: i32,
}

// What the ring of a walk bounds: land, or a lake in it (document 02, CR 3).
#[derive(Clone, Copy)]
pub enum Kind {
    Island,
    Hole,
}

// A walk that its caller holds: the open polyline walked so far, the kind of its ring, whether it is open, and the seconds of its longest outage (document 02, CR 9). The text program is
// fastest with the fields in this order.
#[derive(Clone, Copy)]
pub struct Walk {
    pub count: u32,
    pub first: Position,
    pub last: Position,
    pub kind: Kind,
    pub is_open: bool,
    pub outage: f32,
    pub totals: Totals,
}

// A sheet: how many outlines it has accepted, and the sums of their totals.
#[derive(Clone, Copy)]
pub struct Sheet {
    pub count: u32,
    pub totals: Totals,
}
