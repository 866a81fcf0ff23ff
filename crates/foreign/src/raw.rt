// What crosses to C and back: plain numbers, which nothing is known of until they are tested.

// Two ends.
#[repr(C)]
#[derive(Clone, Copy)]
pub struct RawPair {
    pub lo: f64,
    pub hi: f64,
}

// What is kept of the shapes of a page.
#[repr(C)]
#[derive(Clone, Copy)]
pub struct RawRecord {
    pub x_left: RawPair,
    pub x_mid: RawPair,
    pub x_right: RawPair,
    pub y: RawPair,
    pub z: RawPair,
    pub m: RawPair,
    pub codes: u32,
}

// What is told of a record. C has no `Option`: a flag stands for each axis, and one without values has the empty pair.
#[repr(C)]
#[derive(Clone, Copy)]
pub struct RawBounds {
    pub x: RawPair,
    pub y: RawPair,
    pub z: RawPair,
    pub m: RawPair,
    pub has_x: bool,
    pub has_y: bool,
    pub has_z: bool,
    pub has_m: bool,
    pub codes: u32,
}

// A window's pairs. `kind` is 0 for ordinary bounds of x and 1 for bounds that may wrap; `asked` is 1 where z is asked for, plus 2 where m is.
// C's enums hold any number, so both are numbers here, and `Asked` is made of them.
#[repr(C)]
#[derive(Clone, Copy)]
pub struct RawWindow {
    pub kind: u32,
    pub asked: u32,
    pub x: RawPair,
    pub y: RawPair,
    pub z: RawPair,
    pub m: RawPair,
}

// A refusal's number, layer and place.
#[repr(C)]
#[derive(Clone, Copy)]
pub struct RawFault {
    pub number: u32,
    pub layer: u32,
    pub place: usize,
}
