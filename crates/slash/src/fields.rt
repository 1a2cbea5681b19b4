// The fields of a word, as the bits of its layout stand.

#[derive(Clone, Copy)]
pub struct FixedFields {
    pub negative: bool,
    pub numerator: u64,
    pub approximate: bool,
    pub denominator: u64,
}

// The slash position is e, the field f: whatever value they say.
#[derive(Clone, Copy)]
pub struct FloatingFields {
    pub negative: bool,
    pub approximate: bool,
    pub position: u64,
    pub field: u64,
}

#[derive(Clone, Copy)]
pub enum Fields {
    Fixed(FixedFields),
    Floating(FloatingFields),
}
