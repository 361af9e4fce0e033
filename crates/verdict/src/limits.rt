// The limits of a docket.

pub use plans::{MAX_BOUND, MAX_OBJECTIVES, MAX_WEIGHT};

pub const MAX_ROWS: usize = 16;

// in grains, either way
pub const MAX_TARGET: i64 = 1 << 40;

// the shares of a mixture together
pub const MAX_SHARES: usize = 1000;
