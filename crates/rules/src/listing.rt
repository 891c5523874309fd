// The answer of GET STATUS as it is put together.
ghost use Rattle.std.specs.Prelude.{◌≤◌};

pub mod writing;

// Twelve records of at most 19 bytes; those written so far are the first `len`.
#[derive(Clone, Copy)]
pub struct Listing {
    bytes: [u8; 228],
    len: usize,
    ghost fits: { len ≤ 228 },
}
