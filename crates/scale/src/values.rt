// How a reading is held.
ghost use Rattle.std.specs.Prelude.{◌^◌, ◌<◌};
ghost use Rattle.std.specs.Int.Signed.{mag};

// What a gauge showed: a signed 32-bit whole number.
#[derive(Clone, Copy, PartialEq, Eq, PartialOrd, Ord, Debug)]
pub struct Reading {
    pub(crate) value: i32,
    // `mag` is n both of n and of -(n + 1).
    ghost fits: { mag value < 2 ^ 31 },
}
