//! Which number is drawn next?

ghost use Rattle.std.specs.Prelude.{◌≡◌};
ghost use Rattle.wb_generate.specs.Draws.{draw, upper};

// The state after one more draw.
pub(crate) fn drawn(state: u64) -> u64
    ensures { result ≡ draw state }
{
    let wide = u128::from(state) * 6_364_136_223_846_793_005 + 1_442_695_040_888_963_407;
    (wide % 18_446_744_073_709_551_616) as u64
}

// The number that a state gives.
pub(crate) fn upper(state: u64) -> u64
    ensures { result ≡ upper state }
{
    state / 4_294_967_296
}
