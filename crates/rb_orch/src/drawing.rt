ghost use Rattle.rb_orch.specs.Drawing.{next_draw};
ghost use Rattle.std.specs.Prelude.{◌≡◌};

const FACTOR: u64 = 1_103_515_245;

const SUMMAND: u64 = 12_345;

const MODULUS: u64 = 1 << 31;

/// The number that follows `x` in a sequence of draws, below 2^31.
pub fn generator(x: u32) -> u32
    ensures { result ≡ next_draw x }
{
    let next = (u64::from(x) * FACTOR + SUMMAND) % MODULUS;
    next as u32
}
