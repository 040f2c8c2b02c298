//! The generator of numbers (linear congruential).

ghost use Rattle.std.specs.Prelude.{◌≡◌};
ghost use Rattle.page_maker.specs.Generator as spec;

const SEED: u32 = 1;

const FACTOR: u64 = 1_103_515_245;

const INCREMENT: u64 = 12_345;

/// 2^31, below which each state is.
const MODULUS: u64 = 2_147_483_648;

/// The lowest bits of a state repeat soon, so that none of so many is drawn.
const LOW_BITS_END: u32 = 65_536;

/// A generator between two draws.
#[derive(Drop)]
pub struct Generator {
    state: u32,
}

impl Generator {
    /// The generator after so many draws.
    pub fn after(draws: u64) -> Generator
        ensures { result.state ≡ spec.state draws }
    {
        let mut generator = Generator { state: SEED };
        for _draw in 0..draws {
            generator.draw();
        }
        generator
    }

    /// Draws the next number.
    pub fn draw(&mut self) -> u64
        ensures state { self.new.state ≡ spec.next_state self.old.state }
        ensures drawn { result ≡ spec.high_bits (spec.next_state self.old.state) }
    {
        self.state = ((FACTOR * u64::from(self.state) + INCREMENT) % MODULUS) as u32;
        u64::from(self.state / LOW_BITS_END)
    }
}
