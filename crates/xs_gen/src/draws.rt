//! The draws of the generator: bytes of a linear congruential generator modulo 2^64, with the multiplier and the increment of
//! D. E. Knuth's MMIX (The Art of Computer Programming, volume 2, 3.3.4).

ghost use Rattle.std.specs.Prelude.{◌≡◌, length};
ghost use Rattle.xs_gen.specs.Generated.{after, drawn, draws, next};

/// The multiplier of a step.
const MULTIPLIER: u64 = 6_364_136_223_846_793_005;

/// What a step adds.
const INCREMENT: u64 = 1_442_695_040_888_963_407;

/// The bytes that are still to be drawn.
#[derive(Drop)]
pub struct Draws {
    /// The number that the next draw steps on from.
    pub state: u64,
}

impl Draws {
    /// The draws that begin with this number.
    pub fn new(number: u32) -> Draws
        ensures { result.state ≡ number }
    {
        Draws {
            state: u64::from(number),
        }
    }

    /// Draws a byte: the eight highest bits of the state after a step.
    pub fn draw(&mut self) -> u8
        ensures byte { result ≡ drawn self.old.state }
        ensures state { self.new.state ≡ next self.old.state }
    {
        self.state = self.state.wrapping_mul(MULTIPLIER).wrapping_add(INCREMENT);
        (self.state >> 56) as u8
    }

    /// Draws each of the bytes, in order.
    pub fn fill(&mut self, bytes: &mut [u8])
        ensures bytes { bytes.new ≡ draws (length bytes.old) self.old.state }
        ensures state { self.new.state ≡ after (length bytes.old) self.old.state }
    {
        for byte in bytes.iter_mut() {
            *byte = self.draw();
        }
    }
}
