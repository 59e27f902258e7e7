ghost use Rattle.std.specs.Prelude.{◌≡◌, ◌<◌};
ghost use Rattle.drawn_numbers.specs.Draws.{next, after, answer};

const FACTOR: u128 = 6364136223846793005;

const STEP: u128 = 1442695040888963407;

const MODULUS: u128 = 1 << 64;

const LOWER: u64 = 1 << 33;

/// A linear congruential generator modulo 2^64 (Knuth, MMIX), of which the upper 31 bits are read.
#[derive(Debug, Drop)]
pub struct Source {
    pub state: u64,
}

impl Source {
    /// The source that starts at this number.
    pub fn new(number: u64) -> Source
        ensures { result.state ≡ number }
    {
        Source { state: number }
    }

    /// Moves the source on.
    #[tactic(auto, unfolding(crate::specs::Draws::next))]
    fn step(&mut self)
        ensures { self.new.state ≡ next self.old.state }
    {
        self.state = ((u128::from(self.state) * FACTOR + STEP) % MODULUS) as u64;
    }

    /// Moves the source on by this count of draws, of which none is read. Takes time in proportion to the count.
    pub fn skip(&mut self, count: u64)
        ensures { self.new.state ≡ after self.old.state count }
    {
        for i in 0..count {
            self.step();
        }
    }

    /// The next number below `most`.
    #[tactic(auto, unfolding(crate::specs::Draws::answer))]
    pub fn draw(&mut self, most: u64) -> u64
        requires { 0 < most }
        ensures state { self.new.state ≡ next self.old.state }
        ensures value { result ≡ answer (next self.old.state) most }
        ensures below { result < most }
    {
        self.step();
        self.state / LOWER % most
    }
}
