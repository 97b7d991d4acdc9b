ghost use Rattle.std.specs.Prelude.{◌≡◌, ◌<◌, ◌^◌};
ghost use Rattle.alw_num.specs.Draws.{drawn, drawn_number};

const FACTOR: u64 = 0x5851_f42d_4c95_7f2d;

const STEP: u64 = 0x1405_7b7e_f767_814f;

/// Numbers drawn one after the other by a linear congruence on 64 bits (Knuth, The Art of Computer
/// Programming, volume 2, 3.2.1, with the constants of MMIX). The first state is the seed.
#[derive(Clone, Copy, PartialEq, Eq)]
pub struct Draws {
    pub state: u64,
}

impl Draws {
    /// Draws a number below 2^31.
    pub fn draw(&mut self) -> u32
        ensures state { self.new.state ≡ drawn self.old.state }
        ensures number { result ≡ drawn_number self.new.state }
        ensures range { result < 2 ^ 31 }
    {
        self.state = self.state.wrapping_mul(FACTOR).wrapping_add(STEP);
        (self.state >> 33) as u32
    }
}
