ghost use Rattle.std.specs.Prelude.{◌≡◌, ◌<◌};
ghost use Rattle.sparc_table.specs.Registers.{start_of, register, with_register};

/// The registers of a context: 32 integer registers, Y, the condition codes n, z, v and c, PC and
/// nPC (SPARC V8 manual, chapter 4). Register 0 is kept 0.
#[derive(Clone, Copy, PartialEq, Eq)]
pub struct Regs {
    pub r: [u32; 32],
    pub y: u32,
    pub n: bool,
    pub z: bool,
    pub v: bool,
    pub c: bool,
    pub pc: u32,
    pub npc: u32,
}

impl Regs {
    /// The registers of a context that starts at `pc`, with `%o0` and `%o1` given and all else 0.
    pub fn start(pc: u32, o0: u32, o1: u32) -> Regs
        ensures { result ≡ start_of pc o0 o1 }
    {
        let mut r = [0; 32];
        r[8] = o0;
        r[9] = o1;
        Regs {
            r,
            y: 0,
            n: false,
            z: false,
            v: false,
            c: false,
            pc,
            npc: pc.wrapping_add(4),
        }
    }

    /// Register r, which is 0 for register 0.
    pub fn get(&self, r: u8) -> u32
        requires { r < 32 }
        ensures { result ≡ register self.now r }
    {
        if r == 0 { 0 } else { self.r[r as usize] }
    }

    /// Writes register r. A write to register 0 is lost.
    pub fn set(&mut self, r: u8, value: u32)
        requires { r < 32 }
        ensures { self.new ≡ with_register self.old r value }
    {
        if r != 0 {
            self.r[r as usize] = value;
        }
    }
}
