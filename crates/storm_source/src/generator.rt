// The draws.
ghost use Rattle.std.specs.Prelude.{◌≡◌, ◌<◌};
ghost use Rattle.storm_source.specs.Draws.{choice_of, next_state};

use gz_names::{CompNo, GrayNo, Reg};

/// The state of the draws. The congruence is that of the C standard's example of `rand`.
#[derive(Clone, Copy, Debug, PartialEq, Eq)]
pub struct Generator {
    pub state: u32,
}

impl Generator {
    /// Draws a number below `bound`.
    #[inline(always)]
    pub fn draw(&mut self, bound: u8) -> u8
        requires { 0 < bound }
        ensures state { self.new.state ≡ next_state self.old.state }
        ensures choice { result ≡ choice_of self.new.state bound }
        ensures below { result < bound }
    {
        self.state = ((1103515245 * u64::from(self.state) + 12345) % 2147483648) as u32;
        ((self.state / 65536) % u32::from(bound)) as u8
    }

    /// Draws a register.
    #[inline(always)]
    pub fn draw_register(&mut self) -> Reg
        ensures state { self.new.state ≡ next_state self.old.state }
        ensures choice { result ≡ choice_of self.new.state 16 }
    {
        match Reg::new(self.draw(16)) {
            Some(register) => register,
            None => unreachable!(),
        }
    }

    /// Draws a gray slot.
    #[inline(always)]
    pub fn draw_gray_slot(&mut self) -> GrayNo
        ensures state { self.new.state ≡ next_state self.old.state }
        ensures choice { result ≡ choice_of self.new.state 64 }
    {
        match GrayNo::new(self.draw(64)) {
            Some(slot) => slot,
            None => unreachable!(),
        }
    }

    /// Draws one of the compartments that a storm makes.
    #[inline(always)]
    pub fn draw_compartment(&mut self) -> CompNo
        ensures state { self.new.state ≡ next_state self.old.state }
        ensures choice { result ≡ record { 0 = choice_of self.new.state 8 } }
    {
        CompNo(self.draw(8))
    }
}
