// The generator: xorshift64*.
ghost use Rattle.std.specs.Prelude.{◌≡◌};
ghost use Rattle.rules.specs.Generator.{draw};
ghost use Rattle.models.specs.Rules.{rule_draw};

use numbers::words::wrapping_mul;

#[derive(Clone, Copy)]
pub struct KernelRng {
    pub state: u64,
}

// The generator after a draw, with the number drawn: the generator takes itself and hands itself back, as a rule of the project has it.
#[derive(Clone, Copy)]
pub struct Drawn {
    pub rng: KernelRng,
    pub value: u64,
}

impl KernelRng {
    // A number in 0..=max; max 0 draws 0 and leaves the state.
    pub fn draw(self, max: u64) -> Drawn
        ensures { rule_draw result ≡ draw self.state max }
    {
        if max == 0 {
            return Drawn {
                rng: self,
                value: 0,
            };
        }
        let x = self.state;
        let y = x ^ (x >> 12);
        let z = y ^ (y << 25);
        let state = z ^ (z >> 27);
        let value = wrapping_mul(state, 0x2545_F491_4F6C_DD1D);
        let rng = KernelRng { state };
        if max == u64::MAX {
            return Drawn { rng, value };
        }
        Drawn {
            rng,
            value: value % (max + 1),
        }
    }
}
