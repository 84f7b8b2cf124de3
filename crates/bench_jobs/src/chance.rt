//! Numbers that look like chance and are the same on every run.

/// A linear congruence, with the multiplier and increment of Knuth's MMIX.
#[derive(Clone, Copy)]
pub struct Chance {
    state: u64,
}

impl Chance {
    pub fn new(seed: u32) -> Chance {
        let mut chance = Chance {
            state: u64::from(seed).wrapping_mul(0x9e37_79b9_7f4a_7c15),
        };
        let _ = chance.next();
        chance
    }

    fn next(&mut self) -> u64 {
        self.state = self
            .state
            .wrapping_mul(6_364_136_223_846_793_005)
            .wrapping_add(1_442_695_040_888_963_407);
        self.state >> 32
    }

    /// A number below `n`, and 0 if that is 0.
    pub fn below(&mut self, n: usize) -> usize {
        let drawn = self.next() as usize;
        if n == 0 { 0 } else { drawn % n }
    }

    pub fn one_in(&mut self, n: usize) -> bool {
        self.below(n) == 0
    }

    /// One of the choices.
    pub fn of(&mut self, choices: &[&'static str]) -> &'static str {
        match choices.get(self.below(choices.len())) {
            Some(choice) => *choice,
            None => "",
        }
    }
}
