// Numbers that look random and are the same for the same seed (splitmix64).
#[derive(Clone, Copy)]
pub struct Dice {
    state: u64,
}

impl Dice {
    // Other dice for each run.
    pub fn for_run(seed: u64, number: u64) -> Dice {
        let mixed = Dice { state: seed }.next();
        Dice {
            state: mixed ^ number.wrapping_mul(0xd1342543de82ef95),
        }
    }

    pub fn next(&mut self) -> u64 {
        self.state = self.state.wrapping_add(0x9e3779b97f4a7c15);
        let a = self.state;
        let b = (a ^ (a >> 30)).wrapping_mul(0xbf58476d1ce4e5b9);
        let c = (b ^ (b >> 27)).wrapping_mul(0x94d049bb133111eb);
        c ^ (c >> 31)
    }

    // A number below n; 0 where n is 0.
    pub fn below(&mut self, n: u32) -> u32 {
        let x = (self.next() >> 33) as u32;
        x.checked_rem(n).unwrap_or(0)
    }

    // True once in n times.
    pub fn once_in(&mut self, n: u32) -> bool {
        self.below(n) == 0
    }
}
