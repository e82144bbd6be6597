//! The random numbers of a made drawing.

ghost use Rattle.std.specs.Prelude.{◌≡◌, ◌<◌};
ghost use Rattle.dwg_make.specs.Draws.{draw_from};
ghost use Rattle.dwg_make.specs.Random.{next_state, state_at, word_of};

use std::marker::Model;

/// What a state is multiplied by to give the next.
const FACTOR: u64 = 1_664_525;

/// What is added then.
const STEP: u64 = 1_013_904_223;

/// How many states there are.
const STATES: u64 = 1 << 32;

/// The word of 64.0, the least that a state gives.
const LEAST_WORD: u64 = 0x4050_0000_0000_0000;

/// What the nine random numbers of an entity give.
#[derive(Drop)]
pub(crate) struct Draw {
    /// Which kind it has, from 0 to 5.
    pub(crate) choice: u32,
    /// The word of the second number.
    pub(crate) w2: u64,
    /// The word of the third.
    pub(crate) w3: u64,
    /// The word of the fourth.
    pub(crate) w4: u64,
    /// The word of the fifth.
    pub(crate) w5: u64,
    /// The word of the sixth.
    pub(crate) w6: u64,
    /// The word of the seventh.
    pub(crate) w7: u64,
    /// The word of the eighth.
    pub(crate) w8: u64,
    /// The word of the ninth.
    pub(crate) w9: u64,
}

/// The states from a seed on. Contracts see the last.
#[derive(Drop)]
pub(crate) struct Random {
    state: u32,
}

impl Model for Random {
    ghost use Rattle.std.specs.Prelude.{ℕ};

    ghost Value = { ℕ };

    ghost view = { λ random. random.state };
}

impl Random {
    /// The states after a seed.
    pub(crate) fn new(seed: u32) -> Random
        ensures { result ≡ seed }
    {
        Random { state: seed }
    }

    /// The next state.
    #[tactic(auto, unfolding(crate::specs::Random::next_state))]
    fn state(&mut self) -> u32
        ensures reported { result ≡ next_state self.old }
        ensures next { self.new ≡ next_state self.old }
    {
        let state = (u64::from(self.state) * FACTOR + STEP) % STATES;
        self.state = state as u32;
        self.state
    }

    /// The word that the next state gives.
    fn word(&mut self) -> u64
        ensures reported { result ≡ word_of (next_state self.old) }
        ensures next { self.new ≡ next_state self.old }
    {
        LEAST_WORD + u64::from(self.state()) * 65_536
    }

    /// What the next nine states give.
    #[tactic(auto, unfolding(crate::specs::Draws::draw_from, crate::specs::Random::state_at))]
    pub(crate) fn draw(&mut self) -> Draw
        ensures reported { result ≡ draw_from self.old }
        ensures choice { result.choice < 6 }
        ensures next { self.new ≡ state_at self.old 9 }
    {
        Draw {
            choice: self.state() % 6,
            w2: self.word(),
            w3: self.word(),
            w4: self.word(),
            w5: self.word(),
            w6: self.word(),
            w7: self.word(),
            w8: self.word(),
            w9: self.word(),
        }
    }
}
