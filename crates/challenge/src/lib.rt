// Where a card's challenges come from.
#![tactic(auto)]

ghost use Rattle.std.specs.Prelude.{◌≡◌, ◌++◌, length};
ghost use Rattle.challenge.specs.Draws.{Challenges, Drawn};

pub mod recorded;

// A source of challenges of eight bytes: a list of those to come, from whose front each is drawn.
pub trait Source {
    // the challenges to come
    ghost coming: { Self → Challenges };

    // those drawn so far, then those to come: no call alters it
    ghost whole: { Self → Challenges };

    // How many are left.
    fn remaining(&self) -> usize
        ensures { result ≡ length (coming self.now) };

    // The next challenge, or none where the source is spent.
    fn draw(&mut self) -> Option<[u8; 8]>
        ensures drawn { Drawn (coming self.old) result (coming self.new) }
        ensures whole { whole self.new ≡ whole self.old };

    ghost ends: { (s : Self) → (drawn : Challenges) × (whole s ≡ drawn ++ coming s) };
}
