ghost use Rattle.std.specs.Prelude.{◌≤◌};
ghost use Rattle.work.specs.Questions.{Asks};

use crate::candidates::Told;

// Which columns fit: what m - 1 pieces tell of one, and a place, counted from 0. Each byte may be asked for at the place.
#[derive(Drop)]
pub struct Question {
    pub told: Told,
    pub place: usize,
    ghost few: { told.settings.m ≤ 16 },
    ghost asks: { ∥ Asks told place ∥₁ },
}
