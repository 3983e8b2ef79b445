//! The law that an image gives one state or is damaged at one place.
ghost use Rattle.std.specs.Prelude.{◌≡◌, ◌<◌, ◌^◌, ℕ, List, length};
ghost use Rattle.plain_exchange.specs.State.{State};
ghost use Rattle.recovery.specs.Damage.{IsDamagedAt};
ghost use Rattle.recovery.specs.Texts.{GivesState};

/// The law of images, with nothing to run: an image gives one state or is damaged at one place, and not both.
pub fn images_give_one_state_or_are_damaged()
    ensures one_state { (image : List ℕ) (s t : State) → length image < 2 ^ 64 → GivesState image s → GivesState image t → s ≡ t }
    ensures one_place { (image : List ℕ) (a b : ℕ) → length image < 2 ^ 64 → IsDamagedAt image a → IsDamagedAt image b → a ≡ b }
    ensures not_both { (image : List ℕ) (s : State) (at : ℕ) → length image < 2 ^ 64 → GivesState image s → IsDamagedAt image at → ⊥ }
    // Nothing decides here which of the two it is, so it is said that it cannot be neither.
    ensures not_neither { (image : List ℕ) → ((s : State) → GivesState image s → ⊥) → ((at : ℕ) → IsDamagedAt image at → ⊥) → ⊥ }
{}
