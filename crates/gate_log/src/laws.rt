//! Laws of regions. The function does nothing; its contract is the law.
ghost use Rattle.std.specs.Prelude.{◌≡◌, ℕ, List, Option};
ghost use Rattle.gate_log.specs.Gates.{Gated, DamagedAt, IsClosed};
ghost use Rattle.gate_log.specs.Reading.{IsFront, SameFronts};
ghost use Rattle.gate_log.specs.declared.front.Front.{Front as a_front};

/// No region has two readings: it holds the batches of one sequence, or is damaged at one place, or
/// its head is closed, and only one of these is the case. So is the front of a region one.
pub fn regions_have_one_reading()
    ensures gated { (region : List ℕ) (sequence other : ℕ) (payloads others : List (List ℕ))
        → Gated region sequence payloads → Gated region other others
        → (sequence ≡ other) × (payloads ≡ others) }
    ensures damaged { (region : List ℕ) (place other : ℕ)
        → DamagedAt region place → DamagedAt region other → place ≡ other }
    ensures gated_not_closed { (region : List ℕ) (sequence : ℕ) (payloads : List (List ℕ))
        → Gated region sequence payloads → IsClosed region → ⊥ }
    ensures damaged_not_closed { (region : List ℕ) (place : ℕ)
        → DamagedAt region place → IsClosed region → ⊥ }
    ensures gated_not_damaged { (region : List ℕ) (sequence : ℕ) (payloads : List (List ℕ))
        (place : ℕ) → Gated region sequence payloads → DamagedAt region place → ⊥ }
    ensures fronts { (region : List ℕ) (one other : Option a_front)
        → IsFront region one → IsFront region other → SameFronts one other }
{}
