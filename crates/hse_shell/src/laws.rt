//! Laws of devices.
ghost use Rattle.std.specs.Prelude.{◌≡◌, ℕ, List};
ghost use Rattle.hse_shell.specs.Base.{Base};
ghost use Rattle.hse_shell.specs.Stored.{Begins, IsRefusedAt};

/// A law: a device has one reading at most. What a run begins with on it is one thing, what it stores or what an empty
/// one has; the place at which it is refused is one; and it is not both, so a device that a run can begin on is never
/// refused. The function does nothing; its contract is the law.
pub fn devices_have_one_reading()
    ensures stored { (image : List ℕ) (one other : Base) → Begins image one → Begins image other → one ≡ other }
    ensures refused { (image : List ℕ) (place other : ℕ)
        → IsRefusedAt image place → IsRefusedAt image other → place ≡ other }
    ensures not_both { (image : List ℕ) (base : Base) (place : ℕ)
        → Begins image base → IsRefusedAt image place → ⊥ }
{}
