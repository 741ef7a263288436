//! The law of openings. The function does nothing of its own; its contract is the law.
ghost use Rattle.std.specs.Prelude.{◌≡◌, ℕ, List};
ghost use Rattle.hse_fields.specs.laws.Fields.{IsBytes};
ghost use Rattle.recovery.specs.Image.{IsLoaded, Loaded};
ghost use Rattle.recovery.specs.Refused.{HasOpening, IsNotFormed, IsOtherVersion};
ghost use Rattle.recovery.specs.declared.region.Region.{Region as a_region};

use manifest::manifests_have_one_reading;

/// No image is loaded in two ways: its layout, its manifest with its place, and its log are one. No
/// image of which something is loaded is refused anywhere, or of another version. An image is
/// refused in one part at one place, or is of one other version, and not both. Each image of bytes is
/// loaded, refused, or of another version.
pub fn images_have_one_loading()
    ensures one { (image : List ℕ) (one other : Loaded)
        → IsLoaded image one → IsLoaded image other → one ≡ other }
    ensures not_refused { (image : List ℕ) (loaded : Loaded) (region : a_region) (place : ℕ)
        → IsLoaded image loaded → IsNotFormed image region place → ⊥ }
    ensures not_other { (image : List ℕ) (loaded : Loaded) (version : ℕ)
        → IsLoaded image loaded → IsOtherVersion image version → ⊥ }
    ensures refused { (image : List ℕ) (region other : a_region) (place at : ℕ)
        → IsNotFormed image region place → IsNotFormed image other at
        → (region ≡ other) × (place ≡ at) }
    ensures version { (image : List ℕ) (one other : ℕ)
        → IsOtherVersion image one → IsOtherVersion image other → one ≡ other }
    ensures not_both { (image : List ℕ) (region : a_region) (place version : ℕ)
        → IsNotFormed image region place → IsOtherVersion image version → ⊥ }
    ensures each { (image : List ℕ) → IsBytes image → HasOpening image }
{
    manifests_have_one_reading();
}
