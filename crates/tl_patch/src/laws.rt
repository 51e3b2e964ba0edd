//! Laws of what `patch` gives.

ghost use Rattle.std.specs.Prelude.{ℕ, List, [], ◌∷◌};
ghost use Rattle.tl_patch.specs.Asked.{IsAsAsked, IsOfAttribute};
ghost use Rattle.tl_patch.specs.Pages.{IsPatched};
ghost use Rattle.tl_patch.specs.PatchView.{PlacedChange};

/// What one patch gives is the page with the splices of its pieces that `tl_patch_spec` asks for.
#[tactic(auto, using(crate::proofs::Asked::as_asked))]
pub fn one_patch_is_as_asked()
    ensures { (patch : PlacedChange) (page text : List ℕ) → IsOfAttribute patch.change →
        IsPatched (patch ∷ []) page text → IsAsAsked patch page text }
{}
