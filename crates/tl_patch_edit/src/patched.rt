//! A page with elements changed.
ghost use Rattle.std.specs.Prelude.{◌≡◌, ◌<◌, ◌∷◌, [], ℕ, Err, IfErr, IfOk, MatchResult, drop, length};
ghost use Rattle.tl_patch_spec.specs.Together.{at_each};
ghost use Rattle.tl_patch_edit.specs.Errors.{CannotBeMeant, CannotBeRead, CannotBeWritten, IsRefused, LacksStartTag, MayBeMisread, StandAcross, StandsPastEnd};
ghost use Rattle.tl_patch_edit.specs.declared.error.EditError.TheVariants.{Across, EndOfPage, Misread, NoStartTag, NotMeant, NotWritten, OutOfMemory, ReadOtherwise};
ghost use Rattle.tl_patch_edit.specs.Several.{AreEdited, places_of};
ghost use Rattle.tl_patch_edit.specs.Kept.{KeepRawTexts};
ghost use Rattle.tl_patch_edit.specs.View.{patch_view, patches_view};

use crate::ask::{ElementPatch, PlacedPatch};
use crate::edit::spliced_page;
use crate::error::EditError;
use crate::page::TokenizedPage;
use crate::part::parts_of;
use crate::raw_text::refuse_misread;
use crate::several::{each_at, meant_at, page_asks};
use std::alloc::{AllocError, Global};

// The place of the first of some patches.
fn first_of(patches: &[PlacedPatch<'_>]) -> usize
    requires { 0 < length patches.now }
    ensures { places_of (patches_view patches.now)
        ≡ result ∷ places_of (patches_view (drop 1 patches.now)) }
{
    patches[0].place
}

// The page with these patches.
fn with_patches<'p>(
    alloc: Global,
    own: TokenizedPage<'p>,
    patches: &[PlacedPatch<'p>],
) -> Result<Vec<u8>, EditError>
    requires { 0 < length patches.now }
    ensures edited { IfOk result (λ text.
        AreEdited (patches_view patches.now) own.entry.page.now text.items) }
    ensures kept { IfOk result (λ _.
        KeepRawTexts (patches_view patches.now) own.entry.page.now) }
    ensures error { IfErr result (IsRefused own.entry.page.now (patches_view patches.now)) }
{
    let place = first_of(patches);
    let TokenizedPage {
        page,
        tokens,
        elements,
    } = own;
    let meant = meant_at(alloc, tokens.as_slice(), patches)?;
    let asks = page_asks(alloc, page, elements, tokens.len(), meant.as_slice())?;
    let parts = parts_of(alloc, page, tokens.as_slice())?;
    refuse_misread(alloc, page, tokens.as_slice(), asks.as_slice())?;
    drop(tokens);
    let text = spliced_page(alloc, page, parts, asks.as_slice(), place)?;
    Ok(text)
}

/// A page as it is: what no patches make of it.
pub fn unchanged(alloc: Global, page: &[u8]) -> Result<Vec<u8>, AllocError>
    ensures same { IfOk result (λ text. text.items ≡ page.now) }
    ensures edited { IfOk result (λ text. AreEdited [] page.now text.items) }
    ensures kept { IfOk result (λ _. KeepRawTexts [] page.now) }
{
    let mut text = Vec::new(alloc);
    text.extend_from_slice(page)?;
    Ok(text)
}

impl TokenizedPage<'_> {
    /// The page with these patches, each of the element whose start tag begins at its place, a byte
    /// of the page; the places stand in order, and one may stand several times. An element that
    /// begins in what another patch takes away, by `Remove`, `ReplaceWith` or `Fill`, goes with it;
    /// patches that cut across each other are refused. No other byte changes. `</>`, which is read
    /// as nothing, stands where two texts would become something else together. What a browser may
    /// read as markup, as a text with `<` in a `style` behind an `svg`, isn't put. The text is read
    /// again, and is refused where it isn't read as asked, with the place of the first element.
    pub fn patch_each(
        self,
        alloc: Global,
        patches: &[PlacedPatch<'_>],
    ) -> Result<Vec<u8>, EditError>
        ensures edited { IfOk result (λ text.
            AreEdited (patches_view patches.now) self.entry.page.now text.items) }
        ensures kept { IfOk result (λ _.
            KeepRawTexts (patches_view patches.now) self.entry.page.now) }
        ensures unchanged { patches.now ≡ [] →
            MatchResult result (λ text. text.items ≡ self.entry.page.now)
            (λ error. error ≡ OutOfMemory) }
        ensures no_start { (place : ℕ) → result ≡ Err (NoStartTag place) →
            LacksStartTag self.entry.page.now (places_of (patches_view patches.now)) place }
        ensures not_meant { (place : ℕ) → result ≡ Err (NotMeant place) →
            CannotBeMeant self.entry.page.now (patches_view patches.now) place }
        ensures across { (place : ℕ) → result ≡ Err (Across place) →
            StandAcross self.entry.page.now (patches_view patches.now) place }
        ensures past_end { (place : ℕ) → result ≡ Err (EndOfPage place) →
            StandsPastEnd self.entry.page.now (patches_view patches.now) place }
        ensures not_written { (place : ℕ) → result ≡ Err (NotWritten place) →
            CannotBeWritten self.entry.page.now (patches_view patches.now) place }
        ensures misread { (place cause : ℕ) → result ≡ Err (Misread place cause) →
            MayBeMisread self.entry.page.now (patches_view patches.now) place cause }
        ensures read_otherwise { (place : ℕ) → result ≡ Err (ReadOtherwise place) →
            CannotBeRead self.entry.page.now (patches_view patches.now) place }
    {
        if patches.is_empty() {
            let text = unchanged(alloc, self.page)?;
            return Ok(text);
        }
        with_patches(alloc, self, patches)
    }

    /// The same with one patch of several elements; a place that stands several times counts once.
    pub fn patch_elements(
        self,
        alloc: Global,
        places: &[usize],
        patch: ElementPatch<'_>,
    ) -> Result<Vec<u8>, EditError>
        ensures edited { IfOk result (λ text.
            AreEdited
            (at_each (patch_view patch.entry) places.now) self.entry.page.now text.items) }
        ensures kept { IfOk result (λ _.
            KeepRawTexts (at_each (patch_view patch.entry) places.now) self.entry.page.now) }
        ensures unchanged { places.now ≡ [] →
            MatchResult result (λ text. text.items ≡ self.entry.page.now)
            (λ error. error ≡ OutOfMemory) }
        ensures no_start { (place : ℕ) → result ≡ Err (NoStartTag place) →
            LacksStartTag self.entry.page.now
            (places_of (at_each (patch_view patch.entry) places.now)) place }
        ensures not_meant { (place : ℕ) → result ≡ Err (NotMeant place) →
            CannotBeMeant self.entry.page.now
            (at_each (patch_view patch.entry) places.now) place }
        ensures across { (place : ℕ) → result ≡ Err (Across place) →
            StandAcross self.entry.page.now
            (at_each (patch_view patch.entry) places.now) place }
        ensures past_end { (place : ℕ) → result ≡ Err (EndOfPage place) →
            StandsPastEnd self.entry.page.now
            (at_each (patch_view patch.entry) places.now) place }
        ensures not_written { (place : ℕ) → result ≡ Err (NotWritten place) →
            CannotBeWritten self.entry.page.now
            (at_each (patch_view patch.entry) places.now) place }
        ensures misread { (place cause : ℕ) → result ≡ Err (Misread place cause) →
            MayBeMisread self.entry.page.now
            (at_each (patch_view patch.entry) places.now) place cause }
        ensures read_otherwise { (place : ℕ) → result ≡ Err (ReadOtherwise place) →
            CannotBeRead self.entry.page.now
            (at_each (patch_view patch.entry) places.now) place }
    {
        let patches = each_at(alloc, places, patch)?;
        self.patch_each(alloc, patches.as_slice())
    }

    /// The same with one patch of one element.
    pub fn patch_element(
        self,
        alloc: Global,
        place: usize,
        patch: ElementPatch<'_>,
    ) -> Result<Vec<u8>, EditError>
        ensures edited { IfOk result (λ text.
            AreEdited ((place, patch_view patch.entry) ∷ []) self.entry.page.now text.items) }
        ensures kept { IfOk result (λ _.
            KeepRawTexts ((place, patch_view patch.entry) ∷ []) self.entry.page.now) }
        ensures no_start { (p : ℕ) → result ≡ Err (NoStartTag p) →
            LacksStartTag self.entry.page.now (place ∷ []) p }
        ensures not_meant { (p : ℕ) → result ≡ Err (NotMeant p) →
            CannotBeMeant self.entry.page.now ((place, patch_view patch.entry) ∷ []) p }
        ensures across { (p : ℕ) → result ≡ Err (Across p) →
            StandAcross self.entry.page.now ((place, patch_view patch.entry) ∷ []) p }
        ensures past_end { (p : ℕ) → result ≡ Err (EndOfPage p) →
            StandsPastEnd self.entry.page.now ((place, patch_view patch.entry) ∷ []) p }
        ensures not_written { (p : ℕ) → result ≡ Err (NotWritten p) →
            CannotBeWritten self.entry.page.now ((place, patch_view patch.entry) ∷ []) p }
        ensures misread { (p cause : ℕ) → result ≡ Err (Misread p cause) →
            MayBeMisread self.entry.page.now ((place, patch_view patch.entry) ∷ []) p cause }
        ensures read_otherwise { (p : ℕ) → result ≡ Err (ReadOtherwise p) →
            CannotBeRead self.entry.page.now ((place, patch_view patch.entry) ∷ []) p }
    {
        self.patch_each(alloc, &[PlacedPatch { place, patch }])
    }
}
