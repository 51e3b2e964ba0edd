//! The calls with selectors of CSS.
ghost use Rattle.std.specs.Prelude.{◌≡◌, ◌≢◌, ℕ, Bool, List, None, Option};
ghost use Rattle.tl_c.specs.Css.{AreFoundBelowBy, AreFoundBy, IsClosestBy, IsFirstBy, IsTold, TellsAt, answer_by, css_by, css_in, first_of, found_or_refused, wrong_by, wrong_in};
ghost use Rattle.tl_c.specs.Queries.{one_if, tree_held, tree_in};
ghost use Rattle.tl_c.specs.Puts.{Puts, PutsOne};
ghost use Rattle.tl_c.specs.FoundValues.{values_by};
ghost use Rattle.tl_c.specs.declared.css.Reading.TheVariants.{Relative};
ghost use Rattle.tl_spec.specs.Lex.ByteClass.{largest_u32};

use crate::copy_out::{copy_result, first, put_one};
use crate::css::{css_holds_at, find_closest_css, find_css, find_css_below, find_first_css};
use crate::document::Document;
use crate::found_values::find_values;
use crate::held::NO_NODE;
use std::alloc::Global;

/// Finds the elements of a document where a selector of CSS holds: their numbers, rising, without
/// those in the contents of a `template`. A text that is no selector is refused: `place` is its
/// first byte that is wrong, and `cause` the number of the cause in `tl.h`; else both are 0.
#[unsafe(no_mangle)]
pub extern "C" fn tl_select_css(
    alloc: Global,
    document: &mut Document,
    selector: &[u8],
    numbers: &mut [u32],
    needed: &mut usize,
    place: &mut usize,
    cause: &mut u8,
) -> u8
    ensures same { document.new.held ≡ document.old.held }

    // By the numbers of the elements where it holds: these are one list.
    ensures finds { (ns : List ℕ) → let css = css_in selector.now in
        AreFoundBy css document.old.held ns →
        let outcome = answer_by css (tree_held document.old.held) ns in
        Puts outcome numbers.old numbers.new needed.new result }
    ensures told { result ≢ 3 → IsTold (wrong_in selector.now) place.new cause.new }
    ensures lost { result ≡ 3 → IsTold None place.new cause.new }
{
    let held = document.replace(alloc, None);
    let found = find_css(alloc, &held, selector, place, cause);
    let _nothing = document.replace(alloc, held);
    copy_result(found, numbers, needed)
}

/// The first of them alone. Where there is none that is refused, and `number` is 4294967295.
#[unsafe(no_mangle)]
pub extern "C" fn tl_first_css(
    alloc: Global,
    document: &mut Document,
    selector: &[u8],
    number: &mut u32,
    place: &mut usize,
    cause: &mut u8,
) -> u8
    ensures same { document.new.held ≡ document.old.held }

    // By the first element where it holds, if there is one.
    ensures finds { (n : Option ℕ) → let css = css_in selector.now in
        IsFirstBy css document.old.held n →
        let outcome = found_or_refused (answer_by css (tree_held document.old.held) n) in
        PutsOne outcome largest_u32 number.new result }
    ensures told { result ≢ 3 → IsTold (wrong_in selector.now) place.new cause.new }
    ensures lost { result ≡ 3 → IsTold None place.new cause.new }
{
    let held = document.replace(alloc, None);
    let found = find_first_css(alloc, &held, selector, place, cause);
    let _nothing = document.replace(alloc, held);
    put_one(found, NO_NODE, number)
}

/// The values at a key of the elements of a document where a selector of CSS holds, in order, with
/// a byte 255 behind each; an element without the key has none. Keys are compared as they are
/// serialized. A text that is no selector is refused, with its place and cause as above.
#[unsafe(no_mangle)]
pub extern "C" fn tl_select_values(
    alloc: Global,
    document: &mut Document,
    selector: &[u8],
    key: &[u8],
    out: &mut [u8],
    needed: &mut usize,
    place: &mut usize,
    cause: &mut u8,
) -> u8
    ensures same { document.new.held ≡ document.old.held }
    ensures finds { (ns : List ℕ) → let css = css_in selector.now in
        AreFoundBy css document.old.held ns →
        let outcome = values_by css key.now document.old.held ns in
        Puts outcome out.old out.new needed.new result }
    ensures told { result ≢ 3 → IsTold (wrong_in selector.now) place.new cause.new }
    ensures lost { result ≡ 3 → IsTold None place.new cause.new }
{
    let held = document.replace(alloc, None);
    let found = find_values(alloc, &held, selector, key, place, cause);
    let _nothing = document.replace(alloc, held);
    copy_result(found, out, needed)
}

/// The numbers of the elements below a node where a selector of CSS holds, which may begin with a
/// combinator. It is asked of the whole document, from the node: so it may name what stands around
/// that, and `:scope` is the node. It is refused where there is no such node.
#[unsafe(no_mangle)]
pub extern "C" fn tl_node_select_css(
    alloc: Global,
    document: &mut Document,
    node: u32,
    selector: &[u8],
    numbers: &mut [u32],
    needed: &mut usize,
    place: &mut usize,
    cause: &mut u8,
) -> u8
    ensures same { document.new.held ≡ document.old.held }
    ensures finds { (ns : List ℕ) → let css = css_by Relative selector.now in
        AreFoundBelowBy node css document.old.held ns →
        let outcome = answer_by css (tree_in node document.old.held) ns in
        Puts outcome numbers.old numbers.new needed.new result }
    ensures told { result ≢ 3 → IsTold (wrong_by Relative selector.now) place.new cause.new }
    ensures lost { result ≡ 3 → IsTold None place.new cause.new }
{
    let held = document.replace(alloc, None);
    let found = find_css_below(alloc, &held, node, selector, place, cause);
    let _nothing = document.replace(alloc, held);
    copy_result(found, numbers, needed)
}

/// The first of them alone. Where there is none that is refused, and `number` is 4294967295.
#[unsafe(no_mangle)]
pub extern "C" fn tl_node_first_css(
    alloc: Global,
    document: &mut Document,
    node: u32,
    selector: &[u8],
    number: &mut u32,
    place: &mut usize,
    cause: &mut u8,
) -> u8
    ensures same { document.new.held ≡ document.old.held }
    ensures finds { (ns : List ℕ) → let css = css_by Relative selector.now in
        AreFoundBelowBy node css document.old.held ns →
        let outcome = first_of (answer_by css (tree_in node document.old.held) ns) in
        PutsOne outcome largest_u32 number.new result }
    ensures told { result ≢ 3 → IsTold (wrong_by Relative selector.now) place.new cause.new }
    ensures lost { result ≡ 3 → IsTold None place.new cause.new }
{
    let held = document.replace(alloc, None);
    let found = first(find_css_below(alloc, &held, node, selector, place, cause));
    let _nothing = document.replace(alloc, held);
    put_one(found, NO_NODE, number)
}

/// Whether a selector of CSS holds at a node: `matches` is 1 where it does, and else 0. It is
/// refused where there is no such node.
#[unsafe(no_mangle)]
pub extern "C" fn tl_node_matches_css(
    alloc: Global,
    document: &mut Document,
    node: u32,
    selector: &[u8],
    matches: &mut u8,
    place: &mut usize,
    cause: &mut u8,
) -> u8
    ensures same { document.new.held ≡ document.old.held }
    ensures tells { (holds : Bool) → let css = css_in selector.now in
        TellsAt node css document.old.held holds →
        let outcome = answer_by css (tree_in node document.old.held) (one_if holds) in
        PutsOne outcome 0 matches.new result }
    ensures told { result ≢ 3 → IsTold (wrong_in selector.now) place.new cause.new }
    ensures lost { result ≡ 3 → IsTold None place.new cause.new }
{
    let held = document.replace(alloc, None);
    let holds = css_holds_at(alloc, &held, node, selector, place, cause);
    let _nothing = document.replace(alloc, held);
    put_one(holds, 0, matches)
}

/// The number of the innermost element where a selector of CSS holds, from a node on outwards.
/// Where it holds at none, and where there is no such node, that is refused, and `number` is
/// 4294967295.
#[unsafe(no_mangle)]
pub extern "C" fn tl_node_closest_css(
    alloc: Global,
    document: &mut Document,
    node: u32,
    selector: &[u8],
    number: &mut u32,
    place: &mut usize,
    cause: &mut u8,
) -> u8
    ensures same { document.new.held ≡ document.old.held }
    ensures finds { (n : Option ℕ) → let css = css_in selector.now in
        IsClosestBy node css document.old.held n →
        let outcome = found_or_refused (answer_by css (tree_in node document.old.held) n) in
        PutsOne outcome largest_u32 number.new result }
    ensures told { result ≢ 3 → IsTold (wrong_in selector.now) place.new cause.new }
    ensures lost { result ≡ 3 → IsTold None place.new cause.new }
{
    let held = document.replace(alloc, None);
    let found = find_closest_css(alloc, &held, node, selector, place, cause);
    let _nothing = document.replace(alloc, held);
    put_one(found, NO_NODE, number)
}
