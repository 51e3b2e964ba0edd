//! The calls with selectors of CSS that are read once.
ghost use Rattle.std.specs.Prelude.{◌≡◌, ◌≢◌, ℕ, Bool, List, None, Option};
ghost use Rattle.tl_c.specs.CompiledSelectors.{Compiles, css_held};
ghost use Rattle.tl_c.specs.Css.{AreFoundBelowBy, AreFoundBy, IsClosestBy, IsFirstBy, IsTold, TellsAt, answer_by, first_of, found_or_refused, wrong_by};
ghost use Rattle.tl_c.specs.Queries.{one_if, tree_held, tree_in};
ghost use Rattle.tl_c.specs.Puts.{Puts, PutsOne};
ghost use Rattle.tl_c.specs.declared.css.Reading.TheVariants.{Relative};
ghost use Rattle.tl_spec.specs.Lex.ByteClass.{largest_u32};

use crate::compiled::Compiled;
use crate::compiled_css::{
    compile, compiled_finds, compiled_finds_below, compiled_finds_first, compiled_holds_at,
    compiled_innermost,
};
use crate::copy_out::{copy_result, first, put_one};
use crate::document::Document;
use crate::held::NO_NODE;
use std::alloc::Global;

/// Reads a selector of CSS that may begin with a combinator, and holds it; what was held before is
/// given back. A text that is no selector is refused: `place` is its first byte that is wrong, and
/// `cause` the number of the cause in `tl.h`; else both are 0.
#[unsafe(no_mangle)]
pub extern "C" fn tl_compile_css(
    alloc: Global,
    selector: &[u8],
    compiled: &mut Compiled,
    place: &mut usize,
    cause: &mut u8,
) -> u8
    ensures compiles { Compiles selector.now compiled.old.held compiled.new.held result }
    ensures told { result ≢ 3 → IsTold (wrong_by Relative selector.now) place.new cause.new }
    ensures lost { result ≡ 3 → IsTold None place.new cause.new }
{
    match compile(alloc, selector, place, cause) {
        Ok(own) => {
            let _before = compiled.replace(alloc, Some(own));
            0
        }
        Err(failure) => failure as u8,
    }
}

/// Gives the memory of a compiled selector back. There is none from then on, so a second call does
/// nothing.
#[unsafe(no_mangle)]
pub extern "C" fn tl_free_compiled(alloc: Global, compiled: &mut Compiled)
    ensures { compiled.new.held ≡ None }
{
    let _before = compiled.replace(alloc, None);
}

/// Finds the elements of a document where a compiled selector holds, as `tl_select_css`. It is
/// refused where there is no selector, and where there is no document.
#[unsafe(no_mangle)]
pub extern "C" fn tl_compiled_select(
    alloc: Global,
    document: &mut Document,
    compiled: &mut Compiled,
    numbers: &mut [u32],
    needed: &mut usize,
) -> u8
    ensures same { document.new.held ≡ document.old.held }
    ensures kept { compiled.new.held ≡ compiled.old.held }
    ensures finds { (ns : List ℕ) → let css = css_held compiled.old.held in
        AreFoundBy css document.old.held ns →
        let outcome = answer_by css (tree_held document.old.held) ns in
        Puts outcome numbers.old numbers.new needed.new result }
{
    let held = document.replace(alloc, None);
    let own = compiled.replace(alloc, None);
    let found = compiled_finds(alloc, &held, &own);
    let _nothing = document.replace(alloc, held);
    let _none = compiled.replace(alloc, own);
    copy_result(found, numbers, needed)
}

/// The first of them alone, as `tl_first_css`.
#[unsafe(no_mangle)]
pub extern "C" fn tl_compiled_first(
    alloc: Global,
    document: &mut Document,
    compiled: &mut Compiled,
    number: &mut u32,
) -> u8
    ensures same { document.new.held ≡ document.old.held }
    ensures kept { compiled.new.held ≡ compiled.old.held }
    ensures finds { (n : Option ℕ) → let css = css_held compiled.old.held in
        IsFirstBy css document.old.held n →
        let outcome = found_or_refused (answer_by css (tree_held document.old.held) n) in
        PutsOne outcome largest_u32 number.new result }
{
    let held = document.replace(alloc, None);
    let own = compiled.replace(alloc, None);
    let found = compiled_finds_first(alloc, &held, &own);
    let _nothing = document.replace(alloc, held);
    let _none = compiled.replace(alloc, own);
    put_one(found, NO_NODE, number)
}

/// The numbers of the elements below a node where it holds, as `tl_node_select_css`.
#[unsafe(no_mangle)]
pub extern "C" fn tl_compiled_select_below(
    alloc: Global,
    document: &mut Document,
    node: u32,
    compiled: &mut Compiled,
    numbers: &mut [u32],
    needed: &mut usize,
) -> u8
    ensures same { document.new.held ≡ document.old.held }
    ensures kept { compiled.new.held ≡ compiled.old.held }
    ensures finds { (ns : List ℕ) → let css = css_held compiled.old.held in
        AreFoundBelowBy node css document.old.held ns →
        let outcome = answer_by css (tree_in node document.old.held) ns in
        Puts outcome numbers.old numbers.new needed.new result }
{
    let held = document.replace(alloc, None);
    let own = compiled.replace(alloc, None);
    let found = compiled_finds_below(alloc, &held, node, &own);
    let _nothing = document.replace(alloc, held);
    let _none = compiled.replace(alloc, own);
    copy_result(found, numbers, needed)
}

/// The first of them alone, as `tl_node_first_css`.
#[unsafe(no_mangle)]
pub extern "C" fn tl_compiled_first_below(
    alloc: Global,
    document: &mut Document,
    node: u32,
    compiled: &mut Compiled,
    number: &mut u32,
) -> u8
    ensures same { document.new.held ≡ document.old.held }
    ensures kept { compiled.new.held ≡ compiled.old.held }
    ensures finds { (ns : List ℕ) → let css = css_held compiled.old.held in
        AreFoundBelowBy node css document.old.held ns →
        let outcome = first_of (answer_by css (tree_in node document.old.held) ns) in
        PutsOne outcome largest_u32 number.new result }
{
    let held = document.replace(alloc, None);
    let own = compiled.replace(alloc, None);
    let found = first(compiled_finds_below(alloc, &held, node, &own));
    let _nothing = document.replace(alloc, held);
    let _none = compiled.replace(alloc, own);
    put_one(found, NO_NODE, number)
}

/// Whether it holds at a node: `matches` is 1 where it does, and else 0, as `tl_node_matches_css`.
#[unsafe(no_mangle)]
pub extern "C" fn tl_compiled_matches(
    alloc: Global,
    document: &mut Document,
    node: u32,
    compiled: &mut Compiled,
    matches: &mut u8,
) -> u8
    ensures same { document.new.held ≡ document.old.held }
    ensures kept { compiled.new.held ≡ compiled.old.held }
    ensures tells { (holds : Bool) → let css = css_held compiled.old.held in
        TellsAt node css document.old.held holds →
        let outcome = answer_by css (tree_in node document.old.held) (one_if holds) in
        PutsOne outcome 0 matches.new result }
{
    let held = document.replace(alloc, None);
    let own = compiled.replace(alloc, None);
    let holds = compiled_holds_at(alloc, &held, node, &own);
    let _nothing = document.replace(alloc, held);
    let _none = compiled.replace(alloc, own);
    put_one(holds, 0, matches)
}

/// The number of the innermost element where it holds, from a node on outwards, as
/// `tl_node_closest_css`.
#[unsafe(no_mangle)]
pub extern "C" fn tl_compiled_closest(
    alloc: Global,
    document: &mut Document,
    node: u32,
    compiled: &mut Compiled,
    number: &mut u32,
) -> u8
    ensures same { document.new.held ≡ document.old.held }
    ensures kept { compiled.new.held ≡ compiled.old.held }
    ensures finds { (n : Option ℕ) → let css = css_held compiled.old.held in
        IsClosestBy node css document.old.held n →
        let outcome = found_or_refused (answer_by css (tree_in node document.old.held) n) in
        PutsOne outcome largest_u32 number.new result }
{
    let held = document.replace(alloc, None);
    let own = compiled.replace(alloc, None);
    let found = compiled_innermost(alloc, &held, node, &own);
    let _nothing = document.replace(alloc, held);
    let _none = compiled.replace(alloc, own);
    put_one(found, NO_NODE, number)
}
