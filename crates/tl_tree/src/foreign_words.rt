//! Names and keys of `svg` and `math` that are written in two cases (13.2.6.1).
ghost use Rattle.std.specs.Prelude.{IfSome, List, None, ℕ, ◌≡◌};
ghost use Rattle.tl_dom_spec.specs.Adjusted.{cased, foreign_key, svg_keys, svg_names};
ghost use Rattle.tl_html_spec.specs.Balanced.{words};
ghost use Rattle.tl_names.specs.Elements.{words_of};
ghost use Rattle.tl_tree.specs.Inner.Foreign.{own_name};
ghost use Rattle.tl_tree.specs.Inner.Store.{space_of};

use crate::entries::Namespace;
use crate::lowered::is_lowered;

#[rattlefmt::skip]
static SVG_NAMES: [&str; 37] = [
    "altGlyph", "altGlyphDef", "altGlyphItem", "animateColor", "animateMotion",
    "animateTransform", "clipPath", "feBlend", "feColorMatrix", "feComponentTransfer",
    "feComposite", "feConvolveMatrix", "feDiffuseLighting", "feDisplacementMap", "feDistantLight",
    "feDropShadow", "feFlood", "feFuncA", "feFuncB", "feFuncG", "feFuncR", "feGaussianBlur",
    "feImage", "feMerge", "feMergeNode", "feMorphology", "feOffset", "fePointLight",
    "feSpecularLighting", "feSpotLight", "feTile", "feTurbulence", "foreignObject", "glyphRef",
    "linearGradient", "radialGradient", "textPath",
];

#[rattlefmt::skip]
static SVG_KEYS: [&str; 58] = [
    "attributeName", "attributeType", "baseFrequency", "baseProfile", "calcMode", "clipPathUnits",
    "diffuseConstant", "edgeMode", "filterUnits", "glyphRef", "gradientTransform",
    "gradientUnits", "kernelMatrix", "kernelUnitLength", "keyPoints", "keySplines", "keyTimes",
    "lengthAdjust", "limitingConeAngle", "markerHeight", "markerUnits", "markerWidth",
    "maskContentUnits", "maskUnits", "numOctaves", "pathLength", "patternContentUnits",
    "patternTransform", "patternUnits", "pointsAtX", "pointsAtY", "pointsAtZ", "preserveAlpha",
    "preserveAspectRatio", "primitiveUnits", "refX", "refY", "repeatCount", "repeatDur",
    "requiredExtensions", "requiredFeatures", "specularConstant", "specularExponent",
    "spreadMethod", "startOffset", "stdDeviation", "stitchTiles", "surfaceScale",
    "systemLanguage", "tableValues", "targetX", "targetY", "textLength", "viewBox", "viewTarget",
    "xChannelSelector", "yChannelSelector", "zoomAndPan",
];

static MATH_KEYS: [&str; 1] = ["definitionURL"];

// Names of elements of `svg`.
fn svg_names() -> &'static [&'static str]
    ensures { words_of result.now ≡ words svg_names }
{
    &SVG_NAMES
}

// Keys of attributes in `svg`.
fn svg_keys() -> &'static [&'static str]
    ensures { words_of result.now ≡ words svg_keys }
{
    &SVG_KEYS
}

/// The words that names are written as in a namespace; none where names stay as they are.
pub(crate) fn name_words(space: Namespace, is_renamed: bool) -> &'static [&'static str]
    ensures { (name : List ℕ) →
        cased name (words_of result.now) ≡ own_name is_renamed (space_of space) name }
{
    if !is_renamed {
        return &[];
    }
    match space {
        Namespace::Html | Namespace::Math => &[],
        Namespace::Svg => svg_names(),
    }
}

/// The words that keys are written as in a namespace.
pub(crate) fn key_words(space: Namespace) -> &'static [&'static str]
    ensures { (key : List ℕ) → cased key (words_of result.now) ≡ foreign_key (space_of space) key }
{
    match space {
        Namespace::Html => &[],
        Namespace::Math => &MATH_KEYS,
        Namespace::Svg => svg_keys(),
    }
}

/// The first of these words that is the name when it is in lower case.
pub(crate) fn cased(words: &'static [&'static str], name: &[u8]) -> Option<&'static [u8]>
    ensures found { IfSome result (λ word. cased name.now (words_of words.now) ≡ word.now) }
    ensures none { result ≡ None → cased name.now (words_of words.now) ≡ name.now }
{
    for word in words {
        if is_lowered(word.as_bytes(), name) {
            return Some(word.as_bytes());
        }
    }
    None
}
