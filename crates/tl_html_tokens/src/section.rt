//! CDATA sections.
ghost use Rattle.std.specs.Prelude.{◌≡◌, ◌≤◌, ◌+◌, length, drop};
ghost use Rattle.tl_html_tokens.specs.Sections.{section_len, section_past};

/// A CDATA section: where what it says ends, and where it ends itself.
#[derive(Clone, Copy)]
pub struct Section {
    pub text_end: usize,
    pub end: usize,
}

// The section whose first byte stands at a place.
#[tactic(auto, using(crate::proofs::Sections::section_on, crate::proofs::Sections::section_here, crate::proofs::Sections::section_none))]
fn section_from(page: &[u8], from: usize) -> Section
    requires { from ≤ length page.now }
    ensures text { result.text_end ≡ from + section_len (drop from page.now) }
    ensures end { result.end ≡ from + section_past (drop from page.now) }
{
    let mut at = from;
    while at < page.len() {
        if page[at..].starts_with(b"]]>") {
            return Section {
                text_end: at,
                end: at + 3,
            };
        }
        at += 1;
    }
    Section {
        text_end: at,
        end: at,
    }
}

ghost use Rattle.std.specs.Prelude.{IfSome, None, false};
ghost use Rattle.tl_html_tokens.specs.Driving.{begins_section};
ghost use Rattle.tl_html_tokens.specs.Sections.{IsSection, begin_len};

/// The CDATA section that stands at a place, where tree construction says that it is foreign
/// (13.2.5.69 to .71): none where no `<![CDATA[` stands there.
///
/// Any driver takes its characters as they are, with line feeds at the ends of lines
/// (`laws::sections_are_driven`).
pub fn next_section(page: &[u8], start: usize) -> Option<Section>
    ensures section { IfSome result (λ section. IsSection page.now start section) }
    ensures begin { IfSome result (λ section. start + begin_len ≤ section.text_end) }
    ensures order { IfSome result (λ section. section.text_end ≤ section.end) }
    ensures within { IfSome result (λ section. section.end ≤ length page.now) }
    ensures none { result ≡ None → begins_section (drop start page.now) ≡ false }
{
    if start >= page.len() || !page[start..].starts_with(b"<![CDATA[") {
        return None;
    }
    Some(section_from(page, start + 9))
}
