//! Start tags "in body" (13.2.6.4.7).
ghost use Rattle.std.specs.Prelude.{IfOk, IsTrue, OnOk, not, ◌≡◌};
ghost use Rattle.tl_dom_spec.specs.Body.{body_start};
ghost use Rattle.tl_dom_spec.specs.Builder.{Done};
ghost use Rattle.tl_tree.specs.Inner.Builders.{builder_of, outcome_of, token_of};
ghost use Rattle.tl_tree.specs.Inner.GroupNames.{group_view as group_of};
ghost use Rattle.tl_tree.specs.Inner.BodyGroups.{is_of_head, is_of_text};

use crate::builder::Builder;
use crate::entries::Namespace;
use crate::error::GrowError;
use crate::group::Group;
use crate::names::Names;
use crate::outcome::Outcome;
use crate::test::TagTest;

impl<'a> Builder<'a> {
    // A start tag of what stands in a text.
    fn text_start(&mut self, group: Group, closes: bool) -> Result<(), GrowError>
        requires { IsTrue (is_of_text (group_of group)) }
        ensures ok { OnOk result (Done (builder_of self.new)
            ≡ body_start (builder_of self.old) (group_of group) (token_of self.old).tag closes) }
        ensures token { token_of self.new ≡ token_of self.old }
    {
        match group {
            Group::AButton => self.button_start(),
            Group::AnAnchor => self.anchor_start(),
            Group::AFormat => self.format_start(),
            Group::ANobr => self.nobr_start(),
            Group::AMark => self.mark_start(),
            Group::ABreak | Group::AVoid => self.void_start(),
            Group::AnImage => self.image_start(),
            Group::AnInput => self.input_start(),
            Group::ADetail => self.insert_and_pop(),
            Group::ATextarea => self.textarea_start(),
            Group::AnIframe => self.iframe_start(),
            Group::ANoembed => self.parse_raw_text(),
            Group::ANoscript => self.noscript_start_in_body(),
            Group::ASelect => self.select_start(),
            Group::AnOption => self.option_start(TagTest::Any(Names::Optgroup)),
            Group::AnOptionGroup => self.option_start(TagTest::Nothing),
            Group::ARubyBase => self.ruby_start(TagTest::Nothing),
            Group::ARubyText => self.ruby_start(TagTest::Any(Names::Rtc)),
            Group::AMath => self.foreign_start(Namespace::Math, closes),
            Group::AnSvg => self.foreign_start(Namespace::Svg, closes),
            _ => self.ordinary_start(),
        }
    }

    // A start tag that is not one of a head.
    fn own_start(&mut self, group: Group, closes: bool) -> Result<(), GrowError>
        requires { IsTrue (not (is_of_head (group_of group))) }
        ensures ok { OnOk result (Done (builder_of self.new)
            ≡ body_start (builder_of self.old) (group_of group) (token_of self.old).tag closes) }
        ensures token { token_of self.new ≡ token_of self.old }
    {
        match group {
            Group::TheHtml => self.html_start(),
            Group::TheBody => self.body_tag_start(),
            Group::AFrameset => self.frameset_start(),
            Group::AParagraph | Group::ABlock => self.block_start(),
            Group::AHeading => self.heading_start(),
            Group::APreformatted => self.preformatted_start(),
            Group::AForm => self.form_start(),
            Group::AnItem => self.item_start(),
            Group::ADescription => self.description_start(),
            Group::APlaintext => self.plaintext_start(),
            Group::ATable => self.table_start_in_body(),
            Group::ARule => self.rule_start(),
            Group::AnExample => self.example_start(),
            Group::ACaption
            | Group::AColumn
            | Group::AColumnGroup
            | Group::AFrame
            | Group::TheHead
            | Group::ATableBody
            | Group::ACell
            | Group::ARow => Ok(()),
            _ => self.text_start(group, closes),
        }
    }

    /// A start tag.
    #[inline(always)]
    pub(crate) fn body_start(&mut self, group: Group, closes: bool) -> Result<Outcome, GrowError>
        ensures ok { IfOk result (λ outcome. outcome_of outcome (builder_of self.new)
            ≡ body_start (builder_of self.old) (group_of group) (token_of self.old).tag closes) }
        ensures token { token_of self.new ≡ token_of self.old }
    {
        match group {
            Group::ABase
            | Group::ALink
            | Group::ANoframes
            | Group::AScript
            | Group::AStyle
            | Group::ATemplate
            | Group::ATitle => self.in_head_start(group),
            _ => Outcome::Done.after(self.own_start(group, closes)),
        }
    }
}
