//! End tags "in body" (13.2.6.4.7).
ghost use Rattle.std.specs.Prelude.{IfOk, IsTrue, OnOk, not, ◌≡◌};
ghost use Rattle.tl_dom_spec.specs.Body.{body_end};
ghost use Rattle.tl_dom_spec.specs.Builder.{Done};
ghost use Rattle.tl_tree.specs.Inner.BodyGroups.{is_the_html};
ghost use Rattle.tl_tree.specs.Inner.Builders.{builder_of, outcome_of, token_of};
ghost use Rattle.tl_tree.specs.Inner.GroupNames.{group_view as group_of};

use crate::builder::Builder;
use crate::error::GrowError;
use crate::group::Group;
use crate::outcome::Outcome;
use crate::test::TagTest;

impl<'a> Builder<'a> {
    // An end tag that is not that of `html`.
    fn own_end(&mut self, group: Group, name: &[u8]) -> Result<(), GrowError>
        requires { IsTrue (not (is_the_html (group_of group))) }
        ensures ok { OnOk result (Done (builder_of self.new)
            ≡ body_end (builder_of self.old) (group_of group) name.now) }
        ensures token { token_of self.new ≡ token_of self.old }
    {
        match group {
            Group::ATemplate => self.template_end_tag(),
            Group::TheBody => self.body_tag_end(),
            Group::ABlock | Group::AButton | Group::APreformatted | Group::ASelect => {
                self.close_in_scope(TagTest::Nothing, TagTest::Named(name))
            }
            Group::AForm => self.form_ended(),
            Group::AParagraph => self.p_ended(),
            Group::AnItem => self.item_ended(),
            Group::ADescription => self.close_in_scope(TagTest::Named(name), TagTest::Named(name)),
            Group::AHeading => self.close_in_scope(TagTest::Nothing, TagTest::Heading),
            Group::AnAnchor | Group::AFormat | Group::ANobr => self.adoption_agency(name),
            Group::AMark => self.mark_ended(name),
            Group::ABreak => self.break_ended(),
            _ => self.any_other_end_tag(name),
        }
    }

    /// An end tag.
    #[inline(always)]
    pub(crate) fn body_end(&mut self, group: Group, name: &[u8]) -> Result<Outcome, GrowError>
        ensures ok { IfOk result (λ outcome. outcome_of outcome (builder_of self.new)
            ≡ body_end (builder_of self.old) (group_of group) name.now) }
        ensures token { token_of self.new ≡ token_of self.old }
    {
        match group {
            Group::TheHtml => self.html_end(),
            _ => Outcome::Done.after(self.own_end(group, name)),
        }
    }
}
