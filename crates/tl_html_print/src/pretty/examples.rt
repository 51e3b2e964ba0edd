//! Worked rows: small trees printed with a tag on each line.
ghost use Rattle.std.specs.Prelude.{codes, ◌≡◌};
ghost use Rattle.tl_html_print.specs.Examples.{document_lines, lines};
ghost use Rattle.tl_html_print.specs.Pretty.{line};

/// What stands on lines of its own.
pub fn blocks()
    ensures nested { lines "<div><p>a<p>b</div>" ≡ codes "<div>\n  <p>a</p>\n  <p>b</p>\n</div>\n" }
    ensures beside { lines "<p>a<p>b" ≡ codes "<p>a</p>\n<p>b</p>\n" }
    ensures list { lines "<ul><li>a<li>b<ul><li>c</ul></ul>" ≡ codes "<ul>\n  <li>a</li>\n  <li>b<ul>\n      <li>c</li>\n    </ul>\n  </li>\n</ul>\n" }
    ensures table { lines "<table><tr><td>a<td>b</table>" ≡ codes "<table>\n  <tbody>\n    <tr>\n      <td>a</td>\n      <td>b</td>\n    </tr>\n  </tbody>\n</table>\n" }
    ensures columns { lines "<table><colgroup><col></table>" ≡ codes "<table>\n  <colgroup>\n    <col>\n  </colgroup>\n</table>\n" }
    ensures void { lines "<div><hr><br></div>" ≡ codes "<div>\n  <hr>\n  <br>\n</div>\n" }
    ensures empty { lines "<div></div>" ≡ codes "<div></div>\n" }
{}

/// What stays on one line.
pub fn kept()
    ensures inline { lines "<div><b>a</b><i>b</i></div>" ≡ codes "<div><b>a</b><i>b</i></div>\n" }
    ensures inline_beside_a_block { lines "<div><p>a</p><b>c</b></div>" ≡ codes "<div>\n  <p>a</p>\n  <b>c</b>\n</div>\n" }
    ensures block_in_inline { lines "<b><div><p>a</div></b>" ≡ codes "<b><div><p>a</p></div></b>" }
    ensures texts { lines "<div>a<p>b</p>c</div>" ≡ codes "<div>a<p>b</p>c</div>\n" }
    ensures preformatted { lines "<div><pre>a\n b</pre></div>" ≡ codes "<div>\n  <pre>a\n b</pre>\n</div>\n" }
    ensures template { lines "<div><template><p>a</template></div>" ≡ codes "<div>\n  <template><p>a</p></template>\n</div>\n" }
    ensures select { lines "<select><option>a<option>b</select>" ≡ codes "<select><option>a</option><option>b</option></select>" }
{}

/// White space of the page, and what isn't shown.
pub fn white_space()
    ensures between_blocks { lines "<div> <p>a</p>\n\n<p>b</p> </div>" ≡ codes "<div>\n  <p>a</p>\n  <p>b</p>\n</div>\n" }
    ensures in_a_line { lines "<div><b>a</b> <i>b</i> </div>" ≡ codes "<div><b>a</b> <i>b</i> </div>\n" }
    ensures before_a_text { lines "<p>a</p> b" ≡ codes "<p>a</p> b" }
    ensures scripts { lines "<div><script>a</script><script>b</script></div>" ≡ codes "<div>\n  <script>a</script>\n  <script>b</script>\n</div>\n" }
    ensures scripts_in_a_line { lines "<div>a<script>b</script><script>c</script></div>" ≡ codes "<div>a<script>b</script><script>c</script></div>\n" }
    ensures comment { lines "<div><!--a--><p>b</div>" ≡ codes "<div>\n  <!--a-->\n  <p>b</p>\n</div>\n" }
    ensures comment_behind_a_text { lines "<div>a<!--b--><p>c</div>" ≡ codes "<div>a<!--b-->\n  <p>c</p>\n</div>\n" }
{}

/// Documents: behind a body that is empty, or ends with a text, stands no line feed.
pub fn documents()
    ensures whole { document_lines "<!doctype html><title>a</title><p>b" ≡ codes "<!DOCTYPE html>\n<html>\n  <head>\n    <title>a</title>\n  </head>\n  <body>\n    <p>b</p>\n  </body>\n</html>\n" }
    ensures text_at_the_end { document_lines "a" ≡ codes "<html>\n  <head></head>\n  <body>a</body></html>" }
    ensures nothing_in_it { document_lines "" ≡ codes "<html>\n  <head></head>\n  <body></body></html>" }
    ensures comment_behind { document_lines "<body><!--a--></body></html><!--b-->" ≡ codes "<html>\n  <head></head>\n  <body>\n    <!--a-->\n  </body>\n</html>\n<!--b-->\n" }
    ensures comment_before { document_lines "<!--a--><body><hr>" ≡ codes "<!--a-->\n<html>\n  <head></head>\n  <body>\n    <hr>\n  </body>\n</html>\n" }
    ensures deepest { line 41 ≡ line 40 }
    ensures two_levels { line 2 ≡ codes "\n    " }
{}
