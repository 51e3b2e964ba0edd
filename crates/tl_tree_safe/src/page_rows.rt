//! Worked rows: where a print may be put into a page, by what stands before.

ghost use Rattle.std.specs.Prelude.{false, true, ◌≡◌};
ghost use Rattle.tl_tree_safe.specs.Examples.{is_free_after, is_open_after};

/// Open places.
pub fn open_places_of_pages()
    ensures page { is_open_after "<!doctype html><title>a</title><nav>b</nav><main>" ≡ true }
    ensures body_that_is_implied { is_open_after "a" ≡ true }
    ensures head_and_comments { is_open_after "<html><head><meta charset=utf-8><style>p{}</style></head><!--a--><body class=a><!--b-->" ≡ true }
    ensures form { is_open_after "<form><input name=a><label>" ≡ true }
    ensures omitted_end_tags { is_open_after "<ul><li>a<li>b</ul><p>c<div>" ≡ true }
    ensures svg_before { is_open_after "<svg><path d=m /></svg><section>" ≡ true }
    ensures script_before { is_open_after "<script>a<b</script><div>" ≡ true }
    ensures cell { is_open_after "<table><tr><td>" ≡ true }
    ensures cell_in_a_paragraph { is_open_after "<p><object><table><td>" ≡ true }
    ensures formatting_that_is_closed { is_open_after "<p><b>a</b></p>" ≡ true }
    ensures template { is_open_after "<template><div>" ≡ true }
    ensures list_in_an_item { is_open_after "<ul><li><ul>" ≡ true }
{}

/// Places where what is open counts, or where the rules are others.
pub fn other_places_of_pages()
    ensures paragraph { is_open_after "<div><p>" ≡ false }
    ensures item { is_open_after "<ul><li>" ≡ false }
    ensures description { is_open_after "<dl><dd><div>" ≡ false }
    ensures anchor { is_open_after "<a href=b><div>" ≡ false }
    ensures formatting { is_open_after "<b>" ≡ false }
    ensures formatting_to_be_opened { is_open_after "<p><b>a</p>" ≡ false }
    ensures button { is_open_after "<button><div>" ≡ false }
    ensures nobr { is_open_after "<nobr>" ≡ false }
    ensures ruby { is_open_after "<ruby><span>" ≡ false }
    ensures heading { is_open_after "<h1>" ≡ false }
    ensures preformatted { is_open_after "<pre>" ≡ false }
    ensures select { is_open_after "<select><option>" ≡ false }
    ensures table { is_open_after "<table>" ≡ false }
    ensures row { is_open_after "<table><tr>" ≡ false }
    ensures title { is_open_after "<title>" ≡ false }
    ensures svg { is_open_after "<svg>" ≡ false }
    ensures behind_the_body { is_open_after "a</body>" ≡ false }
    ensures head { is_open_after "<head>" ≡ false }
    ensures frameset { is_open_after "<frameset>" ≡ false }
{}

/// Numbers that a comment may have there: of marks before the place that are no comments.
pub fn numbers_of_comments()
    ensures doctype { is_free_after 0 "<!doctype html><!--a--><main>" ≡ true }
    ensures another_comment { is_free_after 1 "<!doctype html><!--a--><main>" ≡ false }
    ensures behind_the_place { is_free_after 3 "<!doctype html><!--a--><main>" ≡ false }
{}
