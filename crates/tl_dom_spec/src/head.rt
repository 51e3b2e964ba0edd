//! Worked rows: the head, what follows it, and texts (13.2.6.4.4 to .6, .8).

ghost use Rattle.std.specs.Prelude.{◌≡◌, codes};
ghost use Rattle.tl_dom_spec.specs.Examples.{page, scripted};

/// "in head" (13.2.6.4.4).
pub fn in_head()
    ensures white_space { page "<head> \n</head>" ≡ codes "<html>[<head>[' \n']<body>]" }
    ensures text { page "<head> a" ≡ codes "<html>[<head>[' ']<body>['a']]" }
    ensures comment { page "<head><!--a--></head>" ≡ codes "<html>[<head>[<!--a-->]<body>]" }
    ensures doctype { page "<head><!DOCTYPE html></head>" ≡ codes "<html>[<head><body>]" }
    ensures html { page "<head><html a=1> </head>" ≡ codes "<html a=1>[<head>[' ']<body>]" }
    ensures base { page "<head><base href=/></head>" ≡ codes "<html>[<head>[<base href=/>]<body>]" }
    ensures link { page "<head><link><meta><basefont><bgsound></head>" ≡ codes "<html>[<head>[<link><meta><basefont><bgsound>]<body>]" }
    ensures title { page "<head><title>a<b>&amp;</title>" ≡ codes "<html>[<head>[<title>['a<b>&']]<body>]" }
    ensures style { page "<head><style>a<b>&amp;</style>" ≡ codes "<html>[<head>[<style>['a<b>&amp;']]<body>]" }
    ensures noframes { page "<head><noframes>a<b></noframes>" ≡ codes "<html>[<head>[<noframes>['a<b>']]<body>]" }
    ensures script { page "<head><script>a<b></b></script>" ≡ codes "<html>[<head>[<script>['a<b></b>']]<body>]" }
    ensures noscript { page "<head><noscript><link></noscript>" ≡ codes "<html>[<head>[<noscript>[<link>]]<body>]" }
    ensures noscript_with_scripting { scripted "<head><noscript><p>a</noscript>" ≡ codes "<html>[<head>[<noscript>['<p>a']]<body>]" }
    ensures head_end_tag { page "<head></head> <!--a-->" ≡ codes "<html>[<head>' '<!--a--><body>]" }
    ensures body_end_tag { page "<head></body>a" ≡ codes "<html>[<head><body>['a']]" }
    ensures html_end_tag { page "<head></html><p>" ≡ codes "<html>[<head><body>[<p>]]" }
    ensures br_end_tag { page "<head></br>" ≡ codes "<html>[<head><body>[<br>]]" }
    ensures template { page "<head><template><td>a</template></head>" ≡ codes "<html>[<head>[<template>{<td>['a']}]<body>]" }
    ensures template_end_tag_without_one { page "<head></template><link>" ≡ codes "<html>[<head>[<link>]<body>]" }
    ensures head_in_head { page "<head><head a=1> </head>" ≡ codes "<html>[<head>[' ']<body>]" }
    ensures other_end_tag { page "<head></p><link>" ≡ codes "<html>[<head>[<link>]<body>]" }
    ensures anything_else { page "<head><p>" ≡ codes "<html>[<head><body>[<p>]]" }
    ensures end_of_file { page "<head>" ≡ codes "<html>[<head><body>]" }
{}

/// "in head noscript" (.5).
pub fn in_head_noscript()
    ensures white_space { page "<head><noscript> </noscript>" ≡ codes "<html>[<head>[<noscript>[' ']]<body>]" }
    ensures comment { page "<head><noscript><!--a--></noscript>" ≡ codes "<html>[<head>[<noscript>[<!--a-->]]<body>]" }
    ensures doctype { page "<head><noscript><!DOCTYPE a></noscript>" ≡ codes "<html>[<head>[<noscript>]<body>]" }
    ensures html { page "<head><noscript><html a=1><link>" ≡ codes "<html a=1>[<head>[<noscript>[<link>]]<body>]" }
    ensures noscript_end_tag { page "<head><noscript></noscript><link>" ≡ codes "<html>[<head>[<noscript><link>]<body>]" }
    ensures link { page "<head><noscript><link><meta></noscript>" ≡ codes "<html>[<head>[<noscript>[<link><meta>]]<body>]" }
    ensures style { page "<head><noscript><style>a</style></noscript>" ≡ codes "<html>[<head>[<noscript>[<style>['a']]]<body>]" }
    ensures noframes { page "<head><noscript><noframes>a</noframes></noscript>" ≡ codes "<html>[<head>[<noscript>[<noframes>['a']]]<body>]" }
    ensures br_end_tag { page "<head><noscript></br>" ≡ codes "<html>[<head>[<noscript>]<body>[<br>]]" }
    ensures noscript_in_noscript { page "<head><noscript><noscript a=1><link>" ≡ codes "<html>[<head>[<noscript>[<link>]]<body>]" }
    ensures head_in_noscript { page "<head><noscript><head a=1><link>" ≡ codes "<html>[<head>[<noscript>[<link>]]<body>]" }
    ensures other_end_tag { page "<head><noscript></head></p><link>" ≡ codes "<html>[<head>[<noscript>[<link>]]<body>]" }
    ensures anything_else { page "<head><noscript><p>" ≡ codes "<html>[<head>[<noscript>]<body>[<p>]]" }
    ensures text { page "<head><noscript> a" ≡ codes "<html>[<head>[<noscript>[' ']]<body>['a']]" }
    ensures end_of_file { page "<head><noscript>" ≡ codes "<html>[<head>[<noscript>]<body>]" }
{}

/// "after head" (.6).
pub fn after_head()
    ensures white_space { page "<head></head> \n<body>" ≡ codes "<html>[<head>' \n'<body>]" }
    ensures comment { page "<head></head><!--a--><body>" ≡ codes "<html>[<head><!--a--><body>]" }
    ensures doctype { page "<head></head><!DOCTYPE a><body>" ≡ codes "<html>[<head><body>]" }
    ensures html { page "<head></head><html a=1> <body>" ≡ codes "<html a=1>[<head>' '<body>]" }
    ensures body { page "<head></head><body a=1>" ≡ codes "<html>[<head><body a=1>]" }
    ensures frameset { page "<head></head><frameset a=1>" ≡ codes "<html>[<head><frameset a=1>]" }
    ensures link_goes_into_the_head { page "<head></head><!--a--><link><body>" ≡ codes "<html>[<head>[<link>]<!--a--><body>]" }
    ensures title_goes_into_the_head { page "<head></head> <title>a</title> <body>" ≡ codes "<html>[<head>[<title>['a']]'  '<body>]" }
    ensures style_goes_into_the_head { page "<head></head><style>a</style><script>b</script><noframes>c</noframes><base><body>" ≡ codes "<html>[<head>[<style>['a']<script>['b']<noframes>['c']<base>]<body>]" }
    ensures template_goes_into_the_head { page "<head></head><template><p>a</template><body>" ≡ codes "<html>[<head>[<template>{<p>['a']}]<body>]" }
    ensures template_end_tag_without_one { page "<head></head></template><body>" ≡ codes "<html>[<head><body>]" }
    ensures body_end_tag { page "<head></head></body><!--a-->" ≡ codes "<html>[<head><body><!--a-->]" }
    ensures html_end_tag { page "<head></head></html><!--a-->" ≡ codes "<html>[<head><body>]<!--a-->" }
    ensures br_end_tag { page "<head></head></br>" ≡ codes "<html>[<head><body>[<br>]]" }
    ensures head_again { page "<head></head><head a=1> <body>" ≡ codes "<html>[<head>' '<body>]" }
    ensures other_end_tag { page "<head></head></p><body>" ≡ codes "<html>[<head><body>]" }
    ensures anything_else { page "<head></head><p>" ≡ codes "<html>[<head><body>[<p>]]" }
    ensures noscript_begins_the_body { page "<head></head><noscript><p>" ≡ codes "<html>[<head><body>[<noscript>[<p>]]]" }
    ensures text { page "<head></head>a" ≡ codes "<html>[<head><body>['a']]" }
    ensures end_of_file { page "<head></head>" ≡ codes "<html>[<head><body>]" }
{}

/// "text" (.8).
pub fn text()
    ensures character { page "<title>a<!--b-->" ≡ codes "<html>[<head>[<title>['a<!--b-->']]<body>]" }
    ensures other_end_tag { page "<style>a</b></style>b" ≡ codes "<html>[<head>[<style>['a</b>']]<body>['b']]" }
    ensures end_of_file { page "<script>a" ≡ codes "<html>[<head>[<script>['a']]<body>]" }
    ensures back_to_where_it_began { page "<table><style>a</style><td>b" ≡ codes "<html>[<head><body>[<table>[<style>['a']<tbody>[<tr>[<td>['b']]]]]]" }
{}
