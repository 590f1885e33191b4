//! The style sheet of the page (CSS).

ghost use Rattle.std.specs.Prelude.{◌≡◌};
ghost use Rattle.rustsec_page.specs.Templates.{style_text};

/// The colours.
const LIGHT: &str =
    r#":root{color-scheme:light dark;--back:#f6f7f9;--card:#fff;--text:#1b1f24;--soft:#59636e;--line:#d5dae1;
--link:#0a5bc4;--bad:#c62828;--good:#1a7f37;--critical:#8e1550;--high:#c62828;--medium:#b45309;
--low:#7a6a00;--other:#4b5766}
"#;

/// The colours in the dark.
const DARK: &str =
    r#"@media(prefers-color-scheme:dark){:root{--back:#0f1217;--card:#171b22;--text:#e3e8ee;--soft:#9aa5b1;
--line:#303844;--link:#71b1ff;--bad:#f2645a;--good:#43c463;--critical:#ff7eb6;--high:#f2645a;
--medium:#f0a84a;--low:#dcc94c;--other:#a3aebb}}
"#;

/// The layout of the page.
const LAYOUT: &str = r#"*{box-sizing:border-box}
body{margin:0;background:var(--back);color:var(--text);
font:16px/1.5 system-ui,-apple-system,"Segoe UI",Roboto,sans-serif}
body>*{max-width:60rem;margin:0 auto;padding:0 1rem}
body>header{padding-top:2rem}
body>main{padding-bottom:2rem}
h1,h2,h3,p,ul,ol,figure{margin:0;padding:0}
"#;

/// The look of texts.
const WORDS: &str = r#"h1{font-size:1.6rem;line-height:1.25}
h2{font-size:1.15rem;margin:2rem 0 .75rem}
h3{font-size:1.05rem;line-height:1.35}
summary{font-size:.85rem;font-weight:600;color:var(--soft)}
a{color:var(--link)}
code,.path,svg text{font-family:ui-monospace,SFMono-Regular,Menlo,Consolas,monospace;font-size:.875rem}
h1,h3,p,li,code,figcaption,.description{overflow-wrap:anywhere}
.summary{font-size:1.1rem;margin-top:.5rem}
.soft,figcaption{color:var(--soft);font-size:.9rem}
"#;

/// The look of a finding.
const CARDS: &str =
    r#"article,.box{background:var(--card);border:1px solid var(--line);border-radius:8px;padding:1rem 1.25rem;
margin:0 0 1rem}
article{border-left:5px solid var(--other)}
article>*+*{margin-top:.75rem}
.critical{--rank:var(--critical)}.high{--rank:var(--high)}.medium{--rank:var(--medium)}.low{
--rank:var(--low)}
section[class] article{border-left-color:var(--rank,var(--other))}
.facts{display:flex;flex-wrap:wrap;gap:.35rem .6rem;align-items:baseline}
.tag{border:1px solid var(--rank,var(--other));color:var(--rank,var(--other));border-radius:999px;
padding:0 .6rem;font-size:.8rem;font-weight:600;white-space:nowrap;
background:color-mix(in srgb,var(--rank,var(--other)) 10%,transparent)}
"#;

/// The look of a line of versions.
const LINES: &str = r#".drawing{overflow-x:auto}
svg{display:block;overflow:visible}
figcaption{margin-top:.25rem}
figcaption::before{content:"";display:inline-block;width:1.5rem;height:.5rem;margin-right:.5rem;
background:var(--bad)}
.range:not(:last-child)::after{content:";"}
svg text{text-anchor:middle;fill:var(--text);font-size:11px}
svg .name{font-family:system-ui,sans-serif;fill:var(--soft)}
.axis,.tick{stroke:var(--soft);stroke-width:1.5;fill:none}
.affected{stroke:var(--bad);stroke-width:8;fill:none}
.locked{fill:var(--text);stroke:var(--card);stroke-width:2}
.free{fill:var(--good);stroke:var(--card);stroke-width:2}
"#;

/// The look of a path and of lists.
const TREES: &str = r#".path{list-style:none}
.path li+li::before{content:"\2514\00a0";color:var(--soft)}
.path li:nth-child(2){margin-left:.25rem}.path li:nth-child(3){margin-left:1.25rem}
.path li:nth-child(4){margin-left:2.25rem}.path li:nth-child(5){margin-left:3.25rem}
.path li:nth-child(n+6){margin-left:4.25rem}
.description{white-space:pre-wrap;margin-top:.5rem;font-size:.95rem}
summary{cursor:pointer}
ul.box{list-style:none}
.box>li+li{border-top:1px solid var(--line);margin-top:.6rem;padding-top:.6rem}
.links{padding-left:1.2rem;font-size:.9rem}
"#;

/// Narrow screens and paper.
const MEDIA: &str =
    r#"@media(max-width:30rem){h1{font-size:1.35rem}article,.box{padding:.85rem .9rem}}
@media print{:root{--back:#fff;--card:#fff;--text:#000;--soft:#444;--line:#aaa}body{font-size:11pt}
article{break-inside:avoid}.drawing{overflow:visible}svg{max-width:100%;height:auto}
details::details-content{content-visibility:visible;block-size:auto}}
"#;

/// A part of the style sheet (CSS).
#[derive(Clone, Copy)]
pub(crate) enum Style {
    /// The colours.
    Light,
    /// The colours in the dark.
    Dark,
    /// The layout of the page.
    Layout,
    /// The look of texts.
    Words,
    /// The look of a finding.
    Cards,
    /// The look of a line of versions.
    Lines,
    /// The look of a path and of lists.
    Trees,
    /// Narrow screens and paper.
    Media,
}

impl Style {
    /// Returns the text of the part.
    #[tactic(auto, unfolding(crate::specs::Templates::style_text))]
    pub(crate) fn text(self) -> &'static str
        ensures { result.now ≡ style_text self }
    {
        match self {
            Style::Light => LIGHT,
            Style::Dark => DARK,
            Style::Layout => LAYOUT,
            Style::Words => WORDS,
            Style::Cards => CARDS,
            Style::Lines => LINES,
            Style::Trees => TREES,
            Style::Media => MEDIA,
        }
    }
}
