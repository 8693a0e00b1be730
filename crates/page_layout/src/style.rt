//! What is the same in each HTML page.

/// What stands before the title.
pub const PAGE_START: &[u8] = br##"<!doctype html>
<html lang="en">
<head>
<meta charset="utf-8">
<meta name="viewport" content="width=device-width, initial-scale=1">
<title>"##;

/// What stands between the title and the page: its style, on a screen and on paper.
pub const PAGE_STYLE: &[u8] = br##"</title>
<style>
:root { color-scheme: light dark; --page: #f4f1e8; --ink: #15201b; --second: #4a574f; --line: #d9d4c6; --edge: #6f7a74; --felt: #1f5f4a; --on-felt: #fff; --red: #a8001c; --link: #0b57a4; --panel: #fff; --soft: #ece8dc; }
@media (prefers-color-scheme: dark) {
:root { --page: #0d1311; --ink: #e9ede9; --second: #a8b5ae; --line: #33403a; --edge: #7d8983; --felt: #7cc4a5; --on-felt: #0d1311; --red: #ff8d8d; --link: #8cc2ff; --panel: #17201c; --soft: #202b26; }
}
* { box-sizing: border-box; }
body { display: grid; grid-template-columns: minmax(0, 1fr); gap: 0 2rem; margin: 1rem auto; max-width: 72rem; padding: 0 1rem; color: var(--ink); background: var(--page); font: 16px/1.35 -apple-system, "Segoe UI", Roboto, "Helvetica Neue", "Liberation Sans", Arial, system-ui, sans-serif; }
body > * { grid-column: 1 / -1; min-width: 0; }
h1 { margin: 0 0 .2rem; font-size: 1.75rem; line-height: 1.2; }
h2 { margin: 1.5rem 0 .4rem; font-size: 1.375rem; }
h3 { margin: 1.2rem 0 .2rem; font-size: 1.125rem; }
p { margin: .15rem 0; }
body > p { color: var(--second); }
nav { display: flex; flex-wrap: wrap; gap: 0 1.5rem; padding: .3rem 0; border-bottom: 3px solid var(--felt); }
nav a { padding: .7rem 0; font-weight: bold; }
a { color: var(--link); text-underline-offset: .15em; }
td a { color: inherit; text-decoration-color: var(--edge); }
:target { scroll-margin-top: 1rem; outline: 2px solid var(--felt); outline-offset: 2px; }
section { overflow-x: auto; }
table { margin: .4rem 0 .8rem; border-collapse: collapse; font-variant-numeric: tabular-nums; }
caption { position: absolute; width: 1px; height: 1px; overflow: hidden; clip-path: inset(50%); white-space: nowrap; }
th, td { padding: .3rem .5rem; border-bottom: 1px solid var(--line); text-align: left; vertical-align: baseline; white-space: nowrap; }
th { border-bottom: 2px solid var(--edge); font-size: .8125rem; color: var(--second); }
.r { text-align: right; }
.s, .c { color: var(--ink); }
.h, .d { color: var(--red); }
.sheet > table, .lines, .traveller > table:not([class]):last-child, .card table { width: 100%; }
.sheet > table td:first-child, .lines td:nth-child(3), .traveller > table:not([class]):last-child td:nth-child(6), .card td:nth-child(5) { font-weight: bold; }
.sheet > table td:nth-child(3), .card td:nth-child(4) { white-space: normal; overflow-wrap: anywhere; }
.traveller { display: grid; grid-template-columns: minmax(0, 1fr); gap: 0 2rem; border-top: 1px solid var(--line); }
.traveller > * { min-width: 0; align-self: start; justify-self: start; }
.traveller > :is(.lines, table:not([class]):last-child) { justify-self: stretch; order: 1; }
.traveller > details { justify-self: stretch; order: 2; }
.traveller > h3 + p + table:not([class]) { font-size: 1.125rem; }
.traveller > h3 + p + table:not([class]) td { padding: 0 1rem 0 0; border: 0; line-height: 1.3; letter-spacing: .06em; }
.traveller > h3 + p + table:not([class]) tr:nth-child(n+5):nth-child(-n+8) > :nth-child(2) { padding: 0; border-right: 1rem solid var(--page); color: var(--on-felt); background: var(--felt); text-align: center; font-size: .875em; }
tr:nth-child(5) > td:nth-child(2):empty::before { content: "N"; }
tr:nth-child(6) > td:nth-child(2):empty::before { content: "W E"; word-spacing: 1.5em; }
tr:nth-child(8) > td:nth-child(2):empty::before { content: "S"; }
.often { width: 100%; max-width: 24rem; }
.often :is(th, td) { padding: .1rem .5rem; border: 0; color: inherit; font-size: 1rem; font-weight: normal; vertical-align: middle; }
.often td:nth-child(2) { width: 100%; }
.often svg { display: block; width: 100%; height: .4rem; border-radius: .2rem; }
.often rect { fill: var(--soft); }
.often rect + rect { fill: var(--link); }
details { border-top: 1px solid var(--line); }
summary { padding: .7rem 0; font-weight: bold; cursor: pointer; overflow-wrap: anywhere; }
details > table { width: 100%; }
:is(details > table, .makeable, .often) caption { position: static; width: auto; height: auto; clip-path: none; padding: .3rem 0; text-align: left; font-weight: bold; }
.auction { background: var(--panel); }
.auction :is(th, td) { width: 25%; text-align: center; }
.auction:target, .tricks td:last-child { font-weight: bold; }
.card { padding: 0 1rem; margin: 0 0 1rem; background: var(--panel); border: 1px solid var(--line); border-radius: .75rem; }
.card :is(th, td) { padding: .3rem .35rem; }
.card > p { font-weight: bold; }
@media screen and (max-width: 40rem) {
body { padding: 0 .6rem; }
th, td { padding: .45rem .3rem; }
td a { margin: -.45rem -.3rem; padding: .45rem .3rem; }
.sheet > table :is(th, td):nth-child(5):not(:last-child) { display: none; }
.lines, .card table { display: grid; grid-template-columns: repeat(6, auto); }
:is(.lines, .card table) :is(thead, tbody, tr) { display: grid; grid-column: 1 / -1; grid-template-columns: subgrid; }
.lines :is(th, td):is(:nth-child(5), :nth-child(7):not(:nth-last-child(2)), :nth-child(8), :nth-child(10)) { display: none; }
.card :is(th, td):is(:nth-child(2), :nth-child(4), :nth-child(8):not(:last-child)) { display: none; }
.lines :is(th, td):nth-last-child(2), .card :is(th, td):last-child { order: -1; }
.traveller > table:not([class]):last-child :is(th, td):is(:nth-child(2), :nth-child(3), :nth-child(8), :nth-child(9), :nth-child(12)) { display: none; }
.traveller > h3 + p + table:not([class]) { font-size: 1rem; }
.traveller > h3 + p + table:not([class]) td { padding-right: .4rem; letter-spacing: 0; }
}
@media screen and (min-width: 40rem) {
details[open]::details-content { display: grid; grid-template-columns: minmax(0, 2fr) minmax(0, 3fr); gap: 0 2rem; align-items: start; padding-bottom: .5rem; }
details > p { grid-column: 1 / -1; }
}
@media screen and (min-width: 56rem) {
body { grid-template-columns: repeat(2, minmax(0, 1fr)); }
.sheet:not([id]) { grid-column: auto; }
.traveller { grid-template-columns: minmax(0, 3fr) minmax(0, 2fr); }
.traveller > :is(h3, p, .lines, table:not([class]):last-child, details) { grid-column: 1 / -1; }
.traveller:has(> .makeable) > h3 + p + table:not([class]) { grid-row: span 3; }
.traveller > .makeable + p { grid-column: auto; }
.sheet:has(> .card) { display: grid; grid-template-columns: repeat(2, minmax(0, 1fr)); gap: 0 1rem; align-items: start; }
.sheet:has(> .card) > h2 { grid-column: 1 / -1; }
.card :is(th, td):nth-child(2) { display: none; }
}
@page { size: A4; margin: 12mm; }
@media print {
:root { color-scheme: light; --page: #fff; --ink: #000; --second: #333; --line: #ccc; --edge: #333; --felt: #eee; --on-felt: #000; --red: #b8000f; --link: #000; --panel: #fff; }
body { margin: 0; max-width: none; padding: 0; font-size: 9pt; grid-template-columns: repeat(2, minmax(0, 1fr)); }
nav, details { display: none; }
a { color: inherit; text-decoration: none; }
.sheet:not([id]) { grid-column: auto; }
section { overflow-x: visible; }
th, td { padding: .1rem .4rem; }
thead { display: table-header-group; }
h2, h3 { break-after: avoid; }
.sheet { break-before: page; }
.sheet:not([id]) { break-before: auto; }
.sheet > h2 { margin-top: 0; }
.traveller, .card, tr { break-inside: avoid; }
.traveller { grid-template-columns: minmax(0, 3fr) minmax(0, 2fr); border: 0; }
.traveller > :is(h3, p, .lines, table:not([class]):last-child) { grid-column: 1 / -1; }
.traveller:has(> .makeable) > h3 + p + table:not([class]) { grid-row: span 3; }
.traveller > .makeable + p { grid-column: auto; }
.traveller > h3 { margin: 0; font-size: 14pt; }
.traveller > h3 + p + table:not([class]) { font-size: 14pt; }
.traveller > .lines { font-size: 10pt; }
.often :is(th, td) { font-size: 9pt; }
.often rect + rect { fill: #0b57a4; }
.sheet:has(> .card) { columns: 2; column-gap: 4mm; }
.sheet:has(> .card) > h2 { column-span: all; }
.card { margin: 0 0 3mm; padding: 2mm; border: 1px dashed #666; border-radius: 0; font-size: 8.5pt; }
.card :is(th, td) { padding: .1rem .25rem; }
.card :is(th, td):is(:nth-child(2), :nth-child(4)) { display: none; }
.card h3 { margin-top: 0; }
.s, .h, .d, .c { print-color-adjust: exact; }
}
</style>
</head>
<body>
"##;
