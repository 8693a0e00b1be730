//! What begins a page of slips in HTML.

/// The head of the page and its style: eight slips to a sheet of A4, with lines to cut along.
pub const SLIPS_START: &[u8] = br##"<!doctype html>
<html lang="en">
<head>
<meta charset="utf-8">
<meta name="viewport" content="width=device-width, initial-scale=1">
<title>Slips</title>
<style>
@page { size: 210mm 297mm; margin: 0; }
body { margin: 0; width: 210mm; display: grid; grid-template-columns: 105mm 105mm; grid-auto-rows: 74mm; color: #000; background: #fff; font: 12pt/1.3 system-ui, sans-serif; }
.slip { box-sizing: border-box; overflow: hidden; break-inside: avoid; padding: 7mm 8mm; border: 0 dashed #777; border-width: 0 0 .3mm .3mm; overflow-wrap: anywhere; }
h2, h3, p { margin: 0 0 1.5mm; unicode-bidi: plaintext; text-align: left; }
h2 { font-size: 15pt; line-height: 1.25; max-height: 3.75em; overflow: hidden; }
h3 { font-size: 17pt; font-variant-numeric: tabular-nums; }
</style>
</head>
<body>
"##;
