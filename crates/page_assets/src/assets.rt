//! The pages, written by `web/write_assets` from the files in `web/`: change those, and run it again.

/// The page, of which the scripts make what each player and the director see.
pub const PAGE: &str = r##"<!doctype html>
<html lang="en">
<head>
<meta charset="utf-8">
<meta name="viewport" content="width=device-width, initial-scale=1, viewport-fit=cover">
<meta name="color-scheme" content="light dark">
<title>Bridge table</title>
<link rel="icon" href="data:,">
<link rel="stylesheet" href="/table.css">
<script src="/texts.js" defer></script>
<script src="/shared.js" defer></script>
<script src="/table.js" defer></script>
<script src="/boards.js" defer></script>
<script src="/desk.js" defer></script>
<script src="/director.js" defer></script>
</head>
<body>
<header id="bar">
<div id="chip" role="img" hidden></div>
<div id="heads"><h1 id="title">Bridge table</h1><p id="below"></p></div>
<p id="clock" hidden></p>
<button id="bell" type="button" aria-controls="calling" hidden><span>Director</span></button>
<button id="menu" type="button" aria-controls="choices" aria-label="Menu" hidden></button>
<nav id="tabs" hidden></nav>
</header>
<div id="notes"><p id="notice" role="alert"></p><div id="desk" role="alert"></div></div>
<main id="main"><noscript>This page needs JavaScript.</noscript></main>
<section id="choices" class="sheet" role="dialog" aria-modal="true" aria-label="Menu" hidden>
<div id="options"></div>
<div class="row"><button id="leave" type="button">Leave</button><button id="chosen" type="button">Done</button></div>
</section>
<section id="calling" class="sheet" role="dialog" aria-modal="true" aria-label="Call the director" hidden></section>
<p id="status" role="status"></p>
<p id="heard" role="status"></p>
</body>
</html>
"##;

/// Its style.
pub const STYLE: &str = r##"/* For a telephone as for a large screen, light and dark, and for print.
   Sizes grow with the reader's letters. */
:root {
  color-scheme: light dark; --page: #f4f1e8; --panel: #fff; --soft: #ece8dc; --ink: #14201b; --second: #4a574f; --edge: #7c877f; --bar: #143d31;
  --on-bar: #fff; --bar-second: #c9dad2; --felt: #1f5c49; --strip: #174a3a; --on-felt: #fff; --plate: #e6efe9; --plate-ink: #14201b; --gold: #ffd84d;
  --gold-ink: #14201b; --vul: #b3151f; --not-vul: #1b7443; --blue: #0b57a4; --on-blue: #fff; --note: #ffe7b0; --note-ink: #3d2a00; --good: #0f6b3a;
  --bad: #a8001c; --own: #fff3c4; --diamond: #953a00; --club: #005c2b; --text-diamond: #953a00; --text-club: #005c2b; --wait: #a86400; --off: #5b645f;
  --face: #fffdf7; --black: #12181c; --red: #a8001c; --shut: #d9d5c8; --shut-red: #6f0012; --lifted: #fff4c6; --text-red: #a8001c; --felt-red: #ffb3b3;
  --pass: #10603a; --double: #a8121c; --redouble: #12449c; --line: #d9d4c6;
}
@media (prefers-color-scheme: dark) {
  :root:not(.light) {
    --page: #0d1311; --panel: #17201c; --soft: #202b26; --ink: #e9ede9; --second: #a8b5ae; --edge: #64736b; --bar: #0a201a; --on-bar: #e9ede9;
    --bar-second: #a8c0b5; --felt: #12352b; --strip: #0c271f; --on-felt: #e9ede9; --plate: #21302a; --plate-ink: #e9ede9; --vul: #c4262f; --not-vul: #1f7a48;
    --blue: #8cc2ff; --on-blue: #071a2e; --note: #3d2f0a; --note-ink: #ffe7b0; --good: #7fd8a0; --bad: #ff8d8d; --own: #3a3312; --diamond: #7d2f00;
    --club: #00522a; --text-diamond: #ffb067; --text-club: #7fd8a0; --wait: #ffb84d; --off: #97a39c; --face: #e9e4d6; --red: #980019; --shut: #cdc8ba;
    --text-red: #ff8d8d; --line: #33403a; --plate-edge: var(--edge);
  }
}
:root.light { color-scheme: light; }
:root.dark {
  color-scheme: dark; --page: #0d1311; --panel: #17201c; --soft: #202b26; --ink: #e9ede9; --second: #a8b5ae; --edge: #64736b; --bar: #0a201a;
  --on-bar: #e9ede9; --bar-second: #a8c0b5; --felt: #12352b; --strip: #0c271f; --on-felt: #e9ede9; --plate: #21302a; --plate-ink: #e9ede9; --vul: #c4262f;
  --not-vul: #1f7a48; --blue: #8cc2ff; --on-blue: #071a2e; --note: #3d2f0a; --note-ink: #ffe7b0; --good: #7fd8a0; --bad: #ff8d8d; --own: #3a3312;
  --diamond: #7d2f00; --club: #00522a; --text-diamond: #ffb067; --text-club: #7fd8a0; --wait: #ffb84d; --off: #97a39c; --face: #e9e4d6; --red: #980019;
  --shut: #cdc8ba; --text-red: #ff8d8d; --line: #33403a; --plate-edge: var(--edge);
}
* { box-sizing: border-box; }
[hidden] { display: none !important; }
body {
  margin: 0; min-height: 100vh; min-height: 100dvh; color: var(--ink); background: var(--page); font-size: 1rem; line-height: 1.35;
  font-family: -apple-system, "Segoe UI", Roboto, "Helvetica Neue", "Liberation Sans", Arial, system-ui, sans-serif; font-variant-numeric: tabular-nums;
}
p { margin: .35rem 0; }
h1 { font-size: 1.125rem; margin: 0; line-height: 1.2; overflow: hidden; text-overflow: ellipsis; white-space: nowrap; }
.login h1 { overflow: visible; white-space: normal; }
h2 { font-size: 1.0625rem; margin: .8rem 0 .3rem; }
.suit { font-family: "Segoe UI Symbol", "Apple Symbols", "Noto Sans Symbols2", "DejaVu Sans", sans-serif; font-variant-emoji: text; }
.red { color: var(--text-red); }
/* Read out, and not seen. */
#heard, .login #bar, :is(.director, .goes-on, .final) #status:not(.lost), #deal-file, #tables thead, .hand > h2 {
  position: absolute; width: 1px; height: 1px; min-height: 0; margin: 0; padding: 0; border: 0; overflow: hidden; clip-path: inset(50%);
}

/* What can be pressed. */
button, input, textarea, select { font: inherit; color: inherit; }
button {
  min-height: 2.75rem; min-width: 2.75rem; padding: .2rem .75rem; font-weight: bold; background: var(--panel); border: 1px solid var(--edge);
  border-radius: .5rem; cursor: pointer; touch-action: manipulation;
}
button:disabled { color: var(--off); background: var(--soft); border-style: dashed; font-weight: normal; cursor: default; }
button:focus-visible, input:focus-visible, textarea:focus-visible, select:focus-visible, summary:focus-visible { outline: 3px solid var(--blue); outline-offset: 2px; z-index: 2; }
.send { color: var(--on-blue); background: var(--blue); border-color: var(--blue); }
/* Signs before words, in the colour of the words. */
:is(#bell, #menu, #last, #claim-open, #claim-button, #confirm.send, #agree, #refuse, #call-director, #my-boards, #between-boards, #menu-boards, [hidden] + #confirm, #print, #onward) {
  display: inline-flex; justify-content: center; align-items: center; gap: .4rem;
}
:is(#bell, #menu, #last, #claim-open, #claim-button, #confirm.send, #agree, #refuse, #call-director, #my-boards, #between-boards, #menu-boards, [hidden] + #confirm, #print)::before, #onward::after,
#desk > .note::before, .disks li:not(.is-lost) .large::before {
  content: ""; flex: none; width: 1.25rem; height: 1.25rem; background: currentcolor; forced-color-adjust: none; -webkit-mask: var(--sign) center / contain no-repeat; mask: var(--sign) center / contain no-repeat;
}
#bell, #call-director, #desk > .note {
  --sign: url("data:image/svg+xml,%3Csvg xmlns='http://www.w3.org/2000/svg' viewBox='0 0 20 20' fill='none' stroke='%23000' stroke-width='1.6' stroke-linecap='round' stroke-linejoin='round'%3E%3Cpath d='M10 2v1.5M4 14.5h12l-1.6-2.4V8.4a4.4 4.4 0 0 0-8.8 0v3.7zM8.4 17.2a1.7 1.7 0 0 0 3.2 0'/%3E%3C/svg%3E");
}
#menu { --sign: url("data:image/svg+xml,%3Csvg xmlns='http://www.w3.org/2000/svg' viewBox='0 0 20 20' fill='none' stroke='%23000' stroke-width='1.8' stroke-linecap='round'%3E%3Cpath d='M3 5h14M3 10h14M3 15h14'/%3E%3C/svg%3E"); }
#last { --sign: url("data:image/svg+xml,%3Csvg xmlns='http://www.w3.org/2000/svg' viewBox='0 0 20 20' fill='none' stroke='%23000' stroke-width='1.8' stroke-linejoin='round'%3E%3Cpath d='M7 3.5h9v13H7zM3.5 5v10'/%3E%3C/svg%3E"); }
#claim-open, #claim-button { --sign: url("data:image/svg+xml,%3Csvg xmlns='http://www.w3.org/2000/svg' viewBox='0 0 20 20' fill='none' stroke='%23000' stroke-width='1.7' stroke-linejoin='round'%3E%3Cpath d='M4.5 18V2.5H16L13 6.7l3 4.3H4.5'/%3E%3C/svg%3E"); }
#confirm.send, #agree, .disks .large { --sign: url("data:image/svg+xml,%3Csvg xmlns='http://www.w3.org/2000/svg' viewBox='0 0 20 20' fill='none' stroke='%23000' stroke-width='2' stroke-linecap='round' stroke-linejoin='round'%3E%3Cpath d='M3.5 10.5l4.5 4.5 8.5-10'/%3E%3C/svg%3E"); }
#my-boards, #between-boards, #menu-boards, [hidden] + #confirm { --sign: url("data:image/svg+xml,%3Csvg xmlns='http://www.w3.org/2000/svg' viewBox='0 0 20 20' fill='none' stroke='%23000' stroke-width='1.7' stroke-linecap='round'%3E%3Cpath d='M7.5 5H17M7.5 10H17M7.5 15H17M3.5 5h.1M3.5 10h.1M3.5 15h.1'/%3E%3C/svg%3E"); }
#print { --sign: url("data:image/svg+xml,%3Csvg xmlns='http://www.w3.org/2000/svg' viewBox='0 0 20 20' fill='none' stroke='%23000' stroke-width='1.6' stroke-linejoin='round'%3E%3Cpath d='M6 7V2.5h8V7M6 14H3V7h14v7h-3M6 11.5h8v6H6z'/%3E%3C/svg%3E"); }
#onward { --sign: url("data:image/svg+xml,%3Csvg xmlns='http://www.w3.org/2000/svg' viewBox='0 0 20 20' fill='none' stroke='%23000' stroke-width='2' stroke-linecap='round' stroke-linejoin='round'%3E%3Cpath d='M7.5 4l6 6-6 6'/%3E%3C/svg%3E"); }
#refuse { --sign: url("data:image/svg+xml,%3Csvg xmlns='http://www.w3.org/2000/svg' viewBox='0 0 20 20' fill='none' stroke='%23000' stroke-width='2' stroke-linecap='round'%3E%3Cpath d='M4 4l12 12M16 4L4 16'/%3E%3C/svg%3E"); }
input, textarea, select { padding: .4rem; background: var(--panel); border: 1px solid var(--edge); border-radius: .5rem; max-width: 100%; }
input { min-height: 2.75rem; width: 12rem; }
select { min-height: 2.75rem; }
input[type=checkbox], input[type=radio] { flex: none; width: 1.4rem; min-height: 1.4rem; accent-color: var(--blue); }
textarea { width: 100%; min-height: 8rem; font-family: ui-monospace, monospace; }
label { display: inline-flex; align-items: center; gap: .4rem; min-height: 2.75rem; }

/* The bar, and what is said. */
#bar {
  grid-area: bar; display: flex; flex-wrap: wrap; align-items: center; gap: .6rem; min-height: 3.25rem; color: var(--on-bar); background: var(--bar);
  padding: max(.25rem, env(safe-area-inset-top)) .75rem .25rem;
}
#bar button { padding: .2rem .6rem; color: inherit; background: transparent; border-color: var(--bar-second); }
#heads { flex: 1 1 4rem; min-width: 4rem; }
#below { margin: 0; font-size: .875rem; color: var(--bar-second); white-space: nowrap; overflow: hidden; text-overflow: ellipsis; }
#below:empty, #notice:empty, #status:empty { display: none; }
#notes { grid-area: note; }
#notice { margin: 0; padding: .5rem .75rem; color: var(--note-ink); background: var(--note); font-weight: bold; }
#desk p { margin: 0; overflow-wrap: anywhere; }
.at-table #desk > :not(:last-child) { display: none; }
#desk > * { padding: .35rem .75rem; color: var(--note-ink); background: var(--note); border-top: 1px solid var(--edge); }
.at-table #desk > * { padding: .15rem .75rem; font-size: .9375rem; }
#desk > .note { display: flex; align-items: center; gap: .6rem; }
body:not(.at-table) #desk > .note { max-width: 82rem; margin: .75rem auto 0; padding: .6rem 1rem; border: 0; border-radius: .75rem; }
body:not(.at-table) #desk { padding: 0 .75rem; }
.director #desk > .note { flex-wrap: wrap; }
.director #desk .called { color: var(--gold-ink); background: var(--gold); }
.director #desk .note p { flex: 1 1 14rem; }
#desk button { color: inherit; background: transparent; border-color: currentcolor; }
#desk .send { color: #fff; background: var(--gold-ink); border-color: var(--gold-ink); }
#clock { display: grid; justify-items: center; margin: 0; line-height: 1.1; font-size: .75rem; color: var(--bar-second); }
#clock b { font-size: 1.25rem; color: var(--on-bar); font-variant-numeric: tabular-nums; }
#clock.over b { color: var(--felt-red); }
#clock[hidden] { display: none; }
.reasons { display: grid; grid-template-columns: 1fr 1fr; gap: .6rem; margin: .6rem 0; }
.reasons > :first-child { grid-column: 1 / -1; }
#status {
  grid-area: say; justify-self: center; margin: .25rem .5rem; padding: .2rem 1rem; max-width: calc(100% - 1rem); border-radius: 1rem; text-align: center;
  background: var(--soft);
}
#chip {
  display: grid; place-items: center; width: 2.5rem; height: 2.5rem; flex: none; position: relative; border: .55rem solid var(--not-vul); border-radius: .25rem;
  box-shadow: 0 0 0 1px rgb(255 255 255 / 60%); color: #12181c; background: #fff; font-size: 1.0625rem; font-weight: bold;
}
#chip.vul-we { border-top-color: var(--vul); border-bottom-color: var(--vul); }
#chip.vul-they { border-left-color: var(--vul); border-right-color: var(--vul); }
#chip::after { content: ""; position: absolute; width: .4rem; height: .4rem; border-radius: 50%; background: #fff; }
#chip.deals-bottom::after { bottom: -.5rem; }
#chip.deals-top::after { top: -.5rem; }
#chip.deals-left::after { left: -.5rem; }
#chip.deals-right::after { right: -.5rem; }

/* Pages that scroll: to log in, between boards, results, and the director's. */
body:not(.at-table) main { max-width: 64rem; margin: 0 auto; padding: .75rem; }
body:not(.at-table) { display: flex; flex-direction: column; }
body:not(.at-table) main { order: 2; width: 100%; }
body:not(.at-table) #status { order: 1; align-self: center; margin: .75rem .75rem 0; font-weight: bold; }
/* That no answer comes moves nothing on the director's page. */
body.director:not(.at-table) #status.lost { position: fixed; inset: auto 0 .75rem; z-index: 5; width: fit-content; margin: 0 auto; color: var(--note-ink); background: var(--note); }
.panel { max-width: 40rem; margin: 0 auto .75rem; padding: .75rem 1rem; background: var(--panel); border: 1px solid var(--line); border-radius: .75rem; }
.panel h2:first-child { margin-top: 0; }
.large { font-size: 1.875rem; font-weight: bold; line-height: 1.2; margin: .2rem 0; }
.second { color: var(--second); }
.login { background: var(--felt); }
.login::before {
  content: "\2660\fe0e \2665\fe0e\A\2666\fe0e \2663\fe0e"; white-space: pre; position: fixed; inset: 0; display: grid; place-content: center; color: rgb(255 255 255 / 7%);
  font: 14rem/1.7 "Segoe UI Symbol", "Apple Symbols", "Noto Sans Symbols2", "DejaVu Sans", sans-serif; overflow: hidden; pointer-events: none;
}
body.login main { max-width: 28rem; margin: auto; }
.login .panel { margin: 0; padding: 1.25rem; border: 0; border-radius: 1rem; box-shadow: 0 6px 24px rgb(0 0 0 / 35%); position: relative; }
.login .panel input { width: 100%; font-size: 1.75rem; letter-spacing: .06em; border-width: 2px; }
.login .panel input[aria-invalid=true] { border-color: var(--bad); }
.login .panel button { width: 100%; margin-top: .25rem; }
.login .panel .send { min-height: 3.25rem; font-size: 1.125rem; }
.login .panel label { display: block; min-height: 0; margin-bottom: .5rem; font-weight: bold; }
.login .panel .large { margin: 0; font-size: 1.625rem; }
.login-head { margin-bottom: 1rem; }
.login-head p { margin: 0 0 .35rem; }
.login .login-head .large:not(:last-child) { margin-bottom: .4rem; }
.login .login-head .second:first-child { font-size: 1rem; }
.login .second { font-size: .875rem; }
.login-more { margin-top: 1rem; }
.login a.send { margin-top: .75rem; display: grid; place-items: center; min-height: 3.25rem; border-radius: .5rem; font-size: 1.125rem; font-weight: bold; text-decoration: none; }
#colours::before { content: "Aa"; margin-right: .6rem; }
#wrong { margin: .4rem 0; padding-left: 1.5rem; color: var(--bad); font-weight: bold; }
#wrong:not(:empty)::before { content: "\2715"; float: left; margin-left: -1.4rem; }
#wrong:empty { display: none; }
.suits { letter-spacing: .2em; }
.four .two .diamond { color: var(--text-red); }
.four .two .club { color: inherit; }
.names { list-style: none; margin: .3rem 0; padding: 0; }
.names li { display: flex; gap: .5rem; align-items: center; margin: .25rem 0; overflow-wrap: anywhere; }
.mark { flex: none; min-width: 1.6rem; padding: 0 .3rem; border-radius: .3rem; text-align: center; font-weight: bold; background: var(--soft); }
table { border-collapse: collapse; background: var(--panel); }
th, td { border: 1px solid var(--edge); padding: .2rem .6rem; text-align: center; }
tr.own :is(td, th) { background: var(--own); font-weight: bold; }
pre { background: var(--panel); padding: .5rem; overflow-x: auto; font-size: .8rem; }
.row { display: flex; flex-wrap: wrap; gap: .4rem; align-items: center; margin: .4rem 0; }
.field { display: inline-flex; flex-wrap: wrap; gap: .3rem; align-items: center; }
.field input[type=number] { width: 5.5rem; }
details { margin: .6rem 0; border-top: 1px solid var(--edge); padding-top: .4rem; }
/* The results. */
.final #main { max-width: 72rem; }
.sides { display: grid; grid-template-columns: repeat(auto-fit, minmax(min(100%, 24rem), 1fr)); gap: 0 1rem; }
.sides .panel { width: 100%; max-width: none; }
.sides table { width: 100%; }
.sides th, .sides td { border: 0; border-bottom: 1px solid var(--line); padding: .35rem .3rem; text-align: right; }
.sides th { font-size: .8125rem; }
.sides td:first-child { font-weight: bold; }
.who, .sides .who { text-align: left; overflow-wrap: anywhere; }
.banner {
  display: grid; grid-template-columns: 1fr auto; align-items: baseline; padding: .5rem 1rem; margin-bottom: .75rem; color: var(--on-felt);
  background: var(--felt); border-radius: .75rem;
}
.banner .large { font-size: 1.375rem; }
.final :is(#clock, #bell, #all-results:not([open])) { display: none; }
.ways { display: grid; grid-template-columns: repeat(3, 1fr); gap: .6rem; }
.banner p { margin: 0; font-size: .875rem; }
.banner p:nth-child(even) { text-align: right; }
.sheet fieldset { padding: 0 .5rem .4rem; margin: .4rem 0; border: 1px solid var(--line); border-radius: .5rem; }
.sheet fieldset label { display: flex; }
#options { display: flex; flex-wrap: wrap; justify-content: space-between; align-items: center; }
#options > h2 { margin: 0; }
#options > fieldset { flex-basis: 100%; min-width: 0; }
legend { font-weight: bold; padding: 0 .3rem; }
#chosen { flex: 1; color: var(--on-blue); background: var(--blue); border-color: var(--blue); }
/* The director's page: parts, of which one is in sight. */
#tabs { flex-basis: 100%; display: flex; gap: .25rem; margin: 0 -.4rem -.25rem; overflow-x: auto; }
#tabs[hidden], .director [hidden] { display: none !important; }
#bar #tabs button { flex: none; padding: .2rem .75rem; font-weight: normal; border: 0; border-bottom: 3px solid transparent; border-radius: 0; }
#bar #tabs [aria-pressed=true] { font-weight: bold; border-bottom-color: var(--gold); }
.count { padding: 0 .45rem; border-radius: 1rem; font-size: .875rem; font-weight: bold; color: var(--gold-ink); background: var(--gold); }
body.director main { max-width: 84rem; }
.director .panel { width: 100%; max-width: none; }
.director h2 { font-size: 1.0625rem; margin: 0 0 .4rem; }
#clock-runs b { margin-right: auto; font-size: 2.25rem; line-height: 1; }
#clock-sets input { width: 4rem; }
#round p, #telling .row { margin: .2rem 0; }
.disks { display: grid; grid-template-columns: repeat(auto-fit, minmax(min(100%, 14rem), 1fr)); gap: .6rem; margin: .5rem 0; padding: 0; list-style: none; }
.disks li { display: grid; align-content: start; padding: .5rem .75rem; border: 1px solid var(--line); border-left: .5rem solid var(--good); border-radius: .75rem; overflow-wrap: anywhere; font-size: .875rem; }
.disks b { font-size: 1rem; }
.disks .large { display: flex; align-items: center; gap: .4rem; font-size: 1.375rem; }
.disks li:not(.is-lost) .large::before { background: var(--good); }
.disks .is-lost { border-color: var(--vul); }
.disks .is-lost .large::before { content: "\2715\a0"; color: var(--bad); }
#disks ol { margin: .2rem 0; padding-left: 1.3rem; }
.question:empty { display: none; }
.question > p:last-of-type:not(:only-of-type) { padding: 0; font-weight: normal; background: none; }
#tell-text { flex: 1; width: auto; min-width: 0; }
#dealing { padding: 0; border: 0; background: none; }
#dealing > h2 { position: absolute; width: 1px; height: 1px; overflow: hidden; clip-path: inset(50%); }
#dealt { display: grid; grid-template-columns: repeat(auto-fill, minmax(4rem, 1fr)); gap: .4rem; margin: .4rem 0; padding: 0; list-style: none; }
#dealt li { display: grid; justify-items: center; padding: .15rem; border: 1px dashed var(--edge); border-radius: .5rem; font-size: .875rem; }
#dealt b { font-size: 1.0625rem; }
#dealt .dealt { color: #fff; background: var(--not-vul); border-style: solid; }
#dealt .refused { color: var(--note-ink); background: var(--note); border: 2px solid var(--vul); }
#dealt-counts { display: flex; flex-wrap: wrap; gap: .2rem 1rem; font-size: .875rem; }
#dealing .subject { margin-bottom: .75rem; padding: .75rem 1rem; background: var(--panel); border: 1px solid var(--line); border-radius: .75rem; }
#dealing h3 { margin: 0 0 .4rem; font-size: 1.0625rem; }
#choose-file { padding: .2rem .9rem; font-weight: bold; border: 1px solid var(--edge); border-radius: .5rem; cursor: pointer; }
#deal-file:focus-visible + .row #choose-file { outline: 3px solid var(--blue); outline-offset: 2px; }
#file-has { font-size: .875rem; overflow-wrap: anywhere; }
#deal, #shuffle { width: 100%; min-height: 3.25rem; margin-top: .4rem; }
#on-rulings { display: grid; grid-template: "c" auto "h" auto "r" auto "p" auto "s" auto / minmax(0, 1fr); gap: 0 .75rem; align-items: start; }
#ruling details { margin: 0; padding: 0; border-color: var(--line); }
#ruling details[open] { padding-bottom: 1rem; }
#ruling summary { min-height: 2.75rem; padding: .6rem 0; }
.director .send { width: auto; }
#end-round { width: 100%; min-height: 3.25rem; }
.director #choosing { display: flex; flex-wrap: wrap; gap: .5rem .75rem; align-items: center; padding: .5rem .75rem; }
#choosing p { margin: 0; }
#choosing .field { flex-wrap: nowrap; }
#plays { display: grid; order: 1; flex: 1 1 100%; grid-template-columns: repeat(3, minmax(0, 1fr)); gap: .4rem; }
.tile { padding: .2rem .3rem; font-weight: normal; overflow-wrap: anywhere; }
.tile b { font-size: 1.125rem; }
.tile .contract { font-size: 1rem; }
.tile > span { display: block; font-size: .875rem; line-height: 1.2; }
:is(.tile, .per button)[aria-pressed=true] { color: var(--page); background: var(--ink); }
.tile[aria-pressed=true] .suit { color: inherit; }
#opened-close { margin-left: auto; }
#opened h2::first-letter { text-transform: uppercase; }
.steps .large { min-width: 2.5rem; margin: 0; text-align: center; }
.steps button { width: 3.25rem; min-height: 3.25rem; font-size: 1.5rem; line-height: 1; }
#back-to { flex: 1 1 8rem; margin: 0 0 0 .4rem; }
.action, #opened-back { width: 100%; min-height: 3.25rem; margin-top: .5rem; font-size: 1.0625rem; }
#opened-back:enabled { color: var(--on-blue); background: var(--blue); border-color: var(--blue); }
/* Of the parts that are open the last has the blue button. */
#ruling details:has(~ details[open]) :is(.send, #opened-back):enabled { color: inherit; background: var(--panel); border-color: var(--edge); }
.director .action.send { width: 100%; }
.per { display: grid; grid-template-columns: 2.5rem repeat(3, minmax(0, 1fr)); gap: .35rem; align-items: center; margin-bottom: .35rem; }
.per button { padding: .2rem; font-size: .9375rem; }
#ruling .field label { position: absolute; width: 1px; min-height: 0; height: 1px; overflow: hidden; clip-path: inset(50%); }
.part td.struck { outline: 2px dashed var(--bad); outline-offset: -2px; text-decoration: line-through; }
.director #tables { display: block; background: none; }
.director #tables tbody { display: grid; grid-template-columns: repeat(auto-fill, minmax(min(100%, 18rem), 1fr)); gap: .6rem; }
.director #tables tr {
  display: grid; grid-template: "n b s" auto "w w w" auto "p p p" auto "q q q" auto "m m o" 1fr / auto 1fr auto; gap: .1rem .75rem; align-items: baseline;
  align-content: start; padding: .5rem .75rem; background: var(--panel); border: 1px solid var(--line); border-left: .5rem solid var(--edge);
  border-radius: .75rem;
}
.director #tables td { border: 0; padding: 0; text-align: left; overflow-wrap: anywhere; background: none; }
.director #tables td:nth-child(1) { grid-area: n; font-size: 1.5rem; font-weight: bold; }
.director #tables td:nth-child(2) { grid-area: p; }
.director #tables td:nth-child(3) { grid-area: q; }
.director #tables td:nth-child(2), .director #tables td:nth-child(3) { color: var(--second); font-size: .875rem; }
.director #tables td:nth-child(4) { grid-area: b; font-weight: bold; }
.director #tables td:nth-child(5) { grid-area: w; }
.director #tables td:nth-child(6) { grid-area: m; align-self: center; font-size: .875rem; color: var(--second); }
.director #tables td:nth-child(7) {
  grid-area: s; padding: .05rem .6rem; border-radius: 1rem; font-size: .875rem; font-weight: bold; background: var(--soft); justify-self: end;
  white-space: nowrap;
}
.director #tables td:nth-child(8) { grid-area: o; align-self: end; }
.marks { display: inline-flex; gap: .2rem; margin-right: .6rem; }
.marks i { width: 1.5rem; height: .55rem; border: 1px solid var(--good); border-radius: .2rem; }
.marks .all { background: var(--good); }
.marks .half { background: linear-gradient(90deg, var(--good) 50%, transparent 50%); }
.director #tables .done { border-left-color: var(--good); }
.director #tables .done td:nth-child(7) { color: #fff; background: var(--not-vul); }
.director #tables .waits { border-left-color: var(--edge); }
.director #tables .slow { border-color: var(--wait); }
.director #tables .slow td:nth-child(7) { color: var(--gold-ink); background: var(--gold); }
.director #tables .slow td:nth-child(6) { color: var(--ink); font-weight: bold; }
.director #tables .called { border-color: var(--vul); box-shadow: 0 0 0 2px var(--vul); }
.director #tables .called td:nth-child(7) { color: #fff; background: var(--vul); }
.director #tables .called td:nth-child(7)::before { content: "!\a0"; }
.director #tables .done td:nth-child(7)::before { content: "\2713\a0"; }
#aside { margin-top: .75rem; }
@media (max-width: 59.99em) { #aside #ranking { display: none; } }
@media (min-width: 40em) and (max-width: 59.99em) { #aside { display: grid; grid-template-columns: 1fr 1fr; gap: 0 .75rem; align-items: start; } }
@media (max-width: 39.99em) {
  :is(.sides, #rankings) :is(th, td):nth-child(4):not(:last-child) { display: none; }
  #tabs { justify-content: space-between; }
  #bar #tabs button { padding: .2rem .3rem; font-size: .9375rem; }
  .director #tables .called { order: -2; }
  .director #tables .slow { order: -1; }
  .director #tables .done { order: 1; }
}
@media (min-width: 60em) {
  #on-tables { display: grid; grid-template-columns: minmax(0, 1fr) 19rem; gap: .75rem; align-items: start; }
  #aside { margin: 0; }
  #aside .panel { padding: .6rem .75rem; margin-bottom: .6rem; }
  #aside #rankings :is(th, td):nth-child(4):not(:last-child) { display: none; }
  #aside #rankings { max-height: max(12rem, 100dvh - 36rem); overflow: auto; }
  #aside :is(#rank, .small, thead, tr:nth-child(n+4)) { display: none; }
  #aside .who { width: 100%; max-width: 0; overflow: hidden; text-overflow: ellipsis; white-space: nowrap; }
  #aside wbr { display: none; }
  #aside #rankings h2 { margin: .3rem 0 0; font-size: .875rem; font-weight: normal; color: var(--second); }
  #dealing { display: grid; grid-template: "a s" auto "a f" auto "u f" 1fr / 1fr 1fr; gap: 0 .75rem; align-items: start; }
  #dealing .all-boards { grid-area: a; }
  #dealing .subject:has(#shuffle) { grid-area: s; }
  #dealing .subject:has(#deal-file) { grid-area: f; }
  #dealing .subject:has(#undeal) { grid-area: u; }
  #on-evening { display: grid; grid-template: "k p" auto "k s" 1fr "l l" auto / 1fr 1fr; gap: 0 .75rem; align-items: start; }
  #keeping { grid-area: k; }
  #seeing { grid-area: s; }
  #publishing { grid-area: p; }
  #on-evening:has(#results:not(:empty)) { grid-template: "k s" auto "p p" auto "l l" auto / 1fr 1fr; }
  #lines { grid-area: l; }
  #on-rulings { grid-template: "c c" auto "h r" auto "p r" auto "s r" 1fr / minmax(0, 1fr) 26rem; }
  #on-standings #rankings { display: grid; grid-template: auto auto auto / 1fr 1fr; gap: 0 1.5rem; align-items: start; }
  #on-standings #rankings > p { grid-column: 1 / -1; }
  #on-standings #rankings > :nth-child(n+4) { grid-column: 2; }
  #on-standings #rankings > :nth-child(2), #on-standings #rankings > :nth-child(4) { grid-row: 2; }
  #on-standings #rankings > :nth-child(3), #on-standings #rankings > :nth-child(5) { grid-row: 3; }
}
@media (min-width: 80em) { #on-rulings { grid-template: "c c c" auto "h p r" auto "s s r" 1fr / minmax(0, 5fr) minmax(0, 4fr) 26rem; } }
@media (min-width: 40em) {
  #plays { order: 0; flex: 1 1 24rem; }
  .tile > span { display: inline; }
}
#opened { display: contents; }
#opened .hands { grid-area: h; }
#opened .play { grid-area: p; }
#opened .play h2 ~ h2 { margin-top: .75rem; }
#opened .part { display: block; }
#choosing { grid-area: c; }
#ruling { grid-area: r; }
#standing { grid-area: s; }
#rankings table { width: 100%; }
#rankings th, #rankings td { border: 0; border-bottom: 1px solid var(--line); padding: .25rem .2rem; text-align: right; font-variant-numeric: tabular-nums; }
#rankings th { font-size: .8125rem; }
#rankings .who { text-align: left; }
#rankings h2 { margin: .6rem 0 .2rem; font-size: 1rem; }
#ruled { margin: 0; padding-left: 1.2rem; }
#ruled li { margin: .2rem 0; }
h3 { font-size: 1rem; margin: .6rem 0 .2rem; }
#others:empty { display: none; }
summary { cursor: pointer; min-height: 2.2rem; font-weight: bold; }
.tables td, .tables th { padding: .2rem .35rem; }
#told { position: sticky; top: 0; z-index: 1; color: var(--note-ink); background: var(--note); padding: .4rem .6rem; border-radius: .5rem; }
#told:empty, #results:empty, #replies:empty { display: none; }

/* The table: one grid, the player at the bottom. First what an upright telephone has, and all. */
.at-table {
  --tw: 3.125rem; --th: 4.25rem; --cw: calc((100vw - 3.125rem) / 7); --fw: var(--cw); --ch: clamp(3.25rem, 8.65dvh, 4.6rem); display: grid;
  grid-template: "bar" auto "strip" auto "side" auto "stage" 1fr "note" auto "say" auto "hand" auto "dock" auto / minmax(0, 1fr); background: var(--felt);
}
.at-table main { display: contents; }
/* What is told stands below the felt, which gives the room: no hand moves for it. */
.at-table #notes > :not(:empty) { margin: 0 .5rem .2rem; border-radius: .5rem; overflow: hidden; }
.at-table #desk > .note { align-items: safe center; }
.at-table #desk > * { border-top: 0; }
.at-table #status { color: var(--plate-ink); background: var(--plate); }
.at-table #status.turn { color: var(--gold-ink); background: var(--gold); font-weight: bold; }
#strip {
  grid-area: strip; display: flex; align-items: center; gap: .5rem; min-height: 2.125rem; padding: .1rem .75rem; color: var(--on-felt);
  background: var(--strip); position: relative;
}
#strip .red { color: var(--felt-red); }
.four #strip .diamond { color: #ffc48a; }
.four #strip .club { color: #a8e6bd; }
#strip .suit { font-weight: normal; }
#strip summary > span:last-child { font-size: .875rem; white-space: nowrap; }
.contract { font-size: 1.125rem; font-weight: bold; }
#calls { border: 0; margin: 0; padding: 0; flex: 1; }
#calls summary { min-height: 2rem; list-style: none; font-weight: normal; display: flex; gap: .4rem; align-items: center; }
#calls summary::after { content: "\25be"; color: var(--bar-second); }
#calls[open] > div {
  position: absolute; inset: 100% .4rem auto; z-index: 5; padding: .5rem; color: var(--ink); background: var(--panel); border: 1px solid var(--edge);
  border-radius: .75rem;
}
#calls div .red { color: var(--text-red); }
.four #calls td .diamond { color: var(--text-diamond); }
.four #calls td .club { color: var(--text-club); }
.tally { display: flex; gap: 2px; align-items: center; }
.tally i { width: .35rem; height: .35rem; border-radius: 50%; background: var(--bar-second); opacity: .7; }
.tally .ours { width: .4rem; height: .85rem; border-radius: 1px; background: #fff; opacity: 1; }
.tally .theirs { width: .85rem; height: .4rem; border-radius: 1px; background: var(--felt-red); opacity: 1; }
.score { font-weight: bold; white-space: nowrap; }
#side { display: none; grid-area: side; min-width: 0; color: var(--ink); background: var(--panel); }
#side h2 { margin: 0 0 .2rem; font-size: .875rem; font-weight: normal; color: var(--second); }
.side-last p { display: grid; grid-template-columns: repeat(4, auto); justify-content: space-between; margin: 0; }
.side-last .won { font-weight: bold; }
.side-round p { margin: .3rem 0 0; font-size: .875rem; }
#stage {
  grid-area: stage; display: grid; grid-template: auto minmax(0, 1fr) / minmax(0, 1fr) auto minmax(0, 1fr); grid-template-areas: "top top top" "left mid right";
  gap: .4rem; align-items: center; padding: .4rem .5rem; min-height: 0; min-width: 0;
}
.at-top { grid-area: top; min-width: 0; }
.at-left { grid-area: left; min-width: 0; }
.at-right { grid-area: right; min-width: 0; }
.plate {
  display: flex; justify-content: center; align-items: center; gap: .15rem .4rem; width: fit-content; max-width: 100%; padding: .2rem .5rem .2rem .2rem;
  color: var(--plate-ink); background: var(--plate); border-radius: 1rem; box-shadow: inset 0 0 0 1px var(--plate-edge, transparent); text-align: center;
}
.plate span { min-width: 0; overflow-wrap: break-word; }
.plate.turn { color: var(--gold-ink); background: var(--gold); }
.plate b { display: inline-grid; place-items: center; width: 1.6rem; height: 1.6rem; border-radius: 50%; color: #fff; background: var(--not-vul); flex: none; }
.plate b.vul { background: var(--vul); }
.plate em { flex: none; padding: 0 .25rem; border: 1px solid currentcolor; border-radius: .25rem; font-style: normal; font-size: .75rem; font-weight: bold; white-space: nowrap; }
/* Declarer in full across the table, where it is wide or the name short. */
.plate em i { font-style: normal; }
.plate em i + i, .at-top em.roomy :first-child { display: none; }
.at-top em.roomy i + i { display: inline; }
.at-top > .plate { margin: 0 auto .2rem; }
.at-top > .plate span { font-size: .9375rem; line-height: 1.1; }
:is(.at-left, .at-right) > .plate { flex-direction: column; width: 100%; max-width: 6.25rem; padding: .2rem; border-radius: .5rem; font-size: .8125rem; line-height: 1.2; }
:is(.at-left, .at-right) > .plate span { display: -webkit-box; -webkit-box-orient: vertical; -webkit-line-clamp: 3; max-width: 100%; overflow: hidden; }
.at-right > .plate { margin-left: auto; }
.trick {
  --gap: .15rem; grid-area: mid; justify-self: center; display: grid; grid-template: repeat(4, calc((var(--th) - var(--gap)) / 2)) / repeat(3, var(--tw));
  grid-template-areas: ". t ." "l t r" "l b r" ". b ."; place-items: center; gap: var(--gap);
}
.trick .top { grid-area: t; }
.trick .left { grid-area: l; }
.trick .right { grid-area: r; }
.trick .bottom { grid-area: b; }
.played, .due { display: grid; place-content: center; justify-items: center; width: var(--tw); height: var(--th); border-radius: .375rem; line-height: 1; }
.played { color: var(--black); background: var(--face); border: 1px solid #8f8b7e; box-shadow: 0 1px 2px rgb(0 0 0 / 35%); font-size: 1.375rem; font-weight: bold; }
.played.red { color: var(--red); }
.played.won { outline: 3px solid var(--gold); }
.played.sent { border: 2px dashed #12181c; opacity: .75; }
.due { color: var(--gold); border: 2px solid var(--gold); font-weight: bold; }
.hand { min-width: 0; }
#hand { grid-area: hand; padding: .2rem .4rem .4rem; }
.cards { display: flex; flex-direction: column; justify-content: center; gap: .25rem; padding: .25rem; border: 2px solid transparent; border-radius: .7rem; }
.hand.on .cards { border-color: var(--gold); background: rgb(255 216 77 / 16%); }
.line, .group { display: flex; justify-content: center; min-width: 0; }
.line { gap: .375rem; }
.group { gap: .2rem; }
.more { margin-left: -.2rem; }
.card {
  display: grid; align-content: start; justify-items: start; width: var(--cw); min-width: 0; height: var(--ch); min-height: 0; padding: .15rem 0 0 .3rem;
  flex: none; color: var(--black); background: var(--face); border: 1px solid #8f8b7e; border-radius: .375rem; box-shadow: 0 1px 2px rgb(0 0 0 / 35%);
  line-height: 1; font-size: 1.375rem; font-weight: bold; text-align: left;
}
.card .suit, .played .suit { font-size: 1.25rem; font-weight: normal; line-height: 1; margin-top: .1rem; }
.card:disabled { color: var(--black); background: var(--face); border: 1px solid #8f8b7e; font-weight: bold; }
.card.red { color: var(--red); }
.hand.on .card:disabled { background: var(--shut); box-shadow: none; }
.hand.on .card.red:disabled { color: var(--shut-red); }
.four .diamond { color: var(--text-diamond); }
.four .club { color: var(--text-club); }
.four .card.diamond, .four .played.diamond { color: var(--diamond); }
.four .card.club, .four .played.club { color: var(--club); }
.four .hand.on .card.diamond:disabled { color: #5c2400; }
.four .hand.on .card.club:disabled { color: #00401f; }
.four .card[aria-pressed=true].diamond { color: #853200; }
.card[aria-pressed=true] { background: var(--lifted); transform: translateY(-.75rem); outline: 3px solid var(--gold); }
.ten { letter-spacing: -.12em; }
.void-of { display: none; }
.void { padding: 0 .5rem; border-radius: .5rem; color: var(--plate-ink); background: var(--plate); font-size: .875rem; }
.void .red { color: var(--text-red); }
/* Dummy at a side: a line or two for each suit. */
.dummy-left #stage { grid-template-columns: 9rem minmax(0, 1fr) 4rem; }
.dummy-right #stage { grid-template-columns: 4rem minmax(0, 1fr) 9rem; }
.dummy-left, .dummy-right { --tw: clamp(2rem, calc((100vw - 15.5rem) / 3), 2.875rem); --th: 3.75rem; }
.at-left, .at-right { --cw: 1.375rem; --fw: 2.1rem; --ch: clamp(2.45rem, 6dvh, 3.5rem); }
:is(.at-left, .at-right) .cards { gap: .15rem; padding: 0 calc(var(--fw) - var(--cw)) 0 0; border: 0; }
:is(.at-left, .at-right) .line { flex-direction: column; }
:is(.at-left, .at-right) .group { flex-wrap: wrap; justify-content: flex-start; gap: .1rem 0; max-width: calc(6 * var(--cw) + 1px); }
:is(.at-left, .at-right) .void-of { display: flex; }
:is(.at-left, .at-right) .card { width: var(--fw); margin-right: calc(var(--cw) - var(--fw)); padding: .1rem 0 0 .15rem; font-size: 1.125rem; }
:is(.at-left, .at-right) .card .suit { font-size: 1rem; }
:is(.dummy-left .at-left, .dummy-right .at-right) > .plate {
  display: grid; grid-template: "b n" "b e" / auto minmax(0, 1fr); gap: 0 .35rem; max-width: none; margin: 0 0 .2rem; justify-items: start; text-align: left;
}
:is(.dummy-left .at-left, .dummy-right .at-right) > .plate b { grid-area: b; }
:is(.dummy-left .at-left, .dummy-right .at-right) > .plate span { -webkit-line-clamp: 2; }

/* The auction, and what is pressed. */
.bidding #stage { position: relative; grid-template: minmax(0, 1fr) / minmax(0, 1fr); grid-template-areas: "mid"; min-height: 6.5rem; padding: 0; }
.bidding :is(.at-left, .at-right, .at-top, .board-picture) { display: none; }
.auction {
  --head: 2.4rem; --row: 1.65rem; position: absolute; inset: .3rem .5rem auto; max-height: calc(100% - .6rem); overflow-y: auto; border-radius: .6rem; color: var(--ink);
  background: var(--panel);
}
/* No row stands half under the heads. */
@supports (height: round(down, 1px, 1px)) { .auction { max-height: calc(var(--head) + round(down, 100% - .6rem - var(--head), var(--row))); } }
:where(.auction, #calls, #side) table { width: 100%; table-layout: fixed; background: none; }
:where(.auction, #calls, #side) :is(th, td) { border: 0; padding: 0 .1rem; overflow: hidden; text-overflow: ellipsis; white-space: nowrap; font-weight: normal; }
:where(.auction, #calls, #side) th { padding: .15rem .1rem; font-size: .8125rem; line-height: 1.25; color: var(--plate-ink); background: var(--plate); }
:where(.auction, #calls, #side) td { height: 1.65rem; }
.auction th { position: sticky; top: 0; height: var(--head); }
.auction th wbr { display: none; }
.auction td { height: var(--row); }
:where(.auction, #calls, #side) tbody tr:nth-child(even) { background: var(--soft); }
:where(.auction, #calls, #side) td .bid { font-weight: bold; }
td .pass { color: var(--second); }
.double, .redouble { padding: 0 .4rem; border-radius: .25rem; color: #fff; background: var(--double); font-weight: bold; }
.redouble { background: var(--redouble); }
.seat { display: inline-block; min-width: 1.4rem; border-radius: .25rem; color: #fff; background: var(--not-vul); font-weight: bold; }
.seat.vul { background: var(--vul); }
td.turn, :where(.auction, #calls, #side) th.turn { color: var(--gold-ink); background: var(--gold); }
td.turn { font-weight: bold !important; }
td.turn .red { color: var(--red); }
td.marked { outline: 2px dashed var(--blue); outline-offset: -2px; }
#dock {
  grid-area: dock; display: grid; gap: .25rem; align-content: start; padding: .4rem .5rem max(.4rem, env(safe-area-inset-bottom)); color: var(--ink);
  background: var(--page); border-top: 1px solid var(--edge); min-width: 0;
}
#dock button { padding: .1rem; min-width: 0; }
#dock.box { --bid: clamp(2.25rem, calc((100dvh - 24.2rem) / 7), 2.75rem); grid-template-columns: repeat(20, minmax(0, 1fr)); }
#dock .bid { grid-column: span 4; min-height: var(--bid); color: var(--black); background: var(--face); font-size: 1.125rem; line-height: 1; }
#dock .bid .red { color: var(--red); }
.four #dock .bid .diamond { color: var(--diamond); }
.four #dock .bid .club { color: var(--club); }
#dock .box-call { font-size: 1.125rem; }
#dock .box-call:disabled { border: 1px solid var(--line); }
#dock .bid:disabled { background: var(--soft); border: 1px solid var(--line); }
#dock .bid:disabled, #dock .bid:disabled .suit { color: var(--off); }
#call-PASS { grid-column: span 5; }
#call-X, #call-XX { grid-column: span 4; }
.box #confirm { grid-column: span 7; }
#dock #call-PASS:enabled { color: #fff; background: var(--pass); }
#dock #call-X:enabled { color: #fff; background: var(--double); }
#dock #call-XX:enabled { color: #fff; background: var(--redouble); }
#dock :is(.box-call, .bid)[aria-pressed=true] { color: var(--gold-ink); background: var(--gold); outline: 3px solid var(--blue); }
#dock #confirm :is(.bid, .suit) { min-height: 0; color: inherit; background: none; font-size: inherit; }
#dock #confirm.sending { display: inline-flex; justify-content: center; align-items: center; gap: .4rem; color: var(--ink); border-style: solid; white-space: nowrap; }
#confirm.sending::before { content: ""; flex: none; width: 1rem; height: 1rem; border: 2px solid; border-left-color: transparent; border-radius: 50%; }
@keyframes wheel { to { transform: rotate(1turn); } }
#dock.play { grid-template-columns: 4fr 3fr 3.7fr; gap: .4rem; }
#dock.play:has([hidden]) { grid-template-columns: 1fr 1fr; }
#dock.claimed { grid-template-columns: 1fr 1fr; column-gap: .6rem; color: var(--gold-ink); background: var(--gold); }
#dock.claimed p { grid-column: 1 / -1; margin: 0; line-height: 1.25; }
#dock.claimed button { min-height: 3.25rem; font-size: 1.0625rem; }
#refuse { color: #a8001c; background: #fff; border-color: #a8001c; }
#agree { color: #fff; background: #0b57a4; border-color: #0b57a4; }
#dock.claimed button:disabled { color: #5b645f; background: #ece8dc; }
.sheet {
  position: fixed; inset: auto 0 0; z-index: 6; padding: .75rem .75rem max(.75rem, env(safe-area-inset-bottom)); color: var(--ink); background: var(--panel);
  border: 0; border-radius: 1rem 1rem 0 0; max-height: calc(100dvh - 1rem); overflow-y: auto; box-shadow: 0 0 0 100vmax rgb(10 20 16 / 55%);
}
.sheet h2 { margin: 0 0 .5rem; font-size: 1.25rem; }
.numbers { display: grid; grid-template-columns: repeat(auto-fit, minmax(2.75rem, 1fr)); gap: .3rem; margin: .5rem 0 .3rem; }
.numbers button { padding: 0; }
.ends { display: grid; grid-template-columns: 1fr 1fr; gap: .5rem; }
:is(.numbers, .ends, .reasons) [aria-pressed=true] { color: var(--page); background: var(--ink); }
.says { display: flex; flex-wrap: wrap; gap: 0 .6rem; }
#claim-says { flex: 1 1 14rem; width: auto; }
.sheet > p:not(.second) { padding: .5rem .75rem; background: var(--soft); border-radius: .5rem; font-weight: bold; }
.sheet .row { justify-content: space-between; gap: .6rem; }
.sheet .row > button { min-width: 6.5rem; min-height: 3.25rem; }
.sheet .row > .send { flex: 1; }
.sheet .played, .sheet .played .suit { font-size: 1.375rem; }
.sheet .trick { --tw: 3.125rem; --th: 4.25rem; justify-content: center; justify-self: stretch; margin-bottom: .75rem; padding: .5rem; border-radius: .75rem; background: var(--felt); }
#last-close { width: 100%; min-height: 3.25rem; }
@media (max-width: 39.99em), (orientation: landscape) and (max-height: 30em) {
  #bell span, .bidding #status:not(.lost) { position: absolute; width: 1px; height: 1px; margin: 0; padding: 0; overflow: hidden; clip-path: inset(50%); }
}
/* What is told at a small table takes its room from the trick; whoever waits for the director needs no turn. */
@media (max-width: 39.99em) and (max-height: 49.99em) {
  #stage { gap: .25rem .4rem; padding: .2rem .5rem; }
  .playing #status:not(.turn) { font-size: .875rem; }
  #dock.claimed .said { font-size: .8125rem; line-height: 1.2; }
  .at-table:has(.said) #status:not(.lost) { position: absolute; width: 1px; height: 1px; margin: 0; padding: 0; overflow: hidden; clip-path: inset(50%); }
  .at-table:has(#desk:not(:empty), #notice:not(:empty)) { --th: 3.1rem; }
  .at-table:has(#desk:not(:empty), #notice:not(:empty)) :is(.at-left, .at-right) { --ch: 2.2rem; }
  .at-table:has(#desk:not(:empty), #notice:not(:empty)) :is(.at-left, .at-right) .card { padding-top: 0; font-size: 1.0625rem; }
  .at-table:has(#desk:not(:empty), #notice:not(:empty)) :is(.at-left, .at-right) .card .suit { margin: 0; font-size: .875rem; }
}
@media (max-width: 39.99em), (max-height: 30em) {
  .at-table #notice { padding: .2rem .75rem; font-size: .875rem; line-height: 1.25; }
  .at-table #desk > * { max-height: 2.5rem; overflow-y: auto; font-size: .875rem; line-height: 1.25; }
  #dock #confirm.sending { gap: .25rem; font-size: .875rem; }
  #dock #confirm.sending::before { width: .75rem; height: .75rem; }
  .at-table:has(#desk > .called) #status:not(.lost) { position: absolute; width: 1px; height: 1px; margin: 0; padding: 0; overflow: hidden; clip-path: inset(50%); }
}
@media (max-width: 39.99em), (max-height: 49.99em) { .at-table #notice:not(:empty) + #desk { display: none; } }
@media (max-width: 39.99em) and (max-height: 49.99em) {
  .at-table #desk > .note { font-size: .8125rem; }
  .at-table #desk > .note::before { content: none; }
}
@media (max-width: 39.99em) and (min-height: 50em) { .at-table #desk > * { max-height: 3.6rem; } }
@media (max-width: 39.99em) and (orientation: portrait) { .wide { display: none; } }
@media (max-width: 39.99em) and (orientation: portrait) and (min-height: 50em) {
  .at-table { --tw: min(3.6875rem, calc((100vw - 12.5rem) / 3)); --th: 5.0625rem; }
  .dummy-left, .dummy-right { --tw: clamp(2rem, calc((100vw - 15.5rem) / 3), 2.875rem); --th: 4.125rem; }
}
/* A hand in one fan: where there is room, and on short telephones in the auction. */
@media (max-width: 39.99em) and (orientation: portrait) and (max-height: 49.99em) {
  .bidding { --cw: calc((100vw - 5.2rem) / 12); --fw: 3rem; }
  .bidding #hand .line { display: contents; }
  .bidding #hand .cards { flex-direction: row; gap: 0 .2rem; padding-right: calc(.25rem + var(--fw) - var(--cw)); }
  .bidding #hand .group { gap: 0; }
  .bidding #hand .card { width: var(--fw); margin-right: calc(var(--cw) - var(--fw)); padding-left: .15rem; }
  .bidding .in-H { order: 1; }
  .bidding .in-C { order: 2; }
  .bidding .in-D { order: 3; }
}
@media (min-width: 40em), (orientation: landscape) and (max-height: 30em) {
  :is(#hand, .at-top) .line { display: contents; }
  :is(#hand, .at-top) .cards { flex-direction: row; gap: 0 .375rem; padding-right: calc(.25rem + var(--fw) - var(--cw)); }
  :is(#hand, .at-top) .group { gap: 0; }
  :is(#hand, .at-top) .card { width: var(--fw); margin-right: calc(var(--cw) - var(--fw)); font-size: 1.9375rem; }
  :is(#hand, .at-top) .card .suit, .played .suit { font-size: 2rem; }
  .played { font-size: 1.9375rem; }
  .more { margin-left: -.375rem; }
  .in-H { order: 1; }
  .in-C { order: 2; }
  .in-D { order: 3; }
}
/* Telephones that lie across. */
@media (orientation: landscape) and (max-height: 30em) {
  #tabs { margin-bottom: 0; }
  .at-table {
    --ch: 4rem; --cw: min(3rem, calc((100vw - 13rem) / 13.4)); --fw: 3.1rem; --tw: 2.75rem; --th: 3.5rem;
    grid-template: "bar bar" auto "stage strip" auto "stage dock" 1fr "note dock" auto "say dock" auto "hand dock" auto / minmax(0, 1fr) 11rem;
  }
  .at-table.bidding {
    --cw: min(3rem, calc((100vw - 27rem) / 13.4));
    grid-template: "bar bar" auto "stage dock" 1fr "note dock" auto "say dock" auto "hand dock" auto / minmax(0, 1fr) 25rem;
  }
  .at-table.dummy-left, .at-table.dummy-right { --tw: 2.5rem; --th: 3.5rem; }
  .at-table.at-table:has(#desk:not(:empty), #notice:not(:empty)) { --th: 3rem; }
  #bar { min-height: 2.75rem; padding-top: 0; padding-bottom: 0; }
  #bar > button { border-color: transparent; }
  #chip { width: 2.25rem; height: 2.25rem; }
  .at-table #status { margin: .1rem .5rem; }
  #hand { padding: .1rem .4rem .25rem; }
  :is(#hand, .at-top) .cards { padding-top: .15rem; padding-bottom: .15rem; }
  :is(#hand, .at-top) .card, .played { padding-left: .2rem; font-size: 1.375rem; }
  .played { padding: 0; }
  :is(#hand, .at-top) .card .suit, .played .suit { font-size: 1.25rem; }
  #strip { flex-wrap: wrap; align-content: center; }
  #strip .score { margin-left: auto; }
  #calls { flex-basis: 100%; }
  #stage { grid-template-columns: 11rem minmax(0, 1fr) 11rem; padding: .25rem .4rem; gap: .25rem; }
  :is(.at-left, .at-right) > .plate, .dummy-top .at-top > .plate { flex-direction: row; width: fit-content; max-width: 100%; padding: .1rem .5rem .1rem .1rem; border-radius: 1rem; font-size: .875rem; }
  :is(.at-left, .at-right) > .plate span, .dummy-top .at-top > .plate span { display: block; overflow: hidden; text-overflow: ellipsis; white-space: nowrap; }
  .plate wbr { display: none; }
  .dummy-top .at-top { display: contents; }
  .dummy-top .at-top > .plate { grid-area: left; place-self: start; margin: 0; }
  .dummy-top #dummy { grid-area: top; }
  .dummy-left #stage { grid-template-columns: clamp(9rem, 23vw, 12rem) minmax(0, 1fr) 11rem; grid-template-areas: "left top top" "left mid right"; }
  .dummy-right #stage { grid-template-columns: 11rem minmax(0, 1fr) clamp(9rem, 23vw, 12rem); grid-template-areas: "top top right" "left mid right"; }
  .at-left, .at-right { --fw: 2.1rem; --ch: 2.2rem; }
  :is(.at-left, .at-right) .card { padding-top: 0; font-size: 1.0625rem; }
  :is(.at-left, .at-right) .card .suit { margin: 0; font-size: .9375rem; }
  :is(.dummy-left .at-left, .dummy-right .at-right) > .plate { display: flex; width: 100%; margin: 0 0 .15rem; }
  :is(.dummy-left .at-left, .dummy-right .at-right) > .plate em { margin-left: auto; }
  .auction { --head: 3.4rem; }
  .auction th { vertical-align: top; white-space: normal; }
  .auction th wbr { display: inline; }
  .auction th br + span { display: -webkit-box; -webkit-box-orient: vertical; -webkit-line-clamp: 2; overflow: hidden; overflow-wrap: anywhere; }
  .playing { background: linear-gradient(to left, var(--strip) 11rem, transparent 0) var(--felt); }
  #dock { border-top: 0; }
  #dock.box { grid-template: repeat(14, minmax(0, 1fr)) / 5.75rem repeat(5, minmax(0, 1fr)); gap: 0 .25rem; align-content: stretch; padding: .15rem .4rem; border-left: 1px solid var(--line); }
  #dock.box button { grid-area: span 2 / auto; min-height: 2.25rem; margin: .125rem 0; }
  #dock.box #call-PASS { grid-area: 1 / 1 / span 4; }
  #dock.box #call-X { grid-area: 5 / 1 / span 3; }
  #dock.box #call-XX { grid-area: 8 / 1 / span 3; }
  #dock.box #confirm { grid-area: 11 / 1 / span 4; flex-direction: column; }
  #dock.play { grid-template-columns: 1fr 1fr; align-content: end; background: none; }
  #dock.play button { min-height: 3.25rem; }
  #dock.play #confirm, #dock.play:has([hidden]) #last { grid-column: 1 / -1; }
  #last, #claim-open { flex-direction: column; gap: 0; font-size: .875rem; }
  #dock.claimed { align-self: end; align-content: end; gap: .4rem; }
  #dock.claimed p { font-size: .9375rem; line-height: 1.2; }
  #dock.claimed .said { font-size: .8125rem; }
  #dock.claimed button { gap: .2rem; min-height: 3rem; font-size: .9375rem; }
  #dock.claimed button::before { width: 1rem; height: 1rem; }
  #dock.claimed #refuse[aria-pressed=true]::before { content: none; }
  .sheet { inset: auto .5rem .4rem; max-width: 46rem; max-height: calc(100dvh - .8rem); margin: 0 auto; padding: .5rem .75rem; border-radius: .75rem; }
}
/* Tablets and laptops. */
@media (min-width: 40em) and (min-height: 30.01em) {
  #stage .trick { --gap: .5rem; }
  #bar { min-height: 3.5rem; padding: .25rem 1rem; }
  #chip { width: 2.75rem; height: 2.75rem; }
  #status { font-size: 1.0625rem; }
  :is(#hand, .at-top) .card { padding-left: .45rem; }
  #stage { padding: .75rem 1rem; }
  .at-top em :first-child { display: none; }
  .at-top em i + i { display: inline; }
  :is(.at-left, .at-right) > .plate { max-width: 8rem; font-size: .9375rem; }
  .at-left, .at-right { --cw: 1.875rem; --fw: 3.25rem; --ch: 4.25rem; }
  :is(.at-left, .at-right) .card { font-size: 1.5rem; }
  :is(.at-left, .at-right) .card .suit { font-size: 1.5rem; }
  .dummy-left #stage { grid-template-columns: 13.5rem minmax(0, 1fr) 8rem; }
  .dummy-right #stage { grid-template-columns: 8rem minmax(0, 1fr) 13.5rem; }
  :is(.dummy-left .at-left, .dummy-right .at-right) > .plate { display: flex; max-width: 13rem; }
  .at-table:has(#desk > .called) #status:not(.lost) { clip-path: inset(50%); }
  .playing.at-table:has(#desk > .called) #status:not(.lost) { position: absolute; width: 1px; height: 1px; margin: 0; padding: 0; overflow: hidden; }
  .playing #desk > .called { min-height: 3.75rem; font-size: 1rem; }
  #dock { gap: .4rem; padding: .5rem 1rem max(.5rem, env(safe-area-inset-bottom)); }
  #dock.play:not(:has([hidden])) { grid-template-columns: 9.5rem 7.5rem 1fr; }
  #dock.play button { min-height: 3.25rem; }
  #dock.claimed { grid-template-columns: minmax(0, 1fr) 10rem 10rem; align-items: center; }
  #dock.claimed p { grid-column: auto; max-height: 3.25rem; overflow-y: auto; font-size: .875rem; line-height: 1.2; }
  #dock.claimed b { font-size: 1rem; }
  #dock.claimed .said { grid-area: 2 / 1 / auto / -1; max-height: none; }
  .sheet .trick { --tw: 4.5rem; --th: 6.25rem; gap: .3rem .5rem; }
  .sheet .played, .sheet .played .suit { font-size: 2rem; }
  .sheet { inset: 0; width: min(34rem, 100% - 2rem); height: fit-content; margin: auto; padding: 1.25rem; border-radius: .75rem; }
  .bidding #stage { grid-template: auto minmax(0, 1fr) / 8rem minmax(0, 1fr) 8rem; grid-template-areas: "top top top" "left mid right"; padding: .75rem 1rem; }
  .bidding :is(.at-left, .at-right, .at-top) { display: block; }
  .auction { --head: 2rem; --row: 2.6rem; grid-area: mid; position: static; align-self: center; max-height: 100%; }
  .auction th br, #side th br { display: none; }
  .auction th br + span, #side th br + span { position: absolute; width: 1px; height: 1px; overflow: hidden; clip-path: inset(50%); }
  .auction td { font-size: 1.375rem; }
  #dock .bid { font-size: 1.375rem; }
  #dock.box #confirm { font-size: 1.0625rem; }
}
@media (min-width: 40em) and (orientation: portrait) and (min-height: 30.01em) {
  .at-table { --cw: 3.4rem; --fw: 5rem; --ch: 7.5rem; --tw: 5.25rem; --th: 7.25rem; }
  .dummy-left, .dummy-right { --tw: 4.25rem; --th: 6rem; }
  #calls summary::after { content: none; }
  #side { display: grid; grid-template-columns: 1.3fr 1fr 1fr; gap: 0 1.25rem; height: 8.0625rem; padding: .5rem 1rem; overflow-y: auto; }
  #side > * { grid-row: 1; min-width: 0; }
  .side-auction { max-height: 6.75rem; overflow-y: auto; }
  .side-auction h2 { display: none; }
  .side-auction th { position: sticky; top: 0; height: 1.75rem; }
  .side-contract, .side-tricks { display: none; }
  .side-auction { grid-column: 1; }
  .side-last { grid-column: 2; }
  .side-round { grid-column: 3; }
  .side-last p { grid-template-columns: 1fr 1fr; }
  #side .side-auction td { height: 1rem; padding-block: 0; font-size: .875rem; line-height: 1; }
  .bidding #side { display: none; }
  .box-call, .box #confirm { min-height: 3.25rem; }
}
@media (min-width: 56em) and (orientation: landscape) and (min-height: 30.01em) {
  .at-table {
    --cw: 3.2rem; --fw: 4.375rem; --ch: 6.25rem; --tw: 4.5rem; --th: 6.25rem;
    grid-template: "bar bar" auto "stage side" 1fr "note side" auto "say side" auto "hand side" auto "dock side" auto / minmax(0, 1fr) 18rem;
  }
  .at-table.bidding { --cw: 2.8rem; grid-template: "bar bar" auto "stage dock" 1fr "note dock" auto "hand dock" auto / minmax(0, 1fr) 23rem; }
  #strip, .bidding #side { display: none; }
  #side { display: flex; flex-direction: column; gap: .9rem; padding: .75rem 1rem; overflow-y: auto; }
  .side-contract { display: flex; align-items: center; gap: .75rem; line-height: 1.25; }
  .side-contract .contract { font-size: 2.25rem; line-height: 1; }
  .side-tricks p { display: flex; justify-content: space-between; align-items: center; margin: 0; font-weight: bold; }
  .side-tricks .tally i { background: var(--second); }
  .side-tricks .tally .ours { background: var(--good); }
  .side-tricks .tally .theirs { background: var(--bad); }
  .side-auction > table { border: 1px solid var(--line); border-radius: .5rem; border-collapse: separate; border-spacing: 0; overflow: hidden; }
  .side-round { margin-top: auto; }
  .bidding #status { grid-area: dock; justify-self: stretch; align-self: start; z-index: 1; max-width: none; margin: .75rem 1rem; padding: .4rem; border-radius: .5rem; font-size: 1.125rem; }
  .bidding #status:not(.turn) { color: var(--ink); background: var(--soft); }
  .auction { --row: 2.75rem; }
  .auction td .bid { font-size: 1.75rem; }
  .auction td .pass { font-size: 1.25rem; }
  .bidding .board-picture { display: grid; grid-area: chip; place-self: center; width: 9rem; height: 9rem; }
  .bidding .board-picture b { font-size: 2.25rem; }
  .bidding #stage:has(.board-picture) {
    grid-template: auto auto auto 1fr / 8rem minmax(0, 1fr) 8rem; grid-template-areas: "top top top" ". chip ." "left mid right" ". . ."; row-gap: .75rem;
  }
  #dock.box { --bid: 2.75rem; align-content: stretch; padding-top: 4.25rem; border-top: 0; border-left: 1px solid var(--line); }
  #dock.box .bid { order: -1; }
  #dock.box .bid { font-size: 1.5rem; }
  #dock.box .box-call { margin-top: .5rem; font-size: 1.375rem; }
  #dock.box #call-PASS { grid-column: span 8; }
  #dock.box #call-X, #dock.box #call-XX { grid-column: span 6; }
  #dock.box #confirm { grid-column: 1 / -1; font-size: 1.125rem; }
}
@media (min-width: 75em) and (orientation: landscape) and (min-height: 48em) {
  .at-table { --cw: 4.2rem; --fw: 5.5rem; --ch: 7.75rem; --tw: 5.5rem; --th: 7.75rem; grid-template-columns: minmax(0, 1fr) 22rem; }
  .at-table.bidding { --cw: 4rem; grid-template-columns: minmax(0, 1fr) 27rem; }
  .bidding .board-picture { width: 11rem; height: 11rem; }
  .auction { --row: 3.25rem; }
  .auction td { font-size: 1.625rem; }
  .auction td .bid { font-size: 2rem; }
  #dock.box .bid { font-size: 1.75rem; }
  .played, :is(#hand, .at-top) .card { font-size: 2.5rem; }
  .played .suit, :is(#hand, .at-top) .card .suit { font-size: 2.5rem; }
}
@media (prefers-reduced-motion: no-preference) {
  .card { transition: transform 120ms ease-out; }
  #confirm.sending::before { animation: wheel 1s linear infinite; }
}
/* Between the boards. */
.between #main { display: grid; grid-template-columns: repeat(auto-fit, minmax(min(100%, 26rem), 1fr)); gap: .75rem; align-items: start; width: 100%; }
.between .panel { width: 100%; max-width: 40rem; margin: 0 auto; }
.between:not(.goes-on) .panel { grid-column: 1 / -1; }
.between #card :is(.who, th:nth-child(2)) { display: none; }
.between .second { font-size: .875rem; }
#card td { padding-block: 0; }
.round .now { font-weight: bold; }
.between .round b { font-size: 1rem; }
#between-boards { flex: 1; }
.round { display: flex; gap: .4rem; margin: 0; padding: 0; list-style: none; }
.round li { display: grid; flex: 1; justify-items: center; padding: .2rem; border: 1px solid var(--edge); border-radius: .5rem; font-size: .875rem; }
.round .now { color: var(--gold-ink); background: var(--gold); border-color: var(--gold); }
.round .here { background: var(--soft); border-style: dashed; }
.goes-on #clock { padding: .15rem .5rem; border-radius: .5rem; background: var(--gold); }
.goes-on #clock :is(b, span) { color: var(--gold-ink); }

/* Boards that are over, and the score card. */
.boards #main { display: flex; flex-direction: column; flex: 1; max-width: 84rem; padding-bottom: 0; }
.wide-panel { max-width: none; }
.boards .panel { width: 100%; max-width: none; margin: 0 0 .75rem; }
.boards:not(.over) #onward::after { order: -1; transform: scaleX(-1); }
.tiles ol { display: flex; flex-wrap: wrap; gap: .35rem; margin: 0; padding: 0; list-style: none; }
.tiles p { margin: .5rem 0 .25rem; }
.tiles li { padding: .2rem .5rem; border: 1px solid var(--edge); border-radius: .5rem; font-size: .875rem; font-variant-numeric: tabular-nums; }
.tiles .own { color: var(--gold-ink); background: var(--gold); border-color: var(--gold); }
.figures { display: grid; grid-template-columns: repeat(3, minmax(0, 1fr)); gap: 0 .6rem; }
.figure { padding: .5rem .6rem; }
.figure p { margin: 0; }
.figure .second { font-size: .8125rem; line-height: 1.2; }
.figure .large { font-size: clamp(1.25rem, 5vw, 1.875rem); }
.list { width: 100%; background: none; }
.list th, .list td { border: 0; border-bottom: 1px solid var(--line); padding: .35rem .25rem; text-align: left; }
.list thead th { border-bottom-color: var(--edge); color: var(--second); font-size: .8125rem; }
#tricks td, #tricks th { padding: .1rem .25rem; font-size: .9375rem; }
.list .number { text-align: right; white-space: nowrap; }
.list progress { width: 4rem; height: .45rem; margin-right: .4rem; accent-color: var(--blue); vertical-align: middle; }
#card td button { padding: 0; border: 0; color: var(--blue); background: none; text-decoration: underline; }
#dock.onward {
  position: sticky; bottom: 0; z-index: 1; display: flex; justify-content: center; gap: .5rem; margin: auto -.75rem 0;
  padding: .5rem .75rem max(.5rem, env(safe-area-inset-bottom)); background: var(--page); border-top: 1px solid var(--edge);
}
#dock.onward button { min-height: 3.25rem; padding: .2rem 1rem; font-size: 1rem; }
#dock.onward .send { flex: 1 1 auto; max-width: 40rem; font-size: 1.125rem; }
#parts { display: flex; gap: .4rem; margin-bottom: .6rem; }
#parts button { flex: 1 1 auto; }
#parts [aria-pressed=true] { color: var(--page); background: var(--ink); }
#band .contract, #band .large { font-size: 1.375rem; }
#band > p:first-child::first-letter { text-transform: uppercase; }
#band .red { color: var(--felt-red); }
#band .ten { letter-spacing: -.12em; }
.four #band .diamond { color: #ffc48a; }
.four #band .club { color: #a8e6bd; }
.diagram {
  --tw: 2.25rem; --th: 3rem; display: grid; grid-template: ". top top" auto "left middle right" auto ". bottom bottom" auto / minmax(0, 1fr) auto minmax(0, 1fr);
  gap: .3rem .6rem; align-items: center;
}
.of-top { grid-area: top; }
.of-left { grid-area: left; }
.of-right { grid-area: right; }
.of-bottom { grid-area: bottom; }
.of-middle { grid-area: middle; display: grid; place-items: center; min-width: 8rem; min-height: 8rem; }
.of-top, .of-bottom { max-width: 11rem; }
#opened .diagram { grid-template-columns: minmax(0, auto) auto minmax(0, auto); justify-content: center; }
#opened :is(.of-top, .of-bottom) { max-width: none; }
.diagram p { display: flex; gap: .35rem; align-items: center; margin: 0; font-size: .875rem; overflow-wrap: anywhere; line-height: 1.15; }
.mark.vul { color: #fff; background: var(--vul); }
.mark.safe { color: #fff; background: var(--not-vul); }
.suit-line { padding-left: 1.25rem; font-size: 1.0625rem; line-height: 1.3; }
.suit-line .suit { display: inline-block; width: 1.25rem; margin-left: -1.25rem; }
.suit-line > :not(.suit) { margin-right: .22rem; }
.suit-line .ten { margin-right: .35rem !important; }
.suit-line s { color: var(--second); }
.diagram .trick .played { font-size: 1.125rem; }
.diagram .trick .played .suit { font-size: 1rem; }
.diagram .trick { grid-area: auto; padding: .4rem; border-radius: .5rem; background: var(--felt); }
.board-picture {
  display: grid; grid-template: "top top top" 1.5rem "left middle right" 1fr "bottom bottom bottom" 1.5rem / 1.5rem 1fr 1.5rem; width: 8rem; height: 8rem;
  overflow: hidden; border-radius: .5rem; font-size: .75rem; font-weight: bold;
}
.board-picture span { display: grid; place-items: center; color: #fff; }
.board-picture .left, .board-picture .right { writing-mode: vertical-rl; }
.board-picture .left { transform: rotate(180deg); }
.board-picture .top { grid-area: top; }
.board-picture .left { grid-area: left; }
.board-picture .right { grid-area: right; }
.board-picture .bottom { grid-area: bottom; }
.board-picture .vul { background: var(--vul); }
.board-picture .safe { background: var(--not-vul); }
.board-picture b { grid-area: middle; display: grid; place-items: center; color: #12181c; background: #fff; font-size: 1.625rem; }
.stepper { display: grid; grid-template-columns: auto auto 1fr auto auto; gap: .3rem; align-items: center; margin-top: .5rem; text-align: center; }
.stepper p { margin: 0; font-size: .875rem; line-height: 1.2; }
.stepper button { padding: 0 0 .25rem; font-size: 1.5rem; line-height: 1; }
#step { width: 100%; min-height: 1.75rem; padding: 0; border: 0; background: none; accent-color: var(--blue); }
.part > table:not(.list) { width: 100%; table-layout: fixed; background: none; }
.part > table:not(.list) :is(th, td) { border: 0; padding: .2rem .1rem; overflow: hidden; text-overflow: ellipsis; white-space: nowrap; font-weight: normal; }
.part > table:not(.list) th { font-size: .8125rem; color: var(--plate-ink); background: var(--plate); }
.part > table:not(.list) tbody tr:nth-child(even) { background: var(--soft); }
.part > table:not(.list) td .bid { font-weight: bold; }
@media (max-width: 47.99em), (max-height: 30em) {
  .part { display: none; }
  .part-hands .hands, .part-play .play, .part-scores .scores { display: block; }
}
@media (min-width: 48em) and (max-width: 55.99em) and (min-height: 30.01em) {
  .over .diagram :is(.of-left, .of-right) .who { flex-wrap: wrap; font-size: .8125rem; }
  .over .diagram { --tw: 1.9rem; --th: 2.6rem; gap: .3rem; }
  .over :is(.of-middle, .board-picture) { min-width: 6.5rem; width: 6.5rem; min-height: 6.5rem; height: 6.5rem; }
  .over .of-middle:has(.trick) { height: auto; width: auto; }
}
@media (min-width: 48em) and (min-height: 30.01em) {
  #parts { display: none; }
  .parts { display: grid; grid-template: "h s" auto "h p" 1fr / 1fr 1fr; gap: 0 .75rem; align-items: start; }
  .tiles { display: none; }
  .hands { grid-area: h; }
  .scores { grid-area: s; }
  .play { grid-area: p; }
}
@media (orientation: landscape) and (max-height: 30em) {
  .over .diagram { grid-template: "left top right bottom middle" auto / minmax(0, 1fr) minmax(0, 1fr) minmax(0, 1fr) minmax(0, 1fr) auto; align-items: start; }
  .over .diagram .of-top, .over .diagram .of-bottom { max-width: none; }
  .over .banner { margin-bottom: .4rem; padding: .1rem 1rem; }
  .boards #main { padding: .4rem .75rem 0; }
  #dock.onward { padding: .3rem .75rem; }
  #dock.onward button, #parts button { min-height: 2.75rem; }
  #parts { margin-bottom: .4rem; }
}
@media (min-width: 75em) {
  .over .parts { grid-template: "h s p" auto / 5fr 4fr 4fr; }
}
@media (max-width: 39.99em) {
  .list progress { display: none; }
  :is(.boards, .final) #card, :is(.boards, .final) #card :is(thead, tbody) { display: block; }
  :is(.boards, .final) #card tr {
    display: grid; grid-template: "b c l t s w" auto "b a a a a a" auto / 2.75rem minmax(3.5rem, 1fr) 2.1rem 1.4rem 3.1rem 4.1rem; column-gap: .2rem; align-items: center; border-bottom: 1px solid var(--line);
  }
  :is(.boards, .final) #card td button { min-width: 2.75rem; }
  :is(.boards, .final) #card :is(th, td) { padding: .1rem; border: 0; }
  :is(.boards, .final) #card :is(th, td):first-child { grid-area: b; }
  :is(.boards, .final) #card th:nth-child(2) { position: absolute; width: 1px; height: 1px; overflow: hidden; clip-path: inset(50%); }
  :is(.boards, .final) #card .who { grid-area: a; padding-bottom: .4rem; font-size: .8125rem; color: var(--second); }
  .ways { grid-template-columns: 1fr 1fr; }
  .ways > :first-child { grid-column: 1 / -1; min-height: 3.25rem; }
  .over #main { padding: .5rem .5rem 0; }
  .over .panel { padding: .5rem; }
  .over .banner { margin-bottom: .5rem; }
  .suit-line { font-size: 1rem; line-height: 1.25; }
  #opened .diagram :is(.of-left, .of-right) .who { flex-wrap: wrap; font-size: .8125rem; }
  .over .diagram .who span { display: -webkit-box; -webkit-box-orient: vertical; -webkit-line-clamp: 2; overflow: hidden; }
  .list .who + td { overflow-wrap: anywhere; }
  .diagram { gap: .1rem .4rem; }
  .of-middle { min-width: 5.75rem; min-height: 5.75rem; }
  .board-picture { width: 5.75rem; height: 5.75rem; grid-template-rows: 1.2rem 1fr 1.2rem; grid-template-columns: 1.2rem 1fr 1.2rem; }
  .diagram { --tw: 1.7rem; --th: 2.3rem; }
  .suit-line > :not(.suit) { margin-right: .14rem; }
  .over #dock.onward { margin: auto -.5rem 0; }
}
/* Many numbers of a claim stand in even rows. */
@media (max-width: 39.99em) and (orientation: portrait) {
  .numbers:has(> :nth-child(8)) { grid-template-columns: repeat(4, 1fr); }
  .numbers:has(> :nth-child(9)) { grid-template-columns: repeat(5, 1fr); }
  .numbers:has(> :nth-child(11)) { grid-template-columns: repeat(6, 1fr); }
}
@media (max-width: 24em) {
  .director #choosing { gap: .5rem .4rem; padding-inline: .5rem; }
  #choosing :is(select, #opened-close) { padding-inline: .4rem; }
  .tile > span, .per button { font-size: .8125rem; }
}
/* The smallest screens. */
@media (max-width: 21em) {
  :is(.boards, .final) #card tr { grid-template-columns: 2.75rem minmax(3rem, 1fr) 1.9rem 1.2rem 2.9rem 3.6rem; font-size: .875rem; }
  #strip { gap: .25rem; padding: .1rem .5rem; }
  #opened .diagram { --tw: 1.4rem; --th: 2rem; gap: .1rem .25rem; }
  #opened :is(.of-middle, .board-picture) { min-width: 5rem; width: 5rem; }
  .steps { flex-wrap: nowrap; }
}
/* Large letters on a small screen: one below the other. */
@media (max-width: 17em) {
  .at-table { --tw: 2rem; --th: 2.75rem; --cw: 2.6rem; --fw: 2.6rem; --ch: 3.25rem; }
  #heads { flex-basis: 60%; }
  .bidding #stage { display: block; min-height: 0; padding: .3rem .5rem; }
  .bidding .auction { position: static; max-height: none; }
  .auction th { white-space: normal; overflow-wrap: anywhere; }
  #hand .cards.cards { flex-direction: column; padding-right: .25rem; }
  :is(#hand, .at-top) .line.line { display: flex; flex-wrap: wrap; gap: .25rem; }
  :is(#hand, .at-top) .group { display: contents; }
  #hand .card.card { margin: 0; }
  #dock.box { grid-template-columns: repeat(6, minmax(0, 1fr)); }
  #dock.box .bid { grid-column: span 2; }
  #dock.box :is(.box-call, #confirm) { grid-column: span 3; }
  #dock.play { grid-template-columns: 1fr 1fr; }
  #dock.play button { flex-direction: column; }
  #dock.play #claim-open + #confirm { grid-column: 1 / -1; }
  #dock.claimed { grid-template-columns: minmax(0, 1fr); }
  #strip { flex-wrap: wrap; }
  #strip #calls { flex-basis: 100%; }
  .at-table:not(.bidding) #stage { grid-template: "top" auto "left" auto "mid" auto "right" auto / minmax(0, 1fr); }
  :is(.at-left, .at-right) > .plate { flex-direction: row; width: fit-content; max-width: 100%; margin: 0; }
  :is(.at-left, .at-right) > .plate span { display: block; }
  .over .diagram { grid-template: "top" auto "left" auto "middle" auto "right" auto "bottom" auto / minmax(0, 1fr); }
  :is(.boards, .between, .final, .director) .panel { overflow-x: auto; }
  .ways, .figures { grid-template-columns: minmax(0, 1fr); }
  .ways > :first-child { grid-column: auto; }
  :is(.sides, #rankings) tr { display: grid; grid-template: "a p s" auto "n n n" auto / 1fr 1fr auto; }
  :is(.sides, #rankings) tr :is(th, td) { grid-area: s; border: 0; }
  :is(.sides, #rankings) tr :is(th, td):first-child { grid-area: a; text-align: left; }
  :is(.sides, #rankings) tr :is(th, td):nth-child(2) { grid-area: p; }
  :is(.sides, #rankings) tr .who { grid-area: n; border-bottom: 1px solid var(--line); overflow-wrap: anywhere; }
  :is(.sides, #rankings) thead { display: none; }
  .director :is(.field, .row) { min-width: 0; max-width: 100%; }
  .per, #plays { grid-template-columns: minmax(0, 1fr); }
  .steps { flex-wrap: wrap; }
  #back-to { flex-basis: 100%; margin: 0; }
  #opened .diagram { grid-template: "top" auto "left" auto "middle" auto "right" auto "bottom" auto / minmax(0, 1fr); }
  #opened .of-top, #opened .of-bottom { max-width: none; }
  .director #tables tr { grid-template: "n" auto "b" auto "s" auto "w" auto "p" auto "q" auto "m" auto "o" auto / minmax(0, 1fr); justify-items: start; }
  .director #tables td:nth-child(7) { justify-self: start; }
  .director :is(button, select) { max-width: 100%; overflow-wrap: anywhere; }
  #bar #tabs { flex-wrap: wrap; }
  .stepper { grid-template-columns: repeat(2, 1fr); }
  .part > table:not(.list) :is(th, td) { padding: .1rem 0; font-size: .8125rem; overflow: visible; }
  .stepper p { grid-column: 1 / -1; order: -1; }
  .banner { grid-template-columns: minmax(0, 1fr); }
  .banner p:nth-child(even) { text-align: left; }
  #parts, #dock.onward { flex-wrap: wrap; }
  #parts button, #dock.onward button { min-width: 0; max-width: 100%; overflow-wrap: anywhere; }
}
@media (orientation: landscape) and (max-height: 30em) {
  #options { display: grid; grid-template-columns: 1.5fr 1fr 1fr; gap: 0 .75rem; align-items: start; }
  #options label + label { margin-top: .3rem; }
  #options > h2 { grid-area: 1 / 1 / 2 / 3; align-self: center; margin: 0; }
  #options > button { grid-area: 1 / 3; }
  #options > fieldset { grid-row: 2; }
  #choices .row { flex-wrap: nowrap; margin: 0; }
  body.login main { max-width: 46rem; }
  .login .panel { display: grid; grid-template: "head key" auto "more key" 1fr / 1fr 1fr; gap: 0 1.5rem; max-width: none; }
  .login-key { grid-area: key; }
  .login-more { align-self: end; margin: 0; }
  .login div.panel { display: block; max-width: 28rem; margin: 0 auto; }
  .between.goes-on #main { grid-template-columns: repeat(2, minmax(0, 1fr)); }
  .between.goes-on .panel { max-width: none; padding: .6rem .75rem; }
  .between .large { font-size: 1.625rem; }
}
@media (min-width: 40em) {
  .login::before { content: "\2660\fe0e \2663\fe0e"; padding: 0 3.5rem; place-content: center stretch; white-space: normal; text-align-last: justify; font-size: 12.5rem; }
}
@media print {
  #bar button, button, summary, label, input, select, textarea, #status, #told, #tabs, #dock, #serving, #others, #on-tables, #lines, .director .panel:not(#publishing):not(#ranking) { display: none !important; }
  body, #bar, .banner { color: #000; background: #fff; }
  .banner { border: 1px solid #000; }
  td button { display: inline !important; min-height: 0; min-width: 0; padding: 0; border: 0; }
  pre { overflow: visible; padding: 0; font-size: 7pt; }
}
"##;

/// All that the scripts say.
pub const TEXTS_SCRIPT: &str = r##""use strict";
// All that the pages say. Another language is another file of this form.

const TEXTS = {
  // How times and dates are written.
  locale: "en-GB",
  title: "Bridge table",
  planOf: (tables, _rounds, boards, scoring) => tables + " tables \u00b7 " + (boards === "1" ? "1 board" : boards + " boards") + " a round \u00b7 " + (scoring === "MP" ? "matchpoints" : "IMPs"),
  youMeet: (pair) => "You meet pair " + pair,
  yourTurn: "\u25cf Your turn \u2013 Bridge table",
  pieces: { S: "spade", H: "heart", D: "diamond", C: "club", N: "no trump" },
  suits: { S: "spades", H: "hearts", D: "diamonds", C: "clubs" },
  ranks: { A: "ace", K: "king", Q: "queen", J: "jack", T: "10" },
  seats: { N: "North", E: "East", S: "South", W: "West" },
  cardName: (rank, suit) => rank + " of " + suit,
  rankText: (rank) => (rank === "T" ? "10" : rank),
  passName: "pass",
  doubleName: "double",
  redoubleName: "redouble",
  bidName: (level, strain, doubled) => level + " " + strain + doubled,
  doubled: { X: " doubled", XX: " redoubled" },
  vulnerable: { None: "nobody vulnerable", NS: "North and South vulnerable", EW: "East and West vulnerable", All: "all vulnerable" },
  vulnerableShort: { None: "Nobody vul", NS: "N\u2013S vul", EW: "E\u2013W vul", All: "All vul" },
  you: "You",
  yes: "Yes",
  no: "No",
  done: "Done",
  back: "Back",
  close: "Close",
  print: "Print",

  // To log in, and the menu.
  yourKey: "Your key",
  keyHelp: "The number on your slip. Spaces do not matter.",
  slipLost: "Slip lost? The director can print it again.",
  sitDown: "Sit down",
  noKey: "That is no key.",
  leave: "Leave",
  reallyLeave: "Really leave?",
  menu: "Menu",
  textAndPlay: "Text and play",
  textAndColours: "Text and colours",
  sentTitle: "A call or card is sent",
  sentTwice: "by a second tap, or the button below",
  sentOnce: "at once, but for doubles and bids of six and seven",
  suitsTitle: "Suits",
  suitsTwo: "two colours",
  suitsFour: "four colours",
  lightTitle: "Light",
  lights: { device: "as the device has it", light: "light", dark: "dark" },

  // What is said of a refusal.
  refusals: {
    NoKey: "Nobody has this key. Compare it with your slip, digit by digit.",
    NotAllowed: "That is not yours to do.",
    Closed: "The session is closed.",
    SitsOut: "You sit out in this round.",
    NotCurrent: "That board is not being played at your table now.",
    NotDealt: "The board is not dealt yet.",
    WrongPhase: "That is not possible now.",
    Stale: "Something else came first. Look again.",
    NoClaim: "No claim stands.",
    ClaimStands: "A claim stands and has to be answered first.",
    NotAsked: "This claim does not ask you, or you have answered.",
    NotYourTurn: "It is not your turn.",
    MidTrick: "Claims are made between tricks.",
    TooManyTricks: "There are not so many tricks left.",
    InsufficientBid: "That bid is not sufficient.",
    InadmissibleDouble: "There is nothing that you may double.",
    InadmissibleRedouble: "There is nothing that you may redouble.",
    NotHeld: "That card is not in the hand.",
    MustFollow: "The hand has to follow suit.",
    ClaimsSpent: "No more claims can be made on this board.",
    Disk: "The server's disk has failed. Call the director.",
    EpochsSpent: "The server's disk is used up. Call the director.",
    BadLine: "That cannot be read.",
    TooSoon: "Please wait a second, and send it again.",
  },
  directorRefusals: {
    AlreadyDealt: "already dealt",
    BadDeal: "these are not four hands of thirteen cards",
    BadLine: "that cannot be read",
    LongLine: "that cannot be read",
    NoSuchPlay: "there is no such play",
    NotDealt: "the board is not dealt yet",
    NotYet: "that round has not begun",
    RoundOpen: "a table is still at play",
    NoContract: "there is no contract",
    NotFinished: "the play is not over",
    NotAnEnding: "at most six whole tricks may be left, and so many must have been played",
    NotMatchPoints: "averages are for matchpoints alone",
    NothingToTakeBack: "nothing was done yet that could be taken back",
    NotThisRound: "that is possible in the current round alone",
    RulingStands: "a ruling stands: take it back first",
    BoardBegun: "a call was made on this board already",
    WrongPhase: "that is not possible now",
    Stale: "that is not the round at play",
    Closed: "the session is closed",
    Disk: "the server's disk has failed",
    EpochsSpent: "the server's disk is used up",
  },
  unreachable: "The server does not answer. Trying again.",
  slow: (what) => "No answer yet. What you see next tells whether " + what + " was taken.",
  noAnswerFor: (seconds) => "No answer for " + seconds + " seconds",
  it: "it",
  theCard: (card) => "the " + card,
  unknownFate: "No answer came. It may or may not have been taken; what you see next tells.",
  wasTaken: "It was taken.",
  wasNotTaken: "It was not taken: please try again.",

  // The table.
  pass: "Pass",
  double: "Double",
  redouble: "Redouble",
  biddingBox: "Bidding box",
  tapCall: "Tap a call",
  yourCall: "Your call",
  toCall: (seat) => seat + " to call",
  dueCall: "to call",
  callIt: "Call ",
  bidIt: "Bid ",
  playIt: "Play ",
  sending: "Sending \u2026",
  sendingIt: "Sending ",
  tapCard: "Tap a card",
  yourCard: "Your card",
  pleaseWait: "Please wait",
  auction: "Auction",
  deals: "deals",
  trickTo: (seat) => "Trick to " + seat,
  dealsShort: (seat) => seat + " deals",
  atTable: (table, round, rounds) => " \u00b7 Table " + table + " \u00b7 Round " + round + " of " + rounds,
  boardOf: (index, count) => " \u00b7 " + (["1st", "2nd", "3rd"][index] || index + 1 + "th") + " of " + count + " boards",
  declarerShort: "decl.",
  declarer: "declarer",
  dummy: "dummy",
  dummyHand: (seat) => "Dummy, " + seat,
  ownHand: (seat) => "Your hand, " + seat,
  ownDummy: "Your hand, which is dummy",
  table: "Table",
  lastTrick: "Last trick",
  lastTrickTo: (seat) => "Last trick, won by " + seat,
  backToPlay: "Back to the play",
  trickNow: "Trick",
  tally: (we, they) => "Tricks: we " + we + ", they " + they,
  tricksHead: "Tricks",
  weTook: (tricks) => "We " + tricks,
  theyTook: (tricks) => "They " + tricks,
  contract: "Contract",
  by: (seat, own) => (own ? "by you" : "by " + (TEXTS.seats[seat] || seat)),
  bySeat: (seat, own) => "by " + TEXTS.seats[seat] + (own ? ", you" : ""),
  toMake: (tricks, left) => tricks + " tricks needed: " + (left > 0 ? left + " to go" : "made"),
  toBeat: (tricks, left) => "We need " + tricks + " to beat it: " + (left > 0 ? left + " to go" : "it is down"),
  needs: (tricks) => " \u00b7 needs " + tricks,
  weNeed: (tricks) => " \u00b7 we need " + tricks,
  theBoard: "The board",
  dock: "What you can do",
  board: (number) => "Board " + number,
  boardWords: (number, dealer, vulnerable) => "Board " + number + ", dealer " + dealer + ", " + vulnerable,
  made: (over) => (over >= 0 ? ["made", "one over", "two over", "three over"][over] || over + " over" : ["", "one down", "two down", "three down"][-over] || -over + " down"),

  // Whose turn it is.
  isToCall: (seat) => seat + " is to call.",
  yourTurnToCall: "Your turn to call",
  follow: (suit) => "Your turn: follow with a " + suit,
  followDummy: (suit) => "Your turn: play a " + suit + " from dummy",
  openingLead: "Your turn: the opening lead",
  turnIsYours: "Your turn",
  turnFromDummy: "Your turn: play from dummy",
  isToPlay: (seat, lead) => seat + " is to play" + (lead ? " the opening lead." : "."),
  youAreToPlay: "You are to play.",
  youAreDummy: (name) => "You are dummy. " + name + " plays your cards.",
  fromDummy: (seat) => seat + " is to play from dummy.",

  // Claims.
  claim: "Claim",
  forYou: (score) => score + " for you",
  claimTitle: "Claim or concede",
  claimOf: (left) => "Of the " + left + " tricks left my side wins",
  claimNone: "None",
  claimAll: (left) => "All " + left,
  claimTricks: (tricks) => "Claim " + tricks + (tricks === 1 ? " trick" : " tricks"),
  claimHelp: (isDeclarer) => "Say your line aloud. " + (isDeclarer ? "Both opponents are" : "Declarer is") + " asked to agree.",
  theClaim: "The claim",
  ifAgreed: ", if all agree.",
  refuse: "Refuse",
  agree: "Agree",
  youClaim: (tricks, left) => "You claim " + TEXTS.fewOf(tricks, left) + ". ",
  claimsFew: (seat, tricks, left) => seat + " claims " + TEXTS.fewOf(tricks, left) + ". ",
  fewOf: (tricks, left) => (Number(tricks) === left ? "all " + left : (Number(tricks) === 0 ? "none" : tricks) + " of " + left),
  someOf: (tricks, left) => (Number(tricks) === left ? (left === 1 ? "the last trick" : "all " + left + " tricks left") : (Number(tricks) === 0 ? "none" : tricks) + " of the " + left + " tricks left"),
  claims: (seat, tricks, left) => seat + " claims " + TEXTS.someOf(tricks, left) + ". ",
  answerWaited: "Your answer is waited for",
  youAgreed: (claimer, few, seat) => "You agreed: " + claimer + " has " + few + ". " + seat + " is asked.",
  reallyRefuse: "Really refuse?",
  agrees: (seats) => seats.join(" and ") + (seats.length === 1 ? " agrees." : " agree."),
  areAsked: (seats) => seats.join(" and ") + (seats.length === 1 ? " is asked." : " are asked."),
  claimed: (seat, tricks) => seat + " claimed " + tricks + (tricks === "1" ? " trick" : " tricks") + ", and it was agreed.",
  claimWaits: (seat, tricks) => seat + " claims " + tricks + (tricks === "1" ? " trick" : " tricks") + ", and not all have answered.",
  hasClaimed: (seat, tricks) => seat + " claimed " + tricks + (tricks === "1" ? " trick." : " tricks."),
  callBack: "The director has taken back the last call.",
  cardBack: "The director has taken back the last card.",
  endedByRuling: (board) => "Board " + board + " is not played on: the director has ruled so.",
  claimRefused: "The claim stands no more: it was refused, or the director took it back. Play goes on.",
  youRefused: "You have refused the claim. Play goes on; call the director if need be.",
  claimRefusedBy: (seat) => seat + " does not agree to the claim. Play goes on; call the director if need be.",

  // Between the boards, and at the end.
  boardsOf: (first, last) => (first === last ? "Board " + first : "Boards " + first + " to " + last),
  sitsOut: "You sit out in this round.",
  sitOut: "You sit out",
  sitsOutNext: "You sit out in the next round.",
  nextRound: (table, seat) => "Next round: table " + table + ", " + seat + ".",
  ofPair: (name, pair) => name + ", pair " + pair,
  isYou: (name) => "You, " + name,
  opponents: "Your opponents",
  nextOf: (round, rounds) => "Next, round " + round + " of " + rounds,
  roundOf: (round, rounds) => "Round " + round + " of " + rounds,
  sides: { N: "North\u2013South", E: "East\u2013West", S: "North\u2013South", W: "East\u2013West" },
  pairOf: (pair) => "Pair " + pair,
  with: (side, name) => ", " + side + " \u00b7 with " + name,
  tableSeat: (table, seat) => "Table " + table + ", " + seat,
  stay: "Stay at your table.",
  goTo: (table, up) => (up === 1 ? "Move up one table." : up === -1 ? "Move down one table." : "Go to table " + table + "."),
  untilRound: (round) => "to round " + round,
  roundOwn: (round) => "Your round " + round,
  youAreHere: "you are here",
  youGoHere: "you go here",
  roundBegins: (round) => "Round " + round + " begins once the director has ended this one.",
  notDealtYet: (isFirst) => "The " + (isFirst ? "first" : "next") + " board is not dealt yet.",
  boardsDone: "Your boards of this round are done. ",
  closed: "The session is closed.",
  finalOf: (event) => event + ", final",
  ordinals: ["first", "second", "third", "fourth", "fifth", "sixth", "seventh", "eighth", "ninth", "tenth", "eleventh", "twelfth"],
  atPlace: (place) => "at place " + place,
  youAreOf: (place, among) => "You are " + place + " of " + among,
  pointsOf: (score) => score.replace("/", " of "),
  pairAnd: (pair, names) => "Pair " + pair + (names ? ", " + names : ""),
  percent: (number) => number + "\u00a0%",
  ranking: "Ranking",
  noResults: "No results yet.",
  rankingOfPairs: (first, last) => "Ranking, pairs " + first + " to " + last,
  places: "Places of all pairs",
  placesOfPairs: (first, last) => "Places of pairs " + first + " to " + last,
  rankingHeads: ["Place", "Pair", "Score", "%"],
  names: "Names",
  both: (first, second) => first + " and " + second,
  allBoards: "All boards",
  roundSoFar: "This round",
  eveningSoFar: "Evening so far: ",
  now: "now",
  next: "next",
  later: "later",

  // A board that is over, and the score card.
  myBoards: "My boards",
  goOn: "Go on",
  toTable: "To the table",
  toRanking: "To the ranking",
  ownCard: "My score card",
  nextBoard: (number) => "Next: board " + number,
  nextYours: (number) => "Next: board " + number + ", your turn",
  toNext: "Go on",
  toRound: (round) => "To round " + round,
  result: "The result",
  noResult: "at play",
  takenOut: "taken out by the director",
  average: (ns, ew) => "average, " + TEXTS.percent(ns) + " and " + TEXTS.percent(ew),
  passedOut: "passed out",
  assigned: "(assigned)",
  tricks: (tricks) => tricks + (tricks === 1 ? " trick" : " tricks"),
  lead: "lead",
  soFar: (worth) => (worth === "" ? "so far" : worth + " so far"),
  imps: (points) => points + " IMPs",
  impsName: "IMPs",
  hands: "Hands",
  auctionAndPlay: "Auction and play",
  scores: "Scores",
  parts: "What is shown",
  play: "Play",
  trick: (number) => "Trick " + number,
  beforeLead: "Before the lead",
  stepThrough: "step through the play",
  cardOf: (card, of) => "card " + card + " of " + of,
  steps: { first: "To the beginning", back: "One card back", on: "One card on", end: "To the end" },
  trickHeads: ["Tr.", "Led by", "1st", "2nd", "3rd", "4th", "Won"],
  scoresShut: "What other tables did is shown once the director opens it.",
  scoreHeads: ["N\u2013S", "E\u2013W", "Contract", "Tricks", "N\u2013S score"],
  weHere: "we",
  theyHere: "they",
  we: "(we)",
  scoresSoFar: (count) => "North and South's scores at " + (count === 1 ? "this table" : count + " tables") + " so far",
  tablesSoFar: (count) => (count === 1 ? "This table alone so far" : count + " tables so far"),
  ours: (worth) => "Ours: " + (worth.includes("/") ? worth.replace("/", " of ") + " matchpoints." : TEXTS.imps(worth) + "."),
  scoreCard: "Score card",
  cardHeads: ["Board", "Against", "Contract", "Lead", "Tr.", "Score", "So far"],
  openBoard: (number) => "Open board " + number,
  boardsPlayed: (count) => (count === 1 ? "board played" : "boards played"),
  ofPoints: (of) => "of " + of + " matchpoints",
  noBoards: "No board is over yet.",
  ruledOn: (boards) => "The director has ruled on " + (boards.length === 1 ? "board " : "boards ") + boards.join(", ") + ".",

  // What stands beside the session.
  bell: "Director",
  callDirector: "Call the director",
  callTitle: (table) => "Call the director to " + (table ? "table " + table : "your table") + "?",
  callHelp: "Everybody stops. A reason helps, but is not needed:",
  slip: "I did not mean my last call or card",
  reasons: ["I did not mean my last call or card", "Wrong call or card", "Out of turn", "Claim", "Hesitation or information", "Slow play", "Something else"],
  directorCalled: (time) => "Director called, " + time + ":",
  nothingSaid: "no reason said",
  directorComes: "The director has seen the call and is on the way.",
  waitForDirector: "Please wait, play nothing.",
  noticeOf: "The director:",
  pagesEnd: (minutes, isDirector) => (minutes === 1 ? "In a minute" : "In " + minutes + " minutes") + " the pages close. What was played is kept"
    + (isDirector ? "; start the command again to go on." : "."),
  diskLost: (which) => "A disk has failed: " + which + ". The evening goes on.",
  serving: (time) => "The pages close at " + time + ".",
  oneDisk: "Disk",
  diskOf: (index) => ["First disk", "Second disk"][index],
  diskInOrder: "In order",
  diskIsLevel: "Level",
  diskIsLost: "Lost",
  keptOn: (epoch, records, isLost) => (isLost ? "Lost at snapshot " : "Snapshot ") + epoch
    + (records === "0" ? "" : " and " + records + (records === "1" ? " action" : " actions")),
  writtenFirst: "Each action is on it before it is answered.",
  writtenNoMore: "Nothing more is written to it.",
  ifDiskFails: "If a disk fails",
  diskSteps: (count, isLost) => (isLost ? ["Play on to the end: the other disk has all.", "Then copy the good disk anew."]
    : count > 1 ? ["The evening goes on from the other one, and this page says so.", "If the computer dies, start the command on another one with the disk that is left: what was seen answered is there."]
      : ["Every page says so, and nobody plays on.", "Free the device, and start the same command again: what was seen answered is there."]),
  clockLeft: "left",
  minutesLeft: (minutes) => (minutes === 1 ? "One minute left" : minutes + " minutes left") + " in this round",
  claimSays: "Your line of play (optional)",
  saidWith: (seat, words) => seat + " says: \u201c" + words + "\u201d",
  tableCalls: (table) => "Table " + table + " calls:",
  minutesAgo: (minutes) => (minutes === 0 ? "just now" : minutes === 1 ? "1 minute ago" : minutes + " minutes ago"),
  answered: "On my way",
  grant: "Take it back \u2026",
  telling: "Tell all tables",
  tellText: "A notice for all tables, up to 200 characters",
  tellExample: "Tea after round 4",
  tellAll: "Send",
  takeDown: "Take it down",
  clockMinutes: "Minutes",
  clockStart: "Start the clock",
  clockMore: "+ 2 min",
  clockStop: "Stop",

  // The director.
  director: "Director",
  tabs: { tables: "Tables", boards: "Boards", rulings: "Rulings", standings: "Standings", evening: "Evening" },
  answerAwaited: "An answer is still waited for; nothing was sent.",
  unknownDone: "No answer came. It may or may not have been done; what you see next tells.",
  noAnswer: "No answer came.",
  doneWord: "done",
  becameOf: (what, outcome) => what + ": " + outcome + ".",
  asks: (what) => what + "?",
  yesDo: (verb) => TEXTS.yes + ", " + verb,
  verbs: { end: "end it", shuffle: "shuffle", deal: "deal", back: "take back", set: "set", assign: "assign", award: "award", out: "take out" },
  idle: { NotDealt: "Waits for its deal", NotCurrent: "Has done its boards", SitsOut: "Sits out" },
  progress: (playing, made, seat) => (playing ? "Trick " + (Math.floor(made / 4) + 1) + ", " + seat + " to play" : "Auction, " + seat + " to call"),
  stillFor: (minutes) => (minutes === 0 ? "moved just now" : "still for " + minutes + " min"),
  tables: "Tables",
  tableHeads: ["Table", "N-S", "E-W", "Board", "What goes on", "Min.", "Stands", "Open"],
  stands: { called: "Called", done: "Done", plays: "Playing", slow: "Slow", waits: "No deal" },
  open: "Open",
  openTable: (table) => "Open table " + table,
  openedAt: (table, round) => "Table " + table + ", round " + round,
  allDone: "All tables have done their boards.",
  tablesDone: (done, all) => done + " of " + all + " tables done",
  stillOpen: (playing, undealt) => [["Still at play", playing], ["No deal yet", undealt]].filter(([, tables]) => tables.length)
    .map(([what, tables]) => what + (tables.length === 1 ? ": table " : ": tables ") + tables.join(", ")),
  roundIs: (round, rounds, still) => "Round " + round + " of " + rounds + ". " + still,
  allEnded: "All rounds are ended",
  endWaits: (round, open) => "End round " + round + ". " + open.map((words, i) => (i ? words[0].toLowerCase() + words.slice(1) : words)).join("; "),
  endRound: (round, last) => "End round " + round + (last ? ", and close the session" : ""),
  endOf: (round) => "End of round " + round,
  endTheRound: "End the round",
  dealt: (boards) => "Dealt: " + boards.join(", ") + ".",
  notDealt: (boards, why) => (boards.length === 1 ? "Board " : "Boards ") + boards.join(", ") + ": " + why + ".",
  nothingDealt: "No board was dealt.",
  noBoardsThere: "There are no such boards.",
  noDeals: "No deal was found in this text.",
  dealThese: (boards) => "Deal " + (boards.length === 1 ? "board " : "boards ") + boards.join(", "),
  notOfSession: (boards) => "The session has no " + (boards.length === 1 ? "board " : "boards ") + boards.join(", ") + ": left out.",
  dealBoards: "Deal boards",
  boardsInSets: (all, boards) => all + " boards in sets of " + boards + ". A board is dealt once, before it is played.",
  shuffleHere: "Shuffle here",
  seedSecret: "A secret number is drawn anew on this device, each time.",
  shuffleFrom: "Boards",
  to: "to",
  shuffle: "Shuffle",
  shuffleMany: (count) => "Shuffle " + (count === 1 ? "1 board" : count + " boards"),
  shuffleOf: (first, last) => "Shuffle " + (first === last ? "board " + first : "boards " + first + " to " + last),
  shuffleEffect: "Boards that are dealt already stay as they are.",
  boardsOfEvening: "Boards of the evening",
  dealStates: { dealt: "dealt", open: "to deal", refused: "refused", unknown: "\u2026" },
  dealCount: (state, count) => TEXTS.dealStates[state] + ", " + count,
  handHas: (seat, cards) => seat + " has " + cards + (cards === 1 ? " card" : " cards"),
  cardTwice: "a card is in it twice",
  noDealText: "that is no deal",
  isRefused: (board, why) => "Board " + board + ": " + why + ". It will be refused, the others can be dealt.",
  dealFile: "Or from a dealing program",
  chooseFile: "Choose a PBN file",
  noFile: "No file is chosen.",
  fileHas: (name, count) => name + ": " + count + (count === 1 ? " deal" : " deals"),
  dealText: "or their text: PBN, or lines such as 1 N:AKQJ.T98.765.432 ...",
  dealtWrongly: "A board that was dealt wrongly",
  undealHelp: "As long as nobody has called on it.",
  deal: "Deal these",
  fillIn: "Each number has to be there, and in its range.",
  playOf: (round, table, board) => "round " + round + ", table " + table + ", " + board,
  boardNumber: (board) => "board " + board,
  boardInPlace: (place) => "board in place " + place + " of its set",
  round: "Round",
  tableField: "Table",
  boardField: "Board",
  rule: "Rule",
  openPlay: "Which play",
  rulingAt: (table, round) => "Ruling \u00b7 table " + table + ", round " + round,
  roundNow: (round, isNow) => round + (isNow ? " (now)" : ""),
  choose: "\u2013",
  chooseTable: "Choose a table here, or open one from its card.",
  placeOf: (index) => ["1st", "2nd", "3rd"][index] || index + 1 + "th",
  inAuction: "auction",
  notBegun: "not begun",
  tableNow: "The table now",
  onlyDirector: "Only the director sees all hands.",
  takeBackDone: "Take back calls or cards",
  less: "One less",
  more: "One more",
  someDeeds: (calls, cards, claims) => [claims && "the claim", cards && (cards === 1 ? "1 card" : cards + " cards"), calls && (calls === 1 ? "1 call" : calls + " calls")].filter(Boolean).join(" and "),
  backTo: (calls, cards, claims, seat, trick) => [claims && "claim", cards && (cards === 1 ? "card" : "cards"), calls && (calls === 1 ? "call" : "calls")].filter(Boolean).join(" and ")
    + (calls ? ", back to " + seat + "'s call" : cards ? ", back to " + seat + "'s turn in trick " + (trick + 1) : ", play goes on"),
  goBack: (deeds) => deeds.join(", ") + ". ",
  playsThen: (seat, fromDummy) => seat + " is to play" + (fromDummy ? " from dummy" : "") + ". All four are told.",
  northSouth: "N\u2013S",
  eastWest: "E\u2013W",
  per: [["60", "60 no fault"], ["50", "50 partly"], ["40", "40 at fault"]],
  setTricksTo: (tricks) => "Set declarer's tricks to " + tricks,
  award: (ns, ew) => "Award " + ns + " and " + ew + " per cent",
  takeOut: "Take the play out",
  takeBack: "Take the ruling back",
  asPlayed: "as it was played",
  takeBackButton: "Take a ruling back",
  notOver: "The play is not over yet",
  assignIt: (score) => "Assign " + score + " for N\u2013S",
  declarerField: "Declarer",
  declarersTricks: "Declarer's tricks",
  setTheTricks: "Set the tricks",
  averages: "Average: 60, 50 or 40 per cent",
  northSouthPer: "North and South, per cent",
  eastWestPer: "East and West, per cent",
  awardAverages: "Award averages",
  nowIs: "Now: ",
  thenIs: ". Then: ",
  playedBy: (names) => "North " + names.N + ", East " + names.E + ", South " + names.S + ", West " + names.W + ".",
  changedSince: "This play has changed since you looked at it. Look again, and rule then.",
  takeBackOf: (what) => "Take back " + what,
  atTableOnBoard: (what, table, board) => what + ", table " + table + ", board " + board,
  cardBackTo: (seat, from) => "It goes back to " + (from === seat ? "the hand of " + seat : "dummy, " + from) + ", and " + seat + " is to play. All four are told.",
  callBackTo: (seat) => seat + " is to call again. All four are told.",
  claimBackTo: "The claim falls, and play goes on. All four are told.",
  endEffect: (round) => "All tables go on to round " + round + ".",
  closeEffect: "Nothing more can be played; the final ranking is shown to all.",
  undealEffect: "Nobody has its cards then, and it can be dealt anew.",
  northSouthScore: (score) => " (" + score + " for N\u2013S)",
  claimBy: (seat, tricks) => seat + "'s claim of " + tricks + (tricks === "1" ? " trick" : " tricks"),
  doneBy: (seat, what) => seat + "'s " + what,
  nothingDone: "Nothing was done yet",
  undeal: "Take the deal back",
  undealOf: (board) => "Take back the deal of board " + board,
  assignScore: "Assign a score",
  assignedAs: (contract, declarer, made) => contract + " by " + declarer + ", " + made,
  doublings: [["", "not doubled"], ["X", "doubled"], ["XX", "redoubled"]],
  rulingsStand: "Rulings that stand",
  noRulings: "None.",
  ruled: (round, table, board, what) => "Round " + round + ", table " + table + ", board " + board + ": " + what,
  ruledAs: { VOID: () => "taken out", AVERAGE: (words) => words[0] + " and " + words[1] + " per cent", TRICKS: (words) => words[0] + " tricks",
    ASSIGNED: ([contract, declarer, tricks]) => contract + " by " + declarer + ", " + tricks + " tricks, assigned" },
  solving: "What can still be won",
  afterTricks: "After so many tricks",
  after: (tricks) => "after " + tricks,
  solve: "Solve",
  solved: (ns, ew) => "Of the tricks left North and South can win " + ns + ", and East and West " + ew + ".",
  notSolved: (why) => "No answer: " + why + ".",
  standings: "Standings",
  showRanking: "Show it as it is now",
  asOf: (time) => "As of " + time + ".",
  thisEvening: "This evening",
  othersHead: "What players see",
  othersTitle: "What other tables did, of boards that they have played:",
  othersOpen: "Show it to them",
  othersShut: "Hide it from them",
  othersAre: { true: "shown", false: "hidden" },
  results: "Results",
  showResults: "Show the results",
  lines: "Lines",
  linesLabel: "Lines of the protocol, without the key",
  send: "Send",
  replies: "Replies",
  unknownLines: "No answer came. The lines may or may not have been taken.",
};
"##;

/// What the other scripts share.
pub const SHARED_SCRIPT: &str = r##""use strict";
// What the players' page and the director's share: how they ask, what is said of a refusal, how nodes are made and shown, who
// has logged in, and when they look.

const SEATS = ["N", "E", "S", "W"];
const SEAT_NAMES = TEXTS.seats;
const LOGIN = "login";
// Milliseconds: an answer that comes later is none, or later than this where it is put off until there is news; how often the page
// looks where it is hidden, where news cannot be waited for, and after one look and more that had no answer.
const LATE = 8000;
const NEWS_LATE = 25000;
const HIDDEN_LOOK = 5000;
const LOOK = 1000;
const AGAIN = [500, 1000, 2000, 4000, 8000];
// Milliseconds that what is asked besides a view waits for it.
const AFTER_VIEW = 15;
// Milliseconds after which the page says that no answer has come.
const SLOW = 3000;
// Whose page this is, once his key is known to be somebody's.
let role = { key: null, isDirector: false };
// What the last look was told, or null where it had no answer; what the page waits with for news of it, since when, and how many
// looks in turn had no answer.
let lastTold = null;
let awaited = { text: null, at: 0 };
let missed = 0;

const at = (id) => document.getElementById(id);
let key = sessionStorage.getItem("key");
let busy = false;
let shown = "";
let timer = 0;
// Raised by each look, each act and Leave: an answer that an earlier look gets is shown no more.
let turn = 0;

function make(tag, properties, ...children) {
  const node = document.createElement(tag);
  for (const [name, value] of Object.entries(properties || {})) {
    if (name.startsWith("aria") || name === "role" || name === "for" || name === "scope") node.setAttribute(name.replace("aria_", "aria-"), value);
    else node[name] = value;
  }
  node.append(...children);
  return node;
}

function button(label, name, id, enabled, act) {
  const node = make("button", { type: "button", id, disabled: busy || !enabled, onclick: act }, label);
  if (name) node.setAttribute("aria-label", name);
  return node;
}

function say(id, text) {
  const node = at(id);
  if (node && node.textContent !== text) node.textContent = text;
}

async function ask(path, body, patience = LATE) {
  const stop = new AbortController();
  const late = setTimeout(() => stop.abort(), patience);
  try {
    const response = await fetch(path, {
      method: "POST",
      headers: { "content-type": "application/x-table-lines" },
      body,
      signal: stop.signal,
    });
    return response.ok ? await response.text() : null;
  } catch (_error) {
    return null;
  } finally {
    clearTimeout(late);
  }
}

// The first refusal of a reply, or an empty text.
function refusal(reply) {
  const words = reply.split("\n")[0].split(" ");
  return words[0] === "ERR" ? words[2] : "";
}

// ---- what is shown

// Whether keys were pressed last; and the call or card that was chosen last. Where the focus was lost while nothing could be
// chosen, keys find it there again.
let byKeys = false;
let held = "";
window.addEventListener("keydown", (event) => {
  byKeys = true;
  // A key that is held down presses a button once.
  if (event && event.repeat && event.key === "Enter" && event.target.tagName === "BUTTON") event.preventDefault();
});
window.addEventListener("pointerdown", () => { byKeys = false; });
const isLost = () => document.activeElement === null || document.activeElement === document.body;

// What an element does, which no attribute says.
const DEEDS = ["onclick", "onkeydown", "oninput"];

// Makes of a node what another one is, where it can be: not of another element, nor of a field. What is folded stays so.
function becomes(node, other) {
  if (node.nodeName !== other.nodeName || node.id !== other.id || node.nodeName === "INPUT") return false;
  if (node.nodeName === "#text") {
    if (node.data !== other.data) node.data = other.data;
    return true;
  }
  for (const name of new Set([...node.getAttributeNames(), ...other.getAttributeNames()])) {
    const value = other.getAttribute(name);
    if (value === node.getAttribute(name) || name === "open") continue;
    if (value === null) node.removeAttribute(name);
    else node.setAttribute(name, value);
  }
  for (const deed of DEEDS) node[deed] = other[deed];
  keepChildren(node, [...other.childNodes]);
  return true;
}

// Gives an element these children, of which those that were there and can become them stay: the less is new, the less is drawn.
function keepChildren(element, nodes) {
  const old = [...element.childNodes];
  for (const [i, node] of nodes.entries()) {
    if (i >= old.length) element.append(node);
    else if (!becomes(old[i], node)) old[i].replaceWith(node);
  }
  for (const node of old.slice(nodes.length)) node.remove();
}

// Shows these nodes on a page of that shape, where what they are made of is new; the focus and what is open stay, but where
// the focus has a reason to move.
function show(made, status, shape, nodes, moveFocus = () => {}) {
  say("status", status);
  at("status").className = shape.split(" ").includes("mine") ? "turn" : "";
  const mark = made + (busy && made !== LOGIN ? " busy" : "");
  if (mark === shown) return;
  shown = mark;
  const main = at("main");
  const focus = isLost() ? (byKeys ? held : "") : main.contains(document.activeElement) ? document.activeElement.id : "";
  const open = [...main.querySelectorAll("details[open]")].map((node) => node.id);
  const isTable = [document.body.className, shape].every((one) => one.startsWith("at-table"));
  document.body.className = shape;
  if (isTable) keepChildren(main, nodes());
  else main.replaceChildren(...nodes());
  for (const id of open) if (at(id)) at(id).open = true;
  movedAt = Date.now();
  // What was in the focus stays there; where it is gone, the first card or call that may be chosen.
  const isChosen = (id) => /^c(ard|all)-/.test(id);
  const kept = !focus || (at(focus) && !at(focus).disabled) ? at(focus)
    : [...main.querySelectorAll("button")].find((node) => isChosen(node.id) && isChosen(focus) && !node.disabled);
  if (kept) kept.focus();
  moveFocus();
}

const rankingLines = (reply) => reply.split("\n").filter((line) => /^\d/.test(line)).map((line) => line.split(" "));

// The names of each pair, as the results have them.
const namesIn = (text) => new Map([...text.matchAll(/^Pair (\d+): (.*)$/gm)].map((found) => [Number(found[1]), found[2]]));

// ---- the names of the list that the program was given, in place of the configuration's

// By pair, the names that the configuration has and those that are shown; none where no list was given.
let people = new Map();
let peopleFor = null;
// A name that may run from the right to the left is kept apart from what stands beside it.
const apart = (name) => (/[^\u0000-\u058f]/.test(name) ? "\u2068" + name + "\u2069" : name);

// What is told of the names: a line a pair, with tabs between its number, its two names in the configuration, and those of the list.
function readPeople(reply) {
  const lines = reply.split("\n").map((line) => line.split("\t")).filter((words) => words.length === 5);
  return new Map(lines.map((words) => [Number(words[0]), { own: words.slice(1, 3), shown: words.slice(3).map(apart) }]));
}

// Asks for them once; until there is an answer the configuration's are shown.
async function askNames(asked) {
  if (peopleFor === asked) return;
  const reply = await ask("/names", asked);
  if (reply === null || key !== asked) return;
  people = readPeople(reply);
  peopleFor = asked;
}

// The name that is shown for a player of that pair; where both have one name in the configuration, that.
function shownName(pair, name) {
  const found = people.get(Number(pair));
  const [first, second] = found ? found.own.map((one) => one === name) : [false, false];
  return first === second ? name : found.shown[first ? 0 : 1];
}

// The names that are shown for those who sit so; the first of a pair sits North or East. Where several pairs have the same names in
// the configuration, those.
function shownAt(names) {
  const shown = { ...names };
  for (const [first, second] of [["N", "S"], ["E", "W"]]) {
    const found = [...people.values()].filter(({ own }) => own[0] === names[first] && own[1] === names[second]);
    if (found.length === 1) [shown[first], shown[second]] = found[0].shown;
  }
  return shown;
}

// The names of pairs, with those that are shown in their place.
const shownPairs = (names) => new Map([...names].map(([pair, both]) => [pair, people.has(pair) ? TEXTS.both(...people.get(pair).shown) : both]));

// About how many columns of a text with letters of one width a name takes: marks none, and the signs of East Asia two.
const NO_COLUMN = /[\p{M}\u200b-\u200f\u2068\u2069]/u;
const TWO_COLUMNS = /[\u1100-\u115f\u2e80-\ua4cf\uac00-\ud7a3\uf900-\ufaff\ufe30-\ufe6f\uff00-\uff60\uffe0-\uffe6\u{1f300}-\u{1faff}\u{20000}-\u{3fffd}]/u;
const columnsOf = (text) => [...text].reduce((sum, sign) => sum + (NO_COLUMN.test(sign) ? 0 : TWO_COLUMNS.test(sign) ? 2 : 1), 0);

// The text of the results with those names: in the headings of score cards, and in the rankings, where they have 53 columns.
function shownResults(text) {
  const names = shownPairs(namesIn(text));
  const inColumns = (both) => both + " ".repeat(Math.max(0, 53 - columnsOf(both)));
  const row = (line, start, pair) => (names.has(Number(pair)) ? start + inColumns(names.get(Number(pair))) : line);
  return text.replace(/^Pair (\d+): .*$/gm, (_line, pair) => "Pair " + pair + ": " + names.get(Number(pair)))
    .replace(/^( {3,}\d+ {3,}(\d+) {2})(?=\S+ and \S).{53}/gm, row);
}

// What stands above a ranking: where there are two, between which pairs it is.
function rankingTitles(lines, alone) {
  const pairs = lines.map((words) => Number(words[1]));
  const ends = [Math.min(...pairs), Math.max(...pairs)];
  return alone ? [TEXTS.ranking, TEXTS.places] : [TEXTS.rankingOfPairs(...ends), TEXTS.placesOfPairs(...ends)];
}

// The rankings among some replies, each by itself.
function rankings(replies, own, names) {
  const there = replies.filter((reply) => !refusal(reply));
  return there.map((reply) => rankingNode(reply, there.length === 1, own, names));
}

// A ranking, with the names of the pairs where they are known.
function rankingNode(reply, alone, own, names) {
  const lines = rankingLines(reply);
  const [title, label] = rankingTitles(lines, alone);
  if (lines.every((words) => words[words.length - 1] === "-")) return [make("h2", null, title), make("p", null, TEXTS.noResults)];
  const named = names.size > 0;
  const titles = TEXTS.rankingHeads.slice(0, lines.length ? lines[0].length : 0);
  if (named) titles.splice(2, 0, TEXTS.names);
  const head = make("tr", null, ...titles.map((title, i) => make("th", { scope: "col", className: named && i === 2 ? "who" : "" }, title)));
  const cells = (words) => (named ? [...words.slice(0, 2), names.get(Number(words[1])) || "", ...words.slice(2)] : words);
  const rows = lines.map((words) => make("tr", { className: Number(words[1]) === own ? "own" : "" },
    ...cells(words).map((word, i) => (named && i === 2 ? make("td", { className: "who" }, ...nameNodes(word)) : make("td", null, word)))));
  return [make("h2", null, title), make("table", { aria_label: label }, make("thead", null, head), make("tbody", null, ...rows))];
}

// ---- who has logged in, and when the page looks

// The event, its site, date and plan, as the server tells them before anybody has sat down; null until it has.
let evening = null;
async function askEvening() {
  if (evening !== null) return;
  const reply = await ask("/desk", "");
  if (reply === null || refusal(reply)) return;
  const told = Object.fromEntries(reply.split("\n").map((line) => [line.split(" ")[0], line.split(" ").slice(1)]));
  if (!told.PLAN) return;
  evening = { event: spaced(told.EVENT[0]), site: spaced(told.SITE[0]), date: told.DATE[0], plan: told.PLAN };
  if (at("login-head")) at("login-head").replaceChildren(...eveningNodes());
}

// A name of the configuration, which has hyphens for blanks.
const spaced = (name) => name.replace(/-/g, " ");

function eveningNodes() {
  const large = (words) => make("p", { className: "large" }, words);
  if (evening === null) return [large(TEXTS.title)];
  const [year, month, day] = evening.date.split(".").map(Number);
  const date = new Date(year, month - 1, day).toLocaleDateString(TEXTS.locale, { weekday: "long", day: "numeric", month: "long", year: "numeric" });
  return [make("p", { className: "second" }, evening.site), large(evening.event), make("p", null, date), make("p", { className: "second" }, TEXTS.planOf(...evening.plan))];
}

function showLogin() {
  at("title").textContent = TEXTS.title;
  at("below").textContent = "";
  at("chip").hidden = true;
  at("tabs").hidden = true;
  at("menu").hidden = true;
  at("choices").hidden = true;
  document.title = TEXTS.title;
  show(LOGIN, "", "login", () => {
    const field = make("input", { id: "key", type: "text", inputMode: "numeric", autocomplete: "off", pattern: "[0-9 ]+", required: true });
    const enter = (event) => {
      event.preventDefault();
      key = field.value.replace(/\s/g, "");
      say("notice", "");
      say("wrong", "");
      look();
    };
    field.setAttribute("aria-describedby", "wrong key-help");
    const form = make("form", { onsubmit: enter, className: "panel" },
      make("div", { className: "login-head", id: "login-head" }, ...eveningNodes()),
      make("div", { className: "login-key" }, make("label", { for: "key" }, TEXTS.yourKey), field, make("p", { id: "wrong", role: "alert" }),
        make("p", { id: "key-help", className: "second" }, TEXTS.keyHelp), make("button", { type: "submit", className: "send" }, TEXTS.sitDown)),
      make("div", { className: "login-more" }, make("p", { className: "second" }, TEXTS.slipLost), button(TEXTS.textAndColours, "", "colours", true, showMenu)));
    field.oninput = () => {
      field.setAttribute("aria-invalid", "false");
      if (field.selectionStart === field.value.length) field.value = field.value.replace(/\s/g, "").replace(/(\d{3})(?=\d)/g, "$1 ");
    };
    return [form];
  });
  if (document.activeElement === document.body) at("key").focus();
  askEvening();
}

function leave() {
  key = null;
  role = { key: null, isDirector: false };
  people = new Map();
  peopleFor = null;
  awaited = { text: null, at: 0 };
  turn += 1;
  sessionStorage.removeItem("key");
  say("notice", "");
  drawn = () => {};
  leaveDesk();
  showLogin();
}

function unreachable() {
  say("status", TEXTS.unreachable);
  at("status").className = "lost";
}

// Looks once, and again once there is news. While a line is out nothing is looked at: its answer is followed by a look.
async function look() {
  clearTimeout(timer);
  const asked = key;
  if (asked === null) return showLogin();
  if (busy) return;
  const mine = turn + 1;
  const before = lastTold;
  const slow = setTimeout(unreachable, SLOW);
  // What is no answer of this server, as that of a network's own login page, cannot be read.
  await lookOnce(asked).catch(unreachable);
  clearTimeout(slow);
  // After a later look, an act or Leave those go on.
  if (turn === mine && key !== null) lookLater(lastTold !== before);
}

function lookAfter(wait) {
  clearTimeout(timer);
  timer = setTimeout(look, wait);
}

function lookLater(isNew) {
  if (lastTold === null) {
    lookAfter(AGAIN[Math.min(missed, AGAIN.length - 1)]);
    missed += 1;
    return;
  }
  missed = 0;
  if (document.hidden) lookAfter(HIDDEN_LOOK);
  else if (unsure) lookAfter(LOOK);
  else if (!isNew && Date.now() - awaited.at < LOOK) lookAfter(LOOK);
  else awaitNews(key + "\n" + lastTold);
}

// Looks as soon as the server would tell something else than this; and soon where it does not say so.
async function awaitNews(text) {
  if (awaited.text === text) return;
  awaited = { text, at: Date.now() };
  const reply = await ask("/wait", text, NEWS_LATE);
  if (awaited.text !== text) return;
  awaited.text = null;
  if (reply !== null && !refusal(reply)) look();
  else lookAfter(LOOK);
}

// What an answer of the desk tells that stands, and is neither of the clock's hand nor of the disks.
const standing = (reply) => reply.split("\n").slice(2, -2).filter((line) => !/^(DISK|KEPT) /.test(line)).map((line) => line + "\n").join("");

async function lookOnce(asked) {
  turn += 1;
  const mine = turn;
  lastTold = null;
  let place;
  // A key that may be nobody's is asked with once.
  if (role.key !== asked) {
    place = await ask("/place", asked);
    if (mine !== turn) return;
    if (place === null) return unreachable();
    const refused = refusal(place);
    if (refused && refused !== "NotAllowed") return refuse(refused);
    role = { key: asked, isDirector: refused === "NotAllowed" };
    enter(asked);
  }
  await askNames(asked);
  if (mine !== turn) return;
  // The view is asked for first, and shown as soon as it is there where it goes on from the one that is shown.
  const view = role.isDirector ? null : ask("/lines", "SEE " + asked + "\n");
  if (view) view.then((text) => { if (mine === turn && text !== null && goesOn(text)) showView(lastPlace, text); });
  // What is asked besides goes a moment later, so that it holds the view up nowhere.
  if (view && !place) await Promise.race([view, new Promise((done) => { setTimeout(done, AFTER_VIEW); })]);
  if (mine !== turn) return;
  const told = role.isDirector ? [ask("/tables", asked)] : [place || ask("/place", asked), view];
  const replies = await Promise.all([...told, ask("/desk", asked)]);
  if (mine !== turn) return;
  if (replies.includes(null)) return unreachable();
  const refused = refusal(replies[0]);
  if (refused) return refuse(refused);
  const stands = replies.pop();
  takeDesk(stands);
  await (role.isDirector ? showDirector(replies[0], asked, mine) : showPlayer(...replies, asked, mine));
  if (mine === turn) lastTold = replies.join("") + standing(stands);
}

function refuse(refused) {
  leave();
  say("wrong", TEXTS.refusals[refused] || TEXTS.noKey);
  at("key").setAttribute("aria-invalid", "true");
}

function enter(asked) {
  sessionStorage.setItem("key", asked);
  sayLeave();
  at("menu").hidden = false;
}

// Leave is asked: it wants a second press within some seconds.
const ASKED = 4000;
let askedAt = -ASKED;
const isAsked = () => Date.now() - askedAt < ASKED;

function sayLeave() {
  const label = isAsked() ? TEXTS.reallyLeave : TEXTS.leave;
  if (at("leave").textContent !== label) at("leave").textContent = label;
}

at("leave").onclick = () => {
  const again = isAsked();
  askedAt = again ? -ASKED : Date.now();
  sayLeave();
  if (again) {
    leave();
    at("key").focus();
  }
};
window.addEventListener("online", () => look());
window.addEventListener("offline", unreachable);
document.addEventListener("visibilitychange", () => { if (!document.hidden) look(); });
// Once the scripts of both pages are there.
document.addEventListener("DOMContentLoaded", () => look());
"##;

/// The players' script.
pub const TABLE_SCRIPT: &str = r##""use strict";
// The players' page. It judges nothing: it greys what would be refused, and shows what the server tells.

const SUITS = ["S", "H", "C", "D"];
const HAND_SUITS = ["S", "H", "D", "C"];
const SIGNS = { S: "\u2660\ufe0e", H: "\u2665\ufe0e", D: "\u2666\ufe0e", C: "\u2663\ufe0e" };
const STRAINS = ["C", "D", "H", "S", "NT"];
// Milliseconds: how long results last.
const RESULTS_LAST = 60000;
let results = { made: "", text: "", at: 0 };

// The lines of a reply of several lines, by their first words.
function fields(reply) {
  const found = {};
  for (const line of reply.split("\n")) {
    const words = line.split(" ");
    if (words.length > 1) found[words[0]] = words.slice(1);
  }
  return found;
}

function readPlace(reply) {
  const f = fields(reply);
  const some = (words, value) => (words[0] === "-" ? null : value(words));
  return {
    round: Number(f.ROUND[0]),
    rounds: Number(f.ROUND[1]),
    pair: Number(f.PLAYER[0]),
    name: f.PLAYER[1],
    table: some(f.TABLE, (w) => ({ number: w[0], seat: w[1], first: w[2], last: w[3] })),
    names: some(f.NAMES, (w) => shownAt({ N: w[0], E: w[1], S: w[2], W: w[3] })),
    contract: some(f.CONTRACT, (w) => ({ bid: w[0], declarer: w[1] })),
    answer: f.ANSWER[0] === "DUE",
    next: some(f.NEXT, (w) => ({ number: w[0], seat: w[1], first: w[2], last: w[3] })),
  };
}

function readHand(text) {
  const suits = text.split(".");
  return Object.fromEntries(HAND_SUITS.map((suit, i) => [suit, suits[i]]));
}

function readTrick(words) {
  if (words[0] === "-") return [];
  const leader = SEATS.indexOf(words[0]);
  return words.slice(1).map((card, i) => ({ seat: SEATS[(leader + i) % 4], card }));
}

function readView(reply) {
  const f = fields(reply);
  const none = (words) => words[0] === "-";
  return {
    board: f.PLAY[3],
    seat: f.SEAT[0],
    dealer: f.DEALER[0],
    vulnerable: f.DEALER[2],
    playing: f.PHASE[0] === "PLAY",
    turn: f.TURN[0],
    calls: f.CALLS || [],
    made: { calls: f.AT[0], cards: f.AT[1], claims: f.AT[2] },
    hand: readHand(f.HAND[0]),
    dummy: none(f.DUMMY) ? null : readHand(f.DUMMY[0]),
    trick: readTrick(f.TRICK),
    last: readTrick(f.LAST),
    tricks: { NS: f.TRICKS[0], EW: f.TRICKS[1] },
    claim: none(f.CLAIM) ? null : { seat: f.CLAIM[0], tricks: f.CLAIM[1] },
  };
}

const partner = (seat) => SEATS[(SEATS.indexOf(seat) + 2) % 4];
const nextTo = (seat) => SEATS[(SEATS.indexOf(seat) + 1) % 4];
const cardName = (card) => TEXTS.cardName(TEXTS.ranks[card[1]] || card[1], TEXTS.suits[card[0]]);
const { rankText } = TEXTS;

// The classes that give a suit its colour: of two, or of four where these are chosen.
const SUIT_CLASSES = { S: "", H: " red", D: " red diamond", C: " club" };

function suitSign(suit) {
  return make("span", { className: "suit" + SUIT_CLASSES[suit], aria_hidden: "true" }, SIGNS[suit]);
}

const strainOf = (call) => call.slice(1).replace(/X+$/, "");

function cardNodes(card) {
  return [make("span", { className: card[1] === "T" ? "ten" : "" }, rankText(card[1])),
    make("span", { className: "suit", aria_hidden: "true" }, SIGNS[card[0]])];
}

// A card in a text, its suit before its rank.
const cardInText = (card, label) => make("span", { className: SUIT_CLASSES[card[0]].trim(), role: "img", aria_label: label }, ...cardNodes(card).reverse());

// A call as text nodes; doubles stand behind the bid in a contract.
function callNodes(call) {
  if (call === "PASS") return [make("span", { className: "pass" }, TEXTS.pass)];
  if (call === "X") return [make("span", { className: "double" }, "X")];
  if (call === "XX") return [make("span", { className: "redouble" }, "XX")];
  const strain = strainOf(call);
  return [make("span", { className: "bid" }, call[0], SIGNS[strain] ? suitSign(strain) : strain, call.slice(1 + strain.length))];
}

// A call in words.
function callName(call) {
  const named = { PASS: TEXTS.passName, X: TEXTS.doubleName, XX: TEXTS.redoubleName }[call];
  if (named) return named;
  const strain = strainOf(call);
  const many = strain !== "NT" && call[0] !== "1";
  return TEXTS.bidName(call[0], (many ? TEXTS.suits : TEXTS.pieces)[strain[0]], TEXTS.doubled[call.slice(1 + strain.length)] || "");
}

function vulnerableText(words) {
  return TEXTS.vulnerable[words] || words;
}

// Whose call was the last that was no pass: [call, seat], or null.
function lastCall(view, among) {
  for (let i = view.calls.length - 1; i >= 0; i -= 1) {
    if (among(view.calls[i])) return { call: view.calls[i], seat: SEATS[(SEATS.indexOf(view.dealer) + i) % 4] };
  }
  return null;
}

const isBid = (call) => call !== "PASS" && call !== "X" && call !== "XX";
const isOther = (view, seat) => seat !== view.seat && seat !== partner(view.seat);
const height = (bid) => Number(bid[0]) * 5 + STRAINS.indexOf(bid.slice(1));

function allowedCall(view, call) {
  if (call === "PASS") return true;
  const last = lastCall(view, (made) => made !== "PASS");
  if (call === "X") return last !== null && isBid(last.call) && isOther(view, last.seat);
  if (call === "XX") return last !== null && last.call === "X" && isOther(view, last.seat);
  const bid = lastCall(view, isBid);
  return bid === null || height(call) > height(bid.call);
}

// ---- what is marked before it is sent

// A call or card that was tapped once; which board's claim is being made, and of how many tricks; whether the last trick is looked at.
let marked = null;
let claiming = null;
// The call or card that is on its way, in whose place it is shown already; else empty.
let onWay = "";
let looking = false;
let drawn = () => {};
let movedAt = 0;
// Milliseconds in which a tap or a click counts for nothing, once what can be tapped has moved; and between two taps.
const DEAF = 400;
const TWICE = 250;

// A tap marks and a second one sends, or one sends at once: as is set, and else by what points.
function isSafe() {
  const set = sessionStorage.getItem("sent");
  if (set !== null) return set === "twice";
  return typeof matchMedia === "function" && matchMedia("(pointer: coarse)").matches;
}

// Of a finger or a mouse, which may have meant what stood there before; keys choose what is in the focus.
const isDeaf = (event) => Boolean(event && event.detail > 0 && Date.now() - movedAt < DEAF);

// Draws what a tap here has marked: nothing moves.
function redraw() {
  const was = movedAt;
  drawn();
  movedAt = was;
}

function unmark() {
  marked = null;
  claiming = null;
  looking = false;
}

// Doubles, and bids of the highest two levels, which nobody makes in passing.
const isRare = (line) => /^CALL .* (XX?|[67]\w+)$/.test(line);

// What is marked already is sent, unless that was just now.
function sendMarked(event) {
  if (marked && !isDeaf(event) && Date.now() - marked.at >= TWICE) send(marked.line);
}

function mark(what, line) {
  marked = { what, line, at: Date.now() };
  redraw();
}

// What is tapped is marked, and sent by a second tap; or sent at once, but for rare calls.
function choose(what, line, event) {
  if (isDeaf(event)) return;
  held = what;
  if (marked && marked.what === what) sendMarked(event);
  else if (isSafe() || isRare(line)) mark(what, line);
  else send(line);
}

// Whether the line of what is marked would still be the next one.
function isStillDue(view, line) {
  const [word, , board, made] = line.split(" ");
  return board === view.board && made === view.made[{ CALL: "calls", CARD: "cards", REFUSE: "claims" }[word]] && (view.claim !== null) === (word === "REFUSE");
}

// A tap on the felt takes back what is marked.
function tapFelt(event) {
  if (marked === null || event.target.closest("button")) return;
  unmark();
  redraw();
}

function send(line) {
  unmark();
  return act(line);
}

// What a name stands for, as of a card or a call that can be tapped.
const namedNodes = (what) => (what === "" ? [] : what.startsWith("card-") ? cardNodes(what.slice(5)).reverse() : callNodes(what.slice(5)));

function confirmButton(prompt, sending) {
  const ready = marked !== null && !busy;
  const label = busy ? [onWay ? TEXTS.sendingIt : TEXTS.sending, ...namedNodes(onWay)] : marked ? [sending, ...namedNodes(marked.what)] : prompt;
  const node = button(make("span", null, ...[].concat(label)), "", "confirm", ready, sendMarked);
  node.className = ready ? "send" : busy ? "sending" : "";
  return node;
}

// ---- the table

const placeOf = (view, seat) => ["bottom", "left", "top", "right"][(SEATS.indexOf(seat) - SEATS.indexOf(view.seat) + 4) % 4];
const isVulnerable = (view, seat) => view.vulnerable === "All" || view.vulnerable === (seat === "N" || seat === "S" ? "NS" : "EW");
const count = (hand) => SUITS.reduce((sum, suit) => sum + hand[suit].length, 0);
// A name, which may break behind its signs.
const nameNodes = (name) => (name.match(/[^._-]*[._-]+|[^._-]+/g) || []).flatMap((part, i) => (i ? [make("wbr"), part] : [part]));
const dummyOf = (place) => (place.contract ? partner(place.contract.declarer) : null);
const onTurn = (view) => view.claim === null && view.turn;

// Whose hand plays and whether this player plays it: his own, or dummy's as declarer.
function handPlayed(place, view) {
  if (!view.playing || !place.contract || view.claim) return null;
  const dummy = dummyOf(place);
  if (view.turn === dummy) return view.seat === place.contract.declarer ? "dummy" : null;
  return view.turn === view.seat ? "own" : null;
}

function ledSuit(view) {
  return view.trick.length > 0 && view.trick.length < 4 ? view.trick[0].card[0] : null;
}

function biddingBox(view) {
  const mine = view.turn === view.seat;
  const call = (word, label, name, className) => {
    const id = "call-" + word;
    const line = "CALL " + key + " " + view.board + " " + view.made.calls + " " + word;
    const node = button(label, name, id, mine && allowedCall(view, word), (event) => choose(id, line, event));
    node.className = className;
    node.setAttribute("aria-pressed", String(onWay === id || (marked !== null && marked.what === id)));
    return node;
  };
  const cells = [call("PASS", TEXTS.pass, "", "box-call"), call("X", "X", TEXTS.double, "box-call"), call("XX", "XX", TEXTS.redouble, "box-call"),
    confirmButton(mine ? (isSafe() ? TEXTS.tapCall : TEXTS.yourCall) : TEXTS.toCall(SEAT_NAMES[view.turn]), marked && isBid(marked.what.slice(5)) ? TEXTS.bidIt : TEXTS.callIt)];
  for (let level = 1; level <= 7; level += 1) {
    for (const strain of STRAINS) {
      const word = level + strain;
      cells.push(call(word, make("span", null, String(level), SIGNS[strain] ? suitSign(strain) : strain), callName(word), "bid"));
    }
  }
  const box = make("section", { id: "dock", className: "box", aria_label: TEXTS.biddingBox }, ...cells);
  box.onkeydown = (event) => { arrowKey(event, 5); boxKey(event); };
  oneStop(box);
  return box;
}

// A hand or a box is one stop for Tab: the cell that is in the focus, else the marked one, else the first that may be chosen.
function oneStop(node) {
  const cells = [...node.querySelectorAll("button")].filter((one) => one.id !== "confirm");
  const free = cells.filter((one) => !one.disabled);
  const stop = free.find((one) => one === document.activeElement) || free.find((one) => marked && marked.what === one.id) || free[0];
  for (const one of cells) one.tabIndex = one === stop ? 0 : -1;
}

// In a sheet Tab goes round.
function holdTab(event) {
  if (event.key !== "Tab") return;
  const stops = [...event.currentTarget.querySelectorAll("button, input")].filter((one) => !one.disabled && (one.type !== "radio" || one.checked));
  const [first, last] = [stops[0], stops[stops.length - 1]];
  if (document.activeElement !== (event.shiftKey ? first : last)) return;
  event.preventDefault();
  (event.shiftKey ? last : first).focus();
}

// A sheet over the table: it takes the focus when it comes, holds it, and gives it back to what brought it.
function sheet(id, label, ...nodes) {
  const node = make("section", { id, className: "sheet", role: "dialog", aria_modal: "true", aria_label: label }, ...nodes);
  node.onkeydown = holdTab;
  return node;
}

// The sheet that is open, by the name of the button that brings it and the one that is in the focus first.
const sheetNow = () => (claiming ? ["claim-open", "claim-" + claiming.tricks] : looking ? ["last", "last-close"] : null);
let openSheet = null;
function moveFocus() {
  const now = sheetNow();
  if (now && !openSheet && at(now[1])) at(now[1]).focus();
  if (!now && openSheet && at(openSheet[0]) && document.activeElement === document.body) at(openSheet[0]).focus();
  openSheet = now;
}

// What is said with a claim, while it is being made.
let saying = "";

// Arrows go through what may be chosen in a hand or a box of so many columns.
function arrowKey(event, columns) {
  const nodes = [...event.currentTarget.querySelectorAll("button")];
  const step = { ArrowRight: 1, ArrowLeft: -1, ArrowDown: columns, ArrowUp: -columns }[event.key];
  const from = nodes.indexOf(document.activeElement);
  if (!step || from < 0) return;
  event.preventDefault();
  let to = from + step;
  while (nodes[to] && nodes[to].disabled) to += step;
  if (nodes[to]) nodes[to].focus();
  oneStop(event.currentTarget);
}

// What keys have chosen is in the focus, and as if it were clicked.
function choseKey(node) {
  if (!node || node.disabled) return;
  node.focus();
  node.click();
}

// In a hand keys choose: s, h, d or c, and then a rank, of which 1 is the ten's.
let suitKey = "";
function handKey(event) {
  const word = event.key.toUpperCase();
  if (SUITS.includes(word)) {
    suitKey = word;
    return;
  }
  choseKey(suitKey ? at("card-" + suitKey + (word === "1" ? "T" : word)) : null);
  suitKey = "";
}

// In the box keys choose: p, x, r, or a level and then c, d, h, s or n.
let level = "";
function boxKey(event) {
  const word = event.key.toLowerCase();
  if (/^[1-7]$/.test(word)) {
    level = word;
    return;
  }
  const strain = { c: "C", d: "D", h: "H", s: "S", n: "NT" }[word];
  const chosen = { p: "PASS", x: "X", r: "XX" }[word] || (level && strain ? level + strain : "");
  level = "";
  choseKey(chosen ? at("call-" + chosen) : null);
}

// Of a long auction the row in which a call is due is in view.
// It is asked for with the next frame, in which the page is laid out once; until then nothing is drawn.
const inFrame = (act) => (typeof requestAnimationFrame === "function" ? requestAnimationFrame(act) : act());
function showNewest() {
  const [box, due] = [at("auction"), at("due-call")];
  if (box) box.scrollTop = due ? due.offsetTop + due.offsetHeight - box.clientHeight : box.scrollHeight;
}

function auctionTable(place, view) {
  const columns = ["W", "N", "E", "S"];
  const due = view.playing ? null : view.turn;
  const head = make("tr", null, ...columns.map((seat) => make("th", { scope: "col", className: seat === due ? "turn" : "" },
    make("span",
      { className: "seat" + (isVulnerable(view, seat) ? " vul" : ""), aria_hidden: "true" }, seat), seat === view.dealer ? " " + TEXTS.deals : "", make("br"),
    make("span", { aria_label: SEAT_NAMES[seat] }, ...(seat === view.seat && view.isOwn !== false ? [TEXTS.you] : nameNodes(place.names ? place.names[seat] : ""))))));
  const cells = Array(columns.indexOf(view.dealer)).fill("").concat(view.calls);
  const rows = [];
  // An auction at play has room for twelve calls, so that it stays where it is.
  for (let i = 0; i < Math.max(cells.length + (due ? 1 : 0), due ? 12 : 0); i += 4) {
    rows.push(make("tr", null, ...[0, 1, 2, 3].map((j) => {
      const dueHere = due !== null && i + j === cells.length;
      const chosen = dueHere ? onWay || (marked ? marked.what : "") : "";
      if (chosen.startsWith("call-")) return make("td", { id: "due-call", className: "turn marked" }, ...namedNodes(chosen));
      if (dueHere) return make("td", { id: "due-call", className: "turn", aria_label: TEXTS.dueCall }, "?");
      return make("td", null, ...(cells[i + j] ? callNodes(cells[i + j]) : [""]));
    })));
  }
  return make("table", { aria_label: TEXTS.auction }, make("thead", null, head), make("tbody", null, ...rows));
}

// Which suits stand in which of two rows, for as long as the board is played: so that neither row has more than seven cards.
const rowsKept = new Map();
function rowsOf(hand, board, whose) {
  const name = board + whose;
  if (!rowsKept.has(name)) {
    const pairings = [[["S", "H"], ["C", "D"]], [["S", "D"], ["C", "H"]], [["S", "C"], ["H", "D"]]];
    const fits = pairings.find((rows) => rows.every((row) => row.reduce((sum, suit) => sum + hand[suit].length, 0) <= 7));
    rowsKept.set(name, fits || null);
  }
  const rows = rowsKept.get(name);
  if (rows) return rows.map((row) => row.map((suit) => [suit, hand[suit]]));
  // No pairing fits: in order, cut at seven.
  const all = SUITS.flatMap((suit) => [...hand[suit]].map((rank) => suit + rank));
  const ranksIn = (row, suit) => row.filter((card) => card[0] === suit).map((card) => card[1]).join("");
  return [all.slice(0, 7), all.slice(7)].map((row) => SUITS.map((suit) => [suit, ranksIn(row, suit)]));
}

// A hand; its cards can be tapped where they may be played.
function handNode(view, hand, label, id, mine, where) {
  const led = ledSuit(view);
  const follows = led !== null && hand[led] !== "";
  const node = make("section", { className: "hand" + (mine ? " on" : ""), id, aria_label: label }, make("h2", null, label));
  node.onkeydown = (event) => { arrowKey(event, 1); handKey(event); };
  const card = (suit, rank) => {
    const name = "card-" + suit + rank;
    const line = "CARD " + key + " " + view.board + " " + view.made.cards + " " + suit + rank;
    const made = button("", cardName(suit + rank), name, mine && (!follows || suit === led), (event) => choose(name, line, event));
    made.append(...cardNodes(suit + rank));
    made.className = "card" + SUIT_CLASSES[suit];
    if (mine) made.setAttribute("aria-pressed", String(marked !== null && marked.what === name));
    return made;
  };
  const voidNode = (suit) => make("div", { className: "group void-of in-" + suit }, make("span", { className: "void" }, suitSign(suit), " \u2013"));
  const group = ([suit, ranks]) => (ranks === "" ? voidNode(suit)
    : make("div", { className: "group in-" + suit + (ranks[0] === hand[suit][0] ? "" : " more") },
      ...[...ranks].filter((rank) => onWay !== "card-" + suit + rank).map((rank) => card(suit, rank))));
  const isShown = ([suit, ranks]) => ranks !== "" || (id === "dummy" && hand[suit] === "");
  const suits = where === "left" || where === "right" ? SUITS.map((suit) => [[suit, hand[suit]]]) : rowsOf(hand, view.board, id);
  const rows = suits.map((row) => row.filter(isShown)).filter((row) => row.length > 0);
  node.append(make("div", { className: "cards" }, ...rows.map((row) => make("div", { className: "line" }, ...row.map(group)))));
  oneStop(node);
  return node;
}

function plate(place, view, seat) {
  const declarer = place.contract ? place.contract.declarer : null;
  const acts = onTurn(view) === dummyOf(place) && view.seat === dummyOf(place) ? declarer : onTurn(view);
  const name = place.names ? place.names[seat] : SEAT_NAMES[seat];
  const node = make("div", { className: "plate" + (acts === seat ? " turn" : "") },
    make("b", { className: isVulnerable(view, seat) ? "vul" : "", aria_label: SEAT_NAMES[seat] }, seat), make("span", null, ...nameNodes(name)));
  const role = name.length > 20 ? "" : "roomy";
  if (seat === declarer) node.append(make("em", { className: role, aria_label: TEXTS.declarer }, make("i", null, TEXTS.declarerShort), make("i", null, TEXTS.declarer)));
  if (view.playing && seat === dummyOf(place)) node.append(make("em", null, TEXTS.dummy));
  return node;
}

// A card of a trick, on the side of who played it.
function cardOnTable(view, { seat, card }, won) {
  return make("span", { className: "played " + placeOf(view, seat) + SUIT_CLASSES[card[0]] + (won ? " won" : ""), role: "img",
    aria_label: SEAT_NAMES[seat] + ": " + cardName(card) }, ...cardNodes(card));
}

const dueOnTable = (view, seat) => make("span", { className: "due " + placeOf(view, seat), aria_hidden: "true" }, seat);

// The trick on the table: the one at play, or the last whole one until the next card is led.
function trickNode(view) {
  const sent = onWay.startsWith("card-") ? cardOnTable(view, { seat: view.turn, card: onWay.slice(5) }, false) : null;
  const whole = view.trick.length === 0 && sent === null;
  const trick = whole ? view.last : view.trick;
  const node = make("div", { className: "trick", role: "group", aria_label: whole && trick.length ? TEXTS.lastTrick : TEXTS.trickNow },
    ...trick.map((one) => cardOnTable(view, one, whole && one.seat === view.turn)));
  if (sent) sent.className += " sent";
  if (sent) node.append(sent);
  const due = whole || !onTurn(view) ? null : !sent ? view.turn : trick.length < 3 ? nextTo(view.turn) : null;
  if (due) node.append(dueOnTable(view, due));
  return node;
}

function stageNode(place, view, middle) {
  const node = make("section", { id: "stage", aria_label: TEXTS.table, onclick: tapFelt });
  const dummy = dummyOf(place);
  for (const seat of SEATS) {
    const where = placeOf(view, seat);
    if (where === "bottom") continue;
    const box = make("div", { className: "at-" + where }, plate(place, view, seat));
    if (view.playing && seat === dummy && view.dummy) box.append(handNode(view,
      view.dummy, TEXTS.dummyHand(SEAT_NAMES[seat]), "dummy", !busy && handPlayed(place, view) === "dummy", where));
    node.append(box);
  }
  node.append(middle);
  return node;
}

// The tricks of this player's side and of the other.
const sidesOf = (view) => (view.seat === "N" || view.seat === "S" ? [view.tricks.NS, view.tricks.EW] : [view.tricks.EW, view.tricks.NS]);

// The tricks as cards are turned at a table: ours upright, theirs lying.
function tallyNode(view) {
  const [we, they] = sidesOf(view);
  const marks = Array(Number(we)).fill("ours").concat(Array(Number(they)).fill("theirs"), Array(13 - Number(we) - Number(they)).fill(""));
  return make("span", { className: "tally", role: "img", aria_label: TEXTS.tally(we, they) }, ...marks.map((mark) => make("i", { className: mark })));
}

// The contract, and how many tricks this side needs.
const contractNode = ({ bid }) => make("span", { className: "contract", aria_label: callName(bid) }, ...callNodes(bid));
const isOurs = (view, declarer) => declarer === view.seat || declarer === partner(view.seat);
const needed = (view, { bid, declarer }) => (isOurs(view, declarer) ? 6 + Number(bid[0]) : 8 - Number(bid[0]));

function stripNode({ contract }, view, auction) {
  const { declarer } = contract;
  const words = (declarer === view.seat ? TEXTS.by(declarer, true) : declarer)
    + (isOurs(view, declarer) ? TEXTS.needs : TEXTS.weNeed)(needed(view, contract));
  const calls = make("details", { id: "calls" }, make("summary", null, contractNode(contract), make("span", null, words)), make("div", null, auction));
  return make("section", { id: "strip", aria_label: TEXTS.contract }, calls, tallyNode(view),
    make("span", { className: "score", aria_hidden: "true" }, sidesOf(view).join("\u2013")));
}

// Who won the last trick.
const lastWinner = (place, view) => winnerOf(view.last, strainOf(place.contract.bid)[0]);

function lastTrickNodes(place, view) {
  const winner = lastWinner(place, view);
  return view.last.map(({ seat, card }) => make("span", { className: seat === winner ? "won" : "" },
    make("span", { className: "second", aria_hidden: "true" }, seat + " "), cardInText(card, SEAT_NAMES[seat] + ": " + cardName(card))));
}

// What stands beside the table: the contract and the tricks, the last trick, the auction and the round.
function sideNode(place, view) {
  const { contract } = place;
  const [we, they] = sidesOf(view);
  const due = needed(view, contract);
  const part = (name, title, ...nodes) => make("section", { className: "side-" + name }, make("h2", null, title), ...nodes);
  const node = make("aside", { id: "side", aria_label: TEXTS.theBoard },
    make("section", { className: "side-contract" }, contractNode(contract), make("span", null, make("b", null, TEXTS.bySeat(contract.declarer, contract.declarer === view.seat)), make("br"),
      (isOurs(view, contract.declarer) ? TEXTS.toMake : TEXTS.toBeat)(due, due - Number(we)))),
    part("tricks", TEXTS.tricksHead, make("p", null, make("span", null, TEXTS.weTook(we)), tallyNode(view), make("span", null, TEXTS.theyTook(they)))));
  if (view.last.length) node.append(part("last", TEXTS.lastTrickTo(SEAT_NAMES[lastWinner(place, view)]), make("p", null, ...lastTrickNodes(place, view))));
  const all = worthOfAll(told.boards);
  node.append(part("auction", TEXTS.auction, auctionTable(place, view)),
    part("round", TEXTS.roundSoFar, roundNode(place, view), ...(all ? [make("p", null, TEXTS.eveningSoFar, worthOfSome(all))] : [])));
  return node;
}

// What a contract comes to with so many tricks, in words.
function resultWords(bid, tricks) {
  const over = tricks - 6 - Number(bid[0]);
  return callName(bid) + (over === 0 ? " " : ", ") + TEXTS.made(over);
}

// What the claim of a side comes to, by the tricks that it has and those that it claims.
function claimWords(place, view, seat, tricks) {
  const bid = place.contract.bid;
  const north = seat === "N" || seat === "S";
  const has = Number(north ? view.tricks.NS : view.tricks.EW) + tricks;
  const declares = (place.contract.declarer === "N" || place.contract.declarer === "S") === north;
  const made = declares ? has : 13 - has;
  const score = scoreOf(bid, made, isVulnerable(view, place.contract.declarer));
  const own = (place.contract.declarer === view.seat || place.contract.declarer === partner(view.seat)) ? score : -score;
  return resultWords(bid, made) + ": " + TEXTS.forYou(signed(own));
}

// The score of a contract with so many tricks, for its declarer (Law 77).
function scoreOf(bid, tricks, isVul) {
  const level = Number(bid[0]);
  const strain = strainOf(bid);
  const by = [1, 2, 4][/X*$/.exec(bid)[0].length];
  const over = tricks - 6 - level;
  if (over < 0 && by === 1) return (isVul ? 100 : 50) * over;
  if (over < 0) return -(by / 2) * (isVul ? 300 * -over - 100 : -over <= 3 ? 200 * -over - 100 : 300 * -over - 400);
  const each = strain === "C" || strain === "D" ? 20 : 30;
  const base = (each * level + (strain === "NT" ? 10 : 0)) * by;
  const slam = level === 7 ? (isVul ? 1500 : 1000) : level === 6 ? (isVul ? 750 : 500) : 0;
  return base + (base >= 100 ? (isVul ? 500 : 300) : 50) + slam + (by === 1 ? each * over : (by / 2) * (50 + (isVul ? 200 : 100) * over));
}

const leftOf = (view) => 13 - Number(view.tricks.NS) - Number(view.tricks.EW);

function claimSheet(place, view) {
  const left = leftOf(view);
  const choice = (tricks, label) => {
    const node = button(label, "", "claim-" + tricks, true, () => { claiming = { board: view.board, tricks }; redraw(); });
    node.setAttribute("aria-pressed", String(claiming.tricks === tricks));
    return node;
  };
  const some = Array.from({ length: left - 1 }, (_none, i) => choice(i + 1, String(i + 1)));
  const line = "CLAIM " + key + " " + view.board + " " + view.made.claims + " " + claiming.tricks;
  const said = make("input", { id: "claim-says", type: "text", maxLength: 100, value: saying, oninput: () => { saying = said.value; } });
  // What is said goes with the claim once that stands.
  const makeIt = async () => {
    const words = plainText(saying);
    saying = "";
    if (await send(line) && words) askDesk("STATEMENT " + words);
  };
  const claim = button(TEXTS.claimTricks(claiming.tricks), "", "claim-button", true, (event) => (isDeaf(event) ? undefined : makeIt()));
  claim.className = "send";
  return sheet("claiming", TEXTS.claimTitle, make("h2", null, TEXTS.claimTitle), make("div", null, TEXTS.claimOf(left)),
    make("div", { className: "numbers" }, ...some), make("div", { className: "ends" }, choice(0, TEXTS.claimNone), choice(left, TEXTS.claimAll(left))),
    make("p", null, claimWords(place, view, view.seat, claiming.tricks) + "."),
    make("div", { className: "says" }, make("label", { for: "claim-says" }, TEXTS.claimSays), said), make("p", { className: "second" }, TEXTS.claimHelp(isOurs(view, place.contract.declarer))),
    make("div", { className: "row" }, button(TEXTS.back, "", "claim-back", true, () => { claiming = null; drawn(); }), claim));
}

function lastSheet(place, view) {
  const winner = lastWinner(place, view);
  const close = button(TEXTS.backToPlay, "", "last-close", true, () => { looking = false; drawn(); });
  close.className = "send";
  return sheet("last-trick", TEXTS.lastTrick, make("h2", null, TEXTS.lastTrickTo(SEAT_NAMES[winner])),
    make("div", { className: "trick" }, ...view.last.map((one) => cardOnTable(view, one, one.seat === winner))), close);
}

// Answers to a claim that this player is asked for.
function answerDock(place, view) {
  const line = (word) => word + " " + key + " " + view.board + " " + view.made.claims;
  const agreed = desk.agreed.length ? ". " + TEXTS.agrees(desk.agreed.map((seat) => SEAT_NAMES[seat])) : TEXTS.ifAgreed;
  const said = desk.said ? [make("p", { className: "said" }, TEXTS.saidWith(SEAT_NAMES[view.claim.seat], desk.said))] : [];
  return make("section", { id: "dock", className: "claimed", aria_label: TEXTS.theClaim },
    make("p", null, make("b", null, TEXTS.claims(SEAT_NAMES[view.claim.seat], view.claim.tricks, leftOf(view))), make("br"),
      claimWords(place, view, view.claim.seat, Number(view.claim.tricks)) + agreed), ...said,
    refuseButton(line("REFUSE")), button(TEXTS.agree, "", "agree", true, (event) => { if (!isDeaf(event)) send(line("AGREE")); }));
}

// Whoever refuses is asked: it wants a second press.
function refuseButton(line) {
  const asked = marked !== null && marked.what === "refuse";
  const press = (event) => { if (isDeaf(event)) return; if (asked) sendMarked(event); else mark("refuse", line); };
  const node = button(asked ? TEXTS.reallyRefuse : TEXTS.refuse, "", "refuse", true, press);
  node.setAttribute("aria-pressed", String(asked));
  return node;
}

function playDock(place, view) {
  const played = handPlayed(place, view);
  const isDummy = dummyOf(place) === view.seat;
  const cells = [button(TEXTS.lastTrick, "", "last", view.last.length > 0, () => { looking = !looking; drawn(); })];
  const claim = button(TEXTS.claim, "", "claim-open",
    !isDummy && !view.claim && view.trick.length === 0 && view.made.cards !== "0", () => { claiming = { board: view.board, tricks: leftOf(view) }; drawn(); });
  claim.hidden = isDummy;
  if (isDummy) cells.push(claim, button(TEXTS.myBoards, "", "confirm", true, () => turnLeaf({ card: true })));
  else cells.push(claim, confirmButton(played ? (isSafe() ? TEXTS.tapCard : TEXTS.yourCard) : TEXTS.pleaseWait, TEXTS.playIt));
  return make("section", { id: "dock", className: "play", aria_label: TEXTS.dock }, ...cells);
}

const toPlay = (view, lead) => (view.turn === view.seat ? TEXTS.youAreToPlay : TEXTS.isToPlay(SEAT_NAMES[view.turn], lead));

// Whom the claim asks (Law 68): declarer's both defenders, a defender's declarer alone; who of them has agreed, and who has not.
function answersWords(place, view) {
  const { declarer } = place.contract;
  const asked = view.claim.seat === declarer ? SEATS.filter((seat) => seat !== declarer && seat !== partner(declarer)) : [declarer];
  const [agreed, due] = [true, false].map((is) => asked.filter((seat) => desk.agreed.includes(seat) === is).map((seat) => SEAT_NAMES[seat]));
  return [agreed.length ? TEXTS.agrees(agreed) : "", due.length ? TEXTS.areAsked(due) : ""].filter(Boolean).join(" ");
}

// Declarer's claim asks both defenders: whose answer is due no more has agreed, and his partner is asked.
const hasAgreed = (place, view) => view.claim.seat === place.contract.declarer && isOther(view, view.claim.seat) && !place.answer;

// What is waited for, in a sentence.
function waiting(place, view) {
  if (view.claim) {
    const { seat, tricks } = view.claim;
    if (place.answer) return TEXTS.answerWaited;
    if (hasAgreed(place, view)) return TEXTS.youAgreed(SEAT_NAMES[seat], TEXTS.fewOf(tricks, leftOf(view)), SEAT_NAMES[partner(view.seat)]);
    return (seat === view.seat ? TEXTS.youClaim(tricks, leftOf(view)) : TEXTS.claimsFew(SEAT_NAMES[seat], tricks, leftOf(view))) + answersWords(place, view);
  }
  if (!view.playing) return view.turn === view.seat ? TEXTS.yourTurnToCall : TEXTS.isToCall(SEAT_NAMES[view.turn]);
  const played = handPlayed(place, view);
  if (played) {
    const hand = played === "own" ? view.hand : view.dummy;
    const led = ledSuit(view);
    if (led && hand && hand[led] !== "") return (played === "own" ? TEXTS.follow : TEXTS.followDummy)(TEXTS.pieces[led]);
    if (view.made.cards === "0") return TEXTS.openingLead;
    return played === "own" ? TEXTS.turnIsYours : TEXTS.turnFromDummy;
  }
  if (!place.contract) return toPlay(view, false);
  if (view.seat === dummyOf(place)) return TEXTS.youAreDummy(place.names[place.contract.declarer]);
  if (view.turn === dummyOf(place)) return TEXTS.fromDummy(SEAT_NAMES[place.contract.declarer]);
  return toPlay(view, view.made.cards === "0");
}

function isMine(place, view) {
  if (view.claim) return place.answer;
  return view.playing ? handPlayed(place, view) !== null : view.turn === view.seat;
}

function playNodes(place, view) {
  const dummy = dummyOf(place);
  const own = handNode(view, view.hand,
    view.seat === dummy && view.playing ? TEXTS.ownDummy : TEXTS.ownHand(SEAT_NAMES[view.seat]), "hand", !busy && handPlayed(place, view) === "own");
  if (!view.playing || !place.contract) {
    const stage = stageNode(place, view, make("div", { id: "auction", className: "auction" }, auctionTable(place, view)));
    // The board lies there while there is room.
    if (view.calls.length < 9) stage.append(boardPicture({ number: Number(view.board), side: "NS", calls: [] }, view.seat));
    return [stage, own, biddingBox(view)];
  }
  const nodes = [stripNode(place, view, auctionTable(place, view)), stageNode(place, view, trickNode(view)), own];
  if (claiming && (claiming.board !== view.board || view.claim || view.trick.length > 0)) claiming = null;
  if (claiming) nodes.push(claimSheet(place, view));
  else if (looking && view.last.length) nodes.push(lastSheet(place, view));
  nodes.push(view.claim && place.answer ? answerDock(place, view) : playDock(place, view), sideNode(place, view));
  return nodes;
}

// ---- what is told in passing

// Where the play was when the page looked last; and a notice that stands until the play is elsewhere: its text and where it stands.
let playIs = "";
let passing = null;

function sayPassing(text, where = playIs) {
  passing = { text, where };
  say("notice", text);
}

// The play is where it is shown now.
function playGoesOn(place, view) {
  playIs = [place.round, view ? [view.board, view.made.calls, view.made.cards, view.made.claims].join(" ") : "-"].join(" ");
  if (passing === null || playIs.startsWith(passing.where)) return;
  if (at("notice").textContent === passing.text) say("notice", "");
  passing = null;
}

// ---- what is heard, and what plays itself

let before = null;

// Why a claim stands no more, as far as it is told.
function claimFell() {
  if (!desk.refusedBy) return TEXTS.claimRefused;
  return before && desk.refusedBy === before.seat ? TEXTS.youRefused : TEXTS.claimRefusedBy(SEAT_NAMES[desk.refusedBy]);
}

// What came since the last view of the same board, in words.
function news(view) {
  const old = before;
  before = view;
  if (!old || old.board !== view.board) return TEXTS.board(view.board);
  const said = [];
  view.calls.slice(old.calls.length).forEach((call, i) => said.push(SEAT_NAMES[SEATS[(SEATS.indexOf(view.dealer) + old.calls.length + i) % 4]] + ": " + callName(call)));
  const cards = view.trick.length ? view.trick : view.made.cards === old.made.cards ? [] : view.last;
  const fresh = Number(view.made.cards) - Number(old.made.cards);
  cards.slice(Math.max(0, cards.length - fresh)).forEach(({ seat, card }) => said.push(SEAT_NAMES[seat] + ": " + cardName(card)));
  if (old.claim && !view.claim) sayPassing(claimFell());
  if (fresh < 0) sayPassing(TEXTS.cardBack);
  else if (view.calls.length < old.calls.length) sayPassing(TEXTS.callBack);
  if (view.last.length && view.trick.length === 0 && fresh > 0) said.push(TEXTS.trickTo(SEAT_NAMES[view.turn]));
  return said.join(". ");
}

// The only card of the last trick is played by the page.
const ITSELF = 700;
let played = "";
function playLast(place, view) {
  const whose = handPlayed(place, view);
  const hand = whose === "own" ? view.hand : view.dummy;
  if (!whose || !hand || count(hand) !== 1) return;
  const suit = SUITS.find((one) => hand[one] !== "");
  const line = "CARD " + key + " " + view.board + " " + view.made.cards + " " + suit + hand[suit];
  if (played === line) return;
  played = line;
  setTimeout(() => { if (!busy && key !== null) act(line); }, ITSELF);
}

// ---- pages between the boards

function placeText(place) {
  const table = place.table;
  return table ? TEXTS.boardsOf(table.first, table.last) : TEXTS.sitsOut;
}

function nextText(place) {
  if (place.round >= place.rounds) return "";
  return place.next ? TEXTS.nextRound(place.next.number, SEAT_NAMES[place.next.seat]) : TEXTS.sitsOutNext;
}

function headText(place) {
  return TEXTS.ofPair(shownName(place.pair, place.name), place.pair);
}

// Who sits in some seats, a line each.
const seatsNode = (seats, name) => make("ul", { className: "names" },
  ...seats.map((seat) => make("li", null, make("span", { className: "mark", aria_label: SEAT_NAMES[seat] }, seat), name(seat))));

// Who sits at a table: this player and his partner, then those whom they play.
function namesNodes({ table, names }) {
  const { seat } = table;
  const sides = [[seat, partner(seat)], SEATS.filter((one) => one !== seat && one !== partner(seat))];
  const [ours, theirs] = sides.map((seats) => seatsNode(seats, (one) => (one === seat ? TEXTS.isYou(names[one]) : names[one])));
  return [ours, make("h2", null, TEXTS.opponents), theirs];
}

// What the evening has come to so far, and the way to the score card.
function soFarNodes() {
  const all = worthOfAll(told.boards);
  const words = all ? [make("p", null, TEXTS.eveningSoFar, make("b", null, worthOfSome(all)))] : [];
  return [...words, make("div", { className: "row" }, button(TEXTS.myBoards, "", "between-boards", true, () => turnLeaf({ card: true })))];
}

// The table at which he sits and the one to which he goes.
function wayNodes(table, next) {
  if (!table || table.number === next.number) return [];
  const tile = (className, number, words) => make("li", { className }, make("b", null, number), words);
  return [make("ol", { className: "round" }, tile("here", table.number, TEXTS.youAreHere), tile("now", next.number, TEXTS.youGoHere))];
}

function wayText(table, next) {
  const up = table ? Number(next.number) - Number(table.number) : null;
  return up === 0 ? TEXTS.stay : TEXTS.goTo(next.number, up);
}

// Who sits at his next table: he and his partner, and whom they meet.
function meetNodes(next) {
  if (desk.meets === null) return [];
  const names = shownAt(desk.meets.names);
  const own = [next.seat, partner(next.seat)];
  const others = SEATS.filter((seat) => !own.includes(seat));
  const pair = others.includes("N") ? desk.meets.ns : desk.meets.ew;
  return [seatsNode(own, (seat) => (seat === next.seat ? TEXTS.isYou(names[seat]) : names[seat])),
    make("h2", null, TEXTS.youMeet(pair)), seatsNode(others, (seat) => names[seat])];
}

function betweenNodes(place, next) {
  const nodes = [];
  if (next) {
    nodes.push(make("section", { className: "panel" }, make("p", { className: "second" }, TEXTS.nextOf(place.round + 1, place.rounds)),
      make("p", { className: "large" }, TEXTS.tableSeat(next.number, SEAT_NAMES[next.seat])),
      make("p", null, TEXTS.boardsOf(next.first, next.last) + ". ",
        make("b", null, wayText(place.table, next))), ...wayNodes(place.table, next), ...meetNodes(next),
      make("p", { className: "second" }, TEXTS.roundBegins(place.round + 1))));
  }
  const here = make("section", { className: "panel" }, make("p", { className: "second" }, TEXTS.roundOf(place.round, place.rounds)));
  if (place.table) here.append(
    make("p", { className: "large" }, TEXTS.tableSeat(place.table.number, SEAT_NAMES[place.table.seat])),
    make("p", null, placeText(place) + "."), ...namesNodes(place));
  else here.append(make("p", { className: "large" }, TEXTS.sitOut));
  if (!next || !place.table) nodes.unshift(here);
  const played = told.boards.filter((board) => board.round === String(place.round));
  if (played.length) nodes.push(make("section", { className: "panel wide-panel" }, make("h2", null, TEXTS.roundOwn(place.round)), cardTable(place, played),
    ...soFarNodes()));
  else if (told.boards.length) nodes.push(make("section", { className: "panel" }, ...soFarNodes()));
  return nodes;
}

// ---- the bar

function barFor(place, view) {
  const chip = at("chip");
  chip.hidden = !view;
  if (!view) {
    const { table, names } = place;
    at("title").textContent = shownName(place.pair, place.name);
    at("below").textContent = TEXTS.pairOf(place.pair) + (table ? TEXTS.with(TEXTS.sides[table.seat], names[partner(table.seat)]) : "");
    return;
  }
  const ours = view.seat === "N" || view.seat === "S" ? "NS" : "EW";
  const theirs = ours === "NS" ? "EW" : "NS";
  const is = (side) => view.vulnerable === "All" || view.vulnerable === side;
  chip.className = (is(ours) ? "vul-we " : "") + (is(theirs) ? "vul-they " : "") + "deals-" + placeOf(view, view.dealer);
  chip.textContent = view.board;
  chip.setAttribute("aria-label", TEXTS.boardWords(view.board, SEAT_NAMES[view.dealer], vulnerableText(view.vulnerable)));
  at("title").textContent = TEXTS.board(view.board);
  at("below").replaceChildren(TEXTS.dealsShort(view.dealer) + " \u00b7 " + TEXTS.vulnerableShort[view.vulnerable],
    make("span", { className: "wide" }, place.table ? TEXTS.atTable(place.table.number, place.round, place.rounds) + whichBoard(place.table, view.board) : ""));
}

// Which of the boards of this round it is, where it is one of them.
function whichBoard({ first, last }, board) {
  const [index, count] = [Number(board) - Number(first), Number(last) - Number(first) + 1];
  return index >= 0 && index < count ? TEXTS.boardOf(index, count) : "";
}

// The classes by which the style lays the page out.
function shapeOf(place, view) {
  if (!view) return "between";
  const dummy = dummyOf(place);
  const side = view.playing && dummy && view.dummy ? placeOf(view, dummy) : "";
  return "at-table " + (view.playing && place.contract ? "playing" : "bidding") + (side ? " dummy-" + side : "");
}

function turnTitle(mine) {
  document.title = mine ? TEXTS.yourTurn : TEXTS.title;
}

function showView(placeReply, reply) {
  const place = readPlace(placeReply);
  nextRound = null;
  const refused = refusal(reply);
  const made = placeReply + reply;
  if (refused) {
    before = null;
    unmark();
    turnTitle(false);
    const done = refused === "NotCurrent";
    const status = refused === "NotDealt" ? TEXTS.notDealtYet(place.round === 1 && !told.boards.length) : done ? TEXTS.boardsDone + nextText(place)
      : refused === "SitsOut" ? TEXTS.sitsOut + " " + nextText(place) : TEXTS.refusals[refused] || reply;
    drawn = () => {};
    const goesTo = (done || refused === "SitsOut") && place.next;
    if (showLeaf(place, goesTo ? TEXTS.toRound(place.round + 1) : TEXTS.toNext)) return;
    barFor(place, null);
    nextRound = goesTo ? place.round + 1 : null;
    showClock();
    show(made + told.text + JSON.stringify(desk.meets), status, "between" + (goesTo ? " goes-on" : ""), () => betweenNodes(place, goesTo));
    return;
  }
  const view = readView(reply);
  playGoesOn(place, view);
  if (unsure) sayFate(place, view);
  if (marked && !isStillDue(view, marked.line)) marked = null;
  const mine = isMine(place, view);
  turnTitle(mine);
  const said = news(view);
  if (said) say("heard", said);
  if (showLeaf(place, (mine ? TEXTS.nextYours : TEXTS.nextBoard)(view.board))) return;
  barFor(place, view);
  drawn = () => show(made + JSON.stringify([marked, claiming, looking, isSafe(), desk.said, desk.agreed]),
    waiting(place, view), shapeOf(place, view) + (mine ? " mine" : ""), () => playNodes(place, view), moveFocus);
  drawn();
  inFrame(showNewest);
  playLast(place, view);
}

async function showClosed(placeReply, asked, mine) {
  const place = readPlace(placeReply);
  const first = await ask("/lines", "RANK " + asked + " 1\n");
  const second = await ask("/lines", "RANK " + asked + " 2\n");
  if (mine !== turn) return;
  if (first === null || second === null) return unreachable();
  const made = placeReply + first + second;
  // The results are long: they are asked for again where a ranking has changed, and else once a minute.
  if (results.made !== made || Date.now() - results.at > RESULTS_LAST) {
    const text = await ask("/results", asked);
    if (mine !== turn) return;
    if (text === null) return unreachable();
    // What boards are worth may have changed as well.
    told.at = -BOARDS_LAST;
    results = { made, text, at: Date.now() };
  }
  await lookAtBoards(asked, place, null);
  if (mine !== turn) return;
  turnTitle(false);
  drawn = () => {};
  if (showLeaf(place, TEXTS.toNext)) return;
  const [event, where] = results.text.split("\n").map((line) => line.replace(/-/g, " "));
  at("chip").hidden = true;
  at("title").textContent = TEXTS.finalOf(event);
  at("below").textContent = where;
  const both = [first, second].filter((reply) => !refusal(reply));
  show(made + results.text + told.text, TEXTS.closed, "final", () => finalNodes(place, both));
}

// What has come of the evening for this player's pair: [place, pair, score, per cent] among so many.
function bannerNode(place, own, among, names) {
  const large = (words) => make("p", { className: "large" }, words);
  return make("section", { id: "own", className: "banner" }, large(TEXTS.youAreOf(TEXTS.ordinals[own[0] - 1] || TEXTS.atPlace(own[0]), among)),
    large(own[3] ? TEXTS.percent(own[3]) : own[2]), make("p", null, TEXTS.pairAnd(place.pair, names.get(place.pair))), make("p", null, own[3] ? TEXTS.pointsOf(own[2]) : ""));
}

function finalNodes(place, both) {
  const names = shownPairs(namesIn(results.text));
  const nodes = [];
  for (const lines of both.map(rankingLines)) {
    const own = lines.find((words) => Number(words[1]) === place.pair);
    if (own) nodes.push(bannerNode(place, own, lines.length, names));
  }
  nodes.push(make("div", { className: "sides" },
    ...rankings(both, place.pair, names).map((nodes) => make("section", { className: "panel" }, ...nodes))));
  const card = button(TEXTS.ownCard, "", "my-boards", told.boards.length > 0, () => turnLeaf({ card: true }));
  card.className = "send";
  const all = make("details", { id: "all-results" }, make("summary", null, TEXTS.allBoards), make("pre", { id: "results" }, shownResults(results.text)));
  const turnAll = () => { all.open = !all.open; if (all.open && all.scrollIntoView) all.scrollIntoView(); };
  nodes.push(make("div", { className: "ways" }, card, button(TEXTS.allBoards, "", "all-boards", true, turnAll),
    button(TEXTS.print, "", "print", true, () => window.print())), all);
  return nodes;
}

// Shows where a player sits, and the play there, or what came of the session.
async function showPlayer(place, view, asked, mine) {
  const where = readPlace(place);
  const seen = refusal(view) ? null : readView(view);
  playGoesOn(where, seen);
  if (where.round > where.rounds) return showClosed(place, asked, mine);
  await lookAtBoards(asked, where, seen ? seen.board : null);
  if (mine !== turn) return;
  lastPlace = place;
  showView(place, view);
}

// What his place was when a player was shown it last, and whether a view may be shown over it: the same board goes on, and no
// contract has been made since.
let lastPlace = "";
function goesOn(view) {
  if (before === null || !view.startsWith("OK\n")) return false;
  const now = readView(view);
  return now.board === before.board && now.playing === before.playing;
}

// The line that had no answer; what has become of it the next view tells, where it is of the same board.
let unsure = "";
let unsureAt = 0;
// Milliseconds in which it may still come to the server.
const UNSURE = 3000;
function sayFate(place, view) {
  const [kind, , board, made] = unsure.split(" ");
  const now = { CALL: view.made.calls, CARD: view.made.cards, CLAIM: view.made.claims }[kind];
  const taken = now === undefined ? !place.answer : Number(now) > Number(made);
  if (view.board === board && !taken && Date.now() - unsureAt < UNSURE) return;
  unsure = "";
  say("notice", view.board !== board ? "" : taken ? TEXTS.wasTaken : TEXTS.wasNotTaken);
}

// Milliseconds after which it is said that a line is on its way, and that it has no answer; and the notice that says so.
const ON_WAY = 1500;
const NO_ANSWER = 5000;
let late = false;
function sayLate(what) {
  const status = (words) => { say("status", words); at("status").className = ""; };
  const named = what === "" ? TEXTS.it : what.startsWith("card-") ? TEXTS.theCard(cardName(what.slice(5))) : callName(what.slice(5));
  return [setTimeout(() => status(TEXTS.sending), ON_WAY), setTimeout(() => {
    status(TEXTS.noAnswerFor(NO_ANSWER / 1000));
    say("notice", TEXTS.slow(named));
    late = true;
  }, NO_ANSWER)];
}

// Sends one line, and shows what has become of it.
async function act(line) {
  if (busy) return;
  const asked = key;
  busy = true;
  turn += 1;
  say("notice", "");
  onWay = /^C(ALL|ARD) /.test(line) ? line.slice(0, 4).toLowerCase() + "-" + line.split(" ").pop() : "";
  drawn();
  const timers = sayLate(onWay);
  // Whoever refuses a claim says so first, so that the others are told who did.
  const said = line.startsWith("REFUSE ") ? await ask("/desk", asked + " REFUSAL") : null;
  if (said !== null && key === asked) takeDesk(said);
  // The answer, and what there is to see then.
  const reply = await ask("/lines", line + "\nSEE " + asked + "\n");
  timers.forEach(clearTimeout);
  busy = false;
  onWay = "";
  if (late) say("notice", "");
  late = false;
  if (key !== asked) return key === null ? undefined : look();
  shown = "";
  unsure = reply === null ? line : "";
  unsureAt = Date.now();
  if (reply === null) say("notice", TEXTS.unknownFate);
  else if (refusal(reply)) sayPassing(TEXTS.refusals[refusal(reply)] || reply);
  const view = reply === null ? "" : reply.slice(reply.indexOf("\n") + 1);
  if (/^C(ALL|ARD) /.test(line) && goesOn(view)) showView(lastPlace, view);
  await look();
  return reply !== null && !refusal(reply);
}

// ---- choices, kept for the tab

// One choice of two: what it is about, the name under which it is kept, and for each its value and words.
function choiceOf(title, name, now, options) {
  const radio = ([value, words]) => make("label", null, make("input", {
    type: "radio", name, id: name + "-" + value, checked: value === now, onchange: () => { sessionStorage.setItem(name, value); chosen(); },
  }), words);
  return make("fieldset", null, make("legend", null, title), ...options.map(radio));
}

const lightNow = () => sessionStorage.getItem("light") || "device";

function chosen() {
  unmark();
  document.documentElement.className = [sessionStorage.getItem("suits") === "four" ? "four" : "", lightNow()].join(" ").trim();
  drawn();
}

// The suits in the colours of a choice.
const suitsIn = (colours, words) => make("span", null, make("span", { className: colours + " suits", aria_hidden: "true" }, ...SUITS.map(suitSign)), " " + words);

// The menu: of a player his boards, how he sends and how cards look; of all light and dark, and to leave who has logged in.
function showMenu() {
  const options = [choiceOf(TEXTS.suitsTitle, "suits", sessionStorage.getItem("suits") || "two", [["two", suitsIn("two", TEXTS.suitsTwo)], ["four", suitsIn("four", TEXTS.suitsFour)]]),
    choiceOf(TEXTS.lightTitle, "light", lightNow(), Object.entries(TEXTS.lights))];
  if (key !== null && !isDirector()) {
    options.unshift(button(TEXTS.myBoards, "", "menu-boards", true, () => { closeMenu(); turnLeaf({ card: true }); }),
      choiceOf(TEXTS.sentTitle, "sent", isSafe() ? "twice" : "once", [["twice", TEXTS.sentTwice], ["once", TEXTS.sentOnce]]));
  }
  at("options").replaceChildren(make("h2", null, key === null ? TEXTS.textAndColours : TEXTS.textAndPlay), ...options);
  at("leave").hidden = key === null;
  at("choices").hidden = false;
  [...at("options").querySelectorAll("button"), ...at("options").querySelectorAll("input")][0].focus();
}

function closeMenu() {
  at("choices").hidden = true;
}

at("choices").onkeydown = holdTab;
at("menu").onclick = () => { if (at("choices").hidden) showMenu(); else closeMenu(); };
at("chosen").onclick = () => { closeMenu(); (at("colours") || at("menu")).focus(); };
at("menu").setAttribute("aria-label", TEXTS.menu);
at("chosen").textContent = TEXTS.done;
window.addEventListener("resize", showNewest);
document.addEventListener("keydown", (event) => {
  if (event.key !== "Escape") return;
  if (!at("choices").hidden) at("chosen").onclick();
  closeCall();
  if (at("no")) at("no").click();
  if (marked || claiming || looking) { unmark(); drawn(); }
});
chosen();
"##;

/// The script of boards that are over.
pub const BOARDS_SCRIPT: &str = r##""use strict";
// Boards that are over: what was made of them, their hands, auction and play to step through, and what others did; and a pair's own
// score card. A play is shown to the director in the same way.

// What was told of a key's boards; and what stands in place of the table: nothing, a board, or the score card.
let told = { key: null, at: 0, text: "", boards: [], open: false };
let leaf = null;
// Milliseconds: how long what was told lasts.
const BOARDS_LAST = 30000;
// The board that was at play when the page looked last.
let atBoard = null;

function readResult(words) {
  if (words[0] === "-") return { none: true };
  if (words[0] === "VOID") return { taken: true };
  if (words[0] === "AVERAGE") return { average: { NS: words[1], EW: words[2] } };
  if (words[0] === "PASS") return { passed: true, score: 0 };
  if (words[0] === "ASSIGNED") return { ...readResult(words.slice(1)), assigned: true };
  return { bid: words[0], declarer: words[1], tricks: Number(words[2]), score: Number(words[3]) };
}

// What each line says of a board, by its first word.
const BOARD_LINES = {
  NAMES: (board, w) => { board.own = { N: w[0], E: w[1], S: w[2], W: w[3] }; board.names = shownAt(board.own); },
  DEAL: (board, w) => { board.deal = readDeal(w); },
  CALLS: (board, w) => { board.calls = w; },
  CARDS: (board, w) => { board.cards = w[0] === "-" ? [] : readPlay(w, board.calls); },
  CLAIM: (board, w) => { board.claim = w[0] === "-" ? null : { seat: w[0], tricks: w[1] }; },
  RESULT: (board, w) => { board.result = readResult(w); },
  OTHER: (board, w) => { board.others.push({ table: w[0], ns: w[1], ew: w[2], result: readResult(w.slice(3)) }); },
  WORTH: (board, w) => { board.worth = w[0]; },
};

// A board by its first line.
function blankBoard([number, round, table, index, side]) {
  return { number: Number(number), round, table, index, side, calls: [], cards: [], claim: null, others: [], worth: null };
}

function readBoards(reply) {
  const found = { text: reply, boards: [], open: false };
  for (const line of reply.split("\n")) {
    const [word, ...words] = line.split(" ");
    if (word === "OTHERS") found.open = words[0] === "OPEN";
    else if (word === "BOARD") found.boards.push(blankBoard(words));
    else if (BOARD_LINES[word]) BOARD_LINES[word](found.boards[found.boards.length - 1], words.filter((one) => one !== ""));
  }
  return found;
}

// The four hands of a deal's text, of which the first is the seat's that stands before it; null where nothing is dealt.
function readDeal(words) {
  if (words[0] === "-") return null;
  const first = SEATS.indexOf(words[0][0]);
  const hands = [words[0].slice(2), ...words.slice(1)];
  return Object.fromEntries(hands.map((hand, i) => [SEATS[(first + i) % 4], readHand(hand)]));
}

const RANKS = "23456789TJQKA";
// Whose card wins a trick.
function winnerOf(trick, trump) {
  const worth = (card) => (card[0] === trump ? 100 : card[0] === trick[0].card[0] ? 50 : 0) + RANKS.indexOf(card[1]);
  return trick.reduce((best, one) => (worth(one.card) > worth(best.card) ? one : best)).seat;
}

// Each card with its seat and its trick: the words begin with the leader.
function readPlay(words, calls) {
  const bid = [...calls].reverse().find(isBid);
  const trump = bid ? strainOf(bid)[0] : "";
  const cards = [];
  let seat = SEATS.indexOf(words[0]);
  for (const card of words.slice(1)) {
    cards.push({ seat: SEATS[seat], card, trick: Math.floor(cards.length / 4) });
    const trick = cards.filter((one) => one.trick === cards[cards.length - 1].trick);
    seat = trick.length < 4 ? (seat + 1) % 4 : SEATS.indexOf(winnerOf(trick, trump));
    if (trick.length === 4) trick.forEach((one) => { one.winner = SEATS[seat]; });
  }
  return cards;
}

// Law 2: who deals a board, and who is vulnerable.
const dealerOf = (number) => SEATS[(number - 1) % 4];
const vulnerableOf = (number) => ["None", "NS", "EW", "All"][(number - 1 + Math.floor((number - 1) / 4)) % 4];

// What a play of a board looks like to who shows an auction or a plate: as a view, and as a place.
function viewOf(board, seat) {
  const { number, calls, side } = board;
  return { board: String(number), seat, dealer: dealerOf(number), vulnerable: vulnerableOf(number), calls, playing: true, turn: null, claim: null, isOwn: side !== "-" };
}

// The seat of the player of this name, of the two of his side; South for the director.
function ownSeat(board, name) {
  if (board.side === "-") return "S";
  const [first, second] = board.side === "NS" ? ["N", "S"] : ["E", "W"];
  return board.own[second] === name ? second : first;
}

// ---- results in words

const signed = (score) => (score > 0 ? "+" + score : String(score).replace("-", "\u2212"));
const ownScore = (board) => (board.side === "EW" ? -board.result.score : board.result.score);

// A contract and its tricks, as players write them; or what else came of a play.
function resultNodes(result, seat) {
  if (result.none) return [TEXTS.noResult];
  if (result.taken) return [TEXTS.takenOut];
  if (result.average) return [TEXTS.average(result.average.NS, result.average.EW)];
  if (result.passed) return [TEXTS.passedOut];
  const by = seat === undefined ? [" " + result.declarer] : [" " + TEXTS.by(result.declarer, result.declarer === seat)];
  return [make("span", { className: "contract" }, ...callNodes(result.bid)), ...by, ...(result.assigned ? [" " + TEXTS.assigned] : [])];
}

const isScored = (result) => result.score !== undefined;

// What stands for the score of one side, or nothing.
const scoreText = (board) => (isScored(board.result) ? signed(ownScore(board)) : board.result.average && board.side in board.result.average ? TEXTS.percent(board.result.average[board.side]) : "");

// The worth so far, of matchpoints in per cent.
function worthText(worth) {
  if (worth === null || worth === "-") return "";
  const [points, of] = worth.split("/");
  if (of === undefined) return TEXTS.imps(signed(Number(points)));
  return Number(of) === 0 ? "" : TEXTS.percent((100 * Number(points) / Number(of)).toFixed(1));
}

// The same beside a bar where it is in per cent.
function worthNodes(worth) {
  const text = worthText(worth);
  const [points, of] = text ? worth.split("/").map(Number) : [];
  return of === undefined ? [text] : [make("progress", { max: of, value: points, aria_hidden: "true" }), text];
}

function bandNode(board, seat) {
  const { result } = board;
  const lead = board.cards.length ? board.cards[0] : null;
  const words = result.bid ? [...resultNodes(result, seat), ", " + TEXTS.made(result.tricks - 6 - Number(result.bid[0]))] : resultNodes(result, seat);
  const below = result.bid ? [TEXTS.tricks(result.tricks) + (lead ? " \u00b7 " : "")] : [];
  if (lead) below.push(TEXTS.lead + " ", cardInText(lead.card, cardName(lead.card)), " " + TEXTS.by(lead.seat, lead.seat === seat));
  return make("section", { id: "band", className: "banner", aria_label: TEXTS.result },
    make("p", { className: "large" }, ...words), make("p", { className: "large" }, scoreText(board)),
    make("p", null, ...below), make("p", null, worthText(board.worth) && TEXTS.soFar(worthText(board.worth))));
}

// ---- hands, auction and play

function handLines(board, seat, gone) {
  if (!board.deal) return [];
  return HAND_SUITS.map((suit) => make("div", { className: "suit-line" }, suitSign(suit),
    ...[...board.deal[seat][suit]].flatMap((rank) => [
      make(gone.has(suit + rank) ? "s" : "span", { className: rank === "T" ? "ten" : "" }, rankText(rank)), make("wbr")]),
    board.deal[seat][suit] === "" ? "\u2013" : ""));
}

function handBox(board, seat, own, gone, where) {
  const view = viewOf(board, own);
  return make("section", { className: "of-" + where, aria_label: SEAT_NAMES[seat] },
    make("p", { className: "who" }, make("b", { className: "mark" + (isVulnerable(view, seat) ? " vul" : " safe"), aria_hidden: "true" }, seat),
      make("span", null, ...(board.side !== "-" && seat === own ? [TEXTS.you] : nameNodes(board.names[seat])))),
    ...handLines(board, seat, gone));
}

// The board as it lies on the table, seen from a seat.
function boardPicture(board, own) {
  const view = viewOf(board, own);
  const edge = (where) => SEATS.find((seat) => placeOf(view, seat) === where);
  const node = make("div",
    { className: "board-picture", role: "img", aria_label: TEXTS.boardWords(board.number, SEAT_NAMES[view.dealer], vulnerableText(view.vulnerable)) });
  for (const where of ["top", "left", "right", "bottom"]) {
    const seat = edge(where);
    node.append(make("span",
      { className: where + (isVulnerable(view, seat) ? " vul" : " safe") }, seat + (seat === view.dealer ? " " + TEXTS.deals : "")));
  }
  node.append(make("b", null, String(board.number)));
  return node;
}

// The trick of the latest of so many cards.
function trickPicture(board, own, step) {
  const view = viewOf(board, own);
  const { trick } = board.cards[step - 1];
  const node = make("div", { className: "trick", role: "group", aria_label: TEXTS.trick(trick + 1) });
  const cards = board.cards.slice(0, step).filter((one) => one.trick === trick);
  node.append(...cards.map((one) => cardOnTable(view, one, cards.length === 4 && one.winner === one.seat)));
  // Whose card is due is told to the director alone.
  if (board.result.none && step === board.cards.length && cards.length < 4) node.append(dueOnTable(view, nextTo(board.cards[step - 1].seat)));
  return node;
}

function diagramNodes(board, own, step) {
  const view = viewOf(board, own);
  const gone = new Set(board.cards.slice(0, step).map((one) => one.card));
  return [...SEATS.map((seat) => handBox(board, seat, own, gone, placeOf(view, seat))),
    make("div", { className: "of-middle" }, step === 0 ? boardPicture(board, own) : trickPicture(board, own, step))];
}

// The four hands, and the play to step through. Its own clicks move it, and draw nothing else anew.
function steppedNode(board, own, step, stepped, ...heads) {
  const diagram = make("div", { className: "diagram" });
  const words = make("p", { className: "stepped", role: "status" });
  const slider = make("input",
    { id: "step", type: "range", min: 0, max: board.cards.length, step: 1, aria_label: TEXTS.stepThrough, oninput: () => go(Number(slider.value)) });
  const buttons = [
    ["first", "|\u2039", () => 0], ["back", "\u2039", (now) => now - 1], ["on", "\u203a", (now) => now + 1],
    ["end", "\u203a|", () => board.cards.length]]
    .map(([name, sign, to]) => make("button",
      { type: "button", id: "step-" + name, aria_label: TEXTS.steps[name], onclick: () => go(to(Number(slider.value))) }, sign));
  const go = (now) => {
    diagram.replaceChildren(...diagramNodes(board, own, now));
    words.replaceChildren(
      make("b", null, now === 0 ? TEXTS.beforeLead : TEXTS.trick(board.cards[now - 1].trick + 1)), make("br"),
      now === 0 ? TEXTS.stepThrough : TEXTS.cardOf(now, board.cards.length));
    slider.value = String(now);
    buttons.forEach((one, i) => { one.disabled = i < 2 ? now === 0 : now === board.cards.length; });
    const table = at("tricks");
    for (const row of table ? table.querySelectorAll("tr") : []) row.className = trickClass(board, now, row.id);
    stepped(now);
  };
  const node = make("section", { className: "panel part hands", aria_label: TEXTS.hands }, ...heads, diagram);
  if (board.cards.length) node.append(make("div", { className: "stepper" }, buttons[0], buttons[1], words, buttons[2], buttons[3]), slider);
  go(step);
  return node;
}

// The trick of the latest of so many cards is marked.
const trickClass = (board, step, id) => (step > 0 && id === "trick-" + board.cards[step - 1].trick ? "own" : "");

function tricksTable(board, step) {
  const count = board.cards.length ? board.cards[board.cards.length - 1].trick + 1 : 0;
  const rows = Array.from({ length: count }, (_none, trick) => {
    const cards = board.cards.filter((one) => one.trick === trick);
    const cell = (one) => make("td", { aria_label: one ? cardName(one.card) : "" },
      ...(one ? [make("span", { className: SUIT_CLASSES[one.card[0]].trim() }, ...cardNodes(one.card).reverse())] : []));
    return make("tr",
      { id: "trick-" + trick, className: trickClass(board, step, "trick-" + trick) }, make("td", null, String(trick + 1)),
      make("td", null, cards[0].seat), ...[0, 1, 2, 3].map((i) => cell(cards[i])), make("th", { scope: "row" }, cards[0].winner || ""));
  });
  return make("table", { id: "tricks", className: "list", aria_label: TEXTS.play }, listHeads(TEXTS.trickHeads, 0), make("tbody", null, ...rows));
}

// A claim: players are told of one that was agreed, the director of one that stands too, also under a ruling.
function claimText({ claim: { seat, tricks }, result, side }) {
  const isPlayed = isScored(result) && !result.assigned;
  const words = result.none ? TEXTS.claimWaits : side !== "-" || isPlayed ? TEXTS.claimed : TEXTS.hasClaimed;
  return words(SEAT_NAMES[seat], tricks);
}

function playedNode(board, own, step) {
  const node = make("section",
    { className: "panel part play", aria_label: TEXTS.auctionAndPlay }, make("h2", null, TEXTS.auction),
    auctionTable({ names: board.names }, viewOf(board, own)));
  if (board.cards.length) node.append(make("h2", null, TEXTS.play), tricksTable(board, step));
  if (board.claim) node.append(make("p", null, claimText(board)));
  return node;
}

// The heads of a list, of which the last few stand over numbers.
const listHeads = (heads, numbers) => make("thead", null,
  make("tr", null, ...heads.map((head, i) => make("th", { scope: "col", className: i >= heads.length - numbers ? "number" : "" }, head))));

const numberCell = (text) => make("td", { className: "number" }, text);
const tricksText = (result) => (result.tricks === undefined ? "" : String(result.tricks));

// ---- what others did

// The results of all tables so far, the best of North and South first.
function linesSoFar(board) {
  const own = { table: board.table, result: board.result, own: true };
  const worth = (one) => (isScored(one.result) ? one.result.score : -1e9);
  return [...board.others, own].sort((one, other) => worth(other) - worth(one));
}

// The scores of North and South in a row, where the list of results stands on a part of its own.
function tilesNode(board) {
  const lines = linesSoFar(board).filter((one) => isScored(one.result));
  const tiles = lines.map((one) => make("li", { className: one.own ? "own" : "" }, signed(one.result.score), ...(one.own ? [" ", make("b", null, TEXTS.we)] : [])));
  return make("div", { className: "tiles" }, make("p", { className: "second" }, TEXTS.scoresSoFar(lines.length)), make("ol", null, ...tiles));
}

function scoresNode(board) {
  const node = make("section", { className: "panel part scores", aria_label: TEXTS.scores });
  if (!told.open) {
    node.append(make("h2", null, TEXTS.scores), make("p", null, TEXTS.scoresShut));
    return node;
  }
  const lines = linesSoFar(board);
  const ofSide = (side) => (side === board.side ? TEXTS.weHere : TEXTS.theyHere);
  const pairs = (one) => (one.own ? [ofSide("NS"), ofSide("EW")] : [one.ns, one.ew]);
  const rows = lines.map((one) => make("tr", { className: one.own ? "own" : "" }, ...pairs(one).map((pair) => make("td", null, pair)),
    make("td", null, ...resultNodes(one.result)), numberCell(tricksText(one.result)), numberCell(isScored(one.result) ? signed(one.result.score) : "")));
  node.append(make("h2", null, TEXTS.tablesSoFar(lines.length)),
    make("table", { className: "list", aria_label: TEXTS.scores }, listHeads(TEXTS.scoreHeads, 2), make("tbody", null, ...rows)));
  if (worthText(board.worth)) node.append(make("p", { className: "second" }, TEXTS.ours(board.worth)));
  return node;
}

// ---- a board that is over, and the score card

function partButtons() {
  const parts = [["hands", TEXTS.hands], ["play", TEXTS.auctionAndPlay], ["scores", TEXTS.scores]];
  return make("div", { id: "parts", role: "group", aria_label: TEXTS.parts }, ...parts.map(([part, label]) => {
    const node = button(label, "", "part-" + part, true, () => { leaf.part = part; drawn(); });
    node.setAttribute("aria-pressed", String(leaf.part === part));
    return node;
  }));
}

function turnLeaf(to) {
  leaf = to;
  shown = "";
  unmark();
  look();
}

const showBoard = (board) => turnLeaf({ board: board.number, round: board.round, step: 0, part: "hands" });

function overNodes(place, board, next) {
  const own = ownSeat(board, place.name);
  const onward = button(next, "", "onward", true, () => turnLeaf(null));
  onward.className = "send";
  const hands = steppedNode(board, own, leaf.step, (now) => { if (leaf) leaf.step = now; });
  if (told.open) hands.append(tilesNode(board));
  return [bandNode(board, own), partButtons(),
    make("div", { className: "parts" }, hands, scoresNode(board), playedNode(board, own, leaf.step)),
    make("section", { id: "dock", className: "onward", aria_label: TEXTS.goOn }, button(TEXTS.myBoards, "", "my-boards", true, () => turnLeaf({ card: true })), onward)];
}

// The score card of what this pair has played; a board opens from it.
function cardTable(place, boards) {
  const hasWorth = boards.some((board) => board.worth && board.worth !== "-");
  const rows = boards.map((board) => {
    const others = SEATS.filter((seat) => (seat === "N" || seat === "S") !== (board.side === "NS"));
    const opens = button(String(board.number), TEXTS.openBoard(board.number),
      "open-" + board.round + "-" + board.number, true, () => showBoard(board));
    const [lead] = board.cards;
    return make("tr", null, make("td", null, opens), make("td", { className: "who" },
      ...nameNodes(board.names[others[0]]), " \u2013 ", ...nameNodes(board.names[others[1]])), make("td", null, ...resultNodes(board.result)),
      make("td", null, ...(lead ? [cardInText(lead.card, cardName(lead.card))] : [])),
      numberCell(tricksText(board.result)), numberCell(scoreText(board)), ...(hasWorth ? [make("td", { className: "number" }, ...worthNodes(board.worth))] : []));
  });
  return make("table", { id: "card", className: "list", aria_label: TEXTS.scoreCard },
    listHeads(hasWorth ? TEXTS.cardHeads : TEXTS.cardHeads.slice(0, -1), 3), make("tbody", null, ...rows));
}

// The boards of this round: what came of those that are over, and which is at play.
function roundNode(place, view) {
  const numbers = Array.from({ length: Number(place.table.last) - Number(place.table.first) + 1 }, (_none, i) => Number(place.table.first) + i);
  return make("ol", { className: "round" }, ...numbers.map((number) => {
    const over = told.boards.find((board) => board.number === number && board.round === String(place.round));
    const now = String(number) === view.board;
    const came = over ? worthText(over.worth) || scoreText(over) || "\u2013" : now ? TEXTS.now : number === Number(view.board) + 1 ? TEXTS.next : TEXTS.later;
    return make("li", { className: now ? "now" : "" }, make("b", null, String(number)), came);
  }));
}

// The sum of what the boards are worth so far, as matchpoints or as IMPs.
function worthOfAll(boards) {
  const worths = boards.map((board) => board.worth).filter((worth) => worth && worth !== "-").map((worth) => worth.split("/").map(Number));
  if (worths.length === 0) return null;
  const sum = (i) => worths.reduce((all, worth) => all + (worth[i] || 0), 0);
  if (worths[0].length === 1) return { points: signed(Number(sum(0).toFixed(1))), of: null, percent: null };
  // Nobody else has played any of these boards.
  if (sum(1) === 0) return null;
  return { points: sum(0).toFixed(1), of: sum(1), percent: (100 * sum(0) / sum(1)).toFixed(1) };
}

const worthOfSome = (all) => (all.percent ? TEXTS.percent(all.percent) : TEXTS.imps(all.points));

function scoreCardNodes(place) {
  const all = worthOfAll(told.boards);
  const figure = (large, small) => make("section", { className: "panel figure" },
    make("p", { className: "large" }, large), make("p", { className: "second" }, small));
  const figures = [figure(String(told.boards.length), TEXTS.boardsPlayed(told.boards.length))];
  if (all && all.percent) figures.unshift(figure(TEXTS.percent(all.percent), TEXTS.soFar("")));
  if (all) figures.push(figure(all.points, all.of === null ? TEXTS.impsName : TEXTS.ofPoints(all.of)));
  const back = button(place.round > place.rounds ? TEXTS.toRanking : TEXTS.toTable, "", "onward", true, () => turnLeaf(null));
  back.className = "send";
  return [make("div", { className: "figures" }, ...figures), make("section",
    { className: "panel wide-panel" }, make("h2", null, TEXTS.scoreCard),
    told.boards.length ? cardTable(place, told.boards) : make("p", null, TEXTS.noBoards)),
    make("section", { id: "dock", className: "onward", aria_label: TEXTS.goOn }, button(TEXTS.print, "", "print", true, () => window.print()), back)];
}

const boardOfLeaf = () => told.boards.find((board) => board.number === leaf.board && board.round === leaf.round);

// Shows what stands in place of the table; says whether something does.
function showLeaf(place, next) {
  if (!leaf) return false;
  const board = leaf.card ? null : boardOfLeaf();
  if (!leaf.card && !board) {
    leaf = null;
    return false;
  }
  barFor(place, board ? viewOf(board, ownSeat(board, place.name)) : null, board ? board.table : null);
  if (leaf.card) {
    at("title").textContent = TEXTS.myBoards;
    at("below").textContent = headText(place);
  }
  drawn = () => show(
    told.text + JSON.stringify([leaf.card, leaf.board, leaf.round, leaf.part, next]), "",
    leaf.card ? "boards" : "boards over part-" + leaf.part, () => (leaf.card ? scoreCardNodes(place) : overNodes(place, board, next)));
  drawn();
  return true;
}

// Asks for the boards of this key, and says whether they came; else nothing changes. What the director ruled since is told.
async function loadBoards(asked) {
  const reply = await ask("/boards", asked);
  if (reply === null || refusal(reply)) return false;
  const old = told.key === asked ? told.boards : [];
  told = { key: asked, at: Date.now(), ...readBoards(reply) };
  const same = (one, other) => one.number === other.number && one.round === other.round;
  const isRuled = (board) => old.some((one) => same(one, board) && JSON.stringify(one.result) !== JSON.stringify(board.result));
  const ruled = told.boards.filter(isRuled).map((board) => board.number);
  if (ruled.length) sayPassing(TEXTS.ruledOn(ruled), playIs.split(" ").slice(0, 2).join(" "));
  return true;
}

// Whether a board of this round, at which nothing is played, has not been told as over, since it was passed out in no time.
const lacksBoards = (place, now) => now === null && place.table !== null
  && told.boards.filter((board) => board.round === String(place.round)).length <= Number(place.table.last) - Number(place.table.first);

// Looks at the boards where one was over since the page looked last, which is shown then; and else now and then.
async function lookAtBoards(asked, place, now) {
  const ended = atBoard !== null && atBoard.key === asked && atBoard.board !== now ? atBoard : null;
  const lasts = lacksBoards(place, now) ? LOOK : BOARDS_LAST;
  const isNew = (ended || told.key !== asked || Date.now() - told.at > lasts) && await loadBoards(asked);
  if (key !== asked) return;
  atBoard = now === null ? null : { key: asked, board: now, round: String(place.round) };
  const board = ended && told.boards.find((one) => String(one.number) === ended.board && one.round === ended.round);
  if (board) leaf = { board: board.number, round: board.round, step: 0, part: "hands" };
  // What is played no more and yet not told as over has been ruled on.
  else if (ended && isNew && ended.round === String(place.round)) sayPassing(TEXTS.endedByRuling(ended.board));
}
"##;

/// The script of what stands beside the session.
pub const DESK_SCRIPT: &str = r##""use strict";
// What stands beside the session: the director's notice, the round's clock, calls for the director, what was said with a claim,
// and who agreed to it or refused it. The server keeps it for as long as it runs.

// How many seconds left of the clock are said.
const CLOCK_SAID = [300, 60];
const SECOND = 1000;

const nothingStands = () => ({ notice: "", clock: null, calls: [], said: "", agreed: [], refusedBy: "", meets: null, now: 0, at: 0, ends: null, disk: "", kept: [] });
// Minutes before the end of the pages from which on they say so.
const ENDS_SOON = 10;
let desk = nothingStands();
let clockTimer = 0;
// What is on the page of it; and the reason that is chosen while the director is being called, or null.
let deskShown = "";
// The round that the clock runs down to, between two.
let nextRound = null;
let reason = null;

const timeText = (time) => new Date(time).toLocaleTimeString(TEXTS.locale, { hour: "2-digit", minute: "2-digit" });
// A reason of the page's own goes on in the sentence.
const reasonText = (words) => (TEXTS.reasons.includes(words) && !words.startsWith("I ") ? words[0].toLowerCase() + words.slice(1) : words);

// A line from so many words on.
const wordsFrom = (line, count) => line.split(" ").slice(count).join(" ");

const DESK_LINES = {
  NOW: (found, line) => {
    const [, now, ends] = line.split(" ");
    found.now = Number(now);
    if (ends !== undefined) found.ends = Number(ends) - found.now;
  },
  DISK: (found, line) => { found.disk = wordsFrom(line, 1); },
  KEPT: (found, line) => { found.kept.push(line.split(" ").slice(1)); },
  NOTICE: (found, line) => { found.notice = wordsFrom(line, 1); },
  CLOCK: (found, line) => { found.clock = Number(wordsFrom(line, 1)) - found.now; },
  CALL: (found, line) => {
    const [, table, since, pair, name] = line.split(" ");
    const seconds = found.now - Number(since);
    found.calls.push({ table, minutes: Math.floor(seconds / 60), time: timeText(found.at - SECOND * seconds), pair, name, text: wordsFrom(line, 5) });
  },
  STATEMENT: (found, line) => { found.said = wordsFrom(line, 1); },
  AGREED: (found, line) => { found.agreed.push(wordsFrom(line, 1)); },
  REFUSED: (found, line) => { found.refusedBy = wordsFrom(line, 1); },
  MEETS: (found, line) => {
    const [, ns, ew, N, E, S, W] = line.split(" ");
    found.meets = { ns, ew, names: { N, E, S, W } };
  },
};

function readDesk(reply) {
  const found = nothingStands();
  found.at = Date.now();
  for (const line of reply.split("\n")) {
    const put = DESK_LINES[line.split(" ")[0]];
    if (put) put(found, line);
  }
  return found;
}

const isDirector = () => role.isDirector;

// A text without what the server takes in none: control characters, and those that turn the direction of others.
const plainText = (text) => text.replace(/[\p{Cc}\u061c\u200e\u200f\u2028-\u202e\u2066-\u2069]/gu, " ").trim();

// Shows what an answer says that stands. A call of this table that stands no more is being answered.
function takeDesk(reply) {
  if (refusal(reply)) return;
  const called = desk.calls.length > 0;
  desk = readDesk(reply);
  const isBack = passing !== null && [TEXTS.callBack, TEXTS.cardBack].includes(passing.text);
  if (called && desk.calls.length === 0 && !isDirector() && !isBack) sayPassing(TEXTS.directorComes);
  if (passing !== null && passing.text === TEXTS.claimRefused && desk.refusedBy) sayPassing(claimFell(), passing.where);
  showDesk();
}

// Asks something of the desk, and shows what stands then; says whether it was done.
async function askDesk(order) {
  const asked = key;
  if (asked === null) return false;
  const reply = await ask("/desk", asked + " " + order);
  if (key !== asked) return false;
  if (reply !== null && !refusal(reply)) {
    takeDesk(reply);
    return true;
  }
  const why = reply === null ? TEXTS.unknownDone : TEXTS.refusals[refusal(reply)] || reply;
  if (isDirector()) tell(why);
  else say("notice", why);
  return false;
}

// Whoever sat here has left.
function leaveDesk() {
  clearTimeout(clockTimer);
  desk = nothingStands();
  closeCall();
  showDesk();
}

// ---- the round's clock, which goes on between two looks

const secondsLeft = () => Math.max(0, desk.clock - Math.floor((Date.now() - desk.at) / SECOND));
const clockText = (seconds) => Math.floor(seconds / 60) + ":" + String(seconds % 60).padStart(2, "0");

function showClock() {
  clearTimeout(clockTimer);
  at("clock").hidden = desk.clock === null;
  if (at("clock-runs")) [at("clock-runs").hidden, at("clock-sets").hidden] = [desk.clock === null, desk.clock !== null];
  if (desk.clock === null) return;
  const left = secondsLeft();
  say("clock-left", clockText(left));
  if (CLOCK_SAID.includes(left)) say("heard", TEXTS.minutesLeft(left / 60));
  at("clock").className = left === 0 ? "over" : "";
  at("clock").replaceChildren(make("b", null, clockText(left)), make("span", null, nextRound === null ? TEXTS.clockLeft : TEXTS.untilRound(nextRound)));
  clockTimer = setTimeout(showClock, SECOND);
}

// ---- what stands above the page

const whoCalls = ({ pair, name }) => TEXTS.ofPair(shownName(pair, name), pair);

function callNodesOf(call) {
  if (!isDirector()) return [make("p", { className: "note called" }, make("span", null, make("b", null, TEXTS.directorCalled(call.time)), " ", (reasonText(call.text) || TEXTS.nothingSaid) + ". ", TEXTS.waitForDirector))];
  const stateOf = (number) => lastTables && lastTables.tables.find((one) => one.number === number);
  const open = () => { const state = stateOf(call.table); if (state) openTable(state); };
  const grant = (number) => { const state = stateOf(number); if (state) grantBack(state); };
  return [make("div", { className: "note called" }, make("p", null, make("b", null, TEXTS.tableCalls(call.table)), " ", call.text ? call.text + ". " : "",
    whoCalls(call) + ", " + TEXTS.minutesAgo(call.minutes) + "."),
  ...(call.text === TEXTS.slip ? [make("button", { type: "button", id: "grant-" + call.table, onclick: () => grant(call.table) }, TEXTS.grant)] : []),
  make("button", { type: "button", id: "answered-" + call.table, onclick: () => askDesk("ANSWERED " + call.table) }, TEXTS.answered),
  make("button", { type: "button", id: "go-" + call.table, className: "send", onclick: open }, TEXTS.openTable(call.table)))];
}

// The director's notice, which he takes down where he reads it.
function noticeNodes() {
  if (!desk.notice) return [];
  return [make("div", { className: "note" }, make("p", null, make("b", null, TEXTS.noticeOf), " ", desk.notice),
    ...(isDirector() ? [make("button", { type: "button", id: "take-down", onclick: () => askDesk("NOTICE") }, TEXTS.takeDown)] : []))];
}

// Which of two disks is kept alone, and which is lost.
const lostDisk = () => (/ is lost$/.test(desk.disk) ? desk.disk : "");

// Shows what stands, where it has changed; the focus stays.
function showDesk() {
  showClock();
  at("bell").hidden = key === null || isDirector();
  const minutes = desk.ends === null ? ENDS_SOON + 1 : Math.max(1, Math.ceil(desk.ends / 60));
  const made = JSON.stringify([desk.notice, desk.calls, desk.said, isDirector(), lostDisk(), minutes <= ENDS_SOON ? minutes : 0]);
  if (made === deskShown) return;
  deskShown = made;
  const focus = document.activeElement ? document.activeElement.id : "";
  const end = minutes <= ENDS_SOON ? [make("p", null, TEXTS.pagesEnd(minutes, isDirector()))] : [];
  const lost = lostDisk() ? [make("p", { id: "lost-disk", className: "note called", role: "alert" }, TEXTS.diskLost(lostDisk()))] : [];
  at("desk").replaceChildren(...lost, ...end, ...noticeNodes(), ...desk.calls.flatMap(callNodesOf));
  if (focus && at(focus)) at(focus).focus();
  drawn();
}

// ---- a call for the director

function showCall() {
  const choice = (words) => {
    const node = button(words, "", "", true, () => { reason = reason === words ? "" : words; showCall(); });
    node.setAttribute("aria-pressed", String(reason === words));
    return node;
  };
  if (reason === null) reason = "";
  const send = button(TEXTS.callDirector, "", "call-director", true, () => { const order = reason ? "CALL " + reason : "CALL"; closeCall(); askDesk(order); });
  send.className = "send";
  const seat = lastPlace ? readPlace(lastPlace).table : null;
  at("calling").replaceChildren(make("h2", null, TEXTS.callTitle(seat && seat.number)), make("p", { className: "second" }, TEXTS.callHelp),
    make("div", { className: "reasons" }, ...TEXTS.reasons.map(choice)), make("div", { className: "row" }, button(TEXTS.back, "", "call-back", true, closeCall), send));
  at("calling").hidden = false;
  send.focus();
}

function closeCall() {
  if (reason !== null && !at("bell").hidden) at("bell").focus();
  reason = null;
  at("calling").hidden = true;
}

at("bell").onclick = () => { if (reason === null) showCall(); else closeCall(); };
at("bell").replaceChildren(make("span", null, TEXTS.bell));
at("bell").setAttribute("aria-label", TEXTS.callDirector);
at("calling").onkeydown = holdTab;

// ---- the director tells all tables, and sets the clock

function tellingNodes() {
  const field = make("input", { id: "tell-text", type: "text", maxLength: 200, aria_label: TEXTS.tellText, placeholder: TEXTS.tellExample });
  const telling = async () => { const words = plainText(field.value); if (words && await askDesk("NOTICE " + words)) field.value = ""; };
  return [make("div", { className: "row" }, field, button(TEXTS.tellAll, "", "tell-all", true, telling))];
}

// A row to start the clock, and in its place one while it runs.
function clockNodes() {
  const start = () => { if (isFilledIn("clock-sets")) askDesk("CLOCK " + numberAt("clock-minutes")); };
  const more = () => { if (desk.clock !== null) askDesk("CLOCK " + (Math.ceil(secondsLeft() / 60) + 2)); };
  return [make("div", { id: "clock-sets", className: "row", hidden: desk.clock !== null }, numberField("clock-minutes", TEXTS.clockMinutes, 1, 240, 20),
    button(TEXTS.clockStart, "", "clock-start", true, start)),
  make("div", { id: "clock-runs", className: "row", hidden: desk.clock === null }, make("b", { id: "clock-left" }, desk.clock === null ? "" : clockText(secondsLeft())),
    button(TEXTS.clockStop, "", "clock-stop", true, () => askDesk("CLOCK")), button(TEXTS.clockMore, "", "clock-more", true, more))];
}
"##;

/// The director's script.
pub const DIRECTOR_SCRIPT: &str = r##""use strict";
// The director's page: tables, rounds, deals, rulings, endings, rankings and results. It asks by lines of the protocol, and
// judges nothing.

const MOST_BOARDS = 36;
const MOST_TABLES = 12;
const MINUTE = 60000;

// Milliseconds: how long standings that are in sight last.
const STANDINGS_LAST = 30000;
let standingsAt = 0;
// The parts of the page, one of which is in sight.
const TABS = ["tables", "boards", "rulings", "standings", "evening"];
let tab = "tables";

// When each table's line was first seen as it is.
const since = new Map();
let boardsOfSet = 1;
let boardsOfAll = MOST_BOARDS;
// Whether lines are out.
let ordered = false;
// The names of pairs; the play that is looked at, or null: its round, table and place in its set, what was told of it, and how it
// is looked at.
let pairNames = new Map();
let opened = null;
// The tables as they were told last.
let lastTables = null;

// A reply of one line in words.
function outcome(reply) {
  const refused = refusal(reply);
  return refused ? TEXTS.directorRefusals[refused] || refused : TEXTS.doneWord;
}

function tell(text) {
  say("told", text);
}

// Takes down a question that stands.
function closeQuestions() {
  for (const id of ["end-question", "rule-question", "deal-question"]) if (at(id)) at(id).replaceChildren();
}

// A place for questions, which is a sheet over the page while one stands.
const questionBox = (id) => make("div", { id, className: "sheet question", role: "dialog", aria_modal: "true", onkeydown: holdTab });

// Asks before it acts; no other question stands beside it, and the focus goes back to what raised it. A yes has its verb.
function confirmFirst(box, question, verb, act, ...more) {
  const raised = document.activeElement;
  const close = () => {
    closeQuestions();
    if (raised) raised.focus();
  };
  tell("");
  closeQuestions();
  box.setAttribute("aria-label", question);
  box.replaceChildren(make("h2", null, question), ...more.map((words) => make("p", null, ...[].concat(words))),
    make("div", { className: "row" },
      button(TEXTS.no, "", "no", true, close), button(TEXTS.yesDo(verb), "", "yes", true, () => { close(); act(); })));
  at("yes").className = "send";
  at("no").focus();
}

// Sends lines without the key, each of a keyword and words, of the protocol or corrections; gives the replies, or null, also while
// other lines are out.
async function order(lines, isCorrection = false) {
  if (ordered) {
    tell(TEXTS.answerAwaited);
    return null;
  }
  ordered = true;
  tell("");
  const body = lines.map((line) => line.replace(/^(\S+)\s*/,
    (_all, word) => (word === "SYNC" ? word : word + " " + key + " ")).trim() + "\n").join("");
  const reply = await (isCorrection ? ask("/correct", body) : ask("/lines", body));
  ordered = false;
  if (reply === null) tell(TEXTS.unknownDone);
  return reply;
}

// Sends such lines, says what became of what they do, and whether none was refused.
async function doAll(lines, what, isCorrection = false) {
  const reply = await order(lines, isCorrection);
  const refused = reply === null ? "" : reply.split("\n").find((line) => refusal(line)) || "";
  if (reply !== null) tell(TEXTS.becameOf(what, outcome(refused)));
  look();
  return reply !== null && refused === "";
}

const doOne = (line, what, isCorrection = false) => doAll([line], what, isCorrection);

// ---- the parts of the page

// Puts a part of the page in sight. Where there is room the standings stand beside the tables too.
function showTab(name) {
  tab = name;
  document.body.className = "director on-" + name;
  for (const one of TABS) {
    at("on-" + one).hidden = one !== name;
    at("tab-" + one).setAttribute("aria-pressed", String(one === name));
  }
  at(name === "tables" ? "aside" : "on-standings").append(at("ranking"));
  if (lastTables) sayBelow();
}

async function openTab(name) {
  tell("");
  showTab(name);
  await look();
  if (name === "boards" && at("dealt")) await findDealt();
}

// The buttons of the parts; that of the tables says how many of them call.
function tabNodes() {
  return TABS.map((name) => make("button", { type: "button", id: "tab-" + name, onclick: () => openTab(name) }, TEXTS.tabs[name]));
}

const seesStandings = () => tab === "standings" || (tab === "tables" && typeof matchMedia === "function" && matchMedia("(min-width: 60em)").matches);

// ---- tables

function readTables(reply) {
  const lines = reply.split("\n").map((line) => line.split(" "));
  const found = (word) => lines.find((words) => words[0] === word);
  const round = found("ROUND");
  const boards = found("BOARDS");
  return {
    round: Number(round[1]),
    rounds: Number(round[2]),
    boards: Number(boards[1]),
    all: Number(boards[2]),
    tables: lines.filter((words) => words[0] === "TABLE").map((words) => ({
      line: words.join(" "), number: words[1], ns: words[2], ew: words[3],
      idle: words[4] === "-" ? words[5] : "", board: words[4], phase: words[5], turn: words[6], calls: words[7], cards: words[8],
    })),
  };
}

function progressText(table) {
  if (table.idle) return TEXTS.idle[table.idle] || table.idle;
  const playing = table.phase === "PLAY";
  return TEXTS.progress(playing, playing ? table.cards : table.calls, SEAT_NAMES[table.turn]);
}

function minutesText(table, now) {
  const known = since.get(table.number);
  if (!known || known.line !== table.line) since.set(table.number, { line: table.line, at: now });
  return String(Math.floor((now - since.get(table.number).at) / MINUTE));
}

// How a table stands, for its colour: the director was called, done, at play, slow, or not dealt.
const SLOW_TABLE = 5;
function standsAs(table, minutes) {
  if (desk.calls.some((call) => call.table === table.number)) return "called";
  if (table.idle === "NotCurrent" || table.idle === "SitsOut") return "done";
  if (table.idle) return "waits";
  return minutes >= SLOW_TABLE ? "slow" : "plays";
}

// How many of a table's boards are done, as marks beside the words.
function marksOf(table) {
  const done = table.idle ? (table.idle === "NotCurrent" ? boardsOfSet : 0) : placeInSet(Number(table.board)) - 1;
  const marks = Array.from({ length: table.idle === "SitsOut" ? 0 : boardsOfSet },
    (_none, i) => make("i", { className: i < done ? "all" : i === done && !table.idle ? "half" : "" }));
  return make("span", { className: "marks", aria_hidden: "true" }, ...marks);
}

// Why a table calls, where it says so.
function reasonNodes(table) {
  const call = desk.calls.find((one) => one.table === table.number);
  return call && call.text ? [make("b", null, call.text), make("br")] : [];
}

const pairText = (pair) => (pair === "0" ? "\u2013" : pairNames.has(Number(pair)) ? pair + " " + pairNames.get(Number(pair)) : pair);

function tablesTable(state) {
  const now = Date.now();
  const rows = state.tables.map((table) => {
    const minutes = minutesText(table, now);
    const stands = standsAs(table, Number(minutes));
    const open = make("button", { type: "button", id: "open-" + table.number, aria_label: TEXTS.openTable(table.number), onclick: () => openTable(table) }, TEXTS.open);
    return make("tr", { className: stands },
      ...[[table.number], [pairText(table.ns)], [pairText(table.ew)],
        [table.idle ? "" : TEXTS.board(table.board)], [...reasonNodes(table), progressText(table)], [marksOf(table), table.idle ? "" : TEXTS.stillFor(Number(minutes))],
        [TEXTS.stands[stands]]].map((words) => make("td", null, ...words)),
      make("td", null, ...(table.idle === "SitsOut" ? [] : [open])));
  });
  return make("table", { id: "tables", className: "tables", hidden: rows.length === 0, aria_label: TEXTS.tables },
    make("thead", null, make("tr", null, ...TEXTS.tableHeads.map((title) => make("th", { scope: "col" }, title)))), make("tbody", null, ...rows));
}

// The place of the board that a table has now, or of the first of its set.
function placeNow(round, number) {
  const table = round === lastTables.round && lastTables.tables.find((one) => one.number === number);
  return table && !table.idle ? placeInSet(Number(table.board)) : 1;
}

// Shows the play at a table: its current one, or the first of its set.
const openTable = (table) => openPlay([lastTables.round, table.number, placeNow(lastTables.round, table.number)]);

// The tables that are still at play and those that wait for a deal, by their numbers, in words; nothing where all are done.
function stillOpen(state) {
  const among = (isOf) => state.tables.filter((table) => isOf(table.idle)).map((table) => table.number);
  return TEXTS.stillOpen(among((idle) => !["NotCurrent", "SitsOut", "NotDealt"].includes(idle)), among((idle) => idle === "NotDealt"));
}

function roundText(state) {
  if (state.round > state.rounds) return TEXTS.closed;
  return TEXTS.roundIs(state.round, state.rounds, stillOpen(state).map((words) => words + ".").join(" ") || TEXTS.allDone);
}

function showTables(state) {
  boardsOfSet = state.boards;
  boardsOfAll = state.all;
  lastTables = state;
  say("status", roundText(state));
  at("status").className = "";
  sayBelow();
  const calls = desk.calls.length ? [" ", make("span", { className: "count" }, String(desk.calls.length))] : [];
  if (at("tab-tables").textContent !== TEXTS.tabs.tables + (calls.length ? " " + desk.calls.length : "")) at("tab-tables").replaceChildren(TEXTS.tabs.tables, ...calls);
  const old = at("tables");
  const tables = tablesTable(state);
  // What stands in the focus stays there.
  const focus = document.activeElement && old.contains(document.activeElement) ? document.activeElement.id : "";
  if (old && !old.isEqualNode(tables)) old.replaceWith(tables);
  if (focus && at(focus)) at(focus).focus();
  const end = at("end-round");
  if (!end) return;
  const closed = state.round > state.rounds;
  const open = stillOpen(state);
  end.disabled = closed || open.length > 0;
  say("round-is", closed ? "" : TEXTS.tablesDone(state.tables.filter((table) => table.idle === "NotCurrent" || table.idle === "SitsOut").length, state.tables.length));
  const label = closed ? TEXTS.allEnded : open.length > 0 ? TEXTS.endWaits(state.round, open) : TEXTS.endRound(state.round, state.round === state.rounds);
  if (end.textContent !== label) end.textContent = label;
  end.onclick = () => confirmFirst(at("end-question"), TEXTS.asks(label), TEXTS.verbs.end, () => doOne("NEXT " + state.round, TEXTS.endOf(state.round)),
    state.round === state.rounds ? TEXTS.closeEffect : TEXTS.endEffect(state.round + 1));
}

// What is in sight, below the title: the play that is looked at, or the round.
function sayBelow() {
  const { round, rounds } = lastTables;
  say("below", tab === "rulings" && opened ? TEXTS.rulingAt(opened.words[1], opened.words[0]) : round > rounds ? "" : TEXTS.roundOf(round, rounds));
}

// ---- a play that is looked at

// What was told last of each play.
const toldPlays = new Map();

// What is told of a play: its text, or null where no answer came.
async function askPlay(words) {
  const text = await ask("/boards", key + " " + words.join(" "));
  if (text !== null) toldPlays.set(words.join(" "), text);
  return text;
}

// The play that a text tells of, or null where it is a refusal.
const playIn = (text) => (text && !refusal(text) ? readBoards(text).boards[0] : null);
const placesInSet = () => Array.from({ length: boardsOfSet }, (_none, i) => i + 1);

// Shows a play as it is now; it stays, and is shown anew as it goes on, until it is closed. The other boards of its set are asked
// for once.
async function openPlay(words) {
  tell("");
  const wanted = { words, text: "", board: null, step: null, back: 1, per: { NS: null, EW: null } };
  opened = wanted;
  showTab("rulings");
  showPlay();
  if (!at("on-rulings").contains(document.activeElement)) at("play-" + words[2]).focus();
  if (typeof scrollTo === "function") scrollTo(0, 0);
  await showOpened();
  for (const place of placesInSet()) if (place !== words[2] && opened === wanted) await askPlay([words[0], words[1], place]);
  showChoosing();
  await showRulings();
}

function closePlay() {
  opened = null;
  showPlay();
  at("rule-table").focus();
}

async function showOpened() {
  const wanted = opened;
  if (!wanted) return;
  const text = await askPlay(wanted.words);
  if (opened !== wanted || text === null || text === wanted.text || !at("opened")) return;
  const isNew = wanted.board === null;
  Object.assign(wanted, { text, board: playIn(text), back: 1 });
  if (!wanted.board) tell(TEXTS.becameOf(TEXTS.playOf(...wanted.words.slice(0, 2), TEXTS.boardInPlace(wanted.words[2])), outcome(text)));
  showPlay(isNew);
}

// Shows what is looked at; what is chosen for a ruling stays while the same play goes on.
function showPlay(isNew = true) {
  const board = opened && opened.board;
  drawAnew(at("opened"), board ? openedNodes(board) : []);
  at("ruling").hidden = !board;
  if (isNew) at("ruling").replaceChildren(...(board ? rulingNodes(board) : []));
  if (board) sayRuling();
  showChoosing();
  sayBelow();
}

// Draws a part anew; what stands in the focus there stays in it.
function drawAnew(part, nodes) {
  const focus = document.activeElement && part.contains(document.activeElement) ? document.activeElement.id : "";
  part.replaceChildren(...nodes);
  if (focus && at(focus)) at(focus).focus();
}

function openedNodes(board) {
  const all = board.cards.length;
  const step = opened.step === null ? all : Math.min(opened.step, all);
  const hands = steppedNode(board, "S", step, (now) => { if (opened) opened.step = now === all ? null : now; }, make("h2", null, ...(board.result.none ? [TEXTS.tableNow] : stateNodes(board))));
  hands.append(make("p", { className: "second" }, TEXTS.onlyDirector));
  return [hands, playedNode(board, "S", all)];
}

// ---- which play is looked at

// The contract that an auction came to, and its declarer; null while it goes on, and where all passed.
function contractOf(board) {
  const { calls } = board;
  const view = viewOf(board, "S");
  const last = lastCall(view, isBid);
  if (!last || calls.slice(-3).some((call) => call !== "PASS")) return null;
  const doubled = lastCall(view, (call) => call !== "PASS").call;
  const lastAt = calls.lastIndexOf(last.call);
  const first = calls.findIndex((call, i) => isBid(call) && strainOf(call) === strainOf(last.call) && (lastAt - i) % 2 === 0);
  return { bid: last.call + (isBid(doubled) ? "" : doubled), declarer: SEATS[(SEATS.indexOf(view.dealer) + first) % 4] };
}

// How far a play is, or what came of it.
function stateNodes(board) {
  const { result } = board;
  if (result.bid) return [...resultNodes(result), ", " + TEXTS.made(result.tricks - 6 - Number(result.bid[0]))];
  if (!result.none) return resultNodes(result);
  const contract = contractOf(board);
  if (contract) return [...resultNodes(contract), ", " + TEXTS.noResult];
  return [board.calls.length ? TEXTS.inAuction : TEXTS.notBegun];
}

// A tile for each board of the set, with what is known of it.
function boardTiles([round, table, chosen]) {
  const told = placesInSet().map((place) => toldPlays.get([round, table, place].join(" ")));
  const known = told.map(playIn);
  const from = known.findIndex(Boolean);
  return told.map((text, i) => {
    const label = from < 0 ? TEXTS.placeOf(i) : String(known[from].number - from + i);
    const state = known[i] ? stateNodes(known[i]) : [text ? TEXTS.dealStates.open : TEXTS.dealStates.unknown];
    const tile = make("button", { type: "button", id: "play-" + (i + 1), className: "tile", onclick: () => openPlay([round, table, i + 1]) },
      make("b", null, label), " ", make("span", null, ...state));
    tile.setAttribute("aria-pressed", String(i + 1 === chosen));
    return tile;
  });
}

// The numbers of the tables: where the session is closed and none was told, all that there may be.
let tableNumbers = Array.from({ length: MOST_TABLES }, (_none, i) => String(i + 1));

// A round and a table from lists, and the table's boards.
function choosingNodes() {
  const { round: now, rounds, tables } = lastTables;
  if (tables.length) tableNumbers = tables.map((table) => table.number);
  const [round, table] = opened ? opened.words.map(String) : [String(Math.min(now, rounds)), ""];
  const list = (id, label, options, value) => {
    const node = choice(id, label, options, value);
    node.onchange = () => {
      const [toRound, toTable] = [Number(at("rule-round").value), at("rule-table").value];
      if (toTable) openPlay([toRound, toTable, placeNow(toRound, toTable)]);
    };
    return node;
  };
  return [
    list("rule-round", TEXTS.round, Array.from({ length: Math.min(now, rounds) }, (_none, i) => [String(i + 1), TEXTS.roundNow(i + 1, i + 1 === now)]), round),
    list("rule-table", TEXTS.tableField, [...(opened ? [] : [["", TEXTS.choose]]), ...tableNumbers.map((number) => [number, number])], table),
    ...(opened ? [make("div", { id: "plays", role: "group", aria_label: TEXTS.boardField }, ...boardTiles(opened.words))] : [make("p", { className: "second" }, TEXTS.chooseTable)]),
    ...(opened ? [make("button", { type: "button", id: "opened-close", onclick: closePlay }, TEXTS.close)] : [])];
}

// Shows them where they have changed, so that a list that is open stays.
let choosingShown = "";
function showChoosing() {
  const { round, rounds, tables } = lastTables;
  const words = opened ? opened.words : [];
  const told = placesInSet().map((place) => toldPlays.get([...words.slice(0, 2), place].join(" ")));
  const made = JSON.stringify([round, rounds, tables.map((table) => table.number), words, told]);
  if (made === choosingShown && at("rule-round")) return;
  choosingShown = made;
  drawAnew(at("choosing"), choosingNodes());
}

// ---- corrections of what players did

// All that was done in a play, the latest last.
function deedsOf(board) {
  const dealer = SEATS.indexOf(dealerOf(board.number));
  const calls = board.calls.map((call, i) => ({ seat: SEATS[(dealer + i) % 4], name: callName(call), isCall: true }));
  const cards = board.cards.map(({ seat, card, trick }) => ({ seat, name: cardName(card), trick }));
  return [...calls, ...cards, ...(board.claim ? [{ seat: board.claim.seat, claim: board.claim.tricks }] : [])];
}

const deedText = ({ seat, name, claim }) => (claim === undefined ? TEXTS.doneBy(SEAT_NAMES[seat], name) : TEXTS.claimBy(SEAT_NAMES[seat], claim));

// How many of some deeds are calls, cards and claims.
const kindsOf = (deeds) => [deeds.filter((one) => one.isCall).length, deeds.filter((one) => one.trick !== undefined).length, deeds.filter((one) => one.claim !== undefined).length];

// What it is called to take back so many.
const backName = (deeds) => TEXTS.takeBackOf(deeds.length === 1 ? deedText(deeds[0]) : TEXTS.someDeeds(...kindsOf(deeds)));

// What becomes of a play of which these are taken back.
function backEffect(board, deeds) {
  const [{ seat, isCall, claim }] = deeds;
  if (claim !== undefined) return TEXTS.claimBackTo;
  const list = deeds.length === 1 ? "" : TEXTS.goBack(deeds.map(deedText));
  if (isCall) return list + TEXTS.callBackTo(SEAT_NAMES[seat]);
  // The leader sits behind declarer, whose partner is dummy.
  const dummy = nextTo(board.cards[0].seat);
  const player = SEAT_NAMES[seat === dummy ? partner(dummy) : seat];
  return list ? list + TEXTS.playsThen(player, seat === dummy) : TEXTS.cardBackTo(player, SEAT_NAMES[seat]);
}

// The latest deeds of the play that is looked at, as many as are to be taken back.
const deedsBack = () => deedsOf(opened.board).slice(-opened.back);

// Does something to the play that is looked at once the question is answered, if it is still what it was when it was asked.
function onceUnchanged(question, verb, act, ...more) {
  const { words, text } = opened;
  confirmFirst(at("rule-question"), question, verb, async () => {
    const now = await askPlay(words);
    if (now !== text) return tell(now === null ? TEXTS.noAnswer : TEXTS.changedSince);
    return act();
  }, ...more);
}

function takeBack(then = () => {}) {
  const { board, words } = opened;
  const deeds = deedsBack();
  const what = TEXTS.atTableOnBoard(backName(deeds), words[1], board.number);
  const back = async () => { if (await doAll(deeds.map(() => "BACK " + words.join(" ")), what, true)) then(); };
  onceUnchanged(TEXTS.asks(what), TEXTS.verbs.back, back, [backEffect(board, deeds)], [TEXTS.playedBy(board.names)]);
}

// The play at a table that asks for its latest call or card back, and the question whether it goes; its call is answered then.
async function grantBack(table) {
  await openTable(table);
  if (opened && opened.board && deedsOf(opened.board).length) takeBack(() => askDesk("ANSWERED " + table.number));
}

// How many are taken back; what they are is struck where it stands.
function backNodes() {
  const step = (by) => () => { opened.back += by; sayRuling(); };
  return [
    make("div", { className: "row steps" }, button("\u2212", TEXTS.less, "back-less", true, step(-1)), make("b", { id: "back-count", className: "large" }),
      button("+", TEXTS.more, "back-more", true, step(1)), make("p", { id: "back-to", role: "status" })),
    button("", "", "opened-back", true, () => takeBack())];
}

function sayBack(board) {
  const all = deedsOf(board);
  opened.back = Math.max(1, Math.min(opened.back, all.length));
  const deeds = all.slice(-opened.back);
  say("back-count", String(deeds.length));
  say("back-to", deeds.length ? TEXTS.backTo(...kindsOf(deeds), SEAT_NAMES[deeds[0].seat], deeds[0].trick) : "");
  say("opened-back", deeds.length ? backName(deeds) : TEXTS.nothingDone);
  at("opened-back").disabled = deeds.length === 0;
  at("back-less").disabled = opened.back <= 1;
  at("back-more").disabled = opened.back >= all.length;
  strike(board, deeds.length);
}

// Strikes the latest that was done, so many, in the auction and in the tricks.
function strike(board, count) {
  const [auction, tricks] = at("opened").querySelectorAll("table");
  const skipped = ["W", "N", "E", "S"].indexOf(dealerOf(board.number));
  const calls = [...auction.querySelectorAll("td")].slice(skipped, skipped + board.calls.length);
  const cards = tricks ? [...tricks.querySelectorAll("tr")].flatMap((row) => [...row.querySelectorAll("td")].slice(2)) : [];
  const done = [...calls, ...cards.slice(0, board.cards.length)];
  const from = done.length + (board.claim ? 1 : 0) - count;
  done.forEach((cell, i) => { cell.className = i >= from ? "struck" : ""; });
}

// ---- deals

function drawSeed() {
  return [...crypto.getRandomValues(new Uint8Array(32))].map((byte) => byte.toString(16).padStart(2, "0")).join("");
}

// The deals of a text: DEAL lines, with a key or without, a number and a deal, or the tag pairs of a PBN file.
function dealsIn(text) {
  const found = [];
  let board = null;
  for (const line of text.split(/\r?\n/)) {
    const tag = /^\s*\[(Board|Deal)\s+"([^"]*)"\]/.exec(line);
    const plain = /^\s*(?:DEAL\s+(?:\d+\s+)?)?(\d+)\s+([NESW]:.+?)\s*$/.exec(line);
    if (tag && tag[1] === "Board") board = tag[2];
    else if (tag && board !== null) found.push([board, tag[2]]);
    else if (plain) found.push([plain[1], plain[2]]);
  }
  return found;
}

// The boards of each answer to a deal, the dealt ones first.
function dealtText(boards, replies) {
  const found = new Map([["OK", []]]);
  boards.forEach((board, i) => found.set(replies[i], [...(found.get(replies[i]) || []), board]));
  const name = (reply, some) => (reply === "OK" ? TEXTS.dealt(some) : TEXTS.notDealt(some, outcome(reply)));
  return [...found].map(([reply, some]) => (some.length ? name(reply, some) : TEXTS.nothingDealt)).join(" ");
}

async function dealAll(lines, boards) {
  const reply = await order(lines);
  if (reply === null) return;
  const replies = reply.split("\n");
  boards.forEach((board, i) => dealtAs.set(Number(board), ["", "AlreadyDealt"].includes(refusal(replies[i] || "ERR 0 -")) ? "dealt" : "refused"));
  tell(dealtText(boards, replies));
  dealtAnew();
  look();
}

// The boards from one to another.
function boardsToShuffle() {
  const [first, last] = ["shuffle-first", "shuffle-last"].map((id) => Number(at(id).value));
  return Array.from({ length: Math.max(0, Math.min(last, MOST_BOARDS) - first + 1) }, (_none, i) => first + i);
}

function shuffleBoards() {
  if (!isFilledIn("dealing")) return;
  const boards = boardsToShuffle();
  if (boards.length === 0) return tell(TEXTS.noBoardsThere);
  confirmFirst(at("deal-question"), TEXTS.asks(TEXTS.shuffleOf(boards[0], boards[boards.length - 1])), TEXTS.verbs.shuffle, () => {
    const seed = drawSeed();
    dealAll(boards.map((board) => "SHUFFLE " + board + " " + seed), boards);
  }, TEXTS.shuffleEffect);
}

// ---- which boards are dealt

// By number: dealt, or refused; and whether it was found which of the others are to be dealt.
const dealtAs = new Map();
let dealsFound = false;
// Which search for them is the last one, and whether it is at work.
let search = 0;
let isSearching = false;
const dealState = (board) => dealtAs.get(board) || (dealsFound ? "open" : "unknown");
const allBoards = () => Array.from({ length: boardsOfAll }, (_none, i) => i + 1);

// The boards that are dealt, as the plays of each round tell: asked until all are known to be, or no round is left.
async function findDealt() {
  const { rounds, tables } = lastTables;
  const found = new Set();
  const [asked, mine] = [key, (search += 1)];
  isSearching = true;
  for (let round = 1; tables.length && round <= rounds && found.size < boardsOfAll; round += 1) {
    // One after the other, so that nobody else waits for them.
    for (const play of tables.flatMap(({ number }) => Array.from({ length: boardsOfSet }, (_none, i) => [round, number, i + 1]))) {
      const reply = await askPlay(play);
      if (mine !== search || key !== asked) return;
      if (reply === null) return endSearch();
      if (playIn(reply)) found.add(playIn(reply).number);
    }
    for (const board of found) dealtAs.set(board, "dealt");
    showDealt();
  }
  endSearch();
  if (!tables.length) return;
  for (const board of allBoards()) if (!found.has(board) && dealState(board) === "dealt") dealtAs.delete(board);
  dealsFound = true;
  showDealt();
  putFirst(allBoards().find((board) => dealState(board) !== "dealt"));
}

function endSearch() {
  isSearching = false;
}

// What was dealt or taken back meanwhile is to be found too.
function dealtAnew() {
  showDealt();
  if (isSearching) findDealt();
}

// The first board that is to be dealt stands in its field, where nobody has written another.
function putFirst(board) {
  if (board && Number(at("shuffle-first").value) === putFirst.last) at("shuffle-first").value = putFirst.last = board;
  sayShuffle();
}

// A tile for each board, and how many there are of each state.
function showDealt() {
  if (!at("dealt")) return;
  at("dealt").replaceChildren(...allBoards().map((board) => make("li", { className: dealState(board) }, make("b", null, String(board)), TEXTS.dealStates[dealState(board)])));
  const counts = ["dealt", "open", "refused"].map((state) => [state, allBoards().filter((board) => dealState(board) === state).length]);
  at("dealt-counts").replaceChildren(...counts.filter(([, count]) => count).map(([state, count]) => make("span", { className: state }, TEXTS.dealCount(state, count))));
}

function sayShuffle() {
  const count = boardsToShuffle().length;
  say("shuffle", count ? TEXTS.shuffleMany(count) : TEXTS.shuffle);
}

// What is wrong with the text of a deal, as far as a page can tell; else nothing.
function faultOf(text) {
  const [, first, rest] = /^([NESW]):(.*)$/.exec(text.trim()) || [];
  const hands = rest === undefined ? [] : rest.split(" ").map((hand) => hand.split(".").flatMap((ranks, i) => [...ranks].map((rank) => HAND_SUITS[i] + rank)));
  if (hands.length !== 4) return TEXTS.noDealText;
  const odd = hands.findIndex((hand) => hand.length !== 13);
  if (odd >= 0) return TEXTS.handHas(SEAT_NAMES[SEATS[(SEATS.indexOf(first) + odd) % 4]], hands[odd].length);
  return new Set(hands.flat()).size === 52 ? "" : TEXTS.cardTwice;
}

const faultsIn = (deals) => deals.map(([board, deal]) => [board, faultOf(deal)]).filter(([, fault]) => fault).map(([board, fault]) => TEXTS.isRefused(board, fault));

// Says which boards a text has, and which of them the session has not, before it deals those that it has.
function dealText(text) {
  const deals = dealsIn(text);
  if (deals.length === 0) return tell(TEXTS.noDeals);
  const isOfSession = ([board]) => Number(board) >= 1 && Number(board) <= boardsOfAll;
  const some = deals.filter(isOfSession);
  const others = deals.filter((deal) => !isOfSession(deal)).map((deal) => deal[0]);
  if (some.length === 0) return tell(TEXTS.notOfSession(others));
  const boards = some.map((deal) => deal[0]);
  return confirmFirst(at("deal-question"), TEXTS.asks(TEXTS.dealThese(boards)), TEXTS.verbs.deal,
    () => dealAll(some.map((deal) => "DEAL " + deal[0] + " " + deal[1]), boards), ...(others.length ? [TEXTS.notOfSession(others)] : []), ...faultsIn(some));
}

// ---- a form of a few fields

function numberField(id, label, low, high, value) {
  return make("span", { className: "field" }, make("label", { for: id }, label), make("input", { id, type: "number", min: low, max: high, value }));
}

function choice(id, label, options, value) {
  const node = make("select", { id }, ...options.map((option) => make("option", { value: option[0] }, option[1])));
  if (value !== undefined) node.value = value;
  return make("span", { className: "field" }, make("label", { for: id }, label), node);
}

const numberAt = (id) => Math.trunc(Number(at(id).value));

// Whether each number of a section is there and in its range.
function isFilledIn(id) {
  const filled = [...at(id).querySelectorAll("input[type=number]")].every((field) => field.value !== "" && field.checkValidity());
  if (!filled) tell(TEXTS.fillIn);
  return filled;
}

// All bids, the lowest first.
const ALL_BIDS = [1, 2, 3, 4, 5, 6, 7].flatMap((level) => ["C", "D", "H", "S", "NT"].map((strain) => level + strain));

const placeInSet = (board) => ((board - 1) % boardsOfSet) + 1;

// ---- rulings

// What a play is now, and what a ruling makes of it, as words of a question.
function beforeAndAfter(board, after) {
  return [
    [TEXTS.nowIs, ...resultNodes(board.result),
      ...(board.result.bid ? [", " + TEXTS.made(board.result.tricks - 6 - Number(board.result.bid[0])) + TEXTS.northSouthScore(signed(board.result.score))] : []),
      TEXTS.thenIs, after,
      "."],
    [TEXTS.playedBy(board.names)]];
}

// Rules on the play that is looked at: what it is called, a keyword, what follows the play, what the result becomes, and whether it
// is a correction.
function rule(what, verb, word, rest, after, isCorrection = false) {
  const { words, board } = opened;
  const name = what + ", " + TEXTS.playOf(words[0], words[1], TEXTS.boardNumber(board.number));
  const line = [word, ...words, rest].join(" ").trim();
  onceUnchanged(TEXTS.asks(name), verb, () => doOne(line, name, isCorrection), ...beforeAndAfter(board, after));
}

// What a contract with so many tricks scores for North and South.
function scoreThen(board, bid, declarer, tricks) {
  const score = scoreOf(bid, tricks, isVulnerable({ vulnerable: vulnerableOf(board.number) }, declarer));
  return signed(declarer === "N" || declarer === "S" ? score : -score);
}

// What a number of tricks makes of the contract of a play.
function withTricks(board, tricks) {
  const { bid, declarer } = board.result.bid ? board.result : contractOf(board) || {};
  if (!bid) return TEXTS.tricks(tricks);
  return callName(bid) + ", " + TEXTS.made(tricks - 6 - Number(bid[0])) + TEXTS.northSouthScore(scoreThen(board, bid, declarer, tricks));
}

const tricksList = (low) => Array.from({ length: 14 - low }, (_none, i) => [String(low + i), TEXTS.tricks(low + i)]);
const action = (id, act) => { const node = button("", "", id, true, act); node.className = "action"; return node; };

function tricksNodes(board) {
  const set = () => { const tricks = numberAt("rule-tricks"); rule(TEXTS.setTricksTo(tricks), TEXTS.verbs.set, "TRICKS", String(tricks), withTricks(opened.board, tricks)); };
  const chosen = choice("rule-tricks", TEXTS.declarersTricks, tricksList(0), String(board.result.tricks === undefined ? 7 : board.result.tricks));
  chosen.onchange = sayRuling;
  return [make("div", { className: "row" }, chosen, make("b", { id: "tricks-then" })), action("rule-set", set)];
}

// The contract that is assigned, its declarer and his tricks.
const assigned = () => [at("assign-bid").value + at("assign-doubled").value, at("assign-declarer").value, numberAt("assign-tricks")];

function assignNodes(board) {
  const now = (board.result.bid && board.result) || contractOf(board) || { bid: ALL_BIDS[0], declarer: "N" };
  const [bid, doubled] = /^(.*?)(X*)$/.exec(now.bid).slice(1);
  const assign = () => {
    const [contract, declarer, tricks] = assigned();
    const score = TEXTS.northSouthScore(scoreThen(opened.board, contract, declarer, tricks));
    rule(TEXTS.assignScore, TEXTS.verbs.assign, "ASSIGN", [contract, declarer, tricks].join(" "), TEXTS.assignedAs(callName(contract), SEAT_NAMES[declarer], TEXTS.made(tricks - 6 - Number(contract[0]))) + score, true);
  };
  const chosen = make("div", { className: "row", onchange: sayRuling },
    choice("assign-bid", TEXTS.contract, ALL_BIDS.map((one) => [one, callName(one)]), bid), choice("assign-doubled", TEXTS.double, TEXTS.doublings, doubled),
    choice("assign-declarer", TEXTS.declarerField, SEATS.map((seat) => [seat, SEAT_NAMES[seat]]), now.declarer),
    choice("assign-tricks", TEXTS.declarersTricks, tricksList(0), String(now.tricks === undefined ? Number(bid[0]) + 6 : now.tricks)));
  const send = action("rule-assign", assign);
  send.className = "action send";
  return [chosen, send];
}

// For each side one of three percentages; both are chosen before they are awarded.
function averageNodes() {
  const side = (name, short, label) => make("div", { className: "per", role: "group", aria_label: label }, make("b", { aria_hidden: "true" }, short),
    ...TEXTS.per.map(([value, words]) => button(words, "", "per-" + name + "-" + value, true, () => { opened.per[name] = value; sayRuling(); })));
  const award = () => { const { NS, EW } = opened.per; rule(TEXTS.award(NS, EW), TEXTS.verbs.award, "ADJUST", NS + " " + EW, TEXTS.average(NS, EW)); };
  return [side("NS", TEXTS.northSouth, TEXTS.northSouthPer), side("EW", TEXTS.eastWest, TEXTS.eastWestPer), action("rule-average", award)];
}

// What the buttons of the rulings say, by what is chosen.
function sayRuling() {
  const { board, per } = opened;
  sayBack(board);
  const tricks = numberAt("rule-tricks");
  say("tricks-then", board.result.none ? "" : withTricks(board, tricks));
  say("rule-set", board.result.none ? TEXTS.notOver : TEXTS.setTricksTo(tricks));
  at("rule-set").disabled = Boolean(board.result.none);
  say("rule-assign", TEXTS.assignIt(scoreThen(board, ...assigned())));
  for (const side of ["NS", "EW"]) for (const [value] of TEXTS.per) at("per-" + side + "-" + value).setAttribute("aria-pressed", String(per[side] === value));
  at("rule-average").disabled = !per.NS || !per.EW;
  say("rule-average", per.NS && per.EW ? TEXTS.award(per.NS, per.EW) : TEXTS.awardAverages);
}

function rulingNodes(board) {
  const whole = Math.max(7, Math.floor(board.cards.length / 4));
  const out = action("rule-void", () => rule(TEXTS.takeOut, TEXTS.verbs.out, "VOID", "", TEXTS.takenOut));
  const back = action("rule-restore", () => rule(TEXTS.takeBack, TEXTS.verbs.back, "RESTORE", "", TEXTS.asPlayed));
  out.append(TEXTS.takeOut);
  back.append(TEXTS.takeBack);
  const first = folded(TEXTS.takeBackDone, ...backNodes());
  first.open = true;
  return [make("h2", null, TEXTS.rule), questionBox("rule-question"), first,
    folded(TEXTS.setTheTricks, ...tricksNodes(board)), folded(TEXTS.assignScore, ...assignNodes(board)), folded(TEXTS.averages, ...averageNodes()),
    folded(TEXTS.takeOut, out), folded(TEXTS.takeBackButton, back),
    folded(TEXTS.solving, make("div", { className: "row" }, choice("solve-tricks", TEXTS.afterTricks, tricksList(7).map(([value, words]) => [value, TEXTS.after(words)]), String(whole)), button(TEXTS.solve, "", "solve", true, solve)),
      make("p", { id: "solved", role: "status" }))];
}

// The parts of the page of rulings: which play, the play, what is ruled on it, and the rulings that stand.
function rulingsNodes() {
  return [
    make("section", { id: "choosing", className: "panel", aria_label: TEXTS.openPlay }),
    make("section", { id: "opened", aria_label: TEXTS.theBoard }),
    make("section", { id: "ruling", className: "panel", aria_label: TEXTS.rule, hidden: true }),
    section("standing", TEXTS.rulingsStand, make("ul", { id: "ruled" }))];
}

// Whether players see what other tables did, and how to turn that; before it is told the same place is taken, so that nothing moves.
function othersNodes(open) {
  const turn = make("button", { type: "button", id: "others-turn", disabled: open === null, onclick: () => turnOthers(open ? "SHUT" : "OPEN") },
    open ? TEXTS.othersShut : TEXTS.othersOpen);
  return [make("p", null, TEXTS.othersTitle + " ", make("b", null, open === null ? "\u2026" : TEXTS.othersAre[open])), turn];
}

// The rulings that stand, and whether players see what other tables did.
async function showRulings() {
  const reply = await ask("/boards", key);
  if (reply === null || refusal(reply) || !at("ruled") || reply === showRulings.shown) return;
  showRulings.shown = reply;
  const lines = reply.split("\n").map((line) => line.split(" "));
  const ruled = lines.filter((words) => words[0] === "RULED").map(([, round, table, index, board, kind, ...words]) => {
    const open = () => openPlay([Number(round), Number(table), Number(index)]);
    return make("li", null, TEXTS.ruled(round, table, board, TEXTS.ruledAs[kind](words)) + " ",
      make("button", { type: "button", aria_label: TEXTS.open + ": " + TEXTS.ruled(round, table, board, ""), onclick: open }, TEXTS.open));
  });
  at("ruled").replaceChildren(...(ruled.length ? ruled : [make("li", null, TEXTS.noRulings)]));
  const open = lines.some((words) => words[0] === "OTHERS" && words[1] === "OPEN");
  at("others").replaceChildren(...othersNodes(open));
}

// ---- the disks

// The disks that the session is on: each with its name, whether it is lost, and its epoch and last action, where they are told.
function disksOf(text, kept) {
  const [, alone, lost] = /^(.*) alone, (.*) is lost$/.exec(text) || [];
  const names = lost !== undefined ? [alone, lost] : text.split(" and ").filter((name) => name !== "");
  return names.map((name, i) => ({ name, isLost: lost !== undefined && i === 1, kept: kept[i] }));
}

// How a disk stands.
function standingOf(isLost, count) {
  if (isLost) return TEXTS.diskIsLost;
  return count > 1 ? TEXTS.diskIsLevel : TEXTS.diskInOrder;
}

// A tile for each, and what is to be done where one fails.
function diskNodes(disks) {
  const isOneLost = disks.some((disk) => disk.isLost);
  const level = isOneLost ? 1 : disks.length;
  const tile = ({ name, isLost, kept }, i) => make("li", { className: isLost ? "is-lost" : "" },
    make("b", null, level > 1 ? TEXTS.diskOf(i) : TEXTS.oneDisk), make("span", { className: "second" }, name),
    make("span", { className: "large" }, standingOf(isLost, level)), ...(kept ? [make("span", null, TEXTS.keptOn(...kept, isLost))] : []),
    make("span", { className: "second" }, isLost ? TEXTS.writtenNoMore : TEXTS.writtenFirst));
  return [make("ul", { className: "disks" }, ...disks.map(tile)), make("h3", null, TEXTS.ifDiskFails),
    make("ol", null, ...TEXTS.diskSteps(disks.length, isOneLost).map((step) => make("li", null, step)))];
}

function showDisks() {
  if (desk.ends === null) return;
  say("serving", TEXTS.serving(timeText(desk.at + SECOND * desk.ends)));
  const told = [desk.disk, ...desk.kept].join("\n");
  if (told === at("disks").shows) return;
  at("disks").shows = told;
  at("disks").replaceChildren(...(desk.disk ? diskNodes(disksOf(desk.disk, desk.kept)) : []));
}

async function turnOthers(word) {
  const reply = await ask("/boards", key + " " + word);
  tell(reply === null ? TEXTS.unknownDone : refusal(reply) ? outcome(reply) : "");
  await showRulings();
}

// ---- endings, rankings, results, lines

async function solve() {
  const reply = await order(["SOLVE " + opened.words.join(" ") + " " + 4 * numberAt("solve-tricks")]);
  if (reply === null) return;
  const words = reply.split("\n")[0].split(" ");
  say("solved", words[0] === "OK" ? TEXTS.solved(words[1], words[2]) : TEXTS.notSolved(outcome(reply)));
}

async function askRankings() {
  tell("");
  await showRankings();
}

async function showRankings() {
  const asked = key;
  standingsAt = Date.now();
  const replies = [await ask("/lines", "RANK " + asked + " 1\n"), await ask("/lines", "RANK " + asked + " 2\n")];
  const text = await ask("/results", asked);
  if (key !== asked) return;
  if (text === null || replies.includes(null)) return tell(TEXTS.noAnswer);
  pairNames = shownPairs(namesIn(text));
  const time = make("p", { className: "small" }, TEXTS.asOf(timeText(Date.now())));
  if (at("rankings")) at("rankings").replaceChildren(time,
    ...rankings(replies, 0, pairNames).flat());
}

async function showResults() {
  const asked = key;
  const text = await ask("/results", asked);
  if (key === asked) say("results", text === null ? TEXTS.noAnswer : shownResults(text));
}

function section(id, title, ...nodes) {
  return make("section", { id, className: "panel", aria_label: title }, make("h2", null, title), ...nodes);
}

// A part of a section, under a heading of its own.
function group(title, ...nodes) {
  return make("div", { className: "subject" }, make("h3", null, title), ...nodes);
}

// The same folded together until its heading is pressed.
function folded(title, ...nodes) {
  return make("details", null, make("summary", null, title), ...nodes);
}

function linesNodes() {
  const box = make("textarea", { id: "box", spellcheck: false });
  const replies = make("pre", { id: "replies", role: "log", aria_label: TEXTS.replies });
  const send = async () => {
    if (ordered) return tell(TEXTS.answerAwaited);
    const reply = await order(box.value.split("\n").map((line) => line.trim()).filter((line) => line !== ""));
    replies.textContent = reply === null ? TEXTS.unknownLines : reply;
  };
  return [make("label", { for: "box" }, TEXTS.linesLabel), box, button(TEXTS.send, "", "send", true, send), replies];
}

function undeal() {
  if (!isFilledIn("dealing")) return;
  const board = numberAt("undeal-board");
  const undo = async () => { if (await doOne("UNDEAL " + board, TEXTS.undealOf(board), true)) { dealtAs.delete(board); dealtAnew(); } };
  confirmFirst(at("deal-question"), TEXTS.asks(TEXTS.undealOf(board)), TEXTS.verbs.back, undo, TEXTS.undealEffect);
}

// The deals of a file stand in the text, to be looked at and dealt.
async function readFile(chosen) {
  if (!chosen) return;
  at("deal-text").value = await chosen.text();
  const deals = dealsIn(at("deal-text").value);
  say("file-has", [TEXTS.fileHas(chosen.name, deals.length), ...faultsIn(deals)].join(". "));
}

function dealNodes() {
  const file = make("input", { id: "deal-file", type: "file", onchange: () => readFile(file.files[0]) });
  const main = (node) => { node.className = "send"; return node; };
  const shuffled = make("div", { className: "row", oninput: sayShuffle },
    numberField("shuffle-first", TEXTS.shuffleFrom, 1, MOST_BOARDS, 1), numberField("shuffle-last", TEXTS.to, 1, MOST_BOARDS, ""));
  const tiles = group(TEXTS.boardsOfEvening, make("p", { id: "deal-of", className: "second" }), make("ol", { id: "dealt" }), make("p", { id: "dealt-counts" }));
  tiles.className += " all-boards";
  return [tiles,
    group(TEXTS.shuffleHere, shuffled, main(button(TEXTS.shuffle, "", "shuffle", true, shuffleBoards)), make("p", { className: "second" }, TEXTS.seedSecret)),
    group(TEXTS.dealFile, file, make("div", { className: "row" }, make("label", { id: "choose-file", for: "deal-file" }, TEXTS.chooseFile),
      make("span", { id: "file-has", role: "status" }, TEXTS.noFile)),
      make("label", { for: "deal-text" }, TEXTS.dealText), make("textarea", { id: "deal-text", spellcheck: false }),
      button(TEXTS.deal, "", "deal", true, () => dealText(at("deal-text").value))), questionBox("deal-question"),
    group(TEXTS.dealtWrongly, make("div", { className: "row" }, numberField("undeal-board", TEXTS.boardField, 1, MOST_BOARDS, 1),
      button(TEXTS.undeal, "", "undeal", true, undeal)), make("p", { className: "second" }, TEXTS.undealHelp))];
}

function directorNodes() {
  const on = (name, ...nodes) => make("div", { id: "on-" + name, hidden: name !== tab }, ...nodes);
  return [
    make("p", { id: "told", role: "status" }),
    on("tables", make("table", { id: "tables" }), make("div", { id: "aside" },
      make("section", { id: "round", className: "panel", aria_label: TEXTS.round }, ...clockNodes(), make("p", { id: "round-is", className: "second" }),
        button(TEXTS.endTheRound, "", "end-round", false, () => {}), questionBox("end-question")),
      section("telling", TEXTS.telling, ...tellingNodes()))),
    on("boards", section("dealing", TEXTS.dealBoards, ...dealNodes())),
    on("rulings", ...rulingsNodes()),
    on("standings", section("ranking", TEXTS.standings, button(TEXTS.showRanking, "", "rank", true, askRankings), make("div", { id: "rankings" }))),
    on("evening", section("keeping", TEXTS.thisEvening, make("p", { id: "serving" }), make("div", { id: "disks" })), section("seeing", TEXTS.othersHead, make("div", { id: "others" }, ...othersNodes(null))),
      section("publishing", TEXTS.results, make("div", { className: "row" },
        button(TEXTS.showResults, "", "show-results", true, showResults), button(TEXTS.print, "", "print", true, () => window.print())),
      make("pre", { id: "results" })),
      section("lines", TEXTS.lines, ...linesNodes()))];
}

// Shows the director's page, built once, with its tables as they are now.
async function showDirector(reply, asked, mine) {
  at("title").textContent = TEXTS.director;
  at("chip").hidden = true;
  const state = readTables(reply);
  if (!at("tables")) {
    shown = "director";
    opened = null;
    showRulings.shown = "";
    toldPlays.clear();
    tab = "tables";
    at("main").replaceChildren(...directorNodes());
    at("tabs").replaceChildren(...tabNodes());
    at("tabs").hidden = false;
    showTab("tables");
    showTables(state);
    showChoosing();
    at("shuffle-last").value = state.all;
    putFirst.last = 1;
    say("deal-of", TEXTS.boardsInSets(state.all, state.boards));
    showDealt();
    sayShuffle();
    standingsAt = 0;
    pairNames = shownPairs(namesIn((await ask("/results", asked)) || ""));
  }
  if (mine !== turn) return;
  showTables(state);
  showDisks();
  showChoosing();
  if (tab === "rulings") await showOpened();
  if (tab === "rulings" || tab === "evening") await showRulings();
  if (seesStandings() && Date.now() - standingsAt > STANDINGS_LAST) await showRankings();
}
"##;

/// The page for an address at which there is nothing.
pub const UNKNOWN_PAGE: &str = r##"<!doctype html>
<html lang="en">
<head>
<meta charset="utf-8">
<meta name="viewport" content="width=device-width, initial-scale=1">
<meta name="color-scheme" content="light dark">
<title>No such page</title>
<link rel="icon" href="data:,">
<link rel="stylesheet" href="/table.css">
</head>
<body class="login">
<main>
<div class="panel">
<div class="login-head"><h1 class="large">No such page</h1></div>
<div class="login-key"><p>The bridge tables are on the first page of this server.</p><p><a class="send" href="/">To the tables</a></p></div>
</div>
</main>
</body>
</html>
"##;

/// The page for a name by which the server does not go.
pub const WRONG_HOST: &str = r##"<!doctype html>
<html lang="en">
<head>
<meta charset="utf-8">
<meta name="viewport" content="width=device-width, initial-scale=1">
<meta name="color-scheme" content="light dark">
<title>This address is not right</title>
<link rel="icon" href="data:,">
<link rel="stylesheet" href="/table.css">
</head>
<body class="login">
<main>
<div class="panel">
<div class="login-head"><h1 class="large">This address is not right</h1></div>
<div class="login-key"><p>This server does not go by the name in this address.</p><p class="second">Type the address that the director gave you, letter by letter.</p></div>
</div>
</main>
</body>
</html>
"##;
