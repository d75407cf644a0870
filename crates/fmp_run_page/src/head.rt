//! Made by `tools/page-texts` of `page/head.html`: a change is made there.

/// What stands before the texts of a page: its style, and the frame into which is drawn.
pub const HEAD: &[u8] = b"<!doctype html>
<html lang='en'>
<head>
<meta charset='utf-8'>
<meta name='viewport' content='width=device-width, initial-scale=1'>
<meta http-equiv='Content-Security-Policy' content='default-src &#39;none&#39;; style-src &#39;unsafe-inline&#39;; script-src &#39;unsafe-inline&#39;'>
<title>fmpsim timeline</title>
<style>
:root { color-scheme: light; --bg: #ffffff; --panel: #f4f6f8; --fg: #1a2027; --mute: #566170; --line: #d5dbe2; --grid: #eaedf1;
  --run: #0b62b4; --ready: #d97f00; --wait: #7650b5; --susp: #66707c; --req: #c0146a; --rel: #0a7a4c; --bad: #bf360c; --hit: #f2b600;
  --sel: rgba(11, 98, 180, .13); --hover: rgba(90, 100, 115, .12); --handler: #2b333d; --light: 36%; --off: #c62828; --offs: rgba(198, 40, 40, .10); }
:root[data-theme=dark] { color-scheme: dark; --bg: #12161b; --panel: #1a2028; --fg: #e6ebf1; --mute: #9da9b6; --line: #323b47; --grid: #222932;
  --run: #4d9ff0; --ready: #f5a93a; --wait: #b394f2; --susp: #98a2ae; --req: #ff70ad; --rel: #4acb95; --bad: #ff8a5f; --hit: #ffd54a;
  --sel: rgba(90, 165, 245, .20); --hover: rgba(160, 175, 190, .14); --handler: #d4dbe4; --light: 40%; --off: #ff6e6e; --offs: rgba(255, 110, 110, .14); }
* { box-sizing: border-box; }
html, body { height: 100%; margin: 0; }
body { display: flex; flex-direction: column; background: var(--bg); color: var(--fg); font: 13px/1.4 system-ui, 'DejaVu Sans', sans-serif; }
button, input { font: inherit; color: inherit; background: var(--bg); border: 1px solid var(--line); border-radius: 5px; padding: 3px 7px; }
button { cursor: pointer; } button:hover { background: var(--panel); }
:focus-visible { outline: 2px solid var(--run); outline-offset: 1px; } #list:focus-visible, #lanes:focus-visible { outline: 1px solid var(--run); outline-offset: -1px; }
header { display: flex; gap: 5px; align-items: center; padding: 6px 10px; background: var(--panel); border-bottom: 1px solid var(--line); flex-wrap: wrap; }
header b { font-size: 14px; } header .sum { color: var(--mute); margin-right: auto; padding-left: 4px; }
#differing, #measuring { display: flex; gap: 5px; align-items: center; } #differing[hidden], #measuring[hidden] { display: none; } #measured { color: var(--run); font-weight: 600; font-variant-numeric: tabular-nums; } #differing .off { font-weight: 600; font-variant-numeric: tabular-nums; }
#query { width: 175px; } #count { color: var(--mute); font-variant-numeric: tabular-nums; } header label { color: var(--mute); }
#over { display: block; width: 100%; height: 42px; border-bottom: 1px solid var(--line); cursor: pointer; touch-action: none; }
main { flex: 1; display: flex; min-height: 0; }
#left { flex: 1; min-width: 0; display: flex; flex-direction: column; }
#ruler { display: block; width: 100%; flex: none; height: 34px; border-bottom: 1px solid var(--line); }
#scroll { flex: 1; overflow-x: hidden; overflow-y: auto; position: relative; }
#lanes { display: block; position: sticky; top: 0; touch-action: pan-y; cursor: crosshair; } #lanes.drag { cursor: grabbing; }
#labels { position: absolute; left: 0; top: 0; width: 200px; background: var(--bg); border-right: 1px solid var(--line); }
.lane { position: absolute; left: 0; width: 199px; padding: 0 8px; display: flex; gap: 6px; align-items: center; white-space: nowrap; border-bottom: 1px solid var(--grid); cursor: pointer; }
.lane span { overflow: hidden; text-overflow: ellipsis; } .lane .now { margin-left: auto; color: var(--mute); font-size: 11px; }
.lane .name { flex: none; max-width: 110px; font-weight: 600; } .lane i { flex: none; width: 9px; height: 9px; border-radius: 2px; }
.lane.on { background: var(--sel); } .lane .hide { flex: none; display: none; border: 0; background: none; color: var(--mute); padding: 0 2px; line-height: 1; } .lane:hover .hide, .lane.on .hide { display: block; }
.group { position: absolute; left: 0; width: 199px; border: 0; border-radius: 0; padding: 0 8px; text-align: left; font-size: 11px; font-weight: 600; color: var(--mute); background: var(--panel); text-transform: uppercase; letter-spacing: .04em; }
#split { flex: none; width: 5px; cursor: col-resize; background: var(--panel); border: solid var(--line); border-width: 0 1px; touch-action: none; }
aside { flex: none; width: 440px; display: flex; flex-direction: column; min-width: 200px; }
#list { flex: 1.2; overflow: auto; position: relative; font: 12px/20px ui-monospace, 'DejaVu Sans Mono', monospace; }
.row { position: absolute; left: 0; right: 0; height: 20px; padding: 0 8px; white-space: pre; cursor: pointer; overflow: hidden; text-overflow: ellipsis; }
.row.hit { box-shadow: inset 3px 0 var(--hit); } .row.hover { background: var(--hover); } .row.sel { background: var(--sel); box-shadow: inset 3px 0 var(--run); }
.off { color: var(--off); } .off b, .given b, .not { text-decoration: underline; } .row.given { background: var(--offs); color: var(--off); } .row.given .n, .row.differs .n { color: var(--off); font-weight: 700; }
.n { color: var(--mute); display: inline-block; text-align: right; margin-right: 8px; } .p { font-weight: 700; } .bad { color: var(--bad); } .wait { color: var(--wait); } .rel { color: var(--rel); } .req { color: var(--req); } .run { color: var(--run); } .mute { color: var(--mute); }
#detail { flex: 1; overflow: auto; border-top: 1px solid var(--line); padding: 8px 12px 12px; background: var(--panel); }
#detail h2 { font: 700 13px/1.5 ui-monospace, 'DejaVu Sans Mono', monospace; margin: 0 0 4px; overflow-wrap: anywhere; }
#detail h3 { font-size: 11px; text-transform: uppercase; letter-spacing: .04em; color: var(--mute); margin: 9px 0 2px; }
#detail p { margin: 1px 0; } #detail table { border-collapse: collapse; } #detail td { padding: 0 12px 0 0; vertical-align: top; }
#detail .go { border: 0; background: none; padding: 0; color: var(--run); text-decoration: underline; }
#tip { position: fixed; pointer-events: none; z-index: 5; max-width: 340px; padding: 4px 8px; border-radius: 5px; background: var(--fg); color: var(--bg); font-size: 12px; }
dialog { border: 1px solid var(--line); border-radius: 8px; background: var(--bg); color: var(--fg); max-width: 760px; padding: 14px 20px; }
dialog .close { float: right; } dialog .go { border: 0; background: none; padding: 0; color: var(--run); text-decoration: underline; } #shares { max-width: 95vw; }
.sums { border-collapse: collapse; font-variant-numeric: tabular-nums; } .sums th { text-align: left; font-weight: 600; color: var(--mute); padding: 1px 14px 1px 0; vertical-align: top; } .sums td { white-space: nowrap; }
.sums tr:nth-child(even) { background: var(--panel); }
dialog h2 { font-size: 14px; margin: 10px 0 4px; } dialog td { padding: 1px 14px 1px 0; vertical-align: top; } dialog canvas { vertical-align: middle; }
kbd { font: 11px ui-monospace, 'DejaVu Sans Mono', monospace; border: 1px solid var(--line); border-radius: 3px; padding: 0 4px; background: var(--panel); }
.unseen { position: absolute; width: 1px; height: 1px; overflow: hidden; clip-path: inset(50%); }
#printed { display: none; }
@page { size: A4 landscape; margin: 10mm; }
@media print {
  html, body { height: auto; } header button, header label, header input, #count, #over, aside, #split, #tip { display: none !important; }
  #scroll { overflow: hidden; flex: none; } main { display: block; } body { print-color-adjust: exact; -webkit-print-color-adjust: exact; }
  #printed { display: block; columns: 2; font: 8pt/1.35 monospace; white-space: pre-wrap; margin: 8px 0 0; } }
@media (max-width: 760px) { main { flex-direction: column; } aside { width: auto !important; height: 45%; } #split { display: none; } }
</style>
</head>
<body>
<header>
  <b id='title'>Timeline</b><span class='sum' id='sum'>This file is cut short, or scripts are not allowed here.</span>
  <span id='differing' hidden><span id='differ' class='off' aria-live='polite'></span>
  <button id='before' title='Previous line that differs (X)' aria-label='Previous line that differs'>&uarr;</button><button id='after' title='Next line that differs (x)' aria-label='Next line that differs'>&darr;</button></span>
  <span id='measuring' hidden><span id='measured' aria-live='polite'></span><button id='unmeasure' title='Ends the measuring (M)' aria-label='Ends the measuring'>&times;</button></span>
  <button id='unhide' title='Shows all lanes again (H)' hidden></button>
  <input id='query' type='search' placeholder='Search: T2  E_TMOUT  ipi' aria-label='Search the lines of the trace' title='Words that stand in a line, * for any letters, - before what must not stand there (key /)'>
  <span id='count' aria-live='polite'></span>
  <button id='prev' title='Previous line found (N)' aria-label='Previous line found'>&uarr;</button><button id='next' title='Next line found (n)' aria-label='Next line found'>&darr;</button>
  <label><input type='checkbox' id='only'> only these</label>
  <button id='out' title='Zoom out (-)' aria-label='Zoom out'>&minus;</button><button id='in' title='Zoom in (+)' aria-label='Zoom in'>+</button><button id='fit' title='The whole trace (0)'>Fit</button>
  <button id='arrows' aria-pressed='true' title='Arrows from a call to what it releases, activates or requests (a)'>Arrows</button>
  <button id='measure' aria-pressed='false' title='Measures from the selected line to another (m)'>Measure</button><button id='sums' title='Shares of the lines, longest waits and longest ready times (p)'>Shares</button>
  <button id='theme' title='Light or dark (t)'>Theme</button><button id='save' title='Save the trace that stands in this page'>Trace</button><button id='help' title='Legend and keys (?)'>?</button>
</header>
<canvas id='over' aria-hidden='true'></canvas>
<main>
  <section id='left' aria-label='Timeline'>
    <canvas id='ruler' aria-hidden='true'></canvas>
    <div id='scroll'><canvas id='lanes' role='img' tabindex='0' aria-label='Lanes of processors, tasks and objects over the lines of the trace. Arrow keys go line by line; what holds is told beside it.'></canvas><div id='labels'></div></div>
  </section>
  <div id='split' title='Drag to make the trace wider'></div>
  <aside>
    <div id='list' role='listbox' tabindex='0' aria-label='Lines of the trace'></div>
    <div id='detail' aria-label='The selected line'></div>
  </aside>
</main>
<pre id='printed'></pre>
<div id='tip' hidden></div><div id='say' class='unseen' aria-live='polite'></div>
<dialog id='legend' aria-label='Legend and keys'></dialog><dialog id='shares' aria-label='Shares and longest times'></dialog>
";
