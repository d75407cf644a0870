//! Made by `tools/page-texts` of `page/drawing.js`: a change is made there.

/// How the lanes, the ruler and the whole trace are drawn.
pub const DRAWING: &[u8] = b"// How the lanes, the ruler and the whole trace are drawn.

// The lanes are painted anew only where the view changed; what goes with the selected line lies above them.
let laneKey = '', kept = document.createElement('canvas');
function paint() {
  frame = 0;
  if (view.fresh) { view.fresh = false; labels(); detail(); }
  const begin = performance.now(), top = view.top + $('scroll').scrollTop;
  const first = Math.max(0, Math.floor(view.a)), final = Math.min(N, Math.ceil(view.a + span())), c = sized($('lanes'), view.full, view.height);
  const key = [view.a, view.k, view.full, view.height, top, total, colors.bg, view.lane, view.arrows, view.hits && $('query').value, ...folded, '/', ...hidden].join();
  if (key !== laneKey) { laneKey = key; paintLanes(top, first, final); }
  c.drawImage(kept, 0, 0, view.full, view.height);
  c.save(); c.beginPath(); c.rect(LABEL, 0, view.width, view.height); c.clip(); c.translate(LABEL, -top);
  for (const [n, color] of [[view.hover, colors.hover], [view.sel, colors.sel]]) if (n || n === view.sel) { c.fillStyle = color; c.fillRect(X(n), top, Math.max(2, view.k), view.height); }
  paintMeasured(c, top);
  paintLinks(c);
  c.restore();
  paintRuler(first, final); drawOver();
  view.spent = performance.now() - begin;
}
function paintLanes(top, first, final) {
  const c = sized(kept, view.full, view.height);
  c.save(); c.beginPath(); c.rect(LABEL, 0, view.width, view.height); c.clip(); c.translate(LABEL, -top);
  if (view.k >= 8) { c.fillStyle = colors.grid; for (let n = first; n <= final; n++) c.fillRect(X(n), top, 1, view.height); }
  if (view.hits) paintMarks(c, view.hits, colors.hit, top, final);
  paintMarks(c, differs, colors.off, top, final);
  for (const lane of lanes) {
    if (lane.y + lane.h < top || lane.y > top + view.height) continue;
    c.fillStyle = lane.type === 'group' ? colors.panel : colors.grid;
    if (lane.type === 'group') c.fillRect(0, lane.y, view.width, lane.h); else c.fillRect(0, lane.y + lane.h - 1, view.width, 1);
    if (view.lane && lane.id === view.lane) { c.fillStyle = colors.sel; c.fillRect(0, lane.y, view.width, lane.h); }
    if (lane.type === 'proc') paintProc(c, lane, first, final);
    if (lane.type === 'task') paintTask(c, lane, first, final);
    if (lane.type === 'obj') paintObject(c, lane, first, final);
  }
  if (view.arrows && view.k >= 9) for (let n = Math.max(1, first); n <= final; n++) arrowsOf(c, n);
  c.restore();
}
// Some lines, such as those found, where there are few enough in view to be told apart; the whole trace above has them all.
function paintMarks(c, list, color, top, final) {
  const i = last(list, view.a - 1) + 1, end = last(list, final) + 1;
  if (end - i > view.width / 12) return;
  c.fillStyle = color; c.globalAlpha = .45;
  for (const n of list.slice(i, end)) c.fillRect(X(n), top, 2, view.height);
  c.globalAlpha = 1;
}
// Calls back for each piece of a signal that is in view: its value, and where it begins and ends.
function pieces(id, first, final, f) {
  const s = signals.get(id);
  if (!s) return;
  for (let i = Math.max(0, last(s.n, first)); i < s.n.length && s.n[i] <= final; i++) {
    const x = Math.max(-2, X(s.n[i])), end = Math.min(view.width + 2, i + 1 < s.n.length ? X(s.n[i + 1]) : X(N + 1));
    f(s.v[i], x, end - x, s.n[i]);
  }
}
// The share of each class of values in [a, b), from sums that are made once: where a line is less than two points wide.
function shares(signal, key, classOf, count) {
  if (!signal[key]) {
    const kinds = signal.v.map(classOf), sums = Array.from({ length: count }, () => new Float64Array(kinds.length));
    for (let i = 1; i < kinds.length; i++) for (let k = 0; k < count; k++) sums[k][i] = sums[k][i - 1] + (kinds[i - 1] === k ? signal.n[i] - signal.n[i - 1] : 0);
    signal[key] = { kinds, sums };
  }
  const { kinds, sums } = signal[key];
  return (t, out) => { const i = Math.max(0, last(signal.n, t)); for (let k = 0; k < count; k++) out[k] = sums[k][i] + (kinds[i] === k ? t - signal.n[i] : 0); };
}
function paintShares(c, id, key, classOf, fills, y, h, wide = view.width, from = view.a, k = view.k) {
  const signal = signals.get(id), count = fills.length;
  if (!signal) return;
  const at = shares(signal, key, classOf, count), parts = fills.map(() => new Float32Array(wide + 1)), base = new Float32Array(wide + 1);
  let old = new Float64Array(count), now = new Float64Array(count);
  at(from, old);
  for (let x = 0; x < wide; x++) {
    at(Math.min(N + 1, from + (x + 1) / k), now);
    for (let j = 0; j < count; j++) parts[j][x] = (now[j] - old[j]) * k * h;
    [old, now] = [now, old];
  }
  fills.forEach((fill, j) => {
    const part = parts[j], color = x => typeof fill === 'function' ? fill(Math.min(N + 1, from + (x + 1) / k), from + x / k) : fill;
    for (let x = 0; x < wide; x++) {
      if (part[x] < .2) continue;
      let end = x + 1;
      const ink = color(x);
      while (end < wide && Math.abs(part[end] - part[x]) < .05 && base[end] === base[x] && color(end) === ink) base[end++] += part[x];
      c.fillStyle = ink; c.fillRect(x, y + h - base[x] - part[x], end - x, part[x]);
      base[x] += part[x]; x = end - 1;
    }
  });
}
// The ticks that a processor took from one line to another, or none where there are too many to be told apart.
function ticksIn(p, first, final, most) {
  const i = last(taken[p], first - 1) + 1, end = last(taken[p], final) + 1;
  return end - i > most ? [] : taken[p].slice(i, end);
}
function words(c, s, x, w, y, color) {
  const left = Math.max(x, 0) + 4, room = x + w - left - 3;
  if (room < 8) return;
  c.fillStyle = color;
  const size = c.measureText(s).width;
  if (size <= room) return c.fillText(s, left, y);
  const fitting = Math.floor(s.length * room / size) - 1;
  if (fitting >= 3) c.fillText(s.slice(0, fitting) + '..', left, y);
}
function hatch(c, x, y, w, h, color) {
  c.save(); c.beginPath(); c.rect(x, y, w, h); c.clip(); c.strokeStyle = color; c.lineWidth = 1.2; c.beginPath();
  for (let i = Math.floor(x / 5) * 5 - h; i < x + w; i += 5) { c.moveTo(i, y + h); c.lineTo(i + h, y); }
  c.stroke(); c.restore();
}
const FONT = 'px system-ui, DejaVu Sans, sans-serif';
const dense = () => view.k < 2;

function paintProc(c, lane, first, final) {
  const p = lane.p, y = lane.y;
  if (dense()) {
    paintShares(c, 'r' + p, 'busy', v => v === '0' ? 1 : 0, [runner(p)], y + 19, 20);
    paintShares(c, 'h' + p, 'due', v => v === '-' ? 1 : 0, [colors.handler], y + 19, 20);
    paintShares(c, 'l' + p, 'lock', v => v.includes('l') || v.includes('d') ? 0 : 1, [colors.susp], y + 41, 5);
    paintShares(c, 'l' + p, 'asks', v => v.includes('i') ? 0 : 1, [colors.req], y + 48, 5);
    c.fillStyle = colors.mute;
    for (const n of ticksIn(p, first, final, view.width / 6)) c.fillRect(X(n), y + 9, 1, 7);
    return;
  }
  // where a handler is due, its bar lies over the name of the task
  const due = [];
  pieces('h' + p, first, final, (v, x, w) => { if (v !== '-') due.push([x, x + w]); });
  c.font = '600 11' + FONT;
  pieces('r' + p, first, final, (v, x, w) => {
    const [from, to] = freeOf(due, x, x + w);
    if (v === '0') {
      c.fillStyle = colors.line; c.fillRect(x, y + 38, w, 1);
      c.font = '11' + FONT; words(c, w > 34 ? 'idle' : '', from, to - from, y + 33, colors.mute); c.font = '600 11' + FONT;
      return;
    }
    c.fillStyle = hue(+v); c.fillRect(x + .5, y + 19, Math.max(1, w - 1), 20);
    words(c, taskName(+v), from, to - from, y + 33, '#fff');
  });
  pieces('h' + p, first, final, (v, x, w) => {
    if (v === '-') return;
    c.fillStyle = colors.handler; c.fillRect(x + .5, y + 19, Math.max(1, w - 1), 15);
    words(c, v.split(',').map(objectName).join(', '), x, w, y + 30, colors.bg);
  });
  pieces('l' + p, first, final, (v, x, w) => {
    if (v.includes('l')) { c.fillStyle = colors.susp; c.fillRect(x, y + 41, w, 5); }
    if (v.includes('d')) hatch(c, x, y + 41, w, 5, colors.susp);
  });
  let begin = null;
  pieces('l' + p, first, final, (v, x, w, n) => {
    const asks = v.includes('i');
    if (asks) { c.fillStyle = colors.req; c.fillRect(x, y + 49, w, 3); if (begin === null) { c.beginPath(); c.arc(x, y + 50.5, 3, 0, 7); c.fill(); } begin = n; }
    else if (begin !== null) { head(c, x, y + 50.5, 1, 0, colors.req); begin = null; }
  });
  paintEvents(c, p, y, first, final);
}
// The widest part of what is in view of [x, end) that none of these pieces covers.
function freeOf(covered, x, end) {
  let best = [x, x], from = Math.max(x, 0);
  for (const [a, b] of [...covered, [end, end]]) {
    if (b <= from || a > end) continue;
    if (a - from > best[1] - best[0]) best = [from, a];
    from = Math.min(b, end);
  }
  return best;
}
// A mark for each event of a processor, with its text where there is room.
function paintEvents(c, p, y, first, final) {
  const list = eventsOf(p);
  c.font = '10.5' + FONT;
  for (let i = Math.max(0, last(list, first)); i < list.length && list[i] <= final; i++) {
    const n = list[i], x = X(n), room = (i + 1 < list.length ? X(list[i + 1]) : X(N + 1)) - x;
    const color = [colors.fg, colors.bad, colors.wait, colors.mute][lineClass(n)];
    c.fillStyle = c.strokeStyle = color; c.beginPath();
    if (lineKind(n) === 1) { c.moveTo(x - 3.5, y + 7); c.lineTo(x + 3.5, y + 7); c.lineTo(x, y + 15); }
    else if (lineKind(n) === 2) { c.moveTo(x, y + 6); c.lineTo(x + 4, y + 11); c.lineTo(x, y + 16); c.lineTo(x - 4, y + 11); }
    else if (lineKind(n) === 3) { c.moveTo(x + 3, y + 7); c.lineTo(x - 3.5, y + 11); c.lineTo(x + 3, y + 15); }
    else c.arc(x, y + 11, Math.min(3, view.k / 2 + .6), 0, 7);
    c.closePath();
    if (lineClass(n) === 3) { c.lineWidth = 1; c.stroke(); } else c.fill();
    // the text ends well before the next mark
    if (room > 34 && view.k > 12) { const [, , , , event, answer] = parts(n); words(c, event.replace('()', '') + (lineClass(n) === 1 || lineClass(n) === 3 ? ' ' + answer : ''), x + 3, room - 11, y + 15, color); }
  }
}
// The colour of who runs on a processor at the end of [a, b), or else at its beginning.
const runner = p => (b, a) => hues[running(p, Math.ceil(b) - 1) || running(p, Math.floor(a))];
// The processor that runs a task.
function runsOn(t, n) { for (let p = 1; p <= model.processors; p++) if (running(p, n) === t) return p; return ''; }
const CLASSES = { r: 0, y: 1, w: 2, x: 2, s: 3 }, taskClass = v => CLASSES[v[0]];

function paintTask(c, lane, first, final) {
  const y = lane.y + 4, h = lane.h - 9;
  if (dense()) return paintShares(c, lane.id, 'state', taskClass, [colors.run, colors.ready, colors.wait + '66', colors.susp], y - 1, h + 2);
  c.font = '10.5' + FONT;
  pieces(lane.id, first, final, (v, x, w, n) => {
    const letter = v[0], bar = (color, top, tall) => { c.fillStyle = color; c.fillRect(x + .5, top, Math.max(1, w - 1), tall); };
    if (letter === '-') return bar(colors.line, y + h / 2, 1);
    if (letter === 'r') { bar(colors.run, y, h); return words(c, 'P' + runsOn(lane.t, n), x, w, y + h - 4, colors.bg); }
    if (letter === 'y') { bar(colors.ready, y + 2, h - 5); return words(c, w > 40 ? 'ready' : '', x, w, y + h - 5, '#1a1200'); }
    if (letter !== 's') { bar(colors.wait + '24', y, h); bar(colors.wait, y + h - 2, 2); }
    if (letter !== 'w') hatch(c, x + .5, y, Math.max(1, w - 1), h, colors.susp);
    words(c, letter === 's' ? 'suspended' : waitWords(lane.t, n, SHORT), x, w, y + h - 4, colors.fg);
  });
}
function paintObject(c, lane, first, final) {
  const o = lane.o, y = lane.y + 3, h = lane.h - 7;
  countWaiters();
  c.font = '10.5' + FONT;
  const tall = v => Math.max(0, o.kind === 'flg' ? (+v ? h : 0) : o.limit && 'SDM'.includes(o.id[0]) ? h * Math.min(1, v / o.limit) : parseInt(v) ? h * .6 : 0);
  const told = v => o.kind === 'flg' ? '0x' + (+v).toString(16) : 'CAX'.includes(o.id[0]) ? (parseInt(v) ? 'P' + parseInt(v) : '') : v;
  // from where to where the values are told, so that no other text lies over them
  const texts = [];
  let old = -9;
  pieces(o.id, first, final, (v, x, w) => {
    if (dense() && x + w - old < 1) return;
    old = x + w; c.fillStyle = colors.rel + '40'; c.fillRect(x, y + h - tall(v), Math.max(1, w), tall(v));
    c.fillStyle = colors.rel; c.fillRect(x, y + h - tall(v) - 1, Math.max(1, w), 1.5);
    if (!dense()) { words(c, told(v), x, w, y + h - 3, colors.fg); texts.push([x, Math.max(x, 0) + 4 + c.measureText(told(v)).width]); }
  });
  old = -9;
  pieces('w' + o.id, first, final, (v, x, w) => {
    if (v === '0' || (dense() && x + w - old < 1)) return;
    old = x + w; c.fillStyle = colors.wait; c.fillRect(x, y, Math.max(1, w), Math.min(h, 3 * v));
    const [from, to] = dense() ? [0, 0] : freeOf(texts, x, x + w), s = v + ' waiting';
    if (c.measureText(s).width < to - from - 8) words(c, s, from, to - from, y + h - 3, colors.wait);
  });
}
function head(c, x, y, dx, dy, color) {
  c.fillStyle = color; c.beginPath(); c.moveTo(x, y); c.lineTo(x - dx * 7 - dy * 4, y - dy * 7 - dx * 4); c.lineTo(x - dx * 7 + dy * 4, y - dy * 7 + dx * 4); c.fill();
}
// An arrow at one line, from a processor to a lane above or below it.
function arrow(c, n, from, to, color, dashed, shift) {
  const x = X(n), down = to > from, end = to - (down ? 1 : -1), bend = Math.min(12, view.k * .35) + shift;
  c.strokeStyle = color; c.lineWidth = 1.6; c.setLineDash(dashed ? [4, 3] : []); c.beginPath(); c.moveTo(x, from);
  c.bezierCurveTo(x - bend, from + (down ? 14 : -14), x - bend, end - (down ? 16 : -16), x, end - (down ? 6 : -6));
  c.stroke(); c.setLineDash([]); head(c, x, end, 0, down ? 1 : -1, color);
}
function arrowsOf(c, n) {
  const e = effects(n), source = laneOf('r' + lineP(n));
  if (!source) return;
  e.procs.forEach((p, i) => { const to = laneOf('r' + p); if (to) arrow(c, n, source.y + 11, to.y + (to.y > source.y ? 47 : 53), colors.req, false, 2 * i); });
  e.tasks.forEach((x, i) => { const to = laneOf('s' + x.t); if (to && x.t) arrow(c, n, source.y + 11, to.y + 4, x.code === 'E_OK' ? colors.rel : colors.bad, x.code !== 'E_OK', 3 + 2 * i); });
}
// From the selected line to what led to it and what came of it.
function paintLinks(c) {
  if (!view.sel) return;
  if (view.k < 9) arrowsOf(c, view.sel);
  const link = (n, m, p, q, color) => {
    const from = laneOf('r' + p), to = laneOf('r' + q);
    if (!from || !to || X(m) - X(n) < 14) return;
    const x = X(n) + 4, z = X(m) - 5, y = from.y + (p === q ? 5 : 11), w = to.y + (p === q ? 5 : 11), pull = Math.max(8, Math.min(90, (z - x) / 2));
    c.strokeStyle = color; c.lineWidth = 2; c.beginPath(); c.moveTo(x, y); c.bezierCurveTo(x + pull, y, z - pull, w, z - 5, w); c.stroke(); head(c, z, w, 1, 0, color);
  };
  for (const [n, , p] of causes(view.sel)) link(n, view.sel, p, lineP(view.sel), colors.run);
  for (const [m, , q] of results(view.sel)) link(view.sel, m, lineP(view.sel), q, colors.run);
}
// A row of labels of which none lies over another: each is drawn where there is still room for it, up to a limit.
function labelRow(c, y) {
  const drawn = [];
  return (x, s, color, limit = view.width) => {
    const end = x + c.measureText(s).width;
    if (x < 0 || end > limit || drawn.some(([a, b]) => x < b + 7 && end > a - 7)) return;
    drawn.push([x, end]);
    c.fillStyle = color; c.fillText(s, x, y);
  };
}
// The least of 1, 2, 5, 10, 20 .. that is at least so much.
function roundStep(least) {
  let ten = 1;
  while (10 * ten < least) ten *= 10;
  return [1, 2, 5, 10].map(x => x * ten).find(x => x >= least);
}
// The clocks that have an axis: those of the processors that are shown, as far as they took ticks.
const axes = () => clocks().filter(p => taken[p].length && (model.master || !hidden.has('r' + p)));
const rulerHeight = () => 20 + 14 * Math.max(1, axes().length);
function paintRuler(first, final) {
  const shownClocks = axes(), height = rulerHeight(), c = sized($('ruler'), view.full, height);
  c.fillStyle = colors.panel; c.fillRect(0, 0, view.full, height);
  c.font = '11' + FONT; c.fillStyle = colors.mute; c.fillText('line of the trace', 8, 13);
  if (!shownClocks.length) c.fillText('no ticks', 8, 28);
  shownClocks.forEach((p, i) => c.fillText(model.master ? 'ticks of P' + p + ', for all' : model.processors > 1 ? 'ticks of P' + p : 'ticks', 8, 28 + 14 * i));
  c.save(); c.beginPath(); c.rect(LABEL, 0, view.width, height); c.clip(); c.translate(LABEL, 0);
  paintLineAxis(c, final);
  shownClocks.forEach((p, i) => paintTickAxis(c, p, 18 + 14 * i, first, final));
  c.fillStyle = colors.off;
  const i = last(differs, first - 1) + 1, end = last(differs, final) + 1;
  if (end - i <= view.width / 12) for (const n of differs.slice(i, end)) c.fillRect(X(n) - 2, 0, 6, 6);
  const range = measured();
  if (range) { c.fillStyle = colors.run; c.fillRect(X(range[0]), 16, Math.max(2, X(range[1]) - X(range[0])), 3); }
  c.fillStyle = colors.run; c.fillRect(X(view.sel), 0, 2, height);
  c.restore();
}
// The numbers of the lines: the selected one's, and as many round ones as there is room for.
function paintLineAxis(c, final) {
  const label = labelRow(c, 13), step = roundStep((c.measureText(grouped(final)).width + 12) / view.k), told = n => n === 0 ? 'boot' : grouped(n);
  label(X(view.sel) + 3, told(view.sel), colors.run);
  for (let n = Math.ceil(view.a / step) * step; n <= final; n += step) {
    c.fillStyle = colors.mute; c.fillRect(X(n), 0, 1, 5);
    if (n !== view.sel) label(X(n) + 3, told(n), colors.fg);
  }
}
// The ticks of a processor: a mark where each was taken, and the numbers of as many round ones as there is room for.
function paintTickAxis(c, p, y, first, final) {
  const list = taken[p], begin = last(list, first - 1) + 1, end = last(list, final) + 1, wide = c.measureText(grouped(end)).width + 18;
  const label = labelRow(c, y + 10), step = roundStep((end - begin) * wide / Math.min(view.width, X(N + 1) - X(first))), each = end - begin <= view.width / 6 ? 1 : step;
  c.fillStyle = colors.line; c.fillRect(0, y + 13, view.width, 1);
  for (let k = Math.ceil((begin + 1) / each) * each; k <= end; k += each) {
    const x = X(list[k - 1]);
    c.fillStyle = colors.mute; c.beginPath(); c.moveTo(x - 3, y + 3); c.lineTo(x + 3, y + 3); c.lineTo(x, y + 9); c.fill();
    // up to the next mark
    if (k % step === 0) label(x + 5, grouped(k), colors.fg, k + each <= end ? X(list[k + each - 1]) - 4 : view.width);
  }
}
let overKey = '', overKept = null;
function drawOver() {
  const canvas = $('over'), width = canvas.clientWidth || view.full, wide = width - LABEL, key = [width, colors.bg].join();
  const c = sized(canvas, width, 42), k = wide / (N + 1);
  if (overKey !== key) {
    overKept = document.createElement('canvas'); overKey = key;
    const d = sized(overKept, wide, 42), h = Math.max(3, 32 / model.processors);
    for (let p = 1; p <= model.processors; p++) {
      const y = 4 + (p - 1) * h;
      paintShares(d, 'r' + p, 'busy', v => v === '0' ? 1 : 0, [runner(p)], y, h - 1, wide, 0, k);
      paintShares(d, 'h' + p, 'due', v => v === '-' ? 1 : 0, [colors.handler], y, h - 1, wide, 0, k);
    }
  }
  c.fillStyle = colors.mute; c.font = '11' + FONT; c.fillText('whole trace', 8, 17); c.fillText(grouped(N) + (N === 1 ? ' line' : ' lines'), 8, 32);
  c.drawImage(overKept, LABEL, 0, wide, 42);
  if (view.hits) drawMarks(c, view.hits, colors.hit, wide, k, 42, -1);
  const x = LABEL + view.a * k, w = Math.max(3, span() * k);
  c.fillStyle = colors.bg + 'aa'; c.fillRect(LABEL, 0, x - LABEL, 37); c.fillRect(x + w, 0, LABEL + wide - x - w, 37);
  c.strokeStyle = colors.run; c.lineWidth = 1.5; c.strokeRect(x + .5, 1, Math.min(w, LABEL + wide - x) - 1.5, 36);
  c.fillStyle = colors.run; c.fillRect(LABEL + view.sel * k, 0, 2, 38);
  drawMarks(c, differs, colors.off, wide, k, 0, 1);
}
// Where some lines are in the whole trace, as marks from an edge of it: the higher the more there are.
function drawMarks(c, list, color, wide, k, edge, way) {
  const found = new Float32Array(wide + 1);
  for (const n of list) found[Math.floor(n * k)]++;
  const most = found.reduce((x, y) => Math.max(x, y), 0);
  c.fillStyle = color;
  found.forEach((many, x) => { const h = 2 + 3 * many / most; if (many) c.fillRect(LABEL + x, way > 0 ? edge : edge - h, 2, h); });
}
";
