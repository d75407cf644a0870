//! Made by `tools/page-texts` of `page/measures.js`: a change is made there.

/// What lies between two lines, and the shares of the lines.
pub const MEASURES: &[u8] = b"// What lies between two lines, and the shares of the lines.

// The two lines that are measured, the earlier one first, or null. Where only one was chosen, the other is the selected one.
function measured() {
  if (view.from === null) return null;
  const to = view.to === null ? view.sel : view.to;
  return [Math.min(view.from, to), Math.max(view.from, to)];
}
// How many there are of something.
const howMany = (n, one) => grouped(n) + ' ' + one + (n === 1 ? '' : 's');
// The ticks that were taken after line a, up to line b.
function ticksBetween(a, b) {
  const counts = clocks().map(p => [p, ticksOf(p, b) - ticksOf(p, a)]);
  return counts.length === 1 ? howMany(counts[0][1], 'tick') : 'ticks: ' + counts.map(([p, n]) => 'P' + p + ' ' + grouped(n)).join(', ');
}
const lineName = n => n ? String(n) : 'boot';
function measureWords([a, b]) { return lineName(a) + ' to ' + lineName(b) + ': ' + howMany(b - a, 'line') + ', ' + ticksBetween(a, b); }
// Chooses the selected line as the first of the two, as the second, or as the first again.
function measure() {
  if (view.from === null || view.to !== null) { view.from = view.sel; view.to = null; } else view.to = view.sel;
  tellMeasured(); draw();
}
// Measures from the line that was chosen, or else from the selected one, to line n.
function measureTo(n) {
  if (view.from === null) view.from = view.sel;
  view.to = n;
  select(n, false);
}
function unmeasure() { view.from = view.to = null; tellMeasured(); draw(); }
function tellMeasured() {
  const range = measured(), tall = () => document.querySelector('header').offsetHeight, before = tall();
  $('measuring').hidden = !range;
  $('measured').textContent = range ? measureWords(range) : '';
  $('measure').setAttribute('aria-pressed', !!range && view.to === null);
  if (tall() !== before) resize();
}
function paintMeasured(c, top) {
  const range = measured();
  if (!range) return;
  const [x, end] = range.map(X);
  c.fillStyle = colors.run; c.globalAlpha = .07; c.fillRect(x, top, end - x, view.height); c.globalAlpha = 1;
  for (const at of [x, end]) c.fillRect(at, top, 1.5, view.height);
}

// ---- shares

// Calls back for each piece of a signal between lines a and b: its value, and the lines at which it begins and ends there.
function piecesBetween(id, a, b, f) {
  const s = signals.get(id);
  for (let i = Math.max(0, last(s.n, a)); i < s.n.length && s.n[i] < b; i++) f(s.v[i], Math.max(a, s.n[i]), i + 1 < s.n.length ? Math.min(b, s.n[i + 1]) : b);
}
// The longest stay of a task in some state between lines a and b, where pieces that are alike count as one: what it is, where it begins and where it ends.
function longest(id, a, b, keyOf) {
  let best = null, now = null;
  piecesBetween(id, a, b, (v, from, to) => {
    const key = keyOf(v);
    if (now && now.key === key) now.to = to; else now = key === null ? null : { key, from, to };
    if (now && (!best || now.to - now.from > best.to - best.from)) best = now;
  });
  return best;
}
// For how many lines a signal has a value of each class between lines a and b.
function linesIn(id, a, b, classOf, count) {
  const sums = new Array(count).fill(0);
  piecesBetween(id, a, b, (v, from, to) => { sums[classOf(v)] += to - from; });
  return sums;
}
const waitKey = v => isWait(v) ? v.slice(1).replace(/ @.*/, '') : null, readyKey = v => v[0] === 'y' ? v : null;
const percent = (n, all) => grouped(n) + (all ? ' (' + (100 * n / all).toFixed(1) + '%)' : '');

// A cell that tells a longest stay of a task: how long, and from where, by a button that goes there.
function longestCell(t, a, b, keyOf, d) {
  const stay = longest('s' + t, a, b, keyOf);
  const e = el('td');
  if (!stay) { e.textContent = '-'; return e; }
  const go = el('button', 'go', lineName(stay.from) + ' to ' + lineName(stay.to)), clock = +value('a' + t, stay.from).split(' ')[0];
  const what = isWait(value('s' + t, stay.from)) ? waitWords(t, stay.from, SHORT).replace(/ [0-9]+$/, '') : '';
  go.onclick = () => { d.close(); if (hidden.has('s' + t)) { hidden.delete('s' + t); layLanes(); resize(); } chooseLane('s' + t); select(stay.from); };
  const still = stay.to === N && stay.key === keyOf(value('s' + t, N));
  const long = howMany(stay.to - stay.from, 'line') + ', ' + howMany(ticksOf(clock, stay.to) - ticksOf(clock, stay.from), 'tick');
  e.append(long + ': ', go, (what ? ', ' + what : '') + (still ? ', still' : ''));
  return e;
}
function tableOf(titles, rowsOfCells) {
  const table = el('table', 'sums'), first = el('tr');
  for (const s of titles) { const cell = el('th', '', s); cell.scope = 'col'; first.append(cell); }
  table.append(first);
  for (const cells of rowsOfCells) { const row = el('tr'); row.append(...cells.map(x => typeof x === 'string' ? el('td', '', x) : x)); table.append(row); }
  return table;
}
const nameCell = s => { const e = el('th', '', s); e.scope = 'row'; return e; };
function taskRow(task, t, a, b, d) {
  const times = linesIn('s' + t, a, b, v => v[0] === '-' ? 4 : taskClass(v), 5);
  return [nameCell(task.name), ...times.map(n => percent(n, b - a)), longestCell(t, a, b, waitKey, d), longestCell(t, a, b, readyKey, d)];
}
function procRow(p, a, b) {
  const [busy, idle] = linesIn('r' + p, a, b, v => v === '0' ? 1 : 0, 2), [due] = linesIn('h' + p, a, b, v => v === '-' ? 1 : 0, 2);
  const [locked] = linesIn('l' + p, a, b, v => v.includes('l') ? 0 : 1, 2);
  return [nameCell('P' + p), ...[busy, idle, due, locked].map(n => percent(n, b - a)), grouped(ticksOf(p, b) - ticksOf(p, a))];
}
// The shares of the lines between the two that are measured, or of all. What holds after a line holds up to the next, so the last line has no share.
function sharesTable() {
  const d = $('shares'), [a, b] = measured() || [0, N], close = el('button', 'close', 'Close');
  close.onclick = () => d.close();
  const states = ['runs', 'ready', 'waits', 'suspended', 'dormant'], processors = Array.from({ length: model.processors }, (_, i) => i + 1);
  const tasks = tableOf(['Task', ...states, 'longest wait', 'longest ready'], model.tasks.map((task, i) => taskRow(task, i + 1, a, b, d)));
  const procs = tableOf(['Processor', 'runs a task', 'idle', 'handler due', 'CPU locked', 'ticks'], processors.map(p => procRow(p, a, b)));
  const about = 'Of ' + howMany(b - a, 'line') + ', from ' + (a ? 'line ' + a : 'boot') + ' to line ' + b + '. What holds after a line counts up to the next. '
    + (measured() ? '' : 'Measure two lines (m) to see those between them alone.');
  d.replaceChildren(close, el('h2', '', 'Shares and longest times'), el('p', 'mute', about), tasks, el('h2', '', 'Processors'), procs);
  d.showModal();
}
";
