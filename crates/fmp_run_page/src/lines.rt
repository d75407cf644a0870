//! Made by `tools/page-texts` of `page/lines.js`: a change is made there.

/// The lines beside the lanes, the selected one, and the search.
pub const LINES: &[u8] = b"// The lines beside the lanes, the selected one, and the search.

let rows = [];
const shown = () => view.only && view.hits ? view.hits : null;
// Where the lines that differ stand among those of the list: below each of them is a row more, for the line that was given.
let split = [], below = [];
function layRows() {
  const s = shown();
  split = s ? s.map((n, i) => given.has(n) ? i : -1).filter(i => i >= 0) : differs.map(n => n - 1);
  below = split.map((i, j) => i + j + 1);
}
const rowCount = () => (shown() ? shown().length : N) + split.length;
const isGiven = i => below[Math.max(0, last(below, i))] === i;
function rowLine(i) { const k = i - 1 - last(below, i); return shown() ? shown()[k] : k + 1; }
function rowOf(n) { const k = shown() ? Math.max(0, last(shown(), n)) : n - 1; return k + last(split, k - 1) + 1; }
const tallest = 8000000, listHeight = () => Math.min(tallest, rowCount() * ROW);
// Where row i stands while the list is scrolled so: exact, but in lists that no browser can make as high as they are.
function firstRow() {
  const list = $('list'), room = list.clientHeight, whole = rowCount() * ROW, free = listHeight() - room;
  return whole <= tallest ? list.scrollTop / ROW : free > 0 ? list.scrollTop / free * (rowCount() - room / ROW) : 0;
}
function fill() {
  const list = $('list'), begin = firstRow(), count = Math.ceil(list.clientHeight / ROW) + 2, start = Math.max(0, Math.floor(begin));
  const nodes = [], width = String(N).length;
  for (let i = start; i < Math.min(rowCount(), start + count); i++) nodes.push((isGiven(i) ? givenNode : rowNode)(rowLine(i), list.scrollTop + (i - begin) * ROW, width));
  const whole = el('div');
  whole.style.height = listHeight() + 'px';
  list.replaceChildren(whole, ...nodes);
  rows = nodes;
  marks();
}
function rowNode(n, top, width) {
  const e = el('div', 'row'), [, , p, who, event, answer, rest] = parts(n);
  e.style.top = top + 'px'; e.dataset.n = n; e.id = 'row' + n; e.setAttribute('role', 'option'); e.classList.toggle('differs', given.has(n));
  const number = el('span', 'n', n), theirs = given.has(n) ? given.get(n).split(' ') : null;
  const add = (name, s) => { const part = el('span', name, s); e.append(part); if (theirs && s && !theirs.includes(s)) part.classList.add('not'); };
  number.style.width = width + 'ch';
  e.append(number); add('p', 'P' + p); e.append(' '); add('', who); e.append(' ', el('span', lineKind(n) ? 'mute' : '', event), ' ');
  add(['', 'bad', 'wait', 'mute'][lineClass(n)], answer);
  for (const word of (rest || '').split(' ').slice(1)) { e.append(' '); add(word.startsWith('rel=') ? (word.includes(':E_OK') ? 'rel' : 'bad') : word.startsWith('ipi=') ? 'req' : word.startsWith('run=') ? 'run' : 'bad', word); }
  return e;
}
// The line that was given in place of line n, with the words in it that line n has not.
const NOT = String.fromCharCode(8800);
function givenWords(e, n) {
  const own = line(n).split(' ');
  given.get(n).split(' ').slice(1).forEach((word, i) => { if (i) e.append(' '); e.append(own.includes(word) ? word : el('b', '', word)); });
  return e;
}
function givenNode(n, top, width) {
  const e = el('div', 'row given'), sign = el('span', 'n', NOT);
  e.style.top = top + 'px'; e.dataset.n = n; e.title = 'Given as line ' + n; e.setAttribute('role', 'option'); e.setAttribute('aria-label', 'Given: ' + given.get(n));
  sign.style.width = width + 'ch';
  e.append(sign);
  return givenWords(e, n);
}
function marks() {
  for (const e of rows) {
    const n = +e.dataset.n;
    e.classList.toggle('sel', n === view.sel); e.classList.toggle('hover', n === view.hover); e.setAttribute('aria-selected', n === view.sel);
    e.classList.toggle('hit', !!view.hits && view.hits[Math.max(0, last(view.hits, n))] === n);
  }
  if (view.sel) $('list').setAttribute('aria-activedescendant', 'row' + view.sel);
}
function showRow(n) {
  const list = $('list'), room = list.clientHeight, i = rowOf(n), whole = rowCount() * ROW;
  const begin = firstRow(), fits = room / ROW;
  if (i < begin || i + 1 > begin + fits) {
    const want = Math.max(0, Math.min(i - fits / 2 + .5, rowCount() - fits));
    list.scrollTop = whole <= tallest ? want * ROW : want / (rowCount() - fits) * (listHeight() - room);
  }
  fill();
}
function select(n, move = true) {
  view.sel = Math.max(0, Math.min(N, n));
  if (move && (X(view.sel) < 0 || X(view.sel + 1) > view.width)) { view.a = view.sel - span() / 2; clamp(); }
  if (view.sel) showRow(view.sel);
  countDiffers(); tellMeasured();
  view.fresh = true; draw();
  try { history.replaceState(null, '', '#' + view.sel); } catch (e) { /* a page that may not change its address */ }
}
function hover(n) { if (view.hover !== n) { view.hover = n; marks(); draw(); } }

function detail() {
  const box = $('detail'), n = view.sel, nodes = [], head = s => nodes.push(el('h3', '', s)), say = [];
  const para = (s, name) => nodes.push(el('p', name || '', s));
  if (!n) { nodes.push(el('h2', '', 'At boot')); para('The state before the first line. Arrow keys go on.', 'mute'); }
  else {
    const [, , p, who, event, answer] = parts(n), code = answer.split(':')[0], means = MEANS[code] || (TAKEN[code] || '')[lineKind(n)];
    nodes.push(el('h2', '', line(n)));
    if (given.has(n)) { const e = el('p', 'off', NOT + ' given: '); nodes.push(givenWords(e, n)); say.push('Differs. Given: ' + given.get(n)); }
    para((who === '-' ? 'On P' + p + ' nobody runs' : 'On P' + p + ' by ' + who) + '; ' + answer + (means ? ': ' + means : ''), 'mute');
    say.push('Line ' + n + ', P' + p + ', ' + event + ', ' + answer);
    const changed = [];
    for (const lane of every) {
      const still = lane.type !== 'task' || changedAt('a' + lane.t, n) < 0, rest = m => still ? '' : taskRest(lane.t, m);
      const a = laneWords(lane, n - 1).replace(/, [0-9]+ ticks? left/, ''), b = laneWords(lane, n), cut = b.replace(/, [0-9]+ ticks? left/, '');
      if (a !== cut || !still) changed.push([lane.name, a + rest(n - 1), (a === cut ? cut : b) + rest(n)]);
    }
    for (let q = 1; q <= model.processors; q++) {
      const [a, b] = [n - 1, n].map(m => orderOf(q, m).map(taskName));
      if (a.join() !== b.join() && [...a].sort().join() === [...b].sort().join()) changed.push(['P' + q + ' order', a.join(', '), b.join(', ')]);
    }
    head('What changed');
    if (!changed.length) para('nothing that is shown', 'mute');
    for (const [name, a, b] of changed) { const e = el('p'); e.append(el('b', '', name), ' ' + a + ' ' + String.fromCharCode(8594) + ' ' + b); nodes.push(e); say.push(name + ' ' + b); }
    links('Because', causes(n), 'line ', nodes); links('Leads to', results(n), 'line ', nodes);
  }
  head('After it');
  const table = el('table');
  const add = (name, s) => { const r = el('tr'), a = el('td'); a.append(el('b', '', name)); r.append(a, el('td', '', s)); table.append(r); };
  for (let p = 1; p <= model.processors; p++) {
    const ready = readyOf(p, n), top = orderOf(p, n)[0] || 0;
    add('P' + p, procWords(p, n) + (ready.length ? '; ready: ' + ready.map(taskName).join(', ') : '') + (top && top !== running(p, n) && running(p, n) ? '; ' + taskName(top) + ' comes first' : ''));
  }
  model.tasks.forEach((task, i) => {
    if (value('s' + (i + 1), n)[0] !== '-') add(task.name, taskWords(i + 1, n) + taskRest(i + 1, n));
  });
  for (const o of model.objects) add(o.name, objectWords(o, n));
  nodes.push(table);
  box.replaceChildren(...nodes);
  $('say').textContent = say.join('. ');
}
function links(title, list, lead, nodes) {
  if (!list.length) return;
  nodes.push(el('h3', '', title));
  for (const [n, s] of list) { const e = el('p'), b = el('button', 'go', lead + n); b.onclick = () => select(n); e.append(b, ' ' + s); nodes.push(e); }
}

// ---- search

// Each word stands in the line as a word; * is any letters, a - before a word says that it does not stand there.
function search() {
  const query = $('query').value.trim();
  view.hits = null;
  if (query) {
    const tests = query.split(' ').filter(Boolean).map(w => {
      const not = w.length > 1 && w[0] === '-', s = (not ? w.slice(1) : w).replace(/[^A-Za-z0-9_*]/g, x => '[' + (x === '^' ? x + x : x) + ']').replaceAll('*', '[^ ]*');
      return [new RegExp('(?<![A-Za-z0-9_])' + s + '(?![A-Za-z0-9_])', 'i'), !not];
    });
    const hits = [];
    for (let n = 1; n <= N; n++) { const s = given.has(n) ? line(n) + ' ' + given.get(n) : line(n); if (tests.every(([r, wanted]) => r.test(s) === wanted)) hits.push(n); }
    view.hits = hits;
  }
  layRows(); $('list').scrollTop = 0;
  count(); if (view.sel && (!shown() || shown().length)) showRow(view.sel); else fill();
  draw();
}
function count() {
  const i = view.hits ? last(view.hits, view.sel) : -1;
  $('count').textContent = !view.hits ? '' : (i >= 0 && view.hits[i] === view.sel ? i + 1 + ' of ' : '') + view.hits.length + (view.hits.length === 1 ? ' line' : ' lines');
}
function countDiffers() {
  const i = last(differs, view.sel), many = differs.length;
  $('differing').hidden = !many;
  $('differ').textContent = NOT + ' ' + many + (many === 1 ? ' line differs' : ' lines differ' + (i >= 0 && differs[i] === view.sel ? ': ' + (i + 1) + ' of ' + many : ''));
}
// The previous or next of some lines, round and round.
function nextOf(list, by) {
  if (!list || !list.length) return;
  const i = last(list, by > 0 ? view.sel : view.sel - 1), j = by > 0 ? i + 1 : i;
  select(list[(j + list.length) % list.length]); count();
}
// The previous or next change of the selected lane.
function nextChange(by) {
  const s = signals.get(view.lane || 'r' + (lineP(view.sel) || 1)), i = last(s.n, by > 0 ? view.sel : view.sel - 1) + (by > 0 ? 1 : 0);
  if (i >= 0 && i < s.n.length) select(s.n[i]);
}
";
