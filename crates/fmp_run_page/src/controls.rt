//! Made by `tools/page-texts` of `page/controls.js`: a change is made there.

/// The mouse, the keys and the legend, and the start of it all.
pub const CONTROLS: &[u8] = b"// The mouse, the keys and the legend, and the start of it all.

function lineAt(e) { const x = e.clientX - $('lanes').getBoundingClientRect().left - LABEL; return x < 0 ? -1 : Math.max(0, Math.min(N, Math.floor(view.a + x / view.k))); }
function tip(e, n) {
  const y = e.clientY - $('scroll').getBoundingClientRect().top + $('scroll').scrollTop, lane = lanes.find(l => y >= l.y && y < l.y + l.h), box = $('tip');
  box.hidden = !lane || lane.type === 'group' || n < 0;
  if (box.hidden) return;
  box.textContent = lane.name + ' after line ' + n + ': ' + laneWords(lane, n) + (lane.type === 'proc' && lineP(n) === lane.p ? ' | ' + line(n) : '');
  box.style.left = Math.min(e.clientX + 14, innerWidth - box.offsetWidth - 6) + 'px'; box.style.top = Math.min(e.clientY + 16, innerHeight - 40) + 'px';
}
function listen() {
  const c = $('lanes');
  let drag = null;
  c.onpointerdown = e => { if (e.button === 0) { drag = { x: e.clientX, a: view.a, far: false }; c.setPointerCapture(e.pointerId); } };
  c.onpointermove = e => {
    if (drag && (drag.far || Math.abs(e.clientX - drag.x) > 4)) { drag.far = true; c.classList.add('drag'); view.a = drag.a - (e.clientX - drag.x) / view.k; clamp(); return draw(); }
    const n = lineAt(e); hover(Math.max(0, n)); tip(e, n);
  };
  c.onpointerup = e => { const n = lineAt(e); if (drag && !drag.far && n >= 0) (e.shiftKey ? measureTo : select)(n, false); drag = null; c.classList.remove('drag'); count(); };
  c.onpointerleave = () => { hover(0); $('tip').hidden = true; };
  c.ondblclick = e => zoom(3, e.clientX - c.getBoundingClientRect().left - LABEL);
  $('scroll').addEventListener('wheel', e => {
    if (e.ctrlKey || e.altKey || e.metaKey) { e.preventDefault(); zoom(Math.exp(-Math.max(-60, Math.min(60, e.deltaY)) / 150), e.clientX - c.getBoundingClientRect().left - LABEL); }
    else if (e.shiftKey || Math.abs(e.deltaX) > Math.abs(e.deltaY) || total <= view.height) { e.preventDefault(); pan(e.deltaX || e.deltaY); }
  }, { passive: false });
  $('scroll').onscroll = draw;
  const over = $('over'), jump = e => { view.a = (e.clientX - LABEL) / (over.clientWidth - LABEL) * (N + 1) - span() / 2; clamp(); draw(); };
  over.onpointerdown = e => { over.setPointerCapture(e.pointerId); jump(e); };
  over.onpointermove = e => { if (e.buttons) jump(e); };
  const list = $('list'), rowAt = e => { const r = e.target.closest('.row'); return r ? +r.dataset.n : 0; };
  list.onscroll = fill;
  list.onclick = e => { if (rowAt(e)) { (e.shiftKey ? measureTo : select)(rowAt(e)); count(); } };
  list.onpointermove = e => hover(rowAt(e));
  list.onpointerleave = () => hover(0);
  $('split').onpointerdown = e => $('split').setPointerCapture(e.pointerId);
  $('split').onpointermove = e => { if (e.buttons) { document.querySelector('aside').style.width = Math.max(200, Math.min(innerWidth - 400, innerWidth - e.clientX)) + 'px'; resize(); } };
  let timer = 0;
  $('query').oninput = () => { clearTimeout(timer); timer = setTimeout(search, N > 20000 ? 150 : 0); };
  $('query').onkeydown = e => { if (e.key === 'Enter') { clearTimeout(timer); search(); nextOf(view.hits, e.shiftKey ? -1 : 1); } if (e.key === 'Escape') { $('query').value = ''; search(); $('list').focus(); } };
  $('only').onchange = () => { view.only = $('only').checked; search(); };
  for (const [id, f] of Object.entries(ACTIONS)) $(id).onclick = f;
  document.addEventListener('keydown', keys);
  addEventListener('resize', () => resize());
  addEventListener('hashchange', () => select(+location.hash.slice(1) || 0));
  addEventListener('beforeprint', () => printing(true)); addEventListener('afterprint', () => printing(false));
}
const ACTIONS = {
  prev: () => nextOf(view.hits, -1), next: () => nextOf(view.hits, 1), before: () => nextOf(differs, -1), after: () => nextOf(differs, 1), in: () => zoom(1.6, sight()), out: () => zoom(1 / 1.6, sight()), fit,
  arrows: () => { view.arrows = !view.arrows; $('arrows').setAttribute('aria-pressed', view.arrows); draw(); },
  theme: () => theme(document.documentElement.dataset.theme === 'dark' ? 'light' : 'dark'),
  save: () => { const a = el('a'); a.href = URL.createObjectURL(new Blob([text], { type: 'text/plain' })); a.download = 'trace.txt'; a.click(); URL.revokeObjectURL(a.href); },
  measure, unmeasure, unhide,
  sums: () => { $('shares').open ? $('shares').close() : sharesTable(); },
  help: () => { $('legend').open ? $('legend').close() : legend(); },
};
const sight = () => { const x = X(view.sel); return x >= 0 && x <= view.width ? x : view.width / 2; };
function keys(e) {
  if (e.target.id === 'query' || e.ctrlKey || e.metaKey || e.altKey || $('legend').open && e.key !== '?' || $('shares').open && e.key !== 'p') return;
  const by = e.shiftKey ? 10 : 1, page = Math.max(1, Math.floor($('list').clientHeight / ROW) - 1), step = d => { const s = shown(); select(s && s.length ? s[Math.max(0, Math.min(s.length - 1, last(s, view.sel) + d))] : view.sel + d); count(); };
  const act = { ArrowRight: () => step(by), ArrowDown: () => step(by), ArrowLeft: () => step(-by), ArrowUp: () => step(-by), PageDown: () => step(page), PageUp: () => step(-page),
    Home: () => select(0), End: () => select(N), '+': ACTIONS.in, '=': ACTIONS.in, '-': ACTIONS.out, 0: fit, n: ACTIONS.next, N: ACTIONS.prev, x: ACTIONS.after, X: ACTIONS.before, '/': () => { $('query').focus(); $('query').select(); },
    w: () => zoom(1.3, sight()), s: () => zoom(1 / 1.3, sight()), a: ACTIONS.arrows, d: () => pan(view.width / 4), q: () => pan(-view.width / 4), t: ACTIONS.theme, '?': ACTIONS.help, '[': () => nextChange(-1), ']': () => nextChange(1),
    m: measure, M: unmeasure, p: ACTIONS.sums, h: () => { if (view.lane) hideLanes([view.lane]); }, H: unhide, o: hideStill, j: () => stepLane(1), k: () => stepLane(-1) }[e.key];
  if (act && !(e.target.tagName === 'BUTTON' && e.key === ' ')) { e.preventDefault(); act(); }
}
function theme(name) { document.documentElement.dataset.theme = name; readColors(); layLanes(); draw(); try { localStorage.setItem('fmpsim-theme', name); } catch (e) { /* no storage here */ } }
function printing(on) {
  const root = document.documentElement;
  document.body.classList.toggle('print', on);
  if (on) { view.theme = root.dataset.theme; root.dataset.theme = 'light'; } else root.dataset.theme = view.theme;
  const top = on ? $('scroll').scrollTop : view.top;
  view.top = on ? top : 0;
  readColors();
  const a = Math.max(1, Math.floor(view.a)), b = Math.min(N, Math.ceil(view.a + span()) - 1), most = 300, out = [];
  if (on) { for (let n = a; n <= Math.min(b, a + most - 1); n++) { out.push(line(n) + LF); if (given.has(n)) out.push(givenWords(el('span', 'off', NOT + ' given: '), n), LF); } if (b >= a + most) out.push('.. up to line ' + b); }
  $('printed').replaceChildren(...out);
  const seen = span(); layLanes(); resize(on ? 1040 : 0); view.k = view.width / seen; clamp(); $('scroll').scrollTop = on ? 0 : top; cancelAnimationFrame(frame); paint();
  // Paper shows a box that scrolls from its top, with all that it has: so the labels are those in view, and stand there.
  if (on) for (const lane of lanes) { if (lane.y < top || lane.y + lane.h > top + view.height) lane.e.remove(); else lane.e.style.top = lane.y - top + 'px'; }
  if (on) $('labels').style.height = view.height + 'px';
}

// ---- the legend

function legend() {
  const d = $('legend'), keysOf = [['Left Right Up Down', 'the line before, the next line; with Shift ten lines'], ['Home End PageUp PageDown', 'through the trace'], ['/ Enter n N', 'search, next and previous line found'], ['x X', 'next and previous line that differs from the one that was given'], ['[ ]', 'previous and next change of the lane that is chosen'], ['j k', 'chooses the next and the previous lane (also a click on its name)'],
    ['h H o', 'hides the chosen lane, shows all again, hides those in which nothing changes in what is in view or between the measured lines'],
    ['m M', 'measures from the selected line, and again: to it; ends that (also Shift and a click: to that line)'], ['p', 'shares of the lines, longest waits and longest ready times'], ['+ - 0', 'zoom in, zoom out, the whole trace (also Ctrl and the wheel)'], ['q d', 'to the left, to the right (also by dragging, or Shift and the wheel)'], ['a t ?', 'arrows, light or dark, this page'], ['Ctrl P', 'prints what is in view, with its lines']];
  const marks = [['running on a processor', 's', 'r'], ['ready', 's', 'y'], ['waiting, and for what, with the ticks left', 's', 'w'], ['suspended', 's', 's'], ['waiting and suspended', 's', 'x'], ['dormant', 's', '-']];
  const close = el('button', '', 'Close'); close.onclick = () => d.close(); close.style.float = 'right';
  const table = el('table'), row = (...cells) => { const r = el('tr'); for (const x of cells) { const t = el('td'); t.append(x); r.append(t); } return r; };
  const picture = f => { const k = el('canvas'); k.style.width = '120px'; k.style.height = '22px'; const c = sized(k, 120, 22); c.font = '10.5' + FONT; f(c); return k; };
  const bars = { r: c => { c.fillStyle = colors.run; c.fillRect(2, 3, 110, 15); }, y: c => { c.fillStyle = colors.ready; c.fillRect(2, 5, 110, 11); words(c, 'ready', 2, 110, 14, '#1a1200'); }, w: c => { c.fillStyle = colors.wait + '24'; c.fillRect(2, 3, 110, 15); c.fillStyle = colors.wait; c.fillRect(2, 16, 110, 2); words(c, 'sem LOCK 3', 2, 110, 14, colors.fg); }, s: c => hatch(c, 2, 3, 110, 15, colors.susp), x: c => { bars.w(c); hatch(c, 2, 3, 110, 15, colors.susp); }, '-': c => { c.fillStyle = colors.line; c.fillRect(2, 10, 110, 1); } };
  for (const [s, , k] of marks) table.append(row(picture(bars[k]), s));
  table.append(row(picture(c => { c.fillStyle = makeHue(1); c.fillRect(2, 2, 110, 18); words(c, 'T1', 2, 110, 15, '#fff'); }), 'the task that a processor runs, in its colour; idle is a thin line'));
  table.append(row(picture(c => { c.fillStyle = colors.handler; c.fillRect(2, 2, 110, 14); words(c, 'CLOCK', 2, 110, 13, colors.bg); }), 'a handler that is due, over the task'));
  table.append(row(picture(c => { c.fillStyle = colors.susp; c.fillRect(2, 8, 52, 5); hatch(c, 60, 8, 52, 5, colors.susp); }), 'CPU locked; dispatching disabled'));
  table.append(row(picture(c => { c.fillStyle = colors.req; c.fillRect(6, 9, 100, 3); c.beginPath(); c.arc(6, 10.5, 3, 0, 7); c.fill(); head(c, 112, 10.5, 1, 0, colors.req); }), 'a request to the processor is pending, from the line that makes it to the line that takes it'));
  table.append(row(picture(c => { c.fillStyle = colors.fg; c.beginPath(); c.arc(10, 11, 3, 0, 7); c.fill(); c.beginPath(); c.moveTo(32, 7); c.lineTo(39, 7); c.lineTo(35.5, 15); c.fill(); c.beginPath(); c.moveTo(62, 6); c.lineTo(66, 11); c.lineTo(62, 16); c.lineTo(58, 11); c.fill(); c.beginPath(); c.moveTo(92, 7); c.lineTo(86, 11); c.lineTo(92, 15); c.fill(); }), 'call, tick, inter-processor interrupt, return of a handler; hollow where it did nothing, red where it was refused'));
  table.append(row(picture(c => { c.lineWidth = 1.6; [[colors.rel, 4, []], [colors.bad, 44, [4, 3]], [colors.req, 84, []]].forEach(([k, x, dash]) => { c.strokeStyle = k; c.setLineDash(dash); c.beginPath(); c.moveTo(x, 11); c.lineTo(x + 22, 11); c.stroke(); c.setLineDash([]); head(c, x + 29, 11, 1, 0, k); }); }), 'releases or activates a task; releases it with an error; requests a processor'));
  if (differs.length) table.append(row(picture(c => { c.fillStyle = colors.off; c.fillRect(4, 2, 6, 6); c.globalAlpha = .45; c.fillRect(6, 2, 2, 20); c.globalAlpha = 1; words(c, NOT + ' given', 14, 100, 15, colors.off); }), 'a line that differs from the one that was given, which stands below it'));
  const keysTable = el('table');
  for (const [k, s] of keysOf) { const t = el('span'); k.split(' ').forEach(x => t.append(el('kbd', '', x), ' ')); keysTable.append(row(t, s)); }
  d.replaceChildren(close, el('h2', '', 'Legend'), table, el('h2', '', 'Keys'), keysTable, el('p', 'mute', 'A column is what holds after its line. Far out, where a line is narrower than two points, each lane shows the shares of its states. The address ends with the selected line, so it can be sent along.'));
  d.showModal();
}

function start() {
  const begin = performance.now();
  readSetup(); readTrace(); readGiven(); readChanges();
  if (location.hash === '#states') return document.body.replaceChildren(el('pre', '', statesText()));
  let wanted = null;
  try { wanted = localStorage.getItem('fmpsim-theme'); } catch (e) { /* no storage here */ }
  document.documentElement.dataset.theme = wanted || (matchMedia('(prefers-color-scheme: dark)').matches ? 'dark' : 'light');
  readColors();
  for (let p = 1; p <= model.processors; p++) every.push({ type: 'proc', p, id: 'r' + p, name: 'P' + p });
  model.tasks.forEach((x, i) => every.push({ type: 'task', t: i + 1, id: x.id, name: x.name }));
  for (const o of model.objects) every.push({ type: 'obj', o, id: o.id, name: o.name });
  if (every.length > 16) folded.add('obj');
  $('title').textContent = decodeURIComponent(location.pathname.split('/').pop()) || 'Timeline';
  document.title = $('title').textContent;
  $('sum').textContent = [[model.processors, 'processor'], [model.tasks.length, 'task'], [model.objects.length, 'object'], [N, 'line']].filter(x => x[0]).map(([n, s]) => grouped(n) + ' ' + s + (n === 1 ? '' : 's')).join(', ') + (model.master ? ', global timer of P' + model.master : '');
  layLanes(); layRows(); listen(); resize(); fit();
  if (N > 4000) { view.k = Math.max(view.k, view.width / 2000); clamp(); }
  select(+location.hash.slice(1) || 0);
  $('list').focus();
  document.documentElement.dataset.shown = N; document.documentElement.dataset.differs = differs.length;
  view.load = performance.now() - begin;
  // what the first drawing does not ask for is made after it
  setTimeout(() => { eventsOf(1); countWaiters(); }, 500);
}
try { start(); } catch (e) { $('sum').textContent = 'This page cannot be shown: ' + e.message; console.error(e); }
";
