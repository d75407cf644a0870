//! Made by `tools/page-texts` of `page/causes.js`: a change is made there.

/// What led to a line, and what came of it.
pub const CAUSES: &[u8] = b"// What led to a line, and what came of it.

// The tasks that a line releases or activates, and the processors that it sends a request to.
function effects(n) {
  const found = { tasks: [], procs: [] }, [, , , , event, , rest] = parts(n);
  if (!event) return found;
  for (const r of rest.matchAll(/ rel=([^: ]+):([^: ]+)/g)) {
    const t = model.tasks.findIndex(x => x.name === r[1]) + 1;
    found.tasks.push({ t, code: r[2] });
  }
  const act = /^i?m?act_tsk[(]([^,)]+)/.exec(event), to = act && act[1] === 'TSK_SELF' ? parts(n)[3] : act && act[1];
  const t = model.tasks.findIndex(x => x.name === to) + 1;
  if (t && changedAt('s' + t, n) >= 0) found.tasks.push({ t, code: 'E_OK' });
  const ipi = / ipi=([0-9,]+)/.exec(rest);
  if (ipi) found.procs = ipi[1].split(',').map(Number).filter(p => p !== lineP(n));
  return found;
}
// The line at which the request was made that is taken at line n on p, if one is.
function requestOf(p, n) {
  const s = signals.get('l' + p), i = changedAt('l' + p, n);
  if (i < 1 || s.v[i].includes('i') || !s.v[i - 1].includes('i')) return 0;
  for (let j = i - 1; j >= 0; j--) if (j === 0 || !s.v[j - 1].includes('i')) return s.n[j];
  return 0;
}
// The line at which the request is taken that is pending on p after line n, and the one at which a task runs that is ready after it.
function takenAt(p, n) {
  const s = signals.get('l' + p);
  for (let i = last(s.n, n) + 1; i < s.n.length; i++) if (!s.v[i].includes('i')) return s.n[i];
  return 0;
}
function runsAt(t, n) {
  const s = signals.get('s' + t), i = last(s.n, n);
  return s.v[i] === 'y' && s.v[i + 1] === 'r' ? s.n[i + 1] : 0;
}
// Where in its values a task's wait begins that holds at place i of them: whether it is suspended, too, may have changed since.
function waitBegin(s, i) {
  const waitIn = j => s.v[j].slice(1).replace(/ @.*/, '');
  while (i > 0 && waitIn(i - 1) === waitIn(i)) i--;
  return i;
}
const isWait = v => v[0] === 'w' || v[0] === 'x';
// The line at which the wait of a task begins that ends at line n, if one does; and the one at which the wait ends that begins at line n.
function waitedSince(t, n) {
  const s = signals.get('s' + t), i = changedAt('s' + t, n);
  return i > 0 && isWait(s.v[i - 1]) && !isWait(s.v[i]) ? s.n[waitBegin(s, i - 1)] : 0;
}
function waitsUntil(t, n) {
  const s = signals.get('s' + t);
  let i = changedAt('s' + t, n);
  if (i < 0 || !isWait(s.v[i])) return 0;
  while (i < s.n.length && isWait(s.v[i])) i++;
  return s.n[i] || 0;
}
// What led to line n: [line, words, processor].
function causes(n) {
  const p = lineP(n), found = [], t = running(p, n);
  const asked = requestOf(p, n);
  if (asked) found.push([asked, 'sent the request to P' + p, lineP(asked)]);
  if (t && t !== running(p, n - 1)) {
    const s = signals.get('s' + t), i = last(s.n, n - 1), since = s.n[i];
    if (since > 0 && s.v[i] === 'y') found.push([since, s.v[i - 1] === 'r' ? taskName(t) + ' gave way, and is ready since' : 'made ' + taskName(t) + ' ready', lineP(since)]);
  }
  // Time runs out at a tick: what led to it is the call that began to wait.
  for (const x of lineKind(n) === 1 ? effects(n).tasks : []) {
    const since = waitedSince(x.t, n);
    if (since) found.push([since, 'begins the wait of ' + taskName(x.t) + ', whose time runs out here: ' + waitWords(x.t, since, WAITS), lineP(since)]);
  }
  return found;
}
// What came of line n: [line, words, processor].
function results(n) {
  const e = effects(n), found = [];
  for (const p of e.procs) { const m = takenAt(p, n); if (m) found.push([m, 'P' + p + ' takes the request', p]); }
  const caller = lineClass(n) === 2 && running(lineP(n), n - 1), end = caller ? waitsUntil(caller, n) : 0;
  if (end) found.push([end, lineKind(end) === 1 ? 'the time runs out for which ' + taskName(caller) + ' waits' : 'ends the wait of ' + taskName(caller), lineP(end)]);
  for (const x of e.tasks) { const m = runsAt(x.t, n); if (m) found.push([m, taskName(x.t) + ' runs', lineP(m)]); }
  return found;
}
";
