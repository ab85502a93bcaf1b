//! The script of a page, which shows the run that stands before it.

pub(crate) const SCRIPT: &str = "'use strict';
const run = JSON.parse(document.getElementById('run').textContent);
const $ = id => document.getElementById(id);
const ROW = 26, MOST = 200, last = run.frames;

// The values of a cell: the frames in which a value came, and the values.
function decode(list) {
  const frames = [], values = [];
  for (let i = 0; i < list.length;) {
    if (typeof list[i] === 'number') { frames.push(list[i]); values.push(list[i + 1]); i += 2; continue; }
    for (const word of list[i].split(' ')) {
      const [step, times] = word.split('*');
      for (let k = times ? +times : 1; k > 0; k--) {
        frames.push(frames[frames.length - 1] + 1);
        values.push(values[values.length - 1] + +step);
      }
    }
    i++;
  }
  return { frames, values };
}

// The place of the last value that came up to a frame, or -1.
function placeAt(series, frame) {
  let low = 0, high = series.frames.length;
  while (low < high) {
    const middle = (low + high) >> 1;
    if (series.frames[middle] <= frame) low = middle + 1; else high = middle;
  }
  return low - 1;
}

const all = run.entities.map(([id, born, died, raw], index) => ({ id, born, died, raw, index, read: {} }));
const rest = { raw: run.globals, index: 0, died: -1, read: {} };
const kinds = [...new Set(all.flatMap(one => Object.keys(one.raw)))].sort();
const globals = Object.keys(run.globals);
const told = new Map(run.told.map(([frame, ...lines]) => [frame, lines]));
let frame = 0, shown = [], picked = new Set(), kind = kinds.find(one => all.some(e => numbers(e, one))) || '', only = false;

function seriesOf(holder, name) {
  if (!(name in holder.read)) holder.read[name] = Object.hasOwn(holder.raw, name) ? decode(holder.raw[name]) : null;
  return holder.read[name];
}

// What a holder has under a name in a frame: the text, whether it is new, and what was there before.
function cellAt(holder, name, at) {
  const series = seriesOf(holder, name);
  const place = series ? placeAt(series, at) : -1;
  const read = k => k < 0 || series.values[k] === null ? '' : String(series.values[k]);
  return { text: read(place), fresh: place >= 0 && at > 0 && series.frames[place] === at, before: read(place - 1) };
}

function numbers(holder, name) {
  const list = holder.raw[name];
  return !!list && (typeof list[1] === 'number' || /^-?[0-9]+$/.test(list[1]));
}

function element(tag, name, text) {
  const made = document.createElement(tag);
  if (name) made.className = name;
  if (text !== undefined) made.textContent = text;
  return made;
}

const columns = '90px ' + kinds.map(() => 'minmax(60px,1fr)').join(' ');

function rowOf(one, place) {
  const row = element('div', 'row' + (one.died === frame ? ' died' : one.born === frame && frame > 0 ? ' born' : ''));
  row.style.top = place * ROW + 'px';
  row.style.gridTemplateColumns = columns;
  row.dataset.id = one.id;
  const name = element('label');
  const box = element('input');
  box.type = 'checkbox';
  box.checked = picked.has(one.id);
  box.addEventListener('change', () => pick(one.id, box.checked));
  name.append(box, ' ' + one.id);
  row.append(name);
  for (const part of kinds) {
    const { text, fresh, before } = cellAt(one, part, one.died === frame ? frame - 1 : frame);
    const changed = fresh && one.died !== frame && one.born !== frame;
    const cell = element('span', changed ? 'changed' : '', text);
    cell.dataset.kind = part;
    if (changed) cell.title = 'before: ' + (before || 'nothing');
    row.append(cell);
  }
  return row;
}

function drawRows() {
  const rows = $('rows'), made = document.createDocumentFragment();
  const first = Math.max(0, Math.floor(rows.scrollTop / ROW) - 4);
  const end = Math.min(shown.length, first + Math.ceil(rows.clientHeight / ROW) + 8);
  for (let place = first; place < end; place++) made.append(rowOf(shown[place], place));
  $('space').replaceChildren(made);
}

function linesOf(holder, names, called, lines) {
  for (const name of names) {
    if (lines.length >= MOST) return;
    const { text, fresh, before } = cellAt(holder, name, frame);
    if (fresh) lines.push(called(name) + ': ' + (before || 'nothing') + ' -> ' + (text || 'nothing'));
  }
}

// What happened in the frame: what is told of it, and the cells that are new in it.
function drawTold() {
  const list = $('told'), lines = [];
  list.replaceChildren();
  if (frame === 0) { list.append(element('li', 'cell', 'the scene before the first frame')); return; }
  for (const line of (told.get(frame) || []).slice(0, MOST)) list.append(element('li', '', line));
  linesOf(rest, globals, name => 'global ' + name, lines);
  for (const one of shown) {
    if (lines.length >= MOST) break;
    if (one.born !== frame && one.died !== frame) linesOf(one, kinds, name => name + ' of ' + one.id, lines);
  }
  for (const line of lines) list.append(element('li', 'cell', line));
  if (lines.length >= MOST) list.append(element('li', 'cell', 'and maybe more'));
  if (!list.children.length) list.append(element('li', 'cell', 'nothing'));
}

function drawGlobals() {
  $('globals').textContent = globals.map(name => name + ' = ' + (cellAt(rest, name, frame).text || 'nothing')).join(', ');
}

function go(to) {
  frame = Math.max(0, Math.min(last, to));
  $('slider').value = frame;
  $('frame').textContent = 'frame ' + frame + ' of ' + last;
  shown = all.filter(one => one.born <= frame && (one.died < 0 || one.died >= frame));
  $('count').textContent = shown.filter(one => one.died !== frame).length;
  $('space').style.height = shown.length * ROW + 'px';
  $('cursor').style.left = (last ? 100 * frame / last : 0) + '%';
  drawRows();
  drawTold();
  drawGlobals();
}

function pick(id, on) {
  if (on) picked.add(id); else picked.delete(id);
  if (only) drawLines();
}

function sized(canvas) {
  const scale = window.devicePixelRatio || 1;
  canvas.width = Math.max(1, canvas.clientWidth * scale);
  canvas.height = Math.max(1, canvas.clientHeight * scale);
  const pen = canvas.getContext('2d');
  pen.scale(scale, scale);
  return pen;
}

const colour = name => getComputedStyle(document.documentElement).getPropertyValue(name);

// Births above the middle of the time axis, deaths below it.
function drawAxis() {
  const canvas = $('axis'), pen = sized(canvas), wide = canvas.clientWidth, births = new Map(), deaths = new Map();
  const count = (map, at) => map.set(at, (map.get(at) || 0) + 1);
  for (const one of all) {
    if (one.born > 0) count(births, one.born);
    if (one.died >= 0) count(deaths, one.died);
  }
  let most = 1;
  for (const many of births.values()) most = Math.max(most, many);
  for (const many of deaths.values()) most = Math.max(most, many);
  const bar = (map, name, way) => {
    pen.fillStyle = colour(name);
    for (const [at, many] of map) {
      const high = 2 + 14 * many / most;
      pen.fillRect(8 + (wide - 16) * at / (last || 1) - 1, way > 0 ? 17 - high : 18, 2, high);
    }
  };
  pen.fillStyle = colour('--line');
  pen.fillRect(8, 17, wide - 16, 1);
  bar(births, '--up', 1);
  bar(deaths, '--down', -1);
}

let drawing = 0;

// The lines of a kind of numbers, or of a global, some at a time so that the page stays awake.
function drawLines() {
  const turn = ++drawing, canvas = $('lines'), pen = sized(canvas), wide = canvas.clientWidth, high = canvas.clientHeight;
  const holders = kind.startsWith('global ') ? [rest] : only ? all.filter(one => picked.has(one.id)) : all;
  const name = kind.replace(/^global /, ''), list = holders.filter(one => numbers(one, name));
  let least = Infinity, greatest = -Infinity, next = 0;
  const ends = holder => holder.died >= 0 ? holder.died : last;
  const some = (work, then) => {
    if (turn !== drawing) return;
    const until = performance.now() + 12;
    while (next < list.length && performance.now() < until) work(list[next++]);
    if (next < list.length) setTimeout(some, 0, work, then); else { next = 0; then(); }
  };
  const measure = holder => {
    for (const value of seriesOf(holder, name).values) {
      if (value === null || isNaN(+value)) continue;
      if (+value < least) least = +value;
      if (+value > greatest) greatest = +value;
    }
  };
  const across = at => wide * at / (last || 1);
  const up = value => high - 14 - (high - 28) * (greatest > least ? (value - least) / (greatest - least) : 0.5);
  const line = (holder, index) => {
    const { frames, values } = seriesOf(holder, name);
    let begun = false, left = -1;
    pen.strokeStyle = 'hsl(' + (holder.index * 67 + 210) % 360 + ' 60% 50%)';
    pen.beginPath();
    for (let k = 0; k < frames.length; k++) {
      if (values[k] === null || isNaN(+values[k])) { begun = false; continue; }
      const x = across(frames[k]), y = up(+values[k]), until = k + 1 < frames.length ? frames[k + 1] : ends(holder);
      if (begun) pen.lineTo(x, y); else pen.moveTo(x, y);
      begun = true;
      if (until > frames[k] + 1 || k + 1 === frames.length) pen.lineTo(across(until), y);
    }
    pen.stroke();
  };
  some(measure, () => {
    if (!list.length) return;
    pen.fillStyle = colour('--soft');
    pen.font = '12px system-ui,sans-serif';
    pen.fillText(String(greatest), 4, 12);
    pen.fillText(String(least), 4, high - 3);
    pen.globalAlpha = list.length > 50 ? 0.35 : 0.9;
    some(line, () => {});
  });
}

function drawKinds() {
  const names = kinds.filter(one => all.some(e => numbers(e, one))).concat(globals.filter(one => numbers(rest, one)).map(one => 'global ' + one));
  const made = names.map(name => {
    const button = element('button', name === kind ? 'on' : '', name);
    button.addEventListener('click', () => { kind = name; drawKinds(); drawLines(); });
    return button;
  });
  const button = element('button', only ? 'on' : '', 'picked alone');
  button.addEventListener('click', () => { only = !only; drawKinds(); drawLines(); });
  if (!kind && names.length) kind = names[0];
  $('kinds').replaceChildren(...made, button);
}

function begin() {
  const head = $('head');
  head.style.gridTemplateColumns = columns;
  head.append(element('span', '', 'entity'), ...kinds.map(one => element('span', '', one)));
  if (run.refused) {
    const [at, cause] = run.refused;
    $('notice').textContent = ['frame ' + at + ' was refused: ' + cause, ...(told.get(at) || [])].join('\\n');
  } else if (last < run.asked) {
    $('rest').textContent = 'Behind frame ' + last + ' of ' + run.asked + ' nothing happens.';
  }
  $('slider').max = last;
  $('slider').addEventListener('input', event => go(+event.target.value));
  $('back').addEventListener('click', () => go(frame - 1));
  $('on').addEventListener('click', () => go(frame + 1));
  $('rows').addEventListener('scroll', drawRows);
  document.addEventListener('keydown', event => {
    if (event.altKey || event.ctrlKey || event.metaKey) return;
    const far = event.shiftKey ? 10 : 1;
    const to = { ArrowLeft: frame - far, ArrowRight: frame + far, Home: 0, End: last }[event.key];
    if (to !== undefined) { event.preventDefault(); go(to); }
  });
  const again = () => { drawAxis(); drawLines(); drawRows(); };
  window.addEventListener('resize', again);
  matchMedia('(prefers-color-scheme: dark)').addEventListener('change', again);
  drawKinds();
  go(0);
  drawAxis();
  drawLines();
}

begin();
";
