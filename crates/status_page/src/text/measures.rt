//! The script of the page: what it works out of the states that come.

/// The first part of the script.
pub const MEASURES: &str = r#"<script>
'use strict';
const PERIOD = 1000, PATIENCE = 5000, GAP = 10000, SPAN = 300000, MOST_ROUTES = 100, MOST_ALARMS = 100, MOST_NOTICES = 64, NUMBERS = 16777216;
const SVG = 'http://www.w3.org/2000/svg';
const STATES = {
  'in service': ['good', '● In service'], 'under test': ['turning', '◑ Under test'], 'processor outage': ['bad', '⊘ Processor outage'],
  aligning: ['turning', '◑ Aligning'], 'changing over': ['turning', '◐ Changing over'], 'not in service yet': ['bad', '○ Not in service yet'],
  barred: ['bad', '⊘ Barred'], closing: ['bad', '○ Closing'], failed: ['bad', '○ Failed'], deactivated: ['bad', '○ Deactivated'],
};
const STANDINGS = { NotAligned: 'not aligned', Aligned: 'aligned', Proving: 'proving', AlignedReady: 'ready' };
const STATUSES = { allowed: ['good', '● Allowed'], restricted: ['turning', '◐ Restricted'], prohibited: ['bad', '○ Prohibited'] };
const $ = id => document.getElementById(id);
const count = n => n.toLocaleString('en');
let last = null, seen = null, rates = new Map(), paused = false, timer = 0, turn = 0;

// An element with these attributes, and with texts or elements in it.
function make(name, attributes = {}, ...inside) {
  const is = ['svg', 'polyline', 'line', 'path', 'circle', 'rect', 'text', 'g', 'title'].includes(name);
  const element = is ? document.createElementNS(SVG, name) : document.createElement(name);
  for (const [key, value] of Object.entries(attributes)) element.setAttribute(key, value);
  element.append(...inside);
  return element;
}

// Changes only what differs, so that a screen reader isn't told the same again.
function setText(element, text) {
  if (element.textContent !== text) element.textContent = text;
}

function ago(ms) {
  const s = Math.floor(ms / 1000), parts = [[86400, 'd'], [3600, 'h'], [60, 'min'], [1, 's']];
  const first = parts.findIndex(([unit]) => s >= unit);
  if (first < 0) return '0 s';
  return parts.slice(first, first + 2).map(([unit, name], i) =>
    Math.floor((i ? s % parts[first][0] : s) / unit) + ' ' + name).join(' ');
}

// A time of today, or one with its day.
function clock(ms) {
  const at = new Date(ms), isToday = at.toDateString() === new Date().toDateString();
  return isToday ? at.toLocaleTimeString('en-GB') : at.toLocaleString('en-GB');
}

// How many messages lie between two numbers of 24 bits.
const between = (before, after) => (after - before + NUMBERS) % NUMBERS;

const failures = link => Object.values(link.failed).reduce((sum, n) => sum + n, 0);

// How good a link's state is, and its words.
const stateOf = link => STATES[link.service] || ['bad', '○ ' + link.service];

// Whether a link stayed in service between two states. Where it didn't, its numbers may have begun again.
function stayed(old, link) {
  return old.state === 'InService' && link.state === 'InService' && failures(old) === failures(link);
}

// Messages a second of each link since the last state; the node started anew where its time went back.
function measure(state) {
  if (last && state.uptime_ms < last.uptime_ms) { last = null; rates = new Map(); seen = null; }
  const to = state.uptime_ms, from = last ? last.uptime_ms : to, seconds = (to - from) / 1000;
  const before = new Map(last ? last.links.map(link => [link.name, link]) : []);
  for (const link of state.links) {
    const old = before.get(link.name), row = (rates.get(link.name) || []).filter(sample => to - sample.to <= SPAN);
    if (old && seconds > 0 && to - from <= GAP && stayed(old, link)) {
      row.push({ from, to, in: between(old.bsn, link.bsn) / seconds, out: between(old.fsn, link.fsn) / seconds });
    }
    rates.set(link.name, row);
  }
  last = state;
}

// What a link carries now, or nothing where that isn't known.
function rate(name) {
  const sample = (rates.get(name) || []).at(-1);
  return sample && sample.to === last.uptime_ms ? sample : null;
}

const rounded = n => n >= 100 || n === 0 ? count(Math.round(n)) : n.toFixed(1);

// Each tile: its name, what it counts, its value, and how good that is.
function glance(state) {
  const raised = n => n ? '⚠ ' + count(n) + (n === 1 ? ' time' : ' times') : 'none';
  const up = state.links.filter(link => link.service === 'in service').length;
  const open = state.routes.filter(route => route.status !== 'prohibited').length;
  const over = state.links.filter(link => link.service === 'changing over').length;
  const done = state.links.reduce((sum, link) => sum + link.changeovers, 0);
  return [
    ['Alarms', 'raised now; they are below', count(state.alarms.length), state.alarms.length ? 'bad' : 'good'],
    ['Links in service', 'their state is In service', up + ' of ' + state.links.length, up === state.links.length ? 'good' : 'bad'],
    ['Destinations accessible', 'messages may go there', count(open) + ' of ' + count(state.routes.length),
      open === state.routes.length ? 'good' : 'bad'],
    ['Changeovers', 'links that are changing over, and changeovers that ended since the start',
      count(over) + ' not over, ' + count(done) + ' done', over ? 'turning' : ''],
    ['User messages kept', 'not confirmed yet, or held; of the pool', count(state.kept) + ' of ' + count(state.pool),
      state.kept < state.pool ? '' : 'bad'],
    ['User messages held', 'kept until their flow may go on', count(state.held), ''],
    ['User messages lost', 'named by notices, since the start', count(state.messages_lost), state.messages_lost ? 'bad' : ''],
    ['Possible losses', 'lost_any was raised, also for management messages', raised(state.times_lost), state.times_lost ? 'turning' : ''],
    ['Possible lateness', 'late_any was raised: a flow went on by time', raised(state.times_late), state.times_late ? 'turning' : ''],
    ['Changeovers broken', 'nobody knows for sure what the neighbour has', count(state.times_broken), state.times_broken ? 'bad' : ''],
    ['Flows rerouted', 'times that a flow changed its set, but away from its destination’s own', count(state.times_rerouted),
      state.times_rerouted ? 'turning' : ''],
    ['Notices', 'since the start; the last 64 are below', count(state.notice_count), ''],
  ];
}

"#;
