//! The script of the page: what it shows of each state.

/// The middle part of the script.
pub const DRAWING: &str = r#"function showGlance(state) {
  const facts = glance(state), list = $('glance');
  if (!list.children.length) {
    list.append(...facts.map(([name, what]) => make('div', {}, make('dt', {}, name), make('dd'), make('dd', { class: 'what' }, what))));
  }
  facts.forEach(([, , value, kind], i) => {
    const dd = list.children[i].children[1];
    dd.className = kind;
    setText(dd, value);
  });
}

// The node on the left, each set with its neighbour on the right, and a line for each link.
function showMap(state) {
  const wide = 360, step = 22, gap = 22, left = 44, right = 240, shapes = [], labels = [];
  let y = 14;
  const sets = state.sets.map(set => {
    const links = state.links.filter(link => link.set === set.name);
    const top = y, high = Math.max(links.length, 2) * step;
    y += high + gap;
    return { set, links, top, high };
  });
  const tall = Math.max(y - gap + 14, 96), middle = tall / 2;
  for (const { set, links, top, high } of sets) {
    const centre = top + high / 2;
    links.forEach((link, i) => {
      const at = centre + (i - (links.length - 1) / 2) * step, { in: came, out: went } = rate(link.name) || { in: 0, out: 0 };
      const thick = Math.min(9, 1.75 + Math.log10(1 + came + went) * 1.6);
      const path = 'M' + left + ' ' + middle + ' C' + (left + 60) + ' ' + middle + ' ' + (left + 50) + ' ' + at + ' ' + (right - 56) + ' ' + at + ' H' + right;
      const [kind, text] = stateOf(link);
      shapes.push(make('path', { class: 'link ' + kind, d: path, 'stroke-width': thick.toFixed(2) },
        make('title', {}, link.name + ': ' + text.slice(2))));
      labels.push(make('text', { x: right - 8, y: at - 6, 'text-anchor': 'end' }, link.name));
    });
    labels.push(
      make('rect', { class: 'place', x: right, y: top + 2, width: wide - right - 4, height: high - 4, rx: 8 }),
      make('text', { x: (right + wide - 4) / 2, y: centre, 'text-anchor': 'middle' }, set.adjacent),
      make('text', { class: 'set', x: (right + wide - 4) / 2, y: centre + 15, 'text-anchor': 'middle' }, set.name));
  }
  labels.push(
    make('circle', { class: 'place', cx: left - 4, cy: middle, r: 38 }),
    make('text', { x: left - 4, y: middle + 4, 'text-anchor': 'middle' }, state.point));
  const map = $('map');
  map.setAttribute('viewBox', '0 0 ' + wide + ' ' + tall);
  map.replaceChildren(...shapes, ...labels);
}

// Samples that follow each other without a gap.
function runs(row) {
  const all = [];
  row.forEach((sample, i) => {
    if (i && sample.from === row[i - 1].to) all.at(-1).push(sample);
    else all.push([sample]);
  });
  return all;
}

// The samples by their time, up to now at the right edge.
function plot(row, most, now) {
  const point = (at, n) => (300 - 300 * (now - at) / SPAN).toFixed(1) + ',' + (38 - 34 * n / most).toFixed(1);
  const line = (run, way) => [point(run[0].from, run[0][way]), ...run.map(sample => point(sample.to, sample[way]))].join(' ');
  return ['in', 'out'].flatMap(way => runs(row).map(run => make('polyline', { class: way, points: line(run, way) })));
}

function linkRow(link) {
  const name = make('th', { scope: 'row' }, link.name, make('small', {}, link.set));
  return make('tr', {}, name, make('td', {}, make('span'), make('small')),
    make('td', { class: 'number' }, make('span', { class: 'in' }), make('br'), make('span', { class: 'out' })),
    make('td', {}, make('svg', { class: 'plot', viewBox: '0 0 300 40', preserveAspectRatio: 'none', 'aria-hidden': 'true' }), make('small')));
}

function showLinks(state) {
  const body = $('link-rows');
  if (body.children.length !== state.links.length) body.replaceChildren(...state.links.map(linkRow));
  state.links.forEach((link, i) => {
    const [, standing, speed, chart] = body.children[i].children;
    const [kind, text] = stateOf(link), now = rate(link.name), row = rates.get(link.name);
    const facts = ['for ' + ago(state.uptime_ms - link.since_ms), count(link.waiting) + ' waiting'];
    if (STANDINGS[link.state]) facts.unshift(STANDINGS[link.state]);
    if (link.retries) facts.push(count(link.retries) + ' retries');
    standing.firstChild.className = kind;
    setText(standing.firstChild, text);
    setText(standing.lastChild, facts.join(', '));
    setText(speed.firstChild, (now ? rounded(now.in) : '–') + ' in');
    setText(speed.lastChild, (now ? rounded(now.out) : '–') + ' out');
    const most = Math.max(1, ...row.map(sample => Math.max(sample.in, sample.out)));
    chart.firstChild.replaceChildren(...plot(row, most, state.uptime_ms));
    setText(chart.lastChild, 'up to ' + rounded(most) + '/s');
  });
}

// A set that leads to a destination: whether its messages take it, the status of the route over it if it isn't allowed,
// and whether it has a link in service.
function wayOf(state, route, name, i) {
  const status = route.way_statuses[i], told = status === 'allowed' ? '' : ' (' + status + ')';
  if (route.sets.includes(name)) return ['good', '● ' + name + told];
  const isUp = state.links.some(link => link.set === name && link.service === 'in service');
  if (!isUp) return ['bad', '○ ' + name + ' (down)'];
  return [told ? 'bad' : 'quiet', '○ ' + name + told];
}

function showWays(cell, ways) {
  if (cell.textContent === ways.map(([, text]) => text).join('')) return;
  cell.replaceChildren(...ways.map(([kind, text]) => make('span', { class: 'way ' + kind }, text)));
}

// Where there are many routes, those that aren't allowed come first, and the others end somewhere.
function showRoutes(state) {
  const order = ['prohibited', 'restricted', 'allowed'];
  const many = state.routes.length > MOST_ROUTES;
  const routes = many ? [...state.routes].sort((a, b) => order.indexOf(a.status) - order.indexOf(b.status)) : state.routes;
  const shown = routes.slice(0, MOST_ROUTES), body = $('route-rows');
  if (body.children.length !== shown.length) {
    body.replaceChildren(...shown.map(() => make('tr', {}, make('th', { scope: 'row' }), make('td'), make('td'))));
  }
  shown.forEach((route, i) => {
    const [point, sets, status] = body.children[i].children, [kind, text] = STATUSES[route.status];
    setText(point, route.point);
    showWays(sets, route.ways.map((name, i) => wayOf(state, route, name, i)));
    status.className = kind;
    setText(status, text);
  });
  setText($('more-routes'), many ? 'And ' + count(routes.length - shown.length) + ' more, all in /state.json.' : '');
}

// Links and sets come before destinations, of which there may be many.
function showAlarms(state) {
  const shown = state.alarms.slice(0, MOST_ALARMS), list = $('alarms'), more = state.alarms.length - shown.length;
  if (list.children.length !== shown.length) {
    list.replaceChildren(...shown.map(() => make('li', {}, make('span'), make('span', { class: 'bad' }))));
  }
  shown.forEach((alarm, i) => {
    const [since, name] = list.children[i].children;
    setText(since, ago(state.uptime_ms - alarm.since_ms));
    setText(name, '⚠ ' + alarm.name);
  });
  setText($('more-alarms'), more ? 'And ' + count(more) + ' more, all in /state.json.' : '');
}

function showNotices(state) {
  const list = $('notices'), first = seen === null;
  if (first) list.replaceChildren();
  for (const { number, time_ms, text } of state.notices) {
    if (!first && number <= seen) continue;
    const came = clock(Date.now() - (state.uptime_ms - time_ms));
    list.prepend(make('li', {}, make('span', {}, '#' + number), make('span', {}, came), text));
  }
  while (list.children.length > MOST_NOTICES) list.lastChild.remove();
  seen = state.notice_count;
}

"#;
