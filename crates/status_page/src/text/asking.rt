//! The script of the page: it asks for the state again and again.

/// The last part of the script, and the end of the page.
pub const ASKING: &str = r#"function show(state) {
  measure(state);
  setText($('title'), 'Signalling point ' + state.point);
  document.title = 'Point ' + state.point;
  setText($('age'), 'Up for ' + ago(state.uptime_ms) + ' · network ' + state.network + ' · version ' + state.version);
  showGlance(state);
  showAlarms(state);
  showMap(state);
  showLinks(state);
  showRoutes(state);
  showNotices(state);
}

function setGone(since) {
  document.body.classList.toggle('stale', since !== '');
  $('gone').hidden = since === '';
  setText($('gone'), since && 'The node hasn’t answered since ' + since + '. What is shown is from before.');
}

// What the node answers now, or nothing where it doesn't.
async function fetchState() {
  try {
    const answer = await fetch('/state.json', { cache: 'no-store', signal: AbortSignal.timeout(PATIENCE) });
    return answer.ok ? await answer.json() : null;
  } catch {
    return null;
  }
}

// Asks again and again, until the page is paused. What comes then is dropped, so that there is one loop.
async function ask(mine) {
  const state = await fetchState();
  if (mine !== turn) return;
  timer = setTimeout(ask, PERIOD, mine);
  if (state) {
    setGone('');
    show(state);
  } else if ($('gone').hidden) {
    setGone(new Date().toLocaleTimeString('en-GB'));
  }
}

$('pause').addEventListener('click', () => {
  paused = !paused;
  turn += 1;
  clearTimeout(timer);
  $('pause').setAttribute('aria-pressed', paused);
  if (!paused) ask(turn);
});
ask(turn);
</script>
</body>
</html>
"#;
