//! How the page looks: its head.

/// The head of the page.
pub const STYLE: &str = r#"<!doctype html>
<html lang="en">
<head>
<meta charset="utf-8">
<meta name="viewport" content="width=device-width, initial-scale=1">
<meta name="color-scheme" content="light dark">
<title>Signalling point</title>
<style>
:root {
  --paper: #fff; --ink: #1b1f24; --quiet: #57606a; --line: #d0d7de; --band: #f6f8fa;
  --good: #116329; --turning: #7d4e00; --bad: #a40e26; --in: #0550ae; --out: #8250df;
}
@media (prefers-color-scheme: dark) {
  :root {
    --paper: #0d1117; --ink: #e6edf3; --quiet: #9da7b3; --line: #30363d; --band: #161b22;
    --good: #56d364; --turning: #e3b341; --bad: #ff7b72; --in: #79c0ff; --out: #d2a8ff;
  }
}
* { box-sizing: border-box; }
body {
  margin: 0 auto; max-width: 60rem; padding: 0 .75rem 2rem; background: var(--paper); color: var(--ink);
  font: 1rem/1.45 system-ui, sans-serif; overflow-wrap: break-word;
}
h1 { font-size: 1.5rem; margin: 1rem 0 .25rem; }
h2 { font-size: 1.15rem; margin: 1.75rem 0 .5rem; }
p { margin: .25rem 0; }
a { color: var(--in); }
:focus-visible { outline: 3px solid var(--in); outline-offset: 2px; }
.skip { position: absolute; left: -99rem; }
.skip:focus { position: static; }
.quiet { color: var(--quiet); }
.head { display: flex; flex-wrap: wrap; gap: .5rem 1rem; align-items: center; }
button { font: inherit; color: inherit; background: var(--band); border: 1px solid var(--quiet); border-radius: .4rem; padding: .3rem .8rem; }
#gone { border: 2px solid var(--bad); border-radius: .4rem; padding: .5rem .75rem; margin: .5rem 0; color: var(--bad); font-weight: 600; }
.stale main { opacity: .55; }
dl { display: grid; grid-template-columns: repeat(auto-fit, minmax(9rem, 1fr)); gap: .5rem; margin: .75rem 0; }
dl div { background: var(--band); border: 1px solid var(--line); border-radius: .4rem; padding: .4rem .6rem; }
dt { color: var(--quiet); font-size: .85rem; }
dd { margin: 0; font-weight: 600; }
dd.what { color: var(--quiet); font-size: .8rem; font-weight: 400; }
table { width: 100%; border-collapse: collapse; }
caption { text-align: left; color: var(--quiet); font-size: .9rem; padding-bottom: .25rem; }
th, td { text-align: left; vertical-align: top; padding: .35rem .5rem .35rem 0; border-bottom: 1px solid var(--line); }
thead th { font-size: .85rem; color: var(--quiet); font-weight: 600; }
tbody th { font-weight: 600; }
small { display: block; color: var(--quiet); font-size: .8rem; font-weight: 400; }
.number { font-variant-numeric: tabular-nums; white-space: nowrap; }
.way { display: block; }
.good { color: var(--good); } .turning { color: var(--turning); } .bad { color: var(--bad); }
.in { color: var(--in); } .out { color: var(--out); }
.key span { white-space: nowrap; }
.plot { display: block; width: 100%; min-width: 4.5rem; height: 2.4rem; background: var(--band); border: 1px solid var(--line); }
.plot polyline { fill: none; stroke-width: 1.5; vector-effect: non-scaling-stroke; }
.plot .in { stroke: var(--in); } .plot .out { stroke: var(--out); }
#map { display: block; width: 100%; max-width: 36rem; height: auto; }
#map .set { fill: var(--quiet); font-size: 11px; }
#map text { fill: var(--ink); font-size: 13px; }
#map .place { fill: var(--band); stroke: var(--ink); stroke-width: 1.5; }
#map .link { fill: none; }
#map .link.good { stroke: var(--good); }
#map .link.turning { stroke: var(--turning); stroke-dasharray: 7 4; }
#map .link.bad { stroke: var(--bad); stroke-dasharray: 2 4; }
#notices, #alarms { list-style: none; margin: 0; padding: 0; }
#notices li, #alarms li { display: flex; flex-wrap: wrap; gap: 0 .75rem; padding: .25rem 0; border-bottom: 1px solid var(--line); }
#notices:empty::before { content: 'None yet.'; color: var(--quiet); }
#alarms:empty::before { content: 'None is raised.'; color: var(--good); }
#notices span, #alarms span { color: var(--quiet); font-variant-numeric: tabular-nums; }
footer { margin-top: 2rem; }
@media (max-width: 36rem) {
  table { table-layout: fixed; }
  th, td { padding-right: .4rem; font-size: .95rem; }
  .plot { min-width: 0; }
  .links th:nth-child(1) { width: 15%; }
  .links th:nth-child(2) { width: 34%; }
}
</style>
</head>
"#;
