//! What is on the page.

/// What is on the page, before the script fills it in.
pub const OUTLINE: &str = r#"<body>
<a class="skip" href='#links'>To the links</a>
<header>
<div class="head"><h1 id="title">Signalling point</h1><button id="pause" type="button" aria-pressed="false">Pause</button></div>
<p id="age" class="quiet">Asking the node …</p>
<p id="gone" role="alert" hidden></p>
<noscript><p>This page needs JavaScript. <a href="/state.json">/state.json</a> and <a href="/metrics">/metrics</a> don't.</p></noscript>
</header>
<main>
<section aria-labelledby="flags">
<h2 id="flags">At a glance</h2>
<dl id="glance"></dl>
</section>
<section aria-labelledby="raised">
<h2 id="raised">Alarms</h2>
<p class="quiet">What is raised now, and for how long.</p>
<ol id="alarms"></ol>
<p id="more-alarms" class="quiet"></p>
</section>
<section aria-labelledby="neighbours">
<h2 id="neighbours">Neighbours</h2>
<svg id="map" role="img" aria-label="The node, its neighbours and the links between them; the table of links says the same."></svg>
<p class="quiet key"><span class="good">━ in service</span> · <span class="turning">╍ aligning or changing over</span> · <span class="bad">┈ out of service</span>. A thicker line carries more.</p>
</section>
<section aria-labelledby="links">
<h2 id="links" tabindex="-1">Links</h2>
<table class="links">
<caption>Messages a second that were accepted (<span class="in">in</span>) and sent (<span class="out">out</span>), also of the last five minutes, as far as this page was open</caption>
<thead><tr><th scope="col">Link</th><th scope="col">State</th><th scope="col">Per second</th><th scope="col">Five minutes</th></tr></thead>
<tbody id="link-rows"></tbody>
</table>
</section>
<section aria-labelledby="routes">
<h2 id="routes">Routes</h2>
<table>
<caption>The sets that lead to each destination, the preferred one first: <span class="good">●</span> its messages take it, ○ they don’t</caption>
<thead><tr><th scope="col">Destination</th><th scope="col">Sets</th><th scope="col">Status</th></tr></thead>
<tbody id="route-rows"></tbody>
</table>
<p id="more-routes" class="quiet"></p>
</section>
<section aria-labelledby="noted">
<h2 id="noted">Notices</h2>
<p class="quiet">The newest first, each with its number and the time at which it came.</p>
<ol id="notices" aria-live="polite" aria-relevant="additions"></ol>
</section>
</main>
<footer class="quiet"><p>For programs: <a href="/metrics">metrics</a> and <a href="/state.json">state</a></p></footer>
"#;
