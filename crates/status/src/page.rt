//! The page that a browser shows.

ghost use Rattle.std.specs.Prelude.{◌≡◌};

/// All of the page, its style and its script. It asks for `/history.json` once and for `/data.json` each second, and for
/// nothing else.
pub const PAGE: &str = r##"<!doctype html>
<html lang="en">
<head>
<meta charset="utf-8">
<meta name="viewport" content="width=device-width, initial-scale=1">
<title>eve_cached</title>
<style>
:root { color-scheme: light dark; --back: #f5f6f8; --card: #fff; --text: #1b1f24; --soft: #5d6773; --line: #dfe3e8; --good: #1a7f37; --bad: #c3281f; --bar: #2f6fde; }
@media (prefers-color-scheme: dark) { :root { --back: #0f1216; --card: #191d23; --text: #e8ebef; --soft: #99a3af; --line: #2b313a; --good: #4cc26b; --bad: #ff766c; --bar: #6ea0ff; } }
* { box-sizing: border-box; }
body { margin: 0 auto; max-width: 1040px; padding: 16px; background: var(--back); color: var(--text); font: 15px/1.45 system-ui, sans-serif; }
header { display: flex; flex-wrap: wrap; align-items: baseline; gap: 4px 14px; margin: 4px 0 14px; }
h1 { font-size: 21px; margin: 0; }
h2 { font-size: 15px; margin: 0 0 10px; }
#state { font-weight: 600; }
.good { color: var(--good); }
.bad { color: var(--bad); }
.soft { color: var(--soft); }
.grid { display: grid; gap: 12px; grid-template-columns: repeat(4, minmax(0, 1fr)); margin-bottom: 12px; }
.grid:empty { display: none; }
.wide { display: grid; gap: 12px; grid-template-columns: repeat(auto-fit, minmax(min(380px, 100%), 1fr)); align-items: start; margin-bottom: 12px; }
.card { background: var(--card); border: 1px solid var(--line); border-radius: 8px; padding: 12px 14px; min-width: 0; }
.value { font-size: 24px; font-weight: 600; font-variant-numeric: tabular-nums; white-space: nowrap; }
.note { font-size: 12px; color: var(--soft); }
@media (max-width: 700px) { .grid { grid-template-columns: repeat(2, minmax(0, 1fr)); } .value { font-size: 21px; } }
.nodes { display: grid; gap: 8px; grid-template-columns: repeat(auto-fill, minmax(128px, 1fr)); margin: 0; padding: 0; list-style: none; }
.nodes li { border: 1px solid var(--line); border-left: 5px solid var(--good); border-radius: 6px; padding: 6px 9px; }
.nodes li.down { border-left-color: var(--bad); }
#copies { margin-bottom: 12px; }
#folders { grid-template-columns: repeat(auto-fill, minmax(220px, 1fr)); }
table { border-collapse: collapse; width: 100%; font-variant-numeric: tabular-nums; }
th { text-align: left; font-weight: 400; color: var(--soft); }
td { text-align: right; }
th, td { padding: 3px 0; border-top: 1px solid var(--line); }
tr:first-child > * { border-top: 0; }
svg { display: block; width: 100%; height: 90px; }
polyline { fill: none; stroke: var(--bar); stroke-width: 2; vector-effect: non-scaling-stroke; }
rect { fill: var(--bar); }
.axis { display: flex; justify-content: space-between; font-size: 12px; color: var(--soft); }
</style>
</head>
<body>
<header><h1>eve_cached <span id="version"></span></h1><span id="state">waiting for figures</span><span id="uptime" class="soft"></span></header>
<div class="grid" id="tiles"></div>
<div class="grid" id="saves"></div>
<section class="card" id="copies" hidden><h2>Folders</h2><ul class="nodes" id="folders"></ul></section>
<div class="wide">
<section class="card"><h2>Executors</h2><ul class="nodes" id="executors"></ul></section>
<section class="card"><h2>Verifiers</h2><ul class="nodes" id="verifiers"></ul></section>
</div>
<div class="wide">
<section class="card"><h2>Commands a second</h2><svg id="rate" viewBox="0 0 120 100" preserveAspectRatio="none" role="img" aria-label="Commands a second over the last ten minutes"></svg><div class="axis"><span>10 minutes ago</span><span>now</span></div><div id="peak" class="soft"></div></section>
<section class="card"><h2>Time to reply, last 10 seconds</h2><svg id="times" viewBox="0 0 160 100" preserveAspectRatio="none" role="img" aria-label="Replies by their time"></svg><div class="axis"><span>up to 50 µs</span><span>over 2.5 s</span></div><div id="quantiles" class="soft"></div></section>
</div>
<div class="wide">
<section class="card"><h2>Replication</h2><table id="replicas"></table></section>
<section class="card"><h2>Connections and memory</h2><table id="others"></table></section>
</div>
<div class="wide">
<section class="card"><h2>Commands</h2><table id="commands"></table></section>
<section class="card"><h2>Refused lines</h2><table id="refusals"></table></section>
</div>
<script>
"use strict";
const bounds = [50, 100, 250, 500, 1e3, 2500, 5e3, 1e4, 25e3, 5e4, 1e5, 25e4, 5e5, 1e6, 25e5];
const names = ["get", "gets", "gat", "gats", "set", "add", "replace", "append", "prepend", "cas", "delete", "touch", "incr", "decr"];
const whys = ["Unknown command or wrong count of words", "Bad word", "Bad number", "Block with a bad end", "Line too long", "Block too large", "Binary protocol", "HTTP", "Not allowed", "No room: the limit of bytes"];
const kept = [];
const at = id => document.getElementById(id);
const sum = list => list.reduce((a, b) => a + b, 0);
const whole = n => Math.round(n).toLocaleString("en");
const short = n => n < 1e4 ? whole(n) : n < 1e6 ? (n / 1e3).toFixed(1) + " k" : n < 1e9 ? (n / 1e6).toFixed(2) + " M" : (n / 1e9).toFixed(2) + " G";
const size = n => n < 1024 ? n + " B" : n < 1000 * 1024 ? (n / 1024).toFixed(1) + " KiB" : n < 1000 * (1 << 20) ? (n / (1 << 20)).toFixed(1) + " MiB" : (n / (1 << 30)).toFixed(2) + " GiB";
const time = us => us === undefined ? "none" : us === Infinity ? "over 2.5 s" : us < 1e3 ? us + " µs" : us < 1e6 ? us / 1e3 + " ms" : us / 1e6 + " s";
function span(s) {
  const d = Math.floor(s / 86400), h = Math.floor(s / 3600) % 24, m = Math.floor(s / 60) % 60;
  return d ? d + " d " + h + " h" : h ? h + " h " + m + " min" : m ? m + " min " + s % 60 + " s" : s + " s";
}
function element(name, text, kind) {
  const made = document.createElement(name);
  made.textContent = text;
  if (kind) made.className = kind;
  return made;
}
function fill(id, children) { at(id).replaceChildren(...children); }
function rows(id, list) {
  fill(id, list.map(([name, value]) => {
    const row = document.createElement("tr"), head = element("th", name);
    head.scope = "row";
    row.append(head, element("td", value));
    return row;
  }));
}
function tiles(id, list) {
  fill(id, list.map(([name, value, note, kind]) => {
    const card = element("div", "", "card");
    card.append(element("div", name, "soft"), element("div", value, "value " + (kind || "")), element("div", note, "note"));
    return card;
  }));
}
function nodes(id, list) {
  fill(id, list.map((node, number) => {
    const item = element("li", "", node.up ? "" : "down");
    item.append(element("div", number + (node.up ? " up" : " down")), element("div", node.stops === 0 ? "never stopped" : node.stops === 1 ? "stopped once" : "stopped " + whole(node.stops) + " times", "soft"));
    return item;
  }));
}
function folders(list) {
  at("copies").hidden = list.length < 2;
  fill("folders", list.map((folder, number) => {
    const item = element("li", "", folder.current ? "" : "down");
    const saved = folder.saved_at ? "saved " + span(Math.max(0, Math.round(Date.now() / 1e3 - folder.saved_at))) + " ago" : "not saved yet";
    item.append(element("div", number + (folder.current ? " has the last save" : " lacks the last save")), element("div", saved + ", " + whole(folder.failed) + (folder.failed === 1 ? " save failed, " : " saves failed, ") + size(folder.bytes), "soft"));
    return item;
  }));
}
function quantile(counts, part) {
  const all = sum(counts);
  let seen = 0;
  for (let i = 0; all > 0 && i < counts.length; i++) {
    seen += counts[i];
    if (seen >= part * all) return i < bounds.length ? bounds[i] : Infinity;
  }
}
function svg(name, attributes) {
  const made = document.createElementNS("http://www.w3.org/2000/svg", name);
  for (const [key, value] of Object.entries(attributes)) made.setAttribute(key, value);
  return made;
}
function charts(rates, counts) {
  const most = Math.max(1, ...rates.map(r => r.value)), top = Math.max(1, ...counts);
  const points = rates.map(r => (120 - r.ago / 5) + "," + (98 - 94 * r.value / most)).join(" ");
  fill("rate", [svg("polyline", { points })]);
  at("peak").textContent = "peak " + short(most);
  fill("times", counts.map((n, i) => svg("rect", { x: i * 10 + 1, width: 8, y: 100 - 98 * n / top, height: 98 * n / top })));
  at("quantiles").textContent = "half within " + time(quantile(counts, .5)) + ", 99 % within " + time(quantile(counts, .99));
}
function keep(f) {
  const last = kept.length ? kept[kept.length - 1].uptime_seconds : -1;
  if (f.uptime_seconds < last) kept.length = 0;
  if (f.uptime_seconds !== last) kept.push({ uptime_seconds: f.uptime_seconds, requests: f.batches.requests, keys: f.keys, replies: f.times.reply.counts });
  while (kept[0].uptime_seconds < f.uptime_seconds - 600) kept.shift();
}
function before(sample, seconds) {
  return kept.findLast(s => s.uptime_seconds <= sample.uptime_seconds - seconds) || kept[0];
}
function rate(now) {
  const then = before(now, 5);
  return now === then ? 0 : Math.max(0, (now.requests - then.requests) / (now.uptime_seconds - then.uptime_seconds));
}
function show(f) {
  keep(f);
  const then = before(f, 10);
  const members = f.replicas.members, executors = f.replicas.executors.slice(0, members), verifiers = f.replicas.verifiers.slice(0, members);
  const down = executors.concat(verifiers).filter(node => !node.up).length;
  const rates = kept.slice(1).map(s => ({ ago: f.uptime_seconds - s.uptime_seconds, value: rate(s) }));
  const counts = f.times.reply.counts.map((n, i) => Math.max(0, n - then.replies[i]));
  const asked = f.keys.asked - then.keys.asked, found = f.keys.found - then.keys.found;
  const refused = sum(f.refusals), limit = f.server.limits.item_bytes;
  const failing = f.saves.failing > 0, behind = f.saves.folders - f.saves.current_folders, troubles = [];
  if (down) troubles.push(down + (down > 1 ? " nodes are down" : " node is down"));
  if (failing) troubles.push("nothing is answered: the last save failed");
  else if (behind > 0) troubles.push("the last save is in " + f.saves.current_folders + " of " + f.saves.folders + " folders");
  at("state").textContent = troubles.join("; ") || "all nodes are up";
  at("state").className = troubles.length ? "bad" : "good";
  at("version").textContent = f.server.version;
  at("uptime").textContent = "u " + (members - 1) / 2 + ", started " + span(f.uptime_seconds) + " ago";
  tiles("tiles", [["Commands / s", short(rates.length ? rates[rates.length - 1].value : 0), "last 5 seconds"], ["Keys found", asked ? (100 * found / asked).toFixed(1) + " %" : "none asked", "last 10 seconds"],
    ["99 % within", time(quantile(counts, .99)), "last 10 seconds"], ["Connections", whole(f.connections.open), f.server.limits.connections ? "of " + whole(f.server.limits.connections) : "", f.connections.open < f.server.limits.connections ? "" : "bad"],
    ["Items", short(f.memory.items), "each in every executor"], ["Keys and values", size(f.memory.item_bytes), limit ? "of " + size(limit) : "no limit", limit && limit <= f.memory.item_bytes ? "bad" : ""],
    ["Memory", f.memory.resident_bytes ? size(f.memory.resident_bytes) : "unknown", "of the process"], ["Refused lines", short(refused), "since the start"]]);
  tiles("saves", f.saves.made || f.saves.failed ? [["Saves", short(f.saves.made), "since the start"], ["Saves that failed", whole(f.saves.failed), failing ? "the last one too" : "since the start", failing ? "bad" : ""],
    ["Waiting for a save", short(f.saves.waiting), f.saves.waiting === 1 ? "message to a connection" : "messages to connections"], ["Data on disk", size(f.saves.bytes), f.saves.folders === 1 ? "files in the folder" : "files in all folders"],
    ["Folders", whole(f.saves.current_folders) + " of " + whole(f.saves.folders), f.saves.current_folders === 1 ? "has the last save" : "have the last save", behind > 0 ? "bad" : ""], ["A save takes", time(Math.round(f.times.save.sum / Math.max(1, sum(f.times.save.counts)))), "mean since the start"]] : []);
  charts(rates, counts);
  folders(f.saves.made || f.saves.failed ? f.saves.each_folder : []);
  nodes("executors", executors);
  nodes("verifiers", verifiers);
  rows("replicas", [["Epoch", whole(f.replicas.epoch)], ["View", whole(f.replicas.view)], ["State", whole(f.replicas.number)], ["Suspicions", whole(f.replicas.suspicions)],
    ["Commits", whole(f.batches.committed)], ["Rollbacks", whole(f.batches.rolled_back)], ["Requests a batch", f.batches.cut ? (f.batches.requests / f.batches.cut).toFixed(1) : "none"]]);
  rows("commands", f.commands.map((list, i) => [names[i], whole(sum(list))]));
  rows("others", [["Accepted", whole(f.connections.accepted)], ["Refused", whole(f.connections.refused)], ["Could not be accepted", whole(f.connections.failed)],
    ["Closed since idle", f.server.limits.idle_seconds ? whole(f.connections.idle) : "--idle is off"], ["Read", size(f.connections.bytes_read)], ["Written", size(f.connections.bytes_written)], ["Memory refused", whole(f.memory.refusals)]]);
  rows("refusals", f.refusals.map((n, i) => [whys[i], whole(n)]));
}
async function ask(path) {
  return (await fetch(path, { cache: "no-store" })).json();
}
async function renew() {
  try {
    show(await ask("/data.json"));
  } catch (e) {
    at("state").textContent = "no answer";
    at("state").className = "bad";
  }
  setTimeout(renew, 1000);
}
async function start() {
  try {
    kept.push(...await ask("/history.json"));
  } catch (e) {
    kept.length = 0;
  }
  renew();
}
start();
</script>
</body>
</html>
"##;

/// The bytes of the page.
pub fn page_bytes() -> &'static [u8]
    ensures { result.now ≡ PAGE.now }
{
    PAGE.as_bytes()
}
