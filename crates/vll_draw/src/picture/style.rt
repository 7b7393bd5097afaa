//! How the page and its drawings look.

/// The colours and shapes of a drawing. They are in the first drawing, so that it is a picture by itself, and they
/// apply to the whole page.
pub(crate) const DRAWING: &str = "<style>
:root { --paper: #ffffff; --ink: #1c2024; --soft: #5b6570; --line: #d9dee3; --band: #f3f5f7; --turn: #e6e1f5;
  --wait: #fbe6b8; --run: #cfe5fb; --good: #1a7f45; --bad: #c02a37; --value: #d9efe1; --write: #f6c9b4; --read: #cfd6f6; }
@media (prefers-color-scheme: dark) { :root { --paper: #14171a; --ink: #e8ebee; --soft: #9aa5b1; --line: #30363d;
  --band: #1d2126; --turn: #3a3358; --wait: #5c4a17; --run: #1f4468; --good: #4cc38a; --bad: #ff7b86; --value: #1f4a33;
  --write: #6b3a22; --read: #343f75; } }
@media print { :root { --paper: #ffffff; --ink: #000000; --soft: #444444; --line: #cccccc; --band: #f3f5f7;
  --turn: #e6e1f5; --wait: #fbe6b8; --run: #cfe5fb; --good: #1a7f45; --bad: #c02a37; --value: #d9efe1; --write: #f6c9b4;
  --read: #cfd6f6; } * { print-color-adjust: exact; -webkit-print-color-adjust: exact; } }
svg { display: block; background: var(--paper); font: 10px system-ui, -apple-system, 'Segoe UI', 'DejaVu Sans', sans-serif; }
svg text { fill: var(--ink); }
svg a { cursor: pointer; text-decoration: none; }
svg a:hover .cell, svg a:focus .cell { fill: var(--ink); fill-opacity: 0.12; }
.paper { fill: var(--paper); }
.cell { fill: transparent; }
.grid { stroke: var(--line); stroke-width: 1; fill: none; }
.name { font-weight: 600; }
.soft { fill: var(--soft); }
svg text.soft, svg text.number { fill: var(--soft); font-size: 9px; }
svg text.number, svg text.mark { text-anchor: middle; }
svg text.mark { font-size: 9.5px; }
svg text.end { text-anchor: end; }
svg text.good { fill: var(--good); font-weight: 600; }
svg text.bad { fill: var(--bad); font-weight: 600; }
.lane { fill: var(--band); }
.turn { fill: var(--turn); }
.wait { fill: var(--wait); }
.run { fill: var(--run); }
.value { fill: var(--value); }
.write { fill: var(--write); }
.read { fill: var(--read); }
.granted { fill: var(--paper); stroke: var(--good); stroke-width: 1.5; }
.denied { fill: var(--paper); stroke: var(--bad); stroke-width: 1.5; stroke-dasharray: 3 2; }
</style>
";

/// How the text around the drawings looks.
pub(crate) const PAGE: &str = "<style>
body { margin: 0 auto; padding: 12px 10px; max-width: 980px; background: var(--paper); color: var(--ink);
  font: 14px/1.5 system-ui, -apple-system, 'Segoe UI', 'DejaVu Sans', sans-serif; }
h1 { font-size: 20px; margin: 0 0 4px; }
h2 { font-size: 16px; margin: 24px 0 4px; }
p { margin: 4px 0 8px; max-width: 80ch; }
dl { display: grid; grid-template-columns: max-content 1fr; gap: 0 12px; margin: 8px 0; font-size: 13px; }
dt { font-weight: 600; }
dd { margin: 0; color: var(--soft); }
figure { margin: 16px 0; break-inside: avoid; overflow-x: auto; }
figcaption { color: var(--soft); font-size: 13px; }
ol { list-style: none; margin: 0; padding: 0; font: 13px/1.45 ui-monospace, 'DejaVu Sans Mono', monospace; }
li { scroll-margin-top: 40vh; }
li:target { background: var(--wait); }
a { color: inherit; }
</style>
";
