//! The style of a page.

pub(crate) const STYLE: &str =
    ":root{color-scheme:light dark;--ground:#fff;--text:#1f2933;--soft:#68727d;--line:#d5dae0;--mark:#fff0b8;--born:#d8f2dc;--died:#f7d8d6;--up:#2e8b4f;--down:#c0453c;--here:#2f6fb2}
@media(prefers-color-scheme:dark){:root{--ground:#14181d;--text:#e4e8ee;--soft:#98a2ae;--line:#333b45;--mark:#5a4a12;--born:#1d4428;--died:#552422;--up:#5cc27f;--down:#e5776e;--here:#6aa9ea}}
*{box-sizing:border-box}
body{margin:0 auto;padding:12px 20px;max-width:1100px;font:14px system-ui,sans-serif;background:var(--ground);color:var(--text)}
h1{font-size:19px;margin:4px 0}
h2{font-size:15px;margin:18px 0 6px}
#notice{color:var(--down);white-space:pre-line;margin:0}
.bar{position:sticky;top:0;z-index:2;background:var(--ground);padding:8px 0;border-bottom:1px solid var(--line);display:flex;gap:8px;align-items:end}
.axis{flex:1;position:relative}
.axis canvas{display:block;width:100%;height:34px}
.axis input{width:100%;margin:0}
button{font:inherit;color:inherit;background:transparent;border:1px solid var(--line);border-radius:4px;padding:2px 9px;cursor:pointer}
button.on{border-color:var(--here);color:var(--here)}
#frame{min-width:9em;text-align:right;font-variant-numeric:tabular-nums}
.row{display:grid;height:26px;align-items:center;font-variant-numeric:tabular-nums}
.row>*{padding:0 8px;overflow:hidden;text-overflow:ellipsis;white-space:nowrap;line-height:24px}
.head{font-weight:600;border-bottom:1px solid var(--line);color:var(--soft)}
#rows{position:relative;overflow-y:auto;max-height:416px}
#space{position:relative}
#space .row{position:absolute;left:0;right:0}
.born{background:var(--born)}
.died{background:var(--died);text-decoration:line-through}
.changed{background:var(--mark)}
.gone{color:var(--soft)}
#told{margin:0;padding-left:20px;max-height:240px;overflow-y:auto}
#told .cell{color:var(--soft)}
.plot{position:relative}
.plot canvas{display:block;width:100%;height:240px;border:1px solid var(--line)}
#cursor{position:absolute;top:0;bottom:0;width:1px;background:var(--here)}
#kinds button{margin:0 6px 4px 0}
.scroll{overflow-x:auto}
.keys{color:var(--soft);font-size:12px}
";
