//! How an SVG looks, on light and on dark.
use crate::picture::Tie;
use crate::text::page::Page;

static STYLE: [&str; 31] = [
    ".paper{fill:#fff}",
    "text{font:12px ui-monospace,SFMono-Regular,Menlo,Consolas,\"DejaVu Sans Mono\",monospace;fill:#1f2328}",
    ".head{font-size:15px;font-weight:600}",
    ".soft{font-size:11px;fill:#59636e}",
    ".name{font-weight:600}",
    ".row text,.left{paint-order:stroke;stroke:#fff;stroke-width:4px;stroke-linejoin:round}",
    ".lane{stroke:#d1d9e0;stroke-width:2}",
    ".dot{fill:#1f2328}",
    ".came{fill:#fff;stroke:#59636e;stroke-width:1.5}",
    ".fold{fill:#f6f8fa;stroke:#d1d9e0;stroke-dasharray:4 3}",
    ".band{fill:#cf222e;fill-opacity:.12}",
    ".bad{fill:#cf222e}",
    ".wait{stroke:#cf222e;stroke-width:2;stroke-dasharray:5 4}",
    ".arrow{fill:none;stroke-width:1.5}",
    "path.read{stroke:#0969da}.tip.read{fill:#0969da}",
    "path.lock{stroke:#8250df}.tip.lock{fill:#8250df}",
    "path.spawn,path.join{stroke:#59636e}.tip.spawn,.tip.join{fill:#59636e}",
    "path.wake{stroke:#1a7f37}.tip.wake{fill:#1a7f37}",
    "path.message{stroke:#9a6700}.tip.message{fill:#9a6700}",
    "@media(prefers-color-scheme:dark){",
    ".paper{fill:#0d1117}text{fill:#e6edf3}.soft{fill:#9198a1}",
    ".row text,.left{stroke:#0d1117}",
    ".lane{stroke:#3d444d}.dot{fill:#e6edf3}.came{fill:#0d1117;stroke:#9198a1}",
    ".fold{fill:#151b23;stroke:#3d444d}",
    ".bad,.band{fill:#ff7b72}.wait{stroke:#ff7b72}",
    "path.read{stroke:#58a6ff}.tip.read{fill:#58a6ff}",
    "path.lock{stroke:#bc8cff}.tip.lock{fill:#bc8cff}",
    "path.spawn,path.join{stroke:#9198a1}.tip.spawn,.tip.join{fill:#9198a1}",
    "path.wake{stroke:#3fb950}.tip.wake{fill:#3fb950}",
    "path.message{stroke:#d29922}.tip.message{fill:#d29922}",
    "}",
];

/// What arrows say, in the order of the legend.
pub(crate) static TIES: [Tie; 6] = [
    Tie::Read,
    Tie::Lock,
    Tie::Spawn,
    Tie::Join,
    Tie::Wake,
    Tie::Message,
];

impl Tie {
    /// A word for it.
    pub(crate) fn name(self) -> &'static str {
        match self {
            Tie::Read => "read",
            Tie::Lock => "lock",
            Tie::Spawn => "spawn",
            Tie::Join => "join",
            Tie::Wake => "wake",
            Tie::Message => "message",
        }
    }
}

/// The style of a picture.
pub(crate) fn put_style(out: &mut Page) {
    out.words("<style>\n");
    for line in &STYLE {
        out.words(*line);
        out.words("\n");
    }
    out.words("</style>\n");
}

/// The tips of arrows, one of each kind.
pub(crate) fn put_tips(out: &mut Page) {
    out.words("<defs>\n");
    for tie in &TIES {
        put_tip(out, tie.name());
    }
    out.words("</defs>\n");
}

fn put_tip(out: &mut Page, name: &str) {
    out.words("<marker id=\"");
    out.words(name);
    out.words(
        "\" viewBox=\"0 0 8 8\" refX=\"7\" refY=\"4\" markerWidth=\"7\" markerHeight=\"7\" orient=\"auto\">",
    );
    out.words("<path class=\"tip ");
    out.words(name);
    out.words("\" d=\"M0 0L8 4L0 8z\"/></marker>\n");
}
