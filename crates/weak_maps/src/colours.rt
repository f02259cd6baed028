// The colours in which marking looks at entries.

/// A colour in which marking follows cells and looks at entries (SpiderMonkey's MarkColor).
#[derive(Clone, Copy, Debug, PartialEq, Eq)]
pub enum MarkColour {
    /// What gray roots alone keep alive.
    Gray,
    /// What black roots keep alive.
    Black,
}
