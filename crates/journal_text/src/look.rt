//! What a line is where a line of an event, or a closing line, belongs.

/// By its form alone, and for an added cube by whether what stands behind is one.
#[derive(Clone, Copy, Debug, PartialEq, Eq)]
pub enum Look {
    /// No such line.
    Formless,
    /// An added cube with a fault.
    Faulty,
    /// An added cube.
    Item,
    /// The expansion of a node.
    Expand,
    /// A closing line that says that the roots fill the log.
    Roots,
    /// Another closing line, or the end of the text.
    Closing,
}
