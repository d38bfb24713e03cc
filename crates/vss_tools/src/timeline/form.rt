/// How a picture is written.
#[derive(Clone, Copy)]
pub enum Form {
    /// As a drawing for a browser.
    Drawing,
    /// As lines for a terminal.
    Lines,
}
