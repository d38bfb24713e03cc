/// The first line of a text, from 1, that is another than a report's, and that line of the report.
#[derive(Clone, Copy)]
pub struct Other<'a> {
    pub line: u32,
    pub wanted: &'a [u8],
}
