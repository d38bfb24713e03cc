/// Why a text is no job.
#[derive(Clone, Copy, Debug, PartialEq, Eq)]
pub enum JobFault {
    /// A line, counted from 1, and what is wrong with it.
    Line { line: u32, reason: JobReason },
    OutOfMemory,
}

/// What is wrong with a line of a job.
#[derive(Clone, Copy, Debug, PartialEq, Eq)]
pub enum JobReason {
    /// The first line is another than `job 1`.
    NotJob,
    /// The first word is none of a job.
    UnknownWord,
    /// The word has other fields.
    Fields,
    NoSuchWriter,
    /// The volume that this field of the line names; field 0 is the word.
    NoSuchVolume { field: u32 },
    /// What this field says may be said once, and a line above says it.
    Twice { field: u32 },
    /// There is no volume: it is said of the line after the last.
    NoVolume,
    /// There is no writer: it is said of the line after the last.
    NoWriter,
    /// No component has this volume, so nobody would hold its file still.
    NobodyHolds,
}

/// The form of the lines of a word.
fn form_of(word: &str) -> &'static str {
    match word {
        "volume" => "the form is `volume NAME FILE` or `volume NAME FILE or-none`",
        "writer" => "the form is `writer NAME DOCUMENT`",
        "files" => "the form is `files WRITER COMPONENT VOLUME ..`",
        "take" => "the form is `take WRITER COMPONENT`",
        "hook" => "the form is `hook WRITER COMMAND ..`",
        _ => "the form is `least N`, with N from 0 to 4294967295",
    }
}

impl JobReason {
    /// Which field of the line it is about; field 0 is the word.
    pub fn field(self) -> u32 {
        match self {
            JobReason::NoSuchVolume { field } | JobReason::Twice { field } => field,
            JobReason::NoSuchWriter | JobReason::NobodyHolds => 1,
            _ => 0,
        }
    }

    /// What is said of it, in a line that begins with this word.
    pub fn said(self, word: &str) -> &'static str {
        match self {
            JobReason::NotJob => "a job begins with the line `job 1`",
            JobReason::UnknownWord => {
                "no line begins so; the words are volume, writer, files, take, hook and least"
            }
            JobReason::Fields => form_of(word),
            JobReason::NoSuchWriter => "no line above has `writer` and this name",
            JobReason::NoSuchVolume { .. } => "no line above has `volume` and this name",
            JobReason::Twice { .. } => "a line above says it already",
            JobReason::NoVolume => "there is no line `volume NAME FILE`",
            JobReason::NoWriter => "there is no line `writer NAME DOCUMENT`",
            JobReason::NobodyHolds => {
                "no line `files ..` has this volume, so nobody would hold its file still"
            }
        }
    }
}
