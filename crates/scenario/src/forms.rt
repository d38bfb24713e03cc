//! The forms of all lines, as one table: the fields of a line with their bounds, what the line says, and of what there may be only so
//! much. The reader (`read!`) and what is told of the forms (`fields_of!`) are made of the same rows.
//!
//! The row of a word has its forms, each with what it says by the names of its fields: `(NAME: KIND, ..) => VALUE, ..`. Of two forms with
//! as many fields the first has an `if`, and tells itself by a word in brackets. A kind that needs fields before it names them.

pub(crate) const MOST_AREAS: usize = 128;

/// Of the blocks of all volumes and the slots of all areas together.
pub(crate) const MOST_SIZE: u64 = 131_072;

/// Of the orders of a kind that a script speaks of.
pub(crate) const MOST_NTH: u32 = 2_000;
/// Of the `answer` lines.
pub(crate) const MOST_ANSWERS: usize = 10_000;

pub(crate) const MOST_LANES: usize = 64;
/// Of the lines of all lanes together.
pub(crate) const MOST_LINES: usize = 100_000;
/// Of those that may begin an agenda.
pub(crate) const MOST_AGENDA_LINES: usize = 2_000;

/// The row of a word, for `read!` or `fields_of!`.
macro_rules! forms {
    (Scenario $do:ident $in:tt) => { $do! { $in (_version: VERSION) => Entry::Opening } };
    (Area $do:ident [$fields:ident $text:ident $draft:ident]) => {
        $do! { [$fields $text $draft]
            (name: NAME(Area), slots: SLOTS) => {
                at_most($draft.areas().len(), MOST_AREAS, "areas")?;
                space_for($draft, slots)?;
                Entry::Area(GroupRow { name, slots })
            }
        }
    };
    (Volume $do:ident [$fields:ident $text:ident $draft:ident]) => {
        $do! { [$fields $text $draft]
            (name: NAME(Volume), blocks: BLOCKS, slots: SLOTS) => {
                at_most($draft.volumes().len(), MOST_VOLUMES as usize, "volumes")?;
                space_for($draft, blocks + slots)?;
                let group = $draft.groups() as u32;
                Entry::OwnVolume(VolumeRow { name, blocks, slots, group })
            },
            (name: NAME(Volume), blocks: BLOCKS, _in: "in", area: AREA) => {
                at_most($draft.volumes().len(), MOST_VOLUMES as usize, "volumes")?;
                space_for($draft, blocks)?;
                let (a, area) = area;
                let group = group_for($draft, area);
                Entry::SharedVolume(VolumeRow { name, blocks, slots: area.slots, group }, a, area)
            }
        }
    };
    (Writer $do:ident $in:tt) => { $do! { $in (name: NAME(Writer), document: DOCUMENT) => (name, document) } };
    (Answer $do:ident [$fields:ident $text:ident $draft:ident]) => {
        $do! { [$fields $text $draft]
            (writer: WRITER, order: ORDER, nth: NTH(writer, order), _lost: "lost") => {
                answer_if($draft, Asked { writer, order, nth }, None)?
            },
            (writer: WRITER, order: ORDER, nth: NTH(writer, order), _veto: "veto", code: CODE) => {
                answer_if($draft, Asked { writer, order, nth }, Some(Answer::Veto(code)))?
            }
        }
    };
    (Lane $do:ident [$fields:ident $text:ident $draft:ident]) => {
        $do! { [$fields $text $draft]
            (name: NAME(Lane)) => lane_if($draft, name, None)?,
            (name: NAME(Lane), _as: "as", writer: WRITER) => lane_if($draft, name, Some(writer))?
        }
    };
    (Write $do:ident $in:tt) => {
        $do! { $in
            (volume: VOLUME, block: BLOCK(volume), kind: ["fill"], byte: BYTE) if kind "fill" => Op::WriteFill { volume, block, byte },
            (volume: VOLUME, block: BLOCK(volume), _kind: "stamp", number: NUMBER) => Op::WriteStamp { volume, block, number }
        }
    };
    (Read $do:ident $in:tt) => { $do! { $in (volume: VOLUME, block: BLOCK(volume)) => Op::Read { volume, block } } };
    (Image $do:ident $in:tt) => {
        $do! { $in
            (set: SET, volume: VOLUME) => Op::ImageDigest { set, volume },
            (set: SET, volume: VOLUME, block: BLOCK(volume)) => Op::ImageBlock { set, volume, block }
        }
    };
    (Query $do:ident $in:tt) => { $do! { $in (volume: VOLUME) => Op::Query { volume } } };
    (Properties $do:ident $in:tt) => { $do! { $in (set: SET, volume: VOLUME) => Op::Properties { set, volume } } };
    (Revert $do:ident $in:tt) => { $do! { $in (set: SET, volume: VOLUME) => Op::Revert { set, volume } } };
    (Delete $do:ident $in:tt) => {
        $do! { $in
            (set: SET) => Op::DeleteSet { set },
            (set: SET, volume: VOLUME) => Op::DeleteImage { set, volume }
        }
    };
    (Tick $do:ident $in:tt) => { $do! { $in (ticks: TICKS) => Op::Tick { ticks } } };
    (Begin $do:ident $in:tt) => {
        $do! { $in
            (context: CONTEXT) => Op::Begin { context, all: false },
            (context: CONTEXT, _all: "all") => Op::Begin { context, all: true }
        }
    };
    (Disable $do:ident $in:tt) => { $do! { $in (writer: WRITER) => Op::Disable { writer } } };
    (Component $do:ident $in:tt) => { $do! { $in (writer: WRITER, full: FULL_NAME) => Op::Component { writer, full } } };
    (Add $do:ident $in:tt) => { $do! { $in (volume: VOLUME) => Op::Add { volume } } };
    // a word alone
    ($line:ident $do:ident [$fields:ident $text:ident $draft:ident]) => { $do! { [$fields $text $draft] () => Op::$line } };
}

/// The value of a field of this kind.
macro_rules! value {
    ($text:ident $draft:ident $field:ident VERSION) => { number_field($text, Quantity::Version, 1, 1, $field)? };
    ($text:ident $draft:ident $field:ident SLOTS) => { number_field($text, Quantity::Slots, 0, MOST_SLOTS, $field)? };
    ($text:ident $draft:ident $field:ident BLOCKS) => { number_field($text, Quantity::Blocks, 1, MOST_BLOCKS, $field)? };
    ($text:ident $draft:ident $field:ident SET) => { number_field($text, Quantity::Set, 1, u32::MAX, $field)? };
    ($text:ident $draft:ident $field:ident TICKS) => { number_field($text, Quantity::Ticks, 1, 1_000_000_000, $field)? };
    ($text:ident $draft:ident $field:ident CONTEXT) => { number_field($text, Quantity::Context, 0, u32::MAX, $field)? };
    ($text:ident $draft:ident $field:ident BYTE) => { number_field($text, Quantity::Byte, 0, 255, $field)? as u8 };
    ($text:ident $draft:ident $field:ident NUMBER) => { long_field($text, Quantity::Stamp, 0, u64::MAX, $field)? };
    ($text:ident $draft:ident $field:ident NTH($writer:ident, $order:ident)) => { nth_field($text, $draft, $writer, $order, $field)? };
    ($text:ident $draft:ident $field:ident BLOCK($volume:ident)) => { block_field($text, $draft, $volume, $field)? };
    ($text:ident $draft:ident $field:ident NAME($of:ident)) => { new_name($text, $draft, NameKind::$of, $field.span())? };
    ($text:ident $draft:ident $field:ident VOLUME) => { declared_field($text, $draft, NameKind::Volume, $field)? };
    ($text:ident $draft:ident $field:ident WRITER) => { declared_field($text, $draft, NameKind::Writer, $field)? };
    ($text:ident $draft:ident $field:ident AREA) => { area_field($text, $draft, $field)? };
    ($text:ident $draft:ident $field:ident ORDER) => { order_field($text, $field)? };
    ($text:ident $draft:ident $field:ident CODE) => { code_field($text, $field)? };
    ($text:ident $draft:ident $field:ident DOCUMENT) => { $field };
    ($text:ident $draft:ident $field:ident FULL_NAME) => { $field.span() };
    ($text:ident $draft:ident $field:ident [$word:literal]) => { () };
    ($text:ident $draft:ident $field:ident $word:literal) => { word_field($text, $field, $word)? };
}

/// The fields of these names.
macro_rules! shape {
    () => { Fields::Zero };
    ($a:ident) => { Fields::One($a) };
    ($a:ident $b:ident) => { Fields::Two($a, $b) };
    ($a:ident $b:ident $c:ident) => { Fields::Three($a, $b, $c) };
    ($a:ident $b:ident $c:ident $d:ident) => { Fields::Four($a, $b, $c, $d) };
    ($a:ident $b:ident $c:ident $d:ident $e:ident) => { Fields::Five($a, $b, $c, $d, $e) };
}

/// What the fields of a line say, by the row of its word.
macro_rules! read {
    ([$fields:ident $text:ident $draft:ident] () => $says:expr) => { alone($says, $fields) };
    ([$fields:ident $text:ident $draft:ident] $(
        ($($field:ident: $kind:tt $(($($with:ident),*))?),*) $(if $told:ident $by:literal)? => $says:expr
    ),+) => {
        match $fields {
            $(shape!($($field)*) $(if is_word($text, $told, $by.as_bytes()))? => {
                $(let $field = value!($text $draft $field $kind $(($($with),*))?);)*
                Ok($says)
            })+
            _ => Err(Cause::no_form()),
        }
    };
}

/// How a field of this kind is written in a form.
macro_rules! kind_name {
    (VERSION) => { "1" };
    (FULL_NAME) => { "FULL-NAME" };
    ([$word:literal]) => { $word };
    ($word:literal) => { $word };
    ($kind:ident) => { stringify!($kind) };
}

/// The fields of each form, by the row of a word.
macro_rules! fields_of {
    ($in:tt $(
        ($($field:ident: $kind:tt $(($($with:ident),*))?),*) $(if $told:ident $by:literal)? => $says:expr
    ),+) => { &[$(&[$(kind_name!($kind)),*]),+] };
}

/// What is made of the row of a word that is one of these, or after `lanes` of a lane but for `read` and `write`; behind them stand arms for
/// other words.
macro_rules! by_word {
    ($word:ident $do:ident $in:tt lanes $($line:ident)*; $($more:tt)*) => {
        by_word!($word $do $in Image Query Properties Revert Delete Tick Begin Disable Gather Component Document Start Add Prepare Snapshot
            Await Status Complete Abort End $($line)*; $($more)*)
    };
    ($word:ident $do:ident $in:tt $($line:ident)*; $($more:tt)*) => {
        match $word { $(Word::$line => forms!($line $do $in),)* $($more)* }
    };
}

pub(crate) use by_word;
pub(crate) use fields_of;
pub(crate) use forms;
pub(crate) use kind_name;
pub(crate) use read;
pub(crate) use shape;
pub(crate) use value;
