//! How it stands with a row, as a terminal shows it.

use crate::timeline::bar_kind::BarKind;
use crate::timeline::bars::Bars;
use crate::timeline::row_kind::RowKind;

/// The letter of a row: `F` frozen, `H` held, `S` a set in the making, `m` an image in the making, else how many images there are;
/// `+` for more than nine.
pub fn letter_of(bars: &Bars<'_>, row: usize, kind: RowKind) -> u8 {
    let has = |kind: BarKind| bars.count(row, kind) > 0;
    match kind {
        RowKind::Provider if has(BarKind::Set) => b'S',
        RowKind::Writer if has(BarKind::Frozen) => b'F',
        RowKind::Volume if has(BarKind::Held) => b'H',
        RowKind::Volume if has(BarKind::Making) => b'm',
        RowKind::Volume => match bars.count(row, BarKind::Image) {
            0 => b'.',
            images if images < 10 => b'0' + images as u8,
            _ => b'+',
        },
        _ => b'.',
    }
}
